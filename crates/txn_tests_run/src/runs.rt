//! Whole runs of the program: what it is given, its exit status, and what it prints.
use std::alloc::Global;
use std::process::Abort;
use txn_run::{End, MemorySink, MemorySource, RunEnd, Source, SureSource, run_program};

/// A run of a script, with these words on the command line.
struct Run {
    name: &'static str,
    words: &'static [&'static str],
    script: &'static [u8],
    /// Which write fails, counted from 1, if one does. Each takes ten bytes.
    failing_write: u64,
    end: &'static str,
    printed: &'static [u8],
}

const GOOD: Run = Run {
    name: "",
    words: &[],
    script: b"",
    failing_write: 0,
    end: "status 0",
    printed: b"",
};

fn words(rt: &impl Abort, alloc: Global, texts: &[&str]) -> Vec<String> {
    let mut words = Vec::new(alloc);
    for text in texts {
        let word = String::from_str(alloc, text).expect(rt, "memory");
        words.push(word).expect(rt, "memory");
    }
    words
}

fn end_text(rt: &impl Abort, alloc: Global, run: &RunEnd) -> String {
    let status = run.status;
    let text = match &run.end {
        End::WriteFault { written } => format!(in alloc; "status {status} after {written}"),
        _ => format!(in alloc; "status {status}"),
    };
    text.expect(rt, "memory")
}

fn expect_run<S: Source>(rt: &impl Abort, alloc: Global, source: &mut S, run: &Run) {
    let name = run.name;
    let words = words(rt, alloc, run.words);
    let failing = vec![in alloc; run.failing_write].expect(rt, "memory");
    let mut sink = MemorySink::new(alloc, 10, failing);
    let end = run_program(alloc, &words, source, &mut sink);
    assert_eq!(rt; end_text(rt, alloc, &end).as_str(), run.end, "{name}");
    assert_eq!(rt; sink.written(), run.printed, "{name}");
}

const FIRST_COMMIT: &[u8] =
    b"client\nbegin 1 opt\ndeliver 2.1\nput 2 k1 v1\ncommit 2\ndeliver 5.1\ndeliver 5.2\ndeliver 5.3\ndeliver 5.4\ndeliver 5.5\n";

static RUNS: [Run; 11] = [
    Run {
        name: "the first commit",
        script: FIRST_COMMIT,
        printed: b"1 ok\n2 ok 1\n3 done\n4 ok\n5 ok 2\n6 done\n7 done\n8 done\n9 done\n10 done\nkey k1 commit 1 2 put v1\nsent 6 served 6\n",
        ..GOOD
    },
    Run {
        name: "an empty script",
        script: b"",
        printed: b"sent 0 served 0\n",
        ..GOOD
    },
    Run {
        name: "commits of nothing",
        script: b"client\nbegin 1 opt\ndeliver 2.1\ncommit 2\ncommit 2\nput 2 a 1\n",
        printed: b"1 ok\n2 ok 1\n3 done\n4 ok none\n5 ok none\n6 err OperationAfterCommitError\nsent 1 served 1\n",
        ..GOOD
    },
    Run {
        name: "a commit after a commit",
        script: b"client\nbegin 1 opt\ndeliver 2.1\nput 2 x:00 v\ncommit 2\ndeliver 5.1\ndeliver 5.2\ndeliver 5.3\ndeliver 5.4\ndeliver 5.5\ncommit 2\n",
        printed: b"1 ok\n2 ok 1\n3 done\n4 ok\n5 ok 2\n6 done\n7 done\n8 done\n9 done\n10 done\n11 err OperationAfterCommitError\nkey x:00 commit 1 2 put v\nsent 6 served 6\n",
        ..GOOD
    },
    Run {
        name: "what is skipped and what stays open",
        script: b"client\nbegin 1 opt\ncommit 2\ndeliver 2.2\ndeliver 2.1\ndeliver 2.1\n# a comment\nput 2 a 1\ncommit 2\ndeliver 9.1\ncommit 2\n",
        printed: b"1 ok\n2 ok 1\n3 skipped\n4 skipped\n5 done\n6 skipped\n7 done\n8 ok\n9 open\n10 done\n11 skipped\nsent 3 served 2\n",
        ..GOOD
    },
    Run {
        name: "an insert that is deleted again",
        script: b"client\nbegin 1 opt\ndeliver 2.1\ninsert 2 k1 v1\ndelete 2 k1\ncommit 2\ndeliver 6.1\ndeliver 6.2\ndeliver 6.3\n",
        printed: b"1 ok\n2 ok 1\n3 done\n4 ok\n5 ok\n6 ok none\n7 done\n8 done\n9 done\nsent 4 served 4\n",
        ..GOOD
    },
    Run {
        name: "a late commit after a refused rollback",
        script: b"client\nbegin 1 opt noregions\ndeliver 2.1\nput 2 a 1\nput 2 b 2\ncommit 2\ndeliver 6.1\ndeliver 6.2\ndeliver 6.3\ndeliver 6.4\nlose 6.5\nrollback 2\nserve 6.5\n",
        printed: b"1 ok\n2 ok 1\n3 done\n4 ok\n5 ok\n6 err UndeterminedError [GrpcAPI 6.5]\n7 done\n8 done\n9 done\n10 done\n11 done\n12 err UndeterminedError [GrpcAPI 6.5]\n13 done\nkey a commit 1 2 put 1\nkey b lock put 1 a 2\nsent 6 served 6\n",
        ..GOOD
    },
    Run {
        name: "a loss, a sleep, a timestamp and a crash",
        script: b"client\nbegin 1 opt\ndeliver 2.1\nput 2 k v\ncommit 2\ndeliver 5.1\ndeliver 5.2\nlose 5.3\nwake 5.4\ntimestamp 1\ndeliver 10.1\ncrash 1\n",
        printed: b"1 ok\n2 ok 1\n3 done\n4 ok\n5 open\n6 done\n7 done\n8 done\n9 done\n10 ok 2\n11 done\n12 done\nsent 6 served 4\n",
        ..GOOD
    },
    Run {
        name: "a bad line writes nothing",
        script: b"client\nbegin 2 opt\n",
        end: "status 3",
        ..GOOD
    },
    Run {
        name: "ten bytes are taken and then a write fails",
        script: FIRST_COMMIT,
        failing_write: 2,
        end: "status 5 after 10",
        printed: b"1 ok\n2 ok ",
        ..GOOD
    },
    Run {
        name: "words are bad",
        words: &["help"],
        script: FIRST_COMMIT,
        end: "status 2",
        ..GOOD
    },
];

#[test]
fn runs_end_and_print_what_they_should(rt: HostRuntime) {
    for run in &RUNS {
        let mut source = SureSource::new(run.script);
        expect_run(&rt, rt.alloc(), &mut source, run);
    }
}

/// Its first twenty bytes are read.
static UNREAD: Run = Run {
    name: "the second read fails",
    script: FIRST_COMMIT,
    end: "status 4",
    ..GOOD
};

#[test]
fn a_script_that_cannot_be_read_prints_nothing(rt: HostRuntime) {
    let alloc = rt.alloc();
    let script = UNREAD.script.to_vec(alloc).expect(&rt, "memory");
    let failing = vec![in alloc; 2].expect(&rt, "memory");
    let mut source = MemorySource::new(script, 20, failing);
    expect_run(&rt, alloc, &mut source, &UNREAD);
}
