//! Scripts with a bad line.
use std::alloc::Global;
use std::process::Abort;
use txn_run::{End, Why, run_script};

/// The first bad line of a script, if there is one.
fn bad_line(alloc: Global, script: &[u8]) -> Option<(u64, Why)> {
    match run_script(alloc, script) {
        End::BadLine { line, why } => Some((line, why)),
        _ => None,
    }
}

static BAD: [(&[u8], u64, Why); 6] = [
    (b"client\nget 1 k", 2, Why::Word),
    (b"client\nbegin 1 opt\nput 4 a 1\n", 3, Why::NotEarlier),
    (b"client\ncommit 1\n", 2, Why::Kind),
    (b"split x:", 1, Why::EmptySplit),
    (b"clock 17592186044416", 1, Why::ClockHigh),
    (b"clock 5\nclock 4\n", 2, Why::ClockFalls),
];

#[test]
fn each_reason_of_a_bad_line(rt: HostRuntime) {
    for (script, line, why) in &BAD {
        assert_eq!(rt;
            bad_line(rt.alloc(), script),
            Some((*line, *why)),
            "{why:?}"
        );
    }
}

/// As many of one byte.
fn bytes(rt: &impl Abort, alloc: Global, byte: u8, count: usize) -> Vec<u8> {
    vec![in alloc; byte; count].expect(rt, "memory")
}

#[test]
fn a_script_and_its_lines_are_no_longer_than_may_be(rt: HostRuntime) {
    let alloc = rt.alloc();
    let lines = bytes(&rt, alloc, b'\n', 65537);
    assert_eq!(rt; bad_line(alloc, &lines), Some((65537, Why::TooMany)));
    let line = bytes(&rt, alloc, b'#', 4097);
    assert_eq!(rt; bad_line(alloc, &line), Some((1, Why::TooLong)));
}

#[test]
fn a_good_script_has_no_bad_line(rt: HostRuntime) {
    assert_eq!(rt; bad_line(rt.alloc(), b"client\n"), None);
}
