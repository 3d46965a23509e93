//! Calls of the buffer, of merges, of retries and of the queue of tasks, by rows of words (`case_words` tells how a row is read
//! and shown). A case begins with the empty buffer of an optimistic transaction.
//!
//! | row | what is called |
//! |---|---|
//! | `pessimistic` | the empty buffer of a pessimistic transaction from here on |
//! | `put KEY VALUE`, `insert KEY VALUE`, `delete KEY`, `lock KEY`, `unlock KEY`, `mutate OP KEY VALUE`, `primary KEY` | a call that writes |
//! | `get KEY`, `missing KEY..`, `first`, `written` | a call that reads: the last shows each mutation as its op and its pair, the key that leads the commit, and the size |
//! | `fill KEY=VALUE`, `fill KEY`, `batch_fill ASKED.. KEY=VALUE..` | what was read of keys |
//! | `scan START LIMIT keep|forget up|down KEY=VALUE..`, `scan_limit START LIMIT`, `scan_limit_between START END LIMIT` | scans, the last with both ends left out |
//! | `collect KIND REPLY..` | one answer of many replies, where `!once` and `!locks` are errors |
//! | `take CALL REPLY..` | what is taken out of the replies to commits |
//! | `process KIND WORD..`, `options KIND` | one answer of one reply; how often is tried again |
//! | `remedy ERROR DELAY`, `failing ERROR BASE MOST ATTEMPTS`, `losing` | what is done about a failure |
//! | `queue COUNT STEP..` | tasks: `start`, `rest:AT`, `finish:AT`, `cut:AT:COUNT`, `over`; and then the results |
//! | `outcomes REPLY..` | the results of tasks |
#![tactic(auto)]

mod buffers;
mod client;
mod collects;
mod outcomes;
mod processes;
mod queues;
mod remedies;
mod replies;
mod taken;

use case_words::{Rows, run, word};
use std::alloc::Global;
use std::process::ExitCode;
use txn_buffer::Buffer;

/// The buffer of a case.
struct Case {
    alloc: Global,
    buffer: Buffer,
}

impl Rows for Case {
    fn begin(&mut self) {
        self.buffer = Buffer::new(self.alloc, false);
    }

    fn serve(&mut self, rt: &HostRuntime, words: &[&str]) {
        match word(words, 0) {
            "pessimistic" => self.buffer = Buffer::new(self.alloc, true),
            "collect" => collects::serve(rt, words),
            "take" => taken::serve(rt, words),
            "process" => processes::serve(rt, words),
            "options" => processes::options(rt, words),
            "remedy" => remedies::remedy(rt, words),
            "failing" => remedies::failing(rt, words),
            "losing" => remedies::losing(rt),
            "queue" => queues::serve(rt, words),
            "outcomes" => outcomes::serve(rt, words),
            "client" => client::serve(rt),
            _ => buffers::serve(rt, &mut self.buffer, words),
        }
    }
}

fn main(rt: HostRuntime) -> ExitCode {
    let mut case = Case {
        alloc: rt.alloc(),
        buffer: Buffer::new(rt.alloc(), false),
    };
    let code = run(&rt, &mut case);
    let Case { alloc: _, buffer } = case;
    drop(buffer);
    code
}
