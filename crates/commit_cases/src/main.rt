//! Calls of commits, of rollbacks and of transactions, by rows of words (`case_words` tells how a row is read and shown).
//!
//! The first row of a case may make what the rows behind it call. All of it starts at the timestamp 1, and the oracle gives 2. Its
//! requests go by plans that send each once (`txn_fakes`): to store 1, or to 2 where errors of regions are not retried, or to 3
//! where locks are not. Behind an answer stands what was posted.
//!
//! | row | what is made |
//! |---|---|
//! | `begin OPTION..` | a transaction that began at 100 ms; its calls are made at 350 ms |
//! | `committer VERB:KEY..` | a commit or a rollback of a buffer after these changes, and a job for the key b |
//! | `commits` | what is known of the Commits of a primary, of which one was sent behind a sleep |
//!
//! What comes is `ARRIVAL NUMBER`, with the number of its request or of its ask. An ARRIVAL is `given`, `not_given`, `lost`, `slept` or
//! a REPLY: `prewritten`, `conflict`, `committed`, `no_lock`, `rolled_back`, `abort`.
//!
//! | row | what is called |
//! |---|---|
//! | `put KEY`, `insert KEY`, `delete KEY`, `lock KEY`, `mutate OP` | the transaction writes; the last puts a, and mutates b so |
//! | `commit LINE`, `rollback LINE`, `ARRIVAL NUMBER` | the transaction, on this line, and what comes for it |
//! | `status`, `close`, `heartbeat`, `lost_commit`, `has_lost_commit`, `count_commits_out` | the transaction |
//! | `prewrite`, `roll_back`, `ARRIVAL NUMBER`, `undetermined` | the committer, and its Commits |
//! | `start_job`, `job ARRIVAL NUMBER` | the job of the committer |
//! | `timestamp`, `undetermined`, `has_lost`, `count_out`, `take REPLY NUMBER`, `hear ARRIVAL NUMBER`, `lose NUMBER` | the Commits |
//! | `parts VERB:KEY..` | the parts of a buffer after these changes |
//! | `options OPTION..`, `defaults`, `retries` | options |
//! | `numbered NUMBER`, `opening`, `opening read_only` | a status: what it allows, what who lets go is told at each level, what may come next |
//! | `ttl SIZE STARTED NOW` | how long a lock lives |
//! | `plan EVENT..` | a Get to store 3, of which only that it was done is told: `started`, `replied`, `lost`, `slept`, `timed`, and `copied`, after which the copy is told |
//! | `stored`, `widths`, `moves` | that plan's store, how wide new plans are, that plans can move |
#![tactic(auto)]

mod changes;
mod commits;
mod committing;
mod options;
mod plans;
mod replies;
mod shown;
mod statuses;
mod transacting;
mod writing;

use case_words::{Rows, number, run, say, show, word};
use commits::Followed;
use committing::Committing;
use std::alloc::Global;
use std::process::ExitCode;
use transacting::Transacting;
use txn_commit::Plans;
use txn_core::ttl::txn_lock_ttl;
use txn_fakes::Once;

/// What the rows of a case call.
enum Subject<P>
where
    P: Plans,
{
    Nothing,
    Commits(Followed),
    Committer(Committing<P>),
    Transaction(Transacting<P>),
}

/// By one call: a derived drop is opened at each exit that holds such a value.
impl<P> Drop for Subject<P>
where
    P: Plans,
{
    fn drop(self) {
        match self {
            Subject::Nothing => {}
            Subject::Commits(commits) => drop(commits),
            Subject::Committer(call) => drop(call),
            Subject::Transaction(transaction) => drop(transaction),
        }
    }
}

#[derive(Drop)]
struct Case<P>
where
    P: Plans,
{
    alloc: Global,
    subject: Subject<P>,
}

impl<P> Case<P>
where
    P: Plans,
{
    fn new(alloc: Global) -> Self {
        Case {
            alloc,
            subject: Subject::Nothing,
        }
    }

    /// What a row makes, if it makes something.
    fn made(&self, words: &[&str]) -> Option<Subject<P>> {
        match word(words, 0) {
            "begin" => Some(Subject::Transaction(Transacting::begin(self.alloc, words)?)),
            "committer" => Some(Subject::Committer(Committing::begin(self.alloc, words)?)),
            "commits" => Some(Subject::Commits(Followed::begin(self.alloc)?)),
            _ => None,
        }
    }
}

/// Calls that need nothing made.
fn serve(rt: &HostRuntime, words: &[&str]) {
    match word(words, 0) {
        "parts" => changes::serve(rt, words),
        "options" | "defaults" | "retries" => options::serve(rt, words),
        "numbered" | "opening" => statuses::serve(rt, words),
        "ttl" => show(
            rt,
            &txn_lock_ttl(number(words, 1), number(words, 2), number(words, 3)),
        ),
        "plan" | "stored" | "widths" | "moves" => plans::serve(rt, words),
        _ => say(rt, &"?"),
    }
}

impl<P> Rows for Case<P>
where
    P: Plans,
{
    fn begin(&mut self) {
        self.subject = Subject::Nothing;
    }

    fn serve(&mut self, rt: &HostRuntime, words: &[&str]) {
        if let Some(subject) = self.made(words) {
            self.subject = subject;
            return;
        }
        match &mut self.subject {
            Subject::Nothing => serve(rt, words),
            Subject::Commits(commits) => commits.serve(rt, words),
            Subject::Committer(call) => call.serve(rt, words),
            Subject::Transaction(transaction) => transaction.serve(rt, words),
        }
    }
}

// All that is said of plans stands in their bounds: one call alone names types that meet them.
fn main(rt: HostRuntime) -> ExitCode {
    let mut case: Case<Once> = Case::new(rt.alloc());
    run(&rt, &mut case)
}
