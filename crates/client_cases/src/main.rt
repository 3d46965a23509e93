//! Calls of clients, and heartbeats, by rows of words (`case_words` tells how a row is read and shown).
//!
//! The first row of a case makes what the rows behind it call. Commits go by plans that send each request once (`txn_fakes`).
//! Behind an answer stands what was posted.
//!
//! | row | what is made |
//! |---|---|
//! | `begin`, `begin warns`, `timestamp` | a call of a client for a transaction, one that warns, or a timestamp |
//! | `heartbeat` | the job of one heartbeat, of a transaction that began at 300 ms |
//! | `clients` | the clients of a run with their heartbeats |
//!
//! | row | what is called |
//! |---|---|
//! | `start`, `given ASK`, `refused ASK` | the call, and the oracle, which gives 7 |
//! | `start`, `woken NUMBER`, `woken_late NUMBER`, `lost NUMBER`, `REPLY NUMBER` | the job, at 10300 ms. What comes late comes to a transaction that is committed |
//! | `client 0`, `begin LINE`, `put LINE`, `commit LINE`, `crash LINE` | the clients: the next line, which names an earlier one |
//! | `woken TICKET`, `lost TICKET`, `REPLY TICKET` | the clients: what comes for a ticket, as 4.1 or 4.h1 |
//! | `new v1 NOW TIME..`, `new v2 NOW TIME..`, `new codec NOW TIME..` | a new client: its cluster's id, and whether it may connect at each time |
//!
//! A REPLY is `time`, `later`, `region`, `store`, `prolonged`, `prewritten`, `conflict` or `committed`.
#![tactic(auto)]

mod beating;
mod calling;
mod clients;
mod course;
mod replies;
mod shown;

use beating::Beating;
use calling::Calling;
use case_words::{Rows, run, say, word};
use course::Course;
use std::alloc::Global;
use std::process::ExitCode;
use txn_clients::Clients;
use txn_commit::Plans;
use txn_commit_plans::HeartbeatPlan;
use txn_fakes::Once;
use txn_heartbeat::PlanForHeartbeats;
use txn_heartbeats::Heartbeats;

/// What the rows of a case call.
enum Subject<P, H>
where
    P: Plans,
    H: PlanForHeartbeats,
{
    Nothing,
    Call(Calling<P>),
    Heartbeat(Beating<H>),
    Clients(Course<Heartbeats<Clients<P>, H>>),
}

/// By one call: a derived drop is opened at each exit that holds such a value.
impl<P, H> Drop for Subject<P, H>
where
    P: Plans,
    H: PlanForHeartbeats,
{
    fn drop(self) {
        match self {
            Subject::Nothing => {}
            Subject::Call(call) => drop(call),
            Subject::Heartbeat(job) => drop(job),
            Subject::Clients(course) => drop(course),
        }
    }
}

#[derive(Drop)]
struct Case<P, H>
where
    P: Plans,
    H: PlanForHeartbeats,
{
    alloc: Global,
    subject: Subject<P, H>,
}

impl<P, H> Case<P, H>
where
    P: Plans,
    H: PlanForHeartbeats,
{
    fn new(alloc: Global) -> Self {
        Case {
            alloc,
            subject: Subject::Nothing,
        }
    }

    /// What a row makes that stands where nothing is made yet, if it makes something.
    fn made(&self, words: &[&str]) -> Option<Subject<P, H>> {
        match word(words, 0) {
            "begin" | "timestamp" => Some(Subject::Call(Calling::begin(self.alloc, words)?)),
            "heartbeat" => Some(Subject::Heartbeat(Beating::begin(self.alloc))),
            "clients" => Some(Subject::Clients(self.clients())),
            _ => None,
        }
    }

    /// Clients of no line.
    fn clients(&self) -> Course<Heartbeats<Clients<P>, H>> {
        let clients = Heartbeats::new(self.alloc, Clients::new(self.alloc));
        Course::new(self.alloc, clients)
    }

    fn make(&mut self, rt: &HostRuntime, words: &[&str]) {
        match self.made(words) {
            Some(subject) => self.subject = subject,
            None => others(rt, words),
        }
    }
}

/// Calls that need nothing made.
fn others(rt: &HostRuntime, words: &[&str]) {
    match word(words, 0) {
        "new" => clients::serve(rt, words),
        _ => say(rt, &"?"),
    }
}

impl<P, H> Rows for Case<P, H>
where
    P: Plans,
    H: PlanForHeartbeats,
{
    fn begin(&mut self) {
        self.subject = Subject::Nothing;
    }

    fn serve(&mut self, rt: &HostRuntime, words: &[&str]) {
        match &mut self.subject {
            Subject::Nothing => self.make(rt, words),
            Subject::Call(call) => call.serve(rt, words),
            Subject::Heartbeat(job) => job.serve(rt, words),
            Subject::Clients(course) => course.serve(rt, words),
        }
    }
}

// All that is said of plans stands in their bounds: one call alone names types that meet them.
fn main(rt: HostRuntime) -> ExitCode {
    let mut case: Case<Once, HeartbeatPlan> = Case::new(rt.alloc());
    run(&rt, &mut case)
}
