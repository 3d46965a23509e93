//! The job of a heartbeat, with its client and its outbox.
ghost use Rattle.std.specs.Prelude.{IfSome};
ghost use Rattle.txn_kv.specs.Timestamp.{HasVersion};
ghost use Rattle.txn_history.specs.Arrivals.{MayArrive};

use crate::replies::reply;
use crate::shown::show_errands;
use case_words::{bytes, flag, number, say, show, word};
use std::alloc::Global;
use std::marker::Model;
use txn_core::{Heartbeat, Status};
use txn_heartbeat::{HeartbeatJob, PlanForHeartbeats};
use txn_kv::{Arrival, Backoff, Key, NoMemory, Outbox, Progress, Timestamp};
use txn_region::{ApiV1TxnCodec, PdRpcClient};

/// All that comes does at 10300 ms.
pub struct Beating<H: PlanForHeartbeats> {
    job: HeartbeatJob<H>,
    pd: PdRpcClient<ApiV1TxnCodec>,
    out: Outbox,
    alloc: Global,
}

/// By one call: a derived drop is opened at each exit that holds such a value.
impl<H: PlanForHeartbeats> Drop for Beating<H> {
    fn drop(self) {
        let Beating {
            job,
            pd,
            out,
            alloc: _,
        } = self;
        drop(job);
        drop(pd);
        drop(out);
    }
}

impl<H: PlanForHeartbeats> Model for Beating<H> {
    ghost use Rattle.txn_core.specs.declared.heartbeat.Heartbeat.{Heartbeat as Needed};
    ghost use Rattle.txn_heartbeat.specs.Beats.{IsAlive};
    ghost use Rattle.txn_history.specs.Posted.{HasNumbers};

    ghost Value = { Needed };

    ghost view = { λ l. l.job.heartbeat };

    ghost invariant = { λ l. IsAlive H.meaning l.job l.out × HasNumbers l.out };
}

impl<H: PlanForHeartbeats> Beating<H> {
    pub fn begin(alloc: Global) -> Beating<H> {
        Beating {
            job: HeartbeatJob::new(alloc, heartbeat(alloc)),
            pd: PdRpcClient::new(alloc, 0, 10_300, false, ApiV1TxnCodec {}),
            out: Outbox::new(alloc, 4, true),
            alloc,
        }
    }

    pub fn serve(&mut self, rt: &HostRuntime, words: &[&str]) {
        let posted = self.out.sends.len();
        match word(words, 0) {
            "start" => show_progress(rt, self.start()),
            _ => self.take(rt, words),
        }
        show_errands(rt, self.out.sends.as_slice(), posted);
    }

    fn start(&mut self) -> Result<Progress<()>, NoMemory> {
        let turn = self.job.start(&mut self.out);
        turn
    }

    fn take(&mut self, rt: &HostRuntime, words: &[&str]) {
        match arrival(self.alloc, words) {
            Some(arrival) => show_progress(rt, self.tell(arrival, status(words))),
            None => say(rt, &"?"),
        }
    }

    fn tell(&mut self, arrival: Arrival, status: Status) -> Result<Progress<()>, NoMemory>
        requires { MayArrive arrival }
    {
        let (pd, out) = (&mut self.pd, &mut self.out);
        let turn = self.job.tell(arrival, status, pd, 10_300, out);
        turn
    }
}

fn show_progress(rt: &HostRuntime, turn: Result<Progress<()>, NoMemory>) {
    match turn {
        Ok(progress) => show(rt, &progress),
        Err(error) => show(rt, &error),
    }
}

/// Of a transaction that began at 300 ms.
fn heartbeat(alloc: Global) -> Heartbeat
    ensures { HasVersion result.start }
{
    Heartbeat {
        start: Timestamp {
            physical: 0,
            logical: 7,
            suffix_bits: 0,
        },
        primary: Key::from(bytes(alloc, "a")),
        began: 300,
        interval: 10_000,
        backoff: Backoff::no_backoff(),
    }
}

/// How far the transaction has come as this is told.
fn status(words: &[&str]) -> Status {
    if flag(words, 0, "woken_late") {
        Status::Committed
    } else {
        Status::StartedCommit
    }
}

/// What comes by the words, if they tell it.
fn arrival(alloc: Global, words: &[&str]) -> Option<Arrival>
    ensures { IfSome result MayArrive }
{
    let number = number(words, 1);
    match word(words, 0) {
        "woken" | "woken_late" => Some(Arrival::Slept { number }),
        "lost" => Some(Arrival::Lost { number }),
        name => match reply(alloc, name) {
            Some(reply) => Some(Arrival::Reply { number, reply }),
            None => None,
        },
    }
}
