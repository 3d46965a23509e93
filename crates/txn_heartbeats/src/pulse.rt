ghost use Rattle.std.specs.Prelude.{◌≡◌, IfOk, None, false, true, []};
ghost use Rattle.txn_history.specs.Posted.{HasNumbers};

use std::alloc::Global;
use txn_heartbeat::HeartbeatJob;
use txn_kv::{NoMemory, Outbox};

/// The heartbeat of a line.
pub struct Pulse<H> {
    /// The number of its next request or sleep.
    pub next: u64,
    /// A heartbeat of the transaction that stands at this line was started, at this line or another.
    pub started: bool,
    /// The line of the transaction that it keeps alive, where one was started here.
    pub transaction: u64,
    pub job: Option<HeartbeatJob<H>>,
}

impl<H: Drop> Drop for Pulse<H> {
    fn drop(self) {
        let Pulse {
            next: _,
            started: _,
            transaction: _,
            job,
        } = self;
        drop(job);
    }
}

/// No number is as great as this.
const NUMBERS_END: u64 = 9_223_372_036_854_775_808;

impl<H> Pulse<H> {
    /// None was started.
    pub fn new() -> Pulse<H>
        ensures { result ≡ record { next = 1; started = false; transaction = 0; job = None } }
    {
        Pulse {
            next: 1,
            started: false,
            transaction: 0,
            job: None,
        }
    }

    /// An empty outbox that goes on from the heartbeat's numbers. There is none once they have run out.
    pub fn outbox(&self, alloc: Global, line: u64) -> Result<Outbox, NoMemory>
        ensures outbox { IfOk result (λ out. out ≡ record { line = line; beat = true; next = self.now.next; next_ask = 1; sends = [] }) }
        ensures numbers { IfOk result HasNumbers }
    {
        if self.next >= NUMBERS_END {
            return Err(NoMemory);
        }
        Ok(Outbox {
            line,
            beat: true,
            next: self.next,
            next_ask: 1,
            sends: Vec::new(alloc),
        })
    }
}
