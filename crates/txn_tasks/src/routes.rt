//! Which task waits for what.
ghost use Rattle.std.specs.Prelude.{◌≡◌, IfNone, OnErr, OnOk};
ghost use Rattle.txn_history.specs.Phase.{awaited};
ghost use Rattle.txn_history.specs.Phase.Awaited.{EndOf, ReplyTo, TimeOf};
ghost use Rattle.txn_history.specs.Arrivals.{awaited_as};
ghost use Rattle.txn_tasks.specs.Routes.{nowhere, route, AddsOnly, AreNoted, IsPut, IsTaken};

use std::alloc::Global;
use std::collections::BTreeMap;
use std::marker::Model;
use txn_kv::{Arrival, Errand, NoMemory};

/// The tasks of a plan by what they wait for: the reply to a request and the end of a sleep by its number, and the answer to
/// an ask by the number of the ask.
pub struct Routes {
    replies: BTreeMap<u64, usize>,
    sleeps: BTreeMap<u64, usize>,
    asks: BTreeMap<u64, usize>,
}

impl Drop for Routes {
    fn drop(self) {
        let Routes {
            replies,
            sleeps,
            asks,
        } = self;
        drop(replies);
        drop(sleeps);
        drop(asks);
    }
}

impl Model for Routes {
    ghost use Rattle.txn_tasks.specs.Routes.{Leads};

    ghost Value = { Leads };

    ghost view = { λ r. record { replies = r.replies.entries; sleeps = r.sleeps.entries; asks = r.asks.entries } };
}

impl Routes {
    /// Takes no memory.
    pub fn new(alloc: Global) -> Routes
        ensures { result ≡ nowhere }
    {
        Routes {
            replies: BTreeMap::new(alloc),
            sleeps: BTreeMap::new(alloc),
            asks: BTreeMap::new(alloc),
        }
    }

    /// A task posted these errands.
    pub fn note(&mut self, errands: &[Errand], task: usize) -> Result<(), NoMemory>
        ensures noted { OnOk result (AreNoted errands.now task self.old self.new) }
        ensures only { AddsOnly task self.old self.new }
    {
        for errand in errands {
            self.note_one(errand, task)?;
        }
        Ok(())
    }

    fn note_one(&mut self, errand: &Errand, task: usize) -> Result<(), NoMemory>
        ensures put { OnOk result (IsPut (awaited errand.now) task self.old self.new) }
        ensures err { OnErr result (self.new ≡ self.old) }
    {
        match errand {
            Errand::Send { number, .. } => {
                self.replies.insert(*number, task)?;
            }
            Errand::Sleep { number, .. } => {
                self.sleeps.insert(*number, task)?;
            }
            Errand::Ask { ask } => {
                self.asks.insert(*ask, task)?;
            }
        }
        Ok(())
    }

    /// The task that waits for the reply to this request, and waits for it no more.
    pub fn take_reply(&mut self, number: u64) -> Option<usize>
        ensures task { result ≡ route self.old (ReplyTo number) }
        ensures taken { IsTaken (ReplyTo number) self.old self.new }
        ensures none { IfNone result (self.new ≡ self.old) }
    {
        self.replies.remove(&number)
    }

    /// The task that waits for the end of this sleep, and waits for it no more.
    pub fn take_sleep(&mut self, number: u64) -> Option<usize>
        ensures task { result ≡ route self.old (EndOf number) }
        ensures taken { IsTaken (EndOf number) self.old self.new }
        ensures none { IfNone result (self.new ≡ self.old) }
    {
        self.sleeps.remove(&number)
    }

    /// The task that waits for the answer to this ask, and waits for it no more.
    pub fn take_ask(&mut self, ask: u64) -> Option<usize>
        ensures task { result ≡ route self.old (TimeOf ask) }
        ensures taken { IsTaken (TimeOf ask) self.old self.new }
        ensures none { IfNone result (self.new ≡ self.old) }
    {
        self.asks.remove(&ask)
    }

    /// The task that waits for this, and waits for it no more.
    pub fn take(&mut self, arrival: &Arrival) -> Option<usize>
        ensures task { result ≡ route self.old (awaited_as arrival.now) }
        ensures taken { IsTaken (awaited_as arrival.now) self.old self.new }
        ensures none { IfNone result (self.new ≡ self.old) }
    {
        match arrival {
            Arrival::Reply { number, .. } => self.take_reply(*number),
            Arrival::Lost { number } => self.take_reply(*number),
            Arrival::Slept { number } => self.take_sleep(*number),
            Arrival::Time { ask, .. } => self.take_ask(*ask),
        }
    }
}
