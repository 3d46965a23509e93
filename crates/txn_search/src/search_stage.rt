ghost use Rattle.std.specs.Bool.{MatchBool};
ghost use Rattle.std.specs.Prelude.{◌≡◌, ⊤, MatchOption};
ghost use Rattle.txn_history.specs.Arrivals.{awaited_as};
ghost use Rattle.txn_history.specs.Phase.{unheard};
ghost use Rattle.txn_history.specs.Phase.Awaited.{EndOf, ReplyTo};
ghost use Rattle.txn_history.specs.Phase.Phase.{Fresh};
ghost use Rattle.txn_history.specs.Turn.{turn_of};
ghost use Rattle.txn_plan.specs.LookUp.{AwaitsLast};
ghost use Rattle.txn_search.specs.Search.{search_phase, search_waits, Holds, IsOut, IsTaken};

use std::mem;
use txn_kv::{Arrival, Errand, NoMemory, Outbox, Progress};
use txn_tso::PdCall;

/// Where a search stands. Of its queries one is out at a time, and none asks for a timestamp.
#[derive(Drop)]
pub enum SearchStage {
    /// It was not started.
    Fresh,
    /// A query waits for the reply to the request of this number.
    Asking { call: PdCall, number: u64 },
    /// A query sleeps under this number, before it asks again.
    Resting { call: PdCall, number: u64 },
    /// It has answered.
    Over,
    /// It gave up for want of memory.
    Stopped,
}

impl SearchStage {
    pub fn is_fresh(&self) -> bool
        ensures { MatchBool result (self.now ≡ SearchStage.Fresh) (search_phase self.now ≡ Fresh → ⊥) }
    {
        matches!(self, SearchStage::Fresh)
    }

    /// What comes of an event that is not for the search. The connection is lent to no query then.
    pub fn stay<T: Drop>(&self) -> Result<Progress<T>, NoMemory>
        ensures { turn_of result ≡ unheard (search_phase self.now) }
    {
        match self {
            SearchStage::Stopped => Err(NoMemory),
            _ => Ok(Progress::Waiting),
        }
    }

    /// Takes out the query that waits for this. The search gives up where it is not put back.
    pub fn take(&mut self, arrival: &Arrival) -> Option<PdCall>
        requires { IsOut (λ q. ⊤) self.old }
        ensures { MatchOption result ((self.new ≡ self.old) × (search_waits self.old (awaited_as arrival.now) → ⊥)) (IsTaken (awaited_as arrival.now) self.old self.new) }
    {
        match arrival {
            Arrival::Reply { number, reply: _ } => self.take_asking(*number),
            Arrival::Lost { number } => self.take_asking(*number),
            Arrival::Slept { number } => self.take_resting(*number),
            Arrival::Time { ask: _, answer: _ } => None,
        }
    }

    /// Takes out the query that waits for the reply to this request.
    fn take_asking(&mut self, number: u64) -> Option<PdCall>
        requires { IsOut (λ q. ⊤) self.old }
        ensures { MatchOption result ((self.new ≡ self.old) × (search_waits self.old (ReplyTo number) → ⊥)) (IsTaken (ReplyTo number) self.old self.new) }
    {
        match mem::replace(self, SearchStage::Stopped) {
            SearchStage::Asking {
                call,
                number: asked,
            } if asked == number => Some(call),
            stage => {
                *self = stage;
                None
            }
        }
    }

    /// Takes out the query that waits for the end of this sleep.
    fn take_resting(&mut self, number: u64) -> Option<PdCall>
        requires { IsOut (λ q. ⊤) self.old }
        ensures { MatchOption result ((self.new ≡ self.old) × (search_waits self.old (EndOf number) → ⊥)) (IsTaken (EndOf number) self.old self.new) }
    {
        match mem::replace(self, SearchStage::Stopped) {
            SearchStage::Resting {
                call,
                number: begun,
            } if begun == number => Some(call),
            stage => {
                *self = stage;
                None
            }
        }
    }

    /// The query waits for what was posted last.
    pub fn wait(&mut self, call: PdCall, out: &Outbox)
        requires { AwaitsLast call out.now }
        ensures { Holds call self.new }
    {
        *self = match out.sends.as_slice().last() {
            Some(Errand::Send { number, .. }) => SearchStage::Asking {
                call,
                number: *number,
            },
            Some(Errand::Sleep { number, .. }) => SearchStage::Resting {
                call,
                number: *number,
            },
            _ => unreachable!(),
        };
    }
}
