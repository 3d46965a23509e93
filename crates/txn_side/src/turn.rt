ghost use Rattle.std.specs.Prelude.{◌≡◌, []};

use std::alloc::Global;
use txn_kv::{Items, Request, Target, Ticket};
use txn_report::Outcome;

/// What a line wants done. `askers` are the lines whose asks a request for timestamps carries, in their order; no other request
/// has any.
#[derive(Debug, Drop)]
pub enum Posting {
    Send {
        ticket: Ticket,
        to: Target,
        request: Request,
        askers: Items<u64>,
    },
    Sleep {
        ticket: Ticket,
    },
}

/// A call that ended, and what it answered.
#[derive(Debug, Drop)]
pub struct Ending {
    pub line: u64,
    pub outcome: Outcome,
}

/// What came of one step of the clients: what they want done, and the calls that ended, both in order.
#[derive(Debug, Drop)]
pub struct Turn {
    pub posted: Vec<Posting>,
    pub ended: Vec<Ending>,
}

impl Turn {
    /// Nothing. Takes no memory.
    pub fn new(alloc: Global) -> Turn
        ensures posted { result.posted.items ≡ [] }
        ensures ended { result.ended.items ≡ [] }
    {
        Turn {
            posted: Vec::new(alloc),
            ended: Vec::new(alloc),
        }
    }
}
