ghost use Rattle.std.specs.Prelude.{◌≡◌, IfOk, false, []};
ghost use Rattle.txn_clients.specs.declared.row.Row.TheVariants.{Plain};
ghost use Rattle.txn_history.specs.Posted.{HasNumbers};

use crate::row::Row;
use std::alloc::Global;
use txn_kv::{NoMemory, Outbox};

/// What stands at a line, and the numbers of its next request or sleep, and of its next ask.
pub struct Place<P> {
    pub row: Row<P>,
    pub next: u64,
    pub next_ask: u64,
}

impl<P: Drop> Drop for Place<P> {
    fn drop(self) {
        let Place {
            row,
            next: _,
            next_ask: _,
        } = self;
        drop(row);
    }
}

/// No number is as great as this.
pub const NUMBERS_END: u64 = 9_223_372_036_854_775_808;

impl<P> Place<P> {
    /// Nothing stands here yet, and both numbers begin at 1.
    pub fn new() -> Place<P>
        ensures { result ≡ record { row = Plain; next = 1; next_ask = 1 } }
    {
        Place {
            row: Row::Plain,
            next: 1,
            next_ask: 1,
        }
    }

    /// An empty outbox that goes on from the numbers of the line. There is none once they have run out.
    pub fn outbox(&self, alloc: Global, line: u64) -> Result<Outbox, NoMemory>
        ensures outbox { IfOk result (λ out. out ≡ record { line = line; beat = false; next = self.now.next; next_ask = self.now.next_ask; sends = [] }) }
        ensures numbers { IfOk result HasNumbers }
    {
        if self.next >= NUMBERS_END || self.next_ask >= NUMBERS_END {
            return Err(NoMemory);
        }
        Ok(Outbox {
            line,
            beat: false,
            next: self.next,
            next_ask: self.next_ask,
            sends: Vec::new(alloc),
        })
    }
}
