ghost use Rattle.std.specs.Prelude.{◌≡◌, ◌++◌, ◌+◌, ◌∷◌, [], OnErr, OnOk, IfOk};
ghost use Rattle.txn_kv.specs.Posted.{HasNumbers, opened};
ghost use Rattle.txn_kv.specs.declared.outbox.Errand.TheVariants as errand;

use crate::memory::NoMemory;
use crate::request::Request;
use crate::ticket::{Target, Ticket};
use std::alloc::Global;
use std::marker::Model;

/// What a call wants done. A request and a sleep have a number by which they are answered, and an ask for one timestamp has
/// a number among asks. A sleep is in milliseconds.
#[derive(Drop)]
pub enum Errand {
    Send {
        number: u64,
        to: Target,
        request: Request,
    },
    Sleep {
        number: u64,
        ms: u64,
    },
    Ask {
        ask: u64,
    },
}

/// Where the calls of a line, or of its heartbeat, put what they want done, the oldest first. `next` is the number of the next
/// request or sleep, and `next_ask` that of the next ask.
pub struct Outbox {
    pub line: u64,
    pub beat: bool,
    pub next: u64,
    pub next_ask: u64,
    pub sends: Vec<Errand>,
}

/// By one call: a derived drop is opened at each exit that holds such a value, in each crate above.
impl Drop for Outbox {
    fn drop(self) {
        let Outbox {
            line: _,
            beat: _,
            next: _,
            next_ask: _,
            sends,
        } = self;
        drop(sends);
    }
}

impl Model for Outbox {
    ghost use Rattle.txn_kv.specs.Posted.{Posted};

    ghost Value = { Posted };

    ghost view = { λ o. record { line = o.line; beat = o.beat; next = o.next; next_ask = o.next_ask; sends = o.sends.items } };
}

impl Outbox {
    /// Nothing is posted yet, and both numbers begin at 1. Takes no memory.
    pub fn new(alloc: Global, line: u64, beat: bool) -> Outbox
        ensures { result ≡ opened line beat }
    {
        Outbox {
            line,
            beat,
            next: 1,
            next_ask: 1,
            sends: Vec::new(alloc),
        }
    }

    /// The ticket of a number of this line.
    pub fn ticket(&self, number: u64) -> Ticket
        ensures { result ≡ record { line = self.now.line; beat = self.now.beat; number = number } }
    {
        Ticket {
            line: self.line,
            beat: self.beat,
            number,
        }
    }

    /// Posts a request, and gives its number.
    pub fn send(&mut self, to: Target, request: Request) -> Result<u64, NoMemory>
        requires { HasNumbers self.old }
        ensures number { IfOk result (λ n. n ≡ self.old.next) }
        ensures ok { OnOk result (self.new ≡ record self.old { next = self.old.next + 1; sends = self.old.sends ++ errand.Send self.old.next to request ∷ [] }) }
        ensures err { OnErr result (self.new ≡ self.old) }
    {
        let number = self.next;
        self.sends.push(Errand::Send {
            number,
            to,
            request,
        })?;
        self.next = number + 1;
        Ok(number)
    }

    /// Posts a sleep of so many milliseconds, and gives its number.
    pub fn sleep(&mut self, ms: u64) -> Result<u64, NoMemory>
        requires { HasNumbers self.old }
        ensures number { IfOk result (λ n. n ≡ self.old.next) }
        ensures ok { OnOk result (self.new ≡ record self.old { next = self.old.next + 1; sends = self.old.sends ++ errand.Sleep self.old.next ms ∷ [] }) }
        ensures err { OnErr result (self.new ≡ self.old) }
    {
        let number = self.next;
        self.sends.push(Errand::Sleep { number, ms })?;
        self.next = number + 1;
        Ok(number)
    }

    /// Asks for a timestamp, and gives the ask's number.
    pub fn ask(&mut self) -> Result<u64, NoMemory>
        requires { HasNumbers self.old }
        ensures number { IfOk result (λ n. n ≡ self.old.next_ask) }
        ensures ok { OnOk result (self.new ≡ record self.old { next_ask = self.old.next_ask + 1; sends = self.old.sends ++ errand.Ask self.old.next_ask ∷ [] }) }
        ensures err { OnErr result (self.new ≡ self.old) }
    {
        let ask = self.next_ask;
        self.sends.push(Errand::Ask { ask })?;
        self.next_ask = ask + 1;
        Ok(ask)
    }
}
