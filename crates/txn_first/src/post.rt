ghost use Rattle.std.specs.Prelude.{◌≡◌, ◌++◌, ◌∷◌, [], ◌+◌, ◌<◌, ◌≤◌, IfOk, OnOk, length, IsTrue, None};
ghost use Rattle.txn_first.specs.Posting.{position, IsPosted, askers_of, out_at, out_tickets, outs_at};

use std::alloc::Global;
use txn_kv::{Items, NoMemory, Request, Target, Ticket};
use txn_report::SentNote;

/// What became of a request.
#[derive(Clone, Copy, Debug, PartialEq, Eq)]
pub struct Letter {
    /// The store has handled it.
    pub served: bool,
    /// The client waits for it no more.
    pub gone: bool,
}

/// The requests that were sent, what became of each, and for each line the places of its requests.
#[derive(Debug, Drop)]
pub struct Post {
    pub sent: Vec<SentNote>,
    pub letters: Vec<Letter>,
    pub tickets: Vec<Items<usize>>,
}

/// The lines whose asks a request of this line carries.
fn askers(alloc: Global, line: u64, request: &Request) -> Result<Items<u64>, NoMemory>
    ensures { IfOk result (λ lines. lines ≡ askers_of line request.now) }
{
    let mut lines = Items::new(alloc);
    if let Request::Tso(_) = request {
        lines.push(line)?;
    }
    Ok(lines)
}

impl Post {
    /// Takes no memory.
    pub fn new(alloc: Global) -> Post
        ensures sent { result.sent.items ≡ [] }
        ensures letters { result.letters.items ≡ [] }
        ensures tickets { result.tickets.items ≡ [] }
    {
        Post {
            sent: Vec::new(alloc),
            letters: Vec::new(alloc),
            tickets: Vec::new(alloc),
        }
    }

    /// The place of a request among those that were sent.
    pub fn place(&self, ticket: Ticket) -> Option<usize>
        ensures { result ≡ position self.now.tickets.items ticket }
    {
        if ticket.beat || ticket.line == 0 || ticket.number == 0 {
            return None;
        }
        match self.tickets.get(ticket.line as usize - 1) {
            None => None,
            Some(places) => places.as_slice().get(ticket.number as usize - 1).copied(),
        }
    }

    /// The ticket of the request at a place, where it is out.
    fn out_at(&self, place: usize) -> Option<Ticket>
        ensures { result ≡ out_at self.now.sent.items self.now.letters.items place }
    {
        match (self.sent.get(place), self.letters.get(place)) {
            (Some(note), Some(letter)) if !letter.gone => Some(note.ticket),
            _ => None,
        }
    }

    /// Notes the ticket of the request at a place, where it is out.
    fn push_out(&self, outs: &mut Vec<Ticket>, place: usize) -> Result<(), NoMemory>
        ensures { OnOk result (outs.new.items ≡ outs.old.items ++ out_tickets self.now.sent.items self.now.letters.items place) }
    {
        if let Some(ticket) = self.out_at(place) {
            outs.push(ticket)?;
        }
        Ok(())
    }

    /// Notes the tickets of the requests at these places that are out.
    pub fn push_outs(&self, outs: &mut Vec<Ticket>, places: &[usize]) -> Result<(), NoMemory>
        ensures { OnOk result (outs.new.items ≡ outs.old.items ++ outs_at self.now.sent.items self.now.letters.items places.now) }
    {
        for place in places {
            self.push_out(outs, *place)?;
        }
        Ok(())
    }

    /// Room for the tickets of one line more.
    pub fn open(&mut self) -> Result<(), NoMemory>
        ensures sent { OnOk result (self.new.sent.items ≡ self.old.sent.items) }
        ensures letters { OnOk result (self.new.letters.items ≡ self.old.letters.items) }
        ensures tickets { OnOk result (self.new.tickets.items ≡ self.old.tickets.items ++ [] ∷ []) }
    {
        let alloc = *self.tickets.allocator();
        self.tickets.push(Items::new(alloc))?;
        Ok(())
    }

    /// Sends a request of a line in the step of line `at`.
    pub fn send(&mut self, line: u64, at: u64, to: Target, request: Request) -> Result<(), NoMemory>
        requires first { 1 ≤ line }
        requires last { line ≤ length self.old.tickets.items }
        ensures { OnOk result (IsPosted self.new self.old line at to request) }
    {
        let askers = askers(*self.tickets.allocator(), line, &request)?;
        let places = &mut self.tickets[line as usize - 1];
        let number = places.as_slice().len() as u64 + 1;
        places.push(self.sent.len())?;
        self.sent.push(SentNote {
            ticket: Ticket {
                line,
                beat: false,
                number,
            },
            at,
            to,
            request,
            askers,
        })?;
        self.letters.push(Letter {
            served: false,
            gone: false,
        })?;
        Ok(())
    }
}
