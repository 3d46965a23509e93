//! Where what the tickets of each line name stands.
ghost use Rattle.std.specs.Prelude.{◌≡◌, ◌+◌, ◌<◌, ◌≤◌, OnErr, OnOk, length};
ghost use Rattle.txn_post.specs.Mail.{lane, naming, naming_in, no_tickets, opened_lanes, place_in, place_of, places_of};

use crate::post::Place;
use crate::room::{make_room, put_last};
use std::alloc::Global;
use std::marker::Model;
use txn_kv::{Items, NoMemory, Ticket};

/// For each line where what it named stands, in the order of the numbers: what its calls named, and what its heartbeat did.
#[derive(Debug, Drop)]
pub struct Lanes {
    calls: Vec<Items<Place>>,
    beats: Vec<Items<Place>>,
}

impl Model for Lanes {
    ghost use Rattle.txn_post.specs.Mail.{Tickets};

    ghost Value = { Tickets };

    ghost view = { λ s. record { calls = s.calls.items; beats = s.beats.items } };
}

/// Where what stands that a line named by this number, if there is one.
fn place_in(lines: &[Items<Place>], line: u64, number: u64) -> Option<Place>
    ensures { result ≡ place_in (places_of lines.now line) number }
{
    if line == 0 || number == 0 {
        return None;
    }
    match lines.get(line as usize - 1) {
        None => None,
        Some(places) => places.as_slice().get(number as usize - 1).copied(),
    }
}

/// The next of a line stands at this place.
fn name_in(lines: &mut Vec<Items<Place>>, line: u64, place: Place) -> Result<(), NoMemory>
    requires first { 1 ≤ line }
    requires last { line ≤ length lines.old.items }
    ensures ok { OnOk result (lines.new.items ≡ naming_in lines.old.items line place) }
    ensures err { OnErr result (lines.new.items ≡ lines.old.items) }
{
    lines[line as usize - 1].push(place)
}

impl Lanes {
    /// Of no line. Takes no memory.
    pub fn new(alloc: Global) -> Lanes
        ensures { result ≡ no_tickets }
    {
        Lanes {
            calls: Vec::new(alloc),
            beats: Vec::new(alloc),
        }
    }

    /// One line more, which has named nothing.
    pub fn open(&mut self, alloc: Global) -> Result<(), NoMemory>
        ensures ok { OnOk result (self.new ≡ opened_lanes self.old) }
        ensures err { OnErr result (self.new ≡ self.old) }
    {
        make_room(&mut self.calls)?;
        make_room(&mut self.beats)?;
        put_last(&mut self.calls, Items::new(alloc));
        put_last(&mut self.beats, Items::new(alloc));
        Ok(())
    }

    /// Where what the ticket names stands, if it names something.
    pub fn place_of(&self, ticket: &Ticket) -> Option<Place>
        ensures { result ≡ place_of self.now ticket.now }
    {
        if ticket.beat {
            place_in(self.beats.as_slice(), ticket.line, ticket.number)
        } else {
            place_in(self.calls.as_slice(), ticket.line, ticket.number)
        }
    }

    /// The next ticket of a line, or of its heartbeat, leads to this place.
    pub fn name(&mut self, ticket: &Ticket, place: Place) -> Result<(), NoMemory>
        requires first { 1 ≤ ticket.now.line }
        requires last { ticket.now.line ≤ length (lane ticket.now.beat self.old) }
        ensures ok { OnOk result (self.new ≡ naming self.old ticket.now.beat ticket.now.line place) }
        ensures err { OnErr result (self.new ≡ self.old) }
    {
        if ticket.beat {
            name_in(&mut self.beats, ticket.line, place)
        } else {
            name_in(&mut self.calls, ticket.line, place)
        }
    }

    /// Where what the calls of a line named stands. Lines are counted from 0 here.
    pub fn calls(&self, line: usize) -> &[Place]
        requires { line < length self.now.calls }
        ensures { result.now ≡ places_of self.now.calls (line + 1) }
    {
        self.calls[line].as_slice()
    }

    /// Where what the heartbeat of a line named stands. Lines are counted from 0 here.
    pub fn beats(&self, line: usize) -> &[Place]
        requires { line < length self.now.beats }
        ensures { result.now ≡ places_of self.now.beats (line + 1) }
    {
        self.beats[line].as_slice()
    }
}
