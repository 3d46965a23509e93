//! What each ticket of a run names.
#![tactic(auto, using(crate::proofs::Adding::nothing_added, crate::proofs::Adding::further))]

use std::alloc::Global;
use txn_kv::{NoMemory, Ticket};
use txn_report::{Report, SentNote};

/// What a ticket names.
#[derive(Clone, Copy)]
pub enum Named {
    Nothing,
    /// The request that was sent as this one, counted from 0.
    Sent(usize),
    /// A sleep that was begun in the step of this line.
    Sleep(u64),
}

/// What the tickets of a run name, by lines, and for each line first its own and then those of its heartbeat.
pub struct Tickets {
    /// Where the tickets of a line or a heartbeat begin.
    starts: Vec<usize>,
    named: Vec<Named>,
}

impl Drop for Tickets {
    fn drop(self) {
        let Tickets { starts, named } = self;
        drop(starts);
        drop(named);
    }
}

/// The place of a line or of its heartbeat among the starts.
fn place_of(line: u64, beat: bool) -> usize {
    let twice = (line as usize).wrapping_mul(2);
    if beat { twice.wrapping_add(1) } else { twice }
}

/// One more ticket at this place.
fn count(counts: &mut [usize], ticket: Ticket) {
    let at = place_of(ticket.line, ticket.beat);
    if at < counts.len() {
        counts[at] = counts[at].wrapping_add(1);
    }
}

/// Each count is made the sum of those before it.
fn sum_up(counts: &mut [usize]) {
    let mut sum: usize = 0;
    for count in counts {
        let here = *count;
        *count = sum;
        sum = sum.wrapping_add(here);
    }
}

/// How many tickets each line and each heartbeat has, and one place more.
fn starts_of(alloc: Global, report: &Report) -> Result<Vec<usize>, NoMemory> {
    let places = place_of(report.outcomes.len() as u64, true).wrapping_add(2);
    let mut starts = vec![in alloc; 0usize; places]?;
    for note in report.sent.as_slice() {
        count(starts.as_mut_slice(), note.ticket);
    }
    for note in report.sleeps.as_slice() {
        count(starts.as_mut_slice(), note.ticket);
    }
    sum_up(starts.as_mut_slice());
    Ok(starts)
}

impl Tickets {
    pub fn of(alloc: Global, report: &Report) -> Result<Tickets, NoMemory> {
        let starts = starts_of(alloc, report)?;
        let length = report.sent.len().wrapping_add(report.sleeps.len());
        let named = match vec![in alloc; Named::Nothing; length] {
            Ok(named) => named,
            Err(_) => {
                drop(starts);
                return Err(NoMemory);
            }
        };
        let mut tickets = Tickets { starts, named };
        for (i, note) in report.sent.as_slice().iter().enumerate() {
            tickets.set(note.ticket, Named::Sent(i));
        }
        for note in report.sleeps.as_slice() {
            tickets.set(note.ticket, Named::Sleep(note.at));
        }
        Ok(tickets)
    }

    /// The place of a ticket among what is named.
    fn at(&self, ticket: Ticket) -> Option<usize> {
        let place = place_of(ticket.line, ticket.beat);
        let start = *self.starts.get(place)?;
        let end = *self.starts.get(place.wrapping_add(1))?;
        let at = start.checked_add(ticket.number as usize)?.checked_sub(1)?;
        if ticket.number == 0 || at >= end {
            return None;
        }
        Some(at)
    }

    fn set(&mut self, ticket: Ticket, named: Named) {
        if let Some(at) = self.at(ticket) {
            if at < self.named.len() {
                self.named[at] = named;
            }
        }
    }

    pub fn find(&self, ticket: Ticket) -> Named {
        match self.at(ticket) {
            Some(at) if at < self.named.len() => self.named[at],
            _ => Named::Nothing,
        }
    }

    /// How many tickets a line or its heartbeat has.
    pub fn count(&self, line: u64, beat: bool) -> u64 {
        let place = place_of(line, beat);
        match (
            self.starts.get(place),
            self.starts.get(place.wrapping_add(1)),
        ) {
            (Some(start), Some(end)) => end.wrapping_sub(*start) as u64,
            _ => 0,
        }
    }
}
