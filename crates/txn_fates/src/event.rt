//! What an event does to a request.
#![tactic(auto)]

use crate::fates::Told;
use txn_kv::Ticket;
use txn_lines::Line;

/// What an event does to a request.
#[derive(Clone, Copy)]
pub struct Event {
    pub line: u64,
    pub ticket: Ticket,
    /// Whether the store handles it.
    pub is_served: bool,
    /// What its client is told.
    pub what: Told,
}

/// The event of a line, where it is one on a request.
pub fn event_of(number: u64, line: &Line) -> Option<Event> {
    let (ticket, is_served, what) = match line {
        Line::Serve { ticket } => (*ticket, true, Told::Nothing),
        Line::Deliver { ticket } => (*ticket, true, Told::Reply),
        Line::Answer { ticket } => (*ticket, false, Told::Reply),
        Line::Lose { ticket } => (*ticket, false, Told::Lost),
        Line::Busy { ticket } => (*ticket, false, Told::Busy),
        _ => return None,
    };
    Some(Event {
        line: number,
        ticket,
        is_served,
        what,
    })
}
