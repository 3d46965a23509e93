//! What an event did with the request or the sleep that it names.
#![tactic(auto, using(crate::proofs::Adding::nothing_added, crate::proofs::Adding::further))]

ghost use Rattle.std.specs.Prelude.{OnOk};
ghost use Rattle.txn_words.specs.GoesOn.{GoesOn};

use crate::forms::{Form, Use};
use crate::pieces::{Piece, push};
use crate::request::push_request;
use crate::tickets::{Named, Tickets};
use txn_kv::{NoMemory, Ticket};
use txn_report::{Report, SentNote};

/// A run, and what its tickets name.
#[derive(Clone, Copy)]
pub struct Run<'a> {
    pub report: &'a Report,
    pub tickets: &'a Tickets,
}

/// An event on a ticket.
#[derive(Clone, Copy)]
pub struct Event {
    /// The line that it stands on.
    pub line: u64,
    pub form: Form,
    pub ticket: Ticket,
    pub is_skipped: bool,
}

/// Whom a ticket's reply or sleep is for.
fn whose(ticket: Ticket) -> &'static [u8] {
    if ticket.beat {
        b"the heartbeat of line "
    } else {
        b"line "
    }
}

/// Who takes the reply to a request.
fn takers(note: &SentNote) -> (&'static [u8], Piece<'_>) {
    if note.askers.len() > 1 {
        (b"lines", Piece::Numbers(note.askers.as_slice()))
    } else {
        (whose(note.ticket), Piece::Number(note.ticket.line))
    }
}

/// Says that a line ends in this step, where it does.
fn push_end(out: &mut Vec<u8>, run: &Run<'_>, step: u64, line: u64) -> Result<(), NoMemory>
    ensures { OnOk result (GoesOn out.old.items out.new.items) }
{
    let at = (line as usize).wrapping_sub(1);
    if run.report.ended.as_slice().get(at) == Some(&step) {
        push(
            out,
            &[
                Piece::Word(b"; line "),
                Piece::Number(line),
                Piece::Word(b" ends"),
            ],
        )
    } else {
        Ok(())
    }
}

/// Says which lines end with the reply to a request.
fn push_ends(out: &mut Vec<u8>, run: &Run<'_>, step: u64, note: &SentNote) -> Result<(), NoMemory>
    ensures { OnOk result (GoesOn out.old.items out.new.items) }
{
    if note.ticket.beat {
        return Ok(());
    }
    if note.askers.len() < 2 {
        return push_end(out, run, step, note.ticket.line);
    }
    for line in note.askers.as_slice() {
        push_end(out, run, step, *line)?;
    }
    Ok(())
}

/// A ticket that a later step gives out.
fn push_later(out: &mut Vec<u8>, ticket: Ticket, at: u64) -> Result<(), NoMemory>
    ensures { OnOk result (GoesOn out.old.items out.new.items) }
{
    push(
        out,
        &[
            Piece::Word(b" | "),
            Piece::Ticket(ticket),
            Piece::Word(b" comes later, in the step of line "),
            Piece::Number(at),
        ],
    )
}

fn push_sleep(out: &mut Vec<u8>, run: &Run<'_>, event: &Event, at: u64) -> Result<(), NoMemory>
    ensures { OnOk result (GoesOn out.old.items out.new.items) }
{
    let ticket = event.ticket;
    if at >= event.line {
        return push_later(out, ticket, at);
    }
    if event.form.is_for != Use::Wake {
        return push(
            out,
            &[
                Piece::Word(b" | "),
                Piece::Ticket(ticket),
                Piece::Word(b" is a sleep: wake ends it"),
            ],
        );
    }
    if event.is_skipped {
        return push(out, &[Piece::Word(b" | "), Piece::Word(event.form.skipped)]);
    }
    push(
        out,
        &[
            Piece::Word(b" | the sleep of "),
            Piece::Word(whose(ticket)),
            Piece::Number(ticket.line),
            Piece::Word(b" ends"),
        ],
    )?;
    if ticket.beat {
        Ok(())
    } else {
        push_end(out, run, event.line, ticket.line)
    }
}

/// What became of a request: what stands behind its words.
fn push_reached(out: &mut Vec<u8>, is_for: Use, note: &SentNote) -> Result<(), NoMemory>
    ensures { OnOk result (GoesOn out.old.items out.new.items) }
{
    let to = Piece::Target(note.to);
    let (who, lines) = takers(note);
    let who = Piece::Word(who);
    let reached = Piece::Word(b" reached ");
    match is_for {
        Use::Serve => push(out, &[reached, to, Piece::Word(b", its reply is kept")]),
        Use::Answer => push(out, &[reached, who, lines]),
        Use::Deliver => push(
            out,
            &[reached, to, Piece::Word(b", and its reply "), who, lines],
        ),
        Use::Lose => push(out, &[Piece::Word(b" counts as lost for "), who, lines]),
        Use::Busy => push(
            out,
            &[
                Piece::Word(b" found "),
                to,
                Piece::Word(b" too busy, as was told to "),
                who,
                lines,
            ],
        ),
        Use::Wake | Use::Call | Use::World => Ok(()),
    }
}

fn push_sent(
    out: &mut Vec<u8>,
    run: &Run<'_>,
    event: &Event,
    note: &SentNote,
) -> Result<(), NoMemory>
    ensures { OnOk result (GoesOn out.old.items out.new.items) }
{
    if note.at >= event.line {
        return push_later(out, event.ticket, note.at);
    }
    if event.form.is_for == Use::Wake {
        return push(
            out,
            &[
                Piece::Word(b" | "),
                Piece::Ticket(event.ticket),
                Piece::Word(b" is a request, and no sleep"),
            ],
        );
    }
    if event.is_skipped {
        return push(out, &[Piece::Word(b" | "), Piece::Word(event.form.skipped)]);
    }
    let before: &[u8] = if event.form.is_for == Use::Answer {
        b" | the reply to "
    } else {
        b" | "
    };
    push(out, &[Piece::Word(before)])?;
    push_request(out, note)?;
    push_reached(out, event.form.is_for, note)?;
    push_ends(out, run, event.line, note)
}

pub fn push_event(out: &mut Vec<u8>, run: &Run<'_>, event: &Event) -> Result<(), NoMemory>
    ensures { OnOk result (GoesOn out.old.items out.new.items) }
{
    match run.tickets.find(event.ticket) {
        Named::Nothing => push(
            out,
            &[
                Piece::Word(b" | no request or sleep is "),
                Piece::Ticket(event.ticket),
            ],
        ),
        Named::Sleep(at) => push_sleep(out, run, event, at),
        Named::Sent(i) => match run.report.sent.as_slice().get(i) {
            Some(note) => push_sent(out, run, event, note),
            None => Ok(()),
        },
    }
}
