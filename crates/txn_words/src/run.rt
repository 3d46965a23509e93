//! A run, line by line.
#![tactic(auto, using(crate::proofs::Adding::nothing_added, crate::proofs::Adding::further))]

ghost use Rattle.std.specs.Prelude.{OnOk};
ghost use Rattle.txn_words.specs.GoesOn.{GoesOn};

use crate::event::{Event, Run, push_event};
use crate::forms::{Form, Use, form_of};
use crate::line_words::{first_line, first_word, ticket_in};
use crate::pieces::{Piece, push};
use crate::request::push_request;
use crate::tickets::{Named, Tickets};
use std::alloc::Global;
use txn_kv::{NoMemory, Ticket};
use txn_report::{Report, report_text};

/// A request that was sent or a sleep that was begun, behind a mark.
fn push_named(out: &mut Vec<u8>, run: &Run<'_>, mark: &[u8], ticket: Ticket) -> Result<(), NoMemory>
    ensures { OnOk result (GoesOn out.old.items out.new.items) }
{
    push(out, &[Piece::Word(mark), Piece::Ticket(ticket)])?;
    match run.tickets.find(ticket) {
        Named::Nothing => Ok(()),
        Named::Sleep(_) => push(out, &[Piece::Word(b" sleep")]),
        Named::Sent(i) => match run.report.sent.as_slice().get(i) {
            None => Ok(()),
            Some(note) => {
                push(out, &[Piece::Word(b" ")])?;
                push_request(out, note)?;
                push(out, &[Piece::Word(b" -> "), Piece::Target(note.to)])
            }
        },
    }
}

/// What a line sent, or its heartbeat.
fn push_all_of(out: &mut Vec<u8>, run: &Run<'_>, line: u64, beat: bool) -> Result<(), NoMemory>
    ensures { OnOk result (GoesOn out.old.items out.new.items) }
{
    let mut mark: &[u8] = if beat { b", " } else { b" | " };
    for i in 0..run.tickets.count(line, beat) {
        push_named(
            out,
            run,
            mark,
            Ticket {
                line,
                beat,
                number: i.wrapping_add(1),
            },
        )?;
        mark = b", ";
    }
    Ok(())
}

fn push_skipped(out: &mut Vec<u8>, form: Form, is_skipped: bool) -> Result<(), NoMemory>
    ensures { OnOk result (GoesOn out.old.items out.new.items) }
{
    if is_skipped {
        push(out, &[Piece::Word(b" | "), Piece::Word(form.skipped)])
    } else {
        Ok(())
    }
}

/// What a line did.
fn push_deeds(
    out: &mut Vec<u8>,
    run: &Run<'_>,
    number: u64,
    line: &[u8],
    is_skipped: bool,
) -> Result<(), NoMemory>
    ensures { OnOk result (GoesOn out.old.items out.new.items) }
{
    let (word, rest) = first_word(line);
    let Some(form) = form_of(word) else {
        return Ok(());
    };
    match form.is_for {
        Use::Call if !is_skipped => {
            push_all_of(out, run, number, false)?;
            push_all_of(out, run, number, true)
        }
        Use::Call | Use::World => push_skipped(out, form, is_skipped),
        _ => match ticket_in(rest) {
            None => Ok(()),
            Some(ticket) => push_event(
                out,
                run,
                &Event {
                    line: number,
                    form,
                    ticket,
                    is_skipped,
                },
            ),
        },
    }
}

/// A line with its outcome and what it did. A comment stands alone.
fn push_line(
    out: &mut Vec<u8>,
    run: &Run<'_>,
    number: u64,
    line: &[u8],
    outcome: &[u8],
) -> Result<(), NoMemory>
    ensures { OnOk result (GoesOn out.old.items out.new.items) }
{
    if line.is_empty() {
        return push(out, &[Piece::Number(number), Piece::Word(b"\n")]);
    }
    push(
        out,
        &[Piece::Number(number), Piece::Word(b" "), Piece::Word(line)],
    )?;
    if line[0] != b'#' {
        push(out, &[Piece::Word(b" | "), Piece::Word(outcome)])?;
        push_deeds(out, run, number, line, outcome == b"skipped".as_slice())?;
    }
    push(out, &[Piece::Word(b"\n")])
}

/// The lines of a script, each with its line of the report's text; then what else stands there.
fn push_lines(out: &mut Vec<u8>, run: &Run<'_>, script: &[u8], text: &[u8]) -> Result<(), NoMemory>
    ensures { OnOk result (GoesOn out.old.items out.new.items) }
{
    let mut script = script;
    let mut text = text;
    for i in 0..run.report.outcomes.len() {
        let (line, after) = first_line(script);
        let (numbered, left) = first_line(text);
        push_line(
            out,
            run,
            (i as u64).wrapping_add(1),
            line,
            first_word(numbered).1,
        )?;
        script = after;
        text = left;
    }
    push(out, &[Piece::Word(text)])
}

/// A line for each line of a script with its number, its text, its outcome, and what it sent or, of an event, what reached
/// whom; then the keys and the counts, as in the report's text.
pub fn push_run(
    alloc: Global,
    out: &mut Vec<u8>,
    script: &[u8],
    report: &Report,
) -> Result<(), NoMemory>
    ensures { OnOk result (GoesOn out.old.items out.new.items) }
{
    let text = report_text(alloc, report)?;
    let pushed = match Tickets::of(alloc, report) {
        Err(error) => Err(error),
        Ok(tickets) => {
            let pushed = push_lines(
                out,
                &Run {
                    report,
                    tickets: &tickets,
                },
                script,
                text.as_slice(),
            );
            drop(tickets);
            pushed
        }
    };
    drop(text);
    pushed
}
