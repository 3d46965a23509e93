//! The margins: the number and the text of each line on the left, its outcome on the right.
#![tactic(auto, using(crate::proofs::Adding::nothing_added, crate::proofs::Adding::further))]

ghost use Rattle.std.specs.Prelude.{OnOk};
ghost use Rattle.txn_words.specs.GoesOn.{GoesOn};

use crate::columns::{LINES, MOST_ASKERS, MOST_OF_COMMENT, MOST_OF_LINE, MOST_OF_OUTCOME};
use crate::scene::Scene;
use crate::shapes::{Point, beside, push_box, push_pieces, push_text};
use crate::text::{signs_in, width_of};
use txn_fates::is_skipped;
use txn_kv::{NoMemory, Ticket};
use txn_lines::Line;
use txn_words::{Named, Piece, first_line, first_word};

/// The ticket that an event names.
fn ticket_of(line: &Line) -> Option<Ticket> {
    match line {
        Line::Answer { ticket }
        | Line::Deliver { ticket }
        | Line::Lose { ticket }
        | Line::Busy { ticket }
        | Line::Wake { ticket } => Some(*ticket),
        _ => None,
    }
}

/// The lines that wait for what a ticket names, where they are more than one.
fn askers<'a>(scene: &'a Scene<'_>, ticket: Ticket) -> &'a [u64] {
    match scene.run.tickets.find(ticket) {
        Named::Sent(at) => match scene.run.report.sent.as_slice().get(at) {
            Some(note) if note.askers.len() > 1 => note.askers.as_slice(),
            _ => &[],
        },
        _ => &[],
    }
}

/// Which lines end with an event.
fn push_ends(
    out: &mut Vec<u8>,
    scene: &Scene<'_>,
    number: u64,
    ticket: Ticket,
    at: Point,
) -> Result<(), NoMemory>
    ensures { OnOk result (GoesOn out.old.items out.new.items) }
{
    let askers = askers(scene, ticket);
    let first = match askers.first() {
        Some(line) => *line,
        None => ticket.line,
    };
    let place = (first as usize).wrapping_sub(1);
    let ended = scene.run.report.ended.as_slice().get(place);
    if ticket.beat || ended != Some(&number) {
        return Ok(());
    }
    if askers.is_empty() {
        return push_pieces(
            out,
            b"h",
            at,
            &[
                Piece::Word(b"line "),
                Piece::Number(first),
                Piece::Word(b" ends"),
            ],
        );
    }
    let count = askers.len() as u64;
    let lines = if count > MOST_ASKERS {
        [
            Piece::Number(count),
            Piece::Word(b" lines"),
            Piece::Word(b" end"),
        ]
    } else {
        [
            Piece::Word(b"lines"),
            Piece::Numbers(askers),
            Piece::Word(b" end"),
        ]
    };
    push_pieces(out, b"h", at, &lines)
}

/// How an outcome is shown: what is done, what is skipped, what fails, what is well.
fn class_of(outcome: &[u8]) -> &'static [u8] {
    match outcome.first() {
        Some(b'e') => b"f",
        Some(b'o') if outcome == b"open".as_slice() => b"u",
        Some(b'o') => b"h",
        _ => b"m",
    }
}

/// A line that is a call or an event.
fn push_deed(
    out: &mut Vec<u8>,
    scene: &Scene<'_>,
    number: u64,
    line: &Line,
    text: &[u8],
    outcome: &[u8],
) -> Result<(), NoMemory>
    ensures { OnOk result (GoesOn out.old.items out.new.items) }
{
    let y = scene.rows.top(number).wrapping_add(17);
    let class: &[u8] = if is_skipped(scene.run.report, number) {
        b"m"
    } else {
        b"t"
    };
    push_text(out, class, Point { x: LINES, y }, text, MOST_OF_LINE)?;
    let x = scene.columns.outcomes;
    push_text(
        out,
        class_of(outcome),
        Point { x, y },
        outcome,
        MOST_OF_OUTCOME,
    )?;
    match ticket_of(line) {
        Some(ticket) => push_ends(out, scene, number, ticket, beside(Point { x, y }, 44, 0)),
        None => Ok(()),
    }
}

/// A comment, before a ground that hides the lifelines.
fn push_comment(out: &mut Vec<u8>, at: Point, text: &[u8]) -> Result<(), NoMemory>
    ensures { OnOk result (GoesOn out.old.items out.new.items) }
{
    let width = width_of(signs_in(text, MOST_OF_COMMENT));
    let corner = Point {
        x: at.x,
        y: at.y.wrapping_sub(12),
    };
    push_box(out, b"paper", corner, width, 17)?;
    push_text(out, b"i", at, text, MOST_OF_COMMENT)
}

/// What stands beside the row of a line. A comment goes over all columns.
fn push_row(
    out: &mut Vec<u8>,
    scene: &Scene<'_>,
    number: u64,
    line: &Line,
    text: &[u8],
    outcome: &[u8],
) -> Result<(), NoMemory>
    ensures { OnOk result (GoesOn out.old.items out.new.items) }
{
    if matches!(line, Line::Blank) {
        let y = scene.rows.top(number).wrapping_add(13);
        push_pieces(out, b"m a", Point { x: 30, y }, &[Piece::Number(number)])?;
        return push_comment(out, Point { x: LINES, y }, text);
    }
    let y = scene.rows.top(number).wrapping_add(17);
    push_pieces(out, b"m a", Point { x: 30, y }, &[Piece::Number(number)])?;
    push_deed(out, scene, number, line, text, outcome)
}

/// The texts of all lines, and their outcomes.
pub fn push_margins(out: &mut Vec<u8>, scene: &Scene<'_>) -> Result<(), NoMemory>
    ensures { OnOk result (GoesOn out.old.items out.new.items) }
{
    let mut number: u64 = 0;
    let mut script = scene.script;
    let mut outcomes = scene.outcomes;
    for line in scene.lines {
        let (text, after) = first_line(script);
        let (numbered, left) = first_line(outcomes);
        number = number.wrapping_add(1);
        push_row(out, scene, number, line, text, first_word(numbered).1)?;
        script = after;
        outcomes = left;
    }
    Ok(())
}

/// A ground for every second row, but for comments.
fn push_ground(
    out: &mut Vec<u8>,
    scene: &Scene<'_>,
    number: u64,
    line: &Line,
) -> Result<(), NoMemory>
    ensures { OnOk result (GoesOn out.old.items out.new.items) }
{
    if matches!(line, Line::Blank) || number % 2 == 1 {
        return Ok(());
    }
    let y = scene.rows.top(number);
    let height = scene.rows.bottom(number).wrapping_sub(y);
    push_box(out, b"x", Point { x: 0, y }, scene.columns.width, height)
}

/// The grounds of all rows.
pub fn push_grounds(out: &mut Vec<u8>, scene: &Scene<'_>) -> Result<(), NoMemory>
    ensures { OnOk result (GoesOn out.old.items out.new.items) }
{
    let mut number: u64 = 0;
    for line in scene.lines {
        number = number.wrapping_add(1);
        push_ground(out, scene, number, line)?;
    }
    Ok(())
}
