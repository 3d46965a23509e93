//! What happens beside requests: splits, leaders, the clock, crashes, and sleeps that end.
#![tactic(auto, using(crate::proofs::Adding::nothing_added, crate::proofs::Adding::further))]

ghost use Rattle.std.specs.Prelude.{OnOk};
ghost use Rattle.txn_words.specs.GoesOn.{GoesOn};

use crate::labels::{Label, Side, push_label};
use crate::scene::Scene;
use crate::shapes::{Point, push_begun, push_box, push_cross, push_ended, push_pieces};
use crate::text::{push_shown, signs_in, width_of};
use txn_fates::is_skipped;
use txn_kv::{NoMemory, Ticket};
use txn_lines::Line;
use txn_words::{Named, Piece, first_line, first_word, push};

/// How many signs of what happens to the cluster are shown.
const MOST_OF_DEED: u64 = 30;

/// Something happens to the cluster: words in a box on the lifeline of the placement driver.
fn push_deed(
    out: &mut Vec<u8>,
    scene: &Scene<'_>,
    number: u64,
    text: &[u8],
    behind: &[u8],
) -> Result<(), NoMemory>
    ensures { OnOk result (GoesOn out.old.items out.new.items) }
{
    let signs = signs_in(text, MOST_OF_DEED).wrapping_add(behind.len() as u64);
    let width = width_of(signs).wrapping_add(18);
    let top = scene.rows.top(number);
    let x = scene.columns.driver;
    let corner = Point {
        x: x.wrapping_sub(width / 2),
        y: top.wrapping_add(4),
    };
    push_box(out, b"j", corner, width, 18)?;
    push_begun(
        out,
        b"d",
        Point {
            x,
            y: top.wrapping_add(17),
        },
    )?;
    push_shown(out, text, MOST_OF_DEED)?;
    push_ended(out, &[Piece::Word(behind)])
}

/// How wide the box of a new leader is.
const LEAD_WIDTH: u64 = 176;

/// A region gets another leader: words in a box on the lifeline of the placement driver.
fn push_lead(
    out: &mut Vec<u8>,
    scene: &Scene<'_>,
    number: u64,
    region: u64,
    store: u64,
) -> Result<(), NoMemory>
    ensures { OnOk result (GoesOn out.old.items out.new.items) }
{
    let top = scene.rows.top(number);
    let x = scene.columns.driver;
    let corner = Point {
        x: x.wrapping_sub(LEAD_WIDTH / 2),
        y: top.wrapping_add(4),
    };
    push_box(out, b"j", corner, LEAD_WIDTH, 18)?;
    push_pieces(
        out,
        b"d",
        Point {
            x,
            y: top.wrapping_add(17),
        },
        &[
            Piece::Word(b"region "),
            Piece::Number(region),
            Piece::Word(b" led by store "),
            Piece::Number(store),
        ],
    )
}

fn push_crash(
    out: &mut Vec<u8>,
    scene: &Scene<'_>,
    number: u64,
    client: u64,
) -> Result<(), NoMemory>
    ensures { OnOk result (GoesOn out.old.items out.new.items) }
{
    let x = scene.client_of(client);
    let y = scene.rows.top(number).wrapping_add(13);
    push_cross(out, b"z", Point { x, y }, 8)?;
    push_pieces(
        out,
        b"f",
        Point {
            x: x.wrapping_add(14),
            y: y.wrapping_add(4),
        },
        &[Piece::Word(b"crash")],
    )
}

/// A sleep, from where it was begun to its end: an arc beside its client.
fn push_arc(out: &mut Vec<u8>, x: u64, from: u64, to: u64) -> Result<(), NoMemory>
    ensures { OnOk result (GoesOn out.old.items out.new.items) }
{
    let left = x.wrapping_sub(30);
    push(
        out,
        &[
            Piece::Word(b"<path class=\"w\" d=\"M"),
            Piece::Number(x),
            Piece::Word(b" "),
            Piece::Number(from),
            Piece::Word(b"C"),
            Piece::Number(left),
            Piece::Word(b" "),
            Piece::Number(from),
            Piece::Word(b" "),
            Piece::Number(left),
            Piece::Word(b" "),
            Piece::Number(to),
            Piece::Word(b" "),
            Piece::Number(x),
            Piece::Word(b" "),
            Piece::Number(to),
            Piece::Word(b"\"/>\n"),
        ],
    )
}

/// A sleep ends. The text of its line has its ticket behind the first word.
fn push_wake(
    out: &mut Vec<u8>,
    scene: &Scene<'_>,
    number: u64,
    ticket: Ticket,
    begun: u64,
    text: &[u8],
) -> Result<(), NoMemory>
    ensures { OnOk result (GoesOn out.old.items out.new.items) }
{
    let x = scene.client_of(ticket.line);
    let y = scene.rows.top(number).wrapping_add(12);
    push_arc(out, x, scene.rows.leaving(begun), y)?;
    push_label(
        out,
        &Label {
            class: b"m",
            side: Side::Right,
            at: Point {
                x: x.wrapping_add(12),
                y: y.wrapping_add(4),
            },
            words: first_word(text).1,
            tail: b" sleep ends",
        },
    )
}

/// What a line makes happen beside requests.
fn push_happening(
    out: &mut Vec<u8>,
    scene: &Scene<'_>,
    number: u64,
    line: &Line,
    text: &[u8],
) -> Result<(), NoMemory>
    ensures { OnOk result (GoesOn out.old.items out.new.items) }
{
    if is_skipped(scene.run.report, number) {
        return Ok(());
    }
    match line {
        Line::Split { .. } => push_deed(out, scene, number, text, b""),
        Line::Clock { .. } => push_deed(out, scene, number, text, b" ms"),
        Line::Lead { region, store } => push_lead(out, scene, number, *region, *store),
        Line::Crash { client } => push_crash(out, scene, number, *client),
        Line::Wake { ticket } => match scene.run.tickets.find(*ticket) {
            Named::Sleep(begun) => push_wake(out, scene, number, *ticket, begun, text),
            _ => Ok(()),
        },
        _ => Ok(()),
    }
}

/// What happens beside requests, line by line.
pub fn push_world(out: &mut Vec<u8>, scene: &Scene<'_>) -> Result<(), NoMemory>
    ensures { OnOk result (GoesOn out.old.items out.new.items) }
{
    let mut number: u64 = 0;
    let mut rest = scene.script;
    for line in scene.lines {
        let (text, after) = first_line(rest);
        number = number.wrapping_add(1);
        push_happening(out, scene, number, line, text)?;
        rest = after;
    }
    Ok(())
}
