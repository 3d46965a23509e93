//! The lifelines, with their names above and below, and for each call a bar from its line to its end.
#![tactic(auto, using(crate::proofs::Adding::nothing_added, crate::proofs::Adding::further))]

ghost use Rattle.std.specs.Prelude.{OnOk};
ghost use Rattle.txn_words.specs.GoesOn.{GoesOn};

use crate::columns::STORES;
use crate::scene::Scene;
use crate::shapes::{Point, push_box, push_circle, push_pieces, push_stroke};
use txn_fates::{Life, is_skipped};
use txn_kv::NoMemory;
use txn_lines::Line;
use txn_words::Piece;

/// Where the names above end.
const NAMES_END: u64 = 42;

/// A name in a box.
fn push_name(
    out: &mut Vec<u8>,
    class: &[u8],
    middle: Point,
    width: u64,
    pieces: &[Piece<'_>],
) -> Result<(), NoMemory>
    ensures { OnOk result (GoesOn out.old.items out.new.items) }
{
    let corner = Point {
        x: middle.x.wrapping_sub(width / 2),
        y: middle.y,
    };
    push_box(out, class, corner, width, 24)?;
    let at = Point {
        x: middle.x,
        y: middle.y.wrapping_add(16),
    };
    push_pieces(out, b"h d", at, pieces)
}

/// A client's lifeline, from the line that makes it to its crash or to the end.
fn push_life(out: &mut Vec<u8>, scene: &Scene<'_>, x: u64, life: Life) -> Result<(), NoMemory>
    ensures { OnOk result (GoesOn out.old.items out.new.items) }
{
    let y = scene.rows.top(life.line).wrapping_add(13);
    let from = Point { x, y };
    let end = if life.crash > 0 {
        scene.rows.top(life.crash).wrapping_add(13)
    } else {
        scene.rows.end().wrapping_add(8)
    };
    push_stroke(out, b"v2", Point { x, y: NAMES_END }, from)?;
    push_stroke(out, b"v", from, Point { x, y: end })?;
    push_circle(out, b"v3", from, 4)
}

/// The lifeline of a server.
fn push_line(out: &mut Vec<u8>, scene: &Scene<'_>, x: u64) -> Result<(), NoMemory>
    ensures { OnOk result (GoesOn out.old.items out.new.items) }
{
    let end = scene.rows.end().wrapping_add(8);
    push_stroke(out, b"v", Point { x, y: NAMES_END }, Point { x, y: end })
}

/// The lifeline of a store, where it appears.
fn push_store_line(out: &mut Vec<u8>, scene: &Scene<'_>, store: u64) -> Result<(), NoMemory>
    ensures { OnOk result (GoesOn out.old.items out.new.items) }
{
    match scene.columns.store(store) {
        0 => Ok(()),
        x => push_line(out, scene, x),
    }
}

/// The lifelines of the clients.
fn push_lives(out: &mut Vec<u8>, scene: &Scene<'_>) -> Result<(), NoMemory>
    ensures { OnOk result (GoesOn out.old.items out.new.items) }
{
    let mut number: u64 = 0;
    for life in scene.cast.lives() {
        number = number.wrapping_add(1);
        push_life(out, scene, scene.columns.client(number), *life)?;
    }
    Ok(())
}

/// All lifelines.
pub fn push_lifelines(out: &mut Vec<u8>, scene: &Scene<'_>) -> Result<(), NoMemory>
    ensures { OnOk result (GoesOn out.old.items out.new.items) }
{
    push_lives(out, scene)?;
    push_line(out, scene, scene.columns.driver)?;
    for store in 1..STORES + 1 {
        push_store_line(out, scene, store)?;
    }
    Ok(())
}

/// The names of the lifelines, at this height.
pub fn push_names(out: &mut Vec<u8>, scene: &Scene<'_>, y: u64) -> Result<(), NoMemory>
    ensures { OnOk result (GoesOn out.old.items out.new.items) }
{
    let mut number: u64 = 0;
    for life in scene.cast.lives() {
        number = number.wrapping_add(1);
        let at = Point {
            x: scene.columns.client(number),
            y,
        };
        push_name(
            out,
            b"nc",
            at,
            88,
            &[Piece::Word(b"client "), Piece::Number(life.line)],
        )?;
    }
    push_servers(out, scene, y)
}

/// The name of a store, where it appears.
fn push_store(out: &mut Vec<u8>, scene: &Scene<'_>, store: u64, y: u64) -> Result<(), NoMemory>
    ensures { OnOk result (GoesOn out.old.items out.new.items) }
{
    let x = scene.columns.store(store);
    if x == 0 {
        return Ok(());
    }
    push_name(
        out,
        b"ns",
        Point { x, y },
        72,
        &[Piece::Word(b"store "), Piece::Number(store)],
    )
}

/// The names of the placement driver and of the stores.
fn push_servers(out: &mut Vec<u8>, scene: &Scene<'_>, y: u64) -> Result<(), NoMemory>
    ensures { OnOk result (GoesOn out.old.items out.new.items) }
{
    let at = Point {
        x: scene.columns.driver,
        y,
    };
    push_name(out, b"nd", at, 136, &[Piece::Word(b"placement driver")])?;
    for store in 1..STORES + 1 {
        push_store(out, scene, store, y)?;
    }
    Ok(())
}

/// Where a call ends, or stays open to.
fn end_of(scene: &Scene<'_>, number: u64) -> u64 {
    let at = (number as usize).wrapping_sub(1);
    let ended = match scene.run.report.ended.as_slice().get(at) {
        Some(line) => *line,
        None => 0,
    };
    let crash = scene.cast.crash_of(number);
    if ended > 0 {
        scene.rows.bottom(ended).wrapping_sub(13)
    } else if crash > 0 {
        scene.rows.top(crash).wrapping_add(13)
    } else {
        scene.rows.end()
    }
}

/// A call, from its line to its end, where that is another line.
fn push_bar(out: &mut Vec<u8>, scene: &Scene<'_>, number: u64, line: &Line) -> Result<(), NoMemory>
    ensures { OnOk result (GoesOn out.old.items out.new.items) }
{
    let top = scene.rows.top(number).wrapping_add(10);
    let end = end_of(scene, number);
    let is_call = matches!(
        line,
        Line::Begin { .. } | Line::Timestamp { .. } | Line::Commit { .. } | Line::Rollback { .. }
    );
    if !is_call || is_skipped(scene.run.report, number) || end <= scene.rows.bottom(number) {
        return Ok(());
    }
    let x = scene.client_of(number).wrapping_sub(4);
    push_box(out, b"bar", Point { x, y: top }, 8, end.wrapping_sub(top))
}

/// The bars of all calls.
pub fn push_bars(out: &mut Vec<u8>, scene: &Scene<'_>) -> Result<(), NoMemory>
    ensures { OnOk result (GoesOn out.old.items out.new.items) }
{
    let mut number: u64 = 0;
    for line in scene.lines {
        number = number.wrapping_add(1);
        push_bar(out, scene, number, line)?;
    }
    Ok(())
}
