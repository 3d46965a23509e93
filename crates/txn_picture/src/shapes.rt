//! Strokes, crosses, dots, boxes and words, each at its place.
#![tactic(auto, using(crate::proofs::Adding::nothing_added, crate::proofs::Adding::further))]

ghost use Rattle.std.specs.Prelude.{OnOk};
ghost use Rattle.txn_words.specs.GoesOn.{GoesOn};

use crate::text::push_shown;
use txn_kv::NoMemory;
use txn_words::{Piece, push};

/// A place in a picture, from its upper left corner.
#[derive(Clone, Copy)]
pub struct Point {
    pub x: u64,
    pub y: u64,
}

/// A place so far to the right of another, and so far below.
pub fn beside(at: Point, x: u64, y: u64) -> Point {
    Point {
        x: at.x.wrapping_add(x),
        y: at.y.wrapping_add(y),
    }
}

/// A place so far to the left of another, and so far below.
pub fn before(at: Point, x: u64, y: u64) -> Point {
    Point {
        x: at.x.wrapping_sub(x),
        y: at.y.wrapping_add(y),
    }
}

/// A straight line.
pub fn push_stroke(out: &mut Vec<u8>, class: &[u8], from: Point, to: Point) -> Result<(), NoMemory>
    ensures { OnOk result (GoesOn out.old.items out.new.items) }
{
    push(
        out,
        &[
            Piece::Word(b"<path class=\""),
            Piece::Word(class),
            Piece::Word(b"\" d=\"M"),
            Piece::Number(from.x),
            Piece::Word(b" "),
            Piece::Number(from.y),
            Piece::Word(b"L"),
            Piece::Number(to.x),
            Piece::Word(b" "),
            Piece::Number(to.y),
            Piece::Word(b"\"/>\n"),
        ],
    )
}

/// A cross, so far in each direction.
pub fn push_cross(out: &mut Vec<u8>, class: &[u8], at: Point, size: u64) -> Result<(), NoMemory>
    ensures { OnOk result (GoesOn out.old.items out.new.items) }
{
    let left = at.x.wrapping_sub(size);
    let right = at.x.wrapping_add(size);
    let upper = at.y.wrapping_sub(size);
    let lower = at.y.wrapping_add(size);
    push_stroke(
        out,
        class,
        Point { x: left, y: upper },
        Point { x: right, y: lower },
    )?;
    push_stroke(
        out,
        class,
        Point { x: left, y: lower },
        Point { x: right, y: upper },
    )
}

/// A circle.
pub fn push_circle(out: &mut Vec<u8>, class: &[u8], at: Point, size: u64) -> Result<(), NoMemory>
    ensures { OnOk result (GoesOn out.old.items out.new.items) }
{
    push(
        out,
        &[
            Piece::Word(b"<circle class=\""),
            Piece::Word(class),
            Piece::Word(b"\" cx=\""),
            Piece::Number(at.x),
            Piece::Word(b"\" cy=\""),
            Piece::Number(at.y),
            Piece::Word(b"\" r=\""),
            Piece::Number(size),
            Piece::Word(b"\"/>\n"),
        ],
    )
}

/// A box by its upper left corner.
pub fn push_box(
    out: &mut Vec<u8>,
    class: &[u8],
    at: Point,
    width: u64,
    height: u64,
) -> Result<(), NoMemory>
    ensures { OnOk result (GoesOn out.old.items out.new.items) }
{
    push(
        out,
        &[
            Piece::Word(b"<rect class=\""),
            Piece::Word(class),
            Piece::Word(b"\" x=\""),
            Piece::Number(at.x),
            Piece::Word(b"\" y=\""),
            Piece::Number(at.y),
            Piece::Word(b"\" width=\""),
            Piece::Number(width),
            Piece::Word(b"\" height=\""),
            Piece::Number(height),
            Piece::Word(b"\"/>\n"),
        ],
    )
}

/// A text begins here.
pub fn push_begun(out: &mut Vec<u8>, class: &[u8], at: Point) -> Result<(), NoMemory>
    ensures { OnOk result (GoesOn out.old.items out.new.items) }
{
    push(
        out,
        &[
            Piece::Word(b"<text class=\""),
            Piece::Word(class),
            Piece::Word(b"\" x=\""),
            Piece::Number(at.x),
            Piece::Word(b"\" y=\""),
            Piece::Number(at.y),
            Piece::Word(b"\">"),
        ],
    )
}

/// A text, which ends behind these pieces.
pub fn push_ended(out: &mut Vec<u8>, pieces: &[Piece<'_>]) -> Result<(), NoMemory>
    ensures { OnOk result (GoesOn out.old.items out.new.items) }
{
    push(out, pieces)?;
    push(out, &[Piece::Word(b"</text>\n")])
}

/// Pieces that have no sign which XML spells otherwise.
pub fn push_pieces(
    out: &mut Vec<u8>,
    class: &[u8],
    at: Point,
    pieces: &[Piece<'_>],
) -> Result<(), NoMemory>
    ensures { OnOk result (GoesOn out.old.items out.new.items) }
{
    push_begun(out, class, at)?;
    push_ended(out, pieces)
}

/// Any text, as far as so many signs.
pub fn push_text(
    out: &mut Vec<u8>,
    class: &[u8],
    at: Point,
    text: &[u8],
    most: u64,
) -> Result<(), NoMemory>
    ensures { OnOk result (GoesOn out.old.items out.new.items) }
{
    push_begun(out, class, at)?;
    push_shown(out, text, most)?;
    push_ended(out, &[])
}
