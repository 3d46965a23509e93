//! Words at an arrow, before a ground that hides what runs behind them.
#![tactic(auto, using(crate::proofs::Adding::nothing_added, crate::proofs::Adding::further))]

ghost use Rattle.std.specs.Prelude.{OnOk};
ghost use Rattle.txn_words.specs.GoesOn.{GoesOn};

use crate::shapes::{Point, push_box, push_ended};
use crate::text::{push_shown, signs_in, width_of};
use txn_kv::NoMemory;
use txn_words::{Piece, push};

/// How many signs of a request, of its reply or of its marks are shown.
pub const MOST_SIGNS: u64 = 44;

/// On which side of its place a label stands.
#[derive(Clone, Copy)]
pub enum Side {
    Left,
    Right,
}

/// Words of a run, and what else is said behind them.
#[derive(Clone, Copy)]
pub struct Label<'a> {
    pub class: &'static [u8],
    pub side: Side,
    pub at: Point,
    pub words: &'a [u8],
    pub tail: &'static [u8],
}

/// How wide a label is.
fn width(label: &Label<'_>) -> u64 {
    let signs = signs_in(label.words, MOST_SIGNS);
    width_of(signs.wrapping_add(label.tail.len() as u64)).wrapping_add(4)
}

fn anchor(side: Side) -> &'static [u8] {
    match side {
        Side::Right => b"",
        Side::Left => b" a",
    }
}

/// The words of a label, on their side of its place.
fn push_anchored(out: &mut Vec<u8>, label: &Label<'_>) -> Result<(), NoMemory>
    ensures { OnOk result (GoesOn out.old.items out.new.items) }
{
    push(
        out,
        &[
            Piece::Word(b"<text class=\""),
            Piece::Word(label.class),
            Piece::Word(anchor(label.side)),
            Piece::Word(b"\" x=\""),
            Piece::Number(label.at.x),
            Piece::Word(b"\" y=\""),
            Piece::Number(label.at.y),
            Piece::Word(b"\">"),
        ],
    )?;
    push_shown(out, label.words, MOST_SIGNS)?;
    push_ended(out, &[Piece::Word(label.tail)])
}

/// A label. Where there are no words there is none.
pub fn push_label(out: &mut Vec<u8>, label: &Label<'_>) -> Result<(), NoMemory>
    ensures { OnOk result (GoesOn out.old.items out.new.items) }
{
    if label.words.is_empty() && label.tail.is_empty() {
        return Ok(());
    }
    let width = width(label);
    let left = match label.side {
        Side::Right => label.at.x.wrapping_sub(2),
        Side::Left => label.at.x.wrapping_add(2).wrapping_sub(width),
    };
    let corner = Point {
        x: left,
        y: label.at.y.wrapping_sub(10),
    };
    push_box(out, b"g", corner, width, 13)?;
    push_anchored(out, label)
}
