//! What stands around a picture: its size, how each class is drawn, and what the store holds at the end.
#![tactic(auto, using(crate::proofs::Adding::nothing_added, crate::proofs::Adding::further))]

ghost use Rattle.std.specs.Prelude.{OnOk};
ghost use Rattle.txn_words.specs.GoesOn.{GoesOn};

use crate::columns::{LINES, MOST_OF_COMMENT};
use crate::scene::Scene;
use crate::shapes::{Point, push_box, push_text};
use txn_kv::NoMemory;
use txn_words::{Piece, first_line, push};

/// How each class is drawn.
const STYLES: [&[u8]; 28] = [
    b"text{fill:#1f2328}",
    b".paper{fill:#fff}",
    b".a{text-anchor:end}",
    b".d{text-anchor:middle}",
    b".h{font-weight:bold}",
    b".m{fill:#6e7781}",
    b".i{fill:#57606a;font-style:italic}",
    b".n{fill:#424a53}",
    b".f{fill:#b42318}",
    b".u{fill:#9a4a00}",
    b"path{fill:none;stroke-width:1.4}",
    b".r{stroke:#1f5fbf;marker-end:url(#r)}",
    b".o{stroke:#1f5fbf}",
    b".l{stroke:#d9730d;stroke-dasharray:7 3;marker-end:url(#l)}",
    b".p{stroke:#6e7781;stroke-dasharray:4 3;marker-end:url(#p)}",
    b".e{stroke:#cf222e;stroke-dasharray:4 3;marker-end:url(#e)}",
    b".q{stroke:#6e7781;stroke-dasharray:4 3}",
    b".c,.z{stroke:#cf222e;stroke-width:2.2}",
    b".z{stroke-width:3.4}",
    b".w{stroke:#8c959f;stroke-dasharray:2 3}",
    b".v{stroke:#afb8c1}",
    b".v2{stroke:#d0d7de;stroke-dasharray:2 4}",
    b".v3{fill:#57606a}",
    b".k{fill:#fff;stroke:#6e7781;stroke-width:1.4}",
    b".g{fill:#fff;fill-opacity:.82}",
    b".x{fill:#f6f8fa}",
    b".j{fill:#fff8c5;stroke:#d4a72c}",
    b".bar{fill:#b6d3fb;stroke:#5a94e0}",
];

/// How the names of lifelines and the marks at stores are drawn.
const MORE_STYLES: [&[u8]; 9] = [
    b".nc{fill:#ddf4ff;stroke:#54aeff}",
    b".nd{fill:#fbefff;stroke:#c297ff}",
    b".ns{fill:#eaeef2;stroke:#8c959f}",
    b"circle.y{fill:#e8b923;stroke:#8a6500}",
    b"circle.s{fill:#2da44e;stroke:#116329}",
    b"circle.b{fill:#fff;stroke:#6e7781;stroke-width:2}",
    b"text.y{fill:#7d4e00}",
    b"text.s{fill:#116329}",
    b"text.b{fill:#57606a}",
];

/// The arrowheads, by the class of the line and its colour.
const HEADS: [(&[u8], &[u8]); 4] = [
    (b"r", b"#1f5fbf"),
    (b"l", b"#d9730d"),
    (b"p", b"#6e7781"),
    (b"e", b"#cf222e"),
];

/// Texts with an end of line behind each.
fn push_all(out: &mut Vec<u8>, texts: &[&[u8]]) -> Result<(), NoMemory>
    ensures { OnOk result (GoesOn out.old.items out.new.items) }
{
    for text in texts {
        push(out, &[Piece::Word(text), Piece::Word(b"\n")])?;
    }
    Ok(())
}

fn push_head<'a>(out: &mut Vec<u8>, name: &'a [u8], colour: &'a [u8]) -> Result<(), NoMemory>
    ensures { OnOk result (GoesOn out.old.items out.new.items) }
{
    push(
        out,
        &[
            Piece::Word(b"<defs><marker id=\""),
            Piece::Word(name),
            Piece::Word(
                b"\" viewBox=\"0 0 10 10\" refX=\"9\" refY=\"5\" markerUnits=\"userSpaceOnUse\"",
            ),
            Piece::Word(b" markerWidth=\"9\" markerHeight=\"9\" orient=\"auto\">"),
            Piece::Word(b"<path d=\"M0 1L10 5L0 9z\" style=\"stroke:none;fill:"),
            Piece::Word(colour),
            Piece::Word(b"\"/></marker></defs>\n"),
        ],
    )
}

fn push_heads(out: &mut Vec<u8>) -> Result<(), NoMemory>
    ensures { OnOk result (GoesOn out.old.items out.new.items) }
{
    for head in HEADS {
        push_head(out, head.0, head.1)?;
    }
    Ok(())
}

fn push_size(out: &mut Vec<u8>, width: u64, height: u64) -> Result<(), NoMemory>
    ensures { OnOk result (GoesOn out.old.items out.new.items) }
{
    push(
        out,
        &[
            Piece::Word(b"<svg xmlns=\"http://www.w3.org/2000/svg\" version=\"1.1\" width=\""),
            Piece::Number(width),
            Piece::Word(b"\" height=\""),
            Piece::Number(height),
            Piece::Word(b"\" viewBox=\"0 0 "),
            Piece::Number(width),
            Piece::Word(b" "),
            Piece::Number(height),
            Piece::Word(
                b"\" font-family=\"DejaVu Sans Mono,Menlo,Consolas,monospace\" font-size=\"11\">\n",
            ),
        ],
    )
}

/// How far below the last row the last lines begin.
const LAST_LINES: u64 = 56;

/// The text behind the outcomes: what the store holds at the end, and the counts.
fn last_lines<'a>(scene: &'a Scene<'_>) -> &'a [u8] {
    let mut rest = scene.outcomes;
    for _ in 0..scene.lines.len() {
        rest = first_line(rest).1;
    }
    rest
}

fn count_lines(text: &[u8]) -> u64 {
    let mut count: u64 = 0;
    for byte in text {
        if *byte == b'\n' {
            count = count.wrapping_add(1);
        }
    }
    count
}

fn push_styles(out: &mut Vec<u8>) -> Result<(), NoMemory>
    ensures { OnOk result (GoesOn out.old.items out.new.items) }
{
    push(out, &[Piece::Word(b"<style>\n")])?;
    push_all(out, &STYLES)?;
    push_all(out, &MORE_STYLES)?;
    push(out, &[Piece::Word(b"</style>\n")])
}

/// What stands before the drawing.
pub fn push_opening(out: &mut Vec<u8>, scene: &Scene<'_>) -> Result<(), NoMemory>
    ensures { OnOk result (GoesOn out.old.items out.new.items) }
{
    let width = scene.columns.width;
    let lines = count_lines(last_lines(scene)).wrapping_mul(16);
    let height = scene
        .rows
        .end()
        .wrapping_add(LAST_LINES)
        .wrapping_add(lines);
    push_size(out, width, height)?;
    push_styles(out)?;
    push_heads(out)?;
    push_box(out, b"paper", Point { x: 0, y: 0 }, width, height)
}

/// What the store holds at the end.
pub fn push_last_lines(out: &mut Vec<u8>, scene: &Scene<'_>) -> Result<(), NoMemory>
    ensures { OnOk result (GoesOn out.old.items out.new.items) }
{
    let mut rest = last_lines(scene);
    let top = scene.rows.end().wrapping_add(LAST_LINES);
    for i in 0..count_lines(rest) {
        let (text, after) = first_line(rest);
        let y = top.wrapping_add(i.wrapping_mul(16));
        push_text(out, b"n", Point { x: LINES, y }, text, MOST_OF_COMMENT)?;
        rest = after;
    }
    Ok(())
}
