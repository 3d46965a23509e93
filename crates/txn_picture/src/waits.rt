//! Requests that were sent and never reached anybody.
#![tactic(auto, using(crate::proofs::Adding::nothing_added, crate::proofs::Adding::further))]

ghost use Rattle.std.specs.Prelude.{OnOk};
ghost use Rattle.txn_words.specs.GoesOn.{GoesOn};

use crate::labels::{Label, Side, push_label};
use crate::scene::Scene;
use crate::shapes::{beside, push_circle, push_stroke};
use txn_kv::NoMemory;
use txn_report::SentNote;

/// The request at a place, if it never reached anybody and nobody was told of it.
fn waiting<'a>(scene: &'a Scene<'_>, at: usize) -> Option<&'a SentNote> {
    let fate = scene.fates.get(at);
    if fate.served > 0 || fate.told > 0 {
        return None;
    }
    scene.run.report.sent.as_slice().get(at)
}

/// How many requests from this place on wait in one row, and are of one client.
fn count_beside(scene: &Scene<'_>, at: usize, first: &SentNote) -> usize {
    let mut count: usize = 0;
    let mut next = at;
    for _ in at..scene.run.report.sent.len() {
        match waiting(scene, next) {
            Some(note) if note.at == first.at => {
                count = count.wrapping_add(1);
                next = next.wrapping_add(1);
            }
            _ => return count,
        }
    }
    count
}

/// The open end of requests that wait, and what they are.
fn push_waiting(
    out: &mut Vec<u8>,
    scene: &Scene<'_>,
    at: usize,
    note: &SentNote,
    count: usize,
) -> Result<(), NoMemory>
    ensures { OnOk result (GoesOn out.old.items out.new.items) }
{
    let from = scene.departure(note);
    let to = beside(from, 24, 6);
    let tail: &'static [u8] = if count > 1 {
        b" and others never delivered"
    } else {
        b" never delivered"
    };
    push_stroke(out, b"o", from, to)?;
    push_circle(out, b"k", to, 4)?;
    push_label(
        out,
        &Label {
            class: b"m",
            side: Side::Right,
            at: beside(to, 10, 4),
            words: scene.fates.said(scene.fates.get(at).label),
            tail,
        },
    )
}

/// The requests from this place on that wait in one row, unless an earlier place has said them. Answers where next to look.
fn push_waits(
    out: &mut Vec<u8>,
    scene: &Scene<'_>,
    at: usize,
    next: usize,
) -> Result<usize, NoMemory>
    ensures { OnOk result (GoesOn out.old.items out.new.items) }
{
    if at < next {
        return Ok(next);
    }
    match waiting(scene, at) {
        None => Ok(next),
        Some(note) => {
            let count = count_beside(scene, at, note);
            push_waiting(out, scene, at, note, count)?;
            Ok(at.wrapping_add(count))
        }
    }
}

/// All requests that were never delivered.
pub fn push_all_waiting(out: &mut Vec<u8>, scene: &Scene<'_>) -> Result<(), NoMemory>
    ensures { OnOk result (GoesOn out.old.items out.new.items) }
{
    let mut next: usize = 0;
    for i in 0..scene.run.report.sent.len() {
        next = push_waits(out, scene, i, next)?;
    }
    Ok(())
}
