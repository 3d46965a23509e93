//! The words at arrows: what a request is, what it was answered, what it did at its store.
#![tactic(auto, using(crate::proofs::Adding::nothing_added, crate::proofs::Adding::further))]

ghost use Rattle.std.specs.Prelude.{OnOk};
ghost use Rattle.txn_words.specs.GoesOn.{GoesOn};

use crate::labels::{Label, Side, push_label};
use crate::scene::Scene;
use crate::shapes::{Point, before, beside, push_circle};
use txn_fates::{Fate, Span, Told};
use txn_kv::NoMemory;
use txn_report::SentNote;

/// What a request is, where it reaches its store.
fn push_name(
    out: &mut Vec<u8>,
    scene: &Scene<'_>,
    note: &SentNote,
    fate: Fate,
    line: u64,
) -> Result<(), NoMemory>
    ensures { OnOk result (GoesOn out.old.items out.new.items) }
{
    let tail: &'static [u8] = if scene.is_orphan(note, fate) {
        b", late: the client has crashed"
    } else if scene.is_late(note, fate) {
        b", late"
    } else {
        b""
    };
    let class: &'static [u8] = if scene.is_late(note, fate) {
        b"u"
    } else {
        b"t"
    };
    push_label(
        out,
        &Label {
            class,
            side: Side::Left,
            at: before(scene.arrival(note, line), 10, 12),
            words: scene.fates.said(fate.label),
            tail,
        },
    )
}

/// Something that a request did to its keys.
fn push_mark(
    out: &mut Vec<u8>,
    scene: &Scene<'_>,
    class: &'static [u8],
    at: Point,
    span: Span,
) -> Result<(), NoMemory>
    ensures { OnOk result (GoesOn out.old.items out.new.items) }
{
    if span.from == span.to {
        return Ok(());
    }
    push_circle(out, class, at, 5)?;
    push_label(
        out,
        &Label {
            class,
            side: Side::Right,
            at: beside(at, 10, 4),
            words: scene.fates.said(span),
            tail: b"",
        },
    )
}

/// What a request did at its store.
fn push_marks(
    out: &mut Vec<u8>,
    scene: &Scene<'_>,
    note: &SentNote,
    fate: Fate,
) -> Result<(), NoMemory>
    ensures { OnOk result (GoesOn out.old.items out.new.items) }
{
    let at = scene.arrival(note, fate.served);
    push_mark(out, scene, b"y", beside(at, 0, 14), fate.locked)?;
    push_mark(out, scene, b"s", beside(at, 0, 14), fate.committed)?;
    push_mark(out, scene, b"b", beside(at, 0, 14), fate.rolled)
}

/// What a client is answered, where it takes the reply.
fn push_answer(
    out: &mut Vec<u8>,
    scene: &Scene<'_>,
    note: &SentNote,
    fate: Fate,
) -> Result<(), NoMemory>
    ensures { OnOk result (GoesOn out.old.items out.new.items) }
{
    let x = scene.client_of(note.ticket.line).wrapping_add(12);
    let y = if fate.served == fate.told {
        scene.rows.replying(fate.told).wrapping_sub(4)
    } else {
        scene.rows.reaching(fate.told).wrapping_add(13)
    };
    let class: &'static [u8] = if fate.is_refused { b"f" } else { b"n" };
    push_label(
        out,
        &Label {
            class,
            side: Side::Right,
            at: Point { x, y },
            words: scene.fates.said(fate.said),
            tail: b"",
        },
    )
}

fn push_busy(
    out: &mut Vec<u8>,
    scene: &Scene<'_>,
    note: &SentNote,
    fate: Fate,
) -> Result<(), NoMemory>
    ensures { OnOk result (GoesOn out.old.items out.new.items) }
{
    push_name(out, scene, note, fate, fate.told)?;
    let x = scene.client_of(note.ticket.line).wrapping_add(12);
    let y = scene.rows.replying(fate.told).wrapping_sub(4);
    push_label(
        out,
        &Label {
            class: b"f",
            side: Side::Right,
            at: Point { x, y },
            words: b"",
            tail: b"ServerIsBusy",
        },
    )
}

/// What was lost: a request, or the reply to it.
fn push_lost(
    out: &mut Vec<u8>,
    scene: &Scene<'_>,
    note: &SentNote,
    fate: Fate,
) -> Result<(), NoMemory>
    ensures { OnOk result (GoesOn out.old.items out.new.items) }
{
    let tail: &'static [u8] = if fate.served > 0 && fate.served < fate.told {
        b": reply lost"
    } else {
        b" lost"
    };
    push_label(
        out,
        &Label {
            class: b"f",
            side: Side::Left,
            at: before(scene.arrival(note, fate.told), 10, 18),
            words: scene.fates.said(fate.label),
            tail,
        },
    )
}

/// A reply that nobody has taken.
fn push_kept(
    out: &mut Vec<u8>,
    scene: &Scene<'_>,
    note: &SentNote,
    fate: Fate,
) -> Result<(), NoMemory>
    ensures { OnOk result (GoesOn out.old.items out.new.items) }
{
    let tail: &'static [u8] = if scene.is_late(note, fate) {
        b": nobody waits"
    } else {
        b": not taken"
    };
    push_label(
        out,
        &Label {
            class: b"n",
            side: Side::Left,
            at: before(scene.return_from(note, fate.served), 36, 4),
            words: scene.fates.said(fate.said),
            tail,
        },
    )
}

/// The words at the store that handled a request.
fn push_handled(
    out: &mut Vec<u8>,
    scene: &Scene<'_>,
    note: &SentNote,
    fate: Fate,
) -> Result<(), NoMemory>
    ensures { OnOk result (GoesOn out.old.items out.new.items) }
{
    if fate.served == 0 {
        return Ok(());
    }
    push_name(out, scene, note, fate, fate.served)?;
    push_marks(out, scene, note, fate)?;
    if fate.told < fate.served {
        push_kept(out, scene, note, fate)
    } else {
        Ok(())
    }
}

/// The words of a request and of what came of it.
fn push_words(
    out: &mut Vec<u8>,
    scene: &Scene<'_>,
    note: &SentNote,
    fate: Fate,
) -> Result<(), NoMemory>
    ensures { OnOk result (GoesOn out.old.items out.new.items) }
{
    push_handled(out, scene, note, fate)?;
    match fate.what {
        Told::Reply => push_answer(out, scene, note, fate),
        Told::Busy => push_busy(out, scene, note, fate),
        Told::Lost => push_lost(out, scene, note, fate),
        Told::Nothing => Ok(()),
    }
}

/// The words of all requests.
pub fn push_all_words(out: &mut Vec<u8>, scene: &Scene<'_>) -> Result<(), NoMemory>
    ensures { OnOk result (GoesOn out.old.items out.new.items) }
{
    let mut at: usize = 0;
    for note in scene.run.report.sent.as_slice() {
        push_words(out, scene, note, scene.fates.get(at))?;
        at = at.wrapping_add(1);
    }
    Ok(())
}
