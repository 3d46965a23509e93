//! The arrows of requests and of replies.
#![tactic(auto, using(crate::proofs::Adding::nothing_added, crate::proofs::Adding::further))]

ghost use Rattle.std.specs.Prelude.{OnOk};
ghost use Rattle.txn_words.specs.GoesOn.{GoesOn};

use crate::scene::Scene;
use crate::shapes::{Point, before, push_circle, push_cross, push_stroke};
use txn_fates::{Fate, Told};
use txn_kv::NoMemory;
use txn_report::SentNote;

/// A request on its way to whoever handles it, where it was. Where it was given up before, it goes on from the cross.
fn push_way(
    out: &mut Vec<u8>,
    scene: &Scene<'_>,
    note: &SentNote,
    fate: Fate,
) -> Result<(), NoMemory>
    ensures { OnOk result (GoesOn out.old.items out.new.items) }
{
    if fate.served == 0 {
        return Ok(());
    }
    let to = scene.arrival(note, fate.served);
    if fate.what == Told::Lost && fate.told < fate.served {
        return push_stroke(out, b"l", scene.midway(note, fate.told), to);
    }
    let class: &[u8] = if scene.is_late(note, fate) {
        b"l"
    } else {
        b"r"
    };
    push_stroke(out, class, scene.departure(note), to)
}

/// A request, or its reply where it was handled before, is lost.
fn push_loss(
    out: &mut Vec<u8>,
    scene: &Scene<'_>,
    note: &SentNote,
    fate: Fate,
) -> Result<(), NoMemory>
    ensures { OnOk result (GoesOn out.old.items out.new.items) }
{
    let cross = scene.midway(note, fate.told);
    let is_reply = fate.served > 0 && fate.served < fate.told;
    let class: &[u8] = if is_reply { b"q" } else { b"o" };
    let from = if is_reply {
        scene.return_from(note, fate.served)
    } else {
        scene.departure(note)
    };
    push_stroke(out, class, from, cross)?;
    push_cross(out, b"c", cross, 5)
}

/// The reply, at once or later.
fn push_back(
    out: &mut Vec<u8>,
    scene: &Scene<'_>,
    note: &SentNote,
    fate: Fate,
) -> Result<(), NoMemory>
    ensures { OnOk result (GoesOn out.old.items out.new.items) }
{
    let class: &[u8] = if fate.is_refused { b"e" } else { b"p" };
    let x = scene.client_of(note.ticket.line);
    let y = if fate.served == fate.told {
        scene.rows.replying(fate.told)
    } else {
        scene.rows.reaching(fate.told)
    };
    push_stroke(
        out,
        class,
        scene.return_from(note, fate.served),
        Point { x, y },
    )
}

/// A store is too busy.
fn push_busy(
    out: &mut Vec<u8>,
    scene: &Scene<'_>,
    note: &SentNote,
    fate: Fate,
) -> Result<(), NoMemory>
    ensures { OnOk result (GoesOn out.old.items out.new.items) }
{
    push_stroke(
        out,
        b"r",
        scene.departure(note),
        scene.arrival(note, fate.told),
    )?;
    let x = scene.client_of(note.ticket.line);
    let y = scene.rows.replying(fate.told);
    push_stroke(
        out,
        b"e",
        scene.return_from(note, fate.told),
        Point { x, y },
    )
}

/// A reply that nobody has taken, where there is one: its client may take it still, or nobody waits for it.
fn push_kept(
    out: &mut Vec<u8>,
    scene: &Scene<'_>,
    note: &SentNote,
    fate: Fate,
) -> Result<(), NoMemory>
    ensures { OnOk result (GoesOn out.old.items out.new.items) }
{
    if fate.served <= fate.told {
        return Ok(());
    }
    let from = scene.return_from(note, fate.served);
    let to = before(from, 26, 0);
    push_stroke(out, b"q", from, to)?;
    if scene.is_late(note, fate) {
        push_cross(out, b"c", to, 4)
    } else {
        push_circle(out, b"k", to, 4)
    }
}

/// What came of a request once it was sent.
fn push_arrows(
    out: &mut Vec<u8>,
    scene: &Scene<'_>,
    note: &SentNote,
    fate: Fate,
) -> Result<(), NoMemory>
    ensures { OnOk result (GoesOn out.old.items out.new.items) }
{
    push_way(out, scene, note, fate)?;
    push_kept(out, scene, note, fate)?;
    match fate.what {
        Told::Reply => push_back(out, scene, note, fate),
        Told::Busy => push_busy(out, scene, note, fate),
        Told::Lost => push_loss(out, scene, note, fate),
        Told::Nothing => Ok(()),
    }
}

/// The arrows of all requests.
pub fn push_all_arrows(out: &mut Vec<u8>, scene: &Scene<'_>) -> Result<(), NoMemory>
    ensures { OnOk result (GoesOn out.old.items out.new.items) }
{
    let mut at: usize = 0;
    for note in scene.run.report.sent.as_slice() {
        push_arrows(out, scene, note, scene.fates.get(at))?;
        at = at.wrapping_add(1);
    }
    Ok(())
}
