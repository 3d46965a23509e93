//! A run as a picture.
#![tactic(auto, using(crate::proofs::Adding::nothing_added, crate::proofs::Adding::further))]

ghost use Rattle.std.specs.Prelude.{OnOk};
ghost use Rattle.txn_words.specs.GoesOn.{GoesOn};

use crate::arrows::push_all_arrows;
use crate::columns::Columns;
use crate::frame::{push_last_lines, push_opening};
use crate::lifelines::{push_bars, push_lifelines, push_names};
use crate::margins::{push_grounds, push_margins};
use crate::marks::push_all_words;
use crate::rows::Rows;
use crate::scene::Scene;
use crate::waits::push_all_waiting;
use crate::world::push_world;
use std::alloc::Global;
use txn_fates::{Cast, Fates, fates_of};
use txn_kv::NoMemory;
use txn_lines::{Line, parse_script};
use txn_report::{Report, report_text};
use txn_words::{Piece, Run, Tickets, push};

/// What lies under arrows.
fn push_under(out: &mut Vec<u8>, scene: &Scene<'_>) -> Result<(), NoMemory>
    ensures { OnOk result (GoesOn out.old.items out.new.items) }
{
    push_opening(out, scene)?;
    push_grounds(out, scene)?;
    push_lifelines(out, scene)?;
    push_bars(out, scene)
}

/// Arrows, and words over them.
fn push_over(out: &mut Vec<u8>, scene: &Scene<'_>) -> Result<(), NoMemory>
    ensures { OnOk result (GoesOn out.old.items out.new.items) }
{
    push_all_arrows(out, scene)?;
    push_world(out, scene)?;
    push_all_waiting(out, scene)?;
    push_all_words(out, scene)
}

/// What stands around the lifelines.
fn push_around(out: &mut Vec<u8>, scene: &Scene<'_>) -> Result<(), NoMemory>
    ensures { OnOk result (GoesOn out.old.items out.new.items) }
{
    push_margins(out, scene)?;
    push_names(out, scene, 18)?;
    push_names(out, scene, scene.rows.end().wrapping_add(8))?;
    push_last_lines(out, scene)
}

fn push_scene(out: &mut Vec<u8>, scene: &Scene<'_>) -> Result<(), NoMemory>
    ensures { OnOk result (GoesOn out.old.items out.new.items) }
{
    push_under(out, scene)?;
    push_over(out, scene)?;
    push_around(out, scene)?;
    push(out, &[Piece::Word(b"</svg>\n")])
}

/// What is known of a run before its rows and columns are.
#[derive(Clone, Copy)]
struct Known<'a> {
    script: &'a [u8],
    lines: &'a [Line],
    run: &'a Run<'a>,
    outcomes: &'a [u8],
}

fn push_placed(
    out: &mut Vec<u8>,
    known: &Known<'_>,
    cast: &Cast,
    fates: &Fates,
    rows: &Rows,
) -> Result<(), NoMemory>
    ensures { OnOk result (GoesOn out.old.items out.new.items) }
{
    let columns = Columns::of(
        known.script,
        known.lines,
        known.run.report,
        known.outcomes,
        cast,
        fates,
    );
    push_scene(
        out,
        &Scene {
            script: known.script,
            lines: known.lines,
            run: known.run,
            outcomes: known.outcomes,
            cast,
            fates,
            columns: &columns,
            rows,
        },
    )
}

fn push_replayed(
    alloc: Global,
    out: &mut Vec<u8>,
    known: &Known<'_>,
    cast: &Cast,
    fates: &Fates,
) -> Result<(), NoMemory>
    ensures { OnOk result (GoesOn out.old.items out.new.items) }
{
    let rows = Rows::of(alloc, known.lines, known.run.report)?;
    let pushed = push_placed(out, known, cast, fates, &rows);
    drop(rows);
    pushed
}

fn push_cast(
    alloc: Global,
    out: &mut Vec<u8>,
    known: &Known<'_>,
    cast: &Cast,
) -> Result<(), NoMemory>
    ensures { OnOk result (GoesOn out.old.items out.new.items) }
{
    let fates = fates_of(alloc, known.run, known.lines)?;
    let pushed = push_replayed(alloc, out, known, cast, &fates);
    drop(fates);
    pushed
}

fn push_known(alloc: Global, out: &mut Vec<u8>, known: &Known<'_>) -> Result<(), NoMemory>
    ensures { OnOk result (GoesOn out.old.items out.new.items) }
{
    let cast = Cast::of(alloc, known.lines, known.run.report)?;
    let pushed = push_cast(alloc, out, known, &cast);
    drop(cast);
    pushed
}

fn push_run(
    alloc: Global,
    out: &mut Vec<u8>,
    script: &[u8],
    lines: &[Line],
    run: &Run<'_>,
) -> Result<(), NoMemory>
    ensures { OnOk result (GoesOn out.old.items out.new.items) }
{
    let outcomes = report_text(alloc, run.report)?;
    let pushed = push_known(
        alloc,
        out,
        &Known {
            script,
            lines,
            run,
            outcomes: outcomes.as_slice(),
        },
    );
    drop(outcomes);
    pushed
}

fn push_lines(
    alloc: Global,
    out: &mut Vec<u8>,
    script: &[u8],
    lines: &[Line],
    report: &Report,
) -> Result<(), NoMemory>
    ensures { OnOk result (GoesOn out.old.items out.new.items) }
{
    let tickets = Tickets::of(alloc, report)?;
    let pushed = push_run(
        alloc,
        out,
        script,
        lines,
        &Run {
            report,
            tickets: &tickets,
        },
    );
    drop(tickets);
    pushed
}

/// A picture of a run: SVG with a lifeline for each client, the placement driver and each store that appears, and a row for each
/// line of the script.
pub fn push_picture(
    alloc: Global,
    out: &mut Vec<u8>,
    script: &[u8],
    report: &Report,
) -> Result<(), NoMemory>
    ensures { OnOk result (GoesOn out.old.items out.new.items) }
{
    match parse_script(alloc, script)? {
        // A script with a bad line has no report.
        Err(_) => Ok(()),
        Ok(parsed) => {
            let pushed = push_lines(alloc, out, script, parsed.lines.as_slice(), report);
            drop(parsed);
            pushed
        }
    }
}
