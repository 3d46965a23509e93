//! A run once more, at a store of its own: what each request was answered, and what it changed.
#![tactic(auto)]

ghost use Rattle.std.specs.Prelude.{◌≡◌, true};
ghost use Rattle.txn_model.specs.Table.{CanCount, CanServe};

use crate::cast::is_skipped;
use crate::event::{Event, event_of};
use crate::fates::{Fate, Fates, NOWHERE, Span, Told};
use crate::replies::{push_reply, refusal};
use crate::stamps::{Change, Stamp, push_changed, stamps_of};
use std::alloc::Global;
use txn_kv::{NoMemory, Reply, Request, TsoRequest};
use txn_lines::Line;
use txn_model::ModelStore;
use txn_report::SentNote;
use txn_words::{Named, Piece, Run, push, push_request};

/// The clock stays below this.
const CLOCK_END: u64 = 17592186044416;

/// The oracle stays below this.
const LAST_END: u64 = 9223372036854775808;

fn can_count(store: &ModelStore, request: TsoRequest) -> bool
    ensures { result ≡ true → CanCount store.now request }
{
    1 <= request.count
        && request.count <= 64
        && store.last() < LAST_END
        && store.clock() < CLOCK_END
}

/// Whether the store can do what is asked. What a run had served it can.
fn can_serve(store: &ModelStore, request: &Request) -> bool
    ensures { result ≡ true → CanServe store.now request.now }
{
    match request {
        Request::Tso(request) => can_count(store, *request),
        Request::Get(_)
        | Request::BatchGet(_)
        | Request::Scan(_)
        | Request::Prewrite(_)
        | Request::Commit(_)
        | Request::Cleanup(_)
        | Request::BatchRollback(_)
        | Request::PessimisticRollback(_)
        | Request::PessimisticLock(_)
        | Request::ResolveLock(_)
        | Request::ScanLock(_)
        | Request::TxnHeartBeat(_)
        | Request::CheckTxnStatus(_)
        | Request::CheckSecondaryLocks(_)
        | Request::UnsafeDestroyRange(_)
        | Request::GetRegion(_)
        | Request::GetRegionById(_)
        | Request::GetStore(_)
        | Request::GetAllStores(_)
        | Request::UpdateGcSafePoint(_)
        | Request::Members(_) => true,
    }
}

/// What stands behind the keys at which a request did something.
fn push_deed(words: &mut Vec<u8>, request: &Request, change: Change) -> Result<(), NoMemory> {
    match (change, request) {
        (Change::Locked, _) => push(words, &[Piece::Word(b"locked")]),
        (Change::Rolled, _) => push(words, &[Piece::Word(b"rolled back")]),
        (Change::Committed, Request::Commit(commit)) => push(
            words,
            &[
                Piece::Word(b"committed @"),
                Piece::Number(commit.commit_version),
            ],
        ),
        (Change::Committed, _) => push(words, &[Piece::Word(b"committed")]),
    }
}

/// What a request did to its keys, in words.
fn mark(
    fates: &mut Fates,
    store: &ModelStore,
    request: &Request,
    stamps: &[Stamp],
    change: Change,
) -> Result<Span, NoMemory> {
    let from = fates.words.len();
    push_changed(&mut fates.words, store, request, stamps, change)?;
    if fates.words.len() == from {
        return Ok(NOWHERE);
    }
    push_deed(&mut fates.words, request, change)?;
    Ok(fates.since(from))
}

/// Notes what a request was answered, and what it changed.
fn note_served(
    fates: &mut Fates,
    store: &ModelStore,
    request: &Request,
    stamps: &[Stamp],
    fate: Fate,
    reply: &Reply,
) -> Result<Fate, NoMemory> {
    let from = fates.words.len();
    push_reply(&mut fates.words, store, reply)?;
    let said = fates.since(from);
    let locked = mark(fates, store, request, stamps, Change::Locked)?;
    let committed = mark(fates, store, request, stamps, Change::Committed)?;
    let rolled = mark(fates, store, request, stamps, Change::Rolled)?;
    Ok(Fate {
        is_refused: refusal(reply).is_some(),
        said,
        locked,
        committed,
        rolled,
        ..fate
    })
}

fn serve_over(
    store: &mut ModelStore,
    fates: &mut Fates,
    request: &Request,
    stamps: &[Stamp],
    fate: Fate,
) -> Result<Fate, NoMemory> {
    if !can_serve(store, request) {
        return Ok(fate);
    }
    let reply = store.serve(request)?;
    let noted = note_served(fates, store, request, stamps, fate, &reply);
    drop(reply);
    noted
}

/// The store handles a request.
fn serve(
    alloc: Global,
    store: &mut ModelStore,
    fates: &mut Fates,
    request: &Request,
    fate: Fate,
) -> Result<Fate, NoMemory> {
    let stamps = stamps_of(alloc, store, request)?;
    let served = serve_over(store, fates, request, stamps.as_slice(), fate);
    drop(stamps);
    served
}

/// An event happens to a request.
fn befall(
    alloc: Global,
    store: &mut ModelStore,
    fates: &mut Fates,
    event: Event,
    note: &SentNote,
    fate: Fate,
) -> Result<Fate, NoMemory> {
    let mut fate = fate;
    if event.is_served {
        fate = serve(alloc, store, fates, &note.request, fate)?;
        fate.served = event.line;
    }
    if event.what != Told::Nothing {
        fate.told = event.line;
        fate.what = event.what;
    }
    Ok(fate)
}

fn happen(
    alloc: Global,
    run: &Run<'_>,
    store: &mut ModelStore,
    fates: &mut Fates,
    event: Event,
) -> Result<(), NoMemory> {
    if let Named::Sent(at) = run.tickets.find(event.ticket) {
        if let Some(note) = run.report.sent.as_slice().get(at) {
            let fate = fates.get(at);
            let fate = befall(alloc, store, fates, event, note, fate)?;
            fates.set(at, fate);
        }
    }
    Ok(())
}

/// What a line does to the store, beside what requests do.
fn turn(store: &mut ModelStore, line: &Line) -> Result<(), NoMemory> {
    match line {
        Line::Split { key } => {
            store.split(key)?;
        }
        Line::Lead {
            region,
            store: leader,
        } => {
            store.lead(*region, *leader);
        }
        Line::Clock { ms } if *ms < CLOCK_END => store.set_clock(*ms),
        _ => {}
    }
    Ok(())
}

fn replay_all(
    alloc: Global,
    run: &Run<'_>,
    lines: &[Line],
    store: &mut ModelStore,
    fates: &mut Fates,
) -> Result<(), NoMemory> {
    let mut number: u64 = 0;
    for line in lines {
        number = number.wrapping_add(1);
        if !is_skipped(run.report, number) {
            match event_of(number, line) {
                Some(event) => happen(alloc, run, store, fates, event)?,
                None => turn(store, line)?,
            }
        }
    }
    Ok(())
}

/// The ticket, the name and the keys of each request.
fn name_all(run: &Run<'_>, fates: &mut Fates) -> Result<(), NoMemory> {
    for (at, note) in run.report.sent.as_slice().iter().enumerate() {
        let from = fates.words.len();
        push(
            &mut fates.words,
            &[Piece::Ticket(note.ticket), Piece::Word(b" ")],
        )?;
        push_request(&mut fates.words, note)?;
        let label = fates.since(from);
        fates.set(
            at,
            Fate {
                label,
                ..fates.get(at)
            },
        );
    }
    Ok(())
}

fn replay_over(
    alloc: Global,
    run: &Run<'_>,
    lines: &[Line],
    fates: &mut Fates,
) -> Result<(), NoMemory> {
    name_all(run, fates)?;
    let mut store = ModelStore::new(alloc)?;
    let replayed = replay_all(alloc, run, lines, &mut store, fates);
    drop(store);
    replayed
}

/// What became of each request of a run.
pub fn fates_of(alloc: Global, run: &Run<'_>, lines: &[Line]) -> Result<Fates, NoMemory> {
    let mut fates = Fates::new(alloc, run.report.sent.len())?;
    match replay_over(alloc, run, lines, &mut fates) {
        Ok(()) => Ok(fates),
        Err(error) => {
            drop(fates);
            Err(error)
        }
    }
}
