//! A request in words: its name, the keys that it is for, and where it goes.
#![tactic(auto, using(crate::proofs::Adding::nothing_added, crate::proofs::Adding::further))]

ghost use Rattle.std.specs.Prelude.{OnOk};
ghost use Rattle.txn_words.specs.GoesOn.{GoesOn};

use crate::pieces::{Piece, push};
use txn_kv::{Key, Mutation, NoMemory, Request};
use txn_report::SentNote;

/// The name of a request, and the pieces that follow it.
type Shown<'a> = (&'static [u8], Piece<'a>, &'static [u8], Piece<'a>);

const NOTHING: &[u8] = b"";

fn of_key<'a>(name: &'static [u8], key: &'a Key) -> Shown<'a> {
    (
        name,
        Piece::Bytes(key.as_slice()),
        NOTHING,
        Piece::Word(NOTHING),
    )
}

fn of_keys<'a>(name: &'static [u8], keys: &'a [Key]) -> Shown<'a> {
    (name, Piece::Keys(keys), NOTHING, Piece::Word(NOTHING))
}

fn of_range<'a>(name: &'static [u8], start: &'a Key, end: &'a Key) -> Shown<'a> {
    (
        name,
        Piece::Bytes(start.as_slice()),
        b" to ",
        Piece::Bytes(end.as_slice()),
    )
}

fn of_locks<'a>(name: &'static [u8], mutations: &'a [Mutation], primary: &'a Key) -> Shown<'a> {
    (
        name,
        Piece::Mutated(mutations),
        b" primary ",
        Piece::Bytes(primary.as_slice()),
    )
}

fn of_number<'a>(name: &'static [u8], n: u64) -> Shown<'a> {
    (name, Piece::Number(n), NOTHING, Piece::Word(NOTHING))
}

fn of_nothing<'a>(name: &'static [u8]) -> Shown<'a> {
    (name, Piece::Word(NOTHING), NOTHING, Piece::Word(NOTHING))
}

fn at<'a>(name: &'static [u8], first: Piece<'a>, version: u64) -> Shown<'a> {
    (name, first, b" at ", Piece::Number(version))
}

/// Each kind of request, in one place.
fn shown(request: &Request) -> Shown<'_> {
    match request {
        Request::Get(r) => at(b"Get ", Piece::Bytes(r.key.as_slice()), r.version),
        Request::BatchGet(r) => at(b"BatchGet", Piece::Keys(r.keys.as_slice()), r.version),
        Request::Scan(r) => of_range(b"Scan ", &r.start_key, &r.end_key),
        Request::Prewrite(r) => of_locks(b"Prewrite", r.mutations.as_slice(), &r.primary_lock),
        Request::Commit(r) => at(b"Commit", Piece::Keys(r.keys.as_slice()), r.commit_version),
        Request::Cleanup(r) => of_key(b"Cleanup ", &r.key),
        Request::BatchRollback(r) => of_keys(b"BatchRollback", r.keys.as_slice()),
        Request::PessimisticRollback(r) => of_keys(b"PessimisticRollback", r.keys.as_slice()),
        Request::PessimisticLock(r) => of_locks(
            b"PessimisticLock",
            r.mutations.as_slice(),
            &r.primary_lock,
        ),
        Request::ResolveLock(r) => at(
            b"ResolveLock ",
            Piece::Number(r.start_version),
            r.commit_version,
        ),
        Request::ScanLock(r) => of_range(b"ScanLock ", &r.start_key, &r.end_key),
        Request::TxnHeartBeat(r) => of_key(b"TxnHeartBeat ", &r.primary_lock),
        Request::CheckTxnStatus(r) => of_key(b"CheckTxnStatus ", &r.primary_key),
        Request::CheckSecondaryLocks(r) => of_keys(b"CheckSecondaryLocks", r.keys.as_slice()),
        Request::UnsafeDestroyRange(r) => of_range(
            b"UnsafeDestroyRange ",
            &r.start_key,
            &r.end_key,
        ),
        Request::GetRegion(r) => (
            b"GetRegion ",
            Piece::Encoded(r.region_key.as_slice()),
            NOTHING,
            Piece::Word(NOTHING),
        ),
        Request::GetRegionById(r) => of_number(b"GetRegionById ", r.region_id),
        Request::GetStore(r) => of_number(b"GetStore ", r.store_id),
        Request::GetAllStores(_) => of_nothing(b"GetAllStores"),
        Request::UpdateGcSafePoint(r) => of_number(b"UpdateGcSafePoint ", r.safe_point),
        Request::Tso(_) => of_nothing(b"Tso"),
        Request::Members(_) => of_nothing(b"Members"),
    }
}

/// The lines that a shared request for timestamps is for, where it is for more than one.
fn askers(note: &SentNote) -> (&'static [u8], Piece<'_>) {
    if note.askers.len() > 1 {
        (b" for lines", Piece::Numbers(note.askers.as_slice()))
    } else {
        (NOTHING, Piece::Word(NOTHING))
    }
}

/// As `Commit a at 2`.
pub fn push_request(out: &mut Vec<u8>, note: &SentNote) -> Result<(), NoMemory>
    ensures { OnOk result (GoesOn out.old.items out.new.items) }
{
    let (name, first, word, second) = shown(&note.request);
    let (lines, numbers) = askers(note);
    push(
        out,
        &[
            Piece::Word(name),
            first,
            Piece::Word(word),
            second,
            Piece::Word(lines),
            numbers,
        ],
    )
}
