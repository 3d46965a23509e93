//! What a store keeps of the keys of a request, before it is handled and after.
#![tactic(auto)]

use std::alloc::Global;
use txn_kv::{Key, Mutation, NoMemory, Request};
use txn_model::{Cell, ModelStore};
use txn_words::{Piece, push};

/// What is kept of a key.
#[derive(Clone, Copy)]
pub struct Stamp {
    is_locked: bool,
    commits: usize,
    rolled: usize,
}

/// What a request did at a key.
#[derive(Clone, Copy)]
pub enum Change {
    Locked,
    Committed,
    Rolled,
}

impl Change {
    fn is_from(self, before: Stamp, after: Stamp) -> bool {
        match self {
            Change::Locked => after.is_locked && !before.is_locked,
            Change::Committed => before.commits < after.commits,
            Change::Rolled => before.rolled < after.rolled,
        }
    }
}

fn stamp_of(cell: &Cell) -> Stamp {
    Stamp {
        is_locked: cell.lock.is_some(),
        commits: cell.commits.len(),
        rolled: cell.rolled.len(),
    }
}

fn stamp_at(cells: &[Cell], key: &Key) -> Stamp {
    for cell in cells {
        if cell.key == *key {
            return stamp_of(cell);
        }
    }
    Stamp {
        is_locked: false,
        commits: 0,
        rolled: 0,
    }
}

fn key_among(mutations: &[Mutation], at: usize) -> Option<&Key> {
    match mutations.get(at) {
        Some(mutation) => Some(&mutation.key),
        None => None,
    }
}

/// The key of a request at this place.
fn key_at(request: &Request, at: usize) -> Option<&Key> {
    match request {
        Request::Prewrite(r) => key_among(r.mutations.as_slice(), at),
        Request::PessimisticLock(r) => key_among(r.mutations.as_slice(), at),
        Request::Commit(r) => r.keys.as_slice().get(at),
        Request::BatchRollback(r) => r.keys.as_slice().get(at),
        Request::PessimisticRollback(r) => r.keys.as_slice().get(at),
        Request::CheckSecondaryLocks(r) => r.keys.as_slice().get(at),
        Request::Cleanup(r) if at == 0 => Some(&r.key),
        Request::CheckTxnStatus(r) if at == 0 => Some(&r.primary_key),
        _ => None,
    }
}

/// How many keys a request has that it may change.
fn count_keys(request: &Request) -> usize {
    match request {
        Request::Prewrite(r) => r.mutations.len(),
        Request::PessimisticLock(r) => r.mutations.len(),
        Request::Commit(r) => r.keys.len(),
        Request::BatchRollback(r) => r.keys.len(),
        Request::PessimisticRollback(r) => r.keys.len(),
        Request::CheckSecondaryLocks(r) => r.keys.len(),
        Request::Cleanup(_) | Request::CheckTxnStatus(_) => 1,
        _ => 0,
    }
}

fn add_stamps(
    stamps: &mut Vec<Stamp>,
    store: &ModelStore,
    request: &Request,
) -> Result<(), NoMemory> {
    for at in 0..count_keys(request) {
        if let Some(key) = key_at(request, at) {
            stamps.push(stamp_at(store.cells(), key))?;
        }
    }
    Ok(())
}

/// What is kept of each key of a request.
pub fn stamps_of(
    alloc: Global,
    store: &ModelStore,
    request: &Request,
) -> Result<Vec<Stamp>, NoMemory> {
    let mut stamps = Vec::new(alloc);
    match add_stamps(&mut stamps, store, request) {
        Ok(()) => Ok(stamps),
        Err(error) => {
            drop(stamps);
            Err(error)
        }
    }
}

/// The keys of a request at which it did this, with a space behind each.
pub fn push_changed(
    words: &mut Vec<u8>,
    store: &ModelStore,
    request: &Request,
    stamps: &[Stamp],
    change: Change,
) -> Result<(), NoMemory> {
    for at in 0..stamps.len() {
        if let Some(key) = key_at(request, at) {
            if change.is_from(stamps[at], stamp_at(store.cells(), key)) {
                push(words, &[Piece::Bytes(key.as_slice()), Piece::Word(b" ")])?;
            }
        }
    }
    Ok(())
}
