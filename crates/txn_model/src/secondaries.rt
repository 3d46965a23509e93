//! What became of a start at its secondaries.
ghost use Rattle.std.specs.Prelude.{◌≡◌, IfOk};
ghost use Rattle.std.specs.Option.{option_copied};
ghost use Rattle.txn_model.specs.Cells.{AreInOrder, cell_at};
ghost use Rattle.txn_model.specs.Settle.{own_prewrite_lock};
ghost use Rattle.txn_model.specs.Status.{shown_lock, own_locks, first_commit, timestamp_or_0, is_missing, any_missing};

use crate::cell::{Cell, Lock};
use crate::cells::{commit_at, find};
use crate::rule::is_missing;
use std::alloc::Global;
use txn_kv::{Items, Key, LockInfo, NoMemory};

/// The prewrite lock of a start, if it has one.
fn own_prewrite_lock(lock: &Option<Lock>, start: u64) -> Option<&Lock>
    ensures { option_copied result ≡ own_prewrite_lock start lock.now }
{
    match lock {
        Some(lock) => {
            if lock.start == start && lock.kind.is_prewrite() {
                Some(lock)
            } else {
                None
            }
        }
        None => None,
    }
}

fn prewrite_lock_at<'a>(cells: &'a [Cell], key: &Key, start: u64) -> Option<&'a Lock>
    requires { AreInOrder cells.now }
    ensures { option_copied result ≡ own_prewrite_lock start (cell_at cells.now key.now).lock }
{
    match find(cells, key) {
        Some(cell) => own_prewrite_lock(&cell.lock, start),
        None => None,
    }
}

fn lock_shown(
    alloc: Global,
    cells: &[Cell],
    start: u64,
    key: &Key,
) -> Result<Option<LockInfo>, NoMemory>
    requires { AreInOrder cells.now }
    ensures { IfOk result (λ info. info ≡ shown_lock key.now (own_prewrite_lock start (cell_at cells.now key.now).lock)) }
{
    match prewrite_lock_at(cells, key, start) {
        Some(lock) => Ok(Some(lock.info(alloc, key)?)),
        None => Ok(None),
    }
}

/// The prewrite locks of a start on keys.
pub fn own_locks(
    alloc: Global,
    cells: &[Cell],
    start: u64,
    keys: &[Key],
) -> Result<Items<LockInfo>, NoMemory>
    requires { AreInOrder cells.now }
    ensures { IfOk result (λ locks. locks ≡ own_locks cells.now start keys.now) }
{
    let mut locks = Items::new(alloc);
    for key in keys {
        if let Some(info) = lock_shown(alloc, cells, start, key)? {
            locks.push(info)?;
        }
    }
    Ok(locks)
}

/// When a start was committed, by the first of the keys that has its commit, and 0 where none has.
pub fn first_commit(cells: &[Cell], start: u64, keys: &[Key]) -> u64
    requires { AreInOrder cells.now }
    ensures { result ≡ timestamp_or_0 (first_commit cells.now start keys.now) }
{
    for key in keys {
        if let Some(write) = commit_at(cells, key, start) {
            return write.commit;
        }
    }
    0
}

fn is_missing_at(cells: &[Cell], start: u64, key: &Key) -> bool
    requires { AreInOrder cells.now }
    ensures { result ≡ is_missing start (cell_at cells.now key.now) }
{
    match find(cells, key) {
        Some(cell) => is_missing(start, cell),
        None => true,
    }
}

/// A start has neither a prewrite lock nor a commit on some key.
pub fn any_missing(cells: &[Cell], start: u64, keys: &[Key]) -> bool
    requires { AreInOrder cells.now }
    ensures { result ≡ any_missing cells.now start keys.now }
{
    for key in keys {
        if is_missing_at(cells, start, key) {
            return true;
        }
    }
    false
}
