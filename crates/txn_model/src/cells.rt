//! Cells in the order of their keys.
ghost use Rattle.std.specs.Prelude.{◌≡◌, ◌+◌, ◌<◌, ◌≤◌, IfOk, IfErr, IfSome, insert, unwrap_or, length, vec_len, vec_capacity};
ghost use Rattle.std.specs.Option.{option_copied};
ghost use Rattle.txn_model.specs.Cells.{AreInOrder, no_cell, cell_at};
ghost use Rattle.txn_model.specs.Locks.{owns, holds, commit_of};
ghost use Rattle.txn_model.specs.Orderly.{AreOrderly, CommitsAscend};
ghost use Rattle.txn_model.specs.Places.{IsAt, IsGapFor};
ghost use Rattle.txn_model.specs.Settle.{lock_of_start};

use crate::cell::{Cell, Lock, Write};
use crate::commits;
use txn_kv::Key;

/// Where the cell of a key is, or where it would go.
pub fn search(cells: &[Cell], key: &Key) -> Result<usize, usize>
    requires { AreInOrder cells.now }
    ensures found { IfOk result (IsAt cells.now key.now) }
    ensures absent { IfErr result (IsGapFor cells.now key.now) }
{
    cells.binary_search_by(|cell| cell.key.cmp(key))
}

/// The cell of a key, if one is kept.
pub fn find<'a>(cells: &'a [Cell], key: &Key) -> Option<&'a Cell>
    requires { AreInOrder cells.now }
    ensures value { unwrap_or (option_copied result) (no_cell key.now) ≡ cell_at cells.now key.now }
    ensures commits { AreOrderly cells.now → IfSome result (λ cell. CommitsAscend cell.now.commits) }
{
    match search(cells, key) {
        Ok(at) => Some(&cells[at]),
        Err(_) => None,
    }
}

/// The start holds a prewrite lock.
pub fn owns(lock: &Option<Lock>, start: u64) -> bool
    ensures { result ≡ owns lock.now start }
{
    match lock {
        Some(lock) => lock.start == start && lock.kind.is_prewrite(),
        None => false,
    }
}

/// The start holds a lock of either kind.
pub fn holds(lock: &Option<Lock>, start: u64) -> bool
    ensures { result ≡ holds lock.now start }
{
    match lock {
        Some(lock) => lock.start == start,
        None => false,
    }
}

/// The lock of a start, if it has one.
pub fn lock_of_start(lock: &Option<Lock>, start: u64) -> Option<&Lock>
    ensures { option_copied result ≡ lock_of_start start lock.now }
{
    match lock {
        Some(lock) => {
            if lock.start == start {
                Some(lock)
            } else {
                None
            }
        }
        None => None,
    }
}

/// The lock of a start at a key, if it has one.
pub fn lock_at<'a>(cells: &'a [Cell], key: &Key, start: u64) -> Option<&'a Lock>
    requires { AreInOrder cells.now }
    ensures { option_copied result ≡ lock_of_start start (cell_at cells.now key.now).lock }
{
    match find(cells, key) {
        Some(cell) => lock_of_start(&cell.lock, start),
        None => None,
    }
}

/// The commit of a start at a key, if it has one.
pub fn commit_at<'a>(cells: &'a [Cell], key: &Key, start: u64) -> Option<&'a Write>
    requires { AreInOrder cells.now }
    ensures { option_copied result ≡ commit_of (cell_at cells.now key.now).commits start }
{
    match find(cells, key) {
        Some(cell) => commits::commit_of(cell.commits.as_slice(), start),
        None => None,
    }
}

/// Inserts a cell where there is room for it.
pub fn insert_within(cells: &mut Vec<Cell>, at: usize, cell: Cell)
    requires in_range { at ≤ vec_len cells.old }
    requires room { vec_len cells.old < vec_capacity cells.old }
    ensures items { cells.new.items ≡ insert cells.old.items at cell }
    ensures len { vec_len cells.new ≡ vec_len cells.old + 1 }
    ensures capacity { vec_capacity cells.old ≤ vec_capacity cells.new }
{
    let _ = cells.insert(at, cell);
}
