//! What becomes of the cell of a key, beside its commits.
ghost use Rattle.std.specs.Prelude.{◌≡◌, ◌+◌, ◌<◌, ◌≤◌, if◌then◌else◌, unwrap_or, vec_len, vec_capacity};
ghost use Rattle.txn_model.specs.Cells.{AreKept, Key, key_eq, is_empty_cell, cell_at};
ghost use Rattle.txn_model.specs.Changes.{lock_after, made, all_made};

use crate::cell::{Cell, Lock};
use crate::cells::{insert_within, search};
use txn_kv::{Items, Key};

/// What becomes of a lock.
#[derive(Drop)]
pub enum LockChange {
    Stays,
    Goes,
    Becomes(Lock),
}

/// A change that is ready to be made at a key: what becomes of the lock, and the starts that are rolled back, where
/// they are others.
#[derive(Drop)]
pub struct Change {
    pub key: Key,
    pub lock: LockChange,
    pub rolled: Option<Items<u64>>,
}

fn change_lock(lock: &mut Option<Lock>, change: LockChange)
    ensures { lock.new ≡ lock_after change lock.old }
{
    match change {
        LockChange::Stays => {}
        LockChange::Goes => *lock = None,
        LockChange::Becomes(other) => *lock = Some(other),
    }
}

fn change_rolled(rolled: &mut Items<u64>, change: Option<Items<u64>>)
    ensures { rolled.new ≡ unwrap_or change rolled.old }
{
    if let Some(other) = change {
        *rolled = other;
    }
}

fn make(cell: &mut Cell, lock: LockChange, rolled: Option<Items<u64>>)
    ensures { cell.new ≡ made lock rolled cell.old }
{
    change_lock(&mut cell.lock, lock);
    change_rolled(&mut cell.rolled, rolled);
}

/// Makes a change. There is room for one more cell.
pub fn make_change(cells: &mut Vec<Cell>, change: Change)
    requires kept { AreKept cells.old.items }
    requires room { vec_len cells.old < vec_capacity cells.old }
    ensures cells { (k : Key) → cell_at cells.new.items k ≡ (if key_eq change.key k then made change.lock change.rolled (cell_at cells.old.items k) else cell_at cells.old.items k) }
    ensures kept { AreKept cells.new.items }
    ensures len { vec_len cells.new ≤ vec_len cells.old + 1 }
    ensures capacity { vec_capacity cells.old ≤ vec_capacity cells.new }
{
    let Change { key, lock, rolled } = change;
    match search(cells.as_slice(), &key) {
        Ok(at) => {
            drop(key);
            let cell = &mut cells[at];
            make(cell, lock, rolled);
            if cell.is_empty() {
                drop(cells.remove(at));
            }
        }
        Err(at) => {
            let mut cell = Cell::empty(*cells.allocator(), key);
            make(&mut cell, lock, rolled);
            if !cell.is_empty() {
                insert_within(cells, at, cell);
            }
        }
    }
}

/// Makes changes one after another. There is room for as many cells.
pub fn make_changes(cells: &mut Vec<Cell>, mut changes: Vec<Change>)
    requires kept { AreKept cells.old.items }
    requires room { vec_len cells.old + vec_len changes ≤ vec_capacity cells.old }
    ensures cells { (k : Key) → cell_at cells.new.items k ≡ all_made changes.items (cell_at cells.old.items k) }
    ensures kept { AreKept cells.new.items }
{
    changes.reverse();
    while let Some(change) = changes.pop() {
        make_change(cells, change);
    }
}
