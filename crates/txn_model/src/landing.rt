//! Prewrite of one phase: commits on all keys at once, or on none where memory is wanting.
ghost use Rattle.std.specs.Prelude.{◌≡◌, [], None, true, map, IfOk, OnOk, OnErr};
ghost use Rattle.txn_model.specs.Cells.{AreInOrder, AreKept, cell_at, changed_at};
ghost use Rattle.txn_model.specs.Orderly.{AreOrderly};
ghost use Rattle.txn_model.specs.Placings.{back_to, back, landing};
ghost use Rattle.txn_model.specs.Prewrite.{mutation_keys, prewrite_errors, passed_commit, land_cell};

use crate::cell::{Cell, Lock};
use crate::cells::find;
use crate::change::{Change, LockChange, make_changes};
use crate::prewrite::{Placing, placings, set_locks};
use crate::unlock::{Commitment, commit_each};
use std::alloc::Global;
use txn_kv::{Key, NoMemory, PrewriteRequest};

/// What puts a lock back where another was set.
fn back_to(alloc: Global, lock: &Option<Lock>) -> Result<LockChange, NoMemory>
    ensures { IfOk result (λ change. change ≡ back_to lock.now) }
{
    match lock {
        Some(lock) => Ok(LockChange::Becomes(lock.try_clone(alloc)?)),
        None => Ok(LockChange::Goes),
    }
}

fn lock_back(alloc: Global, cells: &[Cell], key: &Key) -> Result<LockChange, NoMemory>
    requires { AreInOrder cells.now }
    ensures { IfOk result (λ change. change ≡ back_to (cell_at cells.now key.now).lock) }
{
    match find(cells, key) {
        Some(cell) => back_to(alloc, &cell.lock),
        None => Ok(LockChange::Goes),
    }
}

fn back(alloc: Global, cells: &[Cell], key: &Key) -> Result<Change, NoMemory>
    requires { AreInOrder cells.now }
    ensures { IfOk result (λ change. change ≡ back key.now (cell_at cells.now key.now)) }
{
    Ok(Change {
        key: key.try_clone()?,
        lock: lock_back(alloc, cells, key)?,
        rolled: None,
    })
}

/// What puts the locks back that others take the place of.
fn backs(alloc: Global, cells: &[Cell], placings: &[Placing]) -> Result<Vec<Change>, NoMemory>
    requires { AreInOrder cells.now }
    ensures { IfOk result (λ changes. changes.items ≡ map (λ p. back p.key (cell_at cells.now p.key)) placings.now) }
{
    let mut changes = Vec::new(alloc);
    for placing in placings {
        changes.push(back(alloc, cells, &placing.key)?)?;
    }
    Ok(changes)
}

/// The commits that the locks are to become.
fn landings(alloc: Global, placings: &[Placing], commit: u64) -> Result<Vec<Commitment>, NoMemory>
    ensures { IfOk result (λ all. all.items ≡ map (landing commit) placings.now) }
{
    let mut all = Vec::new(alloc);
    for placing in placings {
        all.push(Commitment {
            key: placing.key.try_clone()?,
            start: placing.lock.start,
            commit,
        })?;
    }
    Ok(all)
}

/// Makes commits at `bound` of a request's mutations: each is locked, and then all locks become commits.
pub fn land_all(
    cells: &mut Vec<Cell>,
    request: &PrewriteRequest,
    bound: u64,
) -> Result<(), NoMemory>
    requires kept { AreKept cells.old.items }
    requires ordered { AreOrderly cells.old.items }
    requires at_once { request.now.try_one_pc ≡ true }
    requires free { prewrite_errors cells.old.items request.now request.now.mutations request.now.is_pessimistic_lock ≡ [] }
    requires uncommitted { passed_commit cells.old.items request.now.start_version request.now.mutations ≡ None }
    ensures ok { OnOk result (cells.new.items ≡ changed_at (mutation_keys request.now.mutations) (land_cell request.now bound request.now.mutations) cells.old.items) }
    ensures kept { AreKept cells.new.items }
    ensures ordered { AreOrderly cells.new.items }
    ensures err { OnErr result (cells.new.items ≡ cells.old.items) }
{
    let alloc = *cells.allocator();
    let ready = placings(alloc, request, bound)?;
    let landings = landings(alloc, ready.as_slice(), bound)?;
    let changes = backs(alloc, cells.as_slice(), ready.as_slice())?;
    let Some(room) = ready.len().checked_add(changes.len()) else {
        return Err(NoMemory);
    };
    cells.reserve(room)?;
    set_locks(cells, ready);
    match commit_each(cells, landings.as_slice()) {
        Ok(()) => Ok(()),
        Err(error) => {
            make_changes(cells, changes);
            Err(error)
        }
    }
}
