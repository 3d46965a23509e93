//! Locks that become commits, and are put back where memory is wanting at a later key.
ghost use Rattle.std.specs.Prelude.{◌≡◌, ℕ, ◌+◌, ◌++◌, ◌∷◌, [], ◌<◌, ◌≤◌, IfOk, IfSome, option_to_list, IfNone, OnOk, OnErr, List, if◌then◌else◌, insert, length, reverse, vec_len, vec_capacity};
ghost use Rattle.txn_model.specs.Cells.{AreKept, Key, key_eq, has_key, cell_at};
ghost use Rattle.txn_model.specs.Commit.{committed};
ghost use Rattle.txn_model.specs.Locks.{with_commit};
ghost use Rattle.txn_model.specs.Settling.{all_committed};
ghost use Rattle.txn_model.specs.Unlocks.{relocked, undone, all_undone, CanUndo, CanUndoAll, Undoes};

use crate::cell::{Cell, Lock, Write};
use crate::cells::{owns, search};
use std::alloc::Global;
use std::mem;
use txn_kv::{Items, Key, NoMemory};

/// A lock that became a commit: the place of its cell, the place of the commit, which has the lock's value, and the
/// lock without it.
#[derive(Drop)]
pub struct Unlocked {
    pub at: usize,
    pub place: usize,
    pub lock: Lock,
}

/// A lock of a start at a key that is to become a commit at this timestamp.
#[derive(Drop)]
pub struct Commitment {
    pub key: Key,
    pub start: u64,
    pub commit: u64,
}

/// Where a commit goes among the others: before those at the end that are above it.
fn place_of(commits: &[Write], commit: u64) -> usize
    ensures in_range { result ≤ length commits.now }
    ensures place { (w : Write) → w.commit ≡ commit → insert commits.now result w ≡ with_commit w commits.now }
{
    let mut place = commits.len();
    while place > 0 {
        if commits[place - 1].commit <= commit {
            return place;
        }
        place -= 1;
    }
    0
}

/// Makes a commit of a cell's own prewrite lock, if there is one: the place of the commit, and the lock without its
/// value.
fn commit_cell(
    alloc: Global,
    cell: &mut Cell,
    start: u64,
    commit: u64,
) -> Result<Option<(usize, Lock)>, NoMemory>
    ensures ok { OnOk result (cell.new ≡ committed start commit cell.old) }
    ensures undo { IfOk result (λ o. IfSome o (λ u. (u.0 < length cell.new.commits) × (relocked u.0 u.1 cell.new ≡ cell.old))) }
    ensures same { IfOk result (λ o. IfNone o (cell.new ≡ cell.old)) }
    ensures err { OnErr result (cell.new ≡ cell.old) }
{
    if !owns(&cell.lock, start) {
        return Ok(None);
    }
    let Some(mut lock) = cell.lock.take() else {
        return Ok(None);
    };
    let value = mem::replace(&mut lock.value, Items::new(alloc));
    let kind = lock.kind;
    let mut commits = mem::replace(&mut cell.commits, Items::new(alloc)).into_vec();
    let place = place_of(commits.as_slice(), commit);
    let write = Write {
        start,
        commit,
        kind,
        value,
    };
    match commits.insert(place, write) {
        Ok(()) => {
            cell.commits = Items::from_vec(commits);
            Ok(Some((place, lock)))
        }
        Err(refused) => {
            lock.value = refused.value.value;
            cell.lock = Some(lock);
            cell.commits = Items::from_vec(commits);
            Err(NoMemory)
        }
    }
}

/// Puts a lock back, in the place of the commit that it became.
fn relock(alloc: Global, cell: &mut Cell, place: usize, mut lock: Lock)
    requires { place < length cell.old.commits }
    ensures { cell.new ≡ relocked place lock cell.old }
{
    let mut commits = mem::replace(&mut cell.commits, Items::new(alloc)).into_vec();
    lock.value = commits.remove(place).value;
    cell.lock = Some(lock);
    cell.commits = Items::from_vec(commits);
}

/// Makes a commit of the own prewrite lock at a key, if there is one.
fn commit_key(
    cells: &mut Vec<Cell>,
    key: &Key,
    start: u64,
    commit: u64,
) -> Result<Option<Unlocked>, NoMemory>
    requires { AreKept cells.old.items }
    ensures ok { OnOk result ((k : Key) → cell_at cells.new.items k ≡ (if key_eq key.now k then committed start commit (cell_at cells.old.items k) else cell_at cells.old.items k)) }
    ensures kept { AreKept cells.new.items }
    ensures undo { IfOk result (λ o. Undoes o cells.old.items cells.new.items) }
    ensures err { OnErr result (cells.new.items ≡ cells.old.items) }
    ensures len { vec_len cells.new ≡ vec_len cells.old }
    ensures capacity { vec_capacity cells.old ≤ vec_capacity cells.new }
{
    let at = match search(cells.as_slice(), key) {
        Ok(at) => at,
        Err(_) => return Ok(None),
    };
    let alloc = *cells.allocator();
    match commit_cell(alloc, &mut cells[at], start, commit)? {
        Some((place, lock)) => Ok(Some(Unlocked { at, place, lock })),
        None => Ok(None),
    }
}

fn undo(cells: &mut Vec<Cell>, unlocked: Unlocked)
    requires { CanUndo unlocked cells.old.items }
    ensures cells { cells.new.items ≡ undone unlocked cells.old.items }
    ensures capacity { vec_capacity cells.old ≤ vec_capacity cells.new }
{
    let alloc = *cells.allocator();
    relock(
        alloc,
        &mut cells[unlocked.at],
        unlocked.place,
        unlocked.lock,
    );
}

/// Undoes commits, the last first.
fn undo_all(cells: &mut Vec<Cell>, mut done: Vec<Unlocked>)
    requires { CanUndoAll (reverse done.items) cells.old.items }
    ensures cells { cells.new.items ≡ all_undone (reverse done.items) cells.old.items }
    ensures capacity { vec_capacity cells.old ≤ vec_capacity cells.new }
{
    while let Some(unlocked) = done.pop() {
        undo(cells, unlocked);
    }
}

/// Keeps what a key's commit took away, if it did. There is room for it.
fn keep(done: &mut Vec<Unlocked>, one: Option<Unlocked>)
    requires { vec_len done.old < vec_capacity done.old }
    ensures items { done.new.items ≡ done.old.items ++ option_to_list one }
    ensures len { vec_len done.new ≤ vec_len done.old + 1 }
    ensures capacity { vec_capacity done.old ≤ vec_capacity done.new }
{
    if let Some(unlocked) = one {
        let _ = done.push(unlocked);
    }
}

/// Makes commits of the own prewrite locks at these keys.
pub fn commit_keys(
    cells: &mut Vec<Cell>,
    keys: &[Key],
    start: u64,
    commit: u64,
) -> Result<(), NoMemory>
    requires { AreKept cells.old.items }
    ensures ok { OnOk result ((k : Key) → cell_at cells.new.items k ≡ (if has_key keys.now k then committed start commit (cell_at cells.old.items k) else cell_at cells.old.items k)) }
    ensures kept { AreKept cells.new.items }
    ensures err { OnErr result (cells.new.items ≡ cells.old.items) }
{
    let mut done = Vec::with_capacity(*cells.allocator(), keys.len())?;
    for key in keys {
        match commit_key(cells, key, start, commit) {
            Ok(one) => keep(&mut done, one),
            Err(error) => {
                undo_all(cells, done);
                return Err(error);
            }
        }
    }
    Ok(())
}

/// Makes commits of locks, one after another.
pub fn commit_each(cells: &mut Vec<Cell>, commitments: &[Commitment]) -> Result<(), NoMemory>
    requires { AreKept cells.old.items }
    ensures ok { OnOk result ((k : Key) → cell_at cells.new.items k ≡ all_committed commitments.now (cell_at cells.old.items k)) }
    ensures kept { AreKept cells.new.items }
    ensures err { OnErr result (cells.new.items ≡ cells.old.items) }
    ensures len { vec_len cells.new ≡ vec_len cells.old }
    ensures capacity { vec_capacity cells.old ≤ vec_capacity cells.new }
{
    let mut done = Vec::with_capacity(*cells.allocator(), commitments.len())?;
    for one in commitments {
        match commit_key(cells, &one.key, one.start, one.commit) {
            Ok(unlocked) => keep(&mut done, unlocked),
            Err(error) => {
                undo_all(cells, done);
                return Err(error);
            }
        }
    }
    Ok(())
}
