//! Prewrite: a lock on each key, where nothing stands in the way, with its bound where it is async.
ghost use Rattle.std.specs.Prelude.{◌≡◌, [], ℕ, false, Some, None, ◌+◌, ◌^◌, ◌<◌, ◌≤◌, List, if◌then◌else◌, IfOk, OnOk, OnErr, option_to_list, drop, vec_len, vec_capacity};
ghost use Rattle.txn_model.specs.Cells.{AreInOrder, AreKept, Key, key_eq, cell_at, changed_at};
ghost use Rattle.txn_model.specs.Orderly.{AreOrderly, CommitsAscend};
ghost use Rattle.txn_kv.specs.declared.message.KeyError.TheVariants.{Abort, WriteConflict};
ghost use Rattle.txn_model.specs.Prewrite.{kind_of, wants_absent, passes_commit, conflict, first_flag, prewrite_error, prewrite_errors, lock_of, mutation_keys, prewrite_cell};
ghost use Rattle.txn_model.specs.Placings.{placing_of, placings, locked, all_locked};

use crate::cell::{Cell, Kind, Lock, Write, copied_keys};
use crate::cells::{find, insert_within, search};
use crate::commits::{commit_of, has_value, newest_commit};
use crate::rule::is_missing;
use std::alloc::Global;
use txn_kv::{Items, Key, KeyError, Mutation, NoMemory, Op, PrewriteRequest, Value};

/// A lock that is ready to be set at a key.
#[derive(Drop)]
pub struct Placing {
    pub key: Key,
    pub lock: Lock,
}

/// No value may stand where such a mutation is.
fn wants_absent(op: Op) -> bool
    ensures { result ≡ wants_absent op }
{
    matches!(op, Op::Insert | Op::CheckNotExists)
}

/// The kind of the lock that a mutation sets, if it sets one.
pub fn kind_of(op: Op) -> Option<Kind>
    ensures { result ≡ kind_of op }
{
    match op {
        Op::Put | Op::Insert => Some(Kind::Put),
        Op::Del => Some(Kind::Del),
        Op::Lock | Op::Rollback | Op::PessimisticLock => Some(Kind::Lock),
        Op::CheckNotExists => None,
    }
}

/// A commit of the start is passed over.
fn passes_commit(request: &PrewriteRequest) -> bool
    ensures { result ≡ passes_commit request.now }
{
    request.use_async_commit || request.try_one_pc
}

/// An own commit stands in the way, unless it is passed over.
fn committed_error(
    request: &PrewriteRequest,
    mutation: &Mutation,
    commit: u64,
) -> Result<Option<KeyError>, NoMemory>
    ensures { IfOk result (λ error. error ≡ (if passes_commit request.now then None else Some (WriteConflict mutation.now.key request.now.start_version commit))) }
{
    if passes_commit(request) {
        return Ok(None);
    }
    Ok(Some(KeyError::WriteConflict {
        key: mutation.key.try_clone()?,
        start: request.start_version,
        commit,
    }))
}

/// What stands in the way among the commits. `held`: the start holds a pessimistic lock; `flag`: it must.
fn conflict(
    request: &PrewriteRequest,
    mutation: &Mutation,
    flag: bool,
    held: bool,
    commits: &[Write],
) -> Result<Option<KeyError>, NoMemory>
    requires { CommitsAscend commits.now }
    ensures { IfOk result (λ error. error ≡ conflict request.now mutation.now flag held commits.now) }
{
    let start = request.start_version;
    if let Some(write) = commit_of(commits, start) {
        return committed_error(request, mutation, write.commit);
    }
    if flag {
        if held {
            return Ok(None);
        }
        return Ok(Some(KeyError::PessimisticLockNotFound {
            key: mutation.key.try_clone()?,
        }));
    }
    let commit = newest_commit(commits);
    if start < commit {
        return Ok(Some(KeyError::WriteConflict {
            key: mutation.key.try_clone()?,
            start,
            commit,
        }));
    }
    if wants_absent(mutation.op) && has_value(commits, u64::MAX) {
        return Ok(Some(KeyError::AlreadyExist {
            key: mutation.key.try_clone()?,
        }));
    }
    Ok(None)
}

/// An own prewrite lock stands in the way of commits that are made at once.
fn held_error(request: &PrewriteRequest, mutation: &Mutation) -> Result<Option<KeyError>, NoMemory>
    ensures { IfOk result (λ error. error ≡ (if request.now.try_one_pc then Some (Abort mutation.now.key request.now.start_version 0) else None)) }
{
    if request.try_one_pc {
        return Ok(Some(KeyError::Abort {
            key: mutation.key.try_clone()?,
            start: request.start_version,
            commit: 0,
        }));
    }
    Ok(None)
}

/// The first error of a mutation at the cell of its key.
fn prewrite_error(
    alloc: Global,
    request: &PrewriteRequest,
    mutation: &Mutation,
    flag: bool,
    cell: &Cell,
) -> Result<Option<KeyError>, NoMemory>
    requires { CommitsAscend cell.now.commits }
    ensures { IfOk result (λ error. error ≡ prewrite_error request.now mutation.now flag cell.now) }
{
    let start = request.start_version;
    if cell.rolled.as_slice().contains(&start) {
        return Ok(Some(KeyError::Abort {
            key: mutation.key.try_clone()?,
            start,
            commit: 0,
        }));
    }
    match &cell.lock {
        None => conflict(request, mutation, flag, false, cell.commits.as_slice()),
        Some(lock) => {
            if lock.start != start {
                return Ok(Some(KeyError::Locked(lock.info(alloc, &mutation.key)?)));
            }
            if lock.kind.is_prewrite() {
                return held_error(request, mutation);
            }
            conflict(request, mutation, flag, true, cell.commits.as_slice())
        }
    }
}

/// The first error of a mutation, among the cells.
fn error_among(
    alloc: Global,
    cells: &[Cell],
    request: &PrewriteRequest,
    mutation: &Mutation,
    flag: bool,
) -> Result<Option<KeyError>, NoMemory>
    requires in_order { AreInOrder cells.now }
    requires ordered { AreOrderly cells.now }
    ensures { IfOk result (λ error. error ≡ prewrite_error request.now mutation.now flag (cell_at cells.now mutation.now.key)) }
{
    match find(cells, &mutation.key) {
        Some(cell) => prewrite_error(alloc, request, mutation, flag, cell),
        None => {
            let empty = Cell::empty(alloc, Key::empty(alloc));
            prewrite_error(alloc, request, mutation, flag, &empty)
        }
    }
}

/// The flag of the mutation at this place. Flags that are missing are false.
fn flag_at(flags: &[bool], at: usize) -> bool
    ensures { result ≡ first_flag (drop at flags.now) }
{
    if at < flags.len() { flags[at] } else { false }
}

/// The errors of a request's mutations, in their order.
pub fn prewrite_errors(
    alloc: Global,
    cells: &[Cell],
    request: &PrewriteRequest,
) -> Result<Items<KeyError>, NoMemory>
    requires in_order { AreInOrder cells.now }
    requires ordered { AreOrderly cells.now }
    ensures { IfOk result (λ errors. errors ≡ prewrite_errors cells.now request.now request.now.mutations request.now.is_pessimistic_lock) }
{
    let flags = request.is_pessimistic_lock.as_slice();
    let mut errors = Items::new(alloc);
    for (i, mutation) in request.mutations.as_slice().iter().enumerate() {
        if let Some(error) = error_among(alloc, cells, request, mutation, flag_at(flags, i))? {
            errors.push(error)?;
        }
    }
    Ok(errors)
}

fn lock_of(
    alloc: Global,
    request: &PrewriteRequest,
    bound: u64,
    value: &Value,
    kind: Kind,
) -> Result<Lock, NoMemory>
    ensures { IfOk result (λ lock. lock ≡ lock_of request.now bound value.now kind) }
{
    Ok(Lock {
        start: request.start_version,
        primary: request.primary_lock.try_clone()?,
        kind,
        value: value.try_clone()?,
        ttl: request.lock_ttl,
        for_update: request.for_update_ts,
        min_commit: if request.use_async_commit { bound } else { 0 },
        use_async: request.use_async_commit,
        secondaries: copied_keys(alloc, request.secondaries.as_slice())?,
    })
}

/// The lock that a mutation sets, if it sets one.
fn placing_of(
    alloc: Global,
    request: &PrewriteRequest,
    bound: u64,
    mutation: &Mutation,
) -> Result<Option<Placing>, NoMemory>
    ensures { IfOk result (λ placing. option_to_list placing ≡ placing_of request.now bound mutation.now (kind_of mutation.now.op)) }
{
    match kind_of(mutation.op) {
        Some(kind) => {
            let key = mutation.key.try_clone()?;
            let lock = lock_of(alloc, request, bound, &mutation.value, kind)?;
            Ok(Some(Placing { key, lock }))
        }
        None => Ok(None),
    }
}

/// The locks that a request's mutations set.
pub fn placings(
    alloc: Global,
    request: &PrewriteRequest,
    bound: u64,
) -> Result<Vec<Placing>, NoMemory>
    ensures { IfOk result (λ all. all.items ≡ placings request.now bound request.now.mutations) }
{
    let mut all = Vec::new(alloc);
    for mutation in request.mutations.as_slice() {
        if let Some(placing) = placing_of(alloc, request, bound, mutation)? {
            all.push(placing)?;
        }
    }
    Ok(all)
}

/// Sets a lock, unless its start holds a prewrite lock or is committed there. There is room for one more cell.
fn set_lock(cells: &mut Vec<Cell>, placing: Placing)
    requires kept { AreKept cells.old.items }
    requires room { vec_len cells.old < vec_capacity cells.old }
    ensures cells { (k : Key) → cell_at cells.new.items k ≡ (if key_eq placing.key k then locked placing (cell_at cells.old.items k) else cell_at cells.old.items k) }
    ensures kept { AreKept cells.new.items }
    ensures len { vec_len cells.new ≤ vec_len cells.old + 1 }
    ensures capacity { vec_capacity cells.old ≤ vec_capacity cells.new }
{
    let Placing { key, lock } = placing;
    match search(cells.as_slice(), &key) {
        Ok(at) => {
            drop(key);
            let cell = &mut cells[at];
            if is_missing(lock.start, cell) {
                cell.lock = Some(lock);
            }
        }
        Err(at) => {
            let mut cell = Cell::empty(*cells.allocator(), key);
            cell.lock = Some(lock);
            insert_within(cells, at, cell);
        }
    }
}

/// Sets locks one after another. There is room for as many cells.
pub fn set_locks(cells: &mut Vec<Cell>, mut placings: Vec<Placing>)
    requires kept { AreKept cells.old.items }
    requires room { vec_len cells.old + vec_len placings ≤ vec_capacity cells.old }
    ensures cells { (k : Key) → cell_at cells.new.items k ≡ all_locked placings.items (cell_at cells.old.items k) }
    ensures kept { AreKept cells.new.items }
    ensures len { vec_len cells.new ≤ vec_len cells.old + vec_len placings }
    ensures capacity { vec_capacity cells.old ≤ vec_capacity cells.new }
{
    placings.reverse();
    while let Some(placing) = placings.pop() {
        set_lock(cells, placing);
    }
}

/// Sets the locks of a request's mutations, with this bound where they are async.
pub fn lock_all(
    cells: &mut Vec<Cell>,
    request: &PrewriteRequest,
    bound: u64,
) -> Result<(), NoMemory>
    requires kept { AreKept cells.old.items }
    requires ordered { AreOrderly cells.old.items }
    requires locks { request.now.try_one_pc ≡ false }
    requires free { prewrite_errors cells.old.items request.now request.now.mutations request.now.is_pessimistic_lock ≡ [] }
    ensures ok { OnOk result (cells.new.items ≡ changed_at (mutation_keys request.now.mutations) (prewrite_cell request.now bound request.now.mutations) cells.old.items) }
    ensures kept { AreKept cells.new.items }
    ensures ordered { AreOrderly cells.new.items }
    ensures err { OnErr result (cells.new.items ≡ cells.old.items) }
{
    let ready = placings(*cells.allocator(), request, bound)?;
    cells.reserve(ready.len())?;
    set_locks(cells, ready);
    Ok(())
}
