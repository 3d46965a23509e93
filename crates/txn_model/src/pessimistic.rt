//! Pessimistic locks: what stands in their way, the values below them, and how they are set.
ghost use Rattle.std.specs.Prelude.{◌≡◌, Some, map, is_none, IfOk, OnOk, OnErr};
ghost use Rattle.txn_kv.specs.declared.message.KeyError.TheVariants.{Abort};
ghost use Rattle.txn_model.specs.Cells.{AreInOrder, AreKept, cell_at, changed_at};
ghost use Rattle.txn_model.specs.Locking.{locking};
ghost use Rattle.txn_model.specs.Orderly.{AreOrderly, CommitsAscend};
ghost use Rattle.txn_model.specs.PessimisticLock.{asserts_absence, value_for_update, newest_conflict, pessimistic_error, pessimistic_errors, pessimistic_lock_of, raised_lock, locked_for_update, value_or_empty, values_for_update};
ghost use Rattle.txn_model.specs.Prewrite.{mutation_keys};

use crate::cell::{Cell, Kind, Lock};
use crate::cells::find;
use crate::change::{Change, LockChange, make_changes};
use crate::commits::{has_value, newest_commit};
use crate::read::value_at;
use std::alloc::Global;
use txn_kv::{Assertion, Items, Key, KeyError, Mutation, NoMemory, PessimisticLockRequest, Value};

fn asserts_absence(assertion: Assertion) -> bool
    ensures { result ≡ asserts_absence assertion }
{
    matches!(assertion, Assertion::NotExist)
}

/// What stands in the way among the commits.
fn newest_conflict(
    request: &PessimisticLockRequest,
    mutation: &Mutation,
    cell: &Cell,
) -> Result<Option<KeyError>, NoMemory>
    requires { CommitsAscend cell.now.commits }
    ensures { IfOk result (λ error. error ≡ newest_conflict request.now mutation.now cell.now) }
{
    let commits = cell.commits.as_slice();
    let commit = newest_commit(commits);
    if request.for_update_ts < commit {
        return Ok(Some(KeyError::WriteConflict {
            key: mutation.key.try_clone()?,
            start: request.start_version,
            commit,
        }));
    }
    if asserts_absence(mutation.assertion) && has_value(commits, request.for_update_ts) {
        return Ok(Some(KeyError::AlreadyExist {
            key: mutation.key.try_clone()?,
        }));
    }
    Ok(None)
}

fn abort(key: &Key, start: u64) -> Result<Option<KeyError>, NoMemory>
    ensures { IfOk result (λ error. error ≡ Some (Abort key.now start 0)) }
{
    Ok(Some(KeyError::Abort {
        key: key.try_clone()?,
        start,
        commit: 0,
    }))
}

/// The first error of a mutation at the cell of its key.
fn pessimistic_error(
    alloc: Global,
    request: &PessimisticLockRequest,
    mutation: &Mutation,
    cell: &Cell,
) -> Result<Option<KeyError>, NoMemory>
    requires { CommitsAscend cell.now.commits }
    ensures { IfOk result (λ error. error ≡ pessimistic_error request.now mutation.now cell.now) }
{
    let start = request.start_version;
    if cell.rolled.as_slice().contains(&start) {
        return abort(&mutation.key, start);
    }
    match &cell.lock {
        None => newest_conflict(request, mutation, cell),
        Some(lock) => {
            if lock.start != start {
                return Ok(Some(KeyError::Locked(lock.info(alloc, &mutation.key)?)));
            }
            if lock.kind.is_prewrite() {
                return abort(&mutation.key, start);
            }
            newest_conflict(request, mutation, cell)
        }
    }
}

fn error_among(
    alloc: Global,
    cells: &[Cell],
    request: &PessimisticLockRequest,
    mutation: &Mutation,
) -> Result<Option<KeyError>, NoMemory>
    requires in_order { AreInOrder cells.now }
    requires ordered { AreOrderly cells.now }
    ensures { IfOk result (λ error. error ≡ pessimistic_error request.now mutation.now (cell_at cells.now mutation.now.key)) }
{
    match find(cells, &mutation.key) {
        Some(cell) => pessimistic_error(alloc, request, mutation, cell),
        None => {
            let empty = Cell::empty(alloc, Key::empty(alloc));
            pessimistic_error(alloc, request, mutation, &empty)
        }
    }
}

/// The errors of a request's mutations, in their order.
pub fn pessimistic_errors(
    alloc: Global,
    cells: &[Cell],
    request: &PessimisticLockRequest,
) -> Result<Items<KeyError>, NoMemory>
    requires in_order { AreInOrder cells.now }
    requires ordered { AreOrderly cells.now }
    ensures { IfOk result (λ errors. errors ≡ pessimistic_errors cells.now request.now) }
{
    let mut errors = Items::new(alloc);
    for mutation in request.mutations.as_slice() {
        if let Some(error) = error_among(alloc, cells, request, mutation)? {
            errors.push(error)?;
        }
    }
    Ok(errors)
}

fn value_for_update(
    alloc: Global,
    cells: &[Cell],
    request: &PessimisticLockRequest,
    key: &Key,
) -> Result<Value, NoMemory>
    requires in_order { AreInOrder cells.now }
    requires ordered { AreOrderly cells.now }
    ensures { IfOk result (λ value. value ≡ value_or_empty (value_for_update request.now (cell_at cells.now key.now))) }
{
    let Some(cell) = find(cells, key) else {
        return Ok(Items::new(alloc));
    };
    match value_at(cell.commits.as_slice(), request.for_update_ts)? {
        Some(value) => Ok(value),
        None => Ok(Items::new(alloc)),
    }
}

fn lacks_value(cells: &[Cell], request: &PessimisticLockRequest, key: &Key) -> bool
    requires in_order { AreInOrder cells.now }
    requires ordered { AreOrderly cells.now }
    ensures { result ≡ is_none (value_for_update request.now (cell_at cells.now key.now)) }
{
    match find(cells, key) {
        Some(cell) => !has_value(cell.commits.as_slice(), request.for_update_ts),
        None => true,
    }
}

/// The values of a request's keys, where they are asked for; empty where there is none.
pub fn values_for_update(
    alloc: Global,
    cells: &[Cell],
    request: &PessimisticLockRequest,
) -> Result<Items<Value>, NoMemory>
    requires in_order { AreInOrder cells.now }
    requires ordered { AreOrderly cells.now }
    ensures { IfOk result (λ values. values ≡ map value_or_empty (values_for_update cells.now request.now)) }
{
    let mut values = Items::new(alloc);
    if !request.return_values {
        return Ok(values);
    }
    for mutation in request.mutations.as_slice() {
        values.push(value_for_update(alloc, cells, request, &mutation.key)?)?;
    }
    Ok(values)
}

/// Which of a request's keys have no value, where they are asked for.
pub fn not_founds(
    alloc: Global,
    cells: &[Cell],
    request: &PessimisticLockRequest,
) -> Result<Items<bool>, NoMemory>
    requires in_order { AreInOrder cells.now }
    requires ordered { AreOrderly cells.now }
    ensures { IfOk result (λ not_founds. not_founds ≡ map is_none (values_for_update cells.now request.now)) }
{
    let mut flags = Items::new(alloc);
    if !request.return_values {
        return Ok(flags);
    }
    for mutation in request.mutations.as_slice() {
        flags.push(lacks_value(cells, request, &mutation.key))?;
    }
    Ok(flags)
}

fn pessimistic_lock_of(
    alloc: Global,
    request: &PessimisticLockRequest,
    ttl: u64,
    for_update: u64,
) -> Result<Lock, NoMemory>
    ensures { IfOk result (λ lock. lock ≡ pessimistic_lock_of request.now ttl for_update) }
{
    Ok(Lock {
        start: request.start_version,
        primary: request.primary_lock.try_clone()?,
        kind: Kind::Pessimistic,
        value: Items::new(alloc),
        ttl,
        for_update,
        min_commit: 0,
        use_async: false,
        secondaries: Items::new(alloc),
    })
}

/// The lock that a request sets where this one stands.
fn raised_lock(
    alloc: Global,
    request: &PessimisticLockRequest,
    lock: &Option<Lock>,
) -> Result<Lock, NoMemory>
    ensures { IfOk result (λ raised. raised ≡ raised_lock request.now lock.now) }
{
    match lock {
        Some(lock) => {
            let ttl = lock.ttl.max(request.lock_ttl);
            let for_update = lock.for_update.max(request.for_update_ts);
            pessimistic_lock_of(alloc, request, ttl, for_update)
        }
        None => pessimistic_lock_of(alloc, request, request.lock_ttl, request.for_update_ts),
    }
}

fn locking(
    alloc: Global,
    cells: &[Cell],
    request: &PessimisticLockRequest,
    key: &Key,
) -> Result<Change, NoMemory>
    requires { AreInOrder cells.now }
    ensures { IfOk result (λ change. change ≡ locking request.now key.now (cell_at cells.now key.now)) }
{
    let key_copy = key.try_clone()?;
    let lock = match find(cells, key) {
        Some(cell) => raised_lock(alloc, request, &cell.lock)?,
        None => raised_lock(alloc, request, &None)?,
    };
    Ok(Change {
        key: key_copy,
        lock: LockChange::Becomes(lock),
        rolled: None,
    })
}

fn lockings(
    alloc: Global,
    cells: &[Cell],
    request: &PessimisticLockRequest,
) -> Result<Vec<Change>, NoMemory>
    requires { AreInOrder cells.now }
    ensures { IfOk result (λ changes. changes.items ≡ map (λ k. locking request.now k (cell_at cells.now k)) (mutation_keys request.now.mutations)) }
{
    let mut changes = Vec::new(alloc);
    for mutation in request.mutations.as_slice() {
        changes.push(locking(alloc, cells, request, &mutation.key)?)?;
    }
    Ok(changes)
}

/// Sets the locks of a request's keys.
pub fn lock_for_update(
    cells: &mut Vec<Cell>,
    request: &PessimisticLockRequest,
) -> Result<(), NoMemory>
    requires kept { AreKept cells.old.items }
    requires ordered { AreOrderly cells.old.items }
    ensures ok { OnOk result (cells.new.items ≡ changed_at (mutation_keys request.now.mutations) (locked_for_update request.now) cells.old.items) }
    ensures kept { AreKept cells.new.items }
    ensures ordered { AreOrderly cells.new.items }
    ensures err { OnErr result (cells.new.items ≡ cells.old.items) }
{
    let changes = lockings(*cells.allocator(), cells.as_slice(), request)?;
    cells.reserve(changes.len())?;
    make_changes(cells, changes);
    Ok(())
}
