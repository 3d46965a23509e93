//! Reads: the newest values at a timestamp, or the locks that stand in the way.
ghost use Rattle.std.specs.Prelude.{◌≡◌, [], Some, None, IfOk};
ghost use Rattle.txn_kv.specs.declared.message.KeyError.TheVariants.{Locked};
ghost use Rattle.txn_model.specs.Cells.{AreInOrder, cell_at};
ghost use Rattle.txn_model.specs.Locks.{value_at, value_of, lock_info};
ghost use Rattle.txn_model.specs.Orderly.{AreOrderly, CommitsAscend};
ghost use Rattle.txn_model.specs.Read.{pair_of, read_pair, told_value, pairs_at};

use crate::cell::{Cell, Kind, Lock, Write};
use crate::cells::find;
use crate::commits::last_written;
use std::alloc::Global;
use txn_kv::{GetResponse, Items, Key, KeyError, NoMemory, PbPair, Value};

/// The value of a commit, if it put one.
fn put_value(write: &Write) -> Result<Option<Value>, NoMemory>
    ensures { IfOk result (λ value. value ≡ value_of (Some write.now)) }
{
    match write.kind {
        Kind::Put => Ok(Some(write.value.try_clone()?)),
        Kind::Del | Kind::Lock | Kind::Pessimistic => Ok(None),
    }
}

/// The value at a timestamp.
pub fn value_at(commits: &[Write], at: u64) -> Result<Option<Value>, NoMemory>
    requires { CommitsAscend commits.now }
    ensures { IfOk result (λ value. value ≡ value_at commits.now at) }
{
    match last_written(commits, at) {
        Some(write) => put_value(write),
        None => Ok(None),
    }
}

fn locked_pair(alloc: Global, key: &Key, lock: &Lock) -> Result<Option<PbPair>, NoMemory>
    ensures { IfOk result (λ pair. pair ≡ Some (record { error = Some (Locked (lock_info key.now lock.now)); key = key.now; value = [] })) }
{
    let key_copy = key.try_clone()?;
    Ok(Some(PbPair {
        error: Some(KeyError::Locked(lock.info(alloc, key)?)),
        key: key_copy,
        value: Items::new(alloc),
    }))
}

fn value_pair(cell: &Cell, at: u64) -> Result<Option<PbPair>, NoMemory>
    requires { CommitsAscend cell.now.commits }
    ensures { IfOk result (λ pair. pair ≡ pair_of cell.now at None) }
{
    match value_at(cell.commits.as_slice(), at)? {
        Some(value) => Ok(Some(PbPair {
            error: None,
            key: cell.key.try_clone()?,
            value,
        })),
        None => Ok(None),
    }
}

/// What a read at a timestamp finds at a cell: its value, a lock that stands in the way, or nothing.
pub fn read_pair(alloc: Global, cell: &Cell, at: u64) -> Result<Option<PbPair>, NoMemory>
    requires { CommitsAscend cell.now.commits }
    ensures { IfOk result (λ pair. pair ≡ read_pair at cell.now) }
{
    match &cell.lock {
        None => value_pair(cell, at),
        Some(lock) => {
            if lock.kind.is_written() && lock.start <= at {
                return locked_pair(alloc, &cell.key, lock);
            }
            value_pair(cell, at)
        }
    }
}

/// What a read at a timestamp finds at a key.
pub fn read_key(
    alloc: Global,
    cells: &[Cell],
    key: &Key,
    at: u64,
) -> Result<Option<PbPair>, NoMemory>
    requires in_order { AreInOrder cells.now }
    requires ordered { AreOrderly cells.now }
    ensures { IfOk result (λ pair. pair ≡ read_pair at (cell_at cells.now key.now)) }
{
    match find(cells, key) {
        Some(cell) => read_pair(alloc, cell, at),
        None => Ok(None),
    }
}

/// What a read finds, as a Get tells it.
pub fn told_value(alloc: Global, pair: Option<PbPair>) -> GetResponse
    ensures { result ≡ told_value pair }
{
    match pair {
        Some(pair) => {
            let (error, _key, value) = pair.into_parts();
            GetResponse {
                region_error: None,
                error,
                value,
                not_found: false,
            }
        }
        None => GetResponse {
            region_error: None,
            error: None,
            value: Items::new(alloc),
            not_found: true,
        },
    }
}

/// What a read finds at keys, in their order.
pub fn pairs_at(
    alloc: Global,
    cells: &[Cell],
    keys: &[Key],
    at: u64,
) -> Result<Items<PbPair>, NoMemory>
    requires in_order { AreInOrder cells.now }
    requires ordered { AreOrderly cells.now }
    ensures { IfOk result (λ pairs. pairs ≡ pairs_at at cells.now keys.now) }
{
    let mut pairs = Items::new(alloc);
    for key in keys {
        if let Some(pair) = read_key(alloc, cells, key, at)? {
            pairs.push(pair)?;
        }
    }
    Ok(pairs)
}
