//! Why a start can't be rolled back.
ghost use Rattle.std.specs.Prelude.{◌≡◌, IfOk};
ghost use Rattle.txn_model.specs.Cells.{AreInOrder, cell_at};
ghost use Rattle.txn_model.specs.Rollback.{rollback_error, first_rollback_error, cleanup_refusal};

use crate::cell::{Cell, Lock};
use crate::cells::{commit_at, find};
use std::alloc::Global;
use txn_kv::{Key, KeyError, NoMemory};

/// A key where the start is committed can't be rolled back.
fn rollback_error(cells: &[Cell], start: u64, key: &Key) -> Result<Option<KeyError>, NoMemory>
    requires { AreInOrder cells.now }
    ensures { IfOk result (λ error. error ≡ rollback_error start key.now (cell_at cells.now key.now)) }
{
    match commit_at(cells, key, start) {
        Some(write) => Ok(Some(KeyError::Abort {
            key: key.try_clone()?,
            start: write.start,
            commit: write.commit,
        })),
        None => Ok(None),
    }
}

/// The first error of keys, if one has an error.
pub fn first_rollback_error(
    cells: &[Cell],
    start: u64,
    keys: &[Key],
) -> Result<Option<KeyError>, NoMemory>
    requires { AreInOrder cells.now }
    ensures { IfOk result (λ error. error ≡ first_rollback_error cells.now start keys.now) }
{
    for key in keys {
        if let Some(error) = rollback_error(cells, start, key)? {
            return Ok(Some(error));
        }
    }
    Ok(None)
}

/// Why a lock of the start can't be cleaned up at its primary: it names another one, or is async.
fn cleanup_refusal(
    alloc: Global,
    primary: &Key,
    start: u64,
    lock: &Option<Lock>,
) -> Result<Option<KeyError>, NoMemory>
    ensures { IfOk result (λ error. error ≡ cleanup_refusal primary.now start lock.now) }
{
    match lock {
        Some(lock) => {
            if lock.start != start {
                return Ok(None);
            }
            if lock.primary != *primary {
                let info = lock.info(alloc, primary)?;
                return Ok(Some(KeyError::PrimaryMismatch(info)));
            }
            if lock.is_async() {
                return Ok(Some(KeyError::Locked(lock.info(alloc, primary)?)));
            }
            Ok(None)
        }
        None => Ok(None),
    }
}

/// Why a start can't be cleaned up at a key, by its lock there.
pub fn refusal_at(
    alloc: Global,
    cells: &[Cell],
    key: &Key,
    start: u64,
) -> Result<Option<KeyError>, NoMemory>
    requires { AreInOrder cells.now }
    ensures { IfOk result (λ error. error ≡ cleanup_refusal key.now start (cell_at cells.now key.now).lock) }
{
    match find(cells, key) {
        Some(cell) => cleanup_refusal(alloc, key, start, &cell.lock),
        None => Ok(None),
    }
}
