//! Commit: the locks of a start become commits.
ghost use Rattle.std.specs.Prelude.{◌≡◌, IfOk, OnOk, OnErr};
ghost use Rattle.txn_model.specs.Cells.{AreInOrder, AreKept, cell_at, changed_at};
ghost use Rattle.txn_model.specs.Commit.{uncommitted, commit_error, first_commit_error, committed};
ghost use Rattle.txn_model.specs.Orderly.{AreOrderly};

use crate::cell::Cell;
use crate::cells::find;
use crate::commits::commit_of;
use crate::unlock::commit_keys;
use std::alloc::Global;
use txn_kv::{CommitRequest, Key, KeyError, NoMemory};

/// The error of a key without an own prewrite lock.
fn uncommitted(
    request: &CommitRequest,
    key: &Key,
    cell: &Cell,
) -> Result<Option<KeyError>, NoMemory>
    ensures { IfOk result (λ error. error ≡ uncommitted request.now key.now cell.now) }
{
    match commit_of(cell.commits.as_slice(), request.start_version) {
        Some(_) => Ok(None),
        None => Ok(Some(KeyError::TxnLockNotFound {
            key: key.try_clone()?,
        })),
    }
}

/// Why a key can't be committed, at its cell.
fn commit_error(
    request: &CommitRequest,
    key: &Key,
    cell: &Cell,
) -> Result<Option<KeyError>, NoMemory>
    ensures { IfOk result (λ error. error ≡ commit_error request.now key.now cell.now) }
{
    match &cell.lock {
        None => uncommitted(request, key, cell),
        Some(lock) => {
            if !(lock.start == request.start_version && lock.kind.is_prewrite()) {
                return uncommitted(request, key, cell);
            }
            if request.commit_version < lock.min_commit {
                return Ok(Some(KeyError::CommitTsExpired {
                    key: key.try_clone()?,
                    bound: lock.min_commit,
                }));
            }
            Ok(None)
        }
    }
}

fn error_among(
    alloc: Global,
    cells: &[Cell],
    request: &CommitRequest,
    key: &Key,
) -> Result<Option<KeyError>, NoMemory>
    requires { AreInOrder cells.now }
    ensures { IfOk result (λ error. error ≡ commit_error request.now key.now (cell_at cells.now key.now)) }
{
    match find(cells, key) {
        Some(cell) => commit_error(request, key, cell),
        None => {
            let empty = Cell::empty(alloc, Key::empty(alloc));
            commit_error(request, key, &empty)
        }
    }
}

/// The first error of a request's keys, if one has an error.
pub fn first_error(
    alloc: Global,
    cells: &[Cell],
    request: &CommitRequest,
) -> Result<Option<KeyError>, NoMemory>
    requires { AreInOrder cells.now }
    ensures { IfOk result (λ error. error ≡ first_commit_error cells.now request.now request.now.keys) }
{
    for key in request.keys.as_slice() {
        if let Some(error) = error_among(alloc, cells, request, key)? {
            return Ok(Some(error));
        }
    }
    Ok(None)
}

/// Makes commits of the locks of a request's keys.
pub fn commit_all(cells: &mut Vec<Cell>, request: &CommitRequest) -> Result<(), NoMemory>
    requires kept { AreKept cells.old.items }
    requires ordered { AreOrderly cells.old.items }
    ensures ok { OnOk result (cells.new.items ≡ changed_at request.now.keys (committed request.now.start_version request.now.commit_version) cells.old.items) }
    ensures kept { AreKept cells.new.items }
    ensures ordered { AreOrderly cells.new.items }
    ensures err { OnErr result (cells.new.items ≡ cells.old.items) }
{
    commit_keys(
        cells,
        request.keys.as_slice(),
        request.start_version,
        request.commit_version,
    )?;
    Ok(())
}
