//! What a scan finds in a range.
ghost use Rattle.std.specs.Prelude.{◌≡◌, ◌<◌, IfOk, if◌then◌else◌, map, take, reverse, length, slice_index_or};
ghost use Rattle.std.specs.List.{filter_map};
ghost use Rattle.txn_model.specs.Cells.{AreInOrder};
ghost use Rattle.txn_model.specs.Orderly.{AreOrderly, CommitsAscend};
ghost use Rattle.txn_model.specs.Read.{read_pair, scan_pairs, without_value};
ghost use Rattle.txn_model.specs.Resolve.{lock_until, locks_until};
ghost use Rattle.txn_model.specs.Scans.{ordered, shown};

use crate::cell::Cell;
use crate::ranges::cells_in;
use crate::read::read_pair;
use std::alloc::Global;
use txn_kv::{Items, LockInfo, NoMemory, PbPair, ScanRequest};

/// A pair as it is shown, without its value where keys alone are asked for.
fn shown(alloc: Global, key_only: bool, pair: PbPair) -> PbPair
    ensures { result ≡ shown key_only pair }
{
    if key_only {
        let (error, key, _value) = pair.into_parts();
        PbPair {
            error,
            key,
            value: Items::new(alloc),
        }
    } else {
        pair
    }
}

/// The cell at a place, counted from the end where the order is reversed.
fn nth(cells: &[Cell], is_reversed: bool, at: usize) -> &Cell
    requires in_range { at < length cells.now }
    requires in_order { AreInOrder cells.now }
    requires ordered { AreOrderly cells.now }
    ensures value { result.now ≡ slice_index_or (ordered is_reversed cells.now) at result.now }
    ensures commits { CommitsAscend result.now.commits }
{
    if is_reversed {
        &cells[cells.len() - 1 - at]
    } else {
        &cells[at]
    }
}

/// The first pairs that a read finds at cells, as they are shown.
fn first_pairs(
    alloc: Global,
    cells: &[Cell],
    request: &ScanRequest,
) -> Result<Items<PbPair>, NoMemory>
    requires in_order { AreInOrder cells.now }
    requires ordered { AreOrderly cells.now }
    ensures { IfOk result (λ pairs. pairs ≡ map (shown request.now.key_only) (take request.now.limit (filter_map (read_pair request.now.version) (ordered request.now.reverse cells.now)))) }
{
    let mut pairs = Items::new(alloc);
    for i in 0..cells.len() {
        if request.limit <= pairs.len() as u64 {
            return Ok(pairs);
        }
        let cell = nth(cells, request.reverse, i);
        if let Some(pair) = read_pair(alloc, cell, request.version)? {
            pairs.push(shown(alloc, request.key_only, pair))?;
        }
    }
    Ok(pairs)
}

/// The pairs of a scan.
pub fn scan_pairs(
    alloc: Global,
    cells: &[Cell],
    request: &ScanRequest,
) -> Result<Items<PbPair>, NoMemory>
    requires in_order { AreInOrder cells.now }
    requires ordered { AreOrderly cells.now }
    ensures { IfOk result (λ pairs. pairs ≡ scan_pairs request.now cells.now) }
{
    if request.reverse {
        return first_pairs(
            alloc,
            cells_in(cells, &request.end_key, &request.start_key),
            request,
        );
    }
    first_pairs(
        alloc,
        cells_in(cells, &request.start_key, &request.end_key),
        request,
    )
}

/// The lock of a cell, if its start is at most this.
fn lock_until(alloc: Global, until: u64, cell: &Cell) -> Result<Option<LockInfo>, NoMemory>
    ensures { IfOk result (λ info. info ≡ lock_until until cell.now.key cell.now.lock) }
{
    match &cell.lock {
        Some(lock) => {
            if lock.start <= until {
                return Ok(Some(lock.info(alloc, &cell.key)?));
            }
            Ok(None)
        }
        None => Ok(None),
    }
}

/// The first locks with a start of at most this, in the order of their keys.
pub fn first_locks(
    alloc: Global,
    cells: &[Cell],
    until: u64,
    limit: u32,
) -> Result<Items<LockInfo>, NoMemory>
    ensures { IfOk result (λ locks. locks ≡ take limit (locks_until until cells.now)) }
{
    let mut locks = Items::new(alloc);
    for cell in cells {
        if u64::from(limit) <= locks.len() as u64 {
            return Ok(locks);
        }
        if let Some(info) = lock_until(alloc, until, cell)? {
            locks.push(info)?;
        }
    }
    Ok(locks)
}
