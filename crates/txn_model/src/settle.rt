//! The locks of a region are settled, all or none.
ghost use Rattle.std.specs.Prelude.{◌≡◌, IfOk, OnOk, OnErr, if◌then◌else◌, option_to_list};
ghost use Rattle.txn_model.specs.Cells.{AreInOrder, AreKept, each_changed};
ghost use Rattle.txn_model.specs.Orderly.{AreOrderly};
ghost use Rattle.txn_model.specs.Resolve.{infos, is_in_context, all_settled};
ghost use Rattle.txn_model.specs.Settling.{info_for, info_at, becomes_commit, commitment_by, settling, change_by, commitments, changes};

use crate::cell::{Cell, Lock};
use crate::cells::owns;
use crate::change::{Change, make_changes};
use crate::placement::region_with_id;
use crate::ranges::{cells_in, is_in_range};
use crate::region::StoredRegion;
use crate::rule::{holds_pessimistic, rolling_back, unlocking};
use crate::unlock::{Commitment, commit_each};
use std::alloc::Global;
use txn_kv::{Context, Key, NoMemory, ResolveLockRequest, TxnInfo};

fn info_among(infos: &[TxnInfo], lock: &Option<Lock>) -> Option<TxnInfo>
    ensures { result ≡ info_for infos.now lock.now }
{
    match lock {
        Some(lock) => {
            for info in infos {
                if lock.start == info.txn {
                    return Some(*info);
                }
            }
            None
        }
        None => None,
    }
}

/// What is to become of the start that holds a lock.
fn info_for(request: &ResolveLockRequest, lock: &Option<Lock>) -> Option<TxnInfo>
    ensures { result ≡ info_for (infos request.now) lock.now }
{
    let infos = request.txn_infos.as_slice();
    if infos.is_empty() {
        let one = TxnInfo {
            txn: request.start_version,
            status: request.commit_version,
        };
        return info_among(&[one], lock);
    }
    info_among(infos, lock)
}

/// A key is in the region of a context.
fn is_in_context(regions: &[StoredRegion], context: Option<Context>, key: &Key) -> bool
    ensures { result ≡ is_in_context regions.now context key.now }
{
    let Some(context) = context else {
        return false;
    };
    match region_with_id(regions, context.region_id) {
        Some(region) => is_in_range(&region.start_key, &region.end_key, key),
        None => false,
    }
}

fn info_at(regions: &[StoredRegion], request: &ResolveLockRequest, cell: &Cell) -> Option<TxnInfo>
    ensures { result ≡ info_at regions.now request.now cell.now }
{
    if is_in_context(regions, request.context, &cell.key) {
        info_for(request, &cell.lock)
    } else {
        None
    }
}

fn becomes_commit(info: TxnInfo, cell: &Cell) -> bool
    ensures { result ≡ becomes_commit info cell.now }
{
    owns(&cell.lock, info.txn) && 0 < info.status
}

fn commitment_of(info: Option<TxnInfo>, cell: &Cell) -> Result<Option<Commitment>, NoMemory>
    ensures { IfOk result (λ one. option_to_list one ≡ commitment_by info cell.now) }
{
    match info {
        Some(info) => {
            if becomes_commit(info, cell) {
                return Ok(Some(Commitment {
                    key: cell.key.try_clone()?,
                    start: info.txn,
                    commit: info.status,
                }));
            }
            Ok(None)
        }
        None => Ok(None),
    }
}

fn commitments(
    alloc: Global,
    cells: &[Cell],
    regions: &[StoredRegion],
    request: &ResolveLockRequest,
) -> Result<Vec<Commitment>, NoMemory>
    ensures { IfOk result (λ all. all.items ≡ commitments regions.now request.now cells.now) }
{
    let mut all = Vec::new(alloc);
    for cell in cells {
        let info = info_at(regions, request, cell);
        if let Some(one) = commitment_of(info, cell)? {
            all.push(one)?;
        }
    }
    Ok(all)
}

fn settling(alloc: Global, info: TxnInfo, cell: &Cell) -> Result<Change, NoMemory>
    ensures { IfOk result (λ change. change ≡ settling info cell.now) }
{
    if owns(&cell.lock, info.txn) {
        rolling_back(alloc, info.txn, &cell.key, cell)
    } else {
        unlocking(holds_pessimistic(info.txn, cell), &cell.key)
    }
}

fn change_of(alloc: Global, info: Option<TxnInfo>, cell: &Cell) -> Result<Option<Change>, NoMemory>
    ensures { IfOk result (λ change. option_to_list change ≡ change_by info cell.now) }
{
    match info {
        Some(info) => {
            if becomes_commit(info, cell) {
                return Ok(None);
            }
            Ok(Some(settling(alloc, info, cell)?))
        }
        None => Ok(None),
    }
}

fn changes(
    alloc: Global,
    cells: &[Cell],
    regions: &[StoredRegion],
    request: &ResolveLockRequest,
) -> Result<Vec<Change>, NoMemory>
    ensures { IfOk result (λ all. all.items ≡ changes regions.now request.now cells.now) }
{
    let mut all = Vec::new(alloc);
    for cell in cells {
        let info = info_at(regions, request, cell);
        if let Some(change) = change_of(alloc, info, cell)? {
            all.push(change)?;
        }
    }
    Ok(all)
}

/// The cells of the region that a request names, which are all that it settles.
fn cells_of_region<'a>(
    cells: &'a [Cell],
    regions: &[StoredRegion],
    request: &ResolveLockRequest,
) -> &'a [Cell]
    requires in_order { AreInOrder cells.now }
    requires ordered { AreOrderly cells.now }
    ensures commitments { commitments regions.now request.now result.now ≡ commitments regions.now request.now cells.now }
    ensures changes { changes regions.now request.now result.now ≡ changes regions.now request.now cells.now }
{
    let Some(context) = request.context else {
        return &[];
    };
    match region_with_id(regions, context.region_id) {
        Some(region) => cells_in(cells, &region.start_key, &region.end_key),
        None => &[],
    }
}

/// Settles the locks of the region that a request names.
pub fn settle_all(
    cells: &mut Vec<Cell>,
    regions: &[StoredRegion],
    request: &ResolveLockRequest,
) -> Result<(), NoMemory>
    requires kept { AreKept cells.old.items }
    requires ordered { AreOrderly cells.old.items }
    ensures ok { OnOk result (cells.new.items ≡ each_changed (λ c. if is_in_context regions.now request.now.context c.key then all_settled (infos request.now) c else c) cells.old.items) }
    ensures kept { AreKept cells.new.items }
    ensures ordered { AreOrderly cells.new.items }
    ensures err { OnErr result (cells.new.items ≡ cells.old.items) }
{
    let alloc = *cells.allocator();
    let settled = cells_of_region(cells.as_slice(), regions, request);
    let commitments = commitments(alloc, settled, regions, request)?;
    let changes = changes(alloc, settled, regions, request)?;
    cells.reserve(changes.len())?;
    commit_each(cells, commitments.as_slice())?;
    make_changes(cells, changes);
    Ok(())
}
