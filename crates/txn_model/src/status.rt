//! What became of a start at its primary, and what a check of it does.
ghost use Rattle.std.specs.Prelude.{◌≡◌, ◌∷◌, [], Some, IfOk, OnOk, OnErr};
ghost use Rattle.std.specs.Option.{option_copied};
ghost use Rattle.txn_model.specs.Cells.{AreInOrder, AreKept, cell_at, changed_at};
ghost use Rattle.txn_model.specs.Locks.{has_start};
ghost use Rattle.txn_model.specs.Orderly.{AreOrderly};
ghost use Rattle.txn_model.specs.Statuses.{found_lock, status_rule};
ghost use Rattle.txn_model.specs.Status.{is_expired, is_over, finding, unlocked_finding, goes_unrecorded, status_cell, no_status, status_told, status_reply};

use crate::cell::{Cell, Lock, Write};
use crate::cells::{find, lock_of_start};
use crate::commits::commit_of;
use crate::rule::{Rule, change_one};
use std::alloc::Global;
use txn_kv::{
    Action, CheckTxnStatusRequest, CheckTxnStatusResponse, Key, KeyError, LockInfo, NoMemory,
};

/// How many timestamps a millisecond has.
const MILLISECOND: u64 = 262144;

fn is_expired(now: u64, lock: &Lock) -> bool
    ensures { result ≡ is_expired now lock.now }
{
    let life = (now / MILLISECOND).saturating_sub(lock.start / MILLISECOND);
    now == u64::MAX || lock.ttl <= life
}

/// An expired lock is over, and an async one only where the request is forced.
fn is_over(request: &CheckTxnStatusRequest, lock: &Lock) -> bool
    ensures { result ≡ is_over request.now lock.now }
{
    is_expired(request.current_ts, lock) && (request.force_sync_commit || !lock.is_async())
}

/// An expired pessimistic lock that is being resolved goes unrecorded.
fn goes_unrecorded(request: &CheckTxnStatusRequest, lock: &Lock) -> bool
    ensures { result ≡ goes_unrecorded request.now lock.now }
{
    request.resolving_pessimistic_lock && !lock.kind.is_prewrite()
}

fn status_told(
    lock_ttl: u64,
    commit_version: u64,
    action: Action,
    lock_info: Option<LockInfo>,
) -> CheckTxnStatusResponse
    ensures { result ≡ status_told lock_ttl commit_version action lock_info }
{
    CheckTxnStatusResponse {
        region_error: None,
        error: None,
        lock_ttl,
        commit_version,
        action,
        lock_info,
    }
}

fn status_refused(error: KeyError) -> CheckTxnStatusResponse
    ensures { result ≡ record no_status { error = Some error } }
{
    CheckTxnStatusResponse {
        region_error: None,
        error: Some(error),
        lock_ttl: 0,
        commit_version: 0,
        action: Action::NoAction,
        lock_info: None,
    }
}

/// The reply where the start holds this lock.
fn locked_reply(
    alloc: Global,
    request: &CheckTxnStatusRequest,
    lock: &Lock,
) -> Result<CheckTxnStatusResponse, NoMemory>
    ensures { IfOk result (λ reply. reply ≡ status_reply request.now (found_lock request.now lock.now)) }
{
    let key = &request.primary_key;
    if lock.primary != *key {
        let info = lock.info(alloc, key)?;
        return Ok(status_refused(KeyError::PrimaryMismatch(info)));
    }
    if !is_over(request, lock) {
        let info = lock.info(alloc, key)?;
        return Ok(status_told(lock.ttl, 0, Action::NoAction, Some(info)));
    }
    if goes_unrecorded(request, lock) {
        return Ok(status_told(0, 0, Action::TtlExpirePessimisticRollback, None));
    }
    Ok(status_told(0, 0, Action::TtlExpireRollback, None))
}

/// The reply where the start holds no lock.
fn unlocked_reply(
    request: &CheckTxnStatusRequest,
    commit: Option<&Write>,
    is_rolled_back: bool,
) -> Result<CheckTxnStatusResponse, NoMemory>
    ensures { IfOk result (λ reply. reply ≡ status_reply request.now (unlocked_finding (option_copied commit.entry) is_rolled_back)) }
{
    if let Some(write) = commit {
        return Ok(status_told(0, write.commit, Action::NoAction, None));
    }
    if is_rolled_back {
        return Ok(status_told(0, 0, Action::NoAction, None));
    }
    if request.resolving_pessimistic_lock {
        return Ok(status_told(0, 0, Action::LockNotExistDoNothing, None));
    }
    if request.rollback_if_not_exist {
        return Ok(status_told(0, 0, Action::LockNotExistRollback, None));
    }
    Ok(status_refused(KeyError::TxnNotFound {
        key: request.primary_key.try_clone()?,
        start: request.lock_ts,
    }))
}

fn is_rolled_back(cell: &Cell, start: u64) -> bool
    ensures { result ≡ has_start cell.now.rolled start }
{
    cell.rolled.as_slice().contains(&start)
}

fn cell_reply(
    alloc: Global,
    request: &CheckTxnStatusRequest,
    cell: &Cell,
) -> Result<CheckTxnStatusResponse, NoMemory>
    ensures { IfOk result (λ reply. reply ≡ status_reply request.now (finding request.now cell.now)) }
{
    let start = request.lock_ts;
    match lock_of_start(&cell.lock, start) {
        Some(lock) => locked_reply(alloc, request, lock),
        None => unlocked_reply(
            request,
            commit_of(cell.commits.as_slice(), start),
            is_rolled_back(cell, start),
        ),
    }
}

/// The reply to a check of a start.
pub fn status_reply(
    alloc: Global,
    cells: &[Cell],
    request: &CheckTxnStatusRequest,
) -> Result<CheckTxnStatusResponse, NoMemory>
    requires { AreInOrder cells.now }
    ensures { IfOk result (λ reply. reply ≡ status_reply request.now (finding request.now (cell_at cells.now request.now.primary_key))) }
{
    match find(cells, &request.primary_key) {
        Some(cell) => cell_reply(alloc, request, cell),
        None => unlocked_reply(request, None, false),
    }
}

/// What becomes of the cell where the start holds this lock.
fn locked_rule(request: &CheckTxnStatusRequest, lock: &Lock) -> Rule
    ensures { result ≡ status_rule request.now (found_lock request.now lock.now) }
{
    if lock.primary != request.primary_key {
        return Rule::Stay;
    }
    if !is_over(request, lock) {
        return Rule::Stay;
    }
    if goes_unrecorded(request, lock) {
        return Rule::Release(request.lock_ts);
    }
    Rule::RollBack(request.lock_ts)
}

/// What becomes of the cell where the start holds no lock.
fn unlocked_rule(
    request: &CheckTxnStatusRequest,
    commit: Option<&Write>,
    is_rolled_back: bool,
) -> Rule
    ensures { result ≡ status_rule request.now (unlocked_finding (option_copied commit.entry) is_rolled_back) }
{
    if commit.is_some() {
        return Rule::Stay;
    }
    if is_rolled_back {
        return Rule::Stay;
    }
    if request.rollback_if_not_exist && !request.resolving_pessimistic_lock {
        return Rule::RollBack(request.lock_ts);
    }
    Rule::Stay
}

fn cell_rule(request: &CheckTxnStatusRequest, cell: &Cell) -> Rule
    ensures { result ≡ status_rule request.now (finding request.now cell.now) }
{
    let start = request.lock_ts;
    match lock_of_start(&cell.lock, start) {
        Some(lock) => locked_rule(request, lock),
        None => unlocked_rule(
            request,
            commit_of(cell.commits.as_slice(), start),
            is_rolled_back(cell, start),
        ),
    }
}

/// What becomes of the cell of the primary.
fn status_rule(cells: &[Cell], request: &CheckTxnStatusRequest) -> Rule
    requires { AreInOrder cells.now }
    ensures { result ≡ status_rule request.now (finding request.now (cell_at cells.now request.now.primary_key)) }
{
    match find(cells, &request.primary_key) {
        Some(cell) => cell_rule(request, cell),
        None => unlocked_rule(request, None, false),
    }
}

/// Does at the primary what a check of a start does there.
pub fn settle_status(cells: &mut Vec<Cell>, request: &CheckTxnStatusRequest) -> Result<(), NoMemory>
    requires kept { AreKept cells.old.items }
    requires ordered { AreOrderly cells.old.items }
    ensures ok { OnOk result (cells.new.items ≡ changed_at (request.now.primary_key ∷ []) (status_cell request.now (finding request.now (cell_at cells.old.items request.now.primary_key))) cells.old.items) }
    ensures kept { AreKept cells.new.items }
    ensures ordered { AreOrderly cells.new.items }
    ensures err { OnErr result (cells.new.items ≡ cells.old.items) }
{
    let rule = status_rule(cells.as_slice(), request);
    change_one(cells, rule, &request.primary_key)?;
    Ok(())
}
