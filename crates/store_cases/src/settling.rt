//! Requests that ask what became of a start, and that settle its locks.
ghost use Rattle.std.specs.Prelude.{IfOk};
ghost use Rattle.store_cases.specs.Serving.{IsServable};

use crate::words::{has, infos, key, keys, number, word};
use case_words::Fault;
use std::alloc::Global;
use txn_kv::{
    CheckSecondaryLocksRequest, CheckTxnStatusRequest, Context, Items, Request, ResolveLockRequest,
};

fn status(
    alloc: Global,
    here: Option<Context>,
    words: &[&str],
) -> Result<CheckTxnStatusRequest, Fault> {
    let lock_ts = number(words, 2)?;
    let current_ts = number(words, 3)?;
    Ok(CheckTxnStatusRequest {
        context: here,
        primary_key: key(alloc, words, 1)?,
        lock_ts,
        caller_start_ts: 0,
        current_ts,
        rollback_if_not_exist: has(words, "missing"),
        force_sync_commit: has(words, "forced"),
        resolving_pessimistic_lock: has(words, "resolving"),
    })
}

fn secondaries(
    alloc: Global,
    here: Option<Context>,
    words: &[&str],
) -> Result<CheckSecondaryLocksRequest, Fault> {
    let start_version = number(words, 1)?;
    Ok(CheckSecondaryLocksRequest {
        context: here,
        start_version,
        keys: keys(alloc, words, 2)?,
    })
}

/// Settles the locks of one start.
fn resolve(
    alloc: Global,
    here: Option<Context>,
    words: &[&str],
) -> Result<ResolveLockRequest, Fault> {
    Ok(ResolveLockRequest {
        context: here,
        start_version: number(words, 1)?,
        commit_version: number(words, 2)?,
        txn_infos: Items::new(alloc),
    })
}

/// Settles the locks of many starts.
fn resolve_all(
    alloc: Global,
    here: Option<Context>,
    words: &[&str],
) -> Result<ResolveLockRequest, Fault> {
    Ok(ResolveLockRequest {
        context: here,
        start_version: 0,
        commit_version: 0,
        txn_infos: infos(alloc, words, 1)?,
    })
}

/// The request of a line that settles, if it is one.
pub fn settling(
    alloc: Global,
    here: Option<Context>,
    words: &[&str],
) -> Result<Option<Request>, Fault>
    ensures { IfOk result IsServable }
{
    let request = match word(words, 0)? {
        "status" => Request::CheckTxnStatus(status(alloc, here, words)?),
        "secondaries" => Request::CheckSecondaryLocks(secondaries(alloc, here, words)?),
        "resolve" => Request::ResolveLock(resolve(alloc, here, words)?),
        "resolves" => Request::ResolveLock(resolve_all(alloc, here, words)?),
        _ => return Ok(None),
    };
    Ok(Some(request))
}
