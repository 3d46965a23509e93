//! Requests that set, release and lengthen locks.
ghost use Rattle.std.specs.Prelude.{IfOk};
ghost use Rattle.store_cases.specs.Serving.{IsServable};

use crate::words::{has, key, keys, mutations, number, word};
use case_words::Fault;
use std::alloc::Global;
use txn_kv::{
    Context, PessimisticLockRequest, PessimisticRollbackRequest, Request, TxnHeartBeatRequest,
};

fn lock(
    alloc: Global,
    here: Option<Context>,
    words: &[&str],
) -> Result<PessimisticLockRequest, Fault> {
    let start_version = number(words, 1)?;
    let lock_ttl = number(words, 3)?;
    let for_update_ts = number(words, 4)?;
    Ok(PessimisticLockRequest {
        context: here,
        mutations: mutations(alloc, words, 5)?,
        primary_lock: key(alloc, words, 2)?,
        start_version,
        lock_ttl,
        for_update_ts,
        is_first_lock: false,
        wait_timeout: 0,
        return_values: has(words, "lockread"),
        min_commit_ts: 0,
    })
}

fn unlock(
    alloc: Global,
    here: Option<Context>,
    words: &[&str],
) -> Result<PessimisticRollbackRequest, Fault> {
    let start_version = number(words, 1)?;
    let for_update_ts = number(words, 2)?;
    Ok(PessimisticRollbackRequest {
        context: here,
        start_version,
        for_update_ts,
        keys: keys(alloc, words, 3)?,
    })
}

fn beat(
    alloc: Global,
    here: Option<Context>,
    words: &[&str],
) -> Result<TxnHeartBeatRequest, Fault> {
    let start_version = number(words, 1)?;
    let advise_lock_ttl = number(words, 3)?;
    Ok(TxnHeartBeatRequest {
        context: here,
        start_version,
        primary_lock: key(alloc, words, 2)?,
        advise_lock_ttl,
    })
}

/// The request of a line about locks, if it is one.
pub fn locking(
    alloc: Global,
    here: Option<Context>,
    words: &[&str],
) -> Result<Option<Request>, Fault>
    ensures { IfOk result IsServable }
{
    let request = match word(words, 0)? {
        "lock" | "lockread" => Request::PessimisticLock(lock(alloc, here, words)?),
        "unlock" => Request::PessimisticRollback(unlock(alloc, here, words)?),
        "beat" => Request::TxnHeartBeat(beat(alloc, here, words)?),
        _ => return Ok(None),
    };
    Ok(Some(request))
}
