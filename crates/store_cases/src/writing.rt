//! Requests that write, commit and roll back.
ghost use Rattle.std.specs.Prelude.{IfOk};
ghost use Rattle.store_cases.specs.Serving.{IsServable};

use crate::words::{flags, key, keys, mutations, number, secondaries, word};
use case_words::Fault;
use std::alloc::Global;
use txn_kv::{
    BatchRollbackRequest, CleanupRequest, CommitRequest, Context, PrewriteRequest, Request,
    UnsafeDestroyRangeRequest,
};

fn prewrite(
    alloc: Global,
    here: Option<Context>,
    words: &[&str],
) -> Result<PrewriteRequest, Fault> {
    let name = word(words, 0)?;
    let start_version = number(words, 1)?;
    let lock_ttl = number(words, 3)?;
    let for_update_ts = number(words, 4)?;
    Ok(PrewriteRequest {
        context: here,
        mutations: mutations(alloc, words, 5)?,
        primary_lock: key(alloc, words, 2)?,
        start_version,
        lock_ttl,
        txn_size: 0,
        for_update_ts,
        is_pessimistic_lock: flags(alloc, words, 5)?,
        use_async_commit: name == "async" || name == "asynconce",
        try_one_pc: name == "once" || name == "asynconce",
        secondaries: secondaries(alloc, words, 5)?,
    })
}

fn commit(alloc: Global, here: Option<Context>, words: &[&str]) -> Result<CommitRequest, Fault> {
    let start_version = number(words, 1)?;
    let commit_version = number(words, 2)?;
    Ok(CommitRequest {
        context: here,
        start_version,
        commit_version,
        keys: keys(alloc, words, 3)?,
    })
}

fn cleanup(alloc: Global, here: Option<Context>, words: &[&str]) -> Result<CleanupRequest, Fault> {
    let start_version = number(words, 1)?;
    Ok(CleanupRequest {
        context: here,
        start_version,
        key: key(alloc, words, 2)?,
    })
}

fn rollback(
    alloc: Global,
    here: Option<Context>,
    words: &[&str],
) -> Result<BatchRollbackRequest, Fault> {
    let start_version = number(words, 1)?;
    Ok(BatchRollbackRequest {
        context: here,
        start_version,
        keys: keys(alloc, words, 2)?,
    })
}

fn destroy(
    alloc: Global,
    here: Option<Context>,
    words: &[&str],
) -> Result<UnsafeDestroyRangeRequest, Fault> {
    Ok(UnsafeDestroyRangeRequest {
        context: here,
        start_key: key(alloc, words, 1)?,
        end_key: key(alloc, words, 2)?,
    })
}

/// The request of a line that writes, if it is one.
pub fn writing(
    alloc: Global,
    here: Option<Context>,
    words: &[&str],
) -> Result<Option<Request>, Fault>
    ensures { IfOk result IsServable }
{
    let request = match word(words, 0)? {
        "prewrite" | "async" | "once" | "asynconce" => {
            Request::Prewrite(prewrite(alloc, here, words)?)
        }
        "commit" => Request::Commit(commit(alloc, here, words)?),
        "cleanup" => Request::Cleanup(cleanup(alloc, here, words)?),
        "rollback" => Request::BatchRollback(rollback(alloc, here, words)?),
        "destroy" => Request::UnsafeDestroyRange(destroy(alloc, here, words)?),
        _ => return Ok(None),
    };
    Ok(Some(request))
}
