//! Requests that read.
ghost use Rattle.std.specs.Prelude.{IfOk};
ghost use Rattle.store_cases.specs.Serving.{IsServable};

use crate::words::{has, key, keys, number, word};
use case_words::Fault;
use std::alloc::Global;
use txn_kv::{BatchGetRequest, Context, GetRequest, Request, ScanLockRequest, ScanRequest};

fn get(alloc: Global, here: Option<Context>, words: &[&str]) -> Result<GetRequest, Fault> {
    let version = number(words, 2)?;
    Ok(GetRequest {
        context: here,
        key: key(alloc, words, 1)?,
        version,
    })
}

fn batch_get(
    alloc: Global,
    here: Option<Context>,
    words: &[&str],
) -> Result<BatchGetRequest, Fault> {
    let version = number(words, 1)?;
    Ok(BatchGetRequest {
        context: here,
        keys: keys(alloc, words, 2)?,
        version,
    })
}

fn scan(alloc: Global, here: Option<Context>, words: &[&str]) -> Result<ScanRequest, Fault> {
    let limit = number(words, 3)?;
    let version = number(words, 4)?;
    Ok(ScanRequest {
        context: here,
        start_key: key(alloc, words, 1)?,
        end_key: key(alloc, words, 2)?,
        limit,
        key_only: has(words, "keys"),
        version,
        reverse: has(words, "down"),
    })
}

fn scan_lock(
    alloc: Global,
    here: Option<Context>,
    words: &[&str],
) -> Result<ScanLockRequest, Fault> {
    let Ok(limit) = u32::try_from(number(words, 4)?) else {
        return Err(Fault::Words);
    };
    let max_version = number(words, 3)?;
    Ok(ScanLockRequest {
        context: here,
        start_key: key(alloc, words, 1)?,
        end_key: key(alloc, words, 2)?,
        max_version,
        limit,
    })
}

/// The request of a line that reads, if it is one.
pub fn reading(
    alloc: Global,
    here: Option<Context>,
    words: &[&str],
) -> Result<Option<Request>, Fault>
    ensures { IfOk result IsServable }
{
    let request = match word(words, 0)? {
        "get" => Request::Get(get(alloc, here, words)?),
        "bget" => Request::BatchGet(batch_get(alloc, here, words)?),
        "scan" => Request::Scan(scan(alloc, here, words)?),
        "locks" => Request::ScanLock(scan_lock(alloc, here, words)?),
        _ => return Ok(None),
    };
    Ok(Some(request))
}
