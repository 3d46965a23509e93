//! Requests to the placement driver, asks for timestamps, and what changes a store from outside.
ghost use Rattle.std.specs.Prelude.{IfOk};
ghost use Rattle.store_cases.specs.Serving.{IsServable};

use crate::words::{key, number, word};
use case_words::Fault;
use std::alloc::Global;
use txn_kv::{
    GetAllStoresRequest, GetRegionByIdRequest, GetRegionRequest, GetStoreRequest, MembersRequest,
    Reply, Request, TsoRequest, UpdateGcSafePointRequest,
};
use txn_model::ModelStore;

/// How many milliseconds a clock can show.
const CLOCK_END: u64 = 1 << 44;

/// The last timestamp has to stay below this.
const LAST_END: u64 = 1 << 63;

fn get_region(alloc: Global, words: &[&str]) -> Result<GetRegionRequest, Fault> {
    let key = key(alloc, words, 1)?;
    Ok(GetRegionRequest {
        region_key: key.to_encoded()?,
    })
}

/// The request of a line to the placement driver, if it is one.
pub fn placing(alloc: Global, words: &[&str]) -> Result<Option<Request>, Fault>
    ensures { IfOk result IsServable }
{
    let request = match word(words, 0)? {
        "region" => Request::GetRegion(get_region(alloc, words)?),
        "regionid" => Request::GetRegionById(GetRegionByIdRequest {
            region_id: number(words, 1)?,
        }),
        "store" => Request::GetStore(GetStoreRequest {
            store_id: number(words, 1)?,
        }),
        "stores" => Request::GetAllStores(GetAllStoresRequest),
        "safepoint" => Request::UpdateGcSafePoint(UpdateGcSafePointRequest {
            safe_point: number(words, 1)?,
        }),
        "members" => Request::Members(MembersRequest),
        _ => return Ok(None),
    };
    Ok(Some(request))
}

fn tso(store: &mut ModelStore, count: u64) -> Result<Reply, Fault> {
    let Ok(count) = u32::try_from(count) else {
        return Err(Fault::Words);
    };
    if count < 1 || count > 64 || store.last() >= LAST_END || store.clock() >= CLOCK_END {
        return Err(Fault::Words);
    }
    Ok(store.serve(&Request::Tso(TsoRequest { count }))?)
}

/// Asks for as many timestamps again and again: the last reply.
fn tsos(store: &mut ModelStore, times: u64, count: u64) -> Result<Reply, Fault> {
    let mut last = tso(store, count)?;
    for _ in 1..times {
        last = tso(store, count)?;
    }
    Ok(last)
}

/// Serves a line that asks for timestamps, if it is one.
pub fn timing(store: &mut ModelStore, words: &[&str]) -> Result<Option<Reply>, Fault> {
    match word(words, 0)? {
        "tso" => Ok(Some(tso(store, number(words, 1)?)?)),
        "tsos" => {
            let times = number(words, 1)?;
            Ok(Some(tsos(store, times, number(words, 2)?)?))
        }
        _ => Ok(None),
    }
}

/// Does what a line changes from outside, if it is one: whether it could be done.
pub fn moving(
    alloc: Global,
    store: &mut ModelStore,
    words: &[&str],
) -> Result<Option<bool>, Fault> {
    match word(words, 0)? {
        "split" => {
            let key = key(alloc, words, 1)?;
            Ok(Some(store.split(&key)?))
        }
        "lead" => Ok(Some(store.lead(number(words, 1)?, number(words, 2)?))),
        "clock" => {
            let milliseconds = number(words, 1)?;
            if milliseconds >= CLOCK_END {
                return Err(Fault::Words);
            }
            store.set_clock(milliseconds);
            Ok(Some(true))
        }
        _ => Ok(None),
    }
}
