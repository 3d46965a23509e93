//! What the placement driver and stores answer. All keys are in region 1, which store 1 leads.
use std::alloc::Global;
use txn_kv::{
    CommitResponse, GetRegionResponse, GetStoreResponse, Items, Key, KeyError, Peer,
    PrewriteResponse, Region, RegionEpoch, Reply, StoreMeta, StoreState, Text, Timestamp,
    TsoResponse, TxnHeartBeatResponse,
};

/// What is answered, if the word tells it.
pub fn reply(alloc: Global, name: &str) -> Option<Reply> {
    match name {
        "time" => Some(time(1)),
        "later" => Some(time(2)),
        "region" => Some(region(alloc)),
        "store" => Some(store(alloc)),
        "prolonged" => Some(prolonged()),
        "prewritten" => Some(prewrite(Items::new(alloc))),
        "conflict" => Some(prewrite(conflict(alloc))),
        "committed" => Some(committed()),
        _ => None,
    }
}

/// The timestamp of this count at 300 ms.
fn time(logical: i64) -> Reply {
    Reply::Tso(TsoResponse {
        count: 1,
        timestamp: Some(Timestamp {
            physical: 300,
            logical,
            suffix_bits: 0,
        }),
    })
}

fn region(alloc: Global) -> Reply {
    Reply::GetRegion(GetRegionResponse {
        region: Some(Region {
            id: 1,
            start_key: Key::empty(alloc),
            end_key: Key::empty(alloc),
            region_epoch: Some(RegionEpoch {
                conf_ver: 1,
                version: 1,
            }),
        }),
        leader: Some(Peer { id: 1, store_id: 1 }),
    })
}

fn store(alloc: Global) -> Reply {
    Reply::GetStore(GetStoreResponse {
        store: StoreMeta {
            id: 1,
            address: Text::from_string(String::new(alloc)),
            state: StoreState::Up,
            labels: Items::new(alloc),
        },
    })
}

/// The lock of the primary lives longer.
fn prolonged() -> Reply {
    Reply::TxnHeartBeat(TxnHeartBeatResponse {
        region_error: None,
        error: None,
        lock_ttl: 30_000,
    })
}

fn prewrite(errors: Items<KeyError>) -> Reply {
    Reply::Prewrite(PrewriteResponse {
        region_error: None,
        errors,
        min_commit_ts: 0,
        one_pc_commit_ts: 0,
    })
}

/// Another transaction wrote a key since the start.
fn conflict(alloc: Global) -> Items<KeyError> {
    let mut errors = Items::new(alloc);
    let _ = errors.push(KeyError::WriteConflict {
        key: Key::empty(alloc),
        start: 1,
        commit: 2,
    });
    errors
}

fn committed() -> Reply {
    Reply::Commit(CommitResponse {
        region_error: None,
        error: None,
        commit_version: 78_643_202,
    })
}
