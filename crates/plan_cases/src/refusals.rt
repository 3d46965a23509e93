//! Errors in replies, by words.

use crate::client::region;
use case_words::{cut, key, number, word};
use std::alloc::Global;
use txn_kv::{Items, Key, KeyError, LockInfo, Op, Peer, Region, RegionEpoch, RegionErr};

/// `leader:ID:STORE`.
fn not_leader(words: &[&str]) -> RegionErr {
    RegionErr::NotLeader {
        region_id: 1,
        leader: Some(Peer {
            id: number(words, 1),
            store_id: number(words, 2),
        }),
    }
}

/// `epoch:CONF:VERSION`, and none for `epoch:none`.
fn epoch(words: &[&str]) -> Option<RegionEpoch> {
    if word(words, 1) == "none" {
        return None;
    }
    Some(RegionEpoch {
        conf_ver: number(words, 1),
        version: number(words, 2),
    })
}

/// Region 1 with an epoch, and no region for `epoch` alone.
fn current_regions(alloc: Global, words: &[&str]) -> Items<Region> {
    let mut regions = Items::new(alloc);
    if words.len() > 1 {
        let mut region = region(1, Key::empty(alloc), Key::empty(alloc));
        region.region_epoch = epoch(words);
        let _ = regions.push(region);
    }
    regions
}

pub fn region_error(alloc: Global, name: &str) -> Option<RegionErr> {
    let words = cut(alloc, name, ':');
    let words = words.as_slice();
    match word(words, 0) {
        "stale" => Some(RegionErr::StaleCommand),
        "busy" => Some(RegionErr::ServerIsBusy),
        "unknown" => Some(RegionErr::Unknown),
        "leader" => Some(not_leader(words)),
        "epoch" => Some(RegionErr::EpochNotMatch {
            current_regions: current_regions(alloc, words),
        }),
        _ => None,
    }
}

/// The lock of a transaction on a key, which is its primary.
pub fn lock(alloc: Global, words: &[&str], at: usize, start: u64) -> LockInfo {
    LockInfo {
        key: key(alloc, words, at),
        primary_lock: key(alloc, words, at),
        lock_version: start,
        lock_ttl: 3000,
        lock_type: Op::Put,
        lock_for_update_ts: 0,
        use_async_commit: false,
        min_commit_ts: 0,
        secondaries: Items::new(alloc),
    }
}

pub fn key_error(alloc: Global, name: &str) -> Option<KeyError> {
    let words = cut(alloc, name, ':');
    let words = words.as_slice();
    match word(words, 0) {
        "unlocked" => Some(KeyError::TxnLockNotFound {
            key: Key::empty(alloc),
        }),
        "exists" => Some(KeyError::AlreadyExist {
            key: Key::empty(alloc),
        }),
        "missing" => Some(KeyError::TxnNotFound {
            key: Key::empty(alloc),
            start: 5,
        }),
        "locked" => Some(KeyError::Locked(lock(alloc, words, 1, number(words, 2)))),
        _ => None,
    }
}
