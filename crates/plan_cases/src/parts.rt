//! Shards in requests, batches, and where a scan goes on.

use crate::client::{peer, region};
use crate::refusals::lock;
use crate::requests::{destroy, get, scan, scan_lock};
use case_words::{key, keys, number, rest, show, value, word};
use std::alloc::Global;
use std::fmt::Debug;
use txn_kv::{
    Assertion, CommitRequest, Items, Key, LockInfo, Mutation, Op, PrewriteRequest,
    RegionWithLeader, ScanLockResponse,
};
use txn_region::{RegionStore, Store};
use txn_shard::{
    Batchable, HasNextBatch, NextBatch, Shardable, SingleKey, StoreRequest, TXN_COMMIT_BATCH_SIZE,
};

/// Region 9 at store 4.
fn aim(alloc: Global, name: &str) -> RegionStore {
    let mut region = region(9, Key::empty(alloc), Key::empty(alloc));
    if name == "bare" || name == "neither" {
        region.region_epoch = None;
    }
    let leader = if name == "unled" || name == "neither" {
        None
    } else {
        peer(4)
    };
    RegionStore::new(RegionWithLeader::new(region, leader), 4)
}

/// Shows what comes of a shard, and then the request.
fn applied<R: Shardable + Debug>(
    rt: &HostRuntime,
    request: &mut R,
    shard: R::Shard,
    store: &RegionStore,
) {
    show(rt, &request.apply_shard(shard, store));
    show(rt, request);
}

fn apply_scan_lock(rt: &HostRuntime, store: &RegionStore, words: &[&str]) {
    let alloc = rt.alloc();
    let mut request = scan_lock(alloc, words, 3);
    let piece = (key(alloc, words, 5), key(alloc, words, 6));
    applied(rt, &mut request, piece, store);
    request.next_batch((key(alloc, words, 7), Key::empty(alloc)));
    show(rt, &request);
}

pub fn apply(rt: &HostRuntime, words: &[&str]) {
    let alloc = rt.alloc();
    let store = aim(alloc, word(words, 1));
    match word(words, 2) {
        "get" => applied(rt, &mut get(alloc, words, 3), key(alloc, words, 4), &store),
        "scan" => {
            let piece = (key(alloc, words, 6), key(alloc, words, 7));
            applied(rt, &mut scan(alloc, words, 3, 5), piece, &store);
        }
        _ => apply_scan_lock(rt, &store, words),
    }
}

pub fn apply_store(rt: &HostRuntime) {
    let mut request = destroy(rt.alloc());
    request.apply_store(&Store::new(3));
    show(rt, &request);
}

fn locks(alloc: Global, words: &[&str]) -> Items<LockInfo> {
    let mut locks = Items::new(alloc);
    for word in rest(words, 1) {
        let _ = locks.push(lock(alloc, &[word], 0, 5));
    }
    locks
}

/// Where a scan goes on after a reply with locks of these keys.
pub fn next(rt: &HostRuntime, words: &[&str]) {
    let response = ScanLockResponse {
        region_error: None,
        error: None,
        locks: locks(rt.alloc(), words),
    };
    show(rt, &response.has_next_batch());
}

pub fn batches(rt: &HostRuntime, words: &[&str]) {
    let keys = keys(rt.alloc(), words, 2);
    show(
        rt,
        &CommitRequest::batches(rt.alloc(), keys, number(words, 1)),
    );
}

/// Shows the size of a key, of a mutation and of a whole batch.
pub fn sizes(rt: &HostRuntime, words: &[&str]) {
    let alloc = rt.alloc();
    show(rt, &CommitRequest::item_size(&key(alloc, words, 1)));
    let mutation = Mutation {
        op: Op::Put,
        key: key(alloc, words, 1),
        value: value(alloc, words, 2),
        assertion: Assertion::None,
    };
    show(rt, &PrewriteRequest::item_size(&mutation));
    show(rt, &TXN_COMMIT_BATCH_SIZE);
}

pub fn only(rt: &HostRuntime, words: &[&str]) {
    let request = get(rt.alloc(), words, 1);
    show(rt, request.key());
}
