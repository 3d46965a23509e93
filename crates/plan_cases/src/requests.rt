//! Requests by words.

use case_words::{flag, key, keys};
use std::alloc::Global;
use txn_kv::{
    BatchGetRequest, CommitRequest, GetRequest, Items, Key, PrewriteRequest, ScanLockRequest,
    ScanRequest, UnsafeDestroyRangeRequest,
};

/// A Get of the key at a place.
pub fn get(alloc: Global, words: &[&str], at: usize) -> GetRequest {
    GetRequest {
        context: None,
        key: key(alloc, words, at),
        version: 5,
    }
}

/// A BatchGet of the keys from a place on.
pub fn batch_get(alloc: Global, words: &[&str], from: usize) -> BatchGetRequest {
    BatchGetRequest {
        context: None,
        keys: Items::from_vec(keys(alloc, words, from)),
        version: 7,
    }
}

/// `START END`, and whether it goes down.
pub fn scan(alloc: Global, words: &[&str], start: usize, down: usize) -> ScanRequest {
    ScanRequest {
        context: None,
        start_key: key(alloc, words, start),
        end_key: key(alloc, words, start.saturating_add(1)),
        limit: 3,
        key_only: true,
        version: 7,
        reverse: flag(words, down, "down"),
    }
}

/// `START END` from a place on.
pub fn scan_lock(alloc: Global, words: &[&str], start: usize) -> ScanLockRequest {
    ScanLockRequest {
        context: None,
        start_key: key(alloc, words, start),
        end_key: key(alloc, words, start.saturating_add(1)),
        max_version: 7,
        limit: 3,
    }
}

/// A Commit of the keys from a place on.
pub fn commit(alloc: Global, words: &[&str], from: usize) -> CommitRequest {
    CommitRequest {
        context: None,
        keys: Items::from_vec(keys(alloc, words, from)),
        start_version: 5,
        commit_version: 6,
    }
}

/// A Prewrite of no key.
pub fn prewrite(alloc: Global) -> PrewriteRequest {
    PrewriteRequest {
        context: None,
        mutations: Items::new(alloc),
        primary_lock: Key::empty(alloc),
        start_version: 5,
        lock_ttl: 3000,
        txn_size: 1,
        for_update_ts: 0,
        is_pessimistic_lock: Items::new(alloc),
        use_async_commit: false,
        try_one_pc: false,
        secondaries: Items::new(alloc),
    }
}

/// What destroys all keys.
pub fn destroy(alloc: Global) -> UnsafeDestroyRangeRequest {
    UnsafeDestroyRangeRequest {
        context: None,
        start_key: Key::empty(alloc),
        end_key: Key::empty(alloc),
    }
}
