//! Replies by words.

use case_words::{bytes, cut, flag, key, number, number_in, pair};
use std::alloc::Global;
use txn_kv::{
    Assertion, BatchGetResponse, CheckSecondaryLocksResponse, CommitResponse, Error, Items, Key,
    KeyError, LockInfo, Mutation, Op, PbPair, PessimisticLockResponse, RegionErr, Result,
    ScanLockResponse, ScanResponse, Text, UnsafeDestroyRangeResponse, Value,
};
use txn_merge::{CleanupLocksResult, ResponseWithShard};

/// A reply that a word tells.
pub trait FromWord: Sized + Drop {
    fn read(alloc: Global, word: &str) -> Self;
}

fn outcome<T: FromWord>(alloc: Global, word: &str) -> Result<T> {
    match word {
        "!once" => Err(Error::OnePcFailure),
        "!primary" => Err(Error::NoPrimaryKey),
        "!locks" => Err(Error::ResolveLockError(Vec::new(alloc))),
        _ => Ok(T::read(alloc, word)),
    }
}

/// The replies of words, with errors in their places.
pub fn outcomes<T: FromWord>(alloc: Global, words: &[&str]) -> Vec<Result<T>> {
    let mut outcomes = Vec::new(alloc);
    for word in words {
        let _ = outcomes.push(outcome(alloc, word));
    }
    outcomes
}

/// The replies of words.
pub fn replies<T: FromWord>(alloc: Global, words: &[&str]) -> Vec<T> {
    let mut replies = Vec::new(alloc);
    for word in words {
        let _ = replies.push(T::read(alloc, word));
    }
    replies
}

impl FromWord for u64 {
    fn read(_alloc: Global, word: &str) -> u64 {
        number_in(word)
    }
}

impl FromWord for Result<u64> {
    fn read(_alloc: Global, word: &str) -> Result<u64> {
        Ok(number_in(word))
    }
}

/// A lock of start 5 ms, of an asynchronous commit or not.
pub fn lock(alloc: Global, name: &str, use_async_commit: bool, min_commit_ts: u64) -> LockInfo {
    LockInfo {
        key: Key::from(bytes(alloc, name)),
        primary_lock: Key::from(bytes(alloc, name)),
        lock_version: 5 * 262_144,
        lock_ttl: 20,
        lock_type: Op::Put,
        lock_for_update_ts: 0,
        use_async_commit,
        min_commit_ts,
        secondaries: Items::new(alloc),
    }
}

pub fn commit(error: Option<KeyError>, region_error: Option<RegionErr>) -> CommitResponse {
    CommitResponse {
        region_error,
        error,
        commit_version: 0,
    }
}

/// A reply to a commit of `k`: `missing` and `locked` refuse the key, `stale` and `unknown` the region.
impl FromWord for CommitResponse {
    fn read(alloc: Global, word: &str) -> CommitResponse {
        match word {
            "missing" => {
                let key = key(alloc, &["k"], 0);
                commit(Some(KeyError::TxnLockNotFound { key }), None)
            }
            "locked" => commit(Some(KeyError::Locked(lock(alloc, "k", false, 0))), None),
            "stale" => commit(None, Some(RegionErr::StaleCommand)),
            "unknown" => commit(None, Some(RegionErr::Unknown)),
            _ => commit(None, None),
        }
    }
}

fn pb_pair(alloc: Global, word: &str) -> PbPair {
    PbPair::from(pair(alloc, word))
}

/// The pairs of `a=1,b=2`.
fn pb_pairs(alloc: Global, word: &str) -> Items<PbPair> {
    let mut pairs = Items::new(alloc);
    for part in cut(alloc, word, ',') {
        let _ = pairs.push(pb_pair(alloc, part));
    }
    pairs
}

impl FromWord for BatchGetResponse {
    fn read(alloc: Global, word: &str) -> BatchGetResponse {
        BatchGetResponse {
            region_error: None,
            error: None,
            pairs: pb_pairs(alloc, word),
        }
    }
}

impl FromWord for ScanResponse {
    fn read(alloc: Global, word: &str) -> ScanResponse {
        ScanResponse {
            region_error: None,
            error: None,
            pairs: pb_pairs(alloc, word),
        }
    }
}

/// The locks of `a,b`.
impl FromWord for ScanLockResponse {
    fn read(alloc: Global, word: &str) -> ScanLockResponse {
        let mut locks = Items::new(alloc);
        for part in cut(alloc, word, ',') {
            let _ = locks.push(lock(alloc, part, false, 0));
        }
        ScanLockResponse {
            region_error: None,
            error: None,
            locks,
        }
    }
}

impl FromWord for UnsafeDestroyRangeResponse {
    fn read(alloc: Global, _word: &str) -> UnsafeDestroyRangeResponse {
        UnsafeDestroyRangeResponse {
            region_error: None,
            error: Text::from_string(String::new(alloc)),
        }
    }
}

/// So many locks were settled.
impl FromWord for CleanupLocksResult {
    fn read(_alloc: Global, word: &str) -> CleanupLocksResult {
        CleanupLocksResult {
            region_error: None,
            key_error: None,
            resolved_locks: number_in(word),
        }
    }
}

/// The lock that `plain` and `async` say, with its bound.
fn held(alloc: Global, words: &[&str]) -> Items<LockInfo> {
    let mut locks = Items::new(alloc);
    if !flag(words, 0, "none") {
        let _ = locks.push(lock(alloc, "k", flag(words, 0, "async"), number(words, 1)));
    }
    locks
}

/// `HELD/BOUND/COMMIT/missing`: what a store says of secondary locks.
impl FromWord for CheckSecondaryLocksResponse {
    fn read(alloc: Global, word: &str) -> CheckSecondaryLocksResponse {
        let words = cut(alloc, word, '/');
        CheckSecondaryLocksResponse {
            region_error: None,
            error: None,
            locks: held(alloc, words.as_slice()),
            commit_ts: number(words.as_slice(), 2),
            missing: flag(words.as_slice(), 3, "missing"),
        }
    }
}

fn to_lock(key: Key, value: Value) -> Mutation {
    Mutation {
        op: Op::PessimisticLock,
        key,
        value,
        assertion: Assertion::None,
    }
}

/// What a store says of a key that it locked: `key1=value1`, and with `?` behind it that there is none, with `+` that there is.
fn add_locked(
    alloc: Global,
    part: &str,
    reply: &mut PessimisticLockResponse,
    mutations: &mut Items<Mutation>,
) {
    let is_absent = part.ends_with('?');
    if is_absent || part.ends_with('+') {
        let _ = reply.not_founds.push(is_absent);
    }
    let bare = part.trim_end_matches('?').trim_end_matches('+');
    let (key, value) = pair(alloc, bare).into_parts();
    let _ = reply.values.push(value);
    let _ = mutations.push(to_lock(key, Value::new(alloc)));
}

/// The reply to a shard of keys with commas between them.
impl FromWord for ResponseWithShard<PessimisticLockResponse, Items<Mutation>> {
    fn read(
        alloc: Global,
        word: &str,
    ) -> ResponseWithShard<PessimisticLockResponse, Items<Mutation>> {
        let mut mutations = Items::new(alloc);
        let mut reply = PessimisticLockResponse {
            region_error: None,
            errors: Items::new(alloc),
            values: Items::new(alloc),
            not_founds: Items::new(alloc),
        };
        for part in cut(alloc, word, ',') {
            add_locked(alloc, part, &mut reply, &mut mutations);
        }
        ResponseWithShard(reply, mutations)
    }
}
