//! The constructors over timestamps and over ranges of keys.
ghost use Rattle.std.specs.Prelude.{◌≡◌, ◌-◌, ◌^◌, true, IfOk, length, if◌then◌else◌, map, replicate};
ghost use Rattle.txn_kv.specs.Timestamp.{HasVersion, version_of};
ghost use Rattle.txn_request.specs.Defaults.{default_get, default_batch_get, default_scan, default_prewrite, default_commit, default_batch_rollback, default_pessimistic_rollback, default_pessimistic_lock, default_scan_lock, default_txn_heart_beat, default_unsafe_destroy_range};
ghost use Rattle.txn_request.specs.Lowered.{end_key_of, lock_mutation, start_key_of};

use crate::requests;
use std::alloc::Global;
use txn_kv::{
    BatchGetRequest, BatchRollbackRequest, BoundRange, CommitRequest, GetRequest, Items, Key,
    Mutation, NoMemory, Op, PessimisticLock, PessimisticLockRequest, PessimisticRollbackRequest,
    PrewriteRequest, ScanLockRequest, ScanRequest, Timestamp, TimestampExt, TxnHeartBeatRequest,
    UnsafeDestroyRangeRequest, Value,
};

pub fn new_get_request(key: Key, timestamp: Timestamp) -> GetRequest
    requires { HasVersion timestamp }
    ensures { result ≡ record default_get { key = key; version = version_of timestamp } }
{
    requests::new_get_request(key, timestamp.version())
}

pub fn new_batch_get_request(keys: Items<Key>, timestamp: Timestamp) -> BatchGetRequest
    requires { HasVersion timestamp }
    ensures { result ≡ record default_batch_get { keys = keys; version = version_of timestamp } }
{
    requests::new_batch_get_request(keys, timestamp.version())
}

/// Where `reverse`, the two keys of the range change places.
pub fn new_scan_request(
    alloc: Global,
    range: BoundRange,
    timestamp: Timestamp,
    limit: u64,
    key_only: bool,
    reverse: bool,
) -> Result<ScanRequest, NoMemory>
    requires { HasVersion timestamp }
    ensures { IfOk result (λ request. request ≡ record default_scan { start_key = if reverse then end_key_of range else start_key_of range; end_key = if reverse then start_key_of range else end_key_of range; limit = limit; key_only = key_only; version = version_of timestamp; reverse = reverse }) }
{
    let version = timestamp.version();
    let (start_key, end_key) = range.into_key_range(alloc)?.into_keys();
    Ok(requests::new_scan_request(start_key, end_key, version, limit, key_only, reverse))
}

pub fn new_prewrite_request(
    alloc: Global,
    mutations: Items<Mutation>,
    primary_lock: Key,
    start_version: Timestamp,
    lock_ttl: u64,
) -> PrewriteRequest
    requires { HasVersion start_version }
    ensures { result ≡ record default_prewrite { mutations = mutations; primary_lock = primary_lock; start_version = version_of start_version; lock_ttl = lock_ttl; txn_size = 2 ^ 64 - 1 } }
{
    requests::new_prewrite_request(
        alloc,
        mutations,
        primary_lock,
        start_version.version(),
        lock_ttl,
    )
}

/// Each mutated key holds a pessimistic lock.
pub fn new_pessimistic_prewrite_request(
    alloc: Global,
    mutations: Items<Mutation>,
    primary_lock: Key,
    start_version: Timestamp,
    lock_ttl: u64,
    for_update_ts: Timestamp,
) -> Result<PrewriteRequest, NoMemory>
    requires start { HasVersion start_version }
    requires for_update { HasVersion for_update_ts }
    ensures { IfOk result (λ request. request ≡ record default_prewrite { mutations = mutations; primary_lock = primary_lock; start_version = version_of start_version; lock_ttl = lock_ttl; txn_size = 2 ^ 64 - 1; for_update_ts = version_of for_update_ts; is_pessimistic_lock = replicate (length mutations) true }) }
{
    requests::new_pessimistic_prewrite_request(
        alloc,
        mutations,
        primary_lock,
        start_version.version(),
        lock_ttl,
        for_update_ts.version(),
    )
}

pub fn new_commit_request(
    keys: Items<Key>,
    start_version: Timestamp,
    commit_version: Timestamp,
) -> CommitRequest
    requires start { HasVersion start_version }
    requires commit { HasVersion commit_version }
    ensures { result ≡ record default_commit { keys = keys; start_version = version_of start_version; commit_version = version_of commit_version } }
{
    requests::new_commit_request(keys, start_version.version(), commit_version.version())
}

pub fn new_batch_rollback_request(
    keys: Items<Key>,
    start_version: Timestamp,
) -> BatchRollbackRequest
    requires { HasVersion start_version }
    ensures { result ≡ record default_batch_rollback { keys = keys; start_version = version_of start_version } }
{
    requests::new_batch_rollback_request(keys, start_version.version())
}

pub fn new_pessimistic_rollback_request(
    keys: Items<Key>,
    start_version: Timestamp,
    for_update_ts: Timestamp,
) -> PessimisticRollbackRequest
    requires start { HasVersion start_version }
    requires for_update { HasVersion for_update_ts }
    ensures { result ≡ record default_pessimistic_rollback { keys = keys; start_version = version_of start_version; for_update_ts = version_of for_update_ts } }
{
    requests::new_pessimistic_rollback_request(
        keys,
        start_version.version(),
        for_update_ts.version(),
    )
}

/// Each key to lock becomes a mutation without a value, with what is asserted of the key.
pub fn new_pessimistic_lock_request<L: PessimisticLock + Drop>(
    alloc: Global,
    locks: Vec<L>,
    primary_lock: Key,
    start_version: Timestamp,
    lock_ttl: u64,
    for_update_ts: Timestamp,
    need_value: bool,
) -> Result<PessimisticLockRequest, NoMemory>
    requires start { HasVersion start_version }
    requires for_update { HasVersion for_update_ts }
    ensures { IfOk result (λ request. request ≡ record default_pessimistic_lock { mutations = map (lock_mutation L.key_of L.assertion_of) locks.items; primary_lock = primary_lock; start_version = version_of start_version; lock_ttl = lock_ttl; for_update_ts = version_of for_update_ts; return_values = need_value }) }
{
    let mutations = lock_mutations(alloc, locks)?;
    Ok(requests::new_pessimistic_lock_request(
        mutations,
        primary_lock,
        start_version.version(),
        lock_ttl,
        for_update_ts.version(),
        need_value,
    ))
}

fn lock_mutations<L: PessimisticLock + Drop>(
    alloc: Global,
    locks: Vec<L>,
) -> Result<Items<Mutation>, NoMemory>
    ensures { IfOk result (λ mutations. mutations ≡ map (lock_mutation L.key_of L.assertion_of) locks.items) }
{
    let mut mutations = Vec::new(alloc);
    for lock in locks {
        let assertion = lock.assertion();
        mutations.push(Mutation {
            op: Op::PessimisticLock,
            key: lock.key(),
            value: Value::new(alloc),
            assertion,
        })?;
    }
    Ok(Items::from_vec(mutations))
}

pub fn new_scan_lock_request(
    alloc: Global,
    range: BoundRange,
    safepoint: Timestamp,
    limit: u32,
) -> Result<ScanLockRequest, NoMemory>
    requires { HasVersion safepoint }
    ensures { IfOk result (λ request. request ≡ record default_scan_lock { start_key = start_key_of range; end_key = end_key_of range; max_version = version_of safepoint; limit = limit }) }
{
    let max_version = safepoint.version();
    let (start_key, end_key) = range.into_key_range(alloc)?.into_keys();
    Ok(requests::new_scan_lock_request(start_key, end_key, max_version, limit))
}

pub fn new_heart_beat_request(
    start_ts: Timestamp,
    primary_lock: Key,
    ttl: u64,
) -> TxnHeartBeatRequest
    requires { HasVersion start_ts }
    ensures { result ≡ record default_txn_heart_beat { primary_lock = primary_lock; start_version = version_of start_ts; advise_lock_ttl = ttl } }
{
    requests::new_heart_beat_request(start_ts.version(), primary_lock, ttl)
}

pub fn new_unsafe_destroy_range_request(
    alloc: Global,
    range: BoundRange,
) -> Result<UnsafeDestroyRangeRequest, NoMemory>
    ensures { IfOk result (λ request. request ≡ record default_unsafe_destroy_range { start_key = start_key_of range; end_key = end_key_of range }) }
{
    let (start_key, end_key) = range.into_key_range(alloc)?.into_keys();
    Ok(requests::new_unsafe_destroy_range_request(start_key, end_key))
}
