ghost use Rattle.std.specs.Prelude.{◌≡◌, ◌-◌, ◌^◌, true, IfOk, length, if◌then◌else◌, replicate};
ghost use Rattle.txn_request.specs.Defaults.{default_get, default_batch_get, default_scan, default_prewrite, default_commit, default_cleanup, default_batch_rollback, default_pessimistic_rollback, default_pessimistic_lock, default_resolve_lock, default_scan_lock, default_txn_heart_beat, default_check_txn_status, default_check_secondary_locks, default_unsafe_destroy_range};

use std::alloc::Global;
use txn_kv::{
    BatchGetRequest, BatchRollbackRequest, CheckSecondaryLocksRequest, CheckTxnStatusRequest,
    CleanupRequest, CommitRequest, GetRequest, Items, Key, Mutation, NoMemory,
    PessimisticLockRequest, PessimisticRollbackRequest, PrewriteRequest, ResolveLockRequest,
    ScanLockRequest, ScanRequest, TxnHeartBeatRequest, TxnInfo, UnsafeDestroyRangeRequest,
};

pub fn new_get_request(key: Key, timestamp: u64) -> GetRequest
    ensures { result ≡ record default_get { key = key; version = timestamp } }
{
    GetRequest {
        context: None,
        key,
        version: timestamp,
    }
}

pub fn new_batch_get_request(keys: Items<Key>, timestamp: u64) -> BatchGetRequest
    ensures { result ≡ record default_batch_get { keys = keys; version = timestamp } }
{
    BatchGetRequest {
        context: None,
        keys,
        version: timestamp,
    }
}

/// Where `reverse`, the two keys change places.
pub fn new_scan_request(
    start_key: Key,
    end_key: Key,
    timestamp: u64,
    limit: u64,
    key_only: bool,
    reverse: bool,
) -> ScanRequest
    ensures { result ≡ record default_scan { start_key = if reverse then end_key else start_key; end_key = if reverse then start_key else end_key; limit = limit; key_only = key_only; version = timestamp; reverse = reverse } }
{
    let (start_key, end_key) = if reverse {
        (end_key, start_key)
    } else {
        (start_key, end_key)
    };
    ScanRequest {
        context: None,
        start_key,
        end_key,
        limit,
        key_only,
        version: timestamp,
        reverse,
    }
}

pub fn new_resolve_lock_request(
    alloc: Global,
    start_version: u64,
    commit_version: u64,
) -> ResolveLockRequest
    ensures { result ≡ record default_resolve_lock { start_version = start_version; commit_version = commit_version } }
{
    ResolveLockRequest {
        context: None,
        start_version,
        commit_version,
        txn_infos: Items::new(alloc),
    }
}

pub fn new_batch_resolve_lock_request(txn_infos: Items<TxnInfo>) -> ResolveLockRequest
    ensures { result ≡ record default_resolve_lock { txn_infos = txn_infos } }
{
    ResolveLockRequest {
        context: None,
        start_version: 0,
        commit_version: 0,
        txn_infos,
    }
}

pub fn new_cleanup_request(key: Key, start_version: u64) -> CleanupRequest
    ensures { result ≡ record default_cleanup { key = key; start_version = start_version } }
{
    CleanupRequest {
        context: None,
        key,
        start_version,
    }
}

pub fn new_prewrite_request(
    alloc: Global,
    mutations: Items<Mutation>,
    primary_lock: Key,
    start_version: u64,
    lock_ttl: u64,
) -> PrewriteRequest
    ensures { result ≡ record default_prewrite { mutations = mutations; primary_lock = primary_lock; start_version = start_version; lock_ttl = lock_ttl; txn_size = 2 ^ 64 - 1 } }
{
    PrewriteRequest {
        context: None,
        mutations,
        primary_lock,
        start_version,
        lock_ttl,
        txn_size: u64::MAX,
        for_update_ts: 0,
        is_pessimistic_lock: Items::new(alloc),
        use_async_commit: false,
        try_one_pc: false,
        secondaries: Items::new(alloc),
    }
}

/// Each mutated key holds a pessimistic lock.
pub fn new_pessimistic_prewrite_request(
    alloc: Global,
    mutations: Items<Mutation>,
    primary_lock: Key,
    start_version: u64,
    lock_ttl: u64,
    for_update_ts: u64,
) -> Result<PrewriteRequest, NoMemory>
    ensures { IfOk result (λ request. request ≡ record default_prewrite { mutations = mutations; primary_lock = primary_lock; start_version = start_version; lock_ttl = lock_ttl; txn_size = 2 ^ 64 - 1; for_update_ts = for_update_ts; is_pessimistic_lock = replicate (length mutations) true }) }
{
    let flags = vec![in alloc; true; mutations.len()]?;
    let mut request = new_prewrite_request(alloc, mutations, primary_lock, start_version, lock_ttl);
    request.is_pessimistic_lock = Items::from_vec(flags);
    request.for_update_ts = for_update_ts;
    Ok(request)
}

pub fn new_commit_request(
    keys: Items<Key>,
    start_version: u64,
    commit_version: u64,
) -> CommitRequest
    ensures { result ≡ record default_commit { keys = keys; start_version = start_version; commit_version = commit_version } }
{
    CommitRequest {
        context: None,
        keys,
        start_version,
        commit_version,
    }
}

pub fn new_batch_rollback_request(keys: Items<Key>, start_version: u64) -> BatchRollbackRequest
    ensures { result ≡ record default_batch_rollback { keys = keys; start_version = start_version } }
{
    BatchRollbackRequest {
        context: None,
        keys,
        start_version,
    }
}

pub fn new_pessimistic_rollback_request(
    keys: Items<Key>,
    start_version: u64,
    for_update_ts: u64,
) -> PessimisticRollbackRequest
    ensures { result ≡ record default_pessimistic_rollback { keys = keys; start_version = start_version; for_update_ts = for_update_ts } }
{
    PessimisticRollbackRequest {
        context: None,
        keys,
        start_version,
        for_update_ts,
    }
}

pub fn new_pessimistic_lock_request(
    mutations: Items<Mutation>,
    primary_lock: Key,
    start_version: u64,
    lock_ttl: u64,
    for_update_ts: u64,
    need_value: bool,
) -> PessimisticLockRequest
    ensures { result ≡ record default_pessimistic_lock { mutations = mutations; primary_lock = primary_lock; start_version = start_version; lock_ttl = lock_ttl; for_update_ts = for_update_ts; return_values = need_value } }
{
    PessimisticLockRequest {
        context: None,
        mutations,
        primary_lock,
        start_version,
        lock_ttl,
        for_update_ts,
        is_first_lock: false,
        wait_timeout: 0,
        return_values: need_value,
        min_commit_ts: 0,
    }
}

pub fn new_scan_lock_request(
    start_key: Key,
    end_key: Key,
    safepoint: u64,
    limit: u32,
) -> ScanLockRequest
    ensures { result ≡ record default_scan_lock { start_key = start_key; end_key = end_key; max_version = safepoint; limit = limit } }
{
    ScanLockRequest {
        context: None,
        start_key,
        end_key,
        max_version: safepoint,
        limit,
    }
}

pub fn new_heart_beat_request(start_ts: u64, primary_lock: Key, ttl: u64) -> TxnHeartBeatRequest
    ensures { result ≡ record default_txn_heart_beat { primary_lock = primary_lock; start_version = start_ts; advise_lock_ttl = ttl } }
{
    TxnHeartBeatRequest {
        context: None,
        primary_lock,
        start_version: start_ts,
        advise_lock_ttl: ttl,
    }
}

pub fn new_check_txn_status_request(
    primary_key: Key,
    lock_ts: u64,
    caller_start_ts: u64,
    current_ts: u64,
    rollback_if_not_exist: bool,
    force_sync_commit: bool,
    resolving_pessimistic_lock: bool,
) -> CheckTxnStatusRequest
    ensures { result ≡ record default_check_txn_status { primary_key = primary_key; lock_ts = lock_ts; caller_start_ts = caller_start_ts; current_ts = current_ts; rollback_if_not_exist = rollback_if_not_exist; force_sync_commit = force_sync_commit; resolving_pessimistic_lock = resolving_pessimistic_lock } }
{
    CheckTxnStatusRequest {
        context: None,
        primary_key,
        lock_ts,
        caller_start_ts,
        current_ts,
        rollback_if_not_exist,
        force_sync_commit,
        resolving_pessimistic_lock,
    }
}

pub fn new_check_secondary_locks_request(
    keys: Items<Key>,
    start_version: u64,
) -> CheckSecondaryLocksRequest
    ensures { result ≡ record default_check_secondary_locks { keys = keys; start_version = start_version } }
{
    CheckSecondaryLocksRequest {
        context: None,
        keys,
        start_version,
    }
}

pub fn new_unsafe_destroy_range_request(start_key: Key, end_key: Key) -> UnsafeDestroyRangeRequest
    ensures { result ≡ record default_unsafe_destroy_range { start_key = start_key; end_key = end_key } }
{
    UnsafeDestroyRangeRequest {
        context: None,
        start_key,
        end_key,
    }
}
