//! Replies, and what a request of each kind takes them for.

use case_words::{flag, key, number, show, small, value, word};
use std::alloc::Global;
use std::fmt::Debug;
use txn_kv::*;
use txn_request::KvRequest;

/// Shows whether a copy is the same, and the answer that a request of this kind takes the copy for.
fn answer<R: KvRequest>(rt: &HostRuntime, reply: Reply)
where
    R::Response: Debug + Drop,
{
    if let Ok(copy) = reply.try_clone() {
        show(rt, &(copy == reply));
        show(rt, &R::response(copy));
    }
}

fn one<T: Drop>(alloc: Global, item: T) -> Items<T> {
    let mut items = Items::new(alloc);
    let _ = items.push(item);
    items
}

fn text(alloc: Global, word: &str) -> Text {
    Text::from_string(word.to_string(alloc).unwrap_or(String::new(alloc)))
}

/// `KEY START`: a lock of an asynchronous commit, whose other key is `b`.
fn lock(alloc: Global, words: &[&str]) -> LockInfo {
    LockInfo {
        key: key(alloc, words, 2),
        primary_lock: key(alloc, words, 2),
        lock_version: number(words, 3),
        lock_ttl: 3000,
        lock_type: Op::Put,
        lock_for_update_ts: 0,
        use_async_commit: true,
        min_commit_ts: 6,
        secondaries: one(alloc, key(alloc, &["b"], 0)),
    }
}

fn locked_pair(alloc: Global, words: &[&str]) -> PbPair {
    PbPair {
        error: Some(KeyError::Locked(lock(alloc, words))),
        key: key(alloc, words, 2),
        value: Value::new(alloc),
    }
}

fn region(alloc: Global, words: &[&str]) -> GetRegionResponse {
    let region = Region {
        id: number(words, 2),
        start_key: key(alloc, words, 3),
        end_key: key(alloc, words, 4),
        region_epoch: None,
    };
    GetRegionResponse {
        region: Some(region),
        leader: Some(Peer { id: 1, store_id: 4 }),
    }
}

fn store(alloc: Global, words: &[&str]) -> StoreMeta {
    let label = StoreLabel {
        key: text(alloc, word(words, 4)),
        value: text(alloc, word(words, 5)),
    };
    StoreMeta {
        id: number(words, 2),
        address: text(alloc, word(words, 3)),
        state: StoreState::Up,
        labels: one(alloc, label),
    }
}

fn read(rt: &HostRuntime, words: &[&str]) {
    let alloc = rt.alloc();
    match word(words, 1) {
        "get" => answer::<GetRequest>(
            rt,
            Reply::Get(GetResponse {
                region_error: None,
                error: None,
                value: value(alloc, words, 2),
                not_found: flag(words, 3, "absent"),
            }),
        ),
        "batch_get" => answer::<BatchGetRequest>(
            rt,
            Reply::BatchGet(BatchGetResponse {
                region_error: None,
                error: None,
                pairs: one(alloc, locked_pair(alloc, words)),
            }),
        ),
        "scan" => answer::<ScanRequest>(
            rt,
            Reply::Scan(ScanResponse {
                region_error: Some(RegionErr::StaleCommand),
                error: None,
                pairs: Items::new(alloc),
            }),
        ),
        "scan_lock" => answer::<ScanLockRequest>(
            rt,
            Reply::ScanLock(ScanLockResponse {
                region_error: None,
                error: None,
                locks: Items::new(alloc),
            }),
        ),
        _ => write(rt, words),
    }
}

fn write(rt: &HostRuntime, words: &[&str]) {
    let alloc = rt.alloc();
    match word(words, 1) {
        "prewrite" => answer::<PrewriteRequest>(
            rt,
            Reply::Prewrite(PrewriteResponse {
                region_error: None,
                errors: Items::new(alloc),
                min_commit_ts: number(words, 2),
                one_pc_commit_ts: number(words, 3),
            }),
        ),
        "commit" => answer::<CommitRequest>(
            rt,
            Reply::Commit(CommitResponse {
                region_error: None,
                error: None,
                commit_version: number(words, 2),
            }),
        ),
        "cleanup" => answer::<CleanupRequest>(
            rt,
            Reply::Cleanup(CleanupResponse {
                region_error: None,
                error: None,
                commit_version: number(words, 2),
            }),
        ),
        "rollback" => answer::<BatchRollbackRequest>(
            rt,
            Reply::BatchRollback(BatchRollbackResponse {
                region_error: None,
                error: None,
            }),
        ),
        "destroy" => answer::<UnsafeDestroyRangeRequest>(
            rt,
            Reply::UnsafeDestroyRange(UnsafeDestroyRangeResponse {
                region_error: None,
                error: text(alloc, word(words, 2)),
            }),
        ),
        _ => lock_or_settle(rt, words),
    }
}

fn lock_or_settle(rt: &HostRuntime, words: &[&str]) {
    let alloc = rt.alloc();
    match word(words, 1) {
        "lock" => answer::<PessimisticLockRequest>(
            rt,
            Reply::PessimisticLock(PessimisticLockResponse {
                region_error: None,
                errors: Items::new(alloc),
                values: one(alloc, value(alloc, words, 2)),
                not_founds: one(alloc, flag(words, 3, "absent")),
            }),
        ),
        "unlock" => answer::<PessimisticRollbackRequest>(
            rt,
            Reply::PessimisticRollback(PessimisticRollbackResponse {
                region_error: None,
                errors: Items::new(alloc),
            }),
        ),
        "resolve" => answer::<ResolveLockRequest>(
            rt,
            Reply::ResolveLock(ResolveLockResponse {
                region_error: None,
                error: None,
            }),
        ),
        "beat" => answer::<TxnHeartBeatRequest>(
            rt,
            Reply::TxnHeartBeat(TxnHeartBeatResponse {
                region_error: None,
                error: None,
                lock_ttl: number(words, 2),
            }),
        ),
        _ => ask_after(rt, words),
    }
}

fn ask_after(rt: &HostRuntime, words: &[&str]) {
    let alloc = rt.alloc();
    match word(words, 1) {
        "status" => answer::<CheckTxnStatusRequest>(
            rt,
            Reply::CheckTxnStatus(CheckTxnStatusResponse {
                region_error: None,
                error: None,
                lock_ttl: number(words, 4),
                commit_version: 0,
                action: Action::NoAction,
                lock_info: Some(lock(alloc, words)),
            }),
        ),
        "secondaries" => answer::<CheckSecondaryLocksRequest>(
            rt,
            Reply::CheckSecondaryLocks(CheckSecondaryLocksResponse {
                region_error: None,
                error: None,
                locks: Items::new(alloc),
                commit_ts: number(words, 2),
                missing: flag(words, 3, "missing"),
            }),
        ),
        _ => place(rt, words),
    }
}

fn place(rt: &HostRuntime, words: &[&str]) {
    let alloc = rt.alloc();
    match word(words, 1) {
        "region" => answer::<GetRegionRequest>(rt, Reply::GetRegion(region(alloc, words))),
        "region_by_id" => {
            answer::<GetRegionByIdRequest>(rt, Reply::GetRegionById(region(alloc, words)))
        }
        "store" => answer::<GetStoreRequest>(
            rt,
            Reply::GetStore(GetStoreResponse {
                store: store(alloc, words),
            }),
        ),
        "stores" => answer::<GetAllStoresRequest>(
            rt,
            Reply::GetAllStores(GetAllStoresResponse {
                stores: Items::new(alloc),
            }),
        ),
        "safepoint" => answer::<UpdateGcSafePointRequest>(
            rt,
            Reply::UpdateGcSafePoint(UpdateGcSafePointResponse {
                new_safe_point: number(words, 2),
            }),
        ),
        "tso" => answer::<TsoRequest>(
            rt,
            Reply::Tso(TsoResponse {
                count: small(words, 2),
                timestamp: None,
            }),
        ),
        "members" => answer::<MembersRequest>(rt, Reply::Members(MembersResponse)),
        _ => answer::<TsoRequest>(rt, Reply::Members(MembersResponse)),
    }
}

pub fn serve(rt: &HostRuntime, words: &[&str]) {
    read(rt, words)
}
