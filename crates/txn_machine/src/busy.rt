ghost use Rattle.std.specs.Prelude.{◌≡◌};
ghost use Rattle.txn_history.specs.Busy.{busy, busy_reply};

use std::alloc::Global;
use txn_kv::{
    Action, BatchGetResponse, BatchRollbackResponse, CheckSecondaryLocksResponse,
    CheckTxnStatusResponse, CleanupResponse, CommitResponse, GetResponse, Items,
    PessimisticLockResponse, PessimisticRollbackResponse, PrewriteResponse, RegionErr, Reply,
    Request, ResolveLockResponse, ScanLockResponse, ScanResponse, Text, TxnHeartBeatResponse,
    UnsafeDestroyRangeResponse,
};

fn busy() -> Option<RegionErr>
    ensures { result ≡ busy }
{
    Some(RegionErr::ServerIsBusy)
}

/// What a store that is too busy to look at a request answers; none where the request is not for a store. Takes no memory.
pub fn busy_reply(alloc: Global, request: &Request) -> Option<Reply>
    ensures { result ≡ busy_reply request.now }
{
    match request {
        Request::Get(_) => Some(Reply::Get(GetResponse {
            region_error: busy(),
            error: None,
            value: Items::new(alloc),
            not_found: false,
        })),
        Request::BatchGet(_) => Some(Reply::BatchGet(BatchGetResponse {
            region_error: busy(),
            error: None,
            pairs: Items::new(alloc),
        })),
        Request::Scan(_) => Some(Reply::Scan(ScanResponse {
            region_error: busy(),
            error: None,
            pairs: Items::new(alloc),
        })),
        Request::Prewrite(_) => Some(Reply::Prewrite(PrewriteResponse {
            region_error: busy(),
            errors: Items::new(alloc),
            min_commit_ts: 0,
            one_pc_commit_ts: 0,
        })),
        Request::Commit(_) => Some(Reply::Commit(CommitResponse {
            region_error: busy(),
            error: None,
            commit_version: 0,
        })),
        Request::Cleanup(_) => Some(Reply::Cleanup(CleanupResponse {
            region_error: busy(),
            error: None,
            commit_version: 0,
        })),
        Request::BatchRollback(_) => Some(Reply::BatchRollback(BatchRollbackResponse {
            region_error: busy(),
            error: None,
        })),
        Request::PessimisticRollback(_) => Some(Reply::PessimisticRollback(
            PessimisticRollbackResponse {
                region_error: busy(),
                errors: Items::new(alloc),
            },
        )),
        Request::PessimisticLock(_) => Some(Reply::PessimisticLock(PessimisticLockResponse {
            region_error: busy(),
            errors: Items::new(alloc),
            values: Items::new(alloc),
            not_founds: Items::new(alloc),
        })),
        Request::ResolveLock(_) => Some(Reply::ResolveLock(ResolveLockResponse {
            region_error: busy(),
            error: None,
        })),
        Request::ScanLock(_) => Some(Reply::ScanLock(ScanLockResponse {
            region_error: busy(),
            error: None,
            locks: Items::new(alloc),
        })),
        Request::TxnHeartBeat(_) => Some(Reply::TxnHeartBeat(TxnHeartBeatResponse {
            region_error: busy(),
            error: None,
            lock_ttl: 0,
        })),
        Request::CheckTxnStatus(_) => Some(Reply::CheckTxnStatus(CheckTxnStatusResponse {
            region_error: busy(),
            error: None,
            lock_ttl: 0,
            commit_version: 0,
            action: Action::NoAction,
            lock_info: None,
        })),
        Request::CheckSecondaryLocks(_) => Some(Reply::CheckSecondaryLocks(
            CheckSecondaryLocksResponse {
                region_error: busy(),
                error: None,
                locks: Items::new(alloc),
                commit_ts: 0,
                missing: false,
            },
        )),
        Request::UnsafeDestroyRange(_) => Some(Reply::UnsafeDestroyRange(
            UnsafeDestroyRangeResponse {
                region_error: busy(),
                error: Text::from_string(String::new(alloc)),
            },
        )),
        Request::GetRegion(_)
        | Request::GetRegionById(_)
        | Request::GetStore(_)
        | Request::GetAllStores(_)
        | Request::UpdateGcSafePoint(_)
        | Request::Tso(_)
        | Request::Members(_) => None,
    }
}
