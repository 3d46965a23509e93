ghost use Rattle.std.specs.Prelude.{◌≡◌, IfOk};
ghost use Rattle.txn_kv.specs.Request.{label_of, with_context, with_api_version, keeping_version, versioned};

pub mod cluster;
pub mod commits;
pub mod locks;
pub mod reads;

use crate::memory::NoMemory;
use crate::message::{ApiVersion, Context};
pub use cluster::{
    GetAllStoresRequest, GetRegionByIdRequest, GetRegionRequest, GetStoreRequest, MembersRequest,
    TsoRequest, UnsafeDestroyRangeRequest, UpdateGcSafePointRequest,
};
pub use commits::{BatchRollbackRequest, CommitRequest, PrewriteRequest, TxnHeartBeatRequest};
pub use locks::{
    CheckSecondaryLocksRequest, CheckTxnStatusRequest, CleanupRequest, PessimisticLockRequest,
    PessimisticRollbackRequest, ResolveLockRequest, ScanLockRequest,
};
pub use reads::{BatchGetRequest, GetRequest, ScanRequest};

/// What a client sends, to a store or to the placement driver.
#[derive(Debug, PartialEq, Eq)]
pub enum Request {
    Get(GetRequest),
    BatchGet(BatchGetRequest),
    Scan(ScanRequest),
    Prewrite(PrewriteRequest),
    Commit(CommitRequest),
    Cleanup(CleanupRequest),
    BatchRollback(BatchRollbackRequest),
    PessimisticRollback(PessimisticRollbackRequest),
    PessimisticLock(PessimisticLockRequest),
    ResolveLock(ResolveLockRequest),
    ScanLock(ScanLockRequest),
    TxnHeartBeat(TxnHeartBeatRequest),
    CheckTxnStatus(CheckTxnStatusRequest),
    CheckSecondaryLocks(CheckSecondaryLocksRequest),
    UnsafeDestroyRange(UnsafeDestroyRangeRequest),
    GetRegion(GetRegionRequest),
    GetRegionById(GetRegionByIdRequest),
    GetStore(GetStoreRequest),
    GetAllStores(GetAllStoresRequest),
    UpdateGcSafePoint(UpdateGcSafePointRequest),
    Tso(TsoRequest),
    Members(MembersRequest),
}

/// Each kind by one call: a derived drop is proved anew in each crate above, and for so many kinds that takes hours.
impl Drop for Request {
    fn drop(self) {
        match self {
            Request::Get(request) => drop(request),
            Request::BatchGet(request) => drop(request),
            Request::Scan(request) => drop(request),
            Request::Prewrite(request) => drop(request),
            Request::Commit(request) => drop(request),
            Request::Cleanup(request) => drop(request),
            Request::BatchRollback(request) => drop(request),
            Request::PessimisticRollback(request) => drop(request),
            Request::PessimisticLock(request) => drop(request),
            Request::ResolveLock(request) => drop(request),
            Request::ScanLock(request) => drop(request),
            Request::TxnHeartBeat(request) => drop(request),
            Request::CheckTxnStatus(request) => drop(request),
            Request::CheckSecondaryLocks(request) => drop(request),
            Request::UnsafeDestroyRange(request) => drop(request),
            Request::GetRegion(request) => drop(request),
            Request::GetRegionById(request) => drop(request),
            Request::GetStore(request) => drop(request),
            Request::GetAllStores(request) => drop(request),
            Request::UpdateGcSafePoint(request) => drop(request),
            Request::Tso(request) => drop(request),
            Request::Members(request) => drop(request),
        }
    }
}

impl Request {
    /// The name under which its calls are counted.
    pub fn label(&self) -> &'static str
        ensures { result.now ≡ label_of self.now }
    {
        match self {
            Request::Get(_) => "kv_get",
            Request::BatchGet(_) => "kv_batch_get",
            Request::Scan(_) => "kv_scan",
            Request::Prewrite(_) => "kv_prewrite",
            Request::Commit(_) => "kv_commit",
            Request::Cleanup(_) => "kv_cleanup",
            Request::BatchRollback(_) => "kv_batch_rollback",
            Request::PessimisticRollback(_) => "kv_pessimistic_rollback",
            Request::PessimisticLock(_) => "kv_pessimistic_lock",
            Request::ResolveLock(_) => "kv_resolve_lock",
            Request::ScanLock(_) => "kv_scan_lock",
            Request::TxnHeartBeat(_) => "kv_txn_heart_beat",
            Request::CheckTxnStatus(_) => "kv_check_txn_status",
            Request::CheckSecondaryLocks(_) => "kv_check_secondary_locks_request",
            Request::UnsafeDestroyRange(_) => "unsafe_destroy_range",
            Request::GetRegion(_) => "get_region",
            Request::GetRegionById(_) => "get_region_by_id",
            Request::GetStore(_) => "get_store",
            Request::GetAllStores(_) => "get_all_stores",
            Request::UpdateGcSafePoint(_) => "update_gc_safe_point",
            Request::Tso(_) => "tso",
            Request::Members(_) => "members",
        }
    }

    /// Sets the context of a request to a store, and keeps the api version that stood.
    pub fn set_context(&mut self, context: Context)
        ensures { self.new ≡ with_context context self.old }
    {
        match self {
            Request::Get(request) => keep_version(&mut request.context, context),
            Request::BatchGet(request) => keep_version(&mut request.context, context),
            Request::Scan(request) => keep_version(&mut request.context, context),
            Request::Prewrite(request) => keep_version(&mut request.context, context),
            Request::Commit(request) => keep_version(&mut request.context, context),
            Request::Cleanup(request) => keep_version(&mut request.context, context),
            Request::BatchRollback(request) => keep_version(&mut request.context, context),
            Request::PessimisticRollback(request) => keep_version(&mut request.context, context),
            Request::PessimisticLock(request) => keep_version(&mut request.context, context),
            Request::ResolveLock(request) => keep_version(&mut request.context, context),
            Request::ScanLock(request) => keep_version(&mut request.context, context),
            Request::TxnHeartBeat(request) => keep_version(&mut request.context, context),
            Request::CheckTxnStatus(request) => keep_version(&mut request.context, context),
            Request::CheckSecondaryLocks(request) => keep_version(&mut request.context, context),
            Request::UnsafeDestroyRange(request) => keep_version(&mut request.context, context),
            Request::GetRegion(_) => {}
            Request::GetRegionById(_) => {}
            Request::GetStore(_) => {}
            Request::GetAllStores(_) => {}
            Request::UpdateGcSafePoint(_) => {}
            Request::Tso(_) => {}
            Request::Members(_) => {}
        }
    }

    /// Sets the api version of a request to a store, in a default context where none stands.
    pub fn set_api_version(&mut self, api_version: ApiVersion)
        ensures { self.new ≡ with_api_version api_version self.old }
    {
        match self {
            Request::Get(request) => set_version(&mut request.context, api_version),
            Request::BatchGet(request) => set_version(&mut request.context, api_version),
            Request::Scan(request) => set_version(&mut request.context, api_version),
            Request::Prewrite(request) => set_version(&mut request.context, api_version),
            Request::Commit(request) => set_version(&mut request.context, api_version),
            Request::Cleanup(request) => set_version(&mut request.context, api_version),
            Request::BatchRollback(request) => set_version(&mut request.context, api_version),
            Request::PessimisticRollback(request) => set_version(&mut request.context, api_version),
            Request::PessimisticLock(request) => set_version(&mut request.context, api_version),
            Request::ResolveLock(request) => set_version(&mut request.context, api_version),
            Request::ScanLock(request) => set_version(&mut request.context, api_version),
            Request::TxnHeartBeat(request) => set_version(&mut request.context, api_version),
            Request::CheckTxnStatus(request) => set_version(&mut request.context, api_version),
            Request::CheckSecondaryLocks(request) => set_version(&mut request.context, api_version),
            Request::UnsafeDestroyRange(request) => set_version(&mut request.context, api_version),
            Request::GetRegion(_) => {}
            Request::GetRegionById(_) => {}
            Request::GetStore(_) => {}
            Request::GetAllStores(_) => {}
            Request::UpdateGcSafePoint(_) => {}
            Request::Tso(_) => {}
            Request::Members(_) => {}
        }
    }
}

/// Sets a context that keeps the api version that stood.
pub fn keep_version(slot: &mut Option<Context>, context: Context)
    ensures { slot.new ≡ Some (keeping_version slot.old context) }
{
    *slot = match *slot {
        None => Some(context),
        Some(stood) => Some(Context {
            api_version: stood.api_version,
            ..context
        }),
    };
}

/// Sets the api version of a context, or of a default one where none stands.
pub fn set_version(slot: &mut Option<Context>, api_version: ApiVersion)
    ensures { slot.new ≡ Some (versioned slot.old api_version) }
{
    let stood = slot.unwrap_or_default();
    *slot = Some(Context {
        api_version,
        ..stood
    });
}

impl Request {
    /// The same request, in new memory.
    pub fn try_clone(&self) -> Result<Request, NoMemory>
        ensures { IfOk result (λ copy. copy ≡ self.now) }
    {
        match self {
            Request::Get(request) => Ok(Request::Get(request.try_clone()?)),
            Request::BatchGet(request) => Ok(Request::BatchGet(request.try_clone()?)),
            Request::Scan(request) => Ok(Request::Scan(request.try_clone()?)),
            Request::Prewrite(request) => Ok(Request::Prewrite(request.try_clone()?)),
            Request::Commit(request) => Ok(Request::Commit(request.try_clone()?)),
            Request::Cleanup(request) => Ok(Request::Cleanup(request.try_clone()?)),
            Request::BatchRollback(request) => Ok(Request::BatchRollback(request.try_clone()?)),
            Request::PessimisticRollback(request) => Ok(Request::PessimisticRollback(
                request.try_clone()?,
            )),
            Request::PessimisticLock(request) => Ok(Request::PessimisticLock(request.try_clone()?)),
            Request::ResolveLock(request) => Ok(Request::ResolveLock(request.try_clone()?)),
            Request::ScanLock(request) => Ok(Request::ScanLock(request.try_clone()?)),
            Request::TxnHeartBeat(request) => Ok(Request::TxnHeartBeat(request.try_clone()?)),
            Request::CheckTxnStatus(request) => Ok(Request::CheckTxnStatus(request.try_clone()?)),
            Request::CheckSecondaryLocks(request) => Ok(Request::CheckSecondaryLocks(
                request.try_clone()?,
            )),
            Request::UnsafeDestroyRange(request) => Ok(Request::UnsafeDestroyRange(
                request.try_clone()?,
            )),
            Request::GetRegion(request) => Ok(Request::GetRegion(request.try_clone()?)),
            Request::GetRegionById(request) => Ok(Request::GetRegionById(*request)),
            Request::GetStore(request) => Ok(Request::GetStore(*request)),
            Request::GetAllStores(request) => Ok(Request::GetAllStores(*request)),
            Request::UpdateGcSafePoint(request) => Ok(Request::UpdateGcSafePoint(*request)),
            Request::Tso(request) => Ok(Request::Tso(*request)),
            Request::Members(request) => Ok(Request::Members(*request)),
        }
    }
}
