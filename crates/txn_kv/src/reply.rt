ghost use Rattle.std.specs.Prelude.{◌≡◌, ◌≢◌, IfOk, MatchResult};

pub mod cluster;
pub mod commits;
pub mod locks;
pub mod reads;

use crate::memory::NoMemory;
pub use cluster::{
    GetAllStoresResponse, GetRegionResponse, GetStoreResponse, MembersResponse, TsoResponse,
    UnsafeDestroyRangeResponse, UpdateGcSafePointResponse,
};
pub use commits::{BatchRollbackResponse, CommitResponse, PrewriteResponse, TxnHeartBeatResponse};
pub use locks::{
    CheckSecondaryLocksResponse, CheckTxnStatusResponse, CleanupResponse, PessimisticLockResponse,
    PessimisticRollbackResponse, ResolveLockResponse, ScanLockResponse,
};
pub use reads::{BatchGetResponse, GetResponse, ScanResponse};

/// What answers a request of the same name. `GetRegionById` is answered by a `GetRegionResponse`.
#[derive(Debug, PartialEq, Eq)]
pub enum Reply {
    Get(GetResponse),
    BatchGet(BatchGetResponse),
    Scan(ScanResponse),
    Prewrite(PrewriteResponse),
    Commit(CommitResponse),
    Cleanup(CleanupResponse),
    BatchRollback(BatchRollbackResponse),
    PessimisticRollback(PessimisticRollbackResponse),
    PessimisticLock(PessimisticLockResponse),
    ResolveLock(ResolveLockResponse),
    ScanLock(ScanLockResponse),
    TxnHeartBeat(TxnHeartBeatResponse),
    CheckTxnStatus(CheckTxnStatusResponse),
    CheckSecondaryLocks(CheckSecondaryLocksResponse),
    UnsafeDestroyRange(UnsafeDestroyRangeResponse),
    GetRegion(GetRegionResponse),
    GetRegionById(GetRegionResponse),
    GetStore(GetStoreResponse),
    GetAllStores(GetAllStoresResponse),
    UpdateGcSafePoint(UpdateGcSafePointResponse),
    Tso(TsoResponse),
    Members(MembersResponse),
}

/// Each kind by one call: a derived drop is proved anew in each crate above, and for so many kinds that takes hours.
impl Drop for Reply {
    fn drop(self) {
        match self {
            Reply::Get(reply) => drop(reply),
            Reply::BatchGet(reply) => drop(reply),
            Reply::Scan(reply) => drop(reply),
            Reply::Prewrite(reply) => drop(reply),
            Reply::Commit(reply) => drop(reply),
            Reply::Cleanup(reply) => drop(reply),
            Reply::BatchRollback(reply) => drop(reply),
            Reply::PessimisticRollback(reply) => drop(reply),
            Reply::PessimisticLock(reply) => drop(reply),
            Reply::ResolveLock(reply) => drop(reply),
            Reply::ScanLock(reply) => drop(reply),
            Reply::TxnHeartBeat(reply) => drop(reply),
            Reply::CheckTxnStatus(reply) => drop(reply),
            Reply::CheckSecondaryLocks(reply) => drop(reply),
            Reply::UnsafeDestroyRange(reply) => drop(reply),
            Reply::GetRegion(reply) => drop(reply),
            Reply::GetRegionById(reply) => drop(reply),
            Reply::GetStore(reply) => drop(reply),
            Reply::GetAllStores(reply) => drop(reply),
            Reply::UpdateGcSafePoint(reply) => drop(reply),
            Reply::Tso(reply) => drop(reply),
            Reply::Members(reply) => drop(reply),
        }
    }
}

/// A reply as one of its kind, or back where it is of another.
impl Reply {
    pub fn into_get(self) -> Result<GetResponse, Reply>
        ensures { MatchResult result (λ reply. self ≡ Reply.Get reply) (λ other. (other ≡ self) × ((reply : GetResponse) → self ≢ Reply.Get reply)) }
    {
        match self {
            Reply::Get(reply) => Ok(reply),
            other => Err(other),
        }
    }

    pub fn into_batch_get(self) -> Result<BatchGetResponse, Reply>
        ensures { MatchResult result (λ reply. self ≡ Reply.BatchGet reply) (λ other. (other ≡ self) × ((reply : BatchGetResponse) → self ≢ Reply.BatchGet reply)) }
    {
        match self {
            Reply::BatchGet(reply) => Ok(reply),
            other => Err(other),
        }
    }

    pub fn into_scan(self) -> Result<ScanResponse, Reply>
        ensures { MatchResult result (λ reply. self ≡ Reply.Scan reply) (λ other. (other ≡ self) × ((reply : ScanResponse) → self ≢ Reply.Scan reply)) }
    {
        match self {
            Reply::Scan(reply) => Ok(reply),
            other => Err(other),
        }
    }

    pub fn into_prewrite(self) -> Result<PrewriteResponse, Reply>
        ensures { MatchResult result (λ reply. self ≡ Reply.Prewrite reply) (λ other. (other ≡ self) × ((reply : PrewriteResponse) → self ≢ Reply.Prewrite reply)) }
    {
        match self {
            Reply::Prewrite(reply) => Ok(reply),
            other => Err(other),
        }
    }

    pub fn into_commit(self) -> Result<CommitResponse, Reply>
        ensures { MatchResult result (λ reply. self ≡ Reply.Commit reply) (λ other. (other ≡ self) × ((reply : CommitResponse) → self ≢ Reply.Commit reply)) }
    {
        match self {
            Reply::Commit(reply) => Ok(reply),
            other => Err(other),
        }
    }

    pub fn into_cleanup(self) -> Result<CleanupResponse, Reply>
        ensures { MatchResult result (λ reply. self ≡ Reply.Cleanup reply) (λ other. (other ≡ self) × ((reply : CleanupResponse) → self ≢ Reply.Cleanup reply)) }
    {
        match self {
            Reply::Cleanup(reply) => Ok(reply),
            other => Err(other),
        }
    }

    pub fn into_batch_rollback(self) -> Result<BatchRollbackResponse, Reply>
        ensures { MatchResult result (λ reply. self ≡ Reply.BatchRollback reply) (λ other. (other ≡ self) × ((reply : BatchRollbackResponse) → self ≢ Reply.BatchRollback reply)) }
    {
        match self {
            Reply::BatchRollback(reply) => Ok(reply),
            other => Err(other),
        }
    }

    pub fn into_pessimistic_rollback(self) -> Result<PessimisticRollbackResponse, Reply>
        ensures { MatchResult result (λ reply. self ≡ Reply.PessimisticRollback reply) (λ other. (other ≡ self) × ((reply : PessimisticRollbackResponse) → self ≢ Reply.PessimisticRollback reply)) }
    {
        match self {
            Reply::PessimisticRollback(reply) => Ok(reply),
            other => Err(other),
        }
    }

    pub fn into_pessimistic_lock(self) -> Result<PessimisticLockResponse, Reply>
        ensures { MatchResult result (λ reply. self ≡ Reply.PessimisticLock reply) (λ other. (other ≡ self) × ((reply : PessimisticLockResponse) → self ≢ Reply.PessimisticLock reply)) }
    {
        match self {
            Reply::PessimisticLock(reply) => Ok(reply),
            other => Err(other),
        }
    }

    pub fn into_resolve_lock(self) -> Result<ResolveLockResponse, Reply>
        ensures { MatchResult result (λ reply. self ≡ Reply.ResolveLock reply) (λ other. (other ≡ self) × ((reply : ResolveLockResponse) → self ≢ Reply.ResolveLock reply)) }
    {
        match self {
            Reply::ResolveLock(reply) => Ok(reply),
            other => Err(other),
        }
    }

    pub fn into_scan_lock(self) -> Result<ScanLockResponse, Reply>
        ensures { MatchResult result (λ reply. self ≡ Reply.ScanLock reply) (λ other. (other ≡ self) × ((reply : ScanLockResponse) → self ≢ Reply.ScanLock reply)) }
    {
        match self {
            Reply::ScanLock(reply) => Ok(reply),
            other => Err(other),
        }
    }

    pub fn into_txn_heart_beat(self) -> Result<TxnHeartBeatResponse, Reply>
        ensures { MatchResult result (λ reply. self ≡ Reply.TxnHeartBeat reply) (λ other. (other ≡ self) × ((reply : TxnHeartBeatResponse) → self ≢ Reply.TxnHeartBeat reply)) }
    {
        match self {
            Reply::TxnHeartBeat(reply) => Ok(reply),
            other => Err(other),
        }
    }

    pub fn into_check_txn_status(self) -> Result<CheckTxnStatusResponse, Reply>
        ensures { MatchResult result (λ reply. self ≡ Reply.CheckTxnStatus reply) (λ other. (other ≡ self) × ((reply : CheckTxnStatusResponse) → self ≢ Reply.CheckTxnStatus reply)) }
    {
        match self {
            Reply::CheckTxnStatus(reply) => Ok(reply),
            other => Err(other),
        }
    }

    pub fn into_check_secondary_locks(self) -> Result<CheckSecondaryLocksResponse, Reply>
        ensures { MatchResult result (λ reply. self ≡ Reply.CheckSecondaryLocks reply) (λ other. (other ≡ self) × ((reply : CheckSecondaryLocksResponse) → self ≢ Reply.CheckSecondaryLocks reply)) }
    {
        match self {
            Reply::CheckSecondaryLocks(reply) => Ok(reply),
            other => Err(other),
        }
    }

    pub fn into_unsafe_destroy_range(self) -> Result<UnsafeDestroyRangeResponse, Reply>
        ensures { MatchResult result (λ reply. self ≡ Reply.UnsafeDestroyRange reply) (λ other. (other ≡ self) × ((reply : UnsafeDestroyRangeResponse) → self ≢ Reply.UnsafeDestroyRange reply)) }
    {
        match self {
            Reply::UnsafeDestroyRange(reply) => Ok(reply),
            other => Err(other),
        }
    }

    pub fn into_get_region(self) -> Result<GetRegionResponse, Reply>
        ensures { MatchResult result (λ reply. self ≡ Reply.GetRegion reply) (λ other. (other ≡ self) × ((reply : GetRegionResponse) → self ≢ Reply.GetRegion reply)) }
    {
        match self {
            Reply::GetRegion(reply) => Ok(reply),
            other => Err(other),
        }
    }

    pub fn into_get_region_by_id(self) -> Result<GetRegionResponse, Reply>
        ensures { MatchResult result (λ reply. self ≡ Reply.GetRegionById reply) (λ other. (other ≡ self) × ((reply : GetRegionResponse) → self ≢ Reply.GetRegionById reply)) }
    {
        match self {
            Reply::GetRegionById(reply) => Ok(reply),
            other => Err(other),
        }
    }

    pub fn into_get_store(self) -> Result<GetStoreResponse, Reply>
        ensures { MatchResult result (λ reply. self ≡ Reply.GetStore reply) (λ other. (other ≡ self) × ((reply : GetStoreResponse) → self ≢ Reply.GetStore reply)) }
    {
        match self {
            Reply::GetStore(reply) => Ok(reply),
            other => Err(other),
        }
    }

    pub fn into_get_all_stores(self) -> Result<GetAllStoresResponse, Reply>
        ensures { MatchResult result (λ reply. self ≡ Reply.GetAllStores reply) (λ other. (other ≡ self) × ((reply : GetAllStoresResponse) → self ≢ Reply.GetAllStores reply)) }
    {
        match self {
            Reply::GetAllStores(reply) => Ok(reply),
            other => Err(other),
        }
    }

    pub fn into_update_gc_safe_point(self) -> Result<UpdateGcSafePointResponse, Reply>
        ensures { MatchResult result (λ reply. self ≡ Reply.UpdateGcSafePoint reply) (λ other. (other ≡ self) × ((reply : UpdateGcSafePointResponse) → self ≢ Reply.UpdateGcSafePoint reply)) }
    {
        match self {
            Reply::UpdateGcSafePoint(reply) => Ok(reply),
            other => Err(other),
        }
    }

    pub fn into_tso(self) -> Result<TsoResponse, Reply>
        ensures { MatchResult result (λ reply. self ≡ Reply.Tso reply) (λ other. (other ≡ self) × ((reply : TsoResponse) → self ≢ Reply.Tso reply)) }
    {
        match self {
            Reply::Tso(reply) => Ok(reply),
            other => Err(other),
        }
    }

    pub fn into_members(self) -> Result<MembersResponse, Reply>
        ensures { MatchResult result (λ reply. self ≡ Reply.Members reply) (λ other. (other ≡ self) × ((reply : MembersResponse) → self ≢ Reply.Members reply)) }
    {
        match self {
            Reply::Members(reply) => Ok(reply),
            other => Err(other),
        }
    }
}

impl Reply {
    /// The same reply, in new memory.
    pub fn try_clone(&self) -> Result<Reply, NoMemory>
        ensures { IfOk result (λ copy. copy ≡ self.now) }
    {
        match self {
            Reply::Get(reply) => Ok(Reply::Get(reply.try_clone()?)),
            Reply::BatchGet(reply) => Ok(Reply::BatchGet(reply.try_clone()?)),
            Reply::Scan(reply) => Ok(Reply::Scan(reply.try_clone()?)),
            Reply::Prewrite(reply) => Ok(Reply::Prewrite(reply.try_clone()?)),
            Reply::Commit(reply) => Ok(Reply::Commit(reply.try_clone()?)),
            Reply::Cleanup(reply) => Ok(Reply::Cleanup(reply.try_clone()?)),
            Reply::BatchRollback(reply) => Ok(Reply::BatchRollback(reply.try_clone()?)),
            Reply::PessimisticRollback(reply) => Ok(Reply::PessimisticRollback(reply.try_clone()?)),
            Reply::PessimisticLock(reply) => Ok(Reply::PessimisticLock(reply.try_clone()?)),
            Reply::ResolveLock(reply) => Ok(Reply::ResolveLock(reply.try_clone()?)),
            Reply::ScanLock(reply) => Ok(Reply::ScanLock(reply.try_clone()?)),
            Reply::TxnHeartBeat(reply) => Ok(Reply::TxnHeartBeat(reply.try_clone()?)),
            Reply::CheckTxnStatus(reply) => Ok(Reply::CheckTxnStatus(reply.try_clone()?)),
            Reply::CheckSecondaryLocks(reply) => Ok(Reply::CheckSecondaryLocks(reply.try_clone()?)),
            Reply::UnsafeDestroyRange(reply) => Ok(Reply::UnsafeDestroyRange(reply.try_clone()?)),
            Reply::GetRegion(reply) => Ok(Reply::GetRegion(reply.try_clone()?)),
            Reply::GetRegionById(reply) => Ok(Reply::GetRegionById(reply.try_clone()?)),
            Reply::GetStore(reply) => Ok(Reply::GetStore(reply.try_clone()?)),
            Reply::GetAllStores(reply) => Ok(Reply::GetAllStores(reply.try_clone()?)),
            Reply::UpdateGcSafePoint(reply) => Ok(Reply::UpdateGcSafePoint(*reply)),
            Reply::Tso(reply) => Ok(Reply::Tso(*reply)),
            Reply::Members(reply) => Ok(Reply::Members(*reply)),
        }
    }
}
