//! Requests for and about locks.
ghost use Rattle.std.specs.Prelude.{◌≡◌, IfOk};

use crate::items::Items;
use crate::key::Key;
use crate::memory::NoMemory;
use crate::message::{Context, Mutation, TxnInfo};
use crate::try_clone::TryClone;

/// Rolls a start back at its primary, unless it is committed there.
#[derive(Debug, PartialEq, Eq)]
pub struct CleanupRequest {
    pub context: Option<Context>,
    pub key: Key,
    pub start_version: u64,
}

impl Drop for CleanupRequest {
    fn drop(self) {
        let CleanupRequest {
            context: _,
            key,
            start_version: _,
        } = self;
        drop(key);
    }
}

impl CleanupRequest {
    /// The same request, in new memory.
    pub fn try_clone(&self) -> Result<CleanupRequest, NoMemory>
        ensures { IfOk result (λ copy. copy ≡ self.now) }
    {
        Ok(CleanupRequest {
            context: self.context,
            key: self.key.try_clone()?,
            start_version: self.start_version,
        })
    }
}

/// Takes away the pessimistic locks that a start holds on these keys.
#[derive(Debug, PartialEq, Eq)]
pub struct PessimisticRollbackRequest {
    pub context: Option<Context>,
    pub keys: Items<Key>,
    pub start_version: u64,
    pub for_update_ts: u64,
}

impl Drop for PessimisticRollbackRequest {
    fn drop(self) {
        let PessimisticRollbackRequest {
            context: _,
            keys,
            start_version: _,
            for_update_ts: _,
        } = self;
        drop(keys);
    }
}

impl PessimisticRollbackRequest {
    /// The same request, in new memory.
    pub fn try_clone(&self) -> Result<PessimisticRollbackRequest, NoMemory>
        ensures { IfOk result (λ copy. copy ≡ self.now) }
    {
        Ok(PessimisticRollbackRequest {
            context: self.context,
            keys: self.keys.try_clone()?,
            start_version: self.start_version,
            for_update_ts: self.for_update_ts,
        })
    }
}

/// Locks keys before they are written, if none has a commit above `for_update_ts`.
#[derive(Debug, PartialEq, Eq)]
pub struct PessimisticLockRequest {
    pub context: Option<Context>,
    pub mutations: Items<Mutation>,
    pub primary_lock: Key,
    pub start_version: u64,
    pub lock_ttl: u64,
    pub for_update_ts: u64,
    pub is_first_lock: bool,
    pub wait_timeout: i64,
    pub return_values: bool,
    pub min_commit_ts: u64,
}

impl Drop for PessimisticLockRequest {
    fn drop(self) {
        let PessimisticLockRequest {
            context: _,
            mutations,
            primary_lock,
            start_version: _,
            lock_ttl: _,
            for_update_ts: _,
            is_first_lock: _,
            wait_timeout: _,
            return_values: _,
            min_commit_ts: _,
        } = self;
        drop(mutations);
        drop(primary_lock);
    }
}

impl PessimisticLockRequest {
    /// The same request, in new memory.
    pub fn try_clone(&self) -> Result<PessimisticLockRequest, NoMemory>
        ensures { IfOk result (λ copy. copy ≡ self.now) }
    {
        Ok(PessimisticLockRequest {
            context: self.context,
            mutations: self.mutations.try_clone()?,
            primary_lock: self.primary_lock.try_clone()?,
            start_version: self.start_version,
            lock_ttl: self.lock_ttl,
            for_update_ts: self.for_update_ts,
            is_first_lock: self.is_first_lock,
            wait_timeout: self.wait_timeout,
            return_values: self.return_values,
            min_commit_ts: self.min_commit_ts,
        })
    }
}

/// Settles the locks of starts in a region: those of `txn_infos`, or the one of `start_version` where that list is empty.
/// A start with a commit version of 0 is rolled back.
#[derive(Debug, PartialEq, Eq)]
pub struct ResolveLockRequest {
    pub context: Option<Context>,
    pub start_version: u64,
    pub commit_version: u64,
    pub txn_infos: Items<TxnInfo>,
}

impl Drop for ResolveLockRequest {
    fn drop(self) {
        let ResolveLockRequest {
            context: _,
            start_version: _,
            commit_version: _,
            txn_infos,
        } = self;
        drop(txn_infos);
    }
}

impl ResolveLockRequest {
    /// The same request, in new memory.
    pub fn try_clone(&self) -> Result<ResolveLockRequest, NoMemory>
        ensures { IfOk result (λ copy. copy ≡ self.now) }
    {
        Ok(ResolveLockRequest {
            context: self.context,
            start_version: self.start_version,
            commit_version: self.commit_version,
            txn_infos: self.txn_infos.try_clone()?,
        })
    }
}

/// Asks for the first `limit` locks of a range with a start of at most `max_version`.
#[derive(Debug, PartialEq, Eq)]
pub struct ScanLockRequest {
    pub context: Option<Context>,
    pub start_key: Key,
    pub end_key: Key,
    pub max_version: u64,
    pub limit: u32,
}

impl Drop for ScanLockRequest {
    fn drop(self) {
        let ScanLockRequest {
            context: _,
            start_key,
            end_key,
            max_version: _,
            limit: _,
        } = self;
        drop(start_key);
        drop(end_key);
    }
}

impl ScanLockRequest {
    /// The same request, in new memory.
    pub fn try_clone(&self) -> Result<ScanLockRequest, NoMemory>
        ensures { IfOk result (λ copy. copy ≡ self.now) }
    {
        Ok(ScanLockRequest {
            context: self.context,
            start_key: self.start_key.try_clone()?,
            end_key: self.end_key.try_clone()?,
            max_version: self.max_version,
            limit: self.limit,
        })
    }
}

/// Asks at the primary what became of the transaction that started at `lock_ts`, and rolls it back where its lock is
/// expired.
#[derive(Debug, PartialEq, Eq)]
pub struct CheckTxnStatusRequest {
    pub context: Option<Context>,
    pub primary_key: Key,
    pub lock_ts: u64,
    pub caller_start_ts: u64,
    pub current_ts: u64,
    pub rollback_if_not_exist: bool,
    pub force_sync_commit: bool,
    pub resolving_pessimistic_lock: bool,
}

impl Drop for CheckTxnStatusRequest {
    fn drop(self) {
        let CheckTxnStatusRequest {
            context: _,
            primary_key,
            lock_ts: _,
            caller_start_ts: _,
            current_ts: _,
            rollback_if_not_exist: _,
            force_sync_commit: _,
            resolving_pessimistic_lock: _,
        } = self;
        drop(primary_key);
    }
}

impl CheckTxnStatusRequest {
    /// The same request, in new memory.
    pub fn try_clone(&self) -> Result<CheckTxnStatusRequest, NoMemory>
        ensures { IfOk result (λ copy. copy ≡ self.now) }
    {
        Ok(CheckTxnStatusRequest {
            context: self.context,
            primary_key: self.primary_key.try_clone()?,
            lock_ts: self.lock_ts,
            caller_start_ts: self.caller_start_ts,
            current_ts: self.current_ts,
            rollback_if_not_exist: self.rollback_if_not_exist,
            force_sync_commit: self.force_sync_commit,
            resolving_pessimistic_lock: self.resolving_pessimistic_lock,
        })
    }
}

/// Asks for the locks that a start holds on these keys, and rolls it back where it holds none.
#[derive(Debug, PartialEq, Eq)]
pub struct CheckSecondaryLocksRequest {
    pub context: Option<Context>,
    pub keys: Items<Key>,
    pub start_version: u64,
}

impl Drop for CheckSecondaryLocksRequest {
    fn drop(self) {
        let CheckSecondaryLocksRequest {
            context: _,
            keys,
            start_version: _,
        } = self;
        drop(keys);
    }
}

impl CheckSecondaryLocksRequest {
    /// The same request, in new memory.
    pub fn try_clone(&self) -> Result<CheckSecondaryLocksRequest, NoMemory>
        ensures { IfOk result (λ copy. copy ≡ self.now) }
    {
        Ok(CheckSecondaryLocksRequest {
            context: self.context,
            keys: self.keys.try_clone()?,
            start_version: self.start_version,
        })
    }
}
