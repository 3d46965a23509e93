//! Replies for and about locks.
ghost use Rattle.std.specs.Prelude.{◌≡◌, IfOk};

use crate::items::{Items, Value};
use crate::memory::NoMemory;
use crate::message::{Action, KeyError, LockInfo, RegionErr};
use crate::try_clone::TryClone;

/// `commit_version` is 0 where the start is rolled back.
#[derive(Debug, PartialEq, Eq)]
pub struct CleanupResponse {
    pub region_error: Option<RegionErr>,
    pub error: Option<KeyError>,
    pub commit_version: u64,
}

impl Drop for CleanupResponse {
    fn drop(self) {
        let CleanupResponse {
            region_error,
            error,
            commit_version: _,
        } = self;
        drop(region_error);
        drop(error);
    }
}

impl CleanupResponse {
    /// The same reply, in new memory.
    pub fn try_clone(&self) -> Result<CleanupResponse, NoMemory>
        ensures { IfOk result (λ copy. copy ≡ self.now) }
    {
        Ok(CleanupResponse {
            region_error: self.region_error.try_clone()?,
            error: self.error.try_clone()?,
            commit_version: self.commit_version,
        })
    }
}

#[derive(Debug, PartialEq, Eq)]
pub struct PessimisticRollbackResponse {
    pub region_error: Option<RegionErr>,
    pub errors: Items<KeyError>,
}

impl Drop for PessimisticRollbackResponse {
    fn drop(self) {
        let PessimisticRollbackResponse {
            region_error,
            errors,
        } = self;
        drop(region_error);
        drop(errors);
    }
}

impl PessimisticRollbackResponse {
    /// The same reply, in new memory.
    pub fn try_clone(&self) -> Result<PessimisticRollbackResponse, NoMemory>
        ensures { IfOk result (λ copy. copy ≡ self.now) }
    {
        Ok(PessimisticRollbackResponse {
            region_error: self.region_error.try_clone()?,
            errors: self.errors.try_clone()?,
        })
    }
}

/// Values and flags stand in the order of the mutations, where they were asked for.
#[derive(Debug, PartialEq, Eq)]
pub struct PessimisticLockResponse {
    pub region_error: Option<RegionErr>,
    pub errors: Items<KeyError>,
    pub values: Items<Value>,
    pub not_founds: Items<bool>,
}

impl Drop for PessimisticLockResponse {
    fn drop(self) {
        let PessimisticLockResponse {
            region_error,
            errors,
            values,
            not_founds,
        } = self;
        drop(region_error);
        drop(errors);
        drop(values);
        drop(not_founds);
    }
}

impl PessimisticLockResponse {
    pub fn into_values(self) -> (Items<Value>, Items<bool>)
        ensures values { result.0 ≡ self.values }
        ensures not_founds { result.1 ≡ self.not_founds }
    {
        let PessimisticLockResponse {
            region_error,
            errors,
            values,
            not_founds,
        } = self;
        drop(region_error);
        drop(errors);
        (values, not_founds)
    }

    /// The same reply, in new memory.
    pub fn try_clone(&self) -> Result<PessimisticLockResponse, NoMemory>
        ensures { IfOk result (λ copy. copy ≡ self.now) }
    {
        Ok(PessimisticLockResponse {
            region_error: self.region_error.try_clone()?,
            errors: self.errors.try_clone()?,
            values: self.values.try_clone()?,
            not_founds: self.not_founds.try_clone()?,
        })
    }
}

#[derive(Debug, PartialEq, Eq)]
pub struct ResolveLockResponse {
    pub region_error: Option<RegionErr>,
    pub error: Option<KeyError>,
}

impl Drop for ResolveLockResponse {
    fn drop(self) {
        let ResolveLockResponse {
            region_error,
            error,
        } = self;
        drop(region_error);
        drop(error);
    }
}

impl ResolveLockResponse {
    /// The same reply, in new memory.
    pub fn try_clone(&self) -> Result<ResolveLockResponse, NoMemory>
        ensures { IfOk result (λ copy. copy ≡ self.now) }
    {
        Ok(ResolveLockResponse {
            region_error: self.region_error.try_clone()?,
            error: self.error.try_clone()?,
        })
    }
}

#[derive(Debug, PartialEq, Eq)]
pub struct ScanLockResponse {
    pub region_error: Option<RegionErr>,
    pub error: Option<KeyError>,
    pub locks: Items<LockInfo>,
}

impl Drop for ScanLockResponse {
    fn drop(self) {
        let ScanLockResponse {
            region_error,
            error,
            locks,
        } = self;
        drop(region_error);
        drop(error);
        drop(locks);
    }
}

impl ScanLockResponse {
    pub fn into_locks(self) -> Items<LockInfo>
        ensures { result ≡ self.locks }
    {
        let ScanLockResponse {
            region_error,
            error,
            locks,
        } = self;
        drop(region_error);
        drop(error);
        locks
    }

    /// The same reply, in new memory.
    pub fn try_clone(&self) -> Result<ScanLockResponse, NoMemory>
        ensures { IfOk result (λ copy. copy ≡ self.now) }
    {
        Ok(ScanLockResponse {
            region_error: self.region_error.try_clone()?,
            error: self.error.try_clone()?,
            locks: self.locks.try_clone()?,
        })
    }
}

#[derive(Debug, PartialEq, Eq)]
pub struct CheckTxnStatusResponse {
    pub region_error: Option<RegionErr>,
    pub error: Option<KeyError>,
    pub lock_ttl: u64,
    pub commit_version: u64,
    pub action: Action,
    pub lock_info: Option<LockInfo>,
}

impl Drop for CheckTxnStatusResponse {
    fn drop(self) {
        let CheckTxnStatusResponse {
            region_error,
            error,
            lock_ttl: _,
            commit_version: _,
            action: _,
            lock_info,
        } = self;
        drop(region_error);
        drop(error);
        drop(lock_info);
    }
}

impl CheckTxnStatusResponse {
    pub fn into_lock_info(self) -> Option<LockInfo>
        ensures { result ≡ self.lock_info }
    {
        let CheckTxnStatusResponse {
            region_error,
            error,
            lock_ttl: _,
            commit_version: _,
            action: _,
            lock_info,
        } = self;
        drop(region_error);
        drop(error);
        lock_info
    }

    /// The same reply, in new memory.
    pub fn try_clone(&self) -> Result<CheckTxnStatusResponse, NoMemory>
        ensures { IfOk result (λ copy. copy ≡ self.now) }
    {
        Ok(CheckTxnStatusResponse {
            region_error: self.region_error.try_clone()?,
            error: self.error.try_clone()?,
            lock_ttl: self.lock_ttl,
            commit_version: self.commit_version,
            action: self.action,
            lock_info: self.lock_info.try_clone()?,
        })
    }
}

/// `missing` is true where the start is rolled back on some key.
#[derive(Debug, PartialEq, Eq)]
pub struct CheckSecondaryLocksResponse {
    pub region_error: Option<RegionErr>,
    pub error: Option<KeyError>,
    pub locks: Items<LockInfo>,
    pub commit_ts: u64,
    pub missing: bool,
}

impl Drop for CheckSecondaryLocksResponse {
    fn drop(self) {
        let CheckSecondaryLocksResponse {
            region_error,
            error,
            locks,
            commit_ts: _,
            missing: _,
        } = self;
        drop(region_error);
        drop(error);
        drop(locks);
    }
}

impl CheckSecondaryLocksResponse {
    /// The same reply, in new memory.
    pub fn try_clone(&self) -> Result<CheckSecondaryLocksResponse, NoMemory>
        ensures { IfOk result (λ copy. copy ≡ self.now) }
    {
        Ok(CheckSecondaryLocksResponse {
            region_error: self.region_error.try_clone()?,
            error: self.error.try_clone()?,
            locks: self.locks.try_clone()?,
            commit_ts: self.commit_ts,
            missing: self.missing,
        })
    }
}
