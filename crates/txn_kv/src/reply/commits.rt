//! Replies to those who write: to prewrites, commits, rollbacks, and beats that keep locks alive.
ghost use Rattle.std.specs.Prelude.{◌≡◌, IfOk};

use crate::items::Items;
use crate::memory::NoMemory;
use crate::message::{KeyError, RegionErr};
use crate::try_clone::TryClone;

#[derive(Debug, PartialEq, Eq)]
pub struct PrewriteResponse {
    pub region_error: Option<RegionErr>,
    pub errors: Items<KeyError>,
    pub min_commit_ts: u64,
    pub one_pc_commit_ts: u64,
}

impl Drop for PrewriteResponse {
    fn drop(self) {
        let PrewriteResponse {
            region_error,
            errors,
            min_commit_ts: _,
            one_pc_commit_ts: _,
        } = self;
        drop(region_error);
        drop(errors);
    }
}

impl PrewriteResponse {
    /// The same reply, in new memory.
    pub fn try_clone(&self) -> Result<PrewriteResponse, NoMemory>
        ensures { IfOk result (λ copy. copy ≡ self.now) }
    {
        Ok(PrewriteResponse {
            region_error: self.region_error.try_clone()?,
            errors: self.errors.try_clone()?,
            min_commit_ts: self.min_commit_ts,
            one_pc_commit_ts: self.one_pc_commit_ts,
        })
    }
}

#[derive(Debug, PartialEq, Eq)]
pub struct CommitResponse {
    pub region_error: Option<RegionErr>,
    pub error: Option<KeyError>,
    pub commit_version: u64,
}

impl Drop for CommitResponse {
    fn drop(self) {
        let CommitResponse {
            region_error,
            error,
            commit_version: _,
        } = self;
        drop(region_error);
        drop(error);
    }
}

impl CommitResponse {
    /// The same reply, in new memory.
    pub fn try_clone(&self) -> Result<CommitResponse, NoMemory>
        ensures { IfOk result (λ copy. copy ≡ self.now) }
    {
        Ok(CommitResponse {
            region_error: self.region_error.try_clone()?,
            error: self.error.try_clone()?,
            commit_version: self.commit_version,
        })
    }
}

#[derive(Debug, PartialEq, Eq)]
pub struct BatchRollbackResponse {
    pub region_error: Option<RegionErr>,
    pub error: Option<KeyError>,
}

impl Drop for BatchRollbackResponse {
    fn drop(self) {
        let BatchRollbackResponse {
            region_error,
            error,
        } = self;
        drop(region_error);
        drop(error);
    }
}

impl BatchRollbackResponse {
    /// The same reply, in new memory.
    pub fn try_clone(&self) -> Result<BatchRollbackResponse, NoMemory>
        ensures { IfOk result (λ copy. copy ≡ self.now) }
    {
        Ok(BatchRollbackResponse {
            region_error: self.region_error.try_clone()?,
            error: self.error.try_clone()?,
        })
    }
}

#[derive(Debug, PartialEq, Eq)]
pub struct TxnHeartBeatResponse {
    pub region_error: Option<RegionErr>,
    pub error: Option<KeyError>,
    pub lock_ttl: u64,
}

impl Drop for TxnHeartBeatResponse {
    fn drop(self) {
        let TxnHeartBeatResponse {
            region_error,
            error,
            lock_ttl: _,
        } = self;
        drop(region_error);
        drop(error);
    }
}

impl TxnHeartBeatResponse {
    /// The same reply, in new memory.
    pub fn try_clone(&self) -> Result<TxnHeartBeatResponse, NoMemory>
        ensures { IfOk result (λ copy. copy ≡ self.now) }
    {
        Ok(TxnHeartBeatResponse {
            region_error: self.region_error.try_clone()?,
            error: self.error.try_clone()?,
            lock_ttl: self.lock_ttl,
        })
    }
}
