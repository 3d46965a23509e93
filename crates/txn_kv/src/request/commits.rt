//! Requests of those who write: prewrites, commits, rollbacks, and beats that keep locks alive.
ghost use Rattle.std.specs.Prelude.{◌≡◌, IfOk};

use crate::items::Items;
use crate::key::Key;
use crate::memory::NoMemory;
use crate::message::{Context, Mutation};
use crate::try_clone::TryClone;

/// Locks each mutated key, if none conflicts. `lock_ttl` is in milliseconds.
#[derive(Debug, PartialEq, Eq)]
pub struct PrewriteRequest {
    pub context: Option<Context>,
    pub mutations: Items<Mutation>,
    pub primary_lock: Key,
    pub start_version: u64,
    pub lock_ttl: u64,
    pub txn_size: u64,
    pub for_update_ts: u64,
    pub is_pessimistic_lock: Items<bool>,
    pub use_async_commit: bool,
    pub try_one_pc: bool,
    pub secondaries: Items<Key>,
}

impl Drop for PrewriteRequest {
    fn drop(self) {
        let PrewriteRequest {
            context: _,
            mutations,
            primary_lock,
            start_version: _,
            lock_ttl: _,
            txn_size: _,
            for_update_ts: _,
            is_pessimistic_lock,
            use_async_commit: _,
            try_one_pc: _,
            secondaries,
        } = self;
        drop(mutations);
        drop(primary_lock);
        drop(is_pessimistic_lock);
        drop(secondaries);
    }
}

impl PrewriteRequest {
    /// The same request, in new memory.
    pub fn try_clone(&self) -> Result<PrewriteRequest, NoMemory>
        ensures { IfOk result (λ copy. copy ≡ self.now) }
    {
        Ok(PrewriteRequest {
            context: self.context,
            mutations: self.mutations.try_clone()?,
            primary_lock: self.primary_lock.try_clone()?,
            start_version: self.start_version,
            lock_ttl: self.lock_ttl,
            txn_size: self.txn_size,
            for_update_ts: self.for_update_ts,
            is_pessimistic_lock: self.is_pessimistic_lock.try_clone()?,
            use_async_commit: self.use_async_commit,
            try_one_pc: self.try_one_pc,
            secondaries: self.secondaries.try_clone()?,
        })
    }
}

/// Makes commits of the locks that a start holds on these keys.
#[derive(Debug, PartialEq, Eq)]
pub struct CommitRequest {
    pub context: Option<Context>,
    pub keys: Items<Key>,
    pub start_version: u64,
    pub commit_version: u64,
}

impl Drop for CommitRequest {
    fn drop(self) {
        let CommitRequest {
            context: _,
            keys,
            start_version: _,
            commit_version: _,
        } = self;
        drop(keys);
    }
}

impl CommitRequest {
    /// The same request, in new memory.
    pub fn try_clone(&self) -> Result<CommitRequest, NoMemory>
        ensures { IfOk result (λ copy. copy ≡ self.now) }
    {
        Ok(CommitRequest {
            context: self.context,
            keys: self.keys.try_clone()?,
            start_version: self.start_version,
            commit_version: self.commit_version,
        })
    }
}

/// Rolls a start back on these keys.
#[derive(Debug, PartialEq, Eq)]
pub struct BatchRollbackRequest {
    pub context: Option<Context>,
    pub keys: Items<Key>,
    pub start_version: u64,
}

impl Drop for BatchRollbackRequest {
    fn drop(self) {
        let BatchRollbackRequest {
            context: _,
            keys,
            start_version: _,
        } = self;
        drop(keys);
    }
}

impl BatchRollbackRequest {
    /// The same request, in new memory.
    pub fn try_clone(&self) -> Result<BatchRollbackRequest, NoMemory>
        ensures { IfOk result (λ copy. copy ≡ self.now) }
    {
        Ok(BatchRollbackRequest {
            context: self.context,
            keys: self.keys.try_clone()?,
            start_version: self.start_version,
        })
    }
}

/// Lengthens the life of a primary lock.
#[derive(Debug, PartialEq, Eq)]
pub struct TxnHeartBeatRequest {
    pub context: Option<Context>,
    pub primary_lock: Key,
    pub start_version: u64,
    pub advise_lock_ttl: u64,
}

impl Drop for TxnHeartBeatRequest {
    fn drop(self) {
        let TxnHeartBeatRequest {
            context: _,
            primary_lock,
            start_version: _,
            advise_lock_ttl: _,
        } = self;
        drop(primary_lock);
    }
}

impl TxnHeartBeatRequest {
    /// The same request, in new memory.
    pub fn try_clone(&self) -> Result<TxnHeartBeatRequest, NoMemory>
        ensures { IfOk result (λ copy. copy ≡ self.now) }
    {
        Ok(TxnHeartBeatRequest {
            context: self.context,
            primary_lock: self.primary_lock.try_clone()?,
            start_version: self.start_version,
            advise_lock_ttl: self.advise_lock_ttl,
        })
    }
}
