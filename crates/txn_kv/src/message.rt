ghost use Rattle.std.specs.Prelude.{◌≡◌, ◌≢◌, MatchResult};

use crate::items::{Items, Value};
use crate::key::Key;
use crate::memory::NoMemory;
use crate::text::Text;
use crate::try_clone::TryClone;

/// A replica of a region on a store.
#[derive(Clone, Copy, Debug, Default, PartialEq, Eq)]
pub struct Peer {
    pub id: u64,
    pub store_id: u64,
}

/// How often a region's members and its range were changed.
#[derive(Clone, Copy, Debug, Default, PartialEq, Eq)]
pub struct RegionEpoch {
    pub conf_ver: u64,
    pub version: u64,
}

/// A range of keys that moves as one. An empty end is unbounded.
#[derive(Debug, PartialEq, Eq)]
pub struct Region {
    pub id: u64,
    pub start_key: Key,
    pub end_key: Key,
    pub region_epoch: Option<RegionEpoch>,
}

/// By one call, here and below: a derived drop is opened at each exit that holds such a value, in each crate above.
impl Drop for Region {
    fn drop(self) {
        let Region {
            id: _,
            start_key,
            end_key,
            region_epoch: _,
        } = self;
        drop(start_key);
        drop(end_key);
    }
}

impl Region {
    /// The start and the end.
    pub fn into_keys(self) -> (Key, Key)
        ensures start { result.0 ≡ self.start_key }
        ensures end { result.1 ≡ self.end_key }
    {
        let Region {
            id: _,
            start_key,
            end_key,
            region_epoch: _,
        } = self;
        (start_key, end_key)
    }
}

impl TryClone for Region {
    fn try_clone(&self) -> Result<Region, NoMemory> {
        Ok(Region {
            id: self.id,
            start_key: self.start_key.try_clone()?,
            end_key: self.end_key.try_clone()?,
            region_epoch: self.region_epoch,
        })
    }
}

#[derive(Clone, Copy, Debug, Default, PartialEq, Eq)]
pub enum StoreState {
    #[default]
    Up,
    Offline,
    Tombstone,
}

#[derive(Debug, PartialEq, Eq)]
pub struct StoreLabel {
    pub key: Text,
    pub value: Text,
}

impl Drop for StoreLabel {
    fn drop(self) {
        let StoreLabel { key, value } = self;
        drop(key);
        drop(value);
    }
}

impl TryClone for StoreLabel {
    fn try_clone(&self) -> Result<StoreLabel, NoMemory> {
        Ok(StoreLabel {
            key: self.key.try_clone()?,
            value: self.value.try_clone()?,
        })
    }
}

/// What the placement driver knows of a store.
#[derive(Debug, PartialEq, Eq)]
pub struct StoreMeta {
    pub id: u64,
    pub address: Text,
    pub state: StoreState,
    pub labels: Items<StoreLabel>,
}

impl Drop for StoreMeta {
    fn drop(self) {
        let StoreMeta {
            id: _,
            address,
            state: _,
            labels,
        } = self;
        drop(address);
        drop(labels);
    }
}

impl TryClone for StoreMeta {
    fn try_clone(&self) -> Result<StoreMeta, NoMemory> {
        Ok(StoreMeta {
            id: self.id,
            address: self.address.try_clone()?,
            state: self.state,
            labels: self.labels.try_clone()?,
        })
    }
}

#[derive(Clone, Copy, Debug, Default, PartialEq, Eq)]
pub enum ApiVersion {
    #[default]
    V1,
    V1ttl,
    V2,
}

/// The region, as the sender knows it, that a request to a store is for.
#[derive(Clone, Copy, Debug, Default, PartialEq, Eq)]
pub struct Context {
    pub region_id: u64,
    pub region_epoch: Option<RegionEpoch>,
    pub peer: Option<Peer>,
    pub api_version: ApiVersion,
}

/// A range of keys, the end left out. An empty end is unbounded.
#[derive(Debug, PartialEq, Eq)]
pub struct KeyRange {
    pub start_key: Key,
    pub end_key: Key,
}

impl Drop for KeyRange {
    fn drop(self) {
        let KeyRange { start_key, end_key } = self;
        drop(start_key);
        drop(end_key);
    }
}

impl KeyRange {
    /// The start and the end.
    pub fn into_keys(self) -> (Key, Key)
        ensures start { result.0 ≡ self.start_key }
        ensures end { result.1 ≡ self.end_key }
    {
        let KeyRange { start_key, end_key } = self;
        (start_key, end_key)
    }
}

impl TryClone for KeyRange {
    fn try_clone(&self) -> Result<KeyRange, NoMemory> {
        Ok(KeyRange {
            start_key: self.start_key.try_clone()?,
            end_key: self.end_key.try_clone()?,
        })
    }
}

/// What became of the transaction that started at `txn`: its commit timestamp, or 0.
#[derive(Clone, Copy, Debug, Default, PartialEq, Eq)]
pub struct TxnInfo {
    pub txn: u64,
    pub status: u64,
}

impl TryClone for TxnInfo {
    fn try_clone(&self) -> Result<TxnInfo, NoMemory> {
        Ok(*self)
    }
}

/// What a mutation does to its key.
#[derive(Clone, Copy, Debug, PartialEq, Eq)]
pub enum Op {
    Put,
    Del,
    Lock,
    Rollback,
    Insert,
    PessimisticLock,
    CheckNotExists,
}

#[derive(Clone, Copy, Debug, Default, PartialEq, Eq)]
pub enum Assertion {
    #[default]
    None,
    Exist,
    NotExist,
}

#[derive(Debug, PartialEq, Eq)]
pub struct Mutation {
    pub op: Op,
    pub key: Key,
    pub value: Value,
    pub assertion: Assertion,
}

impl Drop for Mutation {
    fn drop(self) {
        let Mutation {
            op: _,
            key,
            value,
            assertion: _,
        } = self;
        drop(key);
        drop(value);
    }
}

impl Mutation {
    /// The key and the value.
    pub fn into_parts(self) -> (Key, Value)
        ensures key { result.0 ≡ self.key }
        ensures value { result.1 ≡ self.value }
    {
        let Mutation {
            op: _,
            key,
            value,
            assertion: _,
        } = self;
        (key, value)
    }

    pub fn into_key(self) -> Key
        ensures { result ≡ self.key }
    {
        self.into_parts().0
    }
}

impl TryClone for Mutation {
    fn try_clone(&self) -> Result<Mutation, NoMemory> {
        Ok(Mutation {
            op: self.op,
            key: self.key.try_clone()?,
            value: self.value.try_clone()?,
            assertion: self.assertion,
        })
    }
}

impl AsRef<Key> for Mutation {
    fn as_ref(&self) -> &Key
        ensures { result.now ≡ self.now.key }
    {
        &self.key
    }
}

/// A lock, as a reply shows it. `lock_version` is the start of its transaction, `lock_ttl` is in milliseconds.
#[derive(Debug, PartialEq, Eq)]
pub struct LockInfo {
    pub key: Key,
    pub primary_lock: Key,
    pub lock_version: u64,
    pub lock_ttl: u64,
    pub lock_type: Op,
    pub lock_for_update_ts: u64,
    pub use_async_commit: bool,
    pub min_commit_ts: u64,
    pub secondaries: Items<Key>,
}

impl Drop for LockInfo {
    fn drop(self) {
        let LockInfo {
            key,
            primary_lock,
            lock_version: _,
            lock_ttl: _,
            lock_type: _,
            lock_for_update_ts: _,
            use_async_commit: _,
            min_commit_ts: _,
            secondaries,
        } = self;
        drop(key);
        drop(primary_lock);
        drop(secondaries);
    }
}

impl TryClone for LockInfo {
    fn try_clone(&self) -> Result<LockInfo, NoMemory> {
        Ok(LockInfo {
            key: self.key.try_clone()?,
            primary_lock: self.primary_lock.try_clone()?,
            lock_version: self.lock_version,
            lock_ttl: self.lock_ttl,
            lock_type: self.lock_type,
            lock_for_update_ts: self.lock_for_update_ts,
            use_async_commit: self.use_async_commit,
            min_commit_ts: self.min_commit_ts,
            secondaries: self.secondaries.try_clone()?,
        })
    }
}

/// A key and its value, or why the key could not be read.
#[derive(Debug, PartialEq, Eq)]
pub struct PbPair {
    pub error: Option<KeyError>,
    pub key: Key,
    pub value: Value,
}

impl Drop for PbPair {
    fn drop(self) {
        let PbPair { error, key, value } = self;
        drop(error);
        drop(key);
        drop(value);
    }
}

impl PbPair {
    /// The error, the key and the value.
    pub fn into_parts(self) -> (Option<KeyError>, Key, Value)
        ensures error { result.0 ≡ self.error }
        ensures key { result.1 ≡ self.key }
        ensures value { result.2 ≡ self.value }
    {
        let PbPair { error, key, value } = self;
        (error, key, value)
    }
}

impl TryClone for PbPair {
    fn try_clone(&self) -> Result<PbPair, NoMemory> {
        Ok(PbPair {
            error: self.error.try_clone()?,
            key: self.key.try_clone()?,
            value: self.value.try_clone()?,
        })
    }
}

/// What a store did when it was asked for the status of a transaction.
#[derive(Clone, Copy, Debug, Default, PartialEq, Eq)]
pub enum Action {
    #[default]
    NoAction,
    TtlExpireRollback,
    LockNotExistRollback,
    MinCommitTsPushed,
    TtlExpirePessimisticRollback,
    LockNotExistDoNothing,
}

/// Why a store refuses a request at a key.
#[derive(Debug, PartialEq, Eq)]
pub enum KeyError {
    Locked(LockInfo),
    Abort { key: Key, start: u64, commit: u64 },
    WriteConflict { key: Key, start: u64, commit: u64 },
    AlreadyExist { key: Key },
    PessimisticLockNotFound { key: Key },
    TxnLockNotFound { key: Key },
    CommitTsExpired { key: Key, bound: u64 },
    TxnNotFound { key: Key, start: u64 },
    PrimaryMismatch(LockInfo),
}

impl Drop for KeyError {
    fn drop(self) {
        match self {
            KeyError::Locked(lock) => drop(lock),
            KeyError::Abort {
                key,
                start: _,
                commit: _,
            } => drop(key),
            KeyError::WriteConflict {
                key,
                start: _,
                commit: _,
            } => drop(key),
            KeyError::AlreadyExist { key } => drop(key),
            KeyError::PessimisticLockNotFound { key } => drop(key),
            KeyError::TxnLockNotFound { key } => drop(key),
            KeyError::CommitTsExpired { key, bound: _ } => drop(key),
            KeyError::TxnNotFound { key, start: _ } => drop(key),
            KeyError::PrimaryMismatch(lock) => drop(lock),
        }
    }
}

impl KeyError {
    /// The lock in the way, or the error where it is another.
    pub fn into_locked(self) -> Result<LockInfo, KeyError>
        ensures { MatchResult result (λ lock. self ≡ KeyError.Locked lock) (λ other. (other ≡ self) × ((lock : LockInfo) → self ≢ KeyError.Locked lock)) }
    {
        match self {
            KeyError::Locked(lock) => Ok(lock),
            other => Err(other),
        }
    }
}

impl TryClone for KeyError {
    fn try_clone(&self) -> Result<KeyError, NoMemory> {
        match self {
            KeyError::Locked(lock) => Ok(KeyError::Locked(lock.try_clone()?)),
            KeyError::Abort { key, start, commit } => Ok(KeyError::Abort {
                key: key.try_clone()?,
                start: *start,
                commit: *commit,
            }),
            KeyError::WriteConflict { key, start, commit } => Ok(KeyError::WriteConflict {
                key: key.try_clone()?,
                start: *start,
                commit: *commit,
            }),
            KeyError::AlreadyExist { key } => Ok(KeyError::AlreadyExist {
                key: key.try_clone()?,
            }),
            KeyError::PessimisticLockNotFound { key } => Ok(KeyError::PessimisticLockNotFound {
                key: key.try_clone()?,
            }),
            KeyError::TxnLockNotFound { key } => Ok(KeyError::TxnLockNotFound {
                key: key.try_clone()?,
            }),
            KeyError::CommitTsExpired { key, bound } => Ok(KeyError::CommitTsExpired {
                key: key.try_clone()?,
                bound: *bound,
            }),
            KeyError::TxnNotFound { key, start } => Ok(KeyError::TxnNotFound {
                key: key.try_clone()?,
                start: *start,
            }),
            KeyError::PrimaryMismatch(lock) => Ok(KeyError::PrimaryMismatch(lock.try_clone()?)),
        }
    }
}

/// Why a store refuses a request for its region.
#[derive(Debug, PartialEq, Eq)]
pub enum RegionErr {
    NotLeader {
        region_id: u64,
        leader: Option<Peer>,
    },
    RegionNotFound {
        region_id: u64,
    },
    EpochNotMatch {
        current_regions: Items<Region>,
    },
    StoreNotMatch,
    StaleCommand,
    ServerIsBusy,
    RaftEntryTooLarge,
    MaxTimestampNotSynced,
    Unknown,
}

impl Drop for RegionErr {
    fn drop(self) {
        match self {
            RegionErr::EpochNotMatch { current_regions } => drop(current_regions),
            RegionErr::NotLeader {
                region_id: _,
                leader: _,
            } => {}
            RegionErr::RegionNotFound { region_id: _ } => {}
            RegionErr::StoreNotMatch => {}
            RegionErr::StaleCommand => {}
            RegionErr::ServerIsBusy => {}
            RegionErr::RaftEntryTooLarge => {}
            RegionErr::MaxTimestampNotSynced => {}
            RegionErr::Unknown => {}
        }
    }
}

impl TryClone for RegionErr {
    fn try_clone(&self) -> Result<RegionErr, NoMemory> {
        match self {
            RegionErr::NotLeader { region_id, leader } => Ok(RegionErr::NotLeader {
                region_id: *region_id,
                leader: *leader,
            }),
            RegionErr::RegionNotFound { region_id } => Ok(RegionErr::RegionNotFound {
                region_id: *region_id,
            }),
            RegionErr::EpochNotMatch { current_regions } => Ok(RegionErr::EpochNotMatch {
                current_regions: current_regions.try_clone()?,
            }),
            RegionErr::StoreNotMatch => Ok(RegionErr::StoreNotMatch),
            RegionErr::StaleCommand => Ok(RegionErr::StaleCommand),
            RegionErr::ServerIsBusy => Ok(RegionErr::ServerIsBusy),
            RegionErr::RaftEntryTooLarge => Ok(RegionErr::RaftEntryTooLarge),
            RegionErr::MaxTimestampNotSynced => Ok(RegionErr::MaxTimestampNotSynced),
            RegionErr::Unknown => Ok(RegionErr::Unknown),
        }
    }
}
