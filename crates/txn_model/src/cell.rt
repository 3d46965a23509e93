ghost use Rattle.std.specs.Prelude.{◌≡◌, IfOk};
ghost use Rattle.txn_model.specs.Cells.{no_cell, is_empty_cell};
ghost use Rattle.txn_model.specs.Locks.{is_prewrite, is_written, op_of, lock_info, is_async_lock};

use std::alloc::Global;
use txn_kv::{Items, Key, LockInfo, NoMemory, Op, Value};

/// What a lock will become, or what a commit did.
#[derive(Clone, Copy, Debug, PartialEq, Eq)]
pub enum Kind {
    Put,
    Del,
    Lock,
    Pessimistic,
}

impl Kind {
    /// A lock of this kind was set by a prewrite.
    pub fn is_prewrite(self) -> bool
        ensures { result ≡ is_prewrite self }
    {
        match self {
            Kind::Put | Kind::Del | Kind::Lock => true,
            Kind::Pessimistic => false,
        }
    }

    /// A commit of this kind says what the value of its key is.
    pub fn is_written(self) -> bool
        ensures { result ≡ is_written self }
    {
        match self {
            Kind::Put | Kind::Del => true,
            Kind::Lock | Kind::Pessimistic => false,
        }
    }

    fn op(self) -> Op
        ensures { result ≡ op_of self }
    {
        match self {
            Kind::Put => Op::Put,
            Kind::Del => Op::Del,
            Kind::Lock => Op::Lock,
            Kind::Pessimistic => Op::PessimisticLock,
        }
    }
}

/// A lock of the transaction with this start, with its time to live in milliseconds.
#[derive(Debug, PartialEq, Eq)]
pub struct Lock {
    pub start: u64,
    pub primary: Key,
    pub kind: Kind,
    pub value: Value,
    pub ttl: u64,
    pub for_update: u64,
    pub min_commit: u64,
    pub use_async: bool,
    pub secondaries: Items<Key>,
}

/// By one call, here and below: a derived drop is opened at each exit that holds such a value, in each crate above.
impl Drop for Lock {
    fn drop(self) {
        let Lock {
            start: _,
            primary,
            kind: _,
            value,
            ttl: _,
            for_update: _,
            min_commit: _,
            use_async: _,
            secondaries,
        } = self;
        drop(primary);
        drop(value);
        drop(secondaries);
    }
}

/// The same keys, in new memory.
pub fn copied_keys(alloc: Global, keys: &[Key]) -> Result<Items<Key>, NoMemory>
    ensures { IfOk result (λ copies. copies ≡ keys.now) }
{
    let mut copies = Items::new(alloc);
    for key in keys {
        copies.push(key.try_clone()?)?;
    }
    Ok(copies)
}

impl Lock {
    /// A prewrite lock with a bound, which is settled with all other keys of its start.
    pub fn is_async(&self) -> bool
        ensures { result ≡ is_async_lock self.now }
    {
        self.use_async && self.kind.is_prewrite()
    }

    /// The same lock, in new memory.
    pub fn try_clone(&self, alloc: Global) -> Result<Lock, NoMemory>
        ensures { IfOk result (λ copy. copy ≡ self.now) }
    {
        Ok(Lock {
            start: self.start,
            primary: self.primary.try_clone()?,
            kind: self.kind,
            value: self.value.try_clone()?,
            ttl: self.ttl,
            for_update: self.for_update,
            min_commit: self.min_commit,
            use_async: self.use_async,
            secondaries: copied_keys(alloc, self.secondaries.as_slice())?,
        })
    }

    /// The lock at this key, as a reply shows it.
    pub fn info(&self, alloc: Global, key: &Key) -> Result<LockInfo, NoMemory>
        ensures { IfOk result (λ info. info ≡ lock_info key.now self.now) }
    {
        Ok(LockInfo {
            key: key.try_clone()?,
            primary_lock: self.primary.try_clone()?,
            lock_version: self.start,
            lock_ttl: self.ttl,
            lock_type: self.kind.op(),
            lock_for_update_ts: self.for_update,
            use_async_commit: self.use_async,
            min_commit_ts: self.min_commit,
            secondaries: copied_keys(alloc, self.secondaries.as_slice())?,
        })
    }
}

/// A commit of the transaction with this start.
#[derive(Debug, PartialEq, Eq, Drop)]
pub struct Write {
    pub start: u64,
    pub commit: u64,
    pub kind: Kind,
    pub value: Value,
}

/// What the store keeps of a key: commits in the order of `commit`, and the starts that were rolled back, ascending.
#[derive(Debug, PartialEq, Eq)]
pub struct Cell {
    pub key: Key,
    pub lock: Option<Lock>,
    pub commits: Items<Write>,
    pub rolled: Items<u64>,
}

impl Drop for Cell {
    fn drop(self) {
        let Cell {
            key,
            lock,
            commits,
            rolled,
        } = self;
        drop(key);
        drop(lock);
        drop(commits);
        drop(rolled);
    }
}

impl Cell {
    /// The cell of a key of which nothing is known. Takes no memory.
    pub fn empty(alloc: Global, key: Key) -> Cell
        ensures { result ≡ no_cell key }
    {
        Cell {
            key,
            lock: None,
            commits: Items::new(alloc),
            rolled: Items::new(alloc),
        }
    }

    /// Nothing is known of the key.
    pub fn is_empty(&self) -> bool
        ensures { result ≡ is_empty_cell self.now }
    {
        self.lock.is_none() && self.commits.len() == 0 && self.rolled.len() == 0
    }
}
