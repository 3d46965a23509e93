ghost use Rattle.std.specs.Prelude.{◌≡◌, ◌++◌, ◌-◌, ◌^◌, [], min, not, IfOk, IfErr, OnOk, OnErr, is_none};
ghost use Rattle.std.specs.Option.{option_copied};
ghost use Rattle.txn_buffer.specs.Writes.{after_delete, after_insert, after_put};
ghost use Rattle.txn_buffer.specs.Contents.{entry_of, entry_size, mutations_of, written_value, Agrees, IsUnlike, is_bare_lock, is_locking, known_of, known_value, lock_step, sets_primary, unlock_step, write_at_entry, write_of};
ghost use Rattle.txn_buffer.specs.Reads.{is_absent, is_cached, unfill_step};

use std::alloc::Global;
use std::mem;
use txn_kv::{Assertion, Error, Internal, Key, Mutation, NoMemory, Op, Result, TryClone, Value};

/// What a buffer knows of a key.
#[derive(Debug, PartialEq, Eq, Drop)]
pub enum Entry {
    /// The value was read, None where there is none.
    Cached(Option<Value>),
    /// The key is locked, and its value is known or is not.
    Locked(Option<Option<Value>>),
    Put(Value),
    Del,
    Insert(Value),
    /// An insert that was deleted again: there must be no such key.
    CheckNotExist,
}

impl Entry {
    /// Whether the value of the key is not known.
    pub fn is_unknown(&self) -> bool
        ensures unknown { result ≡ is_none (known_of self.now) }
        ensures bare_lock { result ≡ is_bare_lock self.now }
    {
        matches!(self, Entry::Locked(None))
    }

    /// The known value, in new memory.
    pub fn known_value(&self) -> std::result::Result<Option<Value>, NoMemory>
        ensures { IfOk result (λ value. value ≡ known_value (known_of self.now)) }
    {
        match self {
            Entry::Cached(value) => value.try_clone(),
            Entry::Locked(Some(value)) => value.try_clone(),
            Entry::Put(value) => Ok(Some(value.try_clone()?)),
            Entry::Insert(value) => Ok(Some(value.try_clone()?)),
            Entry::Locked(None) => Ok(None),
            Entry::Del => Ok(None),
            Entry::CheckNotExist => Ok(None),
        }
    }

    pub(crate) fn sets_primary(&self) -> bool
        ensures { result ≡ sets_primary self.now }
    {
        !matches!(self, Entry::CheckNotExist)
    }

    /// What a put makes of an entry.
    pub(crate) fn put_over(old: Option<&Entry>, value: Value) -> Entry
        ensures { result ≡ entry_of (after_put (write_at_entry (option_copied old.entry)) value) }
    {
        match old {
            Some(Entry::Insert(_)) => Entry::Insert(value),
            Some(Entry::CheckNotExist) => Entry::Insert(value),
            _ => Entry::Put(value),
        }
    }

    /// What an insert makes of an entry.
    pub(crate) fn insert_over(old: Option<&Entry>, value: Value) -> Entry
        ensures { result ≡ entry_of (after_insert (write_at_entry (option_copied old.entry)) value) }
    {
        match old {
            Some(Entry::Del) => Entry::Put(value),
            _ => Entry::Insert(value),
        }
    }

    /// What a delete makes of an entry.
    pub(crate) fn delete_over(old: Option<&Entry>, is_pessimistic: bool) -> Entry
        ensures { result ≡ entry_of (after_delete is_pessimistic (write_at_entry (option_copied old.entry))) }
    {
        if is_pessimistic {
            return Entry::Del;
        }
        match old {
            Some(Entry::Insert(_)) => Entry::CheckNotExist,
            Some(Entry::CheckNotExist) => Entry::CheckNotExist,
            _ => Entry::Del,
        }
    }

    /// A value that was read comes to be locked.
    pub(crate) fn lock(&mut self)
        ensures { self.new ≡ lock_step self.old }
    {
        let old = mem::replace(self, Entry::CheckNotExist);
        *self = match old {
            Entry::Cached(value) => Entry::Locked(Some(value)),
            other => other,
        };
    }

    /// A value that is known stays known.
    pub(crate) fn unlock(&mut self)
        ensures { self.new ≡ unlock_step self.old }
    {
        let old = mem::replace(self, Entry::CheckNotExist);
        *self = match old {
            Entry::Locked(Some(value)) => Entry::Cached(value),
            other => other,
        };
    }

    /// Whether the mutation of the entry locks its key.
    pub(crate) fn locks(&self) -> bool
        ensures { result ≡ is_locking self.now }
    {
        !matches!(self, Entry::Cached(_) | Entry::CheckNotExist)
    }

    /// Refuses a value that was read where another is known.
    pub(crate) fn check(&self, value: Option<Value>) -> Result<()>
        ensures agrees { OnOk result (Agrees (known_of self.now) value) }
        ensures why { IfErr result (IsUnlike (known_of self.now) value) }
    {
        if self.is_unknown() {
            return Ok(());
        }
        let kept = self.known_value()?;
        if kept == value {
            Ok(())
        } else {
            Err(Error::InternalError {
                what: Internal::UnlikeCache { kept, read: value },
            })
        }
    }

    /// How many bytes the entry of a key adds to what a commit writes, at most the largest number of 64 bits.
    pub(crate) fn size(&self, key: &Key) -> u64
        ensures { result ≡ min (entry_size key.now self.now) (2 ^ 64 - 1) }
    {
        match self {
            Entry::Put(value) | Entry::Insert(value) => {
                (key.len() as u64).saturating_add(value.len() as u64)
            }
            Entry::Del => key.len() as u64,
            _ => 0,
        }
    }

    /// Appends the mutation of the entry of a key, if it has one. A refusal changes nothing.
    pub(crate) fn push_mutation(
        &self,
        key: &Key,
        mutations: &mut Vec<Mutation>,
        alloc: Global,
    ) -> std::result::Result<(), NoMemory>
        ensures ok { OnOk result (mutations.new.items ≡ mutations.old.items ++ mutations_of key.now self.now) }
        ensures err { OnErr result (mutations.new.items ≡ mutations.old.items) }
    {
        let op = match self {
            Entry::Cached(_) => return Ok(()),
            Entry::Locked(_) => Op::Lock,
            Entry::Put(_) => Op::Put,
            Entry::Del => Op::Del,
            Entry::Insert(_) => Op::Insert,
            Entry::CheckNotExist => Op::CheckNotExists,
        };
        mutations.push(Mutation {
            op,
            key: key.try_clone()?,
            value: self.written_value(alloc)?,
            assertion: Assertion::None,
        })?;
        Ok(())
    }

    /// The value that is put or inserted, in new memory, else an empty one.
    fn written_value(&self, alloc: Global) -> std::result::Result<Value, NoMemory>
        ensures { IfOk result (λ value. value ≡ written_value self.now) }
    {
        match self {
            Entry::Put(value) => value.try_clone(),
            Entry::Insert(value) => value.try_clone(),
            _ => Ok(Value::new(alloc)),
        }
    }

    pub(crate) fn is_cached(&self) -> bool
        ensures { result ≡ is_cached self.now }
    {
        matches!(self, Entry::Cached(_))
    }

    /// Forgets what was read of a key that is locked.
    pub(crate) fn unfill(&mut self)
        ensures { self.new ≡ unfill_step self.old }
    {
        if let Entry::Locked(_) = self {
            *self = Entry::Locked(None);
        }
    }

    /// Whether the key is written, and has no value.
    pub(crate) fn is_absent(&self) -> bool
        ensures { result ≡ is_absent self.now }
    {
        matches!(self, Entry::Del | Entry::CheckNotExist)
    }

    pub(crate) fn is_write(&self) -> bool
        ensures { is_none (write_of self.now) ≡ not result }
    {
        !matches!(self, Entry::Cached(_) | Entry::Locked(_))
    }
}
