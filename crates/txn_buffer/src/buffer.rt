ghost use Rattle.std.specs.Prelude.{◌≡◌, ◌∷◌, ◌++◌, ◌-◌, ◌^◌, OnOk, OnErr, IfOk, IfErr, MatchOption, min, not, Ok, Some, None, [], option_map, is_none};
ghost use Rattle.std.specs.Option.{option_copied};
ghost use Rattle.std.specs.Cmp.Lexicographic.{slice_cmp};
ghost use Rattle.std.specs.List.Sorted.{IsPermutation, IsSorted, IsStrictlySortedBy};
ghost use Rattle.std.specs.Map.{keys_of};
ghost use Rattle.std.specs.Ordering.{nat_cmp};
ghost use Rattle.txn_kv.specs.declared.errors.Error.TheVariants.{Unimplemented, OutOfMemory};
ghost use Rattle.txn_buffer.specs.Writes.{after_call, after_delete, after_insert, after_put, delete_call, insert_call, put_call};
ghost use Rattle.txn_buffer.specs.Overlay.{first_pairs, overlaid, overlay};
ghost use Rattle.txn_buffer.specs.Passing.{IsAscending};
ghost use Rattle.txn_buffer.specs.Reads.{AgreesAll, IsBatch, IsUnlikeOne, cached_pairs, filled_all, is_some_cached, known_pairs, pairs_of, scan_limit, unfilled, unfilled_all, unwritten, writes, writes_in};
ghost use Rattle.txn_buffer.specs.Contents.{commit_primary, entry_at, filled, first_locking, is_locking_at, is_some_bare_lock, keys_of_mutations, known_at, known_value, missing_keys, mutated, mutations, write_size, Agrees, IsUnlike, locked, locked_at, unlocked, with_new_entry, with_primary, with_write, write_at};

use crate::bounds::runs_forward;
use crate::entry::Entry;
use crate::merge::Merge;
use crate::pairs::{first_pairs, in_key_order};
use std::alloc::Global;
use std::collections::BTreeMap;
use std::marker::Model;
use txn_kv::{BoundRange, Error, Key, KvPair, Mutation, NoMemory, Op, Result, TryClone, Value};

/// The writes, locks and reads of a transaction.
pub struct Buffer {
    primary_key: Option<Key>,
    entry_map: BTreeMap<Key, Entry>,
    is_pessimistic: bool,
    alloc: Global,
}

impl Drop for Buffer {
    fn drop(self) {
        let Buffer {
            primary_key,
            entry_map,
            is_pessimistic: _,
            alloc: _,
        } = self;
        drop(primary_key);
        drop(entry_map);
    }
}

impl Model for Buffer {
    ghost use Rattle.txn_buffer.specs.Overlay.{first_pairs, overlaid, overlay};
    ghost use Rattle.txn_buffer.specs.Reads.{AgreesAll, IsBatch, IsUnlikeOne, cached_pairs, filled_all, is_some_cached, known_pairs, pairs_of, scan_limit, unfilled, unfilled_all, unwritten, writes, writes_in};
    ghost use Rattle.txn_buffer.specs.Contents.{Contents};

    ghost Value = { Contents };

    ghost view = { λ b. record { entries = b.entry_map.entries; primary = b.primary_key; is_pessimistic = b.is_pessimistic } };
}

impl Buffer {
    pub fn new(alloc: Global, is_pessimistic: bool) -> Buffer
        ensures { result ≡ record { entries = []; primary = None; is_pessimistic = is_pessimistic } }
    {
        Buffer {
            primary_key: None,
            entry_map: BTreeMap::new(alloc),
            is_pessimistic,
            alloc,
        }
    }

    pub fn get_primary_key(&self) -> Option<&Key>
        ensures { option_map (λ key. key.now) result ≡ self.now.primary }
    {
        self.primary_key.as_ref()
    }

    /// Sets the primary key where there is none. A refusal changes nothing.
    pub fn primary_key_or(&mut self, key: &Key) -> std::result::Result<(), NoMemory>
        ensures ok { OnOk result (self.new ≡ with_primary self.old key.now) }
        ensures err { OnErr result (self.new ≡ self.old) }
    {
        if self.primary_key.is_none() {
            self.primary_key = Some(key.try_clone()?);
        }
        Ok(())
    }

    /// The known value of a key, None where it is not known or there is known to be none.
    pub fn get(&self, key: &Key) -> std::result::Result<Option<Value>, NoMemory>
        ensures { IfOk result (λ value. value ≡ known_value (known_at self.now key.now)) }
    {
        match self.entry_map.get(key) {
            Some(entry) => entry.known_value(),
            None => Ok(None),
        }
    }

    /// Whether the value of the key is not known.
    pub fn missing(&self, key: &Key) -> bool
        ensures { result ≡ is_none (known_at self.now key.now) }
    {
        match self.entry_map.get(key) {
            Some(entry) => entry.is_unknown(),
            None => true,
        }
    }

    /// Buffers a put. A refusal changes nothing.
    #[tactic(auto, using(crate::proofs::Steps::put_steps))]
    pub fn put(&mut self, key: Key, value: Value) -> std::result::Result<(), NoMemory>
        ensures ok { OnOk result (self.new ≡ with_write self.old key (after_put (write_at self.old key) value)) }
        ensures step { OnOk result (writes self.new ≡ after_call self.old.is_pessimistic (writes self.old) (put_call key value)) }
        ensures err { OnErr result (self.new ≡ self.old) }
    {
        let entry = Entry::put_over(self.entry_map.get(&key), value);
        self.set_entry(key, entry)
    }

    /// Buffers an insert. A refusal changes nothing.
    #[tactic(auto, using(crate::proofs::Steps::insert_steps))]
    pub fn insert(&mut self, key: Key, value: Value) -> std::result::Result<(), NoMemory>
        ensures ok { OnOk result (self.new ≡ with_write self.old key (after_insert (write_at self.old key) value)) }
        ensures step { OnOk result (writes self.new ≡ after_call self.old.is_pessimistic (writes self.old) (insert_call key value)) }
        ensures err { OnErr result (self.new ≡ self.old) }
    {
        let entry = Entry::insert_over(self.entry_map.get(&key), value);
        self.set_entry(key, entry)
    }

    /// Buffers a delete. A refusal changes nothing.
    #[tactic(auto, using(crate::proofs::Steps::delete_steps))]
    pub fn delete(&mut self, key: Key) -> std::result::Result<(), NoMemory>
        ensures ok { OnOk result (self.new ≡ with_write self.old key (after_delete self.old.is_pessimistic (write_at self.old key))) }
        ensures step { OnOk result (writes self.new ≡ after_call self.old.is_pessimistic (writes self.old) (delete_call key)) }
        ensures err { OnErr result (self.new ≡ self.old) }
    {
        let entry = Entry::delete_over(self.entry_map.get(&key), self.is_pessimistic);
        self.set_entry(key, entry)
    }

    /// Sets an entry, and the primary key where there is none and the entry sets it. A refusal changes nothing.
    fn set_entry(&mut self, key: Key, entry: Entry) -> std::result::Result<(), NoMemory>
        ensures ok { OnOk result (self.new ≡ with_new_entry self.old key entry) }
        ensures ordered { OnOk result (IsStrictlySortedBy (slice_cmp nat_cmp) (keys_of self.old.entries)) }
        ensures err { OnErr result (self.new ≡ self.old) }
    {
        if entry.sets_primary() && self.primary_key.is_none() {
            let primary = key.try_clone()?;
            self.entry_map.insert(key, entry)?;
            self.primary_key = Some(primary);
            Ok(())
        } else {
            self.entry_map.insert(key, entry)?;
            Ok(())
        }
    }

    /// Locks a key. A refusal changes nothing.
    pub fn lock(&mut self, key: Key) -> std::result::Result<(), NoMemory>
        ensures ok { OnOk result (self.new ≡ locked self.old key) }
        ensures err { OnErr result (self.new ≡ self.old) }
    {
        if self.primary_key.is_none() {
            let primary = key.try_clone()?;
            self.lock_entry(key)?;
            self.primary_key = Some(primary);
            Ok(())
        } else {
            self.lock_entry(key)
        }
    }

    fn lock_entry(&mut self, key: Key) -> std::result::Result<(), NoMemory>
        ensures ok { OnOk result (self.new ≡ locked_at (entry_at self.old key) self.old key) }
        ensures err { OnErr result (self.new ≡ self.old) }
    {
        if let Some(entry) = self.entry_map.get_mut(&key) {
            entry.lock();
            return Ok(());
        }
        self.entry_map.insert(key, Entry::Locked(None))?;
        Ok(())
    }

    /// Takes the lock of a key off. The primary key stays. Takes no memory.
    pub fn unlock(&mut self, key: &Key)
        ensures { self.new ≡ unlocked self.old key.now }
    {
        if self.is_bare_lock(key) {
            self.entry_map.remove(key);
        } else if let Some(entry) = self.entry_map.get_mut(key) {
            entry.unlock();
        }
    }

    fn is_bare_lock(&self, key: &Key) -> bool
        ensures { result ≡ is_some_bare_lock (entry_at self.now key.now) }
    {
        match self.entry_map.get(key) {
            Some(entry) => entry.is_unknown(),
            None => false,
        }
    }

    /// Buffers a put or a delete. A refusal changes nothing.
    pub fn mutate(&mut self, mutation: Mutation) -> Result<()>
        ensures ok { OnOk result (mutated self.old mutation ≡ Some self.new) }
        ensures err { OnErr result (self.new ≡ self.old) }
        ensures why { IfErr result (λ error. MatchOption (mutated self.old mutation) (error ≡ Unimplemented) (λ _. error ≡ OutOfMemory)) }
    {
        match mutation.op {
            Op::Put => {
                let (key, value) = mutation.into_parts();
                Ok(self.put(key, value)?)
            }
            Op::Del => Ok(self.delete(mutation.into_key())?),
            _ => Err(Error::Unimplemented),
        }
    }

    /// Takes what was read of a key. A refusal changes nothing: another value is known.
    pub fn fill(&mut self, key: Key, value: Option<Value>) -> Result<()>
        ensures ok { OnOk result (self.new ≡ filled self.old key value) }
        ensures agrees { OnOk result (Agrees (known_at self.old key) value) }
        ensures err { OnErr result (self.new ≡ self.old) }
        ensures why { IfErr result (IsUnlike (known_at self.old key) value) }
    {
        if !self.missing(&key) {
            return self.check(&key, value);
        }
        if let Some(entry) = self.entry_map.get_mut(&key) {
            *entry = Entry::Locked(Some(value));
            return Ok(());
        }
        match self.entry_map.insert(key, Entry::Cached(value)) {
            Ok(_) => Ok(()),
            Err(_) => Err(Error::OutOfMemory),
        }
    }

    fn check(&self, key: &Key, value: Option<Value>) -> Result<()>
        ensures agrees { OnOk result (Agrees (known_at self.now key.now) value) }
        ensures why { IfErr result (IsUnlike (known_at self.now key.now) value) }
    {
        match self.entry_map.get(key) {
            Some(entry) => entry.check(value),
            None => Ok(()),
        }
    }

    /// The primary key where its mutation locks, else the least key whose mutation does. Takes no memory.
    pub fn primary_for_commit(&self) -> Option<&Key>
        ensures { option_map (λ key. key.now) result ≡ commit_primary self.now }
    {
        if let Some(primary) = &self.primary_key {
            if self.locks(primary) {
                return Some(primary);
            }
        }
        self.first_locking()
    }

    fn locks(&self, key: &Key) -> bool
        ensures { result ≡ is_locking_at (entry_at self.now key.now) }
    {
        match self.entry_map.get(key) {
            Some(entry) => entry.locks(),
            None => false,
        }
    }

    fn first_locking(&self) -> Option<&Key>
        ensures { option_map (λ key. key.now) result ≡ first_locking self.now.entries }
    {
        for (key, entry) in self.entry_map.iter() {
            if entry.locks() {
                return Some(key);
            }
        }
        None
    }

    /// How many bytes the buffered writes have, at most the largest number of 64 bits. Takes no memory.
    pub fn get_write_size(&self) -> u64
        ensures { result ≡ min (write_size self.now.entries) (2 ^ 64 - 1) }
    {
        let mut size: u64 = 0;
        for (key, entry) in self.entry_map.iter() {
            size = size.saturating_add(entry.size(key));
        }
        size
    }

    /// The mutation of each entry but those that were only read, in key order. No two are of one key.
    pub fn to_proto_mutations(&self) -> std::result::Result<Vec<Mutation>, NoMemory>
        ensures all { IfOk result (λ vec. vec.items ≡ mutations self.now.entries) }
        ensures ascending { IfOk result (λ vec. IsStrictlySortedBy (slice_cmp nat_cmp) (keys_of_mutations vec.items)) }
    {
        let mut mutations = Vec::new(self.alloc);
        for (key, entry) in self.entry_map.iter() {
            entry.push_mutation(key, &mut mutations, self.alloc)?;
        }
        Ok(mutations)
    }

    /// The asked keys whose value is not known.
    pub fn batch_missing(&self, keys: &[Key]) -> std::result::Result<Vec<Key>, NoMemory>
        ensures { IfOk result (λ missing. missing.items ≡ missing_keys self.now keys.now) }
    {
        let mut missing = Vec::new(self.alloc);
        for key in keys {
            if self.missing(key) {
                missing.push(key.try_clone()?)?;
            }
        }
        Ok(missing)
    }

    /// Takes what was read of the keys, and gives the pair of each asked key that has a value, in key order, repeats kept.
    /// A refusal changes nothing: another value is known of one of the keys. Each pair and each key is looked up once;
    /// to sort the keys takes one walk where they ascend or fall.
    #[tactic(auto, using(crate::proofs::Undo::unlike_no_memory))]
    pub fn batch_fill(&mut self, asked: &[Key], fetched: Vec<KvPair>) -> Result<Vec<KvPair>>
        ensures ok { OnOk result (self.new ≡ filled_all self.old (pairs_of fetched.items)) }
        ensures agrees { OnOk result (AgreesAll self.old (pairs_of fetched.items)) }
        ensures pairs { IfOk result (λ pairs. IsBatch self.new asked.now (pairs_of pairs.items)) }
        ensures err { OnErr result (self.new ≡ self.old) }
        ensures why { IfErr result (IsUnlikeOne self.old (pairs_of fetched.items)) }
    {
        let keys = sorted(self.alloc, asked)?;
        let filled = self.fill_all(fetched)?;
        match self.known_pairs(keys) {
            Ok(pairs) => Ok(pairs),
            Err(_) => {
                self.unfill_all(filled);
                Err(Error::OutOfMemory)
            }
        }
    }

    fn known_pairs(&self, keys: Vec<Key>) -> std::result::Result<Vec<KvPair>, NoMemory>
        ensures { IfOk result (λ pairs. pairs_of pairs.items ≡ known_pairs self.now keys.items) }
    {
        let mut pairs = Vec::new(self.alloc);
        for key in keys {
            if let Some(value) = self.get(&key)? {
                pairs.push(KvPair(key, value))?;
            }
        }
        Ok(pairs)
    }

    /// Takes what was read of some keys, and gives those of which nothing was known. A refusal changes nothing.
    fn fill_all(&mut self, pairs: Vec<KvPair>) -> Result<Vec<Key>>
        ensures ok { OnOk result (self.new ≡ filled_all self.old (pairs_of pairs.items)) }
        ensures agrees { OnOk result (AgreesAll self.old (pairs_of pairs.items)) }
        ensures undo { IfOk result (λ keys. unfilled_all self.new keys.items ≡ self.old) }
        ensures err { OnErr result (self.new ≡ self.old) }
        ensures why { IfErr result (IsUnlikeOne self.old (pairs_of pairs.items)) }
    {
        let mut keys = Vec::new(self.alloc);
        for pair in pairs {
            if let Err(error) = self.fill_noting(pair, &mut keys) {
                self.unfill_all(keys);
                return Err(error);
            }
        }
        Ok(keys)
    }

    /// Takes what was read of a key, and notes the key where nothing was known of it.
    fn fill_noting(&mut self, pair: KvPair, keys: &mut Vec<Key>) -> Result<()>
        ensures ok { OnOk result (self.new ≡ filled self.old pair.0 (Some pair.1)) }
        ensures agrees { OnOk result (Agrees (known_at self.old pair.0) (Some pair.1)) }
        ensures undo { unfilled_all self.new keys.new.items ≡ unfilled_all self.old keys.old.items }
        ensures why { IfErr result (IsUnlike (known_at self.old pair.0) (Some pair.1)) }
    {
        let (key, value) = pair.into_parts();
        if !self.missing(&key) {
            return self.check(&key, Some(value));
        }
        note(keys, &key)?;
        self.fill(key, Some(value))
    }

    /// Forgets what was read of the keys, the last first.
    #[tactic(auto, using(crate::proofs::Undo::unfilled_all_push))]
    fn unfill_all(&mut self, mut keys: Vec<Key>)
        ensures { self.new ≡ unfilled_all self.old keys.items }
    {
        for _ in 0..keys.len() {
            if let Some(key) = keys.pop() {
                self.unfill(&key);
            }
        }
    }

    fn unfill(&mut self, key: &Key)
        ensures { self.new ≡ unfilled self.old key.now }
    {
        if self.is_cached(key) {
            self.entry_map.remove(key);
        } else if let Some(entry) = self.entry_map.get_mut(key) {
            entry.unfill();
        }
    }

    fn is_cached(&self, key: &Key) -> bool
        ensures { result ≡ is_some_cached (entry_at self.now key.now) }
    {
        match self.entry_map.get(key) {
            Some(entry) => entry.is_cached(),
            None => false,
        }
    }

    /// How many pairs of the range have to be read so that `limit` are left whatever the buffer deletes.
    #[tactic(auto, using(crate::proofs::Scans::filter_no))]
    pub fn scan_limit(&self, range: &BoundRange, limit: u32) -> std::result::Result<u64, NoMemory>
        ensures { result ≡ Ok (scan_limit self.now range.now limit) }
    {
        let mut most = limit as u64;
        let bounds = (range.start_bound(), range.end_bound());
        if runs_forward(bounds.0, bounds.1) {
            for (_, entry) in self.entry_map.range(bounds) {
                if entry.is_absent() {
                    most += 1;
                }
            }
        }
        Ok(most)
    }

    /// Gives the first `limit` pairs of the range, from its low end or, where `reverse`, from its high end:
    /// those fetched, seen through what is written in the buffer. Where `update_cache`, the buffer takes
    /// what was read of each key that is not written. A refusal changes nothing. One walk goes over the pairs and
    /// the entries of the range; pairs that do not come in the direction, or two of one key, are sorted first.
    #[tactic(auto, using(crate::proofs::Undo::unlike_no_memory))]
    pub fn scan_fill(
        &mut self,
        range: &BoundRange,
        limit: u32,
        update_cache: bool,
        reverse: bool,
        fetched: Vec<KvPair>,
    ) -> Result<Vec<KvPair>>
        ensures ok { OnOk result (self.new ≡ filled_all self.old (cached_pairs update_cache self.old (pairs_of fetched.items))) }
        ensures agrees { OnOk result (AgreesAll self.old (cached_pairs update_cache self.old (pairs_of fetched.items))) }
        ensures pairs { IfOk result (λ pairs. pairs_of pairs.items ≡ first_pairs limit reverse (overlay (pairs_of fetched.items) (writes_in range.now self.old))) }
        ensures err { OnErr result (self.new ≡ self.old) }
        ensures why { IfErr result (IsUnlikeOne self.old (cached_pairs update_cache self.old (pairs_of fetched.items))) }
    {
        let read = self.cached_pairs(update_cache, &fetched)?;
        let fetched = in_key_order(self.alloc, fetched, reverse)?;
        let pairs = self.overlay(range, fetched)?;
        self.fill_all(read)?;
        Ok(first_pairs(pairs, limit as usize, reverse))
    }

    /// The pairs, where they are kept, whose keys are not written.
    fn cached_pairs(
        &self,
        update_cache: bool,
        pairs: &[KvPair],
    ) -> std::result::Result<Vec<KvPair>, NoMemory>
        ensures { IfOk result (λ read. pairs_of read.items ≡ cached_pairs update_cache self.now (pairs_of pairs.now)) }
    {
        if update_cache {
            self.unwritten(KvPair::try_clone_all(pairs, self.alloc)?)
        } else {
            Ok(Vec::new(self.alloc))
        }
    }

    fn unwritten(&self, pairs: Vec<KvPair>) -> std::result::Result<Vec<KvPair>, NoMemory>
        ensures { IfOk result (λ read. pairs_of read.items ≡ unwritten self.now (pairs_of pairs.items)) }
    {
        let mut read = Vec::new(self.alloc);
        for pair in pairs {
            if !self.is_written(&pair.0) {
                read.push(pair)?;
            }
        }
        Ok(read)
    }

    fn is_written(&self, key: &Key) -> bool
        ensures { is_none (write_at self.now key.now) ≡ not result }
    {
        match self.entry_map.get(key) {
            Some(entry) => entry.is_write(),
            None => false,
        }
    }

    /// The pairs, which ascend, seen through what is written in the range: one walk over both.
    #[tactic(auto, using(crate::proofs::Scans::filter_no, crate::proofs::Passing::met, crate::proofs::Steps::rest_sorted, crate::proofs::Ordered::between_ascends))]
    fn overlay(
        &self,
        range: &BoundRange,
        pairs: Vec<KvPair>,
    ) -> std::result::Result<Vec<KvPair>, NoMemory>
        requires { IsAscending (pairs_of pairs.items) }
        ensures { IfOk result (λ seen. pairs_of seen.items ≡ overlaid (pairs_of pairs.items) (writes_in range.now self.now)) }
    {
        let mut merge = Merge::new(self.alloc, pairs);
        let bounds = (range.start_bound(), range.end_bound());
        if runs_forward(bounds.0, bounds.1) {
            for (key, entry) in self.entry_map.range(bounds) {
                merge.meet(key, entry)?;
            }
        }
        merge.into_pairs()
    }
}

/// The keys in their order, in new memory.
fn sorted(alloc: Global, keys: &[Key]) -> std::result::Result<Vec<Key>, NoMemory>
    ensures same { IfOk result (λ sorted. IsPermutation keys.now sorted.items) }
    ensures in_order { IfOk result (λ sorted. IsSorted (slice_cmp nat_cmp) sorted.items) }
{
    let mut sorted = Key::try_clone_all(keys, alloc)?;
    sorted.sort()?;
    Ok(sorted)
}

fn note(keys: &mut Vec<Key>, key: &Key) -> std::result::Result<(), NoMemory>
    ensures ok { OnOk result (keys.new.items ≡ keys.old.items ++ key.now ∷ []) }
    ensures err { OnErr result (keys.new.items ≡ keys.old.items) }
{
    keys.push(key.try_clone()?)?;
    Ok(())
}
