ghost use Rattle.std.specs.Prelude.{◌≡◌, ◌∷◌, ◌++◌, IfOk, OnOk, [], take, drop, ℕ, List};
ghost use Rattle.std.specs.BTreeMap.{is_at};
ghost use Rattle.std.specs.Cmp.Lexicographic.{slice_cmp};
ghost use Rattle.std.specs.Map.{remove_entry};
ghost use Rattle.std.specs.Ordering.{nat_cmp};
ghost use Rattle.txn_buffer.specs.Contents.{write_of};
ghost use Rattle.txn_buffer.specs.Overlay.{overlaid};
ghost use Rattle.txn_buffer.specs.Passing.{IsAscending, IsBelow, IsUpTo, is_above_first, is_first, outcome};
ghost use Rattle.txn_buffer.specs.Reads.{and_write, pairs_of};
ghost use Rattle.txn_buffer.specs.Writes.{Writes, delete, put};

use crate::entry::Entry;
use std::alloc::Global;
use std::collections::VecDeque;
use txn_kv::{Key, KvPair, NoMemory, TryClone, Value};

/// Pairs in key order that walk past the entries of a buffer, which come in key order too.
#[derive(Drop)]
pub(crate) struct Merge {
    /// What no later entry changes.
    passed: Vec<KvPair>,
    waiting: VecDeque<KvPair>,
}

impl Merge {
    pub(crate) fn new(alloc: Global, pairs: Vec<KvPair>) -> Merge
        ensures outcome { (writes : Writes) → outcome result writes ≡ overlaid (pairs_of pairs.items) writes }
        ensures waiting { result.waiting.items ≡ pairs.items }
    {
        Merge {
            passed: Vec::new(alloc),
            waiting: VecDeque::from_vec(pairs),
        }
    }

    /// Meets the entry of a key, which is above the keys that were met before.
    pub(crate) fn meet(&mut self, key: &Key, entry: &Entry) -> Result<(), NoMemory>
        requires { IsAscending (pairs_of self.old.waiting.items) }
        ensures outcome { OnOk result ((writes : Writes) → IsBelow key.now writes → outcome self.new writes ≡ outcome self.old (and_write key.now (write_of entry.now) writes)) }
        ensures ascending { OnOk result (IsAscending (pairs_of self.new.waiting.items)) }
    {
        match entry {
            Entry::Put(value) | Entry::Insert(value) => self.put(key, value),
            Entry::Del | Entry::CheckNotExist => self.delete(key),
            Entry::Cached(_) | Entry::Locked(_) => Ok(()),
        }
    }

    fn put(&mut self, key: &Key, value: &Value) -> Result<(), NoMemory>
        requires { IsAscending (pairs_of self.old.waiting.items) }
        ensures outcome { OnOk result ((writes : Writes) → IsBelow key.now writes → outcome self.new writes ≡ outcome self.old ((key.now, put value.now) ∷ writes)) }
        ensures ascending { OnOk result (IsAscending (pairs_of self.new.waiting.items)) }
    {
        self.delete(key)?;
        self.passed
            .push(KvPair(key.try_clone()?, value.try_clone()?))?;
        Ok(())
    }

    /// Lets what is below the key pass, and drops its pair.
    #[tactic(auto, using(crate::proofs::Passing::deleted, crate::proofs::Passing::made_room))]
    fn delete(&mut self, key: &Key) -> Result<(), NoMemory>
        requires { IsAscending (pairs_of self.old.waiting.items) }
        ensures outcome { OnOk result ((writes : Writes) → IsBelow key.now writes → outcome self.new writes ≡ outcome self.old ((key.now, delete) ∷ writes)) }
        ensures room { OnOk result ((writes : Writes) (value : List ℕ) → IsBelow key.now writes → pairs_of self.new.passed.items ++ (key.now, value) ∷ overlaid (pairs_of self.new.waiting.items) writes ≡ outcome self.old ((key.now, put value) ∷ writes)) }
        ensures ascending { OnOk result (IsAscending (pairs_of self.new.waiting.items)) }
    {
        self.pass_below(key)?;
        self.drop_same(key);
        Ok(())
    }

    /// Lets the pairs pass whose keys are below.
    #[tactic(auto, using(crate::proofs::Passing::one_passes, crate::proofs::Passing::rest_still_ascends, crate::proofs::Passing::up_to_first))]
    fn pass_below(&mut self, key: &Key) -> Result<(), NoMemory>
        requires { IsAscending (pairs_of self.old.waiting.items) }
        ensures outcome { OnOk result ((writes : Writes) → IsUpTo key.now writes → outcome self.new writes ≡ outcome self.old writes) }
        ensures ascending { OnOk result (IsAscending (pairs_of self.new.waiting.items)) }
        ensures up_to { OnOk result (IsUpTo key.now (pairs_of self.new.waiting.items)) }
    {
        while self.is_above_next(key) {
            self.pass_next()?;
        }
        Ok(())
    }

    /// Drops the pair that waits with this key, if there is one.
    #[tactic(auto, using(crate::proofs::Passing::removed_first, crate::proofs::Passing::removed_none, crate::proofs::Passing::rest_still_ascends))]
    fn drop_same(&mut self, key: &Key)
        requires was_ascending { IsAscending (pairs_of self.old.waiting.items) }
        requires up_to { IsUpTo key.now (pairs_of self.old.waiting.items) }
        ensures waiting { pairs_of self.new.waiting.items ≡ remove_entry (is_at (slice_cmp nat_cmp key.now)) (pairs_of self.old.waiting.items) }
        ensures passed { self.new.passed.items ≡ self.old.passed.items }
        ensures ascending { IsAscending (pairs_of self.new.waiting.items) }
    {
        if self.is_next(key) {
            self.waiting.pop_front();
        }
    }

    fn pass_next(&mut self) -> Result<(), NoMemory>
        ensures passed { OnOk result (self.new.passed.items ≡ self.old.passed.items ++ take 1 self.old.waiting.items) }
        ensures waiting { self.new.waiting.items ≡ drop 1 self.old.waiting.items }
    {
        if let Some(pair) = self.waiting.pop_front() {
            self.passed.push(pair)?;
        }
        Ok(())
    }

    fn is_above_next(&self, key: &Key) -> bool
        ensures { result ≡ is_above_first key.now (pairs_of self.now.waiting.items) }
    {
        match self.waiting.front() {
            Some(pair) => key.cmp(&pair.0).is_gt(),
            None => false,
        }
    }

    fn is_next(&self, key: &Key) -> bool
        ensures { result ≡ is_first key.now (pairs_of self.now.waiting.items) }
    {
        match self.waiting.front() {
            Some(pair) => key.cmp(&pair.0).is_eq(),
            None => false,
        }
    }

    /// The pairs, once all entries were met.
    pub(crate) fn into_pairs(self) -> Result<Vec<KvPair>, NoMemory>
        ensures { IfOk result (λ pairs. pairs_of pairs.items ≡ outcome self []) }
    {
        let mut pairs = self.passed;
        for pair in self.waiting {
            pairs.push(pair)?;
        }
        Ok(pairs)
    }
}
