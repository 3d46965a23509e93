//! What is known of transactions, by their start and primary key.
ghost use Rattle.std.specs.Prelude.{◌≡◌, ◌≢◌, ℕ, List, None, OnErr, OnOk, Some};
ghost use Rattle.std.specs.Option.{option_copied};
ghost use Rattle.txn_settle.specs.Known.{known_of};

use std::alloc::Global;
use std::collections::BTreeMap;
use txn_kv::{Key, NoMemory};

/// A map by start and primary key. Two transactions of one start differ by their primary.
pub struct ByPrimary<T> {
    starts: BTreeMap<u64, BTreeMap<Key, T>>,
    alloc: Global,
}

impl<T: Drop> Drop for ByPrimary<T> {
    fn drop(self) {
        let ByPrimary { starts, alloc: _ } = self;
        drop(starts);
    }
}

impl<T: Drop> ByPrimary<T> {
    /// Nothing is known. Takes no memory.
    pub fn new(alloc: Global) -> ByPrimary<T>
        ensures { (start : ℕ) (primary : List ℕ) → known_of result.starts start primary ≡ None }
    {
        ByPrimary {
            starts: BTreeMap::new(alloc),
            alloc,
        }
    }

    /// What is known of the transaction.
    pub fn get(&self, start: u64, primary: &Key) -> Option<&T>
        ensures { option_copied result ≡ known_of self.now.starts start primary.now }
    {
        self.starts.get(&start)?.get(primary)
    }

    /// Notes what is known of the transaction. A refusal changes nothing.
    #[tactic(auto, using(crate::proofs::Noting::other_key))]
    pub fn insert(&mut self, start: u64, primary: Key, value: T) -> Result<(), NoMemory>
        ensures noted { OnOk result (known_of self.new.starts start primary ≡ Some value) }
        ensures primaries { OnOk result ((p : List ℕ) → p ≢ primary → known_of self.new.starts start p ≡ known_of self.old.starts start p) }
        ensures starts { OnOk result ((s : ℕ) (p : List ℕ) → s ≢ start → known_of self.new.starts s p ≡ known_of self.old.starts s p) }
        ensures err { OnErr result ((s : ℕ) (p : List ℕ) → known_of self.new.starts s p ≡ known_of self.old.starts s p) }
    {
        match self.starts.get_mut(&start) {
            Some(primaries) => {
                primaries.insert(primary, value)?;
            }
            None => {
                let mut primaries = BTreeMap::new(self.alloc);
                primaries.insert(primary, value)?;
                self.starts.insert(start, primaries)?;
            }
        }
        Ok(())
    }
}
