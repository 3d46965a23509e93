ghost use Rattle.std.specs.Prelude.{◌≡◌, ◌++◌, ◌∷◌, [], OnOk, OnErr};
ghost use Rattle.txn_shard.specs.Shards.{IsFresh};

use std::alloc::Global;
use txn_kv::{Key, NoMemory};
use txn_region::RegionStore;

/// The shards of a request that are found, each with the store that it goes to, and where to go on.
#[derive(Drop)]
pub struct ShardList<S: Drop> {
    pub shards: Vec<(S, RegionStore)>,
    /// How many of the request's items are in shards, in order of their keys.
    pub next: usize,
    /// Where the range goes on, if shards of it are found and it does.
    pub at: Option<Key>,
    /// The request's items in order of their keys, once they were sorted.
    pub sorted: Option<S>,
}

impl<S: Drop> ShardList<S> {
    /// Nothing is found yet. Takes no memory.
    pub fn new(alloc: Global) -> ShardList<S>
        ensures { IsFresh result }
    {
        ShardList {
            shards: Vec::new(alloc),
            next: 0,
            at: None,
            sorted: None,
        }
    }

    pub(crate) fn put(&mut self, shard: S, store: RegionStore) -> Result<(), NoMemory>
        ensures ok { OnOk result (self.new.shards.items ≡ self.old.shards.items ++ (shard, store) ∷ []) }
        ensures err { OnErr result (self.new.shards.items ≡ self.old.shards.items) }
        ensures next { self.new.next ≡ self.old.next }
        ensures at { self.new.at ≡ self.old.at }
        ensures sorted { self.new.sorted ≡ self.old.sorted }
    {
        self.shards.push((shard, store))?;
        Ok(())
    }
}
