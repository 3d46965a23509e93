ghost use Rattle.std.specs.Prelude.{◌≡◌, ◌++◌, ◌∷◌, [], List, IfErr, IfOk, IfSome, OnOk, OnErr, Ok, Err, Some, None, map};
ghost use Rattle.std.specs.List.{All};
ghost use Rattle.txn_kv.specs.Region.{context_of};
ghost use Rattle.txn_kv.specs.declared.errors.Error.TheVariants.{OutOfMemory};
ghost use Rattle.txn_region.specs.Clients.{IsPlaceQuery, OrStarved};
ghost use Rattle.txn_shard.specs.Shards.{shards_of, IsAt, IsFresh};

use crate::shard_list::ShardList;
use std::alloc::Global;
use txn_kv::{PdQuery, Result};
use txn_region::{PdClient, RegionStore};

/// A request that is cut into shards, each of which lies in one region and goes to the store of that region.
pub trait Shardable {
    ghost use Rattle.std.specs.Prelude.{List};
    ghost use Rattle.txn_kv.specs.declared.message.Region.{Region};
    ghost use Rattle.txn_region.specs.declared.store.RegionStore.{RegionStore};
    ghost use Rattle.txn_shard.specs.declared.shard_list.ShardList.{ShardList};

    type Shard: Drop;

    // What is cut, and what a shard holds of it.
    ghost Load: { Type 0 };

    ghost load: { Self → Load };

    ghost load_of: { Self.Shard → Load };

    // Together these are the load.
    ghost AreCut: { Load → List Load → Type 0 };

    ghost LiesIn: { Region → Load → Type 0 };

    // What is found is the first part of what there is to find, and lies where it goes to.
    ghost IsFound: { Self → ShardList Self.Shard → Type 0 };

    // The request with a shard in place of its load, for the region of a store.
    ghost Applies: { Self → Self.Shard → RegionStore → Self → Type 0 };

    // The first is a part of the second.
    ghost IsPart: { Self → Self → Type 0 };

    /// Goes on finding shards, and answers the query that has to be asked before more can be found, or `None` where all are found.
    /// What was found stays, also where it is refused.
    fn shards<C: PdClient>(
        &self,
        alloc: Global,
        pd: &mut C,
        found: &mut ShardList<Self::Shard>,
    ) -> Result<Option<PdQuery>>
        requires { IsFound self.now found.old }
        ensures kept { IsFound self.now found.new }
        ensures stays { (more : List (Self.Shard × RegionStore)) × (found.new.shards.items ≡ found.old.shards.items ++ more) }
        ensures all { result ≡ Ok None → AreCut (load self.now) (map load_of (shards_of found.new)) }
        ensures left { IfOk result (λ query. IfSome query (λ q. IsPlaceQuery q × C.asks pd.new q × (AreCut (load self.now) (map load_of (shards_of found.new)) → ⊥))) }
        ensures inside { All (λ f. IsAt LiesIn (load_of f.0) f.1) found.new.shards.items }
        ensures why { IfErr result (λ error. error ≡ OutOfMemory) }
        ensures changed { C.looked pd.old pd.new };

    /// Asks for one shard, at the store that it goes to. A refusal changes nothing.
    fn apply_shard(&mut self, shard: Self::Shard, store: &RegionStore) -> Result<()>
        ensures ok { OnOk result (Applies self.old shard store.now self.new) }
        ensures err { OnErr result (self.new ≡ self.old) }
        ensures why { IfErr result (OrStarved (λ error. context_of store.now.region_with_leader ≡ Err error)) };

    // Nothing is found at first.
    ghost none_found: { (s : Self) (found : ShardList Self.Shard) → IsFresh found → IsFound s found };

    // A load is cut into itself, and a piece of it may be cut again.
    ghost cut_whole: { (whole : Load) → AreCut whole (whole ∷ []) };

    ghost cut_again: { (whole piece : Load) (before parts behind : List Load) → AreCut whole (before ++ piece ∷ behind) → AreCut piece parts → AreCut whole (before ++ parts ++ behind) };

    // With a shard that it is cut into, a request is a part of what it was, which holds that shard.
    ghost applied_load: { (old new : Self) (shard : Self.Shard) (store : RegionStore) (before behind : List Load) → AreCut (load old) (before ++ load_of shard ∷ behind) → Applies old shard store new → load new ≡ load_of shard };

    ghost applied_part: { (old new : Self) (shard : Self.Shard) (store : RegionStore) (before behind : List Load) → AreCut (load old) (before ++ load_of shard ∷ behind) → Applies old shard store new → IsPart new old };

    ghost part_itself: { (s : Self) → IsPart s s };

    ghost part_of_part: { (a b c : Self) → IsPart a b → IsPart b c → IsPart a c };
}
