//! Requests for one key: one shard.
ghost use Rattle.std.specs.Prelude.{◌≡◌, ◌++◌, ◌∷◌, ◌<◌, [], true, List, Ok, None, IfErr, IfOk, IfSome, map, refl};
ghost use Rattle.std.proofs.Common.{ap};
ghost use Rattle.std.specs.List.{All};
ghost use Rattle.txn_kv.specs.declared.errors.Error.TheVariants.{OutOfMemory};
ghost use Rattle.txn_region.specs.Clients.{IsPlaceQuery};
ghost use Rattle.txn_region.specs.Regions.{Key as Bytes};
ghost use Rattle.txn_shard.specs.Parting.{IsAlone-again, KeyIsFound-none, GetPart-applied, GetPart-part, CleanupPart-applied, CleanupPart-part, TxnHeartBeatPart-applied, TxnHeartBeatPart-part, CheckTxnStatusPart-applied, CheckTxnStatusPart-part};
ghost use Rattle.txn_shard.specs.Parts.{IsPlaced, GetPart, CleanupPart, TxnHeartBeatPart, CheckTxnStatusPart};
ghost use Rattle.txn_shard.specs.Shards.{shards_of, IsAlone, KeyIsFound, KeyLiesIn};

use crate::shard_list::ShardList;
use crate::shardable::Shardable;
use std::alloc::Global;
use txn_kv::request::keep_version;
use txn_kv::{
    CheckTxnStatusRequest, CleanupRequest, GetRequest, Key, Look, PdQuery, Result,
    TxnHeartBeatRequest,
};
use txn_region::{PdClient, RegionStore};

/// Finds the store of a key, if it is not found yet.
fn shard_of_key<C: PdClient>(
    key: &Key,
    pd: &mut C,
    found: &mut ShardList<Key>,
) -> Result<Option<PdQuery>>
    requires { KeyIsFound key.now found.old }
    ensures kept { KeyIsFound key.now found.new }
    ensures stays { (more : List (Bytes × RegionStore)) × (found.new.shards.items ≡ found.old.shards.items ++ more) }
    ensures all { result ≡ Ok None → IsAlone key.now (shards_of found.new) }
    ensures left { IfOk result (λ query. IfSome query (λ q. IsPlaceQuery q × C.asks pd.new q × (IsAlone key.now (shards_of found.new) → ⊥))) }
    ensures why { IfErr result (λ error. error ≡ OutOfMemory) }
    ensures changed { C.looked pd.old pd.new }
{
    if found.next > 0 {
        return Ok(None);
    }
    match pd.store_for_key(key)? {
        Look::Found(store) => {
            found.put(key.try_clone()?, store)?;
            found.next = 1;
            Ok(None)
        }
        Look::Query(query) => Ok(Some(query)),
        Look::Wait => unreachable!(),
    }
}

impl Shardable for GetRequest {
    type Shard = Key;

    ghost Load = { Bytes };

    ghost load = { λ request. request.key };

    ghost load_of = { λ shard. shard };

    ghost AreCut = { IsAlone };

    ghost LiesIn = { KeyLiesIn };

    ghost IsFound = { λ request found. KeyIsFound request.key found };

    ghost Applies = { λ old shard store new. IsPlaced store old.context new.context × (new ≡ record old { context = new.context; key = shard }) };

    ghost IsPart = { GetPart };

    fn shards<C: PdClient>(
        &self,
        alloc: Global,
        pd: &mut C,
        found: &mut ShardList<Key>,
    ) -> Result<Option<PdQuery>> {
        shard_of_key(&self.key, pd, found)
    }

    fn apply_shard(&mut self, shard: Key, store: &RegionStore) -> Result<()> {
        let context = store.region_with_leader.context()?;
        keep_version(&mut self.context, context);
        self.key = shard;
        Ok(())
    }

    ghost none_found = { λ request found fresh. KeyIsFound-none request.key found fresh };

    ghost cut_whole = { λ whole. refl };

    ghost cut_again = { IsAlone-again };

    ghost applied_load = { λ old new shard store before behind cut applied. ap (λ r. r.key) applied.1 };

    ghost applied_part = { λ old new shard store before behind cut applied. GetPart-applied old new shard before behind cut applied.1 };

    ghost part_itself = { λ request. refl };

    ghost part_of_part = { GetPart-part };
}

impl Shardable for CleanupRequest {
    type Shard = Key;

    ghost Load = { Bytes };

    ghost load = { λ request. request.key };

    ghost load_of = { λ shard. shard };

    ghost AreCut = { IsAlone };

    ghost LiesIn = { KeyLiesIn };

    ghost IsFound = { λ request found. KeyIsFound request.key found };

    ghost Applies = { λ old shard store new. IsPlaced store old.context new.context × (new ≡ record old { context = new.context; key = shard }) };

    ghost IsPart = { CleanupPart };

    fn shards<C: PdClient>(
        &self,
        alloc: Global,
        pd: &mut C,
        found: &mut ShardList<Key>,
    ) -> Result<Option<PdQuery>> {
        shard_of_key(&self.key, pd, found)
    }

    fn apply_shard(&mut self, shard: Key, store: &RegionStore) -> Result<()> {
        let context = store.region_with_leader.context()?;
        keep_version(&mut self.context, context);
        self.key = shard;
        Ok(())
    }

    ghost none_found = { λ request found fresh. KeyIsFound-none request.key found fresh };

    ghost cut_whole = { λ whole. refl };

    ghost cut_again = { IsAlone-again };

    ghost applied_load = { λ old new shard store before behind cut applied. ap (λ r. r.key) applied.1 };

    ghost applied_part = { λ old new shard store before behind cut applied. CleanupPart-applied old new shard before behind cut applied.1 };

    ghost part_itself = { λ request. refl };

    ghost part_of_part = { CleanupPart-part };
}

impl Shardable for TxnHeartBeatRequest {
    type Shard = Key;

    ghost Load = { Bytes };

    ghost load = { λ request. request.primary_lock };

    ghost load_of = { λ shard. shard };

    ghost AreCut = { IsAlone };

    ghost LiesIn = { KeyLiesIn };

    ghost IsFound = { λ request found. KeyIsFound request.primary_lock found };

    ghost Applies = { λ old shard store new. IsPlaced store old.context new.context × (new ≡ record old { context = new.context; primary_lock = shard }) };

    ghost IsPart = { TxnHeartBeatPart };

    fn shards<C: PdClient>(
        &self,
        alloc: Global,
        pd: &mut C,
        found: &mut ShardList<Key>,
    ) -> Result<Option<PdQuery>> {
        shard_of_key(&self.primary_lock, pd, found)
    }

    fn apply_shard(&mut self, shard: Key, store: &RegionStore) -> Result<()> {
        let context = store.region_with_leader.context()?;
        keep_version(&mut self.context, context);
        self.primary_lock = shard;
        Ok(())
    }

    ghost none_found = { λ request found fresh. KeyIsFound-none request.primary_lock found fresh };

    ghost cut_whole = { λ whole. refl };

    ghost cut_again = { IsAlone-again };

    ghost applied_load = { λ old new shard store before behind cut applied. ap (λ r. r.primary_lock) applied.1 };

    ghost applied_part = { λ old new shard store before behind cut applied. TxnHeartBeatPart-applied old new shard before behind cut applied.1 };

    ghost part_itself = { λ request. refl };

    ghost part_of_part = { TxnHeartBeatPart-part };
}

impl Shardable for CheckTxnStatusRequest {
    type Shard = Key;

    ghost Load = { Bytes };

    ghost load = { λ request. request.primary_key };

    ghost load_of = { λ shard. shard };

    ghost AreCut = { IsAlone };

    ghost LiesIn = { KeyLiesIn };

    ghost IsFound = { λ request found. KeyIsFound request.primary_key found };

    ghost Applies = { λ old shard store new. IsPlaced store old.context new.context × (new ≡ record old { context = new.context; primary_key = shard }) };

    ghost IsPart = { CheckTxnStatusPart };

    fn shards<C: PdClient>(
        &self,
        alloc: Global,
        pd: &mut C,
        found: &mut ShardList<Key>,
    ) -> Result<Option<PdQuery>> {
        shard_of_key(&self.primary_key, pd, found)
    }

    fn apply_shard(&mut self, shard: Key, store: &RegionStore) -> Result<()> {
        let context = store.region_with_leader.context()?;
        keep_version(&mut self.context, context);
        self.primary_key = shard;
        Ok(())
    }

    ghost none_found = { λ request found fresh. KeyIsFound-none request.primary_key found fresh };

    ghost cut_whole = { λ whole. refl };

    ghost cut_again = { IsAlone-again };

    ghost applied_load = { λ old new shard store before behind cut applied. ap (λ r. r.primary_key) applied.1 };

    ghost applied_part = { λ old new shard store before behind cut applied. CheckTxnStatusPart-applied old new shard before behind cut applied.1 };

    ghost part_itself = { λ request. refl };

    ghost part_of_part = { CheckTxnStatusPart-part };
}
