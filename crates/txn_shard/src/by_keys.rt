//! Requests for keys, sorted by key and grouped by region. Prewrites and commits are cut into batches besides.
ghost use Rattle.std.specs.Prelude.{◌≡◌, ◌++◌, ◌∷◌, ◌<◌, ◌≤◌, ◌+◌, [], List, ℕ, Ok, Some, None, IfErr, IfOk, IfSome, OnOk, OnErr, length, map, drop, take, slice_range, refl};
ghost use Rattle.std.proofs.Common.{ap, ◌∙◌};
ghost use Rattle.std.specs.List.{All};
ghost use Rattle.txn_kv.specs.declared.message.Mutation.{Mutation as Mutated};
ghost use Rattle.txn_kv.specs.declared.errors.Error.TheVariants.{OutOfMemory};
ghost use Rattle.txn_region.specs.Clients.{IsPlaceQuery, IsUsable};
ghost use Rattle.txn_region.specs.Groups.{IsKeyGroup};
ghost use Rattle.txn_region.specs.Regions.{Key as Bytes};
ghost use Rattle.txn_shard.specs.Cutting.{AreJoined-whole, AreJoined-again, ArePieces-whole, ArePieces-again, piece_in_order};
ghost use Rattle.txn_shard.specs.Order.{in_order};
ghost use Rattle.txn_shard.specs.Parting.{KeysAreFound-none, BatchGetPart-applied, BatchGetPart-part, BatchRollbackPart-applied, BatchRollbackPart-part, PessimisticRollbackPart-applied, PessimisticRollbackPart-part, CheckSecondaryLocksPart-applied, CheckSecondaryLocksPart-part, CommitPart-applied, CommitPart-part, PrewritePart-applied, PrewritePart-part, PessimisticLockPart-applied, PessimisticLockPart-part};
ghost use Rattle.txn_shard.specs.Parts.{IsPlaced, BatchGetPart, BatchRollbackPart, PessimisticRollbackPart, CheckSecondaryLocksPart, CommitPart, PrewritePart, PessimisticLockPart};
ghost use Rattle.txn_shard.specs.Shards.{shards_of, AreJoined, ArePieces, AreShards, KeysAreFound, KeysLieIn};
ghost use Rattle.txn_shard.specs.declared.batchable.TheConstants.{TXN_COMMIT_BATCH_SIZE};

use crate::batchable::{TXN_COMMIT_BATCH_SIZE, batch_of, in_batches};
use crate::in_bytes::InBytes;
use crate::shard_list::ShardList;
use crate::shardable::Shardable;
use crate::sorted::sorted;
use std::alloc::Global;
use txn_kv::request::keep_version;
use txn_kv::{
    BatchGetRequest, BatchRollbackRequest, CheckSecondaryLocksRequest, CommitRequest, Items, Key,
    Look, Mutation, NoMemory, PdQuery, PessimisticLockRequest, PessimisticRollbackRequest,
    PrewriteRequest, Result, TryClone,
};
use txn_region::store::store_stream_for_keys;
use txn_region::{AsKey, PdClient, RegionStore};

/// Goes on finding the groups of the items that lie in one region each, in order of their keys. A group is cut into batches
/// where there is a batch size.
fn shards_by_keys<K: AsKey + TryClone + InBytes, C: PdClient>(
    alloc: Global,
    items: &[K],
    batch_size: Option<u64>,
    pd: &mut C,
    found: &mut ShardList<Items<K>>,
) -> Result<Option<PdQuery>>
    requires { KeysAreFound K.key K.count batch_size (in_order K.key items.now) found.old }
    ensures kept { KeysAreFound K.key K.count batch_size (in_order K.key items.now) found.new }
    ensures stays { (more : List (List _ × RegionStore)) × (found.new.shards.items ≡ found.old.shards.items ++ more) }
    ensures all { result ≡ Ok None → AreJoined (in_order K.key items.now) (shards_of found.new) }
    ensures left { IfOk result (λ query. IfSome query (λ q. IsPlaceQuery q × C.asks pd.new q × (AreJoined (in_order K.key items.now) (shards_of found.new) → ⊥))) }
    ensures why { IfErr result (λ error. error ≡ OutOfMemory) }
    ensures changed { C.looked pd.old pd.new }
{
    let order = order_of(alloc, items, found)?;
    let query = find_groups(alloc, order.as_slice(), batch_size, pd, found);
    found.sorted = Some(order);
    query
}

/// The items in order of their keys, as they were kept, or sorted now.
fn order_of<K: AsKey + TryClone>(
    alloc: Global,
    items: &[K],
    found: &mut ShardList<Items<K>>,
) -> std::result::Result<Items<K>, NoMemory>
    requires { IfSome found.old.sorted (λ order. order ≡ in_order K.key items.now) }
    ensures order { IfOk result (λ order. order ≡ in_order K.key items.now) }
    ensures state { found.new ≡ record found.old { sorted = found.new.sorted } }
    ensures kept { IfSome found.new.sorted (λ order. order ≡ in_order K.key items.now) }
{
    match found.sorted.take() {
        Some(order) => Ok(order),
        None => sorted(alloc, items),
    }
}

/// Finds groups until all items are in shards or a query has to be asked.
fn find_groups<K: AsKey + TryClone + InBytes, C: PdClient>(
    alloc: Global,
    order: &[K],
    batch_size: Option<u64>,
    pd: &mut C,
    found: &mut ShardList<Items<K>>,
) -> Result<Option<PdQuery>>
    requires { KeysAreFound K.key K.count batch_size order.now found.old }
    ensures kept { KeysAreFound K.key K.count batch_size order.now found.new }
    ensures stays { (more : List (List _ × RegionStore)) × (found.new.shards.items ≡ found.old.shards.items ++ more) }
    ensures all { result ≡ Ok None → AreJoined order.now (shards_of found.new) }
    ensures left { IfOk result (λ query. IfSome query (λ q. IsPlaceQuery q × C.asks pd.new q × (AreJoined order.now (shards_of found.new) → ⊥))) }
    ensures why { IfErr result (λ error. error ≡ OutOfMemory) }
    ensures changed { C.looked pd.old pd.new }
{
    while found.next < order.len() {
        match store_stream_for_keys(order, found.next, pd)? {
            Look::Found((store, end)) => add_group(alloc, order, end, batch_size, store, found)?,
            Look::Query(query) => return Ok(Some(query)),
            Look::Wait => unreachable!(),
        }
    }
    Ok(None)
}

/// Puts the group up to a place into shards for a store.
fn add_group<K: AsKey + TryClone + InBytes>(
    alloc: Global,
    order: &[K],
    end: usize,
    batch_size: Option<u64>,
    store: RegionStore,
    found: &mut ShardList<Items<K>>,
) -> std::result::Result<(), NoMemory>
    requires found { KeysAreFound K.key K.count batch_size order.now found.old }
    requires usable { IsUsable store.region_with_leader }
    requires group { IsKeyGroup (map K.key order.now) found.old.next store.region_with_leader.region end }
    ensures kept { KeysAreFound K.key K.count batch_size order.now found.new }
    ensures stays { (more : List (List _ × RegionStore)) × (found.new.shards.items ≡ found.old.shards.items ++ more) }
    ensures next { OnOk result (found.new.next ≡ end) }
{
    let group = K::try_clone_all(&order[found.next..end], alloc)?;
    let shards = cut_group(alloc, group, batch_size)?;
    let mut more = for_store(alloc, shards, &store)?;
    found.shards.append(&mut more)?;
    found.next = end;
    Ok(())
}

fn cut_group<K: InBytes>(
    alloc: Global,
    group: Vec<K>,
    batch_size: Option<u64>,
) -> std::result::Result<Vec<Vec<K>>, NoMemory>
    requires { 0 < length group.items }
    ensures { IfOk result (λ shards. AreShards K.count batch_size group.items (map (λ shard. shard.items) shards.items)) }
{
    match batch_size {
        None => batch_of(alloc, group),
        Some(batch_size) => in_batches(alloc, group, batch_size),
    }
}

/// The shards, each with the same store.
fn for_store<K: Drop>(
    alloc: Global,
    shards: Vec<Vec<K>>,
    store: &RegionStore,
) -> std::result::Result<Vec<(Items<K>, RegionStore)>, NoMemory>
    ensures { IfOk result (λ more. more.items ≡ map (λ shard. (shard.items, store.now)) shards.items) }
{
    let mut more = Vec::new(alloc);
    for shard in shards {
        more.push((Items::from_vec(shard), store.try_clone()?))?;
    }
    Ok(more)
}

impl Shardable for BatchGetRequest {
    type Shard = Items<Key>;

    ghost Load = { List Bytes };

    ghost load = { λ request. in_order (λ key. key) request.keys };

    ghost load_of = { λ shard. shard };

    ghost AreCut = { λ whole pieces. AreJoined whole pieces };

    ghost LiesIn = { KeysLieIn (λ key. key) };

    ghost IsFound = { λ request found. KeysAreFound (λ key. key) (λ key. length key) None (in_order (λ key. key) request.keys) found };

    ghost Applies = { λ old shard store new. IsPlaced store old.context new.context × (new ≡ record old { context = new.context; keys = shard }) };

    ghost IsPart = { BatchGetPart };

    fn shards<C: PdClient>(
        &self,
        alloc: Global,
        pd: &mut C,
        found: &mut ShardList<Items<Key>>,
    ) -> Result<Option<PdQuery>> {
        shards_by_keys(alloc, self.keys.as_slice(), None, pd, found)
    }

    fn apply_shard(&mut self, shard: Items<Key>, store: &RegionStore) -> Result<()> {
        let context = store.region_with_leader.context()?;
        keep_version(&mut self.context, context);
        self.keys = shard;
        Ok(())
    }

    ghost none_found = { λ request found fresh. KeysAreFound-none (λ key. key) (λ key. length key) None (in_order (λ key. key) request.keys) found fresh };

    ghost cut_whole = { AreJoined-whole };

    ghost cut_again = { AreJoined-again };

    ghost applied_load = { λ old new shard store before behind cut applied. ap (λ r. in_order (λ key. key) r.keys) applied.1 ∙ piece_in_order (λ key. key) old.keys shard before behind cut };

    ghost applied_part = { λ old new shard store before behind cut applied. BatchGetPart-applied old new shard before behind cut applied.1 };

    ghost part_itself = { λ request. (refl, λ x among. among) };

    ghost part_of_part = { BatchGetPart-part };
}

impl Shardable for BatchRollbackRequest {
    type Shard = Items<Key>;

    ghost Load = { List Bytes };

    ghost load = { λ request. in_order (λ key. key) request.keys };

    ghost load_of = { λ shard. shard };

    ghost AreCut = { λ whole pieces. AreJoined whole pieces };

    ghost LiesIn = { KeysLieIn (λ key. key) };

    ghost IsFound = { λ request found. KeysAreFound (λ key. key) (λ key. length key) None (in_order (λ key. key) request.keys) found };

    ghost Applies = { λ old shard store new. IsPlaced store old.context new.context × (new ≡ record old { context = new.context; keys = shard }) };

    ghost IsPart = { BatchRollbackPart };

    fn shards<C: PdClient>(
        &self,
        alloc: Global,
        pd: &mut C,
        found: &mut ShardList<Items<Key>>,
    ) -> Result<Option<PdQuery>> {
        shards_by_keys(alloc, self.keys.as_slice(), None, pd, found)
    }

    fn apply_shard(&mut self, shard: Items<Key>, store: &RegionStore) -> Result<()> {
        let context = store.region_with_leader.context()?;
        keep_version(&mut self.context, context);
        self.keys = shard;
        Ok(())
    }

    ghost none_found = { λ request found fresh. KeysAreFound-none (λ key. key) (λ key. length key) None (in_order (λ key. key) request.keys) found fresh };

    ghost cut_whole = { AreJoined-whole };

    ghost cut_again = { AreJoined-again };

    ghost applied_load = { λ old new shard store before behind cut applied. ap (λ r. in_order (λ key. key) r.keys) applied.1 ∙ piece_in_order (λ key. key) old.keys shard before behind cut };

    ghost applied_part = { λ old new shard store before behind cut applied. BatchRollbackPart-applied old new shard before behind cut applied.1 };

    ghost part_itself = { λ request. (refl, λ x among. among) };

    ghost part_of_part = { BatchRollbackPart-part };
}

impl Shardable for PessimisticRollbackRequest {
    type Shard = Items<Key>;

    ghost Load = { List Bytes };

    ghost load = { λ request. in_order (λ key. key) request.keys };

    ghost load_of = { λ shard. shard };

    ghost AreCut = { λ whole pieces. AreJoined whole pieces };

    ghost LiesIn = { KeysLieIn (λ key. key) };

    ghost IsFound = { λ request found. KeysAreFound (λ key. key) (λ key. length key) None (in_order (λ key. key) request.keys) found };

    ghost Applies = { λ old shard store new. IsPlaced store old.context new.context × (new ≡ record old { context = new.context; keys = shard }) };

    ghost IsPart = { PessimisticRollbackPart };

    fn shards<C: PdClient>(
        &self,
        alloc: Global,
        pd: &mut C,
        found: &mut ShardList<Items<Key>>,
    ) -> Result<Option<PdQuery>> {
        shards_by_keys(alloc, self.keys.as_slice(), None, pd, found)
    }

    fn apply_shard(&mut self, shard: Items<Key>, store: &RegionStore) -> Result<()> {
        let context = store.region_with_leader.context()?;
        keep_version(&mut self.context, context);
        self.keys = shard;
        Ok(())
    }

    ghost none_found = { λ request found fresh. KeysAreFound-none (λ key. key) (λ key. length key) None (in_order (λ key. key) request.keys) found fresh };

    ghost cut_whole = { AreJoined-whole };

    ghost cut_again = { AreJoined-again };

    ghost applied_load = { λ old new shard store before behind cut applied. ap (λ r. in_order (λ key. key) r.keys) applied.1 ∙ piece_in_order (λ key. key) old.keys shard before behind cut };

    ghost applied_part = { λ old new shard store before behind cut applied. PessimisticRollbackPart-applied old new shard before behind cut applied.1 };

    ghost part_itself = { λ request. (refl, λ x among. among) };

    ghost part_of_part = { PessimisticRollbackPart-part };
}

impl Shardable for CheckSecondaryLocksRequest {
    type Shard = Items<Key>;

    ghost Load = { List Bytes };

    ghost load = { λ request. in_order (λ key. key) request.keys };

    ghost load_of = { λ shard. shard };

    ghost AreCut = { λ whole pieces. AreJoined whole pieces };

    ghost LiesIn = { KeysLieIn (λ key. key) };

    ghost IsFound = { λ request found. KeysAreFound (λ key. key) (λ key. length key) None (in_order (λ key. key) request.keys) found };

    ghost Applies = { λ old shard store new. IsPlaced store old.context new.context × (new ≡ record old { context = new.context; keys = shard }) };

    ghost IsPart = { CheckSecondaryLocksPart };

    fn shards<C: PdClient>(
        &self,
        alloc: Global,
        pd: &mut C,
        found: &mut ShardList<Items<Key>>,
    ) -> Result<Option<PdQuery>> {
        shards_by_keys(alloc, self.keys.as_slice(), None, pd, found)
    }

    fn apply_shard(&mut self, shard: Items<Key>, store: &RegionStore) -> Result<()> {
        let context = store.region_with_leader.context()?;
        keep_version(&mut self.context, context);
        self.keys = shard;
        Ok(())
    }

    ghost none_found = { λ request found fresh. KeysAreFound-none (λ key. key) (λ key. length key) None (in_order (λ key. key) request.keys) found fresh };

    ghost cut_whole = { AreJoined-whole };

    ghost cut_again = { AreJoined-again };

    ghost applied_load = { λ old new shard store before behind cut applied. ap (λ r. in_order (λ key. key) r.keys) applied.1 ∙ piece_in_order (λ key. key) old.keys shard before behind cut };

    ghost applied_part = { λ old new shard store before behind cut applied. CheckSecondaryLocksPart-applied old new shard before behind cut applied.1 };

    ghost part_itself = { λ request. (refl, λ x among. among) };

    ghost part_of_part = { CheckSecondaryLocksPart-part };
}

impl Shardable for CommitRequest {
    type Shard = Items<Key>;

    ghost Load = { List Bytes };

    ghost load = { λ request. in_order (λ key. key) request.keys };

    ghost load_of = { λ shard. shard };

    ghost AreCut = { λ whole pieces. ArePieces whole pieces };

    ghost LiesIn = { KeysLieIn (λ key. key) };

    ghost IsFound = { λ request found. KeysAreFound (λ key. key) (λ key. length key) (Some TXN_COMMIT_BATCH_SIZE) (in_order (λ key. key) request.keys) found };

    ghost Applies = { λ old shard store new. IsPlaced store old.context new.context × (new ≡ record old { context = new.context; keys = shard }) };

    ghost IsPart = { CommitPart };

    fn shards<C: PdClient>(
        &self,
        alloc: Global,
        pd: &mut C,
        found: &mut ShardList<Items<Key>>,
    ) -> Result<Option<PdQuery>> {
        shards_by_keys(
            alloc,
            self.keys.as_slice(),
            Some(TXN_COMMIT_BATCH_SIZE),
            pd,
            found,
        )
    }

    fn apply_shard(&mut self, shard: Items<Key>, store: &RegionStore) -> Result<()> {
        let context = store.region_with_leader.context()?;
        keep_version(&mut self.context, context);
        self.keys = shard;
        Ok(())
    }

    ghost none_found = { λ request found fresh. KeysAreFound-none (λ key. key) (λ key. length key) (Some TXN_COMMIT_BATCH_SIZE) (in_order (λ key. key) request.keys) found fresh };

    ghost cut_whole = { ArePieces-whole };

    ghost cut_again = { ArePieces-again };

    ghost applied_load = { λ old new shard store before behind cut applied. ap (λ r. in_order (λ key. key) r.keys) applied.1 ∙ piece_in_order (λ key. key) old.keys shard before behind cut.joined };

    ghost applied_part = { λ old new shard store before behind cut applied. CommitPart-applied old new shard before behind cut applied.1 };

    ghost part_itself = { λ request. (refl, (λ x among. among), λ some. some) };

    ghost part_of_part = { CommitPart-part };
}

impl Shardable for PrewriteRequest {
    type Shard = Items<Mutation>;

    ghost Load = { List Mutated };

    ghost load = { λ request. in_order (λ mutation. mutation.key) request.mutations };

    ghost load_of = { λ shard. shard };

    ghost AreCut = { λ whole pieces. AreJoined whole pieces };

    ghost LiesIn = { KeysLieIn (λ mutation. mutation.key) };

    ghost IsFound = { λ request found. KeysAreFound (λ mutation. mutation.key) (λ mutation. length mutation.key + length mutation.value) (Some TXN_COMMIT_BATCH_SIZE) (in_order (λ mutation. mutation.key) request.mutations) found };

    ghost Applies = { λ old shard store new. IsPlaced store old.context new.context × (new ≡ record old { context = new.context; mutations = shard }) };

    ghost IsPart = { PrewritePart };

    fn shards<C: PdClient>(
        &self,
        alloc: Global,
        pd: &mut C,
        found: &mut ShardList<Items<Mutation>>,
    ) -> Result<Option<PdQuery>> {
        shards_by_keys(
            alloc,
            self.mutations.as_slice(),
            Some(TXN_COMMIT_BATCH_SIZE),
            pd,
            found,
        )
    }

    fn apply_shard(&mut self, shard: Items<Mutation>, store: &RegionStore) -> Result<()> {
        let context = store.region_with_leader.context()?;
        keep_version(&mut self.context, context);
        self.mutations = shard;
        Ok(())
    }

    ghost none_found = { λ request found fresh. KeysAreFound-none (λ mutation. mutation.key) (λ mutation. length mutation.key + length mutation.value) (Some TXN_COMMIT_BATCH_SIZE) (in_order (λ mutation. mutation.key) request.mutations) found fresh };

    ghost cut_whole = { AreJoined-whole };

    ghost cut_again = { AreJoined-again };

    ghost applied_load = { λ old new shard store before behind cut applied. ap (λ r. in_order (λ mutation. mutation.key) r.mutations) applied.1 ∙ piece_in_order (λ mutation. mutation.key) old.mutations shard before behind cut };

    ghost applied_part = { λ old new shard store before behind cut applied. PrewritePart-applied old new shard before behind cut applied.1 };

    ghost part_itself = { λ request. (refl, (λ x among. among), λ distinct. distinct) };

    ghost part_of_part = { PrewritePart-part };
}

impl Shardable for PessimisticLockRequest {
    type Shard = Items<Mutation>;

    ghost Load = { List Mutated };

    ghost load = { λ request. in_order (λ mutation. mutation.key) request.mutations };

    ghost load_of = { λ shard. shard };

    ghost AreCut = { λ whole pieces. AreJoined whole pieces };

    ghost LiesIn = { KeysLieIn (λ mutation. mutation.key) };

    ghost IsFound = { λ request found. KeysAreFound (λ mutation. mutation.key) (λ mutation. length mutation.key + length mutation.value) None (in_order (λ mutation. mutation.key) request.mutations) found };

    ghost Applies = { λ old shard store new. IsPlaced store old.context new.context × (new ≡ record old { context = new.context; mutations = shard }) };

    ghost IsPart = { PessimisticLockPart };

    fn shards<C: PdClient>(
        &self,
        alloc: Global,
        pd: &mut C,
        found: &mut ShardList<Items<Mutation>>,
    ) -> Result<Option<PdQuery>> {
        shards_by_keys(alloc, self.mutations.as_slice(), None, pd, found)
    }

    fn apply_shard(&mut self, shard: Items<Mutation>, store: &RegionStore) -> Result<()> {
        let context = store.region_with_leader.context()?;
        keep_version(&mut self.context, context);
        self.mutations = shard;
        Ok(())
    }

    ghost none_found = { λ request found fresh. KeysAreFound-none (λ mutation. mutation.key) (λ mutation. length mutation.key + length mutation.value) None (in_order (λ mutation. mutation.key) request.mutations) found fresh };

    ghost cut_whole = { AreJoined-whole };

    ghost cut_again = { AreJoined-again };

    ghost applied_load = { λ old new shard store before behind cut applied. ap (λ r. in_order (λ mutation. mutation.key) r.mutations) applied.1 ∙ piece_in_order (λ mutation. mutation.key) old.mutations shard before behind cut };

    ghost applied_part = { λ old new shard store before behind cut applied. PessimisticLockPart-applied old new shard before behind cut applied.1 };

    ghost part_itself = { λ request. (refl, λ x among. among) };

    ghost part_of_part = { PessimisticLockPart-part };
}
