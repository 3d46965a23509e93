//! A plan that is refused for locks is cut as its inner plan is.
ghost use Rattle.std.specs.Prelude.{◌≡◌};
ghost use Rattle.txn_multi.specs.Few.{few_inside};
ghost use Rattle.txn_resolve.specs.Applied.{unlocked_applied};

use crate::resolve_lock::ResolveLock;
use std::alloc::Global;
use txn_kv::{PdQuery, Result};
use txn_merge::{HasKeyErrors, HasLocks, HasRegionError};
use txn_multi::RegionPlan;
use txn_plan::{Plan, ShardPlan};
use txn_region::{PdClient, RegionStore};
use txn_shard::{ShardList, Shardable};

impl<P: Plan + Shardable> Shardable for ResolveLock<P>
where
    P::Result: HasLocks,
{
    type Shard = P::Shard;

    ghost Load = { P.Load };

    ghost load = { λ s. P.load s.inner };

    ghost load_of = { P.load_of };

    ghost AreCut = { P.AreCut };

    ghost LiesIn = { P.LiesIn };

    ghost IsFound = { λ s found. P.IsFound s.inner found };

    ghost Applies = { λ old shard store new. P.Applies old.inner shard store new.inner × (new ≡ record old { inner = new.inner }) };

    ghost IsPart = { λ part whole. P.IsPart part.inner whole.inner };

    fn shards<C: PdClient>(
        &self,
        alloc: Global,
        pd: &mut C,
        found: &mut ShardList<P::Shard>,
    ) -> Result<Option<PdQuery>> {
        self.inner.shards(alloc, pd, found)
    }

    fn apply_shard(&mut self, shard: P::Shard, store: &RegionStore) -> Result<()> {
        self.inner.apply_shard(shard, store)
    }

    ghost none_found = { λ s found fresh. P.none_found s.inner found fresh };

    ghost cut_whole = { P.cut_whole };

    ghost cut_again = { P.cut_again };

    ghost applied_load = { λ old new shard store before behind cut applied. P.applied_load old.inner new.inner shard store before behind cut applied.0 };

    ghost applied_part = { λ old new shard store before behind cut applied. P.applied_part old.inner new.inner shard store before behind cut applied.0 };

    ghost part_itself = { λ s. P.part_itself s.inner };

    ghost part_of_part = { λ a b c p q. P.part_of_part a.inner b.inner c.inner p q };
}

impl<P: ShardPlan> ShardPlan for ResolveLock<P>
where
    P::Result: HasLocks,
{
    ghost applied_unbegun = { λ old new shard store unbegun applied. unlocked_applied P.meaning P.Result.locks old new (λ u. P.applied_unbegun old.inner new.inner shard store u applied.0) unbegun };
}

/// A reply with a region error is tried again unless it carries locks too: then it is `ResolveLockError` of them.
impl<P: RegionPlan> RegionPlan for ResolveLock<P>
where
    P::Result: HasLocks + HasKeyErrors + HasRegionError,
{
    ghost most = { λ plan. P.most plan.inner };

    ghost few = { λ plan found is. few_inside P.most P.Applies (λ (p : Self). p.inner) Self.Shardable.Applies (λ whole part shard store applied. applied.0) plan found.shards.items (P.few plan.inner found is) };

    ghost better_lost = { λ ticket. P.better_lost ticket };

    ghost better_refused = { λ reply error is. P.better_refused reply error is };

    ghost uncut = { λ plan. P.uncut plan.inner };
}
