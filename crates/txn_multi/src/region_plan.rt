ghost use Rattle.std.specs.Prelude.{◌≡◌, ◌≤◌, refl, true, Err, Ok, Some};
ghost use Rattle.txn_kv.specs.declared.errors.Error.TheVariants.{GrpcAPI};
ghost use Rattle.txn_kv.specs.declared.message.RegionErr.{RegionErr};
ghost use Rattle.txn_kv.specs.declared.ticket.Ticket.{Ticket};
ghost use Rattle.txn_multi.specs.Few.{few_inside, AreFew};
ghost use Rattle.txn_multi.specs.Shown.{none_is_few};

use crate::region_request::RegionRequest;
use txn_kv::TryClone;
use txn_merge::{HasKeyErrors, HasRegionError};
use txn_plan::{Dispatch, Plan, PreserveShard, ShardPlan};

/// A plan for one region, which is tried again where a request was lost or refused for its region.
pub trait RegionPlan: ShardPlan
where
    Self::Result: HasKeyErrors + HasRegionError,
{
    ghost use Rattle.std.specs.Prelude.{ℕ};
    ghost use Rattle.txn_shard.specs.declared.shard_list.ShardList.{ShardList};

    // The most parts that it is cut into, where nothing is cut into more than so many.
    ghost most: { Self → ℕ → ℕ };

    // No more shards are found than that.
    ghost few: { (plan : Self) (found : ShardList Self.Shard) → Self.Shardable.IsFound plan found → AreFew most Self.Shardable.Applies plan found.shards.items };

    // A new run may better a loss, and a reply with an error of the region.
    ghost better_lost: { (ticket : Ticket) → Self.Plan.meaning.fails (Err (GrpcAPI ticket)) ≡ true };

    ghost better_refused: { (reply : Self.Result) (error : RegionErr) → Self.Result.region_error_in reply ≡ Some error → Self.Plan.meaning.fails (Ok reply) ≡ true };

    // It cuts nothing itself.
    ghost uncut: { (plan : Self) → Self.Plan.meaning.width plan ≤ 1 };
}

impl<R: RegionRequest> RegionPlan for Dispatch<R>
where
    R::Response: Drop + HasKeyErrors + HasRegionError,
{
    ghost most = { λ plan. R.most plan.request };

    ghost few = { λ plan found is. few_inside R.most R.Applies (λ (p : Self). p.request) Self.Shardable.Applies (λ whole part shard store applied. applied.0) plan found.shards.items (R.few plan.request found is) };

    ghost better_lost = { λ ticket. refl };

    ghost better_refused = { λ reply error is. R.shown reply error is };

    ghost uncut = { λ plan. none_is_few };
}

impl<P: RegionPlan> RegionPlan for PreserveShard<P>
where
    P::Result: HasKeyErrors + HasRegionError,
    P::Shard: TryClone,
{
    ghost most = { λ plan. P.most plan.inner };

    ghost few = { λ plan found is. few_inside P.most P.Applies (λ (p : Self). p.inner) Self.Shardable.Applies (λ whole part shard store applied. applied.0) plan found.shards.items (P.few plan.inner found is) };

    ghost better_lost = { λ ticket. P.better_lost ticket };

    ghost better_refused = { λ reply error is. P.better_refused reply.0 error is };

    ghost uncut = { λ plan. P.uncut plan.inner };
}
