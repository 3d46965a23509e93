ghost use Rattle.std.specs.Prelude.{◌≡◌, None, false};
ghost use Rattle.txn_history.specs.Meaning.{IsUnbegun};
ghost use Rattle.txn_plan.specs.Dispatch.{unsent};
ghost use Rattle.txn_commit_plans.specs.OverRegions.{over_regions, over_regions-lawful};

use std::alloc::Global;
use std::marker::Model;
use txn_kv::{Arrival, NoMemory, Outbox, Progress};
use txn_merge::{HasKeyErrors, HasLocks, HasRegionError, RetryOptions};
use txn_multi::{RegionRequest, RetryableMultiRegion};
use txn_plan::{Dispatch, Plan};
use txn_region::PdClient;
use txn_resolve::ResolveLock;

type Inner<R> = RetryableMultiRegion<ResolveLock<Dispatch<R>>>;

/// A request whose shards go to their regions, and are refused there for locks. It is a type of its own, so that what is asked of
/// plans is proved once for all requests, and a plan around it has a short name.
pub struct OverRegions<R: RegionRequest>
where
    R::Response: Drop + HasKeyErrors + HasLocks + HasRegionError,
{
    inner: Inner<R>,
}

impl<R: RegionRequest> Drop for OverRegions<R>
where
    R::Response: Drop + HasKeyErrors + HasLocks + HasRegionError,
{
    fn drop(self) {
        let OverRegions { inner } = self;
        drop(inner);
    }
}

/// It is seen as the plan that it holds.
impl<R: RegionRequest> Model for OverRegions<R>
where
    R::Response: Drop + HasKeyErrors + HasLocks + HasRegionError,
{
    ghost use Rattle.std.specs.Coded.{codes};
    ghost use Rattle.txn_commit_plans.specs.OverRegions.{Shard};
    ghost use Rattle.txn_kv.specs.contracts.errors.Error as error;
    ghost use Rattle.txn_multi.specs.declared.multi_region.RetryableMultiRegion.{RetryableMultiRegion};

    ghost Value = { RetryableMultiRegion (Shard R R.Response) R.Response R.Shard };

    ghost coded = { Prim.hlevel (codes, error.the_row.coded) };

    ghost view = { λ plan. plan.inner };
}

impl<R: RegionRequest> OverRegions<R>
where
    R::Response: Drop + HasKeyErrors + HasLocks + HasRegionError,
{
    /// The most parts that its request, or a part of it, was cut into so far.
    pub fn width(&self) -> usize
        ensures { result ≡ (over_regions R.request_of R.reply_of R.Response.key_errors_in R.Response.region_error_in R.Response.locks R.IsPart R.load R.AreCut R.most).width self.now }
    {
        self.inner.width()
    }
}

impl<R: RegionRequest> Plan for OverRegions<R>
where
    R::Response: Drop + HasKeyErrors + HasLocks + HasRegionError,
{
    type Result = Vec<txn_kv::Result<R::Response>>;

    ghost meaning = { over_regions R.request_of R.reply_of R.Response.key_errors_in R.Response.region_error_in R.Response.locks R.IsPart R.load R.AreCut R.most };

    ghost touches = { λ touch told from old new pd pd'. ⟦<RetryableMultiRegion<ResolveLock<Dispatch<R>>> as Plan>⟧.touches touch told from old new pd pd' };

    fn try_clone(&self) -> Result<Self, NoMemory> {
        Ok(OverRegions {
            inner: self.inner.try_clone()?,
        })
    }

    fn start<C: PdClient>(
        &mut self,
        pd: &mut C,
        now: u64,
        out: &mut Outbox,
    ) -> Result<Progress<Self::Result>, NoMemory> {
        self.inner.start(pd, now, out)
    }

    fn tell<C: PdClient>(
        &mut self,
        pd: &mut C,
        now: u64,
        arrival: Arrival,
        out: &mut Outbox,
    ) -> Result<Progress<Self::Result>, NoMemory> {
        self.inner.tell(pd, now, arrival, out)
    }

    ghost lawful = { over_regions-lawful R.request_of R.reply_of R.Response.key_errors_in R.Response.region_error_in R.Response.locks R.IsPart R.load R.AreCut R.most };
}

/// A plan of the request that is not begun. A shard is tried again as often as the backoff for regions has attempts.
pub fn plan_over_regions<R: RegionRequest>(
    alloc: Global,
    request: R,
    retry_options: RetryOptions,
) -> OverRegions<R>
where
    R::Response: Drop + HasKeyErrors + HasLocks + HasRegionError,
    ensures request { result.inner.inner ≡ unsent request None }
    ensures locks { result.inner.backoff ≡ retry_options.lock_backoff }
    ensures backoff { result.backoff ≡ retry_options.region_backoff }
    ensures errors { result.preserve_region_results ≡ false }
    ensures unbegun { IsUnbegun (over_regions R.request_of R.reply_of R.Response.key_errors_in R.Response.region_error_in R.Response.locks R.IsPart R.load R.AreCut R.most) result }
    ensures ready { (over_regions R.request_of R.reply_of R.Response.key_errors_in R.Response.region_error_in R.Response.locks R.IsPart R.load R.AreCut R.most).ready result }
{
    let sent = Dispatch::new(request, None);
    let locked = ResolveLock::new(alloc, sent, retry_options.lock_backoff);
    let inner = RetryableMultiRegion::new(alloc, locked, retry_options.region_backoff, false);
    OverRegions { inner }
}
