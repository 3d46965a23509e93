ghost use Rattle.std.specs.Prelude.{◌≡◌, ◌⊎◌, IfErr, IfOk, None, Ok, Err, false, true};
ghost use Rattle.txn_history.specs.Meaning.{IsUnbegun};
ghost use Rattle.txn_kv.specs.Region.{context_of};
ghost use Rattle.txn_kv.specs.declared.errors.Error.TheVariants.{OutOfMemory};
ghost use Rattle.txn_builder.specs.Built.{IsAimed};
ghost use Rattle.txn_multi.specs.Multi.{multi};
ghost use Rattle.txn_plan.specs.Dispatch.{unsent};
ghost use Rattle.txn_plan.specs.Merged.{merged};
ghost use Rattle.txn_stores.specs.AllStores.{AllReady};

use std::alloc::Global;
use std::marker::{Model, PhantomData};
use txn_kv::{Backoff, Result, TryClone};
use txn_merge::{DefaultProcessor, HasKeyErrors, HasRegionError, HasRegionErrors, Merge, Process};
use txn_multi::{RegionPlan, RetryableMultiRegion};
use txn_plan::{
    CopyRequest, Dispatch, ExtractError, MergeResponse, Plan, PreserveShard, ProcessResponse,
};
use txn_region::{EncodedRequest, RegionStore};
use txn_shard::Shardable;
use txn_stores::{RetryableAllStores, StorePlan};

/// Whether it is said already where a plan's requests go.
pub trait PlanBuilderPhase {}

/// It is not said yet.
pub struct NoTarget;

/// It is said.
pub struct Targetted;

impl PlanBuilderPhase for NoTarget {}

impl PlanBuilderPhase for Targetted {}

/// Puts a plan together, step by step.
#[derive(Drop)]
pub struct PlanBuilder<P: Plan, Ph: PlanBuilderPhase> {
    plan: P,
    alloc: Global,
    phase: PhantomData<Ph>,
}

/// A builder is seen as the plan that it has put together, which has not begun.
impl<P: Plan, Ph: PlanBuilderPhase> Model for PlanBuilder<P, Ph> {
    ghost use Rattle.txn_history.specs.Meaning.{IsUnbegun};

    ghost Value = { P };

    ghost view = { λ b. b.plan };

    ghost invariant = { λ b. IsUnbegun P.meaning b.plan };
}

fn built<P: Plan, Ph: PlanBuilderPhase>(alloc: Global, plan: P) -> PlanBuilder<P, Ph>
    requires { IsUnbegun P.meaning plan }
    ensures { result ≡ plan }
{
    PlanBuilder {
        plan,
        alloc,
        phase: PhantomData,
    }
}

impl<R: CopyRequest> PlanBuilder<Dispatch<R>, NoTarget>
where
    R::Response: Drop,
{
    /// Begins with a request that goes nowhere yet.
    pub fn new(alloc: Global, request: EncodedRequest<R>) -> PlanBuilder<Dispatch<R>, NoTarget>
        ensures { result ≡ unsent request.inner None }
    {
        built(alloc, Dispatch::new(request.inner, None))
    }

    /// Sends it to one store, for the region that goes with it. A region without leader or epoch is refused.
    pub fn single_region_with_store(
        self,
        store: RegionStore,
    ) -> Result<PlanBuilder<Dispatch<R>, Targetted>>
        ensures ok { IfOk result (λ built. IsAimed R.request_of self store built) }
        ensures why { IfErr result (λ error. context_of store.region_with_leader ≡ Err error) }
    {
        let context = store.region_with_leader.context()?;
        let mut plan = self.plan;
        plan.request.set_context(context);
        plan.store = Some(store.store);
        Ok(built(self.alloc, plan))
    }
}

impl<P: RegionPlan> PlanBuilder<P, NoTarget>
where
    P::Result: HasKeyErrors + HasRegionError,
{
    /// Sends each shard of the request to its region, and tries it again as often as the backoff has attempts. The first error of
    /// a shard is the answer.
    pub fn retry_multi_region(
        self,
        backoff: Backoff,
    ) -> PlanBuilder<RetryableMultiRegion<P>, Targetted>
        ensures inner { result.inner ≡ self }
        ensures backoff { result.backoff ≡ backoff }
        ensures errors { result.preserve_region_results ≡ false }
        ensures ready { (multi P.meaning P.Result.key_errors_in P.Result.region_error_in P.IsPart P.load P.AreCut P.most).ready result }
    {
        let plan = RetryableMultiRegion::new(self.alloc, self.plan, backoff, false);
        built(self.alloc, plan)
    }

    /// The like, where errors of shards stand in their places.
    pub fn retry_multi_region_preserve_results(
        self,
        backoff: Backoff,
    ) -> PlanBuilder<RetryableMultiRegion<P>, Targetted>
        ensures inner { result.inner ≡ self }
        ensures backoff { result.backoff ≡ backoff }
        ensures errors { result.preserve_region_results ≡ true }
        ensures ready { (multi P.meaning P.Result.key_errors_in P.Result.region_error_in P.IsPart P.load P.AreCut P.most).ready result }
    {
        let plan = RetryableMultiRegion::new(self.alloc, self.plan, backoff, true);
        built(self.alloc, plan)
    }
}

impl<P: StorePlan> PlanBuilder<P, NoTarget>
where
    P::Result: HasKeyErrors + HasRegionError,
{
    /// Sends the request to every store, and tries a store again whose request is lost.
    pub fn all_stores(self, backoff: Backoff) -> PlanBuilder<RetryableAllStores<P>, Targetted>
        ensures inner { result.inner ≡ self }
        ensures backoff { result.backoff ≡ backoff }
        ensures ready { AllReady P.meaning P.Result.key_errors_in P.Result.region_error_in result }
    {
        let plan = RetryableAllStores::new(self.alloc, self.plan, backoff);
        built(self.alloc, plan)
    }
}

impl<In: Drop, P: Plan<Result = Vec<Result<In>>>, Ph: PlanBuilderPhase> PlanBuilder<P, Ph> {
    /// Merges the results of the shards.
    pub fn merge<M: Merge<In> + TryClone>(
        self,
        merge: M,
    ) -> PlanBuilder<MergeResponse<P, In, M>, Ph>
    where
        M::Out: Drop,
        ensures inner { result.inner ≡ self }
        ensures merge { result.merge ≡ merge }
        ensures ready { P.meaning.ready self → (merged P.meaning M.merges).ready result }
    {
        built(self.alloc, MergeResponse::new(self.alloc, self.plan, merge))
    }
}

impl<P: Plan, Ph: PlanBuilderPhase> PlanBuilder<P, Ph>
where
    DefaultProcessor: Process<P::Result>,
    <DefaultProcessor as Process<P::Result>>::Out: Drop,
{
    /// Takes what was asked for out of the answer.
    pub fn post_process_default(self) -> PlanBuilder<ProcessResponse<P, DefaultProcessor>, Ph>
        ensures { result.inner ≡ self }
    {
        let plan = ProcessResponse {
            inner: self.plan,
            processor: DefaultProcessor,
        };
        built(self.alloc, plan)
    }
}

impl<P: Plan + Shardable> PlanBuilder<P, NoTarget>
where
    P::Shard: TryClone,
{
    /// Answers each reply beside its shard.
    pub fn preserve_shard(self) -> PlanBuilder<PreserveShard<P>, NoTarget>
        ensures { result ≡ record { inner = self; shard = None } }
    {
        let plan = PreserveShard {
            inner: self.plan,
            shard: None,
        };
        built(self.alloc, plan)
    }
}

impl<P: Plan> PlanBuilder<P, Targetted>
where
    P::Result: HasKeyErrors + HasRegionErrors,
{
    /// Puts the errors that the answer holds in its place.
    pub fn extract_error(self) -> PlanBuilder<ExtractError<P>, Targetted>
        ensures { result.inner ≡ self }
    {
        built(self.alloc, ExtractError::new(self.alloc, self.plan))
    }
}

impl<P: Plan> PlanBuilder<P, Targetted> {
    /// The plan that was put together.
    pub fn plan(self) -> P
        ensures plan { result ≡ self }
        ensures unbegun { IsUnbegun P.meaning result }
    {
        self.plan
    }
}
