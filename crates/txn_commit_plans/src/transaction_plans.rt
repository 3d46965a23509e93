ghost use Rattle.std.specs.Prelude.{◌≡◌};
ghost use Rattle.txn_commit.specs.Plans.{IsPlanFor};
ghost use Rattle.txn_kv.specs.declared.request.Request.TheVariants.{BatchRollback, Commit, Prewrite};

use crate::own::Own;
use std::alloc::Global;
use txn_commit::{Fetched, Plans};
use txn_kv::{
    Arrival, BatchRollbackRequest, CommitRequest, NoMemory, Outbox, PrewriteRequest, Progress,
};
use txn_merge::RetryOptions;
use txn_plan::Plan;
use txn_region::PdClient;

/// Plans of which each is one of a Prewrite, a Commit or a BatchRollback, and how each kind is made. A plan is not started when it
/// is made, and tries again as its options say. Held in an `Own`, they are `Plans`: so what `Plans` asks is proved once, and not for
/// each such type anew, whose name may be long.
pub trait TransactionPlans: Plan<Result = Fetched> {
    ghost use Rattle.std.specs.Prelude.{List};
    ghost use Rattle.txn_commit.specs.Ways.{AreLasting, Costs};
    ghost use Rattle.txn_history.specs.Event.{Event};
    ghost use Rattle.txn_kv.specs.declared.errors.Error.{Error};
    ghost use Rattle.txn_merge.specs.declared.retry_options.RetryOptions.{RetryOptions};

    // An error of a plan rests on this, where the plan was made with these options.
    ghost unwritten: { RetryOptions → List Event → Error → Type 0 };

    ghost uncommitted: { RetryOptions → List Event → Error → Type 0 };

    ghost unrolled: { RetryOptions → List Event → Error → Type 0 };

    // what plans cost
    ghost costs: { Costs };

    fn prewrite<C: PdClient>(
        alloc: Global,
        pd: &C,
        request: PrewriteRequest,
        retry_options: RetryOptions,
    ) -> Self
        ensures { IsPlanFor Self.Plan.meaning (unwritten retry_options) costs.prewrites (Prewrite request) result };

    fn commit<C: PdClient>(
        alloc: Global,
        pd: &C,
        request: CommitRequest,
        retry_options: RetryOptions,
    ) -> Self
        ensures { IsPlanFor Self.Plan.meaning (uncommitted retry_options) costs.commits (Commit request) result };

    fn roll_back<C: PdClient>(
        alloc: Global,
        pd: &C,
        request: BatchRollbackRequest,
        retry_options: RetryOptions,
    ) -> Self
        ensures { IsPlanFor Self.Plan.meaning (unrolled retry_options) costs.rollbacks (BatchRollback request) result };

    /// The most parts that a request of it was cut into so far.
    fn width(&self) -> u64
        ensures { result ≡ Self.Plan.meaning.width self.now };

    ghost lasting: { AreLasting {P = Self} (record { plan = Self.Plan.meaning; unwritten = unwritten; uncommitted = uncommitted; unrolled = unrolled; costs = costs }) };
}

impl<P: TransactionPlans> Plans for Own<P> {
    ghost ways = { record { plan = P.Plan.meaning; unwritten = P.unwritten; uncommitted = P.uncommitted; unrolled = P.unrolled; costs = P.costs } };

    ghost touches = { λ touch told from old new pd pd'. P.Plan.touches touch told from old new pd pd' };

    fn prewrite<C: PdClient>(
        alloc: Global,
        pd: &C,
        request: PrewriteRequest,
        retry_options: RetryOptions,
    ) -> Result<Self, NoMemory> {
        Ok(Own::new(P::prewrite(alloc, pd, request, retry_options)))
    }

    fn commit<C: PdClient>(
        alloc: Global,
        pd: &C,
        request: CommitRequest,
        retry_options: RetryOptions,
    ) -> Result<Self, NoMemory> {
        Ok(Own::new(P::commit(alloc, pd, request, retry_options)))
    }

    fn roll_back<C: PdClient>(
        alloc: Global,
        pd: &C,
        request: BatchRollbackRequest,
        retry_options: RetryOptions,
    ) -> Result<Self, NoMemory> {
        Ok(Own::new(P::roll_back(alloc, pd, request, retry_options)))
    }

    fn width(&self) -> u64 {
        self.plan().width()
    }

    fn start<C: PdClient>(
        &mut self,
        pd: &mut C,
        now: u64,
        out: &mut Outbox,
    ) -> Result<Progress<Fetched>, NoMemory> {
        Plan::start(self, pd, now, out)
    }

    fn tell<C: PdClient>(
        &mut self,
        pd: &mut C,
        now: u64,
        arrival: Arrival,
        out: &mut Outbox,
    ) -> Result<Progress<Fetched>, NoMemory> {
        Plan::tell(self, pd, now, arrival, out)
    }

    ghost lawful = { P.Plan.lawful };

    ghost lasting = { P.lasting };
}
