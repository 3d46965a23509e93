ghost use Rattle.std.specs.Prelude.{◌≡◌, IfOk};
ghost use Rattle.txn_commit.specs.Plans.{IsPlanFor};
ghost use Rattle.txn_commit.specs.Ways.{Ways};
ghost use Rattle.txn_history.specs.Arrivals.{arrives, MayArrive};
ghost use Rattle.txn_history.specs.Steps.{begins, IsCallable, Steps};
ghost use Rattle.txn_history.specs.Turn.{turn_of};
ghost use Rattle.txn_kv.specs.declared.request.Request.TheVariants.{BatchRollback, Commit, Prewrite};
ghost use Rattle.txn_plan.specs.Touch.{touch};

use crate::fetched::Fetched;
use std::alloc::Global;
use txn_kv::{
    Arrival, BatchRollbackRequest, CommitRequest, NoMemory, Outbox, PrewriteRequest, Progress,
};
use txn_merge::RetryOptions;
use txn_region::PdClient;

/// The plans by which the requests of a transaction go, as one type, with a constructor for each kind of request. A plan is not
/// started when it is made, and tries again as its options say.
pub trait Plans: Sized + Drop {
    ghost use Rattle.txn_commit.specs.Ways.{AreLasting, Ways};
    ghost use Rattle.txn_history.specs.Meaning.{IsLawful, Told};
    ghost use Rattle.txn_history.specs.Posted.{Posted};
    ghost use Rattle.txn_plan.specs.Touch.{Touch};

    // what plans mean, what their errors rest on, and what they cost
    ghost ways: { Ways Self };

    // What a call that tells it this, where its line has posted so much, makes of the client.
    ghost touches: { {C : Type 0} → Touch C → Told → Posted → Self → Self → C → C → Type 0 };

    fn prewrite<C: PdClient>(
        alloc: Global,
        pd: &C,
        request: PrewriteRequest,
        retry_options: RetryOptions,
    ) -> Result<Self, NoMemory>
        ensures { IfOk result (IsPlanFor ways.plan (ways.unwritten retry_options) ways.costs.prewrites (Prewrite request)) };

    fn commit<C: PdClient>(
        alloc: Global,
        pd: &C,
        request: CommitRequest,
        retry_options: RetryOptions,
    ) -> Result<Self, NoMemory>
        ensures { IfOk result (IsPlanFor ways.plan (ways.uncommitted retry_options) ways.costs.commits (Commit request)) };

    fn roll_back<C: PdClient>(
        alloc: Global,
        pd: &C,
        request: BatchRollbackRequest,
        retry_options: RetryOptions,
    ) -> Result<Self, NoMemory>
        ensures { IfOk result (IsPlanFor ways.plan (ways.unrolled retry_options) ways.costs.rollbacks (BatchRollback request)) };

    /// The most parts that a request of it was cut into so far.
    fn width(&self) -> u64
        ensures { result ≡ ways.plan.width self.now };

    /// Begins.
    fn start<C: PdClient>(
        &mut self,
        pd: &mut C,
        now: u64,
        out: &mut Outbox,
    ) -> Result<Progress<Fetched>, NoMemory>
        requires { IsCallable ways.plan self.old out.old now }
        ensures { Steps ways.plan (touches (touch C.looked C.learns C.leads C.drops)) begins self.old self.new out.old out.new pd.old pd.new (turn_of result) };

    /// Takes what came.
    fn tell<C: PdClient>(
        &mut self,
        pd: &mut C,
        now: u64,
        arrival: Arrival,
        out: &mut Outbox,
    ) -> Result<Progress<Fetched>, NoMemory>
        requires callable { IsCallable ways.plan self.old out.old now }
        requires arrives { MayArrive arrival }
        ensures { Steps ways.plan (touches (touch C.looked C.learns C.leads C.drops)) (arrives arrival out.old) self.old self.new out.old out.new pd.old pd.new (turn_of result) };

    ghost lawful: { IsLawful ways.plan };

    ghost lasting: { AreLasting ways };
}
