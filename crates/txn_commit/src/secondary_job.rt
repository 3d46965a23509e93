ghost use Rattle.std.specs.Prelude.{◌≡◌, ◌<◌, ◌^◌, List, OnErr, OnOk, false};
ghost use Rattle.std.specs.Bool.{MatchBool};
ghost use Rattle.txn_history.specs.Around.{IsRead};
ghost use Rattle.txn_history.specs.Meaning.{started, Counts, Goes, Tells};
ghost use Rattle.txn_history.specs.Phase.Phase.{Fresh as Unbegun};
ghost use Rattle.txn_history.specs.Plan.{Key as Name, Plan as Writing};
ghost use Rattle.txn_history.specs.Posted.{HasNumbers};
ghost use Rattle.txn_history.specs.Turn.{turn_of};
ghost use Rattle.txn_kv.specs.declared.request.Request.{Request as Asked};
ghost use Rattle.txn_commit.specs.Jobs.{IsPlanned, JobReady, ReadsDone, job_phase, job_waits, others};
ghost use Rattle.txn_commit.specs.declared.secondary_job.Stage.TheVariants as stages;
ghost use Rattle.txn_history.specs.Arrivals.{MayArrive, awaited_as, locked_told, tells_error, tells_failure, told_by, weight_told};

use crate::plans::Plans;
use std::alloc::Global;
use std::mem;
use txn_kv::{Arrival, Items, Key, NoMemory, Outbox, Progress, Timestamp};
use txn_merge::RetryOptions;
use txn_region::PdClient;
use txn_request::lowering::new_commit_request;

type Turn = Result<Progress<()>, NoMemory>;

/// How far the job has come.
enum Stage<P> {
    Fresh,
    /// It stands where the plan of its Commits does.
    Committing(P),
    /// It gave up for want of memory, before there was a plan.
    Stopped,
}

impl<P: Drop> Drop for Stage<P> {
    fn drop(self) {
        match self {
            Stage::Fresh => {}
            Stage::Committing(inner) => drop(inner),
            Stage::Stopped => {}
        }
    }
}

/// Commits the other keys of a transaction whose primary is committed. The transaction does not wait for it.
pub struct SecondaryJob<P> {
    start: Timestamp,
    commit: Timestamp,
    keys: Items<Key>,
    retry_options: RetryOptions,
    stage: Stage<P>,
    alloc: Global,
}

impl<P: Drop> Drop for SecondaryJob<P> {
    fn drop(self) {
        let SecondaryJob {
            start: _,
            commit: _,
            keys,
            retry_options,
            stage,
            alloc: _,
        } = self;
        drop(keys);
        drop(retry_options);
        drop(stage);
    }
}

impl<P: Plans> SecondaryJob<P> {
    /// A job that is not started.
    pub fn new(
        alloc: Global,
        start: Timestamp,
        commit: Timestamp,
        keys: Items<Key>,
        retry_options: RetryOptions,
    ) -> SecondaryJob<P>
        ensures start { result.start ≡ start }
        ensures commit { result.commit ≡ commit }
        ensures keys { result.keys ≡ keys }
        ensures options { result.retry_options ≡ retry_options }
        ensures stage { result.stage ≡ stages.Fresh }
    {
        SecondaryJob {
            start,
            commit,
            keys,
            retry_options,
            stage: Stage::Fresh,
            alloc,
        }
    }

    pub fn start<C: PdClient>(&mut self, pd: &mut C, now: u64, out: &mut Outbox) -> Turn
        requires ready { JobReady P.ways.plan self.old }
        requires numbers { HasNumbers out.old }
        requires clock { now < 2 ^ 44 }
        ensures tells { (plan : Writing) (keys : List Name) → Tells (others P.ways.plan P.ways.uncommitted P.ways.costs.commits plan keys) started self.old self.new out.old out.new (turn_of result) }
        ensures goes { Goes (λ (s : SecondaryJob P). job_phase P.ways.plan s.stage) (job_phase P.ways.plan self.old.stage ≡ Unbegun) self.old self.new out.old out.new pd.old pd.new (turn_of result) }
        ensures counts { (plan : Writing) (keys : List Name) → Counts (others P.ways.plan P.ways.uncommitted P.ways.costs.commits plan keys) false false 0 0 self.old self.new out.old out.new (turn_of result) }
        ensures ready { JobReady P.ways.plan self.new }
        ensures numbers { HasNumbers out.new }
    {
        if !self.is_fresh() {
            return self.begin(pd, now, out);
        }
        self.start_fresh(pd, now, out)
    }

    fn start_fresh<C: PdClient>(&mut self, pd: &mut C, now: u64, out: &mut Outbox) -> Turn
        requires fresh { self.old.stage ≡ stages.Fresh }
        requires ready { JobReady P.ways.plan self.old }
        requires numbers { HasNumbers out.old }
        requires clock { now < 2 ^ 44 }
        ensures tells { (plan : Writing) (keys : List Name) → Tells (others P.ways.plan P.ways.uncommitted P.ways.costs.commits plan keys) started self.old self.new out.old out.new (turn_of result) }
        ensures goes { Goes (λ (s : SecondaryJob P). job_phase P.ways.plan s.stage) (job_phase P.ways.plan self.old.stage ≡ Unbegun) self.old self.new out.old out.new pd.old pd.new (turn_of result) }
        ensures counts { (plan : Writing) (keys : List Name) → Counts (others P.ways.plan P.ways.uncommitted P.ways.costs.commits plan keys) false false 0 0 self.old self.new out.old out.new (turn_of result) }
        ensures ready { JobReady P.ways.plan self.new }
        ensures numbers { HasNumbers out.new }
    {
        self.make_plan(pd)?;
        self.begin(pd, now, out)
    }

    /// It is told of something.
    pub fn tell<C: PdClient>(
        &mut self,
        arrival: Arrival,
        pd: &mut C,
        now: u64,
        out: &mut Outbox,
    ) -> Turn
        requires ready { JobReady P.ways.plan self.old }
        requires arrives { MayArrive arrival }
        requires numbers { HasNumbers out.old }
        requires clock { now < 2 ^ 44 }
        ensures tells { (plan : Writing) (keys : List Name) (r : Asked) → Tells (others P.ways.plan P.ways.uncommitted P.ways.costs.commits plan keys) (told_by arrival out.old r) self.old self.new out.old out.new (turn_of result) }
        ensures goes { Goes (λ (s : SecondaryJob P). job_phase P.ways.plan s.stage) (job_waits P.ways.plan self.old.stage (awaited_as arrival)) self.old self.new out.old out.new pd.old pd.new (turn_of result) }
        ensures counts { (plan : Writing) (keys : List Name) → Counts (others P.ways.plan P.ways.uncommitted P.ways.costs.commits plan keys) (tells_error arrival) (tells_failure arrival) (weight_told arrival) (locked_told arrival) self.old self.new out.old out.new (turn_of result) }
        ensures ready { JobReady P.ways.plan self.new }
        ensures numbers { HasNumbers out.new }
    {
        match &mut self.stage {
            Stage::Committing(plan) => {
                let turn = plan.tell(pd, now, arrival, out);
                read(turn)
            }
            Stage::Fresh => {
                drop(arrival);
                Ok(Progress::Waiting)
            }
            Stage::Stopped => {
                drop(arrival);
                Err(NoMemory)
            }
        }
    }

    /// Makes the plan of its Commits.
    fn make_plan<C: PdClient>(&mut self, pd: &C) -> Result<(), NoMemory>
        requires ready { JobReady P.ways.plan self.old }
        ensures ok { OnOk result (IsPlanned P.ways.plan P.ways.uncommitted P.ways.costs.commits self.old self.new) }
        ensures err { OnErr result (self.new ≡ record self.old { keys = self.new.keys; stage = stages.Stopped }) }
    {
        self.stage = Stage::Stopped;
        let keys = mem::replace(&mut self.keys, Items::new(self.alloc));
        let request = new_commit_request(keys, self.start, self.commit);
        let plan = P::commit(self.alloc, pd, request, self.retry_options.clone()?)?;
        self.stage = Stage::Committing(plan);
        Ok(())
    }

    /// Starts the plan.
    fn begin<C: PdClient>(&mut self, pd: &mut C, now: u64, out: &mut Outbox) -> Turn
        requires made { self.old.stage ≡ stages.Fresh → ⊥ }
        requires ready { JobReady P.ways.plan self.old }
        requires numbers { HasNumbers out.old }
        requires clock { now < 2 ^ 44 }
        ensures tells { (plan : Writing) (keys : List Name) → Tells (others P.ways.plan P.ways.uncommitted P.ways.costs.commits plan keys) started self.old self.new out.old out.new (turn_of result) }
        ensures goes { Goes (λ (s : SecondaryJob P). job_phase P.ways.plan s.stage) (job_phase P.ways.plan self.old.stage ≡ Unbegun) self.old self.new out.old out.new pd.old pd.new (turn_of result) }
        ensures counts { (plan : Writing) (keys : List Name) → Counts (others P.ways.plan P.ways.uncommitted P.ways.costs.commits plan keys) false false 0 0 self.old self.new out.old out.new (turn_of result) }
        ensures ready { JobReady P.ways.plan self.new }
        ensures numbers { HasNumbers out.new }
    {
        match &mut self.stage {
            Stage::Committing(plan) => {
                let turn = plan.start(pd, now, out);
                read(turn)
            }
            Stage::Fresh => Ok(Progress::Waiting),
            Stage::Stopped => Err(NoMemory),
        }
    }

    fn is_fresh(&self) -> bool
        ensures { MatchBool result (self.now.stage ≡ stages.Fresh) (self.now.stage ≡ stages.Fresh → ⊥) }
    {
        matches!(self.stage, Stage::Fresh)
    }
}

/// The answer of its plan as that of the job.
fn read<T: Drop>(turn: Result<Progress<T>, NoMemory>) -> Turn
    ensures { IsRead ReadsDone (turn_of turn) (turn_of result) }
{
    match turn? {
        Progress::Waiting => Ok(Progress::Waiting),
        Progress::Done(answer) => Ok(Progress::Done(done(answer))),
    }
}

fn done<T: Drop>(answer: txn_kv::Result<T>) -> txn_kv::Result<()>
    ensures { ReadsDone answer result }
{
    match answer {
        Ok(_) => Ok(()),
        Err(error) => Err(error),
    }
}
