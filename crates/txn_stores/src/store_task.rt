//! One task of a plan over all stores.
ghost use Rattle.std.specs.Bool.{MatchBool};
ghost use Rattle.std.specs.Prelude.{◌≡◌, ◌≢◌, ◌∷◌, [], ⊤, Bool, Err, IfOk, List, MatchOption, Ok, Some, true, false, ℕ};
ghost use Rattle.txn_history.specs.Faults.{is_loss};
ghost use Rattle.txn_history.specs.Meaning.{IsUnbegun};
ghost use Rattle.txn_history.specs.Phase.{unheard};
ghost use Rattle.txn_history.specs.Posted.{HasNumbers, Posted};
ghost use Rattle.txn_history.specs.Turn.{turn_of};
ghost use Rattle.txn_history.specs.Turn.Turn.{Ends};
ghost use Rattle.txn_kv.specs.declared.backoff.Backoff.{Backoff as NextBackoff};
ghost use Rattle.txn_kv.specs.declared.errors.Error.TheVariants.{GrpcAPI};
ghost use Rattle.txn_kv.specs.declared.ticket.Ticket.{Ticket as LostTicket};
ghost use Rattle.txn_retry.specs.Remedy.{after, delay_ms};
ghost use Rattle.txn_stores.specs.Settling.{again_with, Follows, IsGiven, IsWoken, Settles};
ghost use Rattle.txn_stores.specs.StoreTask.{is_running, stage_phase, task_at, store_of, store_task, AreStores, IsTaken, IsTaskOf};
ghost use Rattle.txn_stores.specs.TaskLaws.{running_phase, store_task-lawful, stores_again, stores_whole};
ghost use Rattle.txn_tasks.specs.Step.{step_turn};
ghost use Rattle.txn_tasks.specs.declared.step.Step.TheVariants.{End};

use crate::stage::Stage;
use crate::store_plan::StorePlan;
use std::alloc::Global;
use txn_kv::{Arrival, Backoff, Error, NoMemory, Outbox, Progress, Result, Ticket};
use txn_merge::{HasKeyErrors, HasRegionError};
use txn_plan::Plan;
use txn_region::{PdClient, Store};
use txn_retry::{Next, on_loss};
use txn_tasks::{Step, Task};

type Turn<P> = std::result::Result<Option<Step<StoreTask<P>, <P as Plan>::Result>>, NoMemory>;

/// A plan for one store, with what is done about its losses.
pub struct StoreTask<P: Drop> {
    /// What it is to do, at its store. It is never started.
    job: P,
    /// The copy that is run.
    plan: P,
    store: Store,
    backoff: Backoff,
    stage: Stage,
    alloc: Global,
}

impl<P: Drop> Drop for StoreTask<P> {
    fn drop(self) {
        let StoreTask {
            job,
            plan,
            store,
            backoff: _,
            stage,
            alloc: _,
        } = self;
        drop(job);
        drop(plan);
        drop(store);
        drop(stage);
    }
}

impl<P: StorePlan> StoreTask<P>
where
    P::Result: HasKeyErrors + HasRegionError,
{
    /// A task that was not started, for a plan that is sent to the store.
    pub fn new(
        alloc: Global,
        plan: &P,
        store: Store,
        backoff: Backoff,
    ) -> std::result::Result<StoreTask<P>, NoMemory>
        requires { IsUnbegun P.meaning plan.now }
        ensures { IfOk result (λ task. task ≡ task_at P.at_store plan.now backoff alloc store) }
    {
        let mut job = plan.try_clone()?;
        job.apply_store(&store);
        let plan = job.try_clone()?;
        Ok(StoreTask {
            job,
            plan,
            store,
            backoff,
            stage: Stage::Fresh,
            alloc,
        })
    }

    /// Goes on after a call of the plan.
    fn after_plan(
        &mut self,
        turn: std::result::Result<Progress<P::Result>, NoMemory>,
        out: &mut Outbox,
    ) -> Turn<P>
        requires { HasNumbers out.old }
        ensures follows { Follows P.meaning P.Result.key_errors_in P.Result.region_error_in (turn_of turn) self.old self.new out.old out.new (step_turn result) }
        ensures numbers { HasNumbers out.new }
    {
        match turn {
            Ok(Progress::Waiting) => Ok(None),
            Ok(Progress::Done(answer)) => self.after_answer(answer, out),
            Err(NoMemory) => {
                self.stage = Stage::Stopped;
                Err(NoMemory)
            }
        }
    }

    /// The plan has ended.
    fn after_answer(&mut self, answer: Result<P::Result>, out: &mut Outbox) -> Turn<P>
        requires { HasNumbers out.old }
        ensures settles { Settles P.meaning P.Result.key_errors_in P.Result.region_error_in (λ h. P.meaning.gives self.old.job h answer) (P.meaning.fails answer) self.old self.new out.old out.new (step_turn result) }
        ensures numbers { HasNumbers out.new }
    {
        match answer {
            Ok(reply) => self.keep_reply(reply),
            Err(error) => self.take_error(error, out),
        }
    }

    fn take_error(&mut self, error: Error, out: &mut Outbox) -> Turn<P>
        requires { HasNumbers out.old }
        ensures settles { Settles P.meaning P.Result.key_errors_in P.Result.region_error_in (λ h. P.meaning.gives self.old.job h (Err error)) (P.meaning.fails (Err error)) self.old self.new out.old out.new (step_turn result) }
        ensures numbers { HasNumbers out.new }
    {
        match lost_in(&error) {
            Some(ticket) => self.take_loss(ticket, out),
            None => self.end(Err(error)),
        }
    }

    fn end(&mut self, answer: Result<P::Result>) -> Turn<P>
        ensures state { self.new ≡ record self.old { stage = Stage.Over } }
        ensures turn { step_turn result ≡ Ends (End (Ok answer)) }
    {
        self.stage = Stage::Over;
        Ok(Some(Step::End(Ok(answer))))
    }

    fn keep_reply(&mut self, reply: P::Result) -> Turn<P>
        ensures settles { (failed : Bool) (o : Posted) → Settles P.meaning P.Result.key_errors_in P.Result.region_error_in (λ h. P.meaning.gives self.old.job h (Ok reply)) failed self.old self.new o o (step_turn result) }
    {
        self.stage = Stage::Stopped;
        let answer = taken(self.alloc, reply)?;
        self.end(answer)
    }

    /// A store has no cached region: there is but the sleep.
    fn take_loss(&mut self, ticket: Ticket, out: &mut Outbox) -> Turn<P>
        requires { HasNumbers out.old }
        ensures settles { Settles P.meaning P.Result.key_errors_in P.Result.region_error_in (λ h. P.meaning.gives self.old.job h (Err (GrpcAPI ticket))) true self.old self.new out.old out.new (step_turn result) }
        ensures numbers { HasNumbers out.new }
    {
        let mut backoff = self.backoff;
        let remedy = on_loss(&mut backoff);
        match remedy.next {
            Next::Sleep(ms) => self.sleep(ms, backoff, out),
            _ => self.end(Err(Error::GrpcAPI(ticket))),
        }
    }

    fn sleep(&mut self, ms: u64, backoff: Backoff, out: &mut Outbox) -> Turn<P>
        requires numbers { HasNumbers out.old }
        requires delay { delay_ms self.old.backoff ≡ Some ms }
        requires goes_on { backoff ≡ after self.old.backoff }
        ensures settles { (ticket : LostTicket) → Settles P.meaning P.Result.key_errors_in P.Result.region_error_in (λ h. P.meaning.gives self.old.job h (Err (GrpcAPI ticket))) true self.old self.new out.old out.new (step_turn result) }
        ensures numbers { HasNumbers out.new }
    {
        self.stage = Stage::Stopped;
        let number = out.sleep(ms)?;
        self.stage = Stage::Sleeping { number, backoff };
        Ok(None)
    }

    /// The plan runs again in a task that waits for its turn.
    fn give_again(&mut self, backoff: Backoff) -> Turn<P>
        requires { IsUnbegun P.meaning self.old.job }
        ensures { IsGiven backoff self.old self.new (step_turn result) }
    {
        self.stage = Stage::Stopped;
        let tasks = self.again(backoff)?;
        self.stage = Stage::Again;
        Ok(Some(Step::Parts(tasks)))
    }

    fn again(&self, backoff: Backoff) -> std::result::Result<Vec<StoreTask<P>>, NoMemory>
        requires { IsUnbegun P.meaning self.now.job }
        ensures { IfOk result (λ tasks. tasks.items ≡ again_with backoff self.now ∷ []) }
    {
        let mut tasks = Vec::new(self.alloc);
        tasks.push(StoreTask {
            job: self.job.try_clone()?,
            plan: self.job.try_clone()?,
            store: self.store,
            backoff,
            stage: Stage::Fresh,
            alloc: self.alloc,
        })?;
        Ok(tasks)
    }

    fn is_under_way(&self) -> bool
        ensures { MatchBool result (self.now.stage ≡ Stage.Running) (self.now.stage ≢ Stage.Running) }
    {
        matches!(self.stage, Stage::Running)
    }

    fn is_fresh(&self) -> bool
        ensures { MatchBool result (self.now.stage ≡ Stage.Fresh) (self.now.stage ≢ Stage.Fresh) }
    {
        matches!(self.stage, Stage::Fresh)
    }

    /// The backoff of the task that stands in its place, where this ends its sleep.
    fn woken_by(&self, arrival: &Arrival) -> Option<Backoff>
        ensures { MatchOption result ((number : ℕ) (b : NextBackoff) → self.now.stage ≡ Stage.Sleeping number b → arrival.now ≢ Arrival.Slept number) (λ b. IsWoken b self.now.stage arrival.now) }
    {
        match self.stage {
            Stage::Sleeping { number, backoff } => {
                if arrival.is_end_of(number) {
                    Some(backoff)
                } else {
                    None
                }
            }
            _ => None,
        }
    }

    /// What comes of an event that is not for this state.
    fn stay(&self) -> Turn<P>
        ensures { step_turn result ≡ unheard (stage_phase self.now.stage) }
    {
        match self.stage {
            Stage::Stopped => Err(NoMemory),
            _ => Ok(None),
        }
    }
}

impl<P: StorePlan> Task for StoreTask<P>
where
    P::Result: HasKeyErrors + HasRegionError,
{
    type Answer = P::Result;

    ghost meaning = { store_task P.meaning P.Result.key_errors_in P.Result.region_error_in };

    // Nothing is said of it.
    ghost touches = { λ touch told from old new pd pd'. ⊤ };

    ghost Load = { List ℕ };

    ghost load = { store_of };

    ghost AreCut = { AreStores };

    ghost Whole = { P };

    ghost IsOf = { λ task whole. IsTaskOf P.meaning P.at_store task whole };

    ghost cost = { P.meaning.round };

    ghost runs = { λ task. is_running task.stage };

    fn is_running(&self) -> bool {
        self.is_under_way()
    }

    fn start<C: PdClient>(&mut self, pd: &mut C, now: u64, out: &mut Outbox) -> Turn<P> {
        if !self.is_fresh() {
            return self.stay();
        }
        self.stage = Stage::Running;
        let turn = self.plan.start(pd, now, out);
        self.after_plan(turn, out)
    }

    fn tell<C: PdClient>(
        &mut self,
        pd: &mut C,
        now: u64,
        arrival: Arrival,
        out: &mut Outbox,
    ) -> Turn<P> {
        if let Some(backoff) = self.woken_by(&arrival) {
            drop(arrival);
            return self.give_again(backoff);
        }
        if !self.is_under_way() {
            drop(arrival);
            return self.stay();
        }
        let turn = self.plan.tell(pd, now, arrival, out);
        self.after_plan(turn, out)
    }

    ghost lawful = { store_task-lawful P.meaning P.Result.key_errors_in P.Result.region_error_in P.lawful };

    ghost runs_running = { λ task e. running_phase task.stage e };

    ghost costs = { λ task whole n belongs. belongs.less n };

    ghost cut_whole = { stores_whole };

    ghost cut_again = { stores_again };
}

/// The ticket of a lost request.
fn lost_in(error: &Error) -> Option<Ticket>
    ensures { MatchOption result (is_loss error.now ≡ false) (λ ticket. error.now ≡ GrpcAPI ticket) }
{
    match error {
        Error::GrpcAPI(ticket) => Some(*ticket),
        _ => None,
    }
}

/// What is answered for a reply. Errors at keys are looked at before an error of the region.
fn taken<R: HasKeyErrors + HasRegionError + Drop>(
    alloc: Global,
    reply: R,
) -> std::result::Result<Result<R>, NoMemory>
    ensures { IfOk result (λ answer. IsTaken R.key_errors_in R.region_error_in (Ok reply) answer) }
{
    let mut reply = reply;
    if let Some(errors) = reply.key_errors(alloc)? {
        return Ok(Err(Error::MultipleKeyErrors(errors)));
    }
    match reply.region_error() {
        Some(error) => Ok(Err(Error::region(alloc, error)?)),
        None => Ok(Ok(reply)),
    }
}
