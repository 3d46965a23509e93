//! A plan that is sent to every store.
ghost use Rattle.std.specs.Bool.{MatchBool};
ghost use Rattle.std.specs.Prelude.{◌≡◌, ◌≢◌, ◌<◌, ◌^◌, ⊤, IfOk, None, map};
ghost use Rattle.txn_history.specs.Meaning.{IsUnbegun};
ghost use Rattle.txn_history.specs.Phase.{unheard};
ghost use Rattle.txn_history.specs.Posted.{HasNumbers};
ghost use Rattle.txn_history.specs.Turn.{turn_of};
ghost use Rattle.txn_stores.specs.AllFollows.{AllGoesOn, AreFoundIn, SearchFollows, TasksFollow};
ghost use Rattle.txn_stores.specs.AllLaws.{all_stores-lawful};
ghost use Rattle.txn_stores.specs.AllStores.{all_phase, all_stores, unbegun_all, AllReady};
ghost use Rattle.txn_stores.specs.StoreTask.{task_at};
ghost use Rattle.txn_tasks.specs.Tasks.{tasks_turn};

use crate::all_stage::AllStage;
use crate::store_plan::StorePlan;
use crate::store_search::StoreSearch;
use crate::store_task::StoreTask;
use std::alloc::Global;
use txn_kv::{Arrival, Backoff, NoMemory, Outbox, Progress, Result};
use txn_merge::{HasKeyErrors, HasRegionError};
use txn_plan::Plan;
use txn_region::{PdClient, Store};
use txn_retry::keep_all;
use txn_tasks::Tasks;

type Turn<P> = std::result::Result<Progress<Vec<Result<<P as Plan>::Result>>>, NoMemory>;

/// How the tasks for the stores ended, once each has.
type Outcomes<P> = std::result::Result<Option<Vec<Result<Result<<P as Plan>::Result>>>>, NoMemory>;

/// A plan that is sent to every store. A store whose request is lost is tried again, as often as the backoff has attempts.
pub struct RetryableAllStores<P: StorePlan>
where
    P::Result: HasKeyErrors + HasRegionError,
{
    inner: P,
    pub backoff: Backoff,
    search: StoreSearch,
    /// Once the stores are known.
    run: Option<StoreTasks<P>>,
    stage: AllStage,
    alloc: Global,
}

impl<P: StorePlan> Drop for RetryableAllStores<P>
where
    P::Result: HasKeyErrors + HasRegionError,
{
    fn drop(self) {
        let RetryableAllStores {
            inner,
            backoff: _,
            search,
            run,
            stage,
            alloc: _,
        } = self;
        drop(inner);
        drop(search);
        drop(run);
        drop(stage);
    }
}

/// The stores, and the tasks for them.
pub struct StoreTasks<P: StorePlan>
where
    P::Result: HasKeyErrors + HasRegionError,
{
    stores: Vec<Store>,
    tasks: Tasks<StoreTask<P>>,
}

impl<P: StorePlan> Drop for StoreTasks<P>
where
    P::Result: HasKeyErrors + HasRegionError,
{
    fn drop(self) {
        let StoreTasks { stores, tasks } = self;
        drop(stores);
        drop(tasks);
    }
}

impl<P: StorePlan> RetryableAllStores<P>
where
    P::Result: HasKeyErrors + HasRegionError,
{
    /// A plan that was not started. Takes no memory.
    pub fn new(alloc: Global, inner: P, backoff: Backoff) -> RetryableAllStores<P>
        ensures value { result ≡ unbegun_all inner backoff alloc }
        ensures unbegun { IsUnbegun P.meaning inner → IsUnbegun (all_stores P.meaning P.Result.key_errors_in P.Result.region_error_in P.at_store) result }
        ensures ready { IsUnbegun P.meaning inner → AllReady P.meaning P.Result.key_errors_in P.Result.region_error_in result }
    {
        RetryableAllStores {
            inner,
            backoff,
            search: StoreSearch::new(alloc),
            run: None,
            stage: AllStage::Fresh,
            alloc,
        }
    }

    fn is_fresh(&self) -> bool
        ensures { MatchBool result (self.now.stage ≡ AllStage.Fresh) (self.now.stage ≢ AllStage.Fresh) }
    {
        matches!(self.stage, AllStage::Fresh)
    }

    /// Whether it was not started, and so has no tasks.
    fn is_unbegun(&self) -> bool
        ensures { MatchBool result ((self.now.stage ≡ AllStage.Fresh) × (self.now.run ≡ None)) ((self.now.stage ≡ AllStage.Fresh) × (self.now.run ≡ None) → ⊥) }
    {
        match (self.stage, &self.run) {
            (AllStage::Fresh, None) => true,
            _ => false,
        }
    }

    /// What comes of an event that is not for this state.
    fn stay(&self) -> Turn<P>
        ensures { turn_of result ≡ unheard (all_phase self.now.stage) }
    {
        match self.stage {
            AllStage::Stopped => Err(NoMemory),
            _ => Ok(Progress::Waiting),
        }
    }

    /// Goes on after a call of the look-up.
    fn after_search<C: PdClient>(
        &mut self,
        turn: std::result::Result<Progress<Vec<Store>>, NoMemory>,
        pd: &mut C,
        now: u64,
        out: &mut Outbox,
    ) -> Turn<P>
        requires unbegun { IsUnbegun P.meaning self.old.inner }
        requires numbers { HasNumbers out.old }
        requires clock { now < 2 ^ 44 }
        ensures follows { SearchFollows P.meaning P.Result.key_errors_in P.Result.region_error_in P.at_store (turn_of turn) self.old self.new out.old out.new pd.old pd.new (turn_of result) }
        ensures numbers { HasNumbers out.new }
    {
        match turn {
            Ok(Progress::Waiting) => {
                self.stage = AllStage::Searching;
                Ok(Progress::Waiting)
            }
            Ok(Progress::Done(Ok(stores))) => self.run(stores, pd, now, out),
            Ok(Progress::Done(Err(error))) => {
                self.stage = AllStage::Over;
                Ok(Progress::Done(Err(error)))
            }
            Err(NoMemory) => {
                self.stage = AllStage::Stopped;
                Err(NoMemory)
            }
        }
    }

    /// Runs a task for each store.
    fn run<C: PdClient>(
        &mut self,
        stores: Vec<Store>,
        pd: &mut C,
        now: u64,
        out: &mut Outbox,
    ) -> Turn<P>
        requires unbegun { IsUnbegun P.meaning self.old.inner }
        requires numbers { HasNumbers out.old }
        requires clock { now < 2 ^ 44 }
        ensures on { AllGoesOn P.meaning P.Result.key_errors_in P.Result.region_error_in P.at_store (λ h. AreFoundIn h stores) self.old self.new out.old out.new (turn_of result) }
        ensures numbers { HasNumbers out.new }
    {
        self.stage = AllStage::Stopped;
        let first = tasks_at(self.alloc, &self.inner, stores.as_slice(), self.backoff)?;
        let mut tasks = Tasks::new(self.alloc, first)?;
        let turn = tasks.start(pd, now, out);
        self.run = Some(StoreTasks { stores, tasks });
        self.after_tasks(turn)
    }

    /// Goes on after a call of the tasks.
    fn after_tasks(&mut self, turn: Outcomes<P>) -> Turn<P>
        ensures { TasksFollow (tasks_turn turn) self.old self.new (turn_of result) }
    {
        match turn {
            Ok(None) => {
                self.stage = AllStage::Running;
                Ok(Progress::Waiting)
            }
            Ok(Some(outcomes)) => {
                self.stage = AllStage::Stopped;
                let results = keep_all(self.alloc, outcomes)?;
                self.stage = AllStage::Over;
                Ok(Progress::Done(Ok(results)))
            }
            Err(NoMemory) => {
                self.stage = AllStage::Stopped;
                Err(NoMemory)
            }
        }
    }
}

impl<P: StorePlan> Plan for RetryableAllStores<P>
where
    P::Result: HasKeyErrors + HasRegionError,
{
    type Result = Vec<Result<P::Result>>;

    ghost meaning = { all_stores P.meaning P.Result.key_errors_in P.Result.region_error_in P.at_store };

    // Nothing is said of it.
    ghost touches = { λ touch told from old new pd pd'. ⊤ };

    /// A plan that has begun has no copy: it is refused as if for want of memory.
    fn try_clone(&self) -> std::result::Result<RetryableAllStores<P>, NoMemory> {
        if !self.is_unbegun() {
            return Err(NoMemory);
        }
        Ok(RetryableAllStores {
            inner: self.inner.try_clone()?,
            backoff: self.backoff,
            search: self.search.copy()?,
            run: None,
            stage: AllStage::Fresh,
            alloc: self.alloc,
        })
    }

    fn start<C: PdClient>(&mut self, pd: &mut C, now: u64, out: &mut Outbox) -> Turn<P> {
        if !self.is_fresh() {
            return self.stay();
        }
        let turn = self.search.start(pd, now, out);
        self.after_search(turn, pd, now, out)
    }

    fn tell<C: PdClient>(
        &mut self,
        pd: &mut C,
        now: u64,
        arrival: Arrival,
        out: &mut Outbox,
    ) -> Turn<P> {
        match self.stage {
            AllStage::Searching => {
                let turn = self.search.tell(pd, now, arrival, out);
                self.after_search(turn, pd, now, out)
            }
            AllStage::Running => match &mut self.run {
                Some(run) => {
                    let turn = run.tasks.tell(pd, now, arrival, out);
                    self.after_tasks(turn)
                }
                None => unreachable!(),
            },
            _ => {
                drop(arrival);
                self.stay()
            }
        }
    }

    ghost lawful = { all_stores-lawful P.meaning P.Result.key_errors_in P.Result.region_error_in P.at_store P.lawful };
}

/// A task for each store.
fn tasks_at<P: StorePlan>(
    alloc: Global,
    plan: &P,
    stores: &[Store],
    backoff: Backoff,
) -> std::result::Result<Vec<StoreTask<P>>, NoMemory>
where
    P::Result: HasKeyErrors + HasRegionError,
    requires { IsUnbegun P.meaning plan.now }
    ensures { IfOk result (λ tasks. tasks.items ≡ map (task_at P.at_store plan.now backoff alloc) stores.now) }
{
    let mut tasks = Vec::new(alloc);
    for store in stores {
        tasks.push(StoreTask::new(alloc, plan, *store, backoff)?)?;
    }
    Ok(tasks)
}
