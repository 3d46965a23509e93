//! A plan over many regions.
ghost use Rattle.std.specs.Bool.{MatchBool};
ghost use Rattle.std.specs.Prelude.{◌≡◌, ◌<◌, ◌^◌, ⊤, Err, IfOk, None};
ghost use Rattle.txn_history.specs.Meaning.{started, IsUnbegun};
ghost use Rattle.txn_history.specs.Phase.{unheard};
ghost use Rattle.txn_history.specs.Phase.Phase.{Running};
ghost use Rattle.txn_history.specs.Posted.{HasNumbers};
ghost use Rattle.txn_history.specs.Turn.{turn_of, IfEnds};
ghost use Rattle.txn_history.specs.Turn.Turn.{Ends, Waits};
ghost use Rattle.txn_multi.specs.Cutting.{ArePartsOf, IfParts};
ghost use Rattle.txn_multi.specs.Multi.{multi, multi-lawful, multi_phase, tasks_for, AfterCut, AfterTasks, Begins, Holding, IsAnswer};
ghost use Rattle.txn_multi.specs.MultiSteps.{Takes};
ghost use Rattle.txn_multi.specs.Task.{attempts_left};
ghost use Rattle.txn_multi.specs.Touching.{FoundTouches, MultiTouches, TaskTouches, UnlessGone};
ghost use Rattle.txn_multi.specs.declared.multi_stage.MultiStage.TheVariants as at;
ghost use Rattle.txn_history.specs.Arrivals.{MayArrive};
ghost use Rattle.txn_plan.specs.Touch.{touch};
ghost use Rattle.txn_search.specs.Search.{search_phase};
ghost use Rattle.txn_tasks.specs.Tasks.{tasks_phase, tasks_turn};

use crate::cutting::Cutting;
use crate::multi_stage::MultiStage;
use crate::part::Part;
use crate::region_plan::RegionPlan;
use crate::task::{RegionTask, most_parts, tasks_of};
use std::alloc::Global;
use std::mem;
use txn_kv::{Arrival, Backoff, NoMemory, Outbox, Progress, Result};
use txn_merge::has_key_errors::HasKeyErrors;
use txn_merge::has_region_error::HasRegionError;
use txn_plan::{Plan, ShardPlan};
use txn_region::PdClient;
use txn_retry::{all_or_first, keep_all};
use txn_tasks::Tasks;

type Turn<P> = std::result::Result<Progress<Vec<Result<<P as Plan>::Result>>>, NoMemory>;

/// How each task ended, once all have.
type TasksTurn<P> = std::result::Result<Option<Vec<Result<Result<<P as Plan>::Result>>>>, NoMemory>;

/// A plan whose request is cut into shards, of which each is sent to its region. All shards are found before any is sent. A
/// shard that meets a region error or a loss is cut into shards again, as often as the backoff has attempts.
pub struct RetryableMultiRegion<P: RegionPlan>
where
    P::Result: HasKeyErrors + HasRegionError,
{
    /// The plan, which is never begun itself.
    inner: P,
    pub backoff: Backoff,
    /// Errors of regions are kept in their places. Else the first of them is the answer.
    pub preserve_region_results: bool,
    stage: MultiStage<P>,
    /// Once all shards were found.
    tasks: Option<Tasks<RegionTask<P>>>,
    /// How many shards were found.
    width: usize,
    alloc: Global,
}

impl<P: RegionPlan> Drop for RetryableMultiRegion<P>
where
    P::Result: HasKeyErrors + HasRegionError,
{
    fn drop(self) {
        let RetryableMultiRegion {
            inner,
            backoff: _,
            preserve_region_results: _,
            stage,
            tasks,
            width: _,
            alloc: _,
        } = self;
        drop(inner);
        drop(stage);
        drop(tasks);
    }
}

impl<P: RegionPlan> RetryableMultiRegion<P>
where
    P::Result: HasKeyErrors + HasRegionError,
{
    /// Takes no memory.
    pub fn new(
        alloc: Global,
        inner: P,
        backoff: Backoff,
        preserve_region_results: bool,
    ) -> RetryableMultiRegion<P>
        requires unbegun { IsUnbegun P.meaning inner }
        ensures value { result ≡ record { inner = inner; backoff = backoff; preserve_region_results = preserve_region_results; stage = MultiStage.Fresh; tasks = None; width = 0; alloc = alloc } }
        ensures unbegun { IsUnbegun (multi P.meaning P.Result.key_errors_in P.Result.region_error_in P.IsPart P.load P.AreCut P.most) result }
        ensures ready { (multi P.meaning P.Result.key_errors_in P.Result.region_error_in P.IsPart P.load P.AreCut P.most).ready result }
    {
        RetryableMultiRegion {
            inner,
            backoff,
            preserve_region_results,
            stage: MultiStage::Fresh,
            tasks: None,
            width: 0,
            alloc,
        }
    }

    /// The most parts that its request, or a part of it, was cut into so far.
    pub fn width(&self) -> usize
        ensures { result ≡ (multi P.meaning P.Result.key_errors_in P.Result.region_error_in P.IsPart P.load P.AreCut P.most).width self.now }
    {
        match &self.tasks {
            Some(tasks) => most_parts(self.width, tasks.tasks()),
            None => self.width,
        }
    }

    /// Whether it was not started, and so has no tasks.
    fn is_fresh(&self) -> bool
        ensures { MatchBool result ((self.now.stage ≡ MultiStage.Fresh) × (self.now.tasks ≡ None)) ((self.now.stage ≡ MultiStage.Fresh) × (self.now.tasks ≡ None) → ⊥) }
    {
        match (&self.stage, &self.tasks) {
            (MultiStage::Fresh, None) => true,
            _ => false,
        }
    }

    /// What comes of an event that is not for it.
    fn stay(&mut self, stage: MultiStage<P>) -> Turn<P>
        ensures turn { turn_of result ≡ unheard (multi_phase stage) }
        ensures state { self.new ≡ record self.old { stage = stage } }
    {
        let stopped = matches!(stage, MultiStage::Stopped);
        self.stage = stage;
        if stopped {
            Err(NoMemory)
        } else {
            Ok(Progress::Waiting)
        }
    }

    /// Looks for the shards of a copy of the plan.
    fn begin<C: PdClient>(&mut self, pd: &mut C, now: u64, out: &mut Outbox) -> Turn<P>
        requires stopped { self.old.stage ≡ MultiStage.Stopped }
        requires inner { IsUnbegun P.meaning self.old.inner }
        requires none { self.old.tasks ≡ None }
        requires numbers { HasNumbers out.old }
        requires clock { now < 2 ^ 44 }
        ensures begins { Begins (multi P.meaning P.Result.key_errors_in P.Result.region_error_in P.IsPart P.load P.AreCut P.most) (λ h. ⊤) (record self.old { stage = MultiStage.Fresh }) self.new out.old out.new (turn_of result) }
        ensures client { MultiTouches (touch C.looked C.learns C.leads C.drops) (TaskTouches P.meaning P.Result.key_errors_in P.Result.region_error_in (touch C.looked C.learns C.leads C.drops) (P.touches (touch C.looked C.learns C.leads C.drops))) started out.old self.old self.new pd.old pd.new }
        ensures ready { (multi P.meaning P.Result.key_errors_in P.Result.region_error_in P.IsPart P.load P.AreCut P.most).ready self.new }
        ensures numbers { HasNumbers out.new }
    {
        let inner = self.inner.try_clone()?;
        let mut cutting = Cutting::new(self.alloc, inner);
        let turn = cutting.start(pd, now, out);
        self.after_cut(cutting, turn, pd, now, out)
    }

    /// The search of its shards takes what came.
    fn tell_cutting<C: PdClient>(
        &mut self,
        cutting: Cutting<P>,
        pd: &mut C,
        now: u64,
        arrival: Arrival,
        out: &mut Outbox,
    ) -> Turn<P>
        requires stopped { self.old.stage ≡ MultiStage.Stopped }
        requires inner { IsUnbegun P.meaning self.old.inner }
        requires none { self.old.tasks ≡ None }
        requires same { cutting.plan ≡ self.old.inner }
        requires running { search_phase cutting.stage ≡ Running }
        requires numbers { HasNumbers out.old }
        requires clock { now < 2 ^ 44 }
        ensures { Takes P.meaning P.Result.key_errors_in P.Result.region_error_in P.IsPart P.load P.AreCut P.most P.touches (touch C.looked C.learns C.leads C.drops) arrival (at.Cutting cutting) self.old self.new out.old out.new pd.old pd.new result }
    {
        let mut cutting = cutting;
        let turn = cutting.tell(pd, now, arrival, out);
        self.after_cut(cutting, turn, pd, now, out)
    }

    /// Goes on after a call of the search.
    fn after_cut<C: PdClient>(
        &mut self,
        cutting: Cutting<P>,
        turn: std::result::Result<Progress<Vec<Part<P>>>, NoMemory>,
        pd: &mut C,
        now: u64,
        out: &mut Outbox,
    ) -> Turn<P>
        requires stopped { self.old.stage ≡ MultiStage.Stopped }
        requires inner { IsUnbegun P.meaning self.old.inner }
        requires none { self.old.tasks ≡ None }
        requires same { cutting.plan ≡ self.old.inner }
        requires running { turn_of turn ≡ Waits → search_phase cutting.stage ≡ Running }
        requires parts { IfEnds (turn_of turn) (IfParts P.meaning P.IsPart P.load P.AreCut P.most self.old.inner) }
        requires numbers { HasNumbers out.old }
        requires clock { now < 2 ^ 44 }
        ensures after { AfterCut (multi P.meaning P.Result.key_errors_in P.Result.region_error_in P.IsPart P.load P.AreCut P.most) (turn_of turn) cutting self.old self.new out.old out.new pd.old pd.new (turn_of result) }
        ensures client { UnlessGone self.new.stage (FoundTouches (TaskTouches P.meaning P.Result.key_errors_in P.Result.region_error_in (touch C.looked C.learns C.leads C.drops) (P.touches (touch C.looked C.learns C.leads C.drops))) self.old.backoff self.new.tasks pd.old pd.new) }
        ensures ready { (multi P.meaning P.Result.key_errors_in P.Result.region_error_in P.IsPart P.load P.AreCut P.most).ready self.new }
        ensures numbers { HasNumbers out.new }
    {
        match turn? {
            Progress::Waiting => {
                self.stage = MultiStage::Cutting(cutting);
                Ok(Progress::Waiting)
            }
            Progress::Done(Ok(parts)) => self.run(parts, pd, now, out),
            Progress::Done(Err(error)) => self.refuse(error),
        }
    }

    /// All shards are found.
    fn run<C: PdClient>(
        &mut self,
        parts: Vec<Part<P>>,
        pd: &mut C,
        now: u64,
        out: &mut Outbox,
    ) -> Turn<P>
        requires stopped { self.old.stage ≡ MultiStage.Stopped }
        requires inner { IsUnbegun P.meaning self.old.inner }
        requires none { self.old.tasks ≡ None }
        requires parts { ArePartsOf P.meaning P.IsPart P.load P.AreCut P.most self.old.inner parts.items }
        requires numbers { HasNumbers out.old }
        requires clock { now < 2 ^ 44 }
        ensures begins { Begins (multi P.meaning P.Result.key_errors_in P.Result.region_error_in P.IsPart P.load P.AreCut P.most) (λ h. ⊤) (record self.old { stage = MultiStage.Fresh }) self.new out.old out.new (turn_of result) }
        ensures client { UnlessGone self.new.stage (FoundTouches (TaskTouches P.meaning P.Result.key_errors_in P.Result.region_error_in (touch C.looked C.learns C.leads C.drops) (P.touches (touch C.looked C.learns C.leads C.drops))) self.old.backoff self.new.tasks pd.old pd.new) }
        ensures ready { (multi P.meaning P.Result.key_errors_in P.Result.region_error_in P.IsPart P.load P.AreCut P.most).ready self.new }
        ensures numbers { HasNumbers out.new }
    {
        self.width = self.width.max(parts.len());
        let before = self.backoff.current_attempts();
        let first = tasks_of(self.alloc, parts, self.backoff, before)?;
        let mut tasks = Tasks::new(self.alloc, first)?;
        let turn = tasks.start(pd, now, out);
        self.tasks = Some(tasks);
        self.after_tasks(turn)
    }

    /// Its tasks take what came.
    fn tell_tasks<C: PdClient>(
        &mut self,
        pd: &mut C,
        now: u64,
        arrival: Arrival,
        out: &mut Outbox,
    ) -> Turn<P>
        requires stopped { self.old.stage ≡ MultiStage.Stopped }
        requires inner { IsUnbegun P.meaning self.old.inner }
        requires tasks { Holding self.old.tasks (λ t. (tasks_for P.meaning P.Result.key_errors_in P.Result.region_error_in P.IsPart P.load P.AreCut P.most self.old.inner (attempts_left self.old.backoff)).ready t × (tasks_phase t.stage ≡ Running)) }
        requires arrives { MayArrive arrival }
        requires numbers { HasNumbers out.old }
        requires clock { now < 2 ^ 44 }
        ensures { Takes P.meaning P.Result.key_errors_in P.Result.region_error_in P.IsPart P.load P.AreCut P.most P.touches (touch C.looked C.learns C.leads C.drops) arrival at.Running self.old self.new out.old out.new pd.old pd.new result }
    {
        let Some(tasks) = &mut self.tasks else {
            unreachable!()
        };
        let turn = tasks.tell(pd, now, arrival, out);
        self.after_tasks(turn)
    }

    /// Goes on after a call of its tasks.
    fn after_tasks(&mut self, turn: TasksTurn<P>) -> Turn<P>
        requires stopped { self.old.stage ≡ MultiStage.Stopped }
        ensures state { self.new ≡ record self.old { stage = self.new.stage } }
        ensures after { AfterTasks self.old.preserve_region_results (tasks_turn turn) self.new.stage (turn_of result) }
    {
        match turn? {
            None => {
                self.stage = MultiStage::Running;
                Ok(Progress::Waiting)
            }
            Some(outcomes) => self.end(outcomes),
        }
    }

    /// All tasks have ended.
    fn end(&mut self, outcomes: Vec<Result<Result<P::Result>>>) -> Turn<P>
        requires stopped { self.old.stage ≡ MultiStage.Stopped }
        ensures state { self.new ≡ record self.old { stage = self.new.stage } }
        ensures after { AfterTasks self.old.preserve_region_results (Ends outcomes.items) self.new.stage (turn_of result) }
    {
        let answer = self.answer_of(outcomes)?;
        self.stage = MultiStage::Over;
        Ok(Progress::Done(answer))
    }

    /// Why not all shards were found.
    fn refuse(&mut self, error: txn_kv::Error) -> Turn<P>
        ensures turn { turn_of result ≡ Ends (Err error) }
        ensures state { self.new ≡ record self.old { stage = MultiStage.Over } }
    {
        self.stage = MultiStage::Over;
        Ok(Progress::Done(Err(error)))
    }

    fn answer_of(
        &self,
        outcomes: Vec<Result<Result<P::Result>>>,
    ) -> std::result::Result<Result<Vec<Result<P::Result>>>, NoMemory>
        ensures { IfOk result (IsAnswer self.now.preserve_region_results outcomes.items) }
    {
        if self.preserve_region_results {
            let results = keep_all(self.alloc, outcomes)?;
            Ok(Ok(results))
        } else {
            all_or_first(self.alloc, outcomes)
        }
    }
}

impl<P: RegionPlan> Plan for RetryableMultiRegion<P>
where
    P::Result: HasKeyErrors + HasRegionError,
{
    type Result = Vec<Result<P::Result>>;

    ghost meaning = { multi P.meaning P.Result.key_errors_in P.Result.region_error_in P.IsPart P.load P.AreCut P.most };

    ghost touches = { λ touch told from old new pd pd'. MultiTouches touch (TaskTouches P.meaning P.Result.key_errors_in P.Result.region_error_in touch (P.touches touch)) told from old new pd pd' };

    /// A plan that has begun has no copy: it is refused as if for want of memory.
    fn try_clone(&self) -> std::result::Result<RetryableMultiRegion<P>, NoMemory> {
        if !self.is_fresh() {
            return Err(NoMemory);
        }
        Ok(RetryableMultiRegion {
            inner: self.inner.try_clone()?,
            backoff: self.backoff,
            preserve_region_results: self.preserve_region_results,
            stage: MultiStage::Fresh,
            tasks: None,
            width: self.width,
            alloc: self.alloc,
        })
    }

    fn start<C: PdClient>(&mut self, pd: &mut C, now: u64, out: &mut Outbox) -> Turn<P> {
        match mem::replace(&mut self.stage, MultiStage::Stopped) {
            MultiStage::Fresh => self.begin(pd, now, out),
            stage => self.stay(stage),
        }
    }

    fn tell<C: PdClient>(
        &mut self,
        pd: &mut C,
        now: u64,
        arrival: Arrival,
        out: &mut Outbox,
    ) -> Turn<P> {
        match mem::replace(&mut self.stage, MultiStage::Stopped) {
            MultiStage::Cutting(cutting) => self.tell_cutting(cutting, pd, now, arrival, out),
            MultiStage::Running => self.tell_tasks(pd, now, arrival, out),
            stage => {
                drop(arrival);
                self.stay(stage)
            }
        }
    }

    ghost lawful = { multi-lawful P.meaning P.Result.key_errors_in P.Result.region_error_in P.IsPart P.load P.AreCut P.most P.lawful };
}
