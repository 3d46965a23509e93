//! The tasks of a plan, sixteen of which run at once.
ghost use Rattle.std.specs.Prelude.{◌≡◌, ◌≢◌, ◌≤◌, ◌<◌, ◌^◌, ◌++◌, drop, IfOk, IfSome, List, None, Ok, OnOk, Option, false, length, map, true, ℕ};
ghost use Rattle.std.specs.Bool.{MatchBool};
ghost use Rattle.std.proofs.Math.ListN.{get_or};
ghost use Rattle.std.specs.List.{count_by, sum_by, All};
ghost use Rattle.txn_history.specs.Event.{Event};
ghost use Rattle.txn_history.specs.Meaning.{started, Counts, Goes, Tells};
ghost use Rattle.txn_history.specs.Moves.{Knows};
ghost use Rattle.txn_history.specs.Phase.{phase_after, unheard};
ghost use Rattle.txn_history.specs.Phase.Phase.{Fresh};
ghost use Rattle.txn_history.specs.Posted.{HasNumbers, Posted};
ghost use Rattle.txn_history.specs.Turn.{IfEnds, IfKept};
ghost use Rattle.txn_history.specs.Arrivals.{arrives, awaited_as, MayArrive};
ghost use Rattle.txn_plan.specs.Touch.{touch};
ghost use Rattle.txn_retry.specs.Place.{next_task};
ghost use Rattle.txn_tasks.specs.Settled.{ended, rested, waiting, Begins, Continues, Finds, GoesOnSo, HasEndedSo, HasGiven, IsMore, IsSettled};
ghost use Rattle.txn_tasks.specs.Step.{parts_in, step_turn, IsNew};
ghost use Rattle.txn_tasks.specs.declared.step.Step.{Step};
ghost use Rattle.txn_tasks.specs.Tasks.{left_at, sum_left, tasks_of, tasks_phase, tasks_turn, AllFit, AreReady, BearAll};
ghost use Rattle.txn_tasks.specs.TasksStep.{TasksStep};
ghost use Rattle.txn_tasks.specs.Turns.{Starts};

use crate::routes::Routes;
use crate::stage::Stage;
use crate::step::{Step, Task};
use std::alloc::Global;
use std::mem;
use txn_kv::{Arrival, NoMemory, Outbox, Result};
use txn_region::PdClient;
use txn_retry::Queue;

/// How an event ends: with how each task ended, in the order of the shards, once all have.
type Turn<T> = std::result::Result<Option<Vec<Result<Result<<T as Task>::Answer>>>>, NoMemory>;

/// The tasks of a plan, by their numbers, and what each has come to. Parts stand in the place of the task that gave them, and
/// start once there is room.
pub struct Tasks<T: Task> {
    stage: Stage,
    queue: Queue<Result<Result<T::Answer>>>,
    tasks: Vec<T>,
    routes: Routes,
    alloc: Global,
}

impl<T: Task> Drop for Tasks<T> {
    fn drop(self) {
        let Tasks {
            stage,
            queue,
            tasks,
            routes,
            alloc: _,
        } = self;
        drop(stage);
        drop(queue);
        drop(tasks);
        drop(routes);
    }
}

impl<T: Task> Tasks<T> {
    /// Tasks that stand in this order, and were not started.
    pub fn new(alloc: Global, tasks: Vec<T>) -> std::result::Result<Tasks<T>, NoMemory>
        requires fresh { All (λ task. IsNew T.meaning task) tasks.items }
        ensures fresh { IfOk result (λ ts. tasks_phase ts.stage ≡ Fresh) }
        ensures fits { IfOk result (λ ts. (whole : T.Whole) (first : T.Load) (o : Posted) (h : List Event) → All (λ task. T.meaning.fits task o h) tasks.items → All (λ task. T.IsOf task whole) tasks.items → T.AreCut first (map T.load tasks.items) → (tasks_of T.meaning T.load T.AreCut T.IsOf T.cost T.runs whole first).fits ts o h) }
        ensures ready { IfOk result (λ ts. AreReady T.meaning T.runs ts) }
        ensures left { IfOk result (λ ts. (whole : T.Whole) (first : T.Load) (n : ℕ) → (tasks_of T.meaning T.load T.AreCut T.IsOf T.cost T.runs whole first).left ts n ≡ sum_by (λ task. T.meaning.left task n) tasks.items) }
        ensures bears { IfOk result (λ ts. (whole : T.Whole) (first : T.Load) (w : ℕ) → All (λ task. T.IsOf task whole) tasks.items → (tasks_of T.meaning T.load T.AreCut T.IsOf T.cost T.runs whole first).bears ts w) }
        ensures tasks { IfOk result (λ ts. ts.tasks ≡ tasks) }
    {
        let mut queue = Queue::new(alloc);
        queue.begin(tasks.len())?;
        Ok(Tasks {
            stage: Stage::Fresh,
            queue,
            tasks,
            routes: Routes::new(alloc),
            alloc,
        })
    }

    /// All tasks that there are and were, those among them that gave parts.
    pub fn tasks(&self) -> &[T]
        ensures { result.now ≡ self.now.tasks.items }
    {
        self.tasks.as_slice()
    }

    fn is_fresh(&self) -> bool
        ensures { MatchBool result (self.now.stage ≡ Stage.Fresh) (self.now.stage ≢ Stage.Fresh) }
    {
        matches!(self.stage, Stage::Fresh)
    }

    fn is_running(&self) -> bool
        ensures { MatchBool result (self.now.stage ≡ Stage.Running) (self.now.stage ≢ Stage.Running) }
    {
        matches!(self.stage, Stage::Running)
    }

    /// What comes of an event that is not for these tasks.
    fn stay(&self) -> Turn<T>
        ensures { tasks_turn result ≡ unheard (tasks_phase self.now.stage) }
    {
        match self.stage {
            Stage::GivenUp => Err(NoMemory),
            _ => Ok(None),
        }
    }

    /// The task that waits for this. Until the event is through they stand as if memory was wanting, and stay so if it is.
    fn find(&mut self, arrival: &Arrival) -> Option<usize>
        requires ready { AreReady T.meaning T.runs self.old }
        ensures finds { Finds (awaited_as arrival.now) result self.old self.new }
        ensures within { IfSome result (λ at. at < length self.new.tasks.items) }
        ensures ready { AreReady T.meaning T.runs self.new }
    {
        if !self.is_running() {
            return None;
        }
        let at = self.routes.take(arrival)?;
        self.stage = Stage::GivenUp;
        Some(at)
    }

    /// Starts as many as may run at once.
    pub fn start<C: PdClient>(&mut self, pd: &mut C, now: u64, out: &mut Outbox) -> Turn<T>
        requires ready { AreReady T.meaning T.runs self.old }
        requires numbers { HasNumbers out.old }
        requires clock { now < 2 ^ 44 }
        ensures tells { (whole : T.Whole) (first : T.Load) → Tells (tasks_of T.meaning T.load T.AreCut T.IsOf T.cost T.runs whole first) started self.old self.new out.old out.new (tasks_turn result) }
        ensures goes { Goes (λ (s : Tasks T T.Answer). tasks_phase s.stage) (tasks_phase self.old.stage ≡ Fresh) self.old self.new out.old out.new pd.old pd.new (tasks_turn result) }
        ensures counts { (whole : T.Whole) (first : T.Load) → Counts (tasks_of T.meaning T.load T.AreCut T.IsOf T.cost T.runs whole first) false false 0 0 self.old self.new out.old out.new (tasks_turn result) }
        ensures client { IfKept (tasks_turn result) (Starts (T.touches (touch C.looked C.learns C.leads C.drops)) self.old.tasks.items pd.old self.new.tasks.items pd.new) }
        ensures few { count_by T.runs self.new.tasks.items ≤ 16 }
        ensures ready { AreReady T.meaning T.runs self.new }
        ensures numbers { HasNumbers out.new }
    {
        if !self.is_fresh() {
            return self.stay();
        }
        self.stage = Stage::GivenUp;
        self.routes = Routes::new(self.alloc);
        self.start_waiting(pd, now, out)
    }

    /// Takes what came.
    pub fn tell<C: PdClient>(
        &mut self,
        pd: &mut C,
        now: u64,
        arrival: Arrival,
        out: &mut Outbox,
    ) -> Turn<T>
        requires ready { AreReady T.meaning T.runs self.old }
        requires numbers { HasNumbers out.old }
        requires clock { now < 2 ^ 44 }
        requires arrives { MayArrive arrival }
        ensures { TasksStep T.meaning T.load T.AreCut T.IsOf T.cost T.runs (T.touches (touch C.looked C.learns C.leads C.drops)) (arrives arrival out.old) self.old self.new out.old out.new pd.old pd.new (tasks_turn result) }
    {
        let Some(at) = self.find(&arrival) else {
            drop(arrival);
            return self.stay();
        };
        let posted = out.sends.len();
        let step = self.tasks[at].tell(pd, now, arrival, out);
        self.go_on(at, posted, step, pd, now, out)
    }

    /// Goes on after a task took an event.
    fn go_on<C: PdClient>(
        &mut self,
        at: usize,
        posted: usize,
        step: std::result::Result<Option<Step<T, T::Answer>>, NoMemory>,
        pd: &mut C,
        now: u64,
        out: &mut Outbox,
    ) -> Turn<T>
        requires stage { self.old.stage ≡ Stage.GivenUp }
        requires at { at < length self.old.tasks.items }
        requires posted { posted ≤ length out.old.sends }
        requires numbers { HasNumbers out.old }
        requires clock { now < 2 ^ 44 }
        requires ready { AreReady T.meaning T.runs self.old }
        requires fresh { IfEnds (step_turn step) (λ s. All (λ part. IsNew T.meaning part) (parts_in s)) }
        ensures goes { (t : T) → GoesOnSo T.meaning T.load T.AreCut T.IsOf T.cost T.runs step (drop posted out.old.sends) (T.runs (get_or self.old.tasks.items at t)) at self.old self.new out.old out.new (tasks_turn result) }
        ensures client { IfKept (tasks_turn result) ((more : List T) × Starts (T.touches (touch C.looked C.learns C.leads C.drops)) (self.old.tasks.items ++ more) pd.old self.new.tasks.items pd.new) }
        ensures few { count_by T.runs self.new.tasks.items ≤ 16 }
        ensures ready { AreReady T.meaning T.runs self.new }
        ensures numbers { HasNumbers out.new }
    {
        self.settle(at, posted, step, out)?;
        self.start_waiting(pd, now, out)
    }

    /// Notes what a task waits for, whether it runs, and how it ended.
    fn settle(
        &mut self,
        at: usize,
        posted: usize,
        step: std::result::Result<Option<Step<T, T::Answer>>, NoMemory>,
        out: &Outbox,
    ) -> std::result::Result<(), NoMemory>
        requires at { at < length self.old.tasks.items }
        requires posted { posted ≤ length out.now.sends }
        requires ready { AreReady T.meaning T.runs self.old }
        requires fresh { IfEnds (step_turn step) (λ s. All (λ part. IsNew T.meaning part) (parts_in s)) }
        ensures settled { OnOk result ((t : T) → (s : Option (Step T T.Answer)) × (step ≡ Ok s) × IsSettled s (drop posted out.now.sends) (T.runs (get_or self.old.tasks.items at t)) at self.old self.new) }
        ensures ready { AreReady T.meaning T.runs self.new }
        ensures tasks { IsMore self.old.tasks.items self.new.tasks.items }
        ensures stage { self.new.stage ≡ self.old.stage }
    {
        let step = step?;
        self.rest(at);
        self.finish(at, step)?;
        self.routes.note(&out.sends.as_slice()[posted..], at)?;
        Ok(())
    }

    /// Notes how a task ended, once it does.
    fn finish(
        &mut self,
        at: usize,
        step: Option<Step<T, T::Answer>>,
    ) -> std::result::Result<(), NoMemory>
        requires ready { AreReady T.meaning T.runs self.old }
        requires fresh { IfEnds (step_turn (Ok step)) (λ s. All (λ part. IsNew T.meaning part) (parts_in s)) }
        ensures ended { OnOk result (HasEndedSo step at self.old self.new) }
        ensures ready { AreReady T.meaning T.runs self.new }
        ensures tasks { IsMore self.old.tasks.items self.new.tasks.items }
        ensures stage { self.new.stage ≡ self.old.stage }
        ensures routes { self.new.routes ≡ self.old.routes }
    {
        match step {
            None => Ok(()),
            Some(Step::End(answer)) => {
                self.end(at, answer);
                Ok(())
            }
            Some(Step::Parts(parts)) => self.replace(at, parts),
        }
    }

    /// A task that runs no more gives room to another.
    fn rest(&mut self, at: usize)
        requires at { at < length self.old.tasks.items }
        requires ready { AreReady T.meaning T.runs self.old }
        ensures rested { (t : T) → self.new.queue ≡ rested (T.runs (get_or self.old.tasks.items at t)) at self.old.queue }
        ensures others { self.new ≡ record self.old { queue = self.new.queue } }
        ensures ready { AreReady T.meaning T.runs self.new }
    {
        if !self.tasks[at].is_running() && self.queue.is_running(at) {
            self.queue.rest(at);
        }
    }

    /// A task that rests has ended.
    fn end(&mut self, at: usize, answer: Result<Result<T::Answer>>)
        requires ready { AreReady T.meaning T.runs self.old }
        ensures ended { self.new ≡ record self.old { queue = ended answer at self.old.queue } }
        ensures ready { AreReady T.meaning T.runs self.new }
    {
        if self.queue.is_resting(at) {
            self.queue.end(at, answer);
        }
    }

    /// These stand in the place of a task from now on.
    fn replace(&mut self, at: usize, parts: Vec<T>) -> std::result::Result<(), NoMemory>
        requires ready { AreReady T.meaning T.runs self.old }
        requires fresh { All (λ part. IsNew T.meaning part) parts.items }
        ensures given { OnOk result (HasGiven parts.items at self.old self.new) }
        ensures ready { AreReady T.meaning T.runs self.new }
        ensures tasks { IsMore self.old.tasks.items self.new.tasks.items }
        ensures stage { self.new.stage ≡ self.old.stage }
        ensures routes { self.new.routes ≡ self.old.routes }
    {
        if !self.queue.is_resting(at) {
            return Ok(());
        }
        let count = parts.len();
        let mut parts = parts;
        self.tasks.append(&mut parts)?;
        self.queue.cut(at, count)?;
        Ok(())
    }

    /// Starts tasks in their order, as far as they may run, and answers once each has ended.
    fn start_waiting<C: PdClient>(&mut self, pd: &mut C, now: u64, out: &mut Outbox) -> Turn<T>
        requires stage { self.old.stage ≡ Stage.GivenUp }
        requires ready { AreReady T.meaning T.runs self.old }
        requires numbers { HasNumbers out.old }
        requires clock { now < 2 ^ 44 }
        ensures continues { Continues T.meaning T.load T.AreCut T.IsOf T.cost T.runs self.old self.new out.old out.new (tasks_turn result) }
        ensures client { IfKept (tasks_turn result) (Starts (T.touches (touch C.looked C.learns C.leads C.drops)) self.old.tasks.items pd.old self.new.tasks.items pd.new) }
        ensures ready { AreReady T.meaning T.runs self.new }
        ensures numbers { HasNumbers out.new }
    {
        while self.start_next(pd, now, out)? {}
        self.outcome()
    }

    /// Starts the next task, where one waits and may run.
    fn start_next<C: PdClient>(
        &mut self,
        pd: &mut C,
        now: u64,
        out: &mut Outbox,
    ) -> std::result::Result<bool, NoMemory>
        requires ready { AreReady T.meaning T.runs self.old }
        requires numbers { HasNumbers out.old }
        requires clock { now < 2 ^ 44 }
        ensures begins { Begins T.meaning T.load T.AreCut T.IsOf T.cost T.runs self.old self.new out.old out.new result }
        ensures client { OnOk result (Starts (T.touches (touch C.looked C.learns C.leads C.drops)) self.old.tasks.items pd.old self.new.tasks.items pd.new) }
        ensures none { IfOk result (λ more. more ≡ false → next_task self.new.queue.places ≡ None) }
        ensures fewer { IfOk result (λ more. more ≡ true → waiting self.new.queue.places < waiting self.old.queue.places) }
        ensures stage { self.new.stage ≡ self.old.stage }
        ensures ready { AreReady T.meaning T.runs self.new }
        ensures numbers { HasNumbers out.new }
    {
        let Some(at) = self.queue.start_next() else {
            return Ok(false);
        };
        let posted = out.sends.len();
        let step = self.tasks[at].start(pd, now, out);
        self.settle(at, posted, step, out)?;
        Ok(true)
    }

    /// How each task ended, once all have.
    fn outcome(&mut self) -> Turn<T>
        requires none { next_task self.old.queue.places ≡ None }
        requires stage { self.old.stage ≡ Stage.GivenUp }
        requires ready { AreReady T.meaning T.runs self.old }
        ensures knows { (whole : T.Whole) (first : T.Load) (o : Posted) (h : List Event) → AllFit T.meaning T.load T.AreCut T.IsOf whole first self.old o h → Knows (tasks_turn result) ((tasks_of T.meaning T.load T.AreCut T.IsOf T.cost T.runs whole first).fits self.new o) ((tasks_of T.meaning T.load T.AreCut T.IsOf T.cost T.runs whole first).gives self.new) h }
        ensures stage { tasks_phase self.new.stage ≡ phase_after (tasks_turn result) }
        ensures routes { self.new.routes ≡ self.old.routes }
        ensures tasks { self.new.tasks ≡ self.old.tasks }
        ensures left { IfKept (tasks_turn result) ((n : ℕ) → left_at self.new.stage (sum_left T.meaning self.new n) ≤ sum_left T.meaning self.old n) }
        ensures bears { (whole : T.Whole) (w : ℕ) → BearAll T.meaning T.IsOf whole self.old.queue.places self.old.tasks.items w → BearAll T.meaning T.IsOf whole self.new.queue.places self.new.tasks.items w }
        ensures ready { AreReady T.meaning T.runs self.new }
    {
        if !self.queue.is_over() {
            self.stage = Stage::Running;
            return Ok(None);
        }
        let queue = mem::replace(&mut self.queue, Queue::new(self.alloc));
        let results = queue.into_results()?;
        self.stage = Stage::Over;
        Ok(Some(results))
    }
}
