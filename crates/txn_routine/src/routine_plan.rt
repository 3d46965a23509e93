ghost use Rattle.std.specs.Prelude.{◌≡◌, ◌+◌, ◌<◌, ◌^◌, ⊤, false};
ghost use Rattle.txn_history.specs.Arrivals.{arrives, MayArrive};
ghost use Rattle.txn_history.specs.Meaning.{IsUnbegun};
ghost use Rattle.txn_history.specs.Phase.{unheard};
ghost use Rattle.txn_history.specs.Posted.{HasNumbers};
ghost use Rattle.txn_history.specs.Steps.{begins, IsCallable, Steps};
ghost use Rattle.txn_history.specs.Turn.{turn_of};
ghost use Rattle.txn_history.specs.Turn.Turn.{Ends};
ghost use Rattle.txn_routine.specs.Next.{allowance};
ghost use Rattle.txn_routine.specs.RoutinePlan.{in_turn, in_turn-lawful, stage_phase, Follows, FollowsNext, IsRunnable, IsUnderWay, MayFollow, StageReady};

use crate::routine::{Next, Routine};
use crate::stage::Stage;
use std::mem;
use txn_kv::{Arrival, NoMemory, Outbox, Progress, Result};
use txn_plan::Plan;
use txn_region::PdClient;

/// What an event answers.
type Turn<R> = std::result::Result<Progress<<R as Routine>::Result>, NoMemory>;

/// A routine as a plan. One of its plans is under way at a time. Nothing is said of what it makes of the client.
pub struct RoutinePlan<R: Routine> {
    routine: R,
    stage: Stage<R::Plan>,
}

impl<R: Routine> Drop for RoutinePlan<R> {
    fn drop(self) {
        let RoutinePlan { routine, stage } = self;
        drop(routine);
        drop(stage);
    }
}

impl<R: Routine> RoutinePlan<R> {
    /// A plan that is not started. Takes no memory.
    pub fn new(routine: R) -> RoutinePlan<R>
        requires fresh { R.way.fresh routine }
        ensures routine { result.routine ≡ routine }
        ensures unbegun { IsUnbegun (in_turn R.Plan.meaning R.way) result }
        ensures ready { (in_turn R.Plan.meaning R.way).ready result }
    {
        RoutinePlan {
            routine,
            stage: Stage::Fresh,
        }
    }

    /// The routine.
    pub fn routine(&self) -> &R
        ensures { result.now ≡ self.now.routine }
    {
        &self.routine
    }

    /// What comes of an event that is not for it.
    fn stay(&mut self, stage: Stage<R::Plan>) -> Turn<R>
        requires ready { StageReady R.Plan.meaning R.way self.old.routine stage }
        ensures turn { turn_of result ≡ unheard (stage_phase R.Plan.meaning stage) }
        ensures state { self.new ≡ record self.old { stage = stage } }
    {
        let stopped = matches!(stage, Stage::Stopped);
        self.stage = stage;
        if stopped {
            Err(NoMemory)
        } else {
            Ok(Progress::Waiting)
        }
    }

    /// The routine begins.
    fn begin<C: PdClient>(&mut self, pd: &mut C, now: u64, out: &mut Outbox) -> Turn<R>
        requires stopped { self.old.stage ≡ Stage.Stopped }
        requires fresh { R.way.fresh self.old.routine }
        requires numbers { HasNumbers out.old }
        requires clock { now < 2 ^ 44 }
        ensures { Follows R.Plan.meaning R.way (λ h. ⊤) (λ n. R.way.round self.old.routine) false self.old self.new out.old out.new (turn_of result) }
    {
        let next = self.routine.begin(pd)?;
        self.go(next, pd, now, out)
    }

    /// Its plan takes what came.
    fn tell_plan<C: PdClient>(
        &mut self,
        plan: R::Plan,
        pd: &mut C,
        now: u64,
        arrival: Arrival,
        out: &mut Outbox,
    ) -> Turn<R>
        requires stopped { self.old.stage ≡ Stage.Stopped }
        requires plan { IsUnderWay R.Plan.meaning R.way self.old.routine plan }
        requires arrives { MayArrive arrival }
        requires numbers { HasNumbers out.old }
        requires clock { now < 2 ^ 44 }
        ensures { Steps (in_turn R.Plan.meaning R.way) (λ told from old new x y. ⊤) (arrives arrival out.old) (record self.old { stage = Stage.Running plan }) self.new out.old out.new pd.old pd.new (turn_of result) }
    {
        let mut plan = plan;
        match plan.tell(pd, now, arrival, out)? {
            Progress::Waiting => {
                self.stage = Stage::Running(plan);
                Ok(Progress::Waiting)
            }
            Progress::Done(answer) => {
                drop(plan);
                self.hear(answer, pd, now, out)
            }
        }
    }

    /// Begins a plan.
    #[cycle(going)]
    fn run<C: PdClient>(&mut self, plan: R::Plan, pd: &mut C, now: u64, out: &mut Outbox) -> Turn<R>
        requires stopped { self.old.stage ≡ Stage.Stopped }
        requires plan { IsRunnable R.Plan.meaning R.way self.old.routine plan }
        requires numbers { HasNumbers out.old }
        requires clock { now < 2 ^ 44 }
        ensures { Follows R.Plan.meaning R.way (λ h. R.way.knows self.old.routine h) (λ n. R.Plan.meaning.round plan n + R.way.rest self.old.routine) false self.old self.new out.old out.new (turn_of result) }
    {
        let mut plan = plan;
        match plan.start(pd, now, out)? {
            Progress::Waiting => {
                self.stage = Stage::Running(plan);
                Ok(Progress::Waiting)
            }
            Progress::Done(answer) => {
                drop(plan);
                self.hear(answer, pd, now, out)
            }
        }
    }

    /// The routine hears what the plan that it ran has answered.
    #[cycle(going)]
    fn hear<C: PdClient>(
        &mut self,
        answer: Result<<R::Plan as Plan>::Result>,
        pd: &mut C,
        now: u64,
        out: &mut Outbox,
    ) -> Turn<R>
        requires stopped { self.old.stage ≡ Stage.Stopped }
        requires ready { R.way.ready self.old.routine }
        requires numbers { HasNumbers out.old }
        requires clock { now < 2 ^ 44 }
        ensures { Follows R.Plan.meaning R.way (λ h. R.way.knows self.old.routine h × R.way.hears self.old.routine h answer) (λ n. allowance R.way self.old.routine (R.Plan.meaning.fails answer)) (R.Plan.meaning.fails answer) self.old self.new out.old out.new (turn_of result) }
    {
        let next = self.routine.hear(pd, answer)?;
        self.go(next, pd, now, out)
    }

    /// Does what the routine does next.
    #[cycle(going)]
    fn go<C: PdClient>(
        &mut self,
        next: Next<R::Plan, R::Result>,
        pd: &mut C,
        now: u64,
        out: &mut Outbox,
    ) -> Turn<R>
        requires stopped { self.old.stage ≡ Stage.Stopped }
        requires next { MayFollow R.Plan.meaning R.way self.old.routine next }
        requires numbers { HasNumbers out.old }
        requires clock { now < 2 ^ 44 }
        ensures { FollowsNext R.Plan.meaning R.way next self.old self.new out.old out.new (turn_of result) }
    {
        match next {
            Next::Run(plan) => self.run(plan, pd, now, out),
            Next::End(answer) => self.end(answer),
        }
    }

    fn end(&mut self, answer: Result<R::Result>) -> Turn<R>
        ensures turn { turn_of result ≡ Ends answer }
        ensures state { self.new ≡ record self.old { stage = Stage.Over } }
    {
        self.stage = Stage::Over;
        Ok(Progress::Done(answer))
    }
}

impl<R: Routine> Plan for RoutinePlan<R> {
    type Result = R::Result;

    ghost meaning = { in_turn R.Plan.meaning R.way };

    ghost touches = { λ touch told from old new pd pd'. ⊤ };

    /// A routine has no copy: it is refused as if for want of memory.
    fn try_clone(&self) -> std::result::Result<RoutinePlan<R>, NoMemory> {
        Err(NoMemory)
    }

    fn start<C: PdClient>(&mut self, pd: &mut C, now: u64, out: &mut Outbox) -> Turn<R> {
        match mem::replace(&mut self.stage, Stage::Stopped) {
            Stage::Fresh => self.begin(pd, now, out),
            stage => self.stay(stage),
        }
    }

    fn tell<C: PdClient>(
        &mut self,
        pd: &mut C,
        now: u64,
        arrival: Arrival,
        out: &mut Outbox,
    ) -> Turn<R> {
        match mem::replace(&mut self.stage, Stage::Stopped) {
            Stage::Running(plan) => self.tell_plan(plan, pd, now, arrival, out),
            stage => {
                drop(arrival);
                self.stay(stage)
            }
        }
    }

    ghost lawful = { in_turn-lawful R.Plan.meaning R.way R.Plan.lawful R.lawful };
}
