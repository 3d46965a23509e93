//! One task of a plan over many regions.
ghost use Rattle.std.specs.Prelude.{◌≡◌, ◌<◌, ◌^◌, ℕ, Bool, IfOk, Ok, Err, OnOk, false, map, max, suc, true};
ghost use Rattle.txn_history.specs.Meaning.{started, Counts, Tells};
ghost use Rattle.txn_history.specs.Phase.{phase_after, unheard};
ghost use Rattle.txn_history.specs.Phase.Phase.{Fresh, Running};
ghost use Rattle.txn_history.specs.Posted.{HasNumbers, Posted};
ghost use Rattle.txn_history.specs.Turn.{IfEnds};
ghost use Rattle.txn_kv.specs.declared.errors.Error.TheVariants.{GrpcAPI};
ghost use Rattle.txn_multi.specs.Cutting.{ArePartsOf, IfParts, UnfoundIfErr};
ghost use Rattle.txn_multi.specs.Task.{limit_of, owed, region_task, region_task-lawful, runs_running, shared, stage_phase, stage_runs, task_for, tried, CostsOver, GoesOnAt, GoesOver, HaveFailedBy, IsChanged, IsOutcome, IsReady, IsRefused, IsTaskOf, IsUnderWay, Limited, MayGoOn, TaskReady};
ghost use Rattle.txn_multi.specs.TaskSteps.{Takes};
ghost use Rattle.txn_multi.specs.Touching.{change_after, IsHeeded, PlanTouches, TaskTouches};
ghost use Rattle.txn_multi.specs.declared.stage.Stage.TheVariants as at;
ghost use Rattle.txn_history.specs.Arrivals.{MayArrive};
ghost use Rattle.txn_plan.specs.Touch.{touch};
ghost use Rattle.txn_retry.specs.Remedy.{delay_ms, on_loss, on_region_error};
ghost use Rattle.txn_search.specs.Search.{search_phase};
ghost use Rattle.txn_tasks.specs.Step.{step_turn, IsEnd, Keeps};
ghost use Rattle.txn_tasks.specs.Tasks.{greatest};

use crate::cutting::Cutting;
use crate::part::Part;
use crate::region_plan::RegionPlan;
use crate::stage::Stage;
use std::alloc::Global;
use std::mem;
use txn_kv::{
    Arrival, Backoff, Error, Internal, NoMemory, Outbox, Progress, RegionErr, RegionVerId, Result,
    Ticket,
};
use txn_merge::{HasKeyErrors, HasRegionError};
use txn_plan::{Plan, ShardPlan};
use txn_region::PdClient;
use txn_retry::{CacheChange, Next, Remedy, on_loss, on_region_error};
use txn_tasks::{Step, Task};

type Turn<P> = std::result::Result<Option<Step<RegionTask<P>, <P as Plan>::Result>>, NoMemory>;

/// A plan for one part of a request, with what is done about its failures.
pub struct RegionTask<P: ShardPlan> {
    /// The plan, which is never begun itself.
    job: P,
    region: RegionVerId,
    backoff: Backoff,
    /// How many attempts of the backoff were used up when the whole plan began.
    before: u32,
    stage: Stage<P>,
    /// How many parts it gave.
    width: usize,
    alloc: Global,
}

impl<P: ShardPlan> Drop for RegionTask<P> {
    fn drop(self) {
        let RegionTask {
            job,
            region: _,
            backoff: _,
            before: _,
            stage,
            width: _,
            alloc: _,
        } = self;
        drop(job);
        drop(stage);
    }
}

impl<P: RegionPlan> RegionTask<P>
where
    P::Result: HasKeyErrors + HasRegionError,
{
    /// A task that is not started.
    pub fn new(alloc: Global, part: Part<P>, backoff: Backoff, before: u32) -> RegionTask<P>
        ensures { result ≡ task_for alloc backoff before part }
    {
        RegionTask {
            job: part.plan,
            region: part.region,
            backoff,
            before,
            stage: Stage::Fresh,
            width: 0,
            alloc,
        }
    }

    /// What comes of an event that is not for it.
    fn stay(&mut self, stage: Stage<P>) -> Turn<P>
        ensures turn { step_turn result ≡ unheard (stage_phase stage) }
        ensures state { self.new ≡ record self.old { stage = stage } }
    {
        let stopped = matches!(stage, Stage::Stopped);
        self.stage = stage;
        if stopped { Err(NoMemory) } else { Ok(None) }
    }

    /// Starts a copy of the plan.
    fn run<C: PdClient>(&mut self, pd: &mut C, now: u64, out: &mut Outbox) -> Turn<P>
        requires stopped { self.old.stage ≡ Stage.Stopped }
        requires job { IsReady P.meaning self.old.job }
        requires numbers { HasNumbers out.old }
        requires clock { now < 2 ^ 44 }
        ensures tells { Tells (region_task P.meaning P.Result.key_errors_in P.Result.region_error_in P.IsPart P.load P.AreCut P.most) started (record self.old { stage = Stage.Fresh }) self.new out.old out.new (step_turn result) }
        ensures next { stage_phase self.new.stage ≡ phase_after (step_turn result) }
        ensures counts { Counts (region_task P.meaning P.Result.key_errors_in P.Result.region_error_in P.IsPart P.load P.AreCut P.most) false false 0 0 (record self.old { stage = Stage.Fresh }) self.new out.old out.new (step_turn result) }
        ensures keeps { Keeps (region_task P.meaning P.Result.key_errors_in P.Result.region_error_in P.IsPart P.load P.AreCut P.most) (λ t. P.load t.job) P.AreCut (IsTaskOf P.meaning P.IsPart P.most) (λ t. stage_runs t.stage) self.old self.new (step_turn result) }
        ensures client { PlanTouches P.meaning P.Result.key_errors_in P.Result.region_error_in (touch C.looked C.learns C.leads C.drops) (P.touches (touch C.looked C.learns C.leads C.drops)) started out.old self.old.region (delay_ms self.old.backoff) self.old.job self.new.stage pd.old pd.new }
        ensures ends { IfEnds (step_turn result) IsEnd }
        ensures ready { TaskReady P.meaning self.new }
        ensures numbers { HasNumbers out.new }
    {
        let mut plan = self.job.try_clone()?;
        match plan.start(pd, now, out)? {
            Progress::Waiting => {
                self.stage = Stage::Running(plan);
                Ok(None)
            }
            Progress::Done(answer) => self.take_answer(answer, pd, now, out),
        }
    }

    /// Its plan takes what came.
    fn tell_plan<C: PdClient>(
        &mut self,
        plan: P,
        pd: &mut C,
        now: u64,
        arrival: Arrival,
        out: &mut Outbox,
    ) -> Turn<P>
        requires stopped { self.old.stage ≡ Stage.Stopped }
        requires job { IsReady P.meaning self.old.job }
        requires plan { IsUnderWay P.meaning self.old.job plan }
        requires arrives { MayArrive arrival }
        requires numbers { HasNumbers out.old }
        requires clock { now < 2 ^ 44 }
        ensures { Takes P.meaning P.Result.key_errors_in P.Result.region_error_in P.IsPart P.load P.AreCut P.most P.touches (touch C.looked C.learns C.leads C.drops) arrival (at.Running plan) self.old self.new out.old out.new pd.old pd.new result }
    {
        let mut plan = plan;
        match plan.tell(pd, now, arrival, out)? {
            Progress::Waiting => {
                self.stage = Stage::Running(plan);
                Ok(None)
            }
            Progress::Done(answer) => self.take_answer(answer, pd, now, out),
        }
    }

    /// A sleep ends, if this is the end of it.
    fn tell_sleeping<C: PdClient>(
        &mut self,
        number: u64,
        pd: &mut C,
        now: u64,
        arrival: Arrival,
        out: &mut Outbox,
    ) -> Turn<P>
        requires stopped { self.old.stage ≡ Stage.Stopped }
        requires job { IsReady P.meaning self.old.job }
        requires numbers { HasNumbers out.old }
        ensures { Takes P.meaning P.Result.key_errors_in P.Result.region_error_in P.IsPart P.load P.AreCut P.most P.touches (touch C.looked C.learns C.leads C.drops) arrival (at.Sleeping number) self.old self.new out.old out.new pd.old pd.new result }
    {
        if arrival.is_end_of(number) {
            drop(arrival);
            return self.cut(pd, now, out);
        }
        drop(arrival);
        self.stage = Stage::Sleeping(number);
        Ok(None)
    }

    /// Its look-ups take what came.
    fn tell_cutting<C: PdClient>(
        &mut self,
        cutting: Cutting<P>,
        pd: &mut C,
        now: u64,
        arrival: Arrival,
        out: &mut Outbox,
    ) -> Turn<P>
        requires stopped { self.old.stage ≡ Stage.Stopped }
        requires job { IsReady P.meaning self.old.job }
        requires same { cutting.plan ≡ self.old.job }
        requires running { search_phase cutting.stage ≡ Running }
        requires numbers { HasNumbers out.old }
        ensures { Takes P.meaning P.Result.key_errors_in P.Result.region_error_in P.IsPart P.load P.AreCut P.most P.touches (touch C.looked C.learns C.leads C.drops) arrival (at.Cutting cutting) self.old self.new out.old out.new pd.old pd.new result }
    {
        let mut cutting = cutting;
        match cutting.tell(pd, now, arrival, out)? {
            Progress::Waiting => {
                self.stage = Stage::Cutting(cutting);
                Ok(None)
            }
            Progress::Done(answer) => self.take_parts(answer),
        }
    }

    /// The plan has ended.
    fn take_answer<C: PdClient>(
        &mut self,
        answer: Result<P::Result>,
        pd: &mut C,
        now: u64,
        out: &mut Outbox,
    ) -> Turn<P>
        requires stopped { self.old.stage ≡ Stage.Stopped }
        requires job { IsReady P.meaning self.old.job }
        requires numbers { HasNumbers out.old }
        ensures over { GoesOver (region_task P.meaning P.Result.key_errors_in P.Result.region_error_in P.IsPart P.load P.AreCut P.most) (λ h. P.meaning.gives self.old.job h answer × (P.meaning.fails answer ≡ true → HaveFailedBy (suc (tried self.old)) out.old h)) self.old self.new out.old out.new (step_turn result) }
        ensures costs { CostsOver (region_task P.meaning P.Result.key_errors_in P.Result.region_error_in P.IsPart P.load P.AreCut P.most) (λ n. 0) (P.meaning.fails answer) self.old self.new out.old out.new (step_turn result) }
        ensures ends { P.meaning.fails answer ≡ false → IfEnds (step_turn result) IsEnd }
        ensures keeps { Keeps (region_task P.meaning P.Result.key_errors_in P.Result.region_error_in P.IsPart P.load P.AreCut P.most) (λ t. P.load t.job) P.AreCut (IsTaskOf P.meaning P.IsPart P.most) (λ t. stage_runs t.stage) self.old self.new (step_turn result) }
        ensures heeded { OnOk result (IsHeeded (touch C.looked C.learns C.leads C.drops) self.old.region (change_after P.Result.key_errors_in P.Result.region_error_in (delay_ms self.old.backoff) self.old.region answer) pd.old pd.new) }
        ensures off { stage_runs self.new.stage ≡ false }
        ensures ready { TaskReady P.meaning self.new }
        ensures numbers { HasNumbers out.new }
    {
        match answer {
            Ok(reply) => self.take_reply_of(reply, pd, now, out),
            Err(error) => match &error {
                Error::GrpcAPI(ticket) => self.take_loss(*ticket, pd, now, out),
                _ => self.end(Err(error)),
            },
        }
    }

    /// Errors at keys are looked at before an error of the region.
    fn take_reply_of<C: PdClient>(
        &mut self,
        reply: P::Result,
        pd: &mut C,
        now: u64,
        out: &mut Outbox,
    ) -> Turn<P>
        requires stopped { self.old.stage ≡ Stage.Stopped }
        requires job { IsReady P.meaning self.old.job }
        requires numbers { HasNumbers out.old }
        ensures over { GoesOver (region_task P.meaning P.Result.key_errors_in P.Result.region_error_in P.IsPart P.load P.AreCut P.most) (λ h. P.meaning.gives self.old.job h (Ok reply) × (P.meaning.fails (Ok reply) ≡ true → HaveFailedBy (suc (tried self.old)) out.old h)) self.old self.new out.old out.new (step_turn result) }
        ensures costs { CostsOver (region_task P.meaning P.Result.key_errors_in P.Result.region_error_in P.IsPart P.load P.AreCut P.most) (λ n. 0) (P.meaning.fails (Ok reply)) self.old self.new out.old out.new (step_turn result) }
        ensures ends { P.meaning.fails (Ok reply) ≡ false → IfEnds (step_turn result) IsEnd }
        ensures keeps { Keeps (region_task P.meaning P.Result.key_errors_in P.Result.region_error_in P.IsPart P.load P.AreCut P.most) (λ t. P.load t.job) P.AreCut (IsTaskOf P.meaning P.IsPart P.most) (λ t. stage_runs t.stage) self.old self.new (step_turn result) }
        ensures heeded { OnOk result (IsHeeded (touch C.looked C.learns C.leads C.drops) self.old.region (change_after P.Result.key_errors_in P.Result.region_error_in (delay_ms self.old.backoff) self.old.region (Ok reply)) pd.old pd.new) }
        ensures off { stage_runs self.new.stage ≡ false }
        ensures ready { TaskReady P.meaning self.new }
        ensures numbers { HasNumbers out.new }
    {
        let mut reply = reply;
        if let Some(errors) = reply.key_errors(self.alloc)? {
            return self.end(Ok(Err(Error::MultipleKeyErrors(errors))));
        }
        match reply.region_error() {
            Some(error) => self.take_region_error(error, pd, now, out),
            None => self.end(Ok(Ok(reply))),
        }
    }

    /// The reply was an error of the region.
    fn take_region_error<C: PdClient>(
        &mut self,
        error: RegionErr,
        pd: &mut C,
        now: u64,
        out: &mut Outbox,
    ) -> Turn<P>
        requires stopped { self.old.stage ≡ Stage.Stopped }
        requires job { IsReady P.meaning self.old.job }
        requires numbers { HasNumbers out.old }
        ensures over { GoesOver (region_task P.meaning P.Result.key_errors_in P.Result.region_error_in P.IsPart P.load P.AreCut P.most) (λ h. IsRefused P.meaning P.Result.key_errors_in P.Result.region_error_in self.old.job h error × HaveFailedBy (suc (tried self.old)) out.old h) self.old self.new out.old out.new (step_turn result) }
        ensures costs { CostsOver (region_task P.meaning P.Result.key_errors_in P.Result.region_error_in P.IsPart P.load P.AreCut P.most) (λ n. 0) true self.old self.new out.old out.new (step_turn result) }
        ensures keeps { Keeps (region_task P.meaning P.Result.key_errors_in P.Result.region_error_in P.IsPart P.load P.AreCut P.most) (λ t. P.load t.job) P.AreCut (IsTaskOf P.meaning P.IsPart P.most) (λ t. stage_runs t.stage) self.old self.new (step_turn result) }
        ensures heeded { OnOk result (IsHeeded (touch C.looked C.learns C.leads C.drops) self.old.region ((on_region_error (delay_ms self.old.backoff) error self.old.region).change) pd.old pd.new) }
        ensures off { stage_runs self.new.stage ≡ false }
        ensures ready { TaskReady P.meaning self.new }
        ensures numbers { HasNumbers out.new }
    {
        let remedy = on_region_error(&error, &self.region, &mut self.backoff);
        let failure = Error::region(self.alloc, error)?;
        self.heed(remedy, failure, pd, now, out)
    }

    /// A request of the plan was lost.
    fn take_loss<C: PdClient>(
        &mut self,
        ticket: Ticket,
        pd: &mut C,
        now: u64,
        out: &mut Outbox,
    ) -> Turn<P>
        requires stopped { self.old.stage ≡ Stage.Stopped }
        requires job { IsReady P.meaning self.old.job }
        requires numbers { HasNumbers out.old }
        ensures over { GoesOver (region_task P.meaning P.Result.key_errors_in P.Result.region_error_in P.IsPart P.load P.AreCut P.most) (λ h. P.meaning.gives self.old.job h (Err (GrpcAPI ticket)) × HaveFailedBy (suc (tried self.old)) out.old h) self.old self.new out.old out.new (step_turn result) }
        ensures costs { CostsOver (region_task P.meaning P.Result.key_errors_in P.Result.region_error_in P.IsPart P.load P.AreCut P.most) (λ n. 0) true self.old self.new out.old out.new (step_turn result) }
        ensures keeps { Keeps (region_task P.meaning P.Result.key_errors_in P.Result.region_error_in P.IsPart P.load P.AreCut P.most) (λ t. P.load t.job) P.AreCut (IsTaskOf P.meaning P.IsPart P.most) (λ t. stage_runs t.stage) self.old self.new (step_turn result) }
        ensures heeded { OnOk result (IsHeeded (touch C.looked C.learns C.leads C.drops) self.old.region ((on_loss (delay_ms self.old.backoff)).change) pd.old pd.new) }
        ensures off { stage_runs self.new.stage ≡ false }
        ensures ready { TaskReady P.meaning self.new }
        ensures numbers { HasNumbers out.new }
        ensures client { OnOk result (C.drops self.old.region pd.old pd.new) }
    {
        let remedy = on_loss(&mut self.backoff);
        self.heed(remedy, Error::GrpcAPI(ticket), pd, now, out)
    }

    /// Does what is to be done about a failure.
    fn heed<C: PdClient>(
        &mut self,
        remedy: Remedy,
        failure: Error,
        pd: &mut C,
        now: u64,
        out: &mut Outbox,
    ) -> Turn<P>
        requires stopped { self.old.stage ≡ Stage.Stopped }
        requires job { IsReady P.meaning self.old.job }
        requires numbers { HasNumbers out.old }
        ensures over { GoesOver (region_task P.meaning P.Result.key_errors_in P.Result.region_error_in P.IsPart P.load P.AreCut P.most) (MayGoOn P.meaning P.Result.key_errors_in P.Result.region_error_in self.old out.old failure remedy.next) self.old self.new out.old out.new (step_turn result) }
        ensures costs { CostsOver (region_task P.meaning P.Result.key_errors_in P.Result.region_error_in P.IsPart P.load P.AreCut P.most) (λ n. 0) true self.old self.new out.old out.new (step_turn result) }
        ensures keeps { Keeps (region_task P.meaning P.Result.key_errors_in P.Result.region_error_in P.IsPart P.load P.AreCut P.most) (λ t. P.load t.job) P.AreCut (IsTaskOf P.meaning P.IsPart P.most) (λ t. stage_runs t.stage) self.old self.new (step_turn result) }
        ensures heeded { OnOk result (IsHeeded (touch C.looked C.learns C.leads C.drops) self.old.region (remedy.change) pd.old pd.new) }
        ensures off { stage_runs self.new.stage ≡ false }
        ensures ready { TaskReady P.meaning self.new }
        ensures numbers { HasNumbers out.new }
        ensures client { (remedy.next ≡ Next.AtOnce → ⊥) → OnOk result (IsChanged C.drops C.leads self.old.region remedy.change pd.old pd.new) }
    {
        change(pd, &self.region, remedy.change)?;
        match remedy.next {
            Next::AtOnce => self.cut(pd, now, out),
            Next::Sleep(ms) => self.sleep(ms, out),
            Next::End => self.end(Err(failure)),
            Next::EndWithoutEpoch(id) => self.end(Err(Error::InternalError {
                what: Internal::NoEpoch { id },
            })),
        }
    }

    fn sleep(&mut self, ms: u64, out: &mut Outbox) -> Turn<P>
        requires stopped { self.old.stage ≡ Stage.Stopped }
        requires job { IsReady P.meaning self.old.job }
        requires numbers { HasNumbers out.old }
        ensures over { GoesOver (region_task P.meaning P.Result.key_errors_in P.Result.region_error_in P.IsPart P.load P.AreCut P.most) (GoesOnAt P.meaning P.Result.key_errors_in P.Result.region_error_in self.old out.old) self.old self.new out.old out.new (step_turn result) }
        ensures costs { CostsOver (region_task P.meaning P.Result.key_errors_in P.Result.region_error_in P.IsPart P.load P.AreCut P.most) (λ n. 0) true self.old self.new out.old out.new (step_turn result) }
        ensures keeps { Keeps (region_task P.meaning P.Result.key_errors_in P.Result.region_error_in P.IsPart P.load P.AreCut P.most) (λ t. P.load t.job) P.AreCut (IsTaskOf P.meaning P.IsPart P.most) (λ t. stage_runs t.stage) self.old self.new (step_turn result) }
        ensures off { stage_runs self.new.stage ≡ false }
        ensures ready { TaskReady P.meaning self.new }
        ensures numbers { HasNumbers out.new }
    {
        let number = out.sleep(ms)?;
        self.stage = Stage::Sleeping(number);
        Ok(None)
    }

    /// Cuts the request into shards again.
    fn cut<C: PdClient>(&mut self, pd: &mut C, now: u64, out: &mut Outbox) -> Turn<P>
        requires stopped { self.old.stage ≡ Stage.Stopped }
        requires job { IsReady P.meaning self.old.job }
        requires numbers { HasNumbers out.old }
        ensures over { GoesOver (region_task P.meaning P.Result.key_errors_in P.Result.region_error_in P.IsPart P.load P.AreCut P.most) (GoesOnAt P.meaning P.Result.key_errors_in P.Result.region_error_in self.old out.old) self.old self.new out.old out.new (step_turn result) }
        ensures costs { CostsOver (region_task P.meaning P.Result.key_errors_in P.Result.region_error_in P.IsPart P.load P.AreCut P.most) (λ n. owed P.meaning P.most self.old.job n) false self.old self.new out.old out.new (step_turn result) }
        ensures keeps { Keeps (region_task P.meaning P.Result.key_errors_in P.Result.region_error_in P.IsPart P.load P.AreCut P.most) (λ t. P.load t.job) P.AreCut (IsTaskOf P.meaning P.IsPart P.most) (λ t. stage_runs t.stage) self.old self.new (step_turn result) }
        ensures changed { C.looked pd.old pd.new }
        ensures off { stage_runs self.new.stage ≡ false }
        ensures ready { TaskReady P.meaning self.new }
        ensures numbers { HasNumbers out.new }
    {
        let job = self.job.try_clone()?;
        let mut cutting = Cutting::new(self.alloc, job);
        match cutting.start(pd, now, out)? {
            Progress::Waiting => {
                self.stage = Stage::Cutting(cutting);
                Ok(None)
            }
            Progress::Done(answer) => self.take_parts(answer),
        }
    }

    /// The look-ups have ended.
    fn take_parts(&mut self, answer: Result<Vec<Part<P>>>) -> Turn<P>
        requires stopped { self.old.stage ≡ Stage.Stopped }
        requires job { IsReady P.meaning self.old.job }
        requires parts { IfParts P.meaning P.IsPart P.load P.AreCut P.most self.old.job answer }
        ensures over { (o : Posted) → GoesOver (region_task P.meaning P.Result.key_errors_in P.Result.region_error_in P.IsPart P.load P.AreCut P.most) (λ h. GoesOnAt P.meaning P.Result.key_errors_in P.Result.region_error_in self.old o h × UnfoundIfErr h answer) self.old self.new o o (step_turn result) }
        ensures costs { (o : Posted) → CostsOver (region_task P.meaning P.Result.key_errors_in P.Result.region_error_in P.IsPart P.load P.AreCut P.most) (λ n. owed P.meaning P.most self.old.job n) false self.old self.new o o (step_turn result) }
        ensures keeps { Keeps (region_task P.meaning P.Result.key_errors_in P.Result.region_error_in P.IsPart P.load P.AreCut P.most) (λ t. P.load t.job) P.AreCut (IsTaskOf P.meaning P.IsPart P.most) (λ t. stage_runs t.stage) self.old self.new (step_turn result) }
        ensures off { stage_runs self.new.stage ≡ false }
        ensures ready { TaskReady P.meaning self.new }
    {
        match answer {
            Ok(parts) => self.give_parts(parts),
            Err(error) => self.end(Err(error)),
        }
    }

    /// Tasks for the parts stand in its place.
    fn give_parts(&mut self, parts: Vec<Part<P>>) -> Turn<P>
        requires stopped { self.old.stage ≡ Stage.Stopped }
        requires job { IsReady P.meaning self.old.job }
        requires parts { ArePartsOf P.meaning P.IsPart P.load P.AreCut P.most self.old.job parts.items }
        ensures over { (o : Posted) → GoesOver (region_task P.meaning P.Result.key_errors_in P.Result.region_error_in P.IsPart P.load P.AreCut P.most) (GoesOnAt P.meaning P.Result.key_errors_in P.Result.region_error_in self.old o) self.old self.new o o (step_turn result) }
        ensures costs { (o : Posted) → CostsOver (region_task P.meaning P.Result.key_errors_in P.Result.region_error_in P.IsPart P.load P.AreCut P.most) (λ n. owed P.meaning P.most self.old.job n) false self.old self.new o o (step_turn result) }
        ensures keeps { Keeps (region_task P.meaning P.Result.key_errors_in P.Result.region_error_in P.IsPart P.load P.AreCut P.most) (λ t. P.load t.job) P.AreCut (IsTaskOf P.meaning P.IsPart P.most) (λ t. stage_runs t.stage) self.old self.new (step_turn result) }
        ensures off { stage_runs self.new.stage ≡ false }
        ensures ready { TaskReady P.meaning self.new }
    {
        self.width = self.width.max(parts.len());
        let tasks = tasks_of(self.alloc, parts, self.backoff, self.before)?;
        self.stage = Stage::Cut;
        Ok(Some(Step::Parts(tasks)))
    }

    fn end(&mut self, answer: Result<Result<P::Result>>) -> Turn<P>
        ensures over { (o : Posted) → GoesOver (region_task P.meaning P.Result.key_errors_in P.Result.region_error_in P.IsPart P.load P.AreCut P.most) (λ h. IsOutcome P.meaning P.Result.key_errors_in P.Result.region_error_in (limit_of self.old) self.old.region self.old.job h answer) self.old self.new o o (step_turn result) }
        ensures costs { (o : Posted) (before : ℕ → ℕ) (failed : Bool) → CostsOver (region_task P.meaning P.Result.key_errors_in P.Result.region_error_in P.IsPart P.load P.AreCut P.most) before failed self.old self.new o o (step_turn result) }
        ensures ends { IfEnds (step_turn result) IsEnd }
        ensures keeps { Keeps (region_task P.meaning P.Result.key_errors_in P.Result.region_error_in P.IsPart P.load P.AreCut P.most) (λ t. P.load t.job) P.AreCut (IsTaskOf P.meaning P.IsPart P.most) (λ t. stage_runs t.stage) self.old self.new (step_turn result) }
        ensures state { self.new ≡ record self.old { stage = Stage.Over } }
    {
        self.stage = Stage::Over;
        Ok(Some(Step::End(answer)))
    }
}

/// A task for each part, with this backoff, of which the whole plan found so many attempts used up.
pub fn tasks_of<P: RegionPlan>(
    alloc: Global,
    parts: Vec<Part<P>>,
    backoff: Backoff,
    before: u32,
) -> std::result::Result<Vec<RegionTask<P>>, NoMemory>
where
    P::Result: HasKeyErrors + HasRegionError,
    ensures { IfOk result (λ tasks. tasks.items ≡ map (task_for alloc backoff before) parts.items) }
{
    let mut tasks = Vec::with_capacity(alloc, parts.len())?;
    for part in parts {
        tasks.push(RegionTask::new(alloc, part, backoff, before))?;
    }
    Ok(tasks)
}

/// The most parts that one of these gave, where so many were given before.
pub fn most_parts<P: ShardPlan>(before: usize, tasks: &[RegionTask<P>]) -> usize
    ensures { result ≡ max before (greatest (λ task. task.width) tasks.now) }
{
    let mut most = before;
    for task in tasks {
        most = most.max(task.width);
    }
    most
}

/// Tells the client what a failure says of the region.
fn change<C: PdClient>(
    pd: &mut C,
    region: &RegionVerId,
    change: CacheChange,
) -> std::result::Result<(), NoMemory>
    ensures { OnOk result (IsChanged C.drops C.leads region.now change pd.old pd.new) }
{
    match change {
        CacheChange::Keep => Ok(()),
        CacheChange::Invalidate => {
            pd.invalidate_region_cache(region);
            Ok(())
        }
        CacheChange::UpdateLeader(leader) => match pd.update_leader(region, leader) {
            Ok(()) => Ok(()),
            Err(_) => Err(NoMemory),
        },
    }
}

impl<P: RegionPlan> Task for RegionTask<P>
where
    P::Result: HasKeyErrors + HasRegionError,
{
    type Answer = P::Result;

    ghost meaning = { region_task P.meaning P.Result.key_errors_in P.Result.region_error_in P.IsPart P.load P.AreCut P.most };

    ghost touches = { λ touch told from old new pd pd'. TaskTouches P.meaning P.Result.key_errors_in P.Result.region_error_in touch (P.touches touch) told from old new pd pd' };

    ghost Load = { P.Load };

    ghost load = { λ t. P.load t.job };

    ghost AreCut = { P.AreCut };

    ghost Whole = { Limited P };

    ghost IsOf = { IsTaskOf P.meaning P.IsPart P.most };

    ghost cost = { λ whole n. shared P.meaning P.most whole.plan n };

    ghost runs = { λ t. stage_runs t.stage };

    fn is_running(&self) -> bool {
        matches!(self.stage, Stage::Running(_))
    }

    fn start<C: PdClient>(&mut self, pd: &mut C, now: u64, out: &mut Outbox) -> Turn<P> {
        match mem::replace(&mut self.stage, Stage::Stopped) {
            Stage::Fresh => self.run(pd, now, out),
            stage => self.stay(stage),
        }
    }

    fn tell<C: PdClient>(
        &mut self,
        pd: &mut C,
        now: u64,
        arrival: Arrival,
        out: &mut Outbox,
    ) -> Turn<P> {
        match mem::replace(&mut self.stage, Stage::Stopped) {
            Stage::Running(plan) => self.tell_plan(plan, pd, now, arrival, out),
            Stage::Sleeping(number) => self.tell_sleeping(number, pd, now, arrival, out),
            Stage::Cutting(cutting) => self.tell_cutting(cutting, pd, now, arrival, out),
            stage => {
                drop(arrival);
                self.stay(stage)
            }
        }
    }

    ghost lawful = { region_task-lawful P.meaning P.Result.key_errors_in P.Result.region_error_in P.IsPart P.load P.AreCut P.most P.lawful };

    ghost runs_running = { λ task runs. runs_running task.stage runs };

    ghost costs = { λ task whole n is. is.less n };

    ghost cut_whole = { P.cut_whole };

    ghost cut_again = { P.cut_again };
}
