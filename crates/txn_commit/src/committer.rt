ghost use Rattle.std.specs.Prelude.{◌≡◌, ◌≢◌, ◌<◌, ◌^◌, ◌∷◌, [], IfOk, List, None, Ok, false, true};
ghost use Rattle.txn_history.specs.Event.{Event};
ghost use Rattle.txn_history.specs.Meaning.{started, Counts};
ghost use Rattle.txn_history.specs.Moves.{Knows, Moves};
ghost use Rattle.txn_history.specs.Phase.Phase.{Fresh as Unbegun, GivenUp, Running};
ghost use Rattle.txn_history.specs.Posted.{HasNumbers, Posted};
ghost use Rattle.txn_history.specs.Turn.{turn_of, IfEnds, IfKept};
ghost use Rattle.txn_history.specs.Turn.Turn.{Ends, Stopped as Stops, Waits};
ghost use Rattle.txn_kv.specs.Timestamp.{HasVersion, version_of};
ghost use Rattle.txn_kv.specs.declared.request.Request.{Request as Asked};
ghost use Rattle.txn_kv.specs.declared.request.Request.TheVariants.{BatchRollback};
ghost use Rattle.txn_request.specs.Defaults.{default_batch_rollback};
ghost use Rattle.txn_commit.specs.Committing.{CommitterFits, CommitterGives, CommitterGoesOn, CommitterMoves, IsAllPrewritten, IsFirst, IsInRange, IsRolled, IsWritten, MayCommit, SendsCommits, StageReady, TimeSays, whole_of};
ghost use Rattle.txn_commit.specs.Counting.{Begins, CommitterCounts, ask_costs, call_width, commit_again_costs, commit_costs, others_costs, rollback_costs, stage_width};
ghost use Rattle.txn_commit.specs.Following.{Commits, IsFollowed, awaits, heard, undetermined};
ghost use Rattle.txn_commit.specs.Going.{CommitterExpects, CommitterGoes, Opens, Relays, Resumes, Settles, may_commit, stage_phase, stage_waits};
ghost use Rattle.txn_commit.specs.Plans.{AreCommitted, AreRolledBack, IsPlanFor, PrewritesOnly};
ghost use Rattle.txn_commit.specs.Sending.{MaySend, plan_of};
ghost use Rattle.txn_plan.specs.Timing.{HasVersionIfDone};
ghost use Rattle.txn_commit.specs.declared.committer.Stage.TheVariants as stages;
ghost use Rattle.txn_history.specs.Arrivals.{MayArrive, awaited_as, locked_told, tells_error, tells_failure, told_by, weight_told};

use crate::commit_parts::CommitParts;
use crate::fetched::Fetched;
use crate::plans::Plans;
use crate::primary_commits::{PrimaryCommits, count_posted};
use std::alloc::Global;
use txn_kv::{Arrival, Items, Key, NoMemory, Outbox, Progress, Timestamp};
use txn_merge::RetryOptions;
use txn_plan::TimestampCall;
use txn_region::PdClient;
use txn_request::lowering::{new_batch_rollback_request, new_commit_request, new_prewrite_request};

/// What a commit or a rollback came to.
#[derive(Clone, Copy, Debug, PartialEq, Eq)]
pub enum CommitterAnswer {
    /// The primary was committed, at this timestamp.
    Committed(Timestamp),
    /// All was checked, and nothing is to be committed.
    Checked,
    RolledBack,
}

type Turn = Result<Progress<CommitterAnswer>, NoMemory>;

/// What a commit or a rollback waits for.
enum Stage<P> {
    Prewriting(P),
    Asking(TimestampCall),
    Committing { plan: P, timestamp: Timestamp },
    RollingBackPrimary(P),
    RollingBackOthers(P),
    Over,
    /// It gave up for want of memory.
    Stopped,
}

impl<P: Drop> Drop for Stage<P> {
    fn drop(self) {
        match self {
            Stage::Prewriting(inner) => drop(inner),
            Stage::Asking(inner) => drop(inner),
            Stage::Committing { plan, timestamp: _ } => drop(plan),
            Stage::RollingBackPrimary(inner) => drop(inner),
            Stage::RollingBackOthers(inner) => drop(inner),
            Stage::Over => {}
            Stage::Stopped => {}
        }
    }
}

/// A commit or a rollback that is under way.
pub struct CommitterCall<P> {
    start: Timestamp,
    parts: CommitParts,
    retry_options: RetryOptions,
    stage: Stage<P>,
    /// The most parts that a request of a plan was cut into that is let go.
    width: u64,
    alloc: Global,
}

impl<P: Drop> Drop for CommitterCall<P> {
    fn drop(self) {
        let CommitterCall {
            start: _,
            parts,
            retry_options,
            stage,
            width: _,
            alloc: _,
        } = self;
        drop(parts);
        drop(retry_options);
        drop(stage);
    }
}

impl<P> Stage<P>
where
    P: Plans,
{
    /// The most parts that a request of its plan was cut into.
    fn width(&self) -> u64
        ensures { result ≡ stage_width P.ways self.now }
    {
        match self {
            Stage::Prewriting(plan) => plan.width(),
            Stage::Asking(_) => 0,
            Stage::Committing { plan, .. } => plan.width(),
            Stage::RollingBackPrimary(plan) => plan.width(),
            Stage::RollingBackOthers(plan) => plan.width(),
            Stage::Over => 0,
            Stage::Stopped => 0,
        }
    }
}

impl<P> CommitterCall<P>
where
    P: Plans,
{
    /// A commit or a rollback that is not begun.
    pub fn new(
        alloc: Global,
        start: Timestamp,
        parts: CommitParts,
        retry_options: RetryOptions,
    ) -> Self
        ensures start { result.start ≡ start }
        ensures parts { result.parts ≡ parts }
        ensures options { result.retry_options ≡ retry_options }
        ensures stage { result.stage ≡ stages.Over }
        ensures width { result.width ≡ 0 }
    {
        CommitterCall {
            start,
            parts,
            retry_options,
            stage: Stage::Over,
            width: 0,
            alloc,
        }
    }

    /// The most parts that a request of a plan of it was cut into so far.
    pub fn width(&self) -> u64
        ensures { result ≡ call_width P.ways self.now }
    {
        self.width.max(self.stage.width())
    }

    /// The keys that are left to commit once the primary is.
    pub fn into_secondaries(self) -> Items<Key>
        ensures { result ≡ self.parts.secondaries }
    {
        let CommitterCall {
            start: _,
            parts,
            retry_options: _,
            stage,
            width: _,
            alloc: _,
        } = self;
        drop(stage);
        parts.into_secondaries()
    }

    /// Begins to commit: prewrites all, under locks that live so long. Until all is prewritten each Prewrite is a part of the one for all.
    pub fn prewrite<C: PdClient>(
        &mut self,
        pd: &mut C,
        now: u64,
        ttl: u64,
        out: &mut Outbox,
    ) -> Turn
        requires start { HasVersion self.old.start }
        requires numbers { HasNumbers out.old }
        requires clock { now < 2 ^ 44 }
        ensures moves { (c : Commits) → CommitterMoves P.ways (IsFirst (version_of self.old.start) c) (λ h. h) self.old self.new c c out.old out.new (turn_of result) }
        ensures counts { Begins P.ways P.ways.costs (commit_costs P.ways.costs self.old.parts) self.old self.new out.old out.new (turn_of result) }
        ensures opens { Opens P.ways self.new out.old out.new (turn_of result) }
        ensures version { IfEnds (turn_of result) IsInRange }
        ensures job { self.new ≡ record self.old { stage = self.new.stage; width = self.new.width } }
        ensures parts { (p : P) → self.new.stage ≡ stages.Prewriting p → PrewritesOnly P.ways.plan (whole_of self.old.parts (version_of self.old.start) ttl) p }
        ensures ready { StageReady P.ways self.new.stage }
        ensures numbers { HasNumbers out.new }
    {
        self.go(Stage::Stopped);
        let request = new_prewrite_request(
            self.alloc,
            self.parts.mutations.try_clone()?,
            self.parts.primary.try_clone()?,
            self.start,
            ttl,
        );
        let mut plan = P::prewrite(self.alloc, pd, request, self.retry_options.clone()?)?;
        let turn = plan.start(pd, now, out);
        self.go(Stage::Prewriting(plan));
        self.after_prewrite(turn?, pd, now, out)
    }

    /// Begins to commit where a Commit of the primary was sent before: sends it again, at its timestamp.
    pub fn commit_again<C: PdClient>(
        &mut self,
        commits: &mut PrimaryCommits,
        timestamp: Timestamp,
        pd: &mut C,
        now: u64,
        out: &mut Outbox,
    ) -> Turn
        requires start { HasVersion self.old.start }
        requires timestamp { HasVersion timestamp }
        requires numbers { HasNumbers out.old }
        requires clock { now < 2 ^ 44 }
        ensures moves { CommitterMoves P.ways (MayCommit (plan_of self.old.parts) (version_of self.old.start) timestamp commits.old) (λ h. h) self.old self.new commits.old commits.new out.old out.new (turn_of result) }
        ensures counts { Begins P.ways P.ways.costs (commit_again_costs P.ways.costs) self.old self.new out.old out.new (turn_of result) }
        ensures opens { Opens P.ways self.new out.old out.new (turn_of result) }
        ensures follows { IfKept (turn_of result) (IsFollowed out.old commits.old commits.new) }
        ensures version { IfEnds (turn_of result) IsInRange }
        ensures job { self.new ≡ record self.old { stage = self.new.stage; width = self.new.width } }
        ensures ready { StageReady P.ways self.new.stage }
        ensures numbers { HasNumbers out.new }
    {
        self.commit_primary(commits, timestamp, pd, now, out)
    }

    /// Begins to roll back.
    pub fn roll_back<C: PdClient>(&mut self, pd: &mut C, now: u64, out: &mut Outbox) -> Turn
        requires start { HasVersion self.old.start }
        requires numbers { HasNumbers out.old }
        requires clock { now < 2 ^ 44 }
        ensures moves { (c : Commits) → CommitterMoves P.ways (λ h. undetermined c ≡ None) (λ h. h) self.old self.new c c out.old out.new (turn_of result) }
        ensures counts { Begins P.ways P.ways.costs (rollback_costs P.ways.costs self.old.parts) self.old self.new out.old out.new (turn_of result) }
        ensures opens { Opens P.ways self.new out.old out.new (turn_of result) }
        ensures back { may_commit self.new.stage ≡ false }
        ensures version { IfEnds (turn_of result) IsInRange }
        ensures job { self.new ≡ record self.old { stage = self.new.stage; width = self.new.width } }
        ensures ready { StageReady P.ways self.new.stage }
        ensures numbers { HasNumbers out.new }
    {
        self.go(Stage::Stopped);
        let keys = self.primary_alone()?;
        let mut plan = self.rollback_plan(pd, keys)?;
        let turn = plan.start(pd, now, out);
        self.go(Stage::RollingBackPrimary(plan));
        self.after_primary_rollback(turn?, pd, now, out)
    }

    /// It is told of something.
    pub fn tell<C: PdClient>(
        &mut self,
        commits: &mut PrimaryCommits,
        arrival: Arrival,
        pd: &mut C,
        now: u64,
        out: &mut Outbox,
    ) -> Turn
        requires start { HasVersion self.old.start }
        requires ready { StageReady P.ways self.old.stage }
        requires arrives { MayArrive arrival }
        requires numbers { HasNumbers out.old }
        requires clock { now < 2 ^ 44 }
        ensures moves { (r : Asked) → CommitterMoves P.ways (told_by arrival out.old r).known (told_by arrival out.old r).hear self.old self.new commits.old commits.new out.old out.new (turn_of result) }
        ensures counts { CommitterCounts P.ways P.ways.costs (tells_error arrival) (tells_failure arrival) (weight_told arrival) (locked_told arrival) self.old self.new out.old out.new (turn_of result) }
        ensures goes { CommitterGoes P.ways (stage_waits P.ways self.old.stage (awaited_as arrival)) self.old self.new out.old out.new pd.old pd.new (turn_of result) }
        ensures expects { CommitterExpects P.ways (λ a. a ≡ awaited_as arrival) self.old self.new out.old out.new }
        ensures commits { (stage_waits P.ways self.old.stage (awaited_as arrival) → ⊥) → awaits arrival out.old commits.old ≡ false → commits.new ≡ commits.old }
        ensures follows { (h : List Event) → stage_phase P.ways self.old.stage ≡ Running → CommitterFits P.ways self.old commits.old out.old h → IfKept (turn_of result) (IsFollowed out.old (heard arrival out.old commits.old) commits.new) }
        ensures back { may_commit self.old.stage ≡ false → (commits.new ≡ commits.old) × (may_commit self.new.stage ≡ false) }
        ensures version { IfEnds (turn_of result) IsInRange }
        ensures job { self.new ≡ record self.old { stage = self.new.stage; width = self.new.width } }
        ensures ready { StageReady P.ways self.new.stage }
        ensures numbers { HasNumbers out.new }
    {
        match &mut self.stage {
            Stage::Prewriting(plan) => {
                let progress = plan.tell(pd, now, arrival, out)?;
                self.after_prewrite(progress, pd, now, out)
            }
            Stage::Asking(call) => match call.tell(arrival, pd, now, out) {
                Ok(progress) => self.after_time(progress, commits, pd, now, out),
                Err(_) => self.give_up(),
            },
            Stage::Committing { plan, timestamp } => {
                let timestamp = *timestamp;
                match tell_commit(commits, plan, timestamp, arrival, pd, now, out) {
                    Ok(progress) => self.after_commit(progress, timestamp),
                    Err(_) => self.give_up(),
                }
            }
            Stage::RollingBackPrimary(plan) => {
                let progress = plan.tell(pd, now, arrival, out)?;
                self.after_primary_rollback(progress, pd, now, out)
            }
            Stage::RollingBackOthers(plan) => {
                let progress = plan.tell(pd, now, arrival, out)?;
                self.after_rollback(progress)
            }
            Stage::Over => {
                drop(arrival);
                Ok(Progress::Waiting)
            }
            Stage::Stopped => {
                drop(arrival);
                Err(NoMemory)
            }
        }
    }

    fn after_prewrite<C: PdClient>(
        &mut self,
        progress: Progress<Fetched>,
        pd: &mut C,
        now: u64,
        out: &mut Outbox,
    ) -> Turn
        requires numbers { HasNumbers out.old }
        requires ready { StageReady P.ways self.old.stage }
        ensures moves { (c : Commits) (p : P) → self.old.stage ≡ stages.Prewriting p → CommitterGoesOn P.ways (P.ways.unwritten self.old.retry_options) (IsAllPrewritten (version_of self.old.start) self.old.parts) self.old self.new c c out.old out.new (turn_of (Ok progress)) (turn_of result) }
        ensures counts { (p : P) → self.old.stage ≡ stages.Prewriting p → CommitterCounts P.ways P.ways.costs false false 0 0 self.old self.new out.old out.new (turn_of result) }
        ensures resumes { Resumes P.ways (turn_of (Ok progress)) self.old self.new out.old out.new pd.old pd.new (turn_of result) }
        ensures version { IfEnds (turn_of result) IsInRange }
        ensures job { self.new ≡ record self.old { stage = self.new.stage; width = self.new.width } }
        ensures stays { (p : P) → self.new.stage ≡ stages.Prewriting p → self.old.stage ≡ stages.Prewriting p }
        ensures ready { StageReady P.ways self.new.stage }
        ensures numbers { HasNumbers out.new }
    {
        match progress {
            Progress::Waiting => Ok(Progress::Waiting),
            Progress::Done(Ok(_)) => self.ask(pd, now, out),
            Progress::Done(Err(error)) => self.end(Err(error)),
        }
    }

    /// All was prewritten. Asks for the timestamp of the commit, where there is anything to commit.
    fn ask<C: PdClient>(&mut self, pd: &mut C, now: u64, out: &mut Outbox) -> Turn
        requires numbers { HasNumbers out.old }
        ensures moves { (c : Commits) → CommitterMoves P.ways (IsWritten (version_of self.old.start) self.old.parts c) (λ h. h) self.old self.new c c out.old out.new (turn_of result) }
        ensures counts { Begins P.ways P.ways.costs (ask_costs P.ways.costs) self.old self.new out.old out.new (turn_of result) }
        ensures opens { Opens P.ways self.new out.old out.new (turn_of result) }
        ensures version { IfEnds (turn_of result) IsInRange }
        ensures job { self.new ≡ record self.old { stage = self.new.stage; width = self.new.width } }
        ensures on { (p : P) → self.new.stage ≡ stages.Prewriting p → ⊥ }
        ensures ready { StageReady P.ways self.new.stage }
        ensures numbers { HasNumbers out.new }
    {
        if !self.parts.locks {
            return self.end(Ok(CommitterAnswer::Checked));
        }
        self.go(Stage::Stopped);
        let call = TimestampCall::begin(pd, now, out)?;
        self.go(Stage::Asking(call));
        Ok(Progress::Waiting)
    }

    fn after_time<C: PdClient>(
        &mut self,
        progress: Progress<Timestamp>,
        commits: &mut PrimaryCommits,
        pd: &mut C,
        now: u64,
        out: &mut Outbox,
    ) -> Turn
        requires start { HasVersion self.old.start }
        requires timestamp { HasVersionIfDone progress }
        requires numbers { HasNumbers out.old }
        requires clock { now < 2 ^ 44 }
        requires ready { StageReady P.ways self.old.stage }
        ensures moves { (t : TimestampCall) → self.old.stage ≡ stages.Asking t → Moves (MaySend (plan_of self.old.parts) (version_of self.old.start)) (Knows (turn_of (Ok progress)) (CommitterFits P.ways self.old commits.old out.old) (TimeSays (plan_of self.old.parts) (version_of self.old.start))) (CommitterFits P.ways self.new commits.new out.new) (CommitterGives P.ways self.old.retry_options (version_of self.old.start) self.old.parts) (λ h. h) out.old out.new (turn_of result) }
        ensures counts { (t : TimestampCall) → self.old.stage ≡ stages.Asking t → CommitterCounts P.ways P.ways.costs false false 0 0 self.old self.new out.old out.new (turn_of result) }
        ensures resumes { Resumes P.ways (turn_of (Ok progress)) self.old self.new out.old out.new pd.old pd.new (turn_of result) }
        ensures commits { turn_of (Ok progress) ≡ Waits → commits.new ≡ commits.old }
        ensures follows { IfKept (turn_of result) (IsFollowed out.old commits.old commits.new) }
        ensures version { IfEnds (turn_of result) IsInRange }
        ensures job { self.new ≡ record self.old { stage = self.new.stage; width = self.new.width } }
        ensures ready { StageReady P.ways self.new.stage }
        ensures numbers { HasNumbers out.new }
    {
        match progress {
            Progress::Waiting => Ok(Progress::Waiting),
            Progress::Done(Ok(time)) => self.commit_primary(commits, time, pd, now, out),
            Progress::Done(Err(error)) => self.end(Err(error)),
        }
    }

    fn commit_primary<C: PdClient>(
        &mut self,
        commits: &mut PrimaryCommits,
        timestamp: Timestamp,
        pd: &mut C,
        now: u64,
        out: &mut Outbox,
    ) -> Turn
        requires start { HasVersion self.old.start }
        requires timestamp { HasVersion timestamp }
        requires numbers { HasNumbers out.old }
        requires clock { now < 2 ^ 44 }
        ensures moves { CommitterMoves P.ways (MayCommit (plan_of self.old.parts) (version_of self.old.start) timestamp commits.old) (λ h. h) self.old self.new commits.old commits.new out.old out.new (turn_of result) }
        ensures counts { Begins P.ways P.ways.costs (commit_again_costs P.ways.costs) self.old self.new out.old out.new (turn_of result) }
        ensures opens { Opens P.ways self.new out.old out.new (turn_of result) }
        ensures follows { IfKept (turn_of result) (IsFollowed out.old commits.old commits.new) }
        ensures version { IfEnds (turn_of result) IsInRange }
        ensures job { self.new ≡ record self.old { stage = self.new.stage; width = self.new.width } }
        ensures ready { StageReady P.ways self.new.stage }
        ensures numbers { HasNumbers out.new }
    {
        self.go(Stage::Stopped);
        let request = new_commit_request(self.primary_alone()?, self.start, timestamp);
        let mut plan = P::commit(self.alloc, pd, request, self.retry_options.clone()?)?;
        let turn = start_commit(commits, &mut plan, timestamp, pd, now, out);
        self.go(Stage::Committing { plan, timestamp });
        match turn {
            Ok(progress) => self.after_commit(progress, timestamp),
            Err(_) => self.give_up(),
        }
    }

    fn after_commit(&mut self, progress: Progress<Fetched>, timestamp: Timestamp) -> Turn
        requires timestamp { HasVersion timestamp }
        requires ready { StageReady P.ways self.old.stage }
        ensures moves { (c : Commits) (o : Posted) (q : P) → self.old.stage ≡ stages.Committing q timestamp → CommitterGoesOn P.ways (P.ways.uncommitted self.old.retry_options) (AreCommitted (version_of self.old.start) (version_of timestamp) (self.old.parts.primary ∷ [])) self.old self.new c c o o (turn_of (Ok progress)) (turn_of result) }
        ensures counts { (o : Posted) → CommitterCounts P.ways P.ways.costs false false 0 0 self.old self.new o o (turn_of result) }
        ensures settles { Settles (turn_of (Ok progress)) self.old self.new (turn_of result) }
        ensures version { IfEnds (turn_of result) IsInRange }
        ensures job { self.new ≡ record self.old { stage = self.new.stage; width = self.new.width } }
        ensures ready { StageReady P.ways self.new.stage }
    {
        match progress {
            Progress::Waiting => Ok(Progress::Waiting),
            Progress::Done(Ok(_)) => self.end(Ok(CommitterAnswer::Committed(timestamp))),
            Progress::Done(Err(error)) => self.end(Err(error)),
        }
    }

    fn after_primary_rollback<C: PdClient>(
        &mut self,
        progress: Progress<Fetched>,
        pd: &mut C,
        now: u64,
        out: &mut Outbox,
    ) -> Turn
        requires start { HasVersion self.old.start }
        requires numbers { HasNumbers out.old }
        requires clock { now < 2 ^ 44 }
        requires ready { StageReady P.ways self.old.stage }
        ensures moves { (c : Commits) (k : P) → self.old.stage ≡ stages.RollingBackPrimary k → CommitterGoesOn P.ways (P.ways.unrolled self.old.retry_options) (AreRolledBack (version_of self.old.start) (self.old.parts.primary ∷ [])) self.old self.new c c out.old out.new (turn_of (Ok progress)) (turn_of result) }
        ensures counts { (k : P) → self.old.stage ≡ stages.RollingBackPrimary k → CommitterCounts P.ways P.ways.costs false false 0 0 self.old self.new out.old out.new (turn_of result) }
        ensures resumes { Resumes P.ways (turn_of (Ok progress)) self.old self.new out.old out.new pd.old pd.new (turn_of result) }
        ensures back { may_commit self.old.stage ≡ false → may_commit self.new.stage ≡ false }
        ensures version { IfEnds (turn_of result) IsInRange }
        ensures job { self.new ≡ record self.old { stage = self.new.stage; width = self.new.width } }
        ensures ready { StageReady P.ways self.new.stage }
        ensures numbers { HasNumbers out.new }
    {
        match progress {
            Progress::Waiting => Ok(Progress::Waiting),
            Progress::Done(Ok(_)) => self.roll_back_others(pd, now, out),
            Progress::Done(Err(error)) => self.end(Err(error)),
        }
    }

    fn roll_back_others<C: PdClient>(&mut self, pd: &mut C, now: u64, out: &mut Outbox) -> Turn
        requires start { HasVersion self.old.start }
        requires numbers { HasNumbers out.old }
        requires clock { now < 2 ^ 44 }
        ensures moves { (c : Commits) → CommitterMoves P.ways (IsRolled (version_of self.old.start) self.old.parts c) (λ h. h) self.old self.new c c out.old out.new (turn_of result) }
        ensures counts { Begins P.ways P.ways.costs (others_costs P.ways.costs self.old.parts) self.old self.new out.old out.new (turn_of result) }
        ensures opens { Opens P.ways self.new out.old out.new (turn_of result) }
        ensures back { may_commit self.new.stage ≡ false }
        ensures version { IfEnds (turn_of result) IsInRange }
        ensures job { self.new ≡ record self.old { stage = self.new.stage; width = self.new.width } }
        ensures ready { StageReady P.ways self.new.stage }
        ensures numbers { HasNumbers out.new }
    {
        if self.parts.secondaries.as_slice().is_empty() {
            return self.end(Ok(CommitterAnswer::RolledBack));
        }
        self.go(Stage::Stopped);
        let keys = self.parts.secondaries.try_clone()?;
        let mut plan = self.rollback_plan(pd, keys)?;
        let turn = plan.start(pd, now, out);
        self.go(Stage::RollingBackOthers(plan));
        self.after_rollback(turn?)
    }

    fn after_rollback(&mut self, progress: Progress<Fetched>) -> Turn
        requires ready { StageReady P.ways self.old.stage }
        ensures moves { (c : Commits) (o : Posted) (k : P) → self.old.stage ≡ stages.RollingBackOthers k → CommitterGoesOn P.ways (P.ways.unrolled self.old.retry_options) (AreRolledBack (version_of self.old.start) self.old.parts.secondaries) self.old self.new c c o o (turn_of (Ok progress)) (turn_of result) }
        ensures counts { (o : Posted) → CommitterCounts P.ways P.ways.costs false false 0 0 self.old self.new o o (turn_of result) }
        ensures settles { Settles (turn_of (Ok progress)) self.old self.new (turn_of result) }
        ensures back { may_commit self.old.stage ≡ false → may_commit self.new.stage ≡ false }
        ensures version { IfEnds (turn_of result) IsInRange }
        ensures job { self.new ≡ record self.old { stage = self.new.stage; width = self.new.width } }
        ensures ready { StageReady P.ways self.new.stage }
    {
        match progress {
            Progress::Waiting => Ok(Progress::Waiting),
            Progress::Done(Ok(_)) => self.end(Ok(CommitterAnswer::RolledBack)),
            Progress::Done(Err(error)) => self.end(Err(error)),
        }
    }

    /// Goes to a stage, and lets the plan go that was under way.
    fn go(&mut self, stage: Stage<P>)
        ensures state { self.new ≡ record self.old { stage = stage; width = self.new.width } }
        ensures width { self.new.width ≡ call_width P.ways self.old }
    {
        self.width = self.width();
        self.stage = stage;
    }

    fn end(&mut self, answer: txn_kv::Result<CommitterAnswer>) -> Turn
        ensures state { self.new ≡ record self.old { stage = stages.Over; width = self.new.width } }
        ensures width { self.new.width ≡ call_width P.ways self.old }
        ensures turn { turn_of result ≡ Ends answer }
    {
        self.go(Stage::Over);
        Ok(Progress::Done(answer))
    }

    /// Memory is wanting.
    fn give_up(&mut self) -> Turn
        ensures state { self.new ≡ record self.old { stage = stages.Stopped; width = self.new.width } }
        ensures width { self.new.width ≡ call_width P.ways self.old }
        ensures turn { turn_of result ≡ Stops }
    {
        self.go(Stage::Stopped);
        Err(NoMemory)
    }

    fn primary_alone(&self) -> Result<Items<Key>, NoMemory>
        ensures { IfOk result (λ keys. keys ≡ self.now.parts.primary ∷ []) }
    {
        let mut keys = Items::new(self.alloc);
        keys.push(self.parts.primary.try_clone()?)?;
        Ok(keys)
    }

    fn rollback_plan<C: PdClient>(&self, pd: &C, keys: Items<Key>) -> Result<P, NoMemory>
        requires { HasVersion self.now.start }
        ensures { IfOk result (IsPlanFor P.ways.plan (P.ways.unrolled self.now.retry_options) P.ways.costs.rollbacks (BatchRollback (record default_batch_rollback { keys = keys; start_version = version_of self.now.start }))) }
    {
        let request = new_batch_rollback_request(keys, self.start);
        P::roll_back(self.alloc, pd, request, self.retry_options.clone()?)
    }
}

/// Starts the plan of a Commit of the primary, and notes what it sends.
fn start_commit<P: Plans, C: PdClient>(
    commits: &mut PrimaryCommits,
    plan: &mut P,
    timestamp: Timestamp,
    pd: &mut C,
    now: u64,
    out: &mut Outbox,
) -> Result<Progress<Fetched>, NoMemory>
    requires timestamp { HasVersion timestamp }
    requires ready { P.ways.plan.ready plan.old }
    requires numbers { HasNumbers out.old }
    requires clock { now < 2 ^ 44 }
    ensures sends { SendsCommits P.ways.plan started timestamp commits.old commits.new plan.old plan.new out.old out.new (turn_of result) }
    ensures relays { Relays P.ways.plan (P.ways.plan.phase plan.old ≡ Unbegun) plan.old plan.new out.old out.new pd.old pd.new (turn_of result) }
    ensures counts { Counts P.ways.plan false false 0 0 plan.old plan.new out.old out.new (turn_of result) }
    ensures ready { P.ways.plan.ready plan.new }
    ensures numbers { HasNumbers out.new }
{
    let had = count_posted(out);
    let progress = plan.start(pd, now, out)?;
    commits.send(out, had, timestamp)?;
    Ok(progress)
}

/// Tells the plan of a Commit of the primary, and notes what became of what it sent, and what it sends.
fn tell_commit<P: Plans, C: PdClient>(
    commits: &mut PrimaryCommits,
    plan: &mut P,
    timestamp: Timestamp,
    arrival: Arrival,
    pd: &mut C,
    now: u64,
    out: &mut Outbox,
) -> Result<Progress<Fetched>, NoMemory>
    requires timestamp { HasVersion timestamp }
    requires ready { P.ways.plan.ready plan.old }
    requires arrives { MayArrive arrival }
    requires numbers { HasNumbers out.old }
    requires clock { now < 2 ^ 44 }
    ensures sends { (r : Asked) → SendsCommits P.ways.plan (told_by arrival out.old r) timestamp (heard arrival out.old commits.old) commits.new plan.old plan.new out.old out.new (turn_of result) }
    ensures relays { Relays P.ways.plan (P.ways.plan.waits plan.old (awaited_as arrival)) plan.old plan.new out.old out.new pd.old pd.new (turn_of result) }
    ensures commits { (P.ways.plan.waits plan.old (awaited_as arrival) → ⊥) → P.ways.plan.phase plan.old ≢ GivenUp → commits.new ≡ heard arrival out.old commits.old }
    ensures counts { Counts P.ways.plan (tells_error arrival) (tells_failure arrival) (weight_told arrival) (locked_told arrival) plan.old plan.new out.old out.new (turn_of result) }
    ensures ready { P.ways.plan.ready plan.new }
    ensures numbers { HasNumbers out.new }
{
    commits.hear(&arrival, out);
    let had = count_posted(out);
    let progress = plan.tell(pd, now, arrival, out)?;
    commits.send(out, had, timestamp)?;
    Ok(progress)
}
