ghost use Rattle.std.specs.Prelude.{◌≡◌, ◌<◌, ◌+◌, ◌^◌, ◌++◌, ◌∷◌, [], ℕ, OnErr, OnOk, false, true};
ghost use Rattle.txn_core.specs.Status.{is_end};
ghost use Rattle.txn_heartbeat.specs.Beats.{Beats, Ended, GivesUp, GoesOn, IsAlive, SendsBeat, Sleeps, StaysAsleep, TellsBeat};
ghost use Rattle.txn_heartbeat.specs.declared.heartbeat_job.Stage.TheVariants as stages;
ghost use Rattle.txn_history.specs.Phase.Awaited.{EndOf};
ghost use Rattle.txn_history.specs.Posted.{HasNumbers};
ghost use Rattle.txn_history.specs.Turn.{IfKept, turn_of};
ghost use Rattle.txn_kv.specs.Timestamp.{HasVersion};
ghost use Rattle.txn_history.specs.Arrivals.{MayArrive, awaited_as};

use crate::plan_for_heartbeats::PlanForHeartbeats;
use std::alloc::Global;
use txn_core::{Heartbeat, Status};
use txn_kv::{Arrival, NoMemory, Outbox, Progress};
use txn_region::PdClient;
use txn_request::lowering::new_heart_beat_request;

type Turn = Result<Progress<()>, NoMemory>;

/// How far the job has come.
enum Stage<H> {
    Fresh,
    /// It sleeps under this number until the next beat.
    Sleeping { number: u64 },
    /// A beat is on its way.
    Beating { plan: H },
    Over,
    /// It gave up for want of memory.
    Stopped,
}

impl<H: Drop> Drop for Stage<H> {
    fn drop(self) {
        match self {
            Stage::Fresh => {}
            Stage::Sleeping { number: _ } => {}
            Stage::Beating { plan } => drop(plan),
            Stage::Over => {}
            Stage::Stopped => {}
        }
    }
}

/// Keeps the lock of a transaction's primary alive: it sleeps, sends a beat, and sleeps again, until the transaction has come to its
/// end or a beat fails. The transaction does not wait for it.
pub struct HeartbeatJob<H> {
    heartbeat: Heartbeat,
    stage: Stage<H>,
    alloc: Global,
}

impl<H: Drop> Drop for HeartbeatJob<H> {
    fn drop(self) {
        let HeartbeatJob {
            heartbeat,
            stage,
            alloc: _,
        } = self;
        drop(heartbeat);
        drop(stage);
    }
}

impl<H: PlanForHeartbeats> HeartbeatJob<H> {
    /// A job that is not started.
    pub fn new(alloc: Global, heartbeat: Heartbeat) -> HeartbeatJob<H>
        ensures heartbeat { result.heartbeat ≡ heartbeat }
        ensures stage { result.stage ≡ stages.Fresh }
    {
        HeartbeatJob {
            heartbeat,
            stage: Stage::Fresh,
            alloc,
        }
    }

    /// Begins: it sleeps first. One that was begun before changes nothing.
    pub fn start(&mut self, out: &mut Outbox) -> Turn
        requires alive { IsAlive H.meaning self.old out.old }
        requires numbers { HasNumbers out.old }
        ensures sleeps { self.old.stage ≡ stages.Fresh → OnOk result (Sleeps self.old self.new out.old out.new (turn_of result)) }
        ensures state { (self.old.stage ≡ stages.Fresh → ⊥) → self.new ≡ self.old }
        ensures outbox { (self.old.stage ≡ stages.Fresh → ⊥) → out.new ≡ out.old }
        ensures gives_up { GivesUp self.old self.new out.old out.new (turn_of result) }
        ensures beats { OnOk result (Beats self.old.heartbeat out.old out.new) }
        ensures kept { self.new.heartbeat ≡ self.old.heartbeat }
        ensures alive { OnOk result (IsAlive H.meaning self.new out.new) }
        ensures numbers { HasNumbers out.new }
    {
        match &self.stage {
            Stage::Fresh => self.sleep(out),
            Stage::Stopped => Err(NoMemory),
            Stage::Sleeping { .. } | Stage::Beating { .. } | Stage::Over => Ok(Progress::Waiting),
        }
    }

    /// It is told of something, as its transaction has come so far. At the end of its sleep it looks at that: it ends where the
    /// transaction has, and else sends a beat.
    pub fn tell<C: PdClient>(
        &mut self,
        arrival: Arrival,
        status: Status,
        pd: &mut C,
        now: u64,
        out: &mut Outbox,
    ) -> Turn
        requires alive { IsAlive H.meaning self.old out.old }
        requires arrives { MayArrive arrival }
        requires numbers { HasNumbers out.old }
        requires clock { now < 2 ^ 44 }
        ensures asleep { (n : ℕ) → self.old.stage ≡ stages.Sleeping n → (awaited_as arrival ≡ EndOf n → ⊥) → StaysAsleep self.old self.new out.old out.new (turn_of result) }
        ensures ends { (n : ℕ) → self.old.stage ≡ stages.Sleeping n → awaited_as arrival ≡ EndOf n → is_end status ≡ true → Ended self.new out.old out.new (turn_of result) }
        ensures wakes { (n : ℕ) → self.old.stage ≡ stages.Sleeping n → awaited_as arrival ≡ EndOf n → is_end status ≡ false → OnOk result (SendsBeat H.meaning now self.old self.new out.old out.new (turn_of result)) }
        ensures tells { (p : H) → self.old.stage ≡ stages.Beating p → OnOk result (TellsBeat H.meaning arrival p self.old self.new out.old out.new (turn_of result)) }
        ensures gives_up { GivesUp self.old self.new out.old out.new (turn_of result) }
        ensures over { self.old.stage ≡ stages.Over → StaysAsleep self.old self.new out.old out.new (turn_of result) }
        ensures beats { OnOk result (Beats self.old.heartbeat out.old out.new) }
        ensures kept { self.new.heartbeat ≡ self.old.heartbeat }
        ensures alive { OnOk result (IsAlive H.meaning self.new out.new) }
        ensures numbers { HasNumbers out.new }
    {
        match &mut self.stage {
            Stage::Sleeping { number } => {
                if !arrival.is_end_of(*number) {
                    drop(arrival);
                    return Ok(Progress::Waiting);
                }
                drop(arrival);
                if status.is_end() {
                    self.stage = Stage::Over;
                    return Ok(Progress::Done(Ok(())));
                }
                self.beat(pd, now, out)
            }
            Stage::Beating { plan } => {
                let turn = plan.tell(pd, now, arrival, out);
                self.go_on(turn, out)
            }
            Stage::Fresh | Stage::Over => {
                drop(arrival);
                Ok(Progress::Waiting)
            }
            Stage::Stopped => {
                drop(arrival);
                Err(NoMemory)
            }
        }
    }

    /// Sends a beat.
    fn beat<C: PdClient>(&mut self, pd: &mut C, now: u64, out: &mut Outbox) -> Turn
        requires start { HasVersion self.old.heartbeat.start }
        requires numbers { HasNumbers out.old }
        requires clock { now < 2 ^ 44 }
        ensures stops { OnErr result (self.new.stage ≡ stages.Stopped) }
        ensures sends { OnOk result (SendsBeat H.meaning now self.old self.new out.old out.new (turn_of result)) }
        ensures beats { OnOk result (Beats self.old.heartbeat out.old out.new) }
        ensures kept { self.new.heartbeat ≡ self.old.heartbeat }
        ensures alive { OnOk result (IsAlive H.meaning self.new out.new) }
        ensures numbers { HasNumbers out.new }
    {
        self.stage = Stage::Stopped;
        let ttl = self.heartbeat.ttl(now);
        let primary = self.heartbeat.primary.try_clone()?;
        let request = new_heart_beat_request(self.heartbeat.start, primary, ttl);
        let mut plan = H::plan_for_beat(self.alloc, pd, request, self.heartbeat.backoff)?;
        let turn = plan.start(pd, now, out);
        self.stage = Stage::Beating { plan };
        self.go_on(turn, out)
    }

    /// Sleeps where a beat was answered, and ends where it failed.
    fn go_on(&mut self, turn: Result<Progress<H::Result>, NoMemory>, out: &mut Outbox) -> Turn
        requires alive { IfKept (turn_of turn) (IsAlive H.meaning self.old out.old) }
        requires numbers { HasNumbers out.old }
        ensures stops { OnErr result (self.new.stage ≡ stages.Stopped) }
        ensures goes { OnOk result (GoesOn (turn_of turn) self.old self.new out.old out.new (turn_of result)) }
        ensures beats { OnOk result (Beats self.old.heartbeat out.old out.new) }
        ensures kept { self.new.heartbeat ≡ self.old.heartbeat }
        ensures alive { OnOk result (IsAlive H.meaning self.new out.new) }
        ensures numbers { HasNumbers out.new }
    {
        match turn {
            Err(_) => {
                self.stage = Stage::Stopped;
                Err(NoMemory)
            }
            Ok(Progress::Waiting) => Ok(Progress::Waiting),
            Ok(Progress::Done(Ok(_))) => self.sleep(out),
            Ok(Progress::Done(Err(error))) => {
                self.stage = Stage::Over;
                Ok(Progress::Done(Err(error)))
            }
        }
    }

    /// Sleeps for its interval.
    fn sleep(&mut self, out: &mut Outbox) -> Turn
        requires numbers { HasNumbers out.old }
        ensures stops { OnErr result (self.new.stage ≡ stages.Stopped) }
        ensures sleeps { OnOk result (Sleeps self.old self.new out.old out.new (turn_of result)) }
        ensures kept { self.new.heartbeat ≡ self.old.heartbeat }
        ensures numbers { HasNumbers out.new }
    {
        self.stage = Stage::Stopped;
        let number = out.sleep(self.heartbeat.interval)?;
        self.stage = Stage::Sleeping { number };
        Ok(Progress::Waiting)
    }
}
