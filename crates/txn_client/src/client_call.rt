ghost use Rattle.std.specs.Prelude.{◌≡◌, ◌<◌, ◌^◌, IfOk, false};
ghost use Rattle.std.specs.Bool.{MatchBool};
ghost use Rattle.txn_history.specs.Meaning.{started, Counts, Goes, IsUnbegun, Tells};
ghost use Rattle.txn_history.specs.Phase.{unheard};
ghost use Rattle.txn_history.specs.Phase.Phase.{Fresh as Unbegun};
ghost use Rattle.txn_history.specs.Posted.{HasNumbers};
ghost use Rattle.txn_history.specs.Turn.{turn_of, IfEnds};
ghost use Rattle.txn_kv.specs.declared.request.Request.{Request as Asked};
ghost use Rattle.txn_history.specs.Arrivals.{MayArrive, awaited_as, locked_told, tells_error, tells_failure, told_by, weight_told};
ghost use Rattle.txn_client.specs.Calls.{called, made, stage_phase, stage_waits, AnswerReady, Asks, CallReady, Follows, IsEnded, IsMade, IsMadeOf, IsNewCall};
ghost use Rattle.txn_client.specs.declared.client_call.Stage.TheVariants as stages;
ghost use Rattle.txn_client.specs.declared.client_call.Wanted.TheVariants as wants;

use crate::client_answer::ClientAnswer;
use std::alloc::Global;
use std::marker::PhantomData;
use txn_commit::Plans;
use txn_core::{Transaction, TransactionOptions};
use txn_kv::{Arrival, NoMemory, Outbox, Progress, Timestamp};
use txn_plan::TimestampCall;
use txn_region::PdClient;

type Turn<C, P> = Result<Progress<ClientAnswer<C, P>>, NoMemory>;

/// What the timestamp is for.
#[derive(Drop)]
enum Wanted {
    Timestamp,
    Transaction(TransactionOptions),
}

/// How far the call has come.
enum Stage {
    Fresh,
    Asking(TimestampCall),
    Over,
    /// It gave up for want of memory.
    Stopped,
}

impl Drop for Stage {
    fn drop(self) {
        match self {
            Stage::Fresh => {}
            Stage::Asking(inner) => drop(inner),
            Stage::Over => {}
            Stage::Stopped => {}
        }
    }
}

/// A call of a client: it asks for a timestamp, and answers that, or a transaction that begins at it. One that gave up for want
/// of memory gives up ever after.
pub struct ClientCall<C, P> {
    wanted: Wanted,
    stage: Stage,
    alloc: Global,
    begins: PhantomData<Transaction<C, P>>,
}

impl<C: Drop, P: Drop> Drop for ClientCall<C, P> {
    fn drop(self) {
        let ClientCall {
            wanted,
            stage,
            alloc: _,
            begins: _,
        } = self;
        drop(wanted);
        drop(stage);
    }
}

impl<C, P> ClientCall<C, P>
where
    C: PdClient,
    P: Plans,
{
    /// A call that begins a transaction, and is not started.
    pub(crate) fn begin(alloc: Global, options: TransactionOptions) -> Self
        ensures new { IsNewCall (wants.Transaction options) result }
        ensures unbegun { IsUnbegun called result }
    {
        ClientCall::new(alloc, Wanted::Transaction(options))
    }

    /// A call for a timestamp that is not started.
    pub(crate) fn timestamp(alloc: Global) -> Self
        ensures new { IsNewCall wants.Timestamp result }
        ensures unbegun { IsUnbegun called result }
    {
        ClientCall::new(alloc, Wanted::Timestamp)
    }

    fn new(alloc: Global, wanted: Wanted) -> Self
        ensures new { IsNewCall wanted result }
        ensures unbegun { IsUnbegun called result }
    {
        ClientCall {
            wanted,
            stage: Stage::Fresh,
            alloc,
            begins: PhantomData,
        }
    }

    /// Asks for the timestamp.
    pub fn start<D: PdClient>(&mut self, pd: &mut D, now: u64, out: &mut Outbox) -> Turn<C, P>
        requires numbers { HasNumbers out.old }
        requires ready { CallReady self.old.stage }
        ensures tells { Tells called started self.old self.new out.old out.new (turn_of result) }
        ensures goes { Goes called.phase (stage_phase self.old.stage ≡ Unbegun) self.old self.new out.old out.new pd.old pd.new (turn_of result) }
        ensures counts { Counts called false false 0 0 self.old self.new out.old out.new (turn_of result) }
        ensures answer { IfEnds (turn_of result) (λ answer. ⊥) }
        ensures ready { CallReady self.new.stage }
        ensures numbers { HasNumbers out.new }
    {
        if !self.is_fresh() {
            return self.stay();
        }
        self.ask(pd, now, out)
    }

    /// It is told of something.
    pub fn tell<D: PdClient>(
        &mut self,
        arrival: Arrival,
        pd: &mut D,
        now: u64,
        out: &mut Outbox,
    ) -> Turn<C, P>
        requires ready { CallReady self.old.stage }
        requires arrives { MayArrive arrival }
        requires numbers { HasNumbers out.old }
        requires clock { now < 2 ^ 44 }
        ensures tells { (r : Asked) → Tells called (told_by arrival out.old r) self.old self.new out.old out.new (turn_of result) }
        ensures goes { Goes called.phase (stage_waits self.old.stage (awaited_as arrival)) self.old self.new out.old out.new pd.old pd.new (turn_of result) }
        ensures counts { Counts called (tells_error arrival) (tells_failure arrival) (weight_told arrival) (locked_told arrival) self.old self.new out.old out.new (turn_of result) }
        ensures made { IfEnds (turn_of result) (IsMadeOf self.old.wanted now (arrival)) }
        ensures answer { IfEnds (turn_of result) (AnswerReady P.ways) }
        ensures ready { CallReady self.new.stage }
        ensures numbers { HasNumbers out.new }
    {
        match &mut self.stage {
            Stage::Asking(call) => {
                let turn = call.tell(arrival, pd, now, out);
                self.go_on(turn, now)
            }
            Stage::Fresh => {
                drop(arrival);
                Ok(Progress::Waiting)
            }
            Stage::Over => {
                drop(arrival);
                Ok(Progress::Waiting)
            }
            Stage::Stopped => {
                drop(arrival);
                Err(NoMemory)
            }
        }
    }

    fn is_fresh(&self) -> bool
        ensures { MatchBool result (self.now.stage ≡ stages.Fresh) (self.now.stage ≡ stages.Fresh → ⊥) }
    {
        matches!(self.stage, Stage::Fresh)
    }

    /// What comes of a start that is not the first.
    fn stay(&self) -> Turn<C, P>
        requires ready { CallReady self.now.stage }
        ensures { turn_of result ≡ unheard (stage_phase self.now.stage) }
    {
        match &self.stage {
            Stage::Fresh => Ok(Progress::Waiting),
            Stage::Asking(_call) => Ok(Progress::Waiting),
            Stage::Over => Ok(Progress::Waiting),
            Stage::Stopped => Err(NoMemory),
        }
    }

    fn ask<D: PdClient>(&mut self, pd: &mut D, now: u64, out: &mut Outbox) -> Turn<C, P>
        requires numbers { HasNumbers out.old }
        ensures asks { Asks self.old self.new out.old out.new (turn_of result) }
        ensures numbers { HasNumbers out.new }
    {
        match TimestampCall::begin(pd, now, out) {
            Ok(call) => {
                self.stage = Stage::Asking(call);
                Ok(Progress::Waiting)
            }
            Err(NoMemory) => {
                self.stage = Stage::Stopped;
                Err(NoMemory)
            }
        }
    }

    /// Goes on after its ask did.
    fn go_on(&mut self, turn: Result<Progress<Timestamp>, NoMemory>, now: u64) -> Turn<C, P>
        ensures { Follows now (turn_of turn) self.old self.new (turn_of result) }
    {
        match turn {
            Ok(Progress::Waiting) => Ok(Progress::Waiting),
            Ok(Progress::Done(answer)) => self.end(answer, now),
            Err(NoMemory) => {
                self.stage = Stage::Stopped;
                Err(NoMemory)
            }
        }
    }

    fn end(&mut self, answer: txn_kv::Result<Timestamp>, now: u64) -> Turn<C, P>
        ensures { IsEnded (IsMade self.old.wanted now answer) self.old self.new (turn_of result) }
    {
        match self.answer(answer, now) {
            Ok(answer) => {
                self.stage = Stage::Over;
                Ok(Progress::Done(answer))
            }
            Err(NoMemory) => {
                self.stage = Stage::Stopped;
                Err(NoMemory)
            }
        }
    }

    fn answer(
        &self,
        answer: txn_kv::Result<Timestamp>,
        now: u64,
    ) -> Result<txn_kv::Result<ClientAnswer<C, P>>, NoMemory>
        ensures { IfOk result (IsMade self.now.wanted now answer) }
    {
        match answer {
            Ok(timestamp) => Ok(Ok(self.make(timestamp, now)?)),
            Err(error) => Ok(Err(error)),
        }
    }

    /// What was wanted, made of the timestamp that came at this clock.
    fn make(&self, timestamp: Timestamp, now: u64) -> Result<ClientAnswer<C, P>, NoMemory>
        ensures { IfOk result (λ answer. answer ≡ made self.now.wanted now timestamp) }
    {
        match &self.wanted {
            Wanted::Timestamp => Ok(ClientAnswer::Time(timestamp)),
            Wanted::Transaction(options) => {
                let transaction = Transaction::new(self.alloc, timestamp, options.clone()?, now)?;
                Ok(ClientAnswer::Begun(transaction))
            }
        }
    }
}
