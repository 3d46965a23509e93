ghost use Rattle.std.specs.Prelude.{◌≡◌, IfOk};
ghost use Rattle.txn_history.specs.Meaning.{IsLawful};
ghost use Rattle.txn_history.specs.Turn.{turn_of};
ghost use Rattle.txn_history.specs.Arrivals.{arrives, IsTimeAnswer, MayArrive};
ghost use Rattle.txn_history.specs.Steps.{begins, IsCallable, Steps};
ghost use Rattle.txn_plan.specs.Touch.{touch};

use txn_kv::{Arrival, NoMemory, Outbox, Progress, Reply, Timestamp};
use txn_region::PdClient;

/// A state that hands out requests and takes what comes of them, until it has an answer.
pub trait Plan: Sized + Drop {
    ghost use Rattle.std.specs.Prelude.{Result};
    ghost use Rattle.txn_history.specs.Meaning.{Meaning, Told};
    ghost use Rattle.txn_history.specs.Posted.{Posted};
    ghost use Rattle.txn_kv.specs.declared.errors.Error.{Error};
    ghost use Rattle.txn_plan.specs.Touch.{Touch};

    type Result: Drop;

    ghost meaning: { Meaning Self (Result Self.Result Error) };

    // What a call that tells it this, where its line has posted so much, makes of the client.
    ghost touches: { {C : Type 0} → Touch C → Told → Posted → Self → Self → C → C → Type 0 };

    /// The same state, in new memory: it waits for the same. A plan that can be copied only before it begins refuses afterwards,
    /// as if for want of memory.
    fn try_clone(&self) -> Result<Self, NoMemory>
        ensures { IfOk result (λ copy. copy ≡ self.now) };

    /// Begins.
    fn start<C: PdClient>(
        &mut self,
        pd: &mut C,
        now: u64,
        out: &mut Outbox,
    ) -> Result<Progress<Self::Result>, NoMemory>
        requires { IsCallable meaning self.old out.old now }
        ensures { Steps meaning (touches (touch C.looked C.learns C.leads C.drops)) begins self.old self.new out.old out.new pd.old pd.new (turn_of result) };

    /// Takes what came.
    fn tell<C: PdClient>(
        &mut self,
        pd: &mut C,
        now: u64,
        arrival: Arrival,
        out: &mut Outbox,
    ) -> Result<Progress<Self::Result>, NoMemory>
        requires callable { IsCallable meaning self.old out.old now }
        requires arrives { MayArrive arrival }
        ensures { Steps meaning (touches (touch C.looked C.learns C.leads C.drops)) (arrives arrival out.old) self.old self.new out.old out.new pd.old pd.new (turn_of result) };

    ghost lawful: { IsLawful meaning };

    /// The reply to the request of this number came.
    final fn take_reply<C: PdClient>(
        &mut self,
        pd: &mut C,
        now: u64,
        number: u64,
        reply: Reply,
        out: &mut Outbox,
    ) -> Result<Progress<Self::Result>, NoMemory>
        requires { IsCallable meaning self.old out.old now }
        ensures { Steps meaning (touches (touch C.looked C.learns C.leads C.drops)) (arrives (Arrival.Reply number reply) out.old) self.old self.new out.old out.new pd.old pd.new (turn_of result) }
    {
        self.tell(pd, now, Arrival::Reply { number, reply }, out)
    }

    /// No reply to the request of this number will come.
    final fn lost<C: PdClient>(
        &mut self,
        pd: &mut C,
        now: u64,
        number: u64,
        out: &mut Outbox,
    ) -> Result<Progress<Self::Result>, NoMemory>
        requires { IsCallable meaning self.old out.old now }
        ensures { Steps meaning (touches (touch C.looked C.learns C.leads C.drops)) (arrives (Arrival.Lost number) out.old) self.old self.new out.old out.new pd.old pd.new (turn_of result) }
    {
        self.tell(pd, now, Arrival::Lost { number }, out)
    }

    /// The sleep of this number has ended.
    final fn slept<C: PdClient>(
        &mut self,
        pd: &mut C,
        now: u64,
        number: u64,
        out: &mut Outbox,
    ) -> Result<Progress<Self::Result>, NoMemory>
        requires { IsCallable meaning self.old out.old now }
        ensures { Steps meaning (touches (touch C.looked C.learns C.leads C.drops)) (arrives (Arrival.Slept number) out.old) self.old self.new out.old out.new pd.old pd.new (turn_of result) }
    {
        self.tell(pd, now, Arrival::Slept { number }, out)
    }

    /// The ask of this number was answered, by the oracle of the client.
    final fn take_time<C: PdClient>(
        &mut self,
        pd: &mut C,
        now: u64,
        ask: u64,
        answer: txn_kv::Result<Timestamp>,
        out: &mut Outbox,
    ) -> Result<Progress<Self::Result>, NoMemory>
        requires callable { IsCallable meaning self.old out.old now }
        requires answer { IsTimeAnswer answer }
        ensures { Steps meaning (touches (touch C.looked C.learns C.leads C.drops)) (arrives (Arrival.Time ask answer) out.old) self.old self.new out.old out.new pd.old pd.new (turn_of result) }
    {
        self.tell(pd, now, Arrival::Time { ask, answer }, out)
    }
}
