//! What the tasks of a plan have in common.
ghost use Rattle.std.specs.Prelude.{◌≡◌, ◌≤◌, ◌<◌, ◌^◌, ◌++◌, ◌∷◌, [], List, ℕ, true, false};
ghost use Rattle.txn_history.specs.Meaning.{started, Counts, Goes, IsLawful, Meaning, Tells};
ghost use Rattle.txn_history.specs.Phase.Phase.{Fresh, Running};
ghost use Rattle.txn_history.specs.Posted.{HasNumbers};
ghost use Rattle.txn_history.specs.Turn.{IfEnds};
ghost use Rattle.txn_history.specs.Arrivals.{arrives, MayArrive};
ghost use Rattle.txn_plan.specs.Touch.{touch};
ghost use Rattle.txn_history.specs.Steps.{IsCallable, Steps};
ghost use Rattle.txn_tasks.specs.Step.{step_turn, IsEnd, Keeps};

use txn_kv::{Arrival, NoMemory, Outbox, Result};
use txn_region::PdClient;

/// How a task ends: with an error of its own or the result of its part, or with tasks that stand in its place.
#[derive(Drop)]
pub enum Step<T: Drop, A: Drop> {
    End(Result<Result<A>>),
    Parts(Vec<T>),
}

/// A task of a plan, which runs while its inner plan is under way. An event answers how the task ends, once it does.
pub trait Task: Sized + Drop {
    ghost use Rattle.std.specs.Prelude.{List, Bool, ℕ};
    ghost use Rattle.txn_history.specs.Meaning.{Meaning, Told};
    ghost use Rattle.txn_history.specs.Posted.{Posted};
    ghost use Rattle.txn_plan.specs.Touch.{Touch};
    ghost use Rattle.txn_tasks.specs.declared.step.Step.{Step};

    type Answer: Drop;

    ghost meaning: { Meaning Self (Step Self Self.Answer) };

    // What it is to do.
    ghost Load: { Type 0 };

    ghost load: { Self → Load };

    // Together these are the load.
    ghost AreCut: { Load → List Load → Type 0 };

    // What it is a task of.
    ghost Whole: { Type 0 };

    ghost IsOf: { Self → Whole → Type 0 };

    // What a new run of any of its tasks posts at most, where nothing is cut into more than so many parts.
    ghost cost: { Whole → ℕ → ℕ };

    // Its inner plan is under way.
    ghost runs: { Self → Bool };

    // What a call that tells it this, where its line has posted so much, makes of the client.
    ghost touches: { {C : Type 0} → Touch C → Told → Posted → Self → Self → C → C → Type 0 };

    fn is_running(&self) -> bool
        ensures { result ≡ runs self.now };

    /// Begins. It gives no parts here.
    fn start<C: PdClient>(
        &mut self,
        pd: &mut C,
        now: u64,
        out: &mut Outbox,
    ) -> std::result::Result<Option<Step<Self, Self::Answer>>, NoMemory>
        requires ready { meaning.ready self.old }
        requires numbers { HasNumbers out.old }
        requires clock { now < 2 ^ 44 }
        ensures tells { Tells meaning started self.old self.new out.old out.new (step_turn result) }
        ensures goes { Goes meaning.phase (meaning.phase self.old ≡ Fresh) self.old self.new out.old out.new pd.old pd.new (step_turn result) }
        ensures counts { Counts meaning false false 0 0 self.old self.new out.old out.new (step_turn result) }
        ensures client { touches (touch C.looked C.learns C.leads C.drops) started out.old self.old self.new pd.old pd.new }
        ensures keeps { Keeps meaning load AreCut IsOf runs self.old self.new (step_turn result) }
        ensures ends { IfEnds (step_turn result) IsEnd }
        ensures ready { meaning.ready self.new }
        ensures numbers { HasNumbers out.new };

    /// Takes what came.
    fn tell<C: PdClient>(
        &mut self,
        pd: &mut C,
        now: u64,
        arrival: Arrival,
        out: &mut Outbox,
    ) -> std::result::Result<Option<Step<Self, Self::Answer>>, NoMemory>
        requires callable { IsCallable meaning self.old out.old now }
        requires arrives { MayArrive arrival }
        ensures steps { Steps meaning (touches (touch C.looked C.learns C.leads C.drops)) (arrives arrival out.old) self.old self.new out.old out.new pd.old pd.new (step_turn result) }
        ensures keeps { Keeps meaning load AreCut IsOf runs self.old self.new (step_turn result) }
        ensures off { runs self.old ≡ false → runs self.new ≡ false };

    ghost lawful: { IsLawful meaning };

    ghost runs_running: { (task : Self) → runs task ≡ true → meaning.phase task ≡ Running };

    // A new run of a task costs no more than one of the whole.
    ghost costs: { (task : Self) (whole : Whole) (n : ℕ) → IsOf task whole → meaning.round task n ≤ cost whole n };

    // A load is cut into itself, and a piece of it may be cut again.
    ghost cut_whole: { (whole : Load) → AreCut whole (whole ∷ []) };

    ghost cut_again: { (whole piece : Load) (before parts behind : List Load) → AreCut whole (before ++ piece ∷ behind) → AreCut piece parts → AreCut whole (before ++ parts ++ behind) };
}
