ghost use Rattle.std.specs.Prelude.{⊤, false};
ghost use Rattle.txn_routine.specs.Next.{allowance, IsNext, KeepsJob};

use txn_kv::{NoMemory, Result};
use txn_plan::Plan;
use txn_region::PdClient;

/// What a routine does next: it runs a plan that is not begun, or ends with this answer.
pub enum Next<P, A> {
    Run(P),
    End(Result<A>),
}

/// Runs plans one after the other. It decides alone: it posts nothing itself, and of the client it is lent it may only change what
/// is known of regions.
pub trait Routine: Sized + Drop {
    ghost use Rattle.txn_history.specs.Meaning.{IsLawful};
    ghost use Rattle.txn_routine.specs.Way.{IsLevel, IsWay, Way};

    type Plan: Plan;

    type Result: Drop;

    // what it knows, asks, answers and costs
    ghost way: { Way Self Self.Plan Self.Plan.Result Self.Result };

    /// What it does first.
    fn begin<C: PdClient>(
        &mut self,
        pd: &mut C,
    ) -> std::result::Result<Next<Self::Plan, Self::Result>, NoMemory>
        requires fresh { way.fresh self.old }
        ensures job { KeepsJob way self.old self.new }
        ensures next { IsNext way Self.Plan.meaning (λ h. ⊤) (way.round self.old) false self.old self.new result };

    /// What it does now that the plan that it ran has answered.
    fn hear<C: PdClient>(
        &mut self,
        pd: &mut C,
        answer: Result<<Self::Plan as Plan>::Result>,
    ) -> std::result::Result<Next<Self::Plan, Self::Result>, NoMemory>
        requires ready { way.ready self.old }
        ensures job { KeepsJob way self.old self.new }
        ensures next { IsNext way Self.Plan.meaning (λ h. way.knows self.old h × way.hears self.old h answer) (allowance way self.old (Self.Plan.meaning.fails answer)) (Self.Plan.meaning.fails answer) self.old self.new result };

    ghost lawful: { IsWay way };

    ghost level: { IsLevel Self.Plan.meaning };
}
