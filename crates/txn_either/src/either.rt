ghost use Rattle.std.specs.Prelude.{◌≡◌};
ghost use Rattle.txn_either.specs.Either.{either, either-lawful, either_touches};

use txn_kv::{Arrival, NoMemory, Outbox, Progress};
use txn_plan::Plan;
use txn_region::PdClient;

/// One of two plans that answer alike. More than two are plans of plans.
pub enum Either<A, B> {
    First(A),
    Second(B),
}

impl<A: Drop, B: Drop> Drop for Either<A, B> {
    fn drop(self) {
        match self {
            Either::First(plan) => drop(plan),
            Either::Second(plan) => drop(plan),
        }
    }
}

impl<A: Plan, B: Plan<Result = A::Result>> Plan for Either<A, B> {
    type Result = A::Result;

    ghost meaning = { either A.meaning B.meaning };

    ghost touches = { λ touch told from old new pd pd'. either_touches (λ s t. A.touches touch told from s t pd pd') (λ s t. B.touches touch told from s t pd pd') old new };

    fn try_clone(&self) -> Result<Self, NoMemory> {
        match self {
            Either::First(plan) => Ok(Either::First(plan.try_clone()?)),
            Either::Second(plan) => Ok(Either::Second(plan.try_clone()?)),
        }
    }

    fn start<C: PdClient>(
        &mut self,
        pd: &mut C,
        now: u64,
        out: &mut Outbox,
    ) -> Result<Progress<A::Result>, NoMemory> {
        match self {
            Either::First(plan) => plan.start(pd, now, out),
            Either::Second(plan) => plan.start(pd, now, out),
        }
    }

    fn tell<C: PdClient>(
        &mut self,
        pd: &mut C,
        now: u64,
        arrival: Arrival,
        out: &mut Outbox,
    ) -> Result<Progress<A::Result>, NoMemory> {
        match self {
            Either::First(plan) => plan.tell(pd, now, arrival, out),
            Either::Second(plan) => plan.tell(pd, now, arrival, out),
        }
    }

    ghost lawful = { either-lawful A.meaning B.meaning A.lawful B.lawful };
}
