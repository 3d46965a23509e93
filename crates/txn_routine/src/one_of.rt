ghost use Rattle.std.specs.Prelude.{◌≡◌};
ghost use Rattle.txn_routine.specs.OneOf.{one_of, one_of-lawful, one_of_touches, progress_first, progress_second};

use txn_kv::{Arrival, NoMemory, Outbox, Progress};
use txn_plan::Plan;
use txn_region::PdClient;

/// One of two plans that answer differently, or what one of them answers. More than two are plans of plans.
#[derive(Drop)]
pub enum OneOf<A, B> {
    First(A),
    Second(B),
}

/// What an event of the first plan answers.
fn first<A, B>(progress: Progress<A>) -> Progress<OneOf<A, B>>
    ensures { result ≡ progress_first progress }
{
    match progress {
        Progress::Waiting => Progress::Waiting,
        Progress::Done(Ok(answer)) => Progress::Done(Ok(OneOf::First(answer))),
        Progress::Done(Err(error)) => Progress::Done(Err(error)),
    }
}

/// What an event of the second plan answers.
fn second<A, B>(progress: Progress<B>) -> Progress<OneOf<A, B>>
    ensures { result ≡ progress_second progress }
{
    match progress {
        Progress::Waiting => Progress::Waiting,
        Progress::Done(Ok(answer)) => Progress::Done(Ok(OneOf::Second(answer))),
        Progress::Done(Err(error)) => Progress::Done(Err(error)),
    }
}

impl<A: Plan, B: Plan> Plan for OneOf<A, B> {
    type Result = OneOf<A::Result, B::Result>;

    ghost meaning = { one_of A.meaning B.meaning };

    ghost touches = { λ touch told from old new pd pd'. one_of_touches (λ s t. A.touches touch told from s t pd pd') (λ s t. B.touches touch told from s t pd pd') old new };

    fn try_clone(&self) -> Result<Self, NoMemory> {
        match self {
            OneOf::First(plan) => Ok(OneOf::First(plan.try_clone()?)),
            OneOf::Second(plan) => Ok(OneOf::Second(plan.try_clone()?)),
        }
    }

    fn start<C: PdClient>(
        &mut self,
        pd: &mut C,
        now: u64,
        out: &mut Outbox,
    ) -> Result<Progress<OneOf<A::Result, B::Result>>, NoMemory> {
        match self {
            OneOf::First(plan) => Ok(first(plan.start(pd, now, out)?)),
            OneOf::Second(plan) => Ok(second(plan.start(pd, now, out)?)),
        }
    }

    fn tell<C: PdClient>(
        &mut self,
        pd: &mut C,
        now: u64,
        arrival: Arrival,
        out: &mut Outbox,
    ) -> Result<Progress<OneOf<A::Result, B::Result>>, NoMemory> {
        match self {
            OneOf::First(plan) => Ok(first(plan.tell(pd, now, arrival, out)?)),
            OneOf::Second(plan) => Ok(second(plan.tell(pd, now, arrival, out)?)),
        }
    }

    ghost lawful = { one_of-lawful A.meaning B.meaning A.lawful B.lawful };
}
