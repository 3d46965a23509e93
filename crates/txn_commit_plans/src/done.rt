ghost use Rattle.std.specs.Prelude.{◌≡◌};
ghost use Rattle.txn_commit_plans.specs.Done.{IsDone, done, done-lawful};
ghost use Rattle.txn_history.specs.Around.{IsRead};
ghost use Rattle.txn_history.specs.Turn.{turn_of};

use std::marker::Model;
use txn_commit::Fetched;
use txn_kv::{Arrival, NoMemory, Outbox, Progress};
use txn_plan::Plan;
use txn_region::PdClient;

/// A plan of which only that it was done is of interest: its answer holds no reply, and its errors are those of the plan.
pub struct Done<P> {
    inner: P,
}

impl<P: Drop> Drop for Done<P> {
    fn drop(self) {
        let Done { inner } = self;
        drop(inner);
    }
}

/// It is seen as the plan that it holds.
impl<P> Model for Done<P> {
    ghost Value = { P };

    ghost view = { λ plan. plan.inner };
}

impl<P> Done<P> {
    pub fn new(plan: P) -> Done<P>
        ensures { result ≡ plan }
    {
        Done { inner: plan }
    }

    /// The plan that it holds.
    pub fn plan(&self) -> &P
        ensures { result.now ≡ self.now }
    {
        &self.inner
    }
}

/// The answer without its reply.
fn emptied<A: Drop>(turn: Result<Progress<A>, NoMemory>) -> Result<Progress<Fetched>, NoMemory>
    ensures { IsRead IsDone (turn_of turn) (turn_of result) }
{
    match turn? {
        Progress::Waiting => Ok(Progress::Waiting),
        Progress::Done(Ok(_)) => Ok(Progress::Done(Ok(Fetched::Nothing))),
        Progress::Done(Err(error)) => Ok(Progress::Done(Err(error))),
    }
}

impl<P: Plan> Plan for Done<P> {
    type Result = Fetched;

    ghost meaning = { done P.meaning };

    ghost touches = { λ touch told from old new pd pd'. P.touches touch told from old new pd pd' };

    fn try_clone(&self) -> Result<Self, NoMemory> {
        Ok(Done {
            inner: self.inner.try_clone()?,
        })
    }

    fn start<C: PdClient>(
        &mut self,
        pd: &mut C,
        now: u64,
        out: &mut Outbox,
    ) -> Result<Progress<Fetched>, NoMemory> {
        let turn = self.inner.start(pd, now, out);
        emptied(turn)
    }

    fn tell<C: PdClient>(
        &mut self,
        pd: &mut C,
        now: u64,
        arrival: Arrival,
        out: &mut Outbox,
    ) -> Result<Progress<Fetched>, NoMemory> {
        let turn = self.inner.tell(pd, now, arrival, out);
        emptied(turn)
    }

    ghost lawful = { done-lawful P.meaning P.lawful };
}
