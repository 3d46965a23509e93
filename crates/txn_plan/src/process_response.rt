ghost use Rattle.txn_history.specs.Around.{IsRead};
ghost use Rattle.txn_history.specs.Turn.{turn_of};
ghost use Rattle.txn_plan.specs.Process.{processed, processed-lawful};

use crate::plan::Plan;
use txn_kv::{Arrival, NoMemory, Outbox, Progress, TryClone};
use txn_merge::Process;
use txn_region::PdClient;

/// A plan whose answer is made into another.
pub struct ProcessResponse<P: Plan, Pr: Process<P::Result> + TryClone> {
    pub inner: P,
    pub processor: Pr,
}

impl<P: Plan, Pr: Process<P::Result> + TryClone> Drop for ProcessResponse<P, Pr> {
    fn drop(self) {
        let ProcessResponse { inner, processor } = self;
        drop(inner);
        drop(processor);
    }
}

impl<P: Plan, Pr: Process<P::Result> + TryClone> ProcessResponse<P, Pr>
where
    Pr::Out: Drop,
{
    fn read(
        &self,
        turn: Result<Progress<P::Result>, NoMemory>,
    ) -> Result<Progress<Pr::Out>, NoMemory>
        ensures { IsRead (Pr.processes self.now.processor) (turn_of turn) (turn_of result) }
    {
        match turn? {
            Progress::Waiting => Ok(Progress::Waiting),
            Progress::Done(answer) => Ok(Progress::Done(self.processor.process(answer))),
        }
    }
}

impl<P: Plan, Pr: Process<P::Result> + TryClone> Plan for ProcessResponse<P, Pr>
where
    Pr::Out: Drop,
{
    type Result = Pr::Out;

    ghost meaning = { processed P.meaning Pr.processes };

    ghost touches = { λ touch told from old new pd pd'. P.touches touch told from old.inner new.inner pd pd' };

    fn try_clone(&self) -> Result<Self, NoMemory> {
        Ok(ProcessResponse {
            inner: self.inner.try_clone()?,
            processor: self.processor.try_clone()?,
        })
    }

    fn start<C: PdClient>(
        &mut self,
        pd: &mut C,
        now: u64,
        out: &mut Outbox,
    ) -> Result<Progress<Pr::Out>, NoMemory> {
        let turn = self.inner.start(pd, now, out);
        self.read(turn)
    }

    fn tell<C: PdClient>(
        &mut self,
        pd: &mut C,
        now: u64,
        arrival: Arrival,
        out: &mut Outbox,
    ) -> Result<Progress<Pr::Out>, NoMemory> {
        let turn = self.inner.tell(pd, now, arrival, out);
        self.read(turn)
    }

    ghost lawful = { processed-lawful P.meaning Pr.processes P.lawful };
}
