ghost use Rattle.std.specs.Prelude.{◌≡◌};
ghost use Rattle.txn_history.specs.Around.{IsRead};
ghost use Rattle.txn_history.specs.Turn.{turn_of};
ghost use Rattle.txn_plan.specs.Extracted.{extracted, extracted-lawful, IsAnswer};

use crate::plan::Plan;
use std::alloc::Global;
use txn_kv::{Arrival, Error, NoMemory, Outbox, Progress};
use txn_merge::{HasKeyErrors, HasRegionErrors, extract_error};
use txn_region::PdClient;

/// A plan whose answer gives way to the errors that it holds (`ExtractedErrors`). An error of the plan stays as it is.
pub struct ExtractError<P: Plan> {
    pub inner: P,
    alloc: Global,
}

impl<P: Plan> Drop for ExtractError<P> {
    fn drop(self) {
        let ExtractError { inner, alloc: _ } = self;
        drop(inner);
    }
}

impl<P: Plan> ExtractError<P>
where
    P::Result: HasKeyErrors + HasRegionErrors,
{
    /// A plan whose errors are taken out.
    pub fn new(alloc: Global, inner: P) -> ExtractError<P>
        ensures { result.inner ≡ inner }
    {
        ExtractError { inner, alloc }
    }

    fn extracted(&self, answer: txn_kv::Result<P::Result>) -> txn_kv::Result<P::Result>
        ensures { IsAnswer P.Result.key_errors_in P.Result.region_errors_in answer result }
    {
        match extract_error(self.alloc, answer) {
            Ok(result) => result,
            Err(NoMemory) => Err(Error::OutOfMemory),
        }
    }

    fn read(
        &self,
        turn: Result<Progress<P::Result>, NoMemory>,
    ) -> Result<Progress<P::Result>, NoMemory>
        ensures { IsRead (IsAnswer P.Result.key_errors_in P.Result.region_errors_in) (turn_of turn) (turn_of result) }
    {
        match turn? {
            Progress::Waiting => Ok(Progress::Waiting),
            Progress::Done(answer) => Ok(Progress::Done(self.extracted(answer))),
        }
    }
}

impl<P: Plan> Plan for ExtractError<P>
where
    P::Result: HasKeyErrors + HasRegionErrors,
{
    type Result = P::Result;

    ghost meaning = { extracted P.meaning P.Result.key_errors_in P.Result.region_errors_in };

    ghost touches = { λ touch told from old new pd pd'. P.touches touch told from old.inner new.inner pd pd' };

    fn try_clone(&self) -> Result<Self, NoMemory> {
        Ok(ExtractError {
            inner: self.inner.try_clone()?,
            alloc: self.alloc,
        })
    }

    fn start<C: PdClient>(
        &mut self,
        pd: &mut C,
        now: u64,
        out: &mut Outbox,
    ) -> Result<Progress<P::Result>, NoMemory> {
        let turn = self.inner.start(pd, now, out);
        self.read(turn)
    }

    fn tell<C: PdClient>(
        &mut self,
        pd: &mut C,
        now: u64,
        arrival: Arrival,
        out: &mut Outbox,
    ) -> Result<Progress<P::Result>, NoMemory> {
        let turn = self.inner.tell(pd, now, arrival, out);
        self.read(turn)
    }

    ghost lawful = { extracted-lawful P.meaning P.Result.key_errors_in P.Result.region_errors_in P.lawful };
}
