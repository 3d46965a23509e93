ghost use Rattle.std.specs.Prelude.{◌≡◌, IfOk};
ghost use Rattle.txn_history.specs.Around.{IsRead};
ghost use Rattle.txn_history.specs.Turn.{turn_of};
ghost use Rattle.txn_resolve.specs.Unlocked.{unlocked, unlocked-lawful, IsUnlocked, LocksOr};

use std::alloc::Global;
use txn_kv::{Arrival, Backoff, Error, NoMemory, Outbox, Progress};
use txn_merge::HasLocks;
use txn_plan::Plan;
use txn_region::PdClient;

/// A plan whose reply gives way to the locks that it carries: its answer is then `ResolveLockError` of all of them, in their
/// order. Every other reply, and each error of the plan, stays as it is.
///
/// It resolves no lock yet, so each backoff counts as one without attempts.
pub struct ResolveLock<P: Plan> {
    pub inner: P,
    pub backoff: Backoff,
    alloc: Global,
}

impl<P: Plan> Drop for ResolveLock<P> {
    fn drop(self) {
        let ResolveLock {
            inner,
            backoff: _,
            alloc: _,
        } = self;
        drop(inner);
    }
}

impl<P: Plan> ResolveLock<P>
where
    P::Result: HasLocks,
{
    /// A plan that is refused for locks.
    pub fn new(alloc: Global, inner: P, backoff: Backoff) -> ResolveLock<P>
        ensures inner { result.inner ≡ inner }
        ensures backoff { result.backoff ≡ backoff }
    {
        ResolveLock {
            inner,
            backoff,
            alloc,
        }
    }

    fn refused(&self, mut reply: P::Result) -> Result<txn_kv::Result<P::Result>, NoMemory>
        ensures { IfOk result (LocksOr (P.Result.locks reply) reply) }
    {
        let locks = reply.take_locks(self.alloc)?;
        if locks.is_empty() {
            Ok(Ok(reply))
        } else {
            Ok(Err(Error::ResolveLockError(locks)))
        }
    }

    fn unlocked(&self, answer: txn_kv::Result<P::Result>) -> txn_kv::Result<P::Result>
        ensures { IsUnlocked P.Result.locks answer result }
    {
        match self.refused(answer?) {
            Ok(result) => result,
            Err(NoMemory) => Err(Error::OutOfMemory),
        }
    }

    fn read(
        &self,
        turn: Result<Progress<P::Result>, NoMemory>,
    ) -> Result<Progress<P::Result>, NoMemory>
        ensures { IsRead (IsUnlocked P.Result.locks) (turn_of turn) (turn_of result) }
    {
        match turn? {
            Progress::Waiting => Ok(Progress::Waiting),
            Progress::Done(answer) => Ok(Progress::Done(self.unlocked(answer))),
        }
    }
}

impl<P: Plan> Plan for ResolveLock<P>
where
    P::Result: HasLocks,
{
    type Result = P::Result;

    ghost meaning = { unlocked P.meaning P.Result.locks };

    ghost touches = { λ touch told from old new pd pd'. P.touches touch told from old.inner new.inner pd pd' };

    fn try_clone(&self) -> Result<Self, NoMemory> {
        Ok(ResolveLock {
            inner: self.inner.try_clone()?,
            backoff: self.backoff,
            alloc: self.alloc,
        })
    }

    fn start<C: PdClient>(
        &mut self,
        pd: &mut C,
        now: u64,
        out: &mut Outbox,
    ) -> Result<Progress<P::Result>, NoMemory> {
        let turn = self.inner.start(pd, now, out);
        self.read(turn)
    }

    fn tell<C: PdClient>(
        &mut self,
        pd: &mut C,
        now: u64,
        arrival: Arrival,
        out: &mut Outbox,
    ) -> Result<Progress<P::Result>, NoMemory> {
        let turn = self.inner.tell(pd, now, arrival, out);
        self.read(turn)
    }

    ghost lawful = { unlocked-lawful P.meaning P.Result.locks P.lawful };
}
