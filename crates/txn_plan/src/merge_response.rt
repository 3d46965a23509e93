ghost use Rattle.std.specs.Prelude.{◌≡◌};
ghost use Rattle.txn_history.specs.Around.{IsRead};
ghost use Rattle.txn_history.specs.Turn.{turn_of};
ghost use Rattle.txn_plan.specs.Merged.{merged, merged-lawful, IsMerged};

use crate::plan::Plan;
use std::alloc::Global;
use std::marker::PhantomData;
use txn_kv::{Arrival, NoMemory, Outbox, Progress, TryClone};
use txn_merge::Merge;
use txn_region::PdClient;

/// A plan over many shards, whose results are merged into one answer. An error of the plan stays as it is.
pub struct MergeResponse<
    P: Plan<Result = Vec<txn_kv::Result<In>>>,
    In: Drop,
    M: Merge<In> + TryClone,
> {
    pub inner: P,
    pub merge: M,
    alloc: Global,
    of: PhantomData<In>,
}

impl<P: Plan<Result = Vec<txn_kv::Result<In>>>, In: Drop, M: Merge<In> + TryClone> Drop
    for MergeResponse<P, In, M> {
    fn drop(self) {
        let MergeResponse {
            inner,
            merge,
            alloc: _,
            of: _,
        } = self;
        drop(inner);
        drop(merge);
    }
}

impl<P: Plan<Result = Vec<txn_kv::Result<In>>>, In: Drop, M: Merge<In> + TryClone> MergeResponse<
    P,
    In,
    M,
>
where
    M::Out: Drop,
{
    /// A plan whose results are merged.
    pub fn new(alloc: Global, inner: P, merge: M) -> MergeResponse<P, In, M>
        ensures inner { result.inner ≡ inner }
        ensures merge { result.merge ≡ merge }
    {
        MergeResponse {
            inner,
            merge,
            alloc,
            of: PhantomData,
        }
    }

    fn merged(&self, answer: txn_kv::Result<Vec<txn_kv::Result<In>>>) -> txn_kv::Result<M::Out>
        ensures { IsMerged (M.merges self.now.merge) answer result }
    {
        self.merge.merge(self.alloc, answer?)
    }

    fn read(
        &self,
        turn: Result<Progress<Vec<txn_kv::Result<In>>>, NoMemory>,
    ) -> Result<Progress<M::Out>, NoMemory>
        ensures { IsRead (IsMerged (M.merges self.now.merge)) (turn_of turn) (turn_of result) }
    {
        match turn? {
            Progress::Waiting => Ok(Progress::Waiting),
            Progress::Done(answer) => Ok(Progress::Done(self.merged(answer))),
        }
    }
}

impl<P: Plan<Result = Vec<txn_kv::Result<In>>>, In: Drop, M: Merge<In> + TryClone> Plan
    for MergeResponse<P, In, M>
where
    M::Out: Drop,
{
    type Result = M::Out;

    ghost meaning = { merged P.meaning M.merges };

    ghost touches = { λ touch told from old new pd pd'. P.touches touch told from old.inner new.inner pd pd' };

    fn try_clone(&self) -> Result<Self, NoMemory> {
        Ok(MergeResponse {
            inner: self.inner.try_clone()?,
            merge: self.merge.try_clone()?,
            alloc: self.alloc,
            of: PhantomData,
        })
    }

    fn start<C: PdClient>(
        &mut self,
        pd: &mut C,
        now: u64,
        out: &mut Outbox,
    ) -> Result<Progress<M::Out>, NoMemory> {
        let turn = self.inner.start(pd, now, out);
        self.read(turn)
    }

    fn tell<C: PdClient>(
        &mut self,
        pd: &mut C,
        now: u64,
        arrival: Arrival,
        out: &mut Outbox,
    ) -> Result<Progress<M::Out>, NoMemory> {
        let turn = self.inner.tell(pd, now, arrival, out);
        self.read(turn)
    }

    ghost lawful = { merged-lawful P.meaning M.merges P.lawful };
}
