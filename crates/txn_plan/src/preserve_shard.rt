ghost use Rattle.std.specs.Prelude.{◌≡◌, IsSome, Some};
ghost use Rattle.txn_history.specs.Around.{IsRead};
ghost use Rattle.txn_history.specs.Turn.{turn_of};
ghost use Rattle.txn_plan.specs.Preserved.{preserved, preserved-lawful, IsPreserved};

use crate::plan::Plan;
use std::alloc::Global;
use txn_kv::{Arrival, Error, NoMemory, Outbox, PdQuery, Progress, TryClone};
use txn_merge::ResponseWithShard;
use txn_region::{PdClient, RegionStore};
use txn_shard::{ShardList, Shardable};

/// A plan that answers its reply beside the shard that it asked for.
pub struct PreserveShard<P: Plan + Shardable>
where
    P::Shard: TryClone,
{
    pub inner: P,
    /// It is set before the start.
    pub shard: Option<P::Shard>,
}

impl<P: Plan + Shardable> Drop for PreserveShard<P>
where
    P::Shard: TryClone,
{
    fn drop(self) {
        let PreserveShard { inner, shard } = self;
        drop(inner);
        drop(shard);
    }
}

impl<P: Plan + Shardable> PreserveShard<P>
where
    P::Shard: TryClone,
{
    fn beside(
        &self,
        answer: txn_kv::Result<P::Result>,
    ) -> txn_kv::Result<ResponseWithShard<P::Result, P::Shard>>
        requires { IsSome self.now.shard }
        ensures { IsPreserved self.now.shard answer result }
    {
        let response = answer?;
        match self.shard.as_ref().unwrap().try_clone() {
            Ok(shard) => Ok(ResponseWithShard(response, shard)),
            Err(NoMemory) => Err(Error::OutOfMemory),
        }
    }

    fn read(
        &self,
        turn: Result<Progress<P::Result>, NoMemory>,
    ) -> Result<Progress<ResponseWithShard<P::Result, P::Shard>>, NoMemory>
        requires { IsSome self.now.shard }
        ensures { IsRead (IsPreserved self.now.shard) (turn_of turn) (turn_of result) }
    {
        match turn? {
            Progress::Waiting => Ok(Progress::Waiting),
            Progress::Done(answer) => Ok(Progress::Done(self.beside(answer))),
        }
    }
}

impl<P: Plan + Shardable> Plan for PreserveShard<P>
where
    P::Shard: TryClone,
{
    type Result = ResponseWithShard<P::Result, P::Shard>;

    ghost meaning = { preserved P.meaning };

    ghost touches = { λ touch told from old new pd pd'. P.touches touch told from old.inner new.inner pd pd' };

    fn try_clone(&self) -> Result<Self, NoMemory> {
        let inner = self.inner.try_clone()?;
        let shard = match &self.shard {
            Some(shard) => Some(shard.try_clone()?),
            None => None,
        };
        Ok(PreserveShard { inner, shard })
    }

    fn start<C: PdClient>(
        &mut self,
        pd: &mut C,
        now: u64,
        out: &mut Outbox,
    ) -> Result<Progress<ResponseWithShard<P::Result, P::Shard>>, NoMemory> {
        let turn = self.inner.start(pd, now, out);
        self.read(turn)
    }

    fn tell<C: PdClient>(
        &mut self,
        pd: &mut C,
        now: u64,
        arrival: Arrival,
        out: &mut Outbox,
    ) -> Result<Progress<ResponseWithShard<P::Result, P::Shard>>, NoMemory> {
        let turn = self.inner.tell(pd, now, arrival, out);
        self.read(turn)
    }

    ghost lawful = { preserved-lawful P.meaning P.lawful };
}
