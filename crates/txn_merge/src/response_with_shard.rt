ghost use Rattle.std.specs.Prelude.{◌≡◌, IfOk};

use txn_kv::{Items, Mutation, NoMemory, PessimisticLockResponse, TryClone};

/// A reply, beside the part of the request that it answers.
#[derive(Debug, Drop)]
pub struct ResponseWithShard<Resp, Shard>(pub Resp, pub Shard);

impl<Resp: TryClone, Shard: TryClone> TryClone for ResponseWithShard<Resp, Shard> {
    fn try_clone(&self) -> Result<ResponseWithShard<Resp, Shard>, NoMemory> {
        Ok(ResponseWithShard(self.0.try_clone()?, self.1.try_clone()?))
    }
}

impl ResponseWithShard<PessimisticLockResponse, Items<Mutation>> {
    /// The same reply beside the same mutations, in new memory.
    pub fn try_clone(
        &self,
    ) -> Result<ResponseWithShard<PessimisticLockResponse, Items<Mutation>>, NoMemory>
        ensures { IfOk result (λ copy. copy ≡ self.now) }
    {
        Ok(ResponseWithShard(self.0.try_clone()?, self.1.try_clone()?))
    }
}
