ghost use Rattle.std.specs.Prelude.{◌≡◌};

use std::marker::Model;
use txn_kv::{Arrival, NoMemory, Outbox, Progress};
use txn_plan::Plan;
use txn_region::PdClient;

/// A plan as one of this crate, which may then keep traits of other crates.
pub struct Own<P> {
    inner: P,
}

impl<P: Drop> Drop for Own<P> {
    fn drop(self) {
        let Own { inner } = self;
        drop(inner);
    }
}

/// It is seen as the plan that it holds.
impl<P> Model for Own<P> {
    ghost Value = { P };

    ghost view = { λ plan. plan.inner };
}

impl<P> Own<P> {
    pub fn new(plan: P) -> Own<P>
        ensures { result ≡ plan }
    {
        Own { inner: plan }
    }

    /// The plan that it holds.
    pub fn plan(&self) -> &P
        ensures { result.now ≡ self.now }
    {
        &self.inner
    }
}

impl<P: Plan> Plan for Own<P> {
    type Result = P::Result;

    ghost meaning = { P.meaning };

    ghost touches = { λ touch told from old new pd pd'. P.touches touch told from old new pd pd' };

    fn try_clone(&self) -> Result<Self, NoMemory> {
        Ok(Own {
            inner: self.inner.try_clone()?,
        })
    }

    fn start<C: PdClient>(
        &mut self,
        pd: &mut C,
        now: u64,
        out: &mut Outbox,
    ) -> Result<Progress<P::Result>, NoMemory> {
        self.inner.start(pd, now, out)
    }

    fn tell<C: PdClient>(
        &mut self,
        pd: &mut C,
        now: u64,
        arrival: Arrival,
        out: &mut Outbox,
    ) -> Result<Progress<P::Result>, NoMemory> {
        self.inner.tell(pd, now, arrival, out)
    }

    ghost lawful = { P.lawful };
}
