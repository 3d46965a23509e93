ghost use Rattle.std.specs.Prelude.{◌≡◌, ◌≢◌, OnOk, OnErr};
ghost use Rattle.txn_history.specs.Posted.{HasNumbers};
ghost use Rattle.std.specs.Bool.{MatchBool};
ghost use Rattle.txn_history.specs.Meaning.{IsUnbegun};
ghost use Rattle.txn_history.specs.Phase.{unheard};
ghost use Rattle.txn_history.specs.Arrivals.{arrives};
ghost use Rattle.txn_history.specs.Steps.{IsCallable, Steps};
ghost use Rattle.txn_history.specs.Turn.{turn_of, IfEnds};
ghost use Rattle.txn_plan.specs.Dispatch.{dispatch, dispatch-lawful, stage_phase, unsent, IsSentOnce, IsToldBy};

use crate::copy_request::CopyRequest;
use crate::plan::Plan;
use crate::stage::Stage;
use txn_kv::{Arrival, Error, NoMemory, Outbox, Progress, StoreId, Target};
use txn_region::PdClient;

/// Sends one request to one store, once.
pub struct Dispatch<R: CopyRequest> {
    pub request: R,
    /// Where it goes. It is set before the start.
    pub store: Option<StoreId>,
    stage: Stage,
}

impl<R: CopyRequest> Drop for Dispatch<R> {
    fn drop(self) {
        let Dispatch {
            request,
            store,
            stage,
        } = self;
        drop(request);
        drop(store);
        drop(stage);
    }
}

impl<R: CopyRequest> Dispatch<R> {
    /// A request that is not sent yet.
    pub fn new(request: R, store: Option<StoreId>) -> Dispatch<R>
        ensures value { result ≡ unsent request store }
        ensures unbegun { IsUnbegun (dispatch R.request_of R.reply_of) result }
    {
        Dispatch {
            request,
            store,
            stage: Stage::Fresh,
        }
    }

    fn is_fresh(&self) -> bool
        ensures { MatchBool result (self.now.stage ≡ Stage.Fresh) (self.now.stage ≢ Stage.Fresh) }
    {
        matches!(self.stage, Stage::Fresh)
    }

    /// Whether the request is out under this number.
    fn is_out(&self, number: u64) -> bool
        ensures { MatchBool result (self.now.stage ≡ Stage.Sent number) (self.now.stage ≢ Stage.Sent number) }
    {
        match self.stage {
            Stage::Sent(sent) => sent == number,
            _ => false,
        }
    }

    /// What comes of an event that is not for this state.
    fn stay(&self) -> Result<Progress<R::Response>, NoMemory>
        ensures { turn_of result ≡ unheard (stage_phase self.now.stage) }
    {
        match self.stage {
            Stage::Stopped => Err(NoMemory),
            _ => Ok(Progress::Waiting),
        }
    }

    /// Posts the request.
    fn send(&mut self, store: StoreId, out: &mut Outbox) -> Result<(), NoMemory>
        requires { HasNumbers out.old }
        ensures state { self.new ≡ record self.old { stage = self.new.stage } }
        ensures ok { OnOk result (IsSentOnce (R.request_of self.old.request) store self.new.stage out.old out.new) }
        ensures err { OnErr result ((self.new.stage ≡ Stage.Stopped) × (out.new ≡ out.old)) }
        ensures numbers { HasNumbers out.new }
    {
        self.stage = Stage::Stopped;
        let request = self.request.copy()?.into_request();
        let number = out.send(Target::Store(store), request)?;
        self.stage = Stage::Sent(number);
        Ok(())
    }
}

impl<R: CopyRequest> Dispatch<R>
where
    R::Response: Drop,
{
    /// Takes what came. It posts nothing, and answers nothing but what the reply holds that came.
    pub fn hear<C: PdClient>(
        &mut self,
        _pd: &mut C,
        _now: u64,
        arrival: Arrival,
        out: &mut Outbox,
    ) -> Result<Progress<R::Response>, NoMemory>
        requires callable { IsCallable (dispatch R.request_of R.reply_of) self.old out.old _now }
        ensures steps { Steps (dispatch R.request_of R.reply_of) (λ told from old new x y. y ≡ x) (arrives arrival out.old) self.old self.new out.old out.new _pd.old _pd.new (turn_of result) }
        ensures quiet { out.new ≡ out.old }
        ensures told { IfEnds (turn_of result) (IsToldBy R.reply_of arrival) }
    {
        match arrival {
            Arrival::Reply { number, reply } => {
                if !self.is_out(number) {
                    return self.stay();
                }
                self.stage = Stage::Over;
                Ok(Progress::Done(R::response(reply)))
            },
            Arrival::Lost { number } => {
                if !self.is_out(number) {
                    return self.stay();
                }
                self.stage = Stage::Over;
                Ok(Progress::Done(Err(Error::GrpcAPI(out.ticket(number)))))
            },
            Arrival::Slept { number: _ } => self.stay(),
            Arrival::Time { ask: _, answer } => {
                drop(answer);
                self.stay()
            },
        }
    }
}

impl<R: CopyRequest> Plan for Dispatch<R>
where
    R::Response: Drop,
{
    type Result = R::Response;

    ghost meaning = { dispatch R.request_of R.reply_of };

    // It makes no use of the client.
    ghost touches = { λ touch told from old new pd pd'. pd' ≡ pd };

    fn try_clone(&self) -> Result<Self, NoMemory> {
        Ok(Dispatch {
            request: self.request.copy()?,
            store: self.store,
            stage: self.stage,
        })
    }

    fn start<C: PdClient>(
        &mut self,
        _pd: &mut C,
        _now: u64,
        out: &mut Outbox,
    ) -> Result<Progress<R::Response>, NoMemory> {
        if !self.is_fresh() {
            return self.stay();
        }
        self.send(self.store.unwrap(), out)?;
        Ok(Progress::Waiting)
    }

    fn tell<C: PdClient>(
        &mut self,
        pd: &mut C,
        now: u64,
        arrival: Arrival,
        out: &mut Outbox,
    ) -> Result<Progress<R::Response>, NoMemory> {
        self.hear(pd, now, arrival, out)
    }

    ghost lawful = { dispatch-lawful R.request_of R.reply_of };
}
