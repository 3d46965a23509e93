//! The look-up of all stores.
ghost use Rattle.std.specs.Prelude.{◌≡◌, ⊤, IfErr, IfOk, map};
ghost use Rattle.txn_history.specs.Arrivals.{arrives};
ghost use Rattle.txn_history.specs.Meaning.{IsUnbegun};
ghost use Rattle.txn_history.specs.Posted.{HasNumbers, Posted};
ghost use Rattle.txn_history.specs.Steps.{begins, Steps};
ghost use Rattle.txn_history.specs.Turn.{turn_of};
ghost use Rattle.txn_history.specs.Turn.Turn.{Ends, Stopped, Waits};
ghost use Rattle.txn_kv.specs.declared.query.PdQuery.TheVariants as query;
ghost use Rattle.txn_plan.specs.LookUp.{call_waits, looked_up, AwaitsLast};
ghost use Rattle.txn_region.specs.Clients.{IsRefused, OrStarved};
ghost use Rattle.txn_search.specs.Search.{Holds, IsOut};
ghost use Rattle.txn_stores.specs.Search.{searching, stores_in, IsHeard, IsRefusal, IsSearched, IsStoresQuery, SearchesOn};
ghost use Rattle.txn_tso.specs.Placement.{fresh};

use std::alloc::Global;
use std::mem;
use txn_kv::{
    Arrival, Error, Internal, NoMemory, Outbox, PdAnswer, PdQuery, Progress, Result, StoreMeta,
};
use txn_region::{PdClient, Store, is_valid_tikv_store};
use txn_search::{SearchStage, pass_over, tell_query};
use txn_tso::PdCall;

/// What an event answers.
type Turn<T> = std::result::Result<Progress<T>, NoMemory>;

/// Asks the placement driver for all stores, and answers those that transactions are sent to, in the order of its answer. The
/// driver is asked anew, whatever the client knows.
pub struct StoreSearch {
    stage: SearchStage,
    alloc: Global,
}

impl Drop for StoreSearch {
    fn drop(self) {
        let StoreSearch { stage, alloc: _ } = self;
        drop(stage);
    }
}

impl StoreSearch {
    /// Nothing is asked yet. Takes no memory.
    pub fn new(alloc: Global) -> StoreSearch
        ensures value { result ≡ record { stage = SearchStage.Fresh; alloc = alloc } }
        ensures unbegun { IsUnbegun searching result }
        ensures ready { IsOut IsStoresQuery result.stage }
    {
        StoreSearch {
            stage: SearchStage::Fresh,
            alloc,
        }
    }

    /// A search that was started has no copy: it is refused as if for want of memory.
    pub fn copy(&self) -> std::result::Result<StoreSearch, NoMemory>
        ensures { IfOk result (λ copy. copy ≡ self.now) }
    {
        if !self.stage.is_fresh() {
            return Err(NoMemory);
        }
        Ok(StoreSearch::new(self.alloc))
    }

    /// Begins. Nothing is said of what it makes of the client.
    pub fn start<C: PdClient>(&mut self, pd: &mut C, now: u64, out: &mut Outbox) -> Turn<Vec<Store>>
        requires ready { IsOut IsStoresQuery self.old.stage }
        requires numbers { HasNumbers out.old }
        ensures { Steps searching (λ told from old new x y. ⊤) begins self.old self.new out.old out.new pd.old pd.new (turn_of result) }
    {
        if self.stage.is_fresh() {
            self.stage = SearchStage::Stopped;
            self.ask(pd, now, out)
        } else {
            self.stage.stay()
        }
    }

    /// Takes what came. It never waits for a timestamp.
    pub fn tell<C: PdClient>(
        &mut self,
        pd: &mut C,
        now: u64,
        arrival: Arrival,
        out: &mut Outbox,
    ) -> Turn<Vec<Store>>
        requires ready { IsOut IsStoresQuery self.old.stage }
        requires numbers { HasNumbers out.old }
        ensures { Steps searching (λ told from old new x y. ⊤) (arrives arrival out.old) self.old self.new out.old out.new pd.old pd.new (turn_of result) }
    {
        match self.stage.take(&arrival) {
            Some(call) => {
                let mut call = call;
                let turn = tell_query(&mut call, pd.retry_client(), now, arrival, out);
                self.hear(call, turn, pd, out)
            }
            None => {
                drop(arrival);
                self.stage.stay()
            }
        }
    }

    /// Sends the look-up.
    fn ask<C: PdClient>(&mut self, pd: &mut C, now: u64, out: &mut Outbox) -> Turn<Vec<Store>>
        requires stopped { self.old.stage ≡ SearchStage.Stopped }
        requires numbers { HasNumbers out.old }
        ensures on { SearchesOn (λ h. ⊤) (λ a. ⊥) self.new out.old out.new (turn_of result) }
    {
        let mut call = pd.call(PdQuery::Stores);
        let progress = call.start(pd.retry_client(), now, out)?;
        pass_over(progress);
        self.wait(call, out)
    }

    /// Goes on after an event of the look-up.
    fn hear<C: PdClient>(
        &mut self,
        call: PdCall,
        turn: Turn<PdAnswer>,
        pd: &mut C,
        out: &mut Outbox,
    ) -> Turn<Vec<Store>>
        requires stopped { self.old.stage ≡ SearchStage.Stopped }
        requires query { call.query ≡ query.Stores }
        requires waits { turn_of turn ≡ Waits → AwaitsLast call out.old }
        ensures stops { turn_of turn ≡ Stopped → (turn_of result ≡ Stopped) × (out.new ≡ out.old) }
        ensures on { SearchesOn (λ h. IsHeard call (turn_of turn) out.old h) (call_waits call.stage) self.new out.old out.new (turn_of result) }
    {
        match turn? {
            Progress::Waiting => self.wait(call, out),
            Progress::Done(answer) => self.learn(answer, pd),
        }
    }

    /// The look-up waits for what was posted last.
    fn wait(&mut self, call: PdCall, out: &Outbox) -> Turn<Vec<Store>>
        requires query { call.query ≡ query.Stores }
        requires waits { AwaitsLast call out.now }
        ensures turn { turn_of result ≡ Waits }
        ensures holds { Holds call self.new.stage }
    {
        self.stage.wait(call, out);
        Ok(Progress::Waiting)
    }

    /// The client learns what came of the look-up, and may refuse it.
    fn learn<C: PdClient>(&mut self, answer: Result<PdAnswer>, pd: &mut C) -> Turn<Vec<Store>>
        requires stopped { self.old.stage ≡ SearchStage.Stopped }
        ensures on { (o : Posted) → SearchesOn (λ h. looked_up.gives (fresh query.Stores) h answer) (λ a. ⊥) self.new o o (turn_of result) }
    {
        let learnt = pd.learn(&PdQuery::Stores, &answer);
        match take_stores(self.alloc, answer, learnt) {
            Ok(stores) => self.end(Ok(stores)),
            Err(error) => self.refuse(error),
        }
    }

    /// An error as the answer. Want of memory is none.
    fn refuse(&mut self, error: Error) -> Turn<Vec<Store>>
        requires stopped { self.old.stage ≡ SearchStage.Stopped }
        ensures { IsRefusal error self.new (turn_of result) }
    {
        match &error {
            Error::OutOfMemory => Err(NoMemory),
            _ => self.end(Err(error)),
        }
    }

    fn end(&mut self, answer: Result<Vec<Store>>) -> Turn<Vec<Store>>
        ensures turn { turn_of result ≡ Ends answer }
        ensures stage { self.new.stage ≡ SearchStage.Over }
    {
        self.stage = SearchStage::Over;
        Ok(Progress::Done(answer))
    }
}

/// The stores of an answer that was learnt, or why it was not.
fn take_stores(alloc: Global, answer: Result<PdAnswer>, learnt: Result<()>) -> Result<Vec<Store>>
    requires { IfErr learnt (OrStarved (IsRefused query.Stores answer)) }
    ensures { IsSearched answer result }
{
    learnt?;
    match &mut answer? {
        PdAnswer::Stores(all) => {
            let all = mem::replace(all, Vec::new(alloc));
            Ok(valid_stores(alloc, all)?)
        }
        _ => Err(Error::InternalError {
            what: Internal::WrongReply,
        }),
    }
}

/// Those of all stores that transactions are sent to.
fn valid_stores(alloc: Global, all: Vec<StoreMeta>) -> std::result::Result<Vec<Store>, NoMemory>
    ensures { IfOk result (λ stores. map (λ store. store.id) stores.items ≡ stores_in all.items) }
{
    let mut stores = Vec::new(alloc);
    for meta in all {
        if is_valid_tikv_store(&meta) {
            stores.push(Store::new(meta.id))?;
        }
    }
    Ok(stores)
}
