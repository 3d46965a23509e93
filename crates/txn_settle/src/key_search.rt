//! The look-up of a key's place.
ghost use Rattle.std.specs.Prelude.{◌≡◌, ⊤, false};
ghost use Rattle.txn_history.specs.Meaning.{IsUnbegun};
ghost use Rattle.txn_history.specs.Moves.{Knows};
ghost use Rattle.txn_history.specs.Posted.{HasNumbers};
ghost use Rattle.txn_history.specs.Turn.{turn_of, failing, IfKept};
ghost use Rattle.txn_history.specs.Turn.Turn.{Ends, Waits};
ghost use Rattle.txn_plan.specs.LookUp.{call_waits, looked_up, AwaitsLast};
ghost use Rattle.txn_plan.specs.Touch.{touch};
ghost use Rattle.txn_region.specs.Clients.{IsPlaceQuery};
ghost use Rattle.txn_search.specs.Search.{Holds, IsOut, Seeks};
ghost use Rattle.txn_settle.specs.Search.{searching, searching-lawful, IsRefusal, SearchesOn, UnlessStopped};
ghost use Rattle.txn_tso.specs.Calling.{CallFits};
ghost use Rattle.txn_tso.specs.Counting.{is_loss};

use crate::place::Place;
use std::marker::PhantomData;
use txn_kv::{Arrival, Error, Key, Look, NoMemory, Outbox, PdAnswer, PdQuery, Progress, Result};
use txn_plan::Plan;
use txn_region::PdClient;
use txn_search::{SearchStage, pass_over, tell_query};
use txn_tso::PdCall;

/// What an event answers.
type Turn<T> = std::result::Result<Progress<T>, NoMemory>;

/// Finds the place of a key, as the client knows it. What the client does not know it asks the placement driver, one query
/// after the other. The first query that fails is the answer.
pub struct KeySearch<T: Place> {
    key: Key,
    stage: SearchStage,
    of: PhantomData<T>,
}

impl<T: Place> Drop for KeySearch<T> {
    fn drop(self) {
        let KeySearch { key, stage, of: _ } = self;
        drop(key);
        drop(stage);
    }
}

impl<T: Place> KeySearch<T> {
    /// Nothing is asked yet. Takes no memory.
    pub fn new(key: Key) -> KeySearch<T>
        ensures key { result.key ≡ key }
        ensures unbegun { IsUnbegun (searching T.is_of) result }
        ensures ready { IsOut IsPlaceQuery result.stage }
    {
        KeySearch {
            key,
            stage: SearchStage::Fresh,
            of: PhantomData,
        }
    }

    /// The key.
    pub fn key(&self) -> &Key
        ensures { result.now ≡ self.now.key }
    {
        &self.key
    }

    /// Looks for the place, and asks what is not known of it.
    fn look<C: PdClient>(&mut self, pd: &mut C, now: u64, out: &mut Outbox) -> Turn<T>
        requires stopped { self.old.stage ≡ SearchStage.Stopped }
        requires numbers { HasNumbers out.old }
        ensures on { SearchesOn T.is_of (λ h. ⊤) (λ a. ⊥) false self.old self.new out.old out.new (turn_of result) }
        ensures changed { C.looked pd.old pd.new }
    {
        match T::look(pd, &self.key) {
            Ok(Look::Found(place)) => self.end(Ok(place)),
            Ok(Look::Query(query)) => self.ask(query, pd, now, out),
            Ok(Look::Wait) => unreachable!(),
            Err(error) => {
                drop(error);
                Err(NoMemory)
            }
        }
    }

    /// Sends a query.
    fn ask<C: PdClient>(
        &mut self,
        query: PdQuery,
        pd: &mut C,
        now: u64,
        out: &mut Outbox,
    ) -> Turn<T>
        requires stopped { self.old.stage ≡ SearchStage.Stopped }
        requires place { IsPlaceQuery query }
        requires numbers { HasNumbers out.old }
        ensures on { SearchesOn T.is_of (λ h. ⊤) (λ a. ⊥) false self.old self.new out.old out.new (turn_of result) }
        ensures changed { C.looked pd.old pd.new }
    {
        let mut call = pd.call(query);
        let progress = call.start(pd.retry_client(), now, out)?;
        pass_over(progress);
        self.wait(call, out)
    }

    /// Goes on after an event of the query.
    fn hear<C: PdClient>(
        &mut self,
        call: PdCall,
        turn: Turn<PdAnswer>,
        pd: &mut C,
        now: u64,
        out: &mut Outbox,
    ) -> Turn<T>
        requires stopped { self.old.stage ≡ SearchStage.Stopped }
        requires place { IsPlaceQuery call.query }
        requires waits { turn_of turn ≡ Waits → AwaitsLast call out.old }
        requires numbers { HasNumbers out.old }
        ensures on { SearchesOn T.is_of (Knows (turn_of turn) (λ h. CallFits call out.old h) (λ h v. looked_up.gives call h v)) (call_waits call.stage) (failing is_loss (turn_of turn)) self.old self.new out.old out.new (turn_of result) }
        ensures client { IfKept (turn_of result) (Seeks (touch C.looked C.learns C.leads C.drops) pd.old pd.new) }
    {
        match turn? {
            Progress::Waiting => self.wait(call, out),
            Progress::Done(answer) => self.learn(call, answer, pd, now, out),
        }
    }

    /// The query waits for what was posted last.
    fn wait(&mut self, call: PdCall, out: &Outbox) -> Turn<T>
        requires place { IsPlaceQuery call.query }
        requires waits { AwaitsLast call out.now }
        ensures turn { turn_of result ≡ Waits }
        ensures holds { Holds call self.new.stage }
        ensures state { self.new ≡ record self.old { stage = self.new.stage } }
    {
        self.stage.wait(call, out);
        Ok(Progress::Waiting)
    }

    /// The client learns what came of the query, and the look-up goes on.
    fn learn<C: PdClient>(
        &mut self,
        call: PdCall,
        answer: Result<PdAnswer>,
        pd: &mut C,
        now: u64,
        out: &mut Outbox,
    ) -> Turn<T>
        requires stopped { self.old.stage ≡ SearchStage.Stopped }
        requires place { IsPlaceQuery call.query }
        requires numbers { HasNumbers out.old }
        ensures on { SearchesOn T.is_of (λ h. looked_up.gives call h answer) (λ a. ⊥) (is_loss answer) self.old self.new out.old out.new (turn_of result) }
        ensures client { IfKept (turn_of result) (Seeks (touch C.looked C.learns C.leads C.drops) pd.old pd.new) }
    {
        match pd.learn(call.query(), &answer) {
            Ok(()) => self.look(pd, now, out),
            Err(error) => self.refuse(error),
        }
    }

    /// An error as the answer. Want of memory is none.
    fn refuse(&mut self, error: Error) -> Turn<T>
        requires stopped { self.old.stage ≡ SearchStage.Stopped }
        ensures refusal { IsRefusal error self.new.stage (turn_of result) }
        ensures state { self.new ≡ record self.old { stage = self.new.stage } }
    {
        match &error {
            Error::OutOfMemory => Err(NoMemory),
            _ => self.end(Err(error)),
        }
    }

    fn end(&mut self, answer: Result<T>) -> Turn<T>
        ensures turn { turn_of result ≡ Ends answer }
        ensures state { self.new ≡ record self.old { stage = SearchStage.Over } }
    {
        self.stage = SearchStage::Over;
        Ok(Progress::Done(answer))
    }
}

impl<T: Place> Plan for KeySearch<T> {
    type Result = T;

    ghost meaning = { searching T.is_of };

    ghost touches = { λ touch told from old new pd pd'. UnlessStopped new.stage (Seeks touch pd pd') };

    /// Only a look-up that is not begun is copied.
    fn try_clone(&self) -> std::result::Result<Self, NoMemory> {
        if !self.stage.is_fresh() {
            return Err(NoMemory);
        }
        Ok(KeySearch {
            key: self.key.try_clone()?,
            stage: SearchStage::Fresh,
            of: PhantomData,
        })
    }

    fn start<C: PdClient>(&mut self, pd: &mut C, now: u64, out: &mut Outbox) -> Turn<T> {
        if self.stage.is_fresh() {
            self.stage = SearchStage::Stopped;
            self.look(pd, now, out)
        } else {
            self.stage.stay()
        }
    }

    /// It never waits for a timestamp.
    fn tell<C: PdClient>(
        &mut self,
        pd: &mut C,
        now: u64,
        arrival: Arrival,
        out: &mut Outbox,
    ) -> Turn<T> {
        match self.stage.take(&arrival) {
            Some(call) => {
                let mut call = call;
                let turn = tell_query(&mut call, pd.retry_client(), now, arrival, out);
                self.hear(call, turn, pd, now, out)
            }
            None => {
                drop(arrival);
                self.stage.stay()
            }
        }
    }

    ghost lawful = { searching-lawful T.is_of };
}
