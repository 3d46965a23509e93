//! A plan whose request is being cut into shards.
ghost use Rattle.std.specs.List.{All};
ghost use Rattle.std.specs.Prelude.{◌≡◌, ◌≤◌, ◌++◌, ◌∷◌, [], ⊤, IfErr, IfOk, IfSome, None, Ok, OnOk, false, length, map};
ghost use Rattle.txn_history.specs.Arrivals.{arrives};
ghost use Rattle.txn_history.specs.Meaning.{started, Counts, Goes, IsUnbegun, Tells};
ghost use Rattle.txn_history.specs.Moves.{Knows};
ghost use Rattle.txn_history.specs.Phase.Phase.{Fresh};
ghost use Rattle.txn_history.specs.Posted.{HasNumbers, Posted};
ghost use Rattle.txn_history.specs.Turn.{turn_of, IfEnds, IfKept};
ghost use Rattle.txn_history.specs.Turn.Turn.{Ends, Stopped, Waits};
ghost use Rattle.txn_kv.specs.declared.errors.Error.TheVariants.{OutOfMemory};
ghost use Rattle.txn_multi.specs.Cutting.{cutting, AreApplied, AreUsable, AreWithin, IfParts, IsLookUpRefused};
ghost use Rattle.txn_multi.specs.Searching.{LooksOn, SearchSteps};
ghost use Rattle.txn_plan.specs.LookUp.{call_waits, looked_up, AwaitsLast};
ghost use Rattle.txn_plan.specs.Touch.{touch};
ghost use Rattle.txn_region.specs.Clients.{IsPlaceQuery, IsUsable, OrStarved};
ghost use Rattle.txn_search.specs.Search.{search_phase, Holds, IsOut, Seeks};
ghost use Rattle.txn_shard.specs.Shards.{shards_of};
ghost use Rattle.txn_tso.specs.Calling.{CallFits};

use crate::part::Part;
use crate::region_plan::RegionPlan;
use std::alloc::Global;
use std::marker::Model;
use std::mem;
use txn_kv::{Arrival, Error, NoMemory, Outbox, PdAnswer, PdQuery, Progress, Result};
use txn_merge::{HasKeyErrors, HasRegionError};
use txn_plan::ShardPlan;
use txn_region::{PdClient, RegionStore};
use txn_search::{SearchStage, pass_over, tell_query};
use txn_shard::ShardList;
use txn_tso::PdCall;

/// What an event of a state answers.
type Turn<T> = std::result::Result<Progress<T>, NoMemory>;

/// Looks up the regions and stores of a plan's request, one after the other, and makes a plan for each shard. The first
/// look-up that fails is the answer.
pub struct Cutting<P: ShardPlan> {
    plan: P,
    found: ShardList<P::Shard>,
    stage: SearchStage,
    /// How many shards were found so far.
    width: usize,
    alloc: Global,
}

impl<P: ShardPlan> Drop for Cutting<P> {
    fn drop(self) {
        let Cutting {
            plan,
            found,
            stage,
            width: _,
            alloc: _,
        } = self;
        drop(plan);
        drop(found);
        drop(stage);
    }
}

impl<P: ShardPlan> Model for Cutting<P> {
    ghost use Rattle.std.specs.Prelude.{◌≤◌, length};
    ghost use Rattle.txn_multi.specs.Cutting.{Looking};
    ghost use Rattle.txn_region.specs.Clients.{IsPlaceQuery};
    ghost use Rattle.txn_search.specs.Search.{IsOut};

    ghost Value = { Looking P P.Shard };

    ghost view = { λ c. record { plan = c.plan; found = c.found; stage = c.stage; width = c.width } };

    ghost invariant = { λ c. P.IsFound c.plan c.found × (length c.found.shards.items ≤ c.width) × IsOut IsPlaceQuery c.stage };
}

impl<P: RegionPlan> Cutting<P>
where
    P::Result: HasKeyErrors + HasRegionError,
{
    /// Nothing is looked up yet. Takes no memory.
    pub fn new(alloc: Global, plan: P) -> Cutting<P>
        ensures plan { result.plan ≡ plan }
        ensures unbegun { IsUnbegun (cutting P.meaning P.IsPart P.load P.AreCut P.most) result }
    {
        Cutting {
            plan,
            found: ShardList::new(alloc),
            stage: SearchStage::Fresh,
            width: 0,
            alloc,
        }
    }

    /// Looks for the first shards.
    pub fn start<C: PdClient>(
        &mut self,
        pd: &mut C,
        now: u64,
        out: &mut Outbox,
    ) -> Turn<Vec<Part<P>>>
        requires ready { IsUnbegun P.meaning self.old.plan }
        requires numbers { HasNumbers out.old }
        ensures tells { Tells (cutting P.meaning P.IsPart P.load P.AreCut P.most) started self.old self.new out.old out.new (turn_of result) }
        ensures goes { Goes (λ c. search_phase c.stage) (search_phase self.old.stage ≡ Fresh) self.old self.new out.old out.new pd.old pd.new (turn_of result) }
        ensures counts { Counts (cutting P.meaning P.IsPart P.load P.AreCut P.most) false false 0 0 self.old self.new out.old out.new (turn_of result) }
        ensures parts { IfEnds (turn_of result) (IfParts P.meaning P.IsPart P.load P.AreCut P.most self.old.plan) }
        ensures wide { IfEnds (turn_of result) (AreWithin self.new.width) }
        ensures plan { self.new.plan ≡ self.old.plan }
        ensures changed { C.looked pd.old pd.new }
        ensures ready { IsUnbegun P.meaning self.new.plan }
        ensures numbers { HasNumbers out.new }
    {
        if self.stage.is_fresh() {
            self.stage = SearchStage::Stopped;
            self.look(pd, now, out)
        } else {
            self.stage.stay()
        }
    }

    /// Takes what came.
    pub fn tell<C: PdClient>(
        &mut self,
        pd: &mut C,
        now: u64,
        arrival: Arrival,
        out: &mut Outbox,
    ) -> Turn<Vec<Part<P>>>
        requires ready { IsUnbegun P.meaning self.old.plan }
        requires numbers { HasNumbers out.old }
        ensures { SearchSteps P.meaning P.IsPart P.load P.AreCut P.most (touch C.looked C.learns C.leads C.drops) (arrives arrival out.old) self.old self.new out.old out.new pd.old pd.new (turn_of result) }
    {
        match self.stage.take(&arrival) {
            Some(call) => {
                let mut call = call;
                let turn = tell_query(&mut call, pd.retry_client(), now, arrival, out);
                self.hear(call, turn, pd, now, out)
            }
            None => {
                drop(arrival);
                self.stage.stay()
            }
        }
    }

    /// Goes on after an event of the look-up.
    fn hear<C: PdClient>(
        &mut self,
        call: PdCall,
        turn: Turn<PdAnswer>,
        pd: &mut C,
        now: u64,
        out: &mut Outbox,
    ) -> Turn<Vec<Part<P>>>
        requires stopped { self.old.stage ≡ SearchStage.Stopped }
        requires ready { IsUnbegun P.meaning self.old.plan }
        requires place { IsPlaceQuery call.query }
        requires waits { turn_of turn ≡ Waits → AwaitsLast call out.old }
        requires numbers { HasNumbers out.old }
        ensures stops { turn_of turn ≡ Stopped → (turn_of result ≡ Stopped) × (out.new ≡ out.old) }
        ensures on { LooksOn P.meaning P.IsPart P.load P.AreCut P.most (Knows (turn_of turn) (λ h. CallFits call out.old h) (λ h v. looked_up.gives call h v)) (call_waits call.stage) self.old self.new out.old out.new (turn_of result) }
        ensures client { IfKept (turn_of result) (Seeks (touch C.looked C.learns C.leads C.drops) pd.old pd.new) }
    {
        match turn? {
            Progress::Waiting => self.wait(call, out),
            Progress::Done(answer) => self.learn(call, answer, pd, now, out),
        }
    }

    /// The look-up waits for what was posted last.
    fn wait(&mut self, call: PdCall, out: &Outbox) -> Turn<Vec<Part<P>>>
        requires place { IsPlaceQuery call.query }
        requires waits { AwaitsLast call out.now }
        ensures turn { turn_of result ≡ Waits }
        ensures holds { Holds call self.new.stage }
        ensures state { self.new ≡ record self.old { stage = self.new.stage } }
    {
        self.stage.wait(call, out);
        Ok(Progress::Waiting)
    }

    /// Takes what came of a look-up, and looks for more shards.
    fn learn<C: PdClient>(
        &mut self,
        call: PdCall,
        answer: Result<PdAnswer>,
        pd: &mut C,
        now: u64,
        out: &mut Outbox,
    ) -> Turn<Vec<Part<P>>>
        requires stopped { self.old.stage ≡ SearchStage.Stopped }
        requires ready { IsUnbegun P.meaning self.old.plan }
        requires place { IsPlaceQuery call.query }
        requires numbers { HasNumbers out.old }
        ensures on { LooksOn P.meaning P.IsPart P.load P.AreCut P.most (λ h. looked_up.gives call h answer) (λ a. ⊥) self.old self.new out.old out.new (turn_of result) }
        ensures client { IfKept (turn_of result) (Seeks (touch C.looked C.learns C.leads C.drops) pd.old pd.new) }
    {
        match pd.learn(call.query(), &answer) {
            Ok(()) => self.look(pd, now, out),
            Err(error) => self.refuse(error),
        }
    }

    /// Looks for the next shards.
    fn look<C: PdClient>(&mut self, pd: &mut C, now: u64, out: &mut Outbox) -> Turn<Vec<Part<P>>>
        requires stopped { self.old.stage ≡ SearchStage.Stopped }
        requires ready { IsUnbegun P.meaning self.old.plan }
        requires numbers { HasNumbers out.old }
        ensures on { LooksOn P.meaning P.IsPart P.load P.AreCut P.most (λ h. ⊤) (λ a. ⊥) self.old self.new out.old out.new (turn_of result) }
        ensures changed { C.looked pd.old pd.new }
    {
        match self.find(pd) {
            Ok(Some(query)) => self.ask(query, pd, now, out),
            Ok(None) => self.end(),
            Err(error) => self.refuse(error),
        }
    }

    /// Finds as many shards as are known, and then the query that has to be asked.
    fn find<C: PdClient>(&mut self, pd: &mut C) -> Result<Option<PdQuery>>
        ensures same { (self.new.plan ≡ self.old.plan) × (self.new.stage ≡ self.old.stage) }
        ensures wider { self.old.width ≤ self.new.width }
        ensures all { result ≡ Ok None → P.AreCut (P.load self.old.plan) (map P.load_of (shards_of self.new.found)) }
        ensures usable { AreUsable self.new.found }
        ensures place { IfOk result (λ query. IfSome query IsPlaceQuery) }
        ensures why { IfErr result (λ error. error ≡ OutOfMemory) }
        ensures changed { C.looked pd.old pd.new }
    {
        let query = self.plan.shards(self.alloc, pd, &mut self.found);
        self.width = self.width.max(self.found.shards.len());
        query
    }

    /// Sends a look-up.
    fn ask<C: PdClient>(
        &mut self,
        query: PdQuery,
        pd: &mut C,
        now: u64,
        out: &mut Outbox,
    ) -> Turn<Vec<Part<P>>>
        requires stopped { self.old.stage ≡ SearchStage.Stopped }
        requires place { IsPlaceQuery query }
        requires numbers { HasNumbers out.old }
        ensures on { LooksOn P.meaning P.IsPart P.load P.AreCut P.most (λ h. ⊤) (λ a. ⊥) self.old self.new out.old out.new (turn_of result) }
        ensures changed { C.looked pd.old pd.new }
    {
        let mut call = pd.call(query);
        let progress = call.start(pd.retry_client(), now, out)?;
        pass_over(progress);
        self.wait(call, out)
    }

    /// All shards are found.
    fn end(&mut self) -> Turn<Vec<Part<P>>>
        requires stopped { self.old.stage ≡ SearchStage.Stopped }
        requires ready { IsUnbegun P.meaning self.old.plan }
        requires all { P.AreCut (P.load self.old.plan) (map P.load_of (shards_of self.old.found)) }
        requires usable { AreUsable self.old.found }
        ensures on { (o : Posted) → LooksOn P.meaning P.IsPart P.load P.AreCut P.most (λ h. ⊤) (λ a. ⊥) self.old self.new o o (turn_of result) }
    {
        let found = mem::replace(&mut self.found, ShardList::new(self.alloc));
        match parts_of(self.alloc, &self.plan, found.shards) {
            Ok(parts) => self.answer(Ok(parts)),
            Err(error) => self.refuse(error),
        }
    }

    /// An error as the answer. Want of memory is none.
    fn refuse(&mut self, error: Error) -> Turn<Vec<Part<P>>>
        requires stopped { self.old.stage ≡ SearchStage.Stopped }
        ensures on { (o : Posted) → LooksOn P.meaning P.IsPart P.load P.AreCut P.most (λ h. OrStarved (IsLookUpRefused h) error) (λ a. ⊥) self.old self.new o o (turn_of result) }
        ensures kept { IfKept (turn_of result) (error ≡ OutOfMemory → ⊥) }
    {
        match &error {
            Error::OutOfMemory => Err(NoMemory),
            _ => self.answer(Err(error)),
        }
    }

    fn answer(&mut self, answer: Result<Vec<Part<P>>>) -> Turn<Vec<Part<P>>>
        ensures turn { turn_of result ≡ Ends answer }
        ensures state { self.new ≡ record self.old { stage = SearchStage.Over } }
    {
        self.stage = SearchStage::Over;
        Ok(Progress::Done(answer))
    }
}

/// A plan for each shard.
fn parts_of<P: ShardPlan>(
    alloc: Global,
    plan: &P,
    shards: Vec<(P::Shard, RegionStore)>,
) -> Result<Vec<Part<P>>>
    requires unbegun { IsUnbegun P.meaning plan.now }
    requires usable { All (λ f. IsUsable f.1.region_with_leader) shards.items }
    ensures parts { IfOk result (λ parts. AreApplied P.Applies plan.now shards.items parts.items) }
    ensures why { IfErr result (λ error. error ≡ OutOfMemory) }
{
    let mut parts = Vec::new(alloc);
    for (shard, store) in shards {
        push(&mut parts, part_of(plan, shard, &store)?)?;
    }
    Ok(parts)
}

fn push<T: Drop>(items: &mut Vec<T>, item: T) -> std::result::Result<(), NoMemory>
    ensures { OnOk result (items.new.items ≡ items.old.items ++ item ∷ []) }
{
    items.push(item)?;
    Ok(())
}

#[tactic(auto, using(txn_region::specs::Refusals::has_context, txn_region::specs::Refusals::has_version))]
fn part_of<P: ShardPlan>(plan: &P, shard: P::Shard, store: &RegionStore) -> Result<Part<P>>
    requires unbegun { IsUnbegun P.meaning plan.now }
    requires usable { IsUsable store.now.region_with_leader }
    ensures part { IfOk result (λ part. P.Applies plan.now shard store.now part.plan) }
    ensures why { IfErr result (λ error. error ≡ OutOfMemory) }
{
    let mut part = plan.try_clone()?;
    part.apply_shard(shard, store)?;
    let region = store.region_with_leader.ver_id()?;
    Ok(Part { plan: part, region })
}
