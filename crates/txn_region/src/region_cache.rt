ghost use Rattle.std.specs.Prelude.{◌≡◌, ◌++◌, ◌∷◌, [], true, false, None, OnOk, OnErr, IfOk, IfErr, MatchOption, not, nat_eq};
ghost use Rattle.std.specs.List.{filter, list_any};
ghost use Rattle.txn_kv.specs.Region.{contains_key};
ghost use Rattle.txn_kv.specs.declared.errors.Error.TheVariants.{OutOfMemory};
ghost use Rattle.txn_kv.specs.declared.query.PdQuery.TheVariants as query;
ghost use Rattle.txn_region.specs.Regions.{region_refusal, AreApart, HaveEpochs, IsSoundAt, IsSoundOf};
ghost use Rattle.txn_region.specs.Stores.{valid_stores};
ghost use Rattle.txn_region.specs.Calls.{AreDisjoint};
ghost use Rattle.txn_region.specs.Cache.{after_look_by_id, answer_refusal, cleared, empty, is_pending, is_spent, learnt, look_at_store, look_by_id, look_by_key, or_elsewhere, with_known, with_leader, with_region, without_region, IsGivenUp, IsLearnt, IsRefusal, IsRegionRefusal, IsSoundLook};

use crate::heads::Head;
use crate::known_store::KnownStore;
use crate::starts::Starts;
use crate::{sorted, stores};
use std::alloc::Global;
use std::marker::Model;
use txn_kv::{
    Error, Internal, Key, Look, NoMemory, PdAnswer, PdQuery, Peer, Region, RegionId, RegionVerId,
    RegionWithLeader, Result, StoreId, StoreMeta, TryClone,
};

/// How often a call waits for another's look-up of the same region.
const MAX_WAITS: u32 = 5;

/// What a client believes of regions and stores. A call that is refused, also for want of memory, adds and drops nothing.
pub struct RegionCache {
    regions: Vec<RegionWithLeader>,
    heads: Vec<Option<Head>>,
    starts: Starts,
    stores: Vec<KnownStore>,
    pending: Vec<RegionId>,
    alloc: Global,
}

impl Drop for RegionCache {
    fn drop(self) {
        let RegionCache {
            regions,
            heads,
            starts,
            stores,
            pending,
            alloc: _,
        } = self;
        drop(regions);
        drop(heads);
        drop(starts);
        drop(stores);
        drop(pending);
    }
}

impl Model for RegionCache {
    ghost use Rattle.txn_region.specs.Cache.{Cache};
    ghost use Rattle.txn_region.specs.Heads.{AreHeadsOf};
    ghost use Rattle.txn_region.specs.Regions.{AreKept};
    ghost use Rattle.txn_region.specs.Starts.{AreStartsOf};

    ghost Value = { Cache };

    ghost view = { λ c. record { regions = c.regions.items; stores = c.stores.items; pending = c.pending.items } };

    ghost invariant = { λ c. AreKept c.regions.items × AreHeadsOf c.heads.items c.regions.items × AreStartsOf c.starts c.regions.items };
}

impl RegionCache {
    /// Takes no memory.
    pub fn new(alloc: Global) -> RegionCache
        ensures { result ≡ empty }
    {
        RegionCache {
            regions: Vec::new(alloc),
            heads: Vec::new(alloc),
            starts: Starts::new(alloc),
            stores: Vec::new(alloc),
            pending: Vec::new(alloc),
            alloc,
        }
    }

    /// The cached regions, in ascending order of their starts. Takes no memory.
    pub fn regions(&self) -> &[RegionWithLeader]
        ensures regions { result.now ≡ self.now.regions }
        ensures ascending { AreApart result.now }
        ensures disjoint { AreDisjoint result.now }
        ensures epochs { HaveEpochs result.now }
    {
        self.regions.as_slice()
    }

    /// The region that contains a key, by binary search, or the query for it.
    pub fn get_region_by_key(&mut self, key: &Key) -> Result<Look<RegionWithLeader>>
        ensures ok { IfOk result (λ look. look ≡ look_by_key key.now self.old) }
        ensures sound { IfOk result (IsSoundLook (IsSoundAt key.now)) }
        ensures why { IfErr result (λ error. error ≡ OutOfMemory) }
        ensures same { self.new ≡ self.old }
    {
        match sorted::find_by_key(self.regions.as_slice(), self.heads.as_slice(), key) {
            Some(region) => Ok(Look::Found(region.try_clone()?)),
            None => Ok(Look::Query(PdQuery::Region(key.try_clone()?))),
        }
    }

    /// The region of an id, or the query for it, which is then out until `learn` is told of an answer. While another
    /// call's query is out it answers `Wait`, and gives up after five waits.
    pub fn get_region_by_id(&mut self, id: RegionId, waited: u32) -> Result<Look<RegionWithLeader>>
        ensures ok { IfOk result (λ look. look ≡ look_by_id id self.old) }
        ensures sound { IfOk result (IsSoundLook (IsSoundOf id)) }
        ensures in_time { OnOk result (is_spent id waited self.old ≡ false) }
        ensures asked { OnOk result (self.new ≡ after_look_by_id id self.old) }
        ensures err { OnErr result (self.new ≡ self.old) }
        ensures why { IfErr result (IsGivenUp (is_spent id waited self.old)) }
    {
        let heads = self.heads.as_slice();
        if let Some(region) = sorted::find_by_id(self.regions.as_slice(), heads, &self.starts, id) {
            return Ok(Look::Found(region.try_clone()?));
        }
        if !is_among(self.pending.as_slice(), id) {
            push_pending(&mut self.pending, id)?;
            return Ok(Look::Query(PdQuery::RegionId(id)));
        }
        if waited >= MAX_WAITS {
            return Err(given_up(self.alloc));
        }
        Ok(Look::Wait)
    }

    /// The store of an id, or the query for it.
    pub fn get_store_by_id(&mut self, id: StoreId) -> Result<Look<StoreMeta>>
        ensures ok { IfOk result (λ look. look ≡ look_at_store id self.old) }
        ensures why { IfErr result (λ error. error ≡ OutOfMemory) }
        ensures same { self.new ≡ self.old }
    {
        match stores::find_store(self.stores.as_slice(), id) {
            Some(known) => Ok(Look::Found(known.store.try_clone()?)),
            None => Ok(Look::Query(PdQuery::Store(id))),
        }
    }

    /// The query for the region of a key, whatever is cached.
    pub fn read_through_region_by_key(&mut self, key: Key) -> PdQuery
        ensures query { result ≡ query.Region key }
        ensures same { self.new ≡ self.old }
    {
        PdQuery::Region(key)
    }

    /// The query for all stores, whatever is known.
    pub fn read_through_all_stores(&mut self) -> PdQuery
        ensures query { result ≡ query.Stores }
        ensures same { self.new ≡ self.old }
    {
        PdQuery::Stores
    }

    /// Takes the answer to a query. An error is passed on. A refusal adds and drops nothing, but the query is not out any more.
    pub fn learn(&mut self, query: &PdQuery, answer: &Result<PdAnswer>) -> Result<()>
        ensures ok { OnOk result (IsLearnt query.now answer.now self.old self.new) }
        ensures err { OnErr result (self.new ≡ cleared query.now self.old) }
        ensures why { IfErr result (IsRefusal query.now answer.now) }
    {
        self.clear(query);
        match answer {
            Ok(answer) => self.take_answer(query, answer),
            Err(error) => Err(error.try_clone()?),
        }
    }

    fn clear(&mut self, query: &PdQuery)
        ensures { self.new ≡ cleared query.now self.old }
    {
        if let PdQuery::RegionId(id) = query {
            drop_pending(&mut self.pending, *id);
        }
    }

    fn take_answer(&mut self, query: &PdQuery, answer: &PdAnswer) -> Result<()>
        ensures ok { OnOk result (self.new ≡ learnt query.now answer.now self.old) }
        ensures taken { OnOk result (answer_refusal query.now answer.now ≡ None) }
        ensures err { OnErr result (self.new ≡ self.old) }
        ensures why { IfErr result (λ error. MatchOption (answer_refusal query.now answer.now) (error ≡ OutOfMemory) (λ refusal. error ≡ refusal)) }
    {
        match (query, answer) {
            (PdQuery::Region(key), PdAnswer::Region(region)) => {
                self.take_region(region, region.contains(key), region.id())
            }
            (PdQuery::RegionId(id), PdAnswer::Region(region)) => {
                self.take_region(region, region.id() == *id, *id)
            }
            (PdQuery::Store(id), PdAnswer::Store(store)) => Ok(self.take_store(*id, store)?),
            (PdQuery::Stores, PdAnswer::Stores(all)) => Ok(self.take_stores(all.as_slice())?),
            (PdQuery::Time, PdAnswer::Time(_)) => Ok(()),
            (PdQuery::Safepoint(_), PdAnswer::Safepoint(_)) => Ok(()),
            _ => Err(Error::InternalError {
                what: Internal::WrongReply,
            }),
        }
    }

    fn take_region(
        &mut self,
        region: &RegionWithLeader,
        asked_for: bool,
        id: RegionId,
    ) -> Result<()>
        ensures ok { OnOk result (self.new ≡ with_region region.now self.old) }
        ensures taken { OnOk result (or_elsewhere (region_refusal region.now.region) asked_for id ≡ None) }
        ensures err { OnErr result (self.new ≡ self.old) }
        ensures why { IfErr result (λ error. MatchOption (or_elsewhere (region_refusal region.now.region) asked_for id) (error ≡ OutOfMemory) (λ refusal. error ≡ refusal)) }
    {
        refuse(&region.region)?;
        if !asked_for {
            return Err(Error::RegionNotFoundInResponse { region_id: id });
        }
        self.add_region(region.try_clone()?)
    }

    fn take_store(&mut self, id: StoreId, store: &StoreMeta) -> std::result::Result<(), NoMemory>
        ensures ok { OnOk result (self.new ≡ with_known (record { id = id; store = store.now } ∷ []) self.old) }
        ensures err { OnErr result (self.new ≡ self.old) }
    {
        let mut new = Vec::new(self.alloc);
        new.push(KnownStore {
            id,
            store: store.try_clone()?,
        })?;
        stores::put_stores(&mut self.stores, new)
    }

    fn take_stores(&mut self, all: &[StoreMeta]) -> std::result::Result<(), NoMemory>
        ensures ok { OnOk result (self.new ≡ with_known (valid_stores all.now) self.old) }
        ensures err { OnErr result (self.new ≡ self.old) }
    {
        let new = stores::copy_valid_stores(self.alloc, all)?;
        stores::put_stores(&mut self.stores, new)
    }

    /// Caches a region in place of those that it meets and of the one of its id. A refusal changes nothing.
    pub fn add_region(&mut self, region: RegionWithLeader) -> Result<()>
        ensures ok { OnOk result (self.new ≡ with_region region self.old) }
        ensures taken { OnOk result (region_refusal region.region ≡ None) }
        ensures err { OnErr result (self.new ≡ self.old) }
        ensures why { IfErr result (IsRegionRefusal region) }
    {
        refuse(&region.region)?;
        sorted::put_region(&mut self.regions, &mut self.heads, &mut self.starts, region)?;
        Ok(())
    }

    /// Sets the leader of the region of an id at an epoch, where it is cached. Takes no memory.
    pub fn update_leader(&mut self, ver_id: &RegionVerId, leader: Peer)
        ensures { self.new ≡ with_leader ver_id.now leader self.old }
    {
        let heads = self.heads.as_slice();
        sorted::lead(&mut self.regions, heads, &self.starts, ver_id, leader);
    }

    /// Drops the region of an id at an epoch, where it is cached. Takes no memory.
    pub fn invalidate_region_cache(&mut self, ver_id: &RegionVerId)
        ensures { self.new ≡ without_region ver_id.now self.old }
    {
        sorted::drop_ver_id(&mut self.regions, &mut self.heads, &mut self.starts, ver_id);
    }
}

fn is_among(pending: &[RegionId], id: RegionId) -> bool
    ensures { result ≡ list_any (λ p. nat_eq p id) pending.now }
{
    for waiting in pending {
        if *waiting == id {
            return true;
        }
    }
    false
}

fn push_pending(pending: &mut Vec<RegionId>, id: RegionId) -> std::result::Result<(), NoMemory>
    ensures ok { OnOk result (pending.new.items ≡ pending.old.items ++ id ∷ []) }
    ensures err { OnErr result (pending.new.items ≡ pending.old.items) }
{
    pending.push(id)?;
    Ok(())
}

fn drop_pending(pending: &mut Vec<RegionId>, id: RegionId)
    ensures { pending.new.items ≡ filter (λ p. not (nat_eq p id)) pending.old.items }
{
    pending.retain(|waiting| *waiting != id);
}

fn given_up(alloc: Global) -> Error
    ensures { IsGivenUp true result }
{
    match String::from_str(
        alloc,
        "another look-up of the region was waited for five times",
    ) {
        Ok(message) => Error::StringError(message),
        Err(_) => Error::OutOfMemory,
    }
}

/// Why a region is not kept, if there is a reason.
fn refuse(region: &Region) -> Result<()>
    ensures ok { OnOk result (region_refusal region.now ≡ None) }
    ensures why { IfErr result (λ error. MatchOption (region_refusal region.now) ⊥ (λ refusal. error ≡ refusal)) }
{
    if !sorted::is_below(&region.start_key, &region.end_key) {
        return Err(Error::InternalError {
            what: Internal::ReversedRegion { id: region.id },
        });
    }
    match region.region_epoch {
        Some(_) => Ok(()),
        None => Err(Error::InternalError {
            what: Internal::NoEpoch { id: region.id },
        }),
    }
}
