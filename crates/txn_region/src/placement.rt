ghost use Rattle.std.specs.Prelude.{◌≡◌, ◌⊎◌, ⊤, Err, IfErr, IfOk, IsOk, MatchOption, MatchResult, None, Ok, OnErr, OnOk, Some, false, is_none, true};
ghost use Rattle.txn_kv.specs.Region.{store_id_of};
ghost use Rattle.txn_kv.specs.declared.errors.Error.TheVariants.{OutOfMemory};
ghost use Rattle.txn_kv.specs.declared.query.PdQuery.TheVariants as query;
ghost use Rattle.txn_kv.specs.declared.region.RegionWithLeader.{RegionWithLeader};
ghost use Rattle.txn_region.specs.Cache.{after_look_by_id, empty, with_leader, without_region};
ghost use Rattle.txn_region.specs.Clients.{IsFoundAt, IsFoundOf, IsPlaceQuery, IsRefused, MatchLook, OrStarved, UnlessStarved};
ghost use Rattle.txn_region.specs.Decoded.{stored_key, IsShownAs};
ghost use Rattle.txn_region.specs.Placement.{without_record, AreGood, IsCachedAs, IsGood, IsJudged, IsSpoilt, IsText, IsUnknown, Learns};
ghost use Rattle.txn_region.specs.Regions.{region_of_id, region_of_key, IsSoundAt, IsSoundOf};

use crate::decoding::decode_region;
use crate::region_cache::RegionCache;
use crate::store::RegionStore;
use std::alloc::Global;
use std::marker::Model;
use txn_kv::{
    Error, Key, Look, PdAnswer, PdQuery, Peer, RegionId, RegionVerId, RegionWithLeader, Result,
    StoreId,
};

/// What a client believes of regions and stores, with keys as the placement driver has them. Each region can be given out: its
/// keys are decoded where they are encoded, and it has a leader.
pub struct Placement {
    cache: RegionCache,
    enable_mvcc_codec: bool,
}

impl Drop for Placement {
    fn drop(self) {
        let Placement {
            cache,
            enable_mvcc_codec: _,
        } = self;
        drop(cache);
    }
}

impl Model for Placement {
    ghost use Rattle.txn_region.specs.Placement.{AreGood, Believed};

    ghost Value = { Believed };

    ghost view = { λ p. record { cache = p.cache; encodes = p.enable_mvcc_codec } };

    ghost invariant = { λ p. AreGood p.enable_mvcc_codec p.cache.regions };
}

/// The region as it is given out.
fn show(region: RegionWithLeader, encodes: bool) -> RegionWithLeader
    requires { IsGood encodes region }
    ensures { IsShownAs encodes region result }
{
    match decode_region(region, encodes) {
        Ok(shown) => shown,
        Err(_) => unreachable!(),
    }
}

/// The region that contains a key as it is stored.
fn find_by_key(
    cache: &mut RegionCache,
    encodes: bool,
    stored: &Key,
) -> Result<Look<RegionWithLeader>>
    requires { AreGood encodes cache.old.regions }
    ensures look { IfOk result (λ look. MatchLook look (λ shown. (r : RegionWithLeader) × IsShownAs encodes r shown × IsGood encodes r × IsSoundAt stored.now r × (region_of_key stored.now cache.old.regions ≡ Some r)) (λ q. (q ≡ query.Region stored.now) × IsUnknown cache.old q) ⊥) }
    ensures why { IfErr result (λ error. error ≡ OutOfMemory) }
    ensures same { cache.new ≡ cache.old }
{
    match cache.get_region_by_key(stored)? {
        Look::Found(region) => Ok(Look::Found(show(region, encodes))),
        Look::Query(query) => Ok(Look::Query(query)),
        Look::Wait => unreachable!(),
    }
}

/// The region of an id.
fn find_by_id(
    cache: &mut RegionCache,
    encodes: bool,
    id: RegionId,
    waited: u32,
) -> Result<Look<RegionWithLeader>>
    requires { AreGood encodes cache.old.regions }
    ensures look { IfOk result (λ look. MatchLook look (λ shown. (r : RegionWithLeader) × IsShownAs encodes r shown × IsGood encodes r × IsSoundOf id r × (region_of_id id cache.old.regions ≡ Some r)) (λ q. (q ≡ query.RegionId id) × IsUnknown cache.old q) ⊤) }
    ensures why { IfErr result (OrStarved IsText) }
    ensures asked { OnOk result (cache.new ≡ after_look_by_id id cache.old) }
    ensures err { OnErr result (cache.new ≡ cache.old) }
{
    match cache.get_region_by_id(id, waited)? {
        Look::Found(region) => Ok(Look::Found(show(region, encodes))),
        Look::Query(query) => Ok(Look::Query(query)),
        Look::Wait => Ok(Look::Wait),
    }
}

/// Drops a region that can not be given out.
fn drop_record(cache: &mut RegionCache, region: &RegionWithLeader)
    ensures { cache.new ≡ without_record region.now cache.old }
{
    if let Ok(ver_id) = region.ver_id() {
        cache.invalidate_region_cache(&ver_id);
    }
}

/// Why a region can not be given out, if there is a reason: its keys are looked at first. Want of memory is one.
fn fault_of(region: &RegionWithLeader, encodes: bool) -> Option<Error>
    ensures { MatchOption result (IsGood encodes region.now) (OrStarved (IsSpoilt encodes region.now)) }
{
    match region.try_clone() {
        Ok(copy) => match decode_region(copy, encodes) {
            Ok(shown) => shown.get_store_id().err(),
            Err(error) => Some(error),
        },
        Err(_) => Some(Error::OutOfMemory),
    }
}

/// Drops the region of an answer again, if it can not be given out.
fn judge_region(cache: &mut RegionCache, encodes: bool, region: &RegionWithLeader) -> Result<()>
    ensures { MatchResult result (λ _. IsGood encodes region.now × (cache.new ≡ cache.old)) (λ error. (cache.new ≡ without_record region.now cache.old) × OrStarved (IsSpoilt encodes region.now) error) }
{
    match fault_of(region, encodes) {
        Some(error) => {
            drop_record(cache, region);
            Err(error)
        }
        None => Ok(()),
    }
}

fn judge(cache: &mut RegionCache, encodes: bool, answer: &PdAnswer) -> Result<()>
    ensures { IsJudged encodes answer.now cache.old result cache.new }
{
    match answer {
        PdAnswer::Region(region) => judge_region(cache, encodes, region),
        PdAnswer::Store(_) => Ok(()),
        PdAnswer::Stores(_) => Ok(()),
        PdAnswer::Time(_) => Ok(()),
        PdAnswer::Safepoint(_) => Ok(()),
    }
}

/// Takes what came of a query.
fn learn_answer(
    cache: &mut RegionCache,
    encodes: bool,
    query: &PdQuery,
    answer: &Result<PdAnswer>,
) -> Result<()>
    requires { AreGood encodes cache.old.regions }
    ensures good { AreGood encodes cache.new.regions }
    ensures ok { OnOk result (IsOk answer.now) }
    ensures why { IfErr result (OrStarved (IsRefused query.now answer.now)) }
    ensures changed { UnlessStarved result (Learns encodes query.now answer.now cache.old cache.new) }
{
    cache.learn(query, answer)?;
    match answer {
        Ok(told) => judge(cache, encodes, told),
        Err(_) => unreachable!(),
    }
}

/// The store of a region, by the id of its leader's store.
fn find_store(
    cache: &mut RegionCache,
    region: RegionWithLeader,
    id: StoreId,
) -> Result<Look<RegionStore>>
    ensures look { IfOk result (λ look. MatchLook look (λ found. (found.region_with_leader ≡ region) × (found.store ≡ id)) (λ q. (q ≡ query.Store id) × IsUnknown cache.new q) ⊥) }
    ensures why { IfErr result (λ error. error ≡ OutOfMemory) }
    ensures same { cache.new ≡ cache.old }
{
    match cache.get_store_by_id(id)? {
        Look::Found(_) => Ok(Look::Found(RegionStore::new(region, id))),
        Look::Query(query) => Ok(Look::Query(query)),
        Look::Wait => unreachable!(),
    }
}

impl Placement {
    /// Nothing is believed yet. Takes no memory.
    pub fn new(alloc: Global, enable_mvcc_codec: bool) -> Placement
        ensures { result ≡ record { cache = empty; encodes = enable_mvcc_codec } }
    {
        Placement {
            cache: RegionCache::new(alloc),
            enable_mvcc_codec,
        }
    }

    /// The region that contains a key, or the query for it, which has the key as the placement driver has it.
    pub fn region_for_key(&mut self, key: &Key) -> Result<Look<RegionWithLeader>>
        ensures look { IfOk result (λ look. MatchLook look (λ shown. IsFoundAt key.now shown × IsCachedAs self.old.encodes (region_of_key (stored_key self.old.encodes key.now) self.old.cache.regions) shown) (λ q. (q ≡ query.Region (stored_key self.old.encodes key.now)) × IsUnknown self.old.cache q) ⊥) }
        ensures why { IfErr result (λ error. error ≡ OutOfMemory) }
        ensures same { self.new ≡ self.old }
    {
        if self.enable_mvcc_codec {
            let stored = key.to_encoded()?;
            return find_by_key(&mut self.cache, true, &stored);
        }
        find_by_key(&mut self.cache, false, key)
    }

    /// The region of an id, or the query for it, which is then out until `learn` is told of an answer.
    pub fn region_for_id(&mut self, id: RegionId, waited: u32) -> Result<Look<RegionWithLeader>>
        ensures look { IfOk result (λ look. MatchLook look (λ shown. IsFoundOf id shown × IsCachedAs self.old.encodes (region_of_id id self.old.cache.regions) shown) (λ q. (q ≡ query.RegionId id) × IsUnknown self.old.cache q) ⊤) }
        ensures why { IfErr result (OrStarved IsText) }
        ensures asked { OnOk result (self.new.cache ≡ after_look_by_id id self.old.cache) }
        ensures err { OnErr result (self.new.cache ≡ self.old.cache) }
        ensures encodes { self.new.encodes ≡ self.old.encodes }
    {
        find_by_id(&mut self.cache, self.enable_mvcc_codec, id, waited)
    }

    /// The store of a region's leader. A region without leader is dropped, and refused.
    pub fn map_region_to_store(&mut self, region: RegionWithLeader) -> Result<Look<RegionStore>>
        ensures look { IfOk result (λ look. MatchLook look (λ found. (found.region_with_leader ≡ region) × (store_id_of region ≡ Ok found.store)) (λ q. IsPlaceQuery q × IsUnknown self.new.cache q) ⊥) }
        ensures why { IfErr result (OrStarved (λ error. store_id_of region ≡ Err error)) }
        ensures led { is_none region.leader ≡ false → self.new ≡ self.old }
        ensures unled { is_none region.leader ≡ true → self.new ≡ record self.old { cache = without_record region self.old.cache } }
    {
        match region.get_store_id() {
            Ok(id) => find_store(&mut self.cache, region, id),
            Err(error) => {
                drop_record(&mut self.cache, &region);
                Err(error)
            }
        }
    }

    /// Takes what came of a query.
    pub fn learn(&mut self, query: &PdQuery, answer: &Result<PdAnswer>) -> Result<()>
        ensures ok { OnOk result (IsOk answer.now) }
        ensures why { IfErr result (OrStarved (IsRefused query.now answer.now)) }
        ensures changed { UnlessStarved result (Learns self.old.encodes query.now answer.now self.old.cache self.new.cache) }
        ensures encodes { self.new.encodes ≡ self.old.encodes }
    {
        learn_answer(&mut self.cache, self.enable_mvcc_codec, query, answer)
    }

    /// Sets the leader of the region of an id at an epoch, where it is cached. Takes no memory.
    pub fn update_leader(&mut self, ver_id: &RegionVerId, leader: Peer)
        ensures { self.new ≡ record self.old { cache = with_leader ver_id.now leader self.old.cache } }
    {
        self.cache.update_leader(ver_id, leader);
    }

    /// Drops the region of an id at an epoch, where it is cached. Takes no memory.
    pub fn invalidate_region_cache(&mut self, ver_id: &RegionVerId)
        ensures { self.new ≡ record self.old { cache = without_region ver_id.now self.old.cache } }
    {
        self.cache.invalidate_region_cache(ver_id);
    }
}
