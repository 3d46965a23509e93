ghost use Rattle.std.specs.Prelude.{◌≡◌, ◌<◌, [], ⊤, Err, IfErr, IfOk, IsOk, MatchOption, OnOk, false, is_none, true, length, map, reverse};
ghost use Rattle.std.specs.Borrow.{Lends, sem};
ghost use Rattle.txn_kv.specs.Region.{store_id_of};
ghost use Rattle.txn_kv.specs.Timestamp.{HasVersion};
ghost use Rattle.txn_kv.specs.declared.errors.Error.TheVariants.{OutOfMemory};
ghost use Rattle.txn_kv.specs.declared.query.PdQuery.TheVariants as query;
ghost use Rattle.txn_region.specs.Clients.{IsFoundAt, IsFoundOf, IsPlaceQuery, IsRefused, IsUsable, MatchLook, OrStarved, UnlessStarved};
ghost use Rattle.txn_region.specs.Decoded.{CanBeShown, HasBadKey, IsShownAs};
ghost use Rattle.txn_region.specs.Groups.{next_start, or_unbounded, IsKeyGroup, IsRangeGroup};
ghost use Rattle.txn_tso.specs.Placement.{fresh};
ghost use Rattle.txn_tso.specs.contracts.retry_client.RetryClient.{the_row as connection_row};

use crate::as_key::AsKey;
use crate::codec::Codec;
use crate::decoding::decode_region;
use crate::grouping::{group_end, next_start_or_none, take_group};
use crate::store::{RegionStore, Store};
use txn_kv::{
    Key, KeyRange, Look, PdAnswer, PdQuery, Peer, RegionId, RegionVerId, RegionWithLeader, Result,
    Timestamp,
};
use txn_tso::{PdCall, RetryClient};

/// Finds the regions of keys and the stores of regions, as the placement driver has told them. Keys are not encoded.
///
/// A look-up sends nothing. It answers what was found, or the query that has to be asked first: the caller makes a call of the
/// query, lends it the connection, tells the client what came of it by `learn`, and looks again. What is wrong with an answer is
/// said by `learn`, so that a look-up by key, and that of the store of a region so found, is refused for want of memory alone.
pub trait PdClient {
    ghost use Rattle.txn_kv.specs.declared.errors.Error.{Error};
    ghost use Rattle.txn_kv.specs.declared.query.PdAnswer.{PdAnswer};
    ghost use Rattle.txn_kv.specs.declared.query.PdQuery.{PdQuery};
    ghost use Rattle.txn_kv.specs.declared.message.Peer.{Peer};
    ghost use Rattle.txn_kv.specs.declared.region.RegionVerId.{RegionVerId};
    ghost use Rattle.txn_kv.specs.declared.region.RegionWithLeader.{RegionWithLeader};
    ghost use Rattle.txn_tso.specs.declared.retry_client.RetryClient.{RetryClient};
    ghost use Rattle.std.specs.Prelude.{ℕ, Result};

    type Codec: Codec;

    // The client, as it is, has no answer to the query.
    ghost asks: { Self → PdQuery → Type 0 };

    // Why a look-up by an id may be refused, besides want of memory.
    ghost refuses: { ℕ → Error → Type 0 };

    // Requests for the region go to the store of this id.
    ghost is_at: { Self → RegionWithLeader → ℕ → Type 0 };

    // What may change by look-ups, before and after: what else the client knows stays.
    ghost looked: { Self → Self → Type 0 };

    // What changes by what came of a query, by a new leader of a region, and by a region that is not believed in any more.
    ghost learns: { PdQuery → Result PdAnswer Error → Self → Self → Type 0 };

    ghost leads: { RegionVerId → Peer → Self → Self → Type 0 };

    ghost drops: { RegionVerId → Self → Self → Type 0 };

    // The connection to the placement driver, and the client with another in its place.
    ghost connection: { Self → RetryClient };

    ghost with_connection: { Self → RetryClient → Self };

    ghost codec: { Self → Self.Codec };

    /// The region that contains the key.
    fn region_for_key(&mut self, key: &Key) -> Result<Look<RegionWithLeader>>
        ensures look { IfOk result (λ look. MatchLook look (IsFoundAt key.now) (λ q. IsPlaceQuery q × asks self.new q) ⊥) }
        ensures why { IfErr result (λ error. error ≡ OutOfMemory) }
        ensures changed { looked self.old self.new };

    /// The region of the id. `waited` is how often the caller has waited for another call's look-up of it.
    fn region_for_id(&mut self, id: RegionId, waited: u32) -> Result<Look<RegionWithLeader>>
        ensures look { IfOk result (λ look. MatchLook look (IsFoundOf id) (λ q. IsPlaceQuery q × asks self.new q) ⊤) }
        ensures why { IfErr result (OrStarved (refuses id)) }
        ensures changed { looked self.old self.new };

    /// The store that requests for the region go to. A region without leader is refused, and not believed in any more.
    fn map_region_to_store(&mut self, region: RegionWithLeader) -> Result<Look<RegionStore>>
        ensures look { IfOk result (λ look. MatchLook look (λ s. (s.region_with_leader ≡ region) × is_at self.new region s.store) (λ q. IsPlaceQuery q × asks self.new q) ⊥) }
        ensures why { IfErr result (OrStarved (λ error. store_id_of region ≡ Err error)) }
        ensures changed { is_none region.leader ≡ false → looked self.old self.new };

    /// Each store that transactions are sent to.
    fn all_stores(&mut self) -> Result<Look<Vec<Store>>>
        ensures look { IfOk result (λ look. MatchLook look (λ _. ⊤) (λ q. q ≡ query.Stores) ⊥) }
        ensures why { IfErr result (λ error. error ≡ OutOfMemory) }
        ensures changed { looked self.old self.new };

    fn get_timestamp(&mut self) -> Look<Timestamp>
        ensures look { MatchLook result HasVersion (λ q. q ≡ query.Time) ⊥ }
        ensures changed { looked self.old self.new };

    /// Whether the safepoint was set to this version, and not to one that the driver knew already.
    fn update_safepoint(&mut self, safepoint: u64) -> Look<bool>
        ensures look { MatchLook result (λ _. ⊤) (λ q. q ≡ query.Safepoint safepoint) ⊥ }
        ensures changed { looked self.old self.new };

    /// A call of the query that is not started yet.
    fn call(&self, query: PdQuery) -> PdCall
        ensures { result ≡ fresh query };

    /// Lends the connection to the placement driver to a call.
    fn retry_client(&mut self) -> &mut RetryClient
        ensures* lent { sem 𝓛 (Lends Self.row connection_row self.entry result (with_connection self.old)) }
        ensures value { result.now ≡ connection self.old };

    /// Takes what came of a query. An error is passed on, and an answer that is wrong is refused.
    fn learn(&mut self, query: &PdQuery, answer: &Result<PdAnswer>) -> Result<()>
        ensures ok { OnOk result (IsOk answer.now) }
        ensures why { IfErr result (OrStarved (IsRefused query.now answer.now)) }
        ensures changed { UnlessStarved result (learns query.now answer.now self.old self.new) };

    /// The region of this id at this epoch has a new leader.
    fn update_leader(&mut self, ver_id: &RegionVerId, leader: Peer) -> Result<()>
        ensures changed { OnOk result (leads ver_id.now leader self.old self.new) }
        ensures why { IfErr result (λ error. error ≡ OutOfMemory) };

    /// The region of this id at this epoch is not believed in any more.
    fn invalidate_region_cache(&mut self, ver_id: &RegionVerId)
        ensures changed { drops ver_id.now self.old self.new };

    fn get_codec(&self) -> &Self::Codec
        ensures { result.now ≡ codec self.now };

    /// The store that requests for the key go to.
    #[tactic(auto, using(crate::specs::Refusals::has_store))]
    final fn store_for_key(&mut self, key: &Key) -> Result<Look<RegionStore>>
        ensures look { IfOk result (λ look. MatchLook look (λ s. IsFoundAt key.now s.region_with_leader × is_at self.new s.region_with_leader s.store) (λ q. IsPlaceQuery q × asks self.new q) ⊥) }
        ensures why { IfErr result (λ error. error ≡ OutOfMemory) }
        ensures changed { looked self.old self.new }
    {
        match self.region_for_key(key)? {
            Look::Found(region) => self.map_region_to_store(region),
            Look::Query(query) => Ok(Look::Query(query)),
            Look::Wait => unreachable!(),
        }
    }

    /// The store that requests for the region of the id go to.
    #[tactic(auto, using(crate::specs::Refusals::has_store))]
    final fn store_for_id(&mut self, id: RegionId, waited: u32) -> Result<Look<RegionStore>>
        ensures look { IfOk result (λ look. MatchLook look (λ s. IsFoundOf id s.region_with_leader × is_at self.new s.region_with_leader s.store) (λ q. IsPlaceQuery q × asks self.new q) ⊤) }
        ensures why { IfErr result (OrStarved (refuses id)) }
        ensures changed { looked self.old self.new }
    {
        match self.region_for_id(id, waited)? {
            Look::Found(region) => self.map_region_to_store(region),
            Look::Query(query) => Ok(Look::Query(query)),
            Look::Wait => Ok(Look::Wait),
        }
    }

    /// The region of the key at a place, and the place behind the last following key that it contains.
    final fn group_keys_by_region<K: AsKey>(
        &mut self,
        keys: &[K],
        first: usize,
    ) -> Result<Look<(RegionWithLeader, usize)>>
        requires { first < length keys.now }
        ensures look { IfOk result (λ look. MatchLook look (λ found. IsUsable found.0 × IsKeyGroup (map K.key keys.now) first found.0.region found.1) (λ q. IsPlaceQuery q × asks self.new q) ⊥) }
        ensures why { IfErr result (λ error. error ≡ OutOfMemory) }
        ensures changed { looked self.old self.new }
    {
        match self.region_for_key(keys[first].as_key())? {
            Look::Found(region) => {
                let next = group_end(&region, keys, first);
                Ok(Look::Found((region, next)))
            }
            Look::Query(query) => Ok(Look::Query(query)),
            Look::Wait => unreachable!(),
        }
    }

    /// The store of the region of a key in a range, and the region's end, or none where the range does not go on behind it.
    /// An empty end is unbounded, and so is none.
    final fn stores_for_range(
        &mut self,
        end: &Option<Key>,
        first: &Key,
    ) -> Result<Look<(RegionStore, Option<Key>)>>
        ensures look { IfOk result (λ look. MatchLook look (λ found. IsFoundAt first.now found.0.region_with_leader × is_at self.new found.0.region_with_leader found.0.store × (found.1 ≡ next_start found.0.region_with_leader.region (or_unbounded end.now))) (λ q. IsPlaceQuery q × asks self.new q) ⊥) }
        ensures why { IfErr result (λ error. error ≡ OutOfMemory) }
        ensures changed { looked self.old self.new }
    {
        match self.store_for_key(first)? {
            Look::Found(store) => {
                let next = next_start_or_none(&store.region_with_leader, end)?;
                Ok(Look::Found((store, next)))
            }
            Look::Query(query) => Ok(Look::Query(query)),
            Look::Wait => unreachable!(),
        }
    }

    /// Takes the first group off a reversed list of ranges: those that follow each other in one region, in order. A range that
    /// goes on behind the region is cut at its end. None where the list is empty.
    final fn group_ranges_by_region(
        &mut self,
        ranges: &mut Vec<KeyRange>,
    ) -> Result<Look<Option<(RegionWithLeader, Vec<KeyRange>)>>>
        ensures look { IfOk result (λ look. MatchLook look (λ found. MatchOption found (ranges.old.items ≡ []) (λ group. IsUsable group.0 × IsRangeGroup group.0.region (reverse ranges.old.items) group.1.items (reverse ranges.new.items))) (λ q. IsPlaceQuery q × asks self.new q × (ranges.new ≡ ranges.old)) ⊥) }
        ensures why { IfErr result (λ error. error ≡ OutOfMemory) }
        ensures changed { looked self.old self.new }
    {
        let Some(range) = ranges.as_slice().last() else {
            return Ok(Look::Found(None));
        };
        match self.region_for_key(&range.start_key)? {
            Look::Found(region) => {
                let group = take_group(&region, ranges)?;
                Ok(Look::Found(Some((region, group))))
            }
            Look::Query(query) => Ok(Look::Query(query)),
            Look::Wait => unreachable!(),
        }
    }

    /// Decodes the keys of a region, where they are encoded. Bytes behind a key's closing group are refused with `BadEnd`, which
    /// names the place behind that group. Takes no memory.
    final fn decode_region(
        region: RegionWithLeader,
        enable_mvcc_codec: bool,
    ) -> Result<RegionWithLeader>
        ensures ok { IfOk result (λ decoded. IsShownAs enable_mvcc_codec region decoded) }
        ensures err { IfErr result (λ error. (enable_mvcc_codec ≡ true) × HasBadKey region error) }
        ensures decodes { CanBeShown enable_mvcc_codec region.region.start_key → CanBeShown enable_mvcc_codec region.region.end_key → IsOk result }
    {
        decode_region(region, enable_mvcc_codec)
    }

    ghost looked_same: { (c : Self) → looked c c };

    ghost looked_on: { (a b c : Self) → looked a b → looked b c → looked a c };

    ghost looked_lent: { (c : Self) (w : RetryClient) → looked c (with_connection c w) };

    ghost connection_lent: { (c : Self) (w : RetryClient) → connection (with_connection c w) ≡ w };

    ghost connection_same: { (c : Self) → with_connection c (connection c) ≡ c };
}
