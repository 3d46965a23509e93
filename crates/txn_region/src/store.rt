ghost use Rattle.std.specs.Prelude.{◌≡◌, ◌<◌, [], ⊤, IfErr, IfOk, MatchOption, length, map, reverse};
ghost use Rattle.txn_kv.specs.declared.errors.Error.TheVariants.{OutOfMemory};
ghost use Rattle.txn_region.specs.Clients.{IsPlaceQuery, IsUsable, MatchLook};
ghost use Rattle.txn_region.specs.Groups.{IsKeyGroup, IsRangeGroup, IsRangePiece};

use crate::as_key::AsKey;
use crate::grouping::{group_end, next_start, range_piece, take_group};
use crate::pd_client::PdClient;
use txn_kv::{Key, KeyRange, Look, NoMemory, RegionWithLeader, Result, StoreId};

/// A region, and the store that requests for it go to.
#[derive(Debug, PartialEq, Eq)]
pub struct RegionStore {
    pub region_with_leader: RegionWithLeader,
    pub store: StoreId,
}

impl Drop for RegionStore {
    fn drop(self) {
        let RegionStore {
            region_with_leader,
            store: _,
        } = self;
        drop(region_with_leader);
    }
}

impl RegionStore {
    pub fn new(region_with_leader: RegionWithLeader, store: StoreId) -> RegionStore
        ensures { result ≡ record { region_with_leader = region_with_leader; store = store } }
    {
        RegionStore {
            region_with_leader,
            store,
        }
    }

    /// The same region and store, in new memory.
    pub fn try_clone(&self) -> std::result::Result<RegionStore, NoMemory>
        ensures { IfOk result (λ copy. copy ≡ self.now) }
    {
        Ok(RegionStore {
            region_with_leader: self.region_with_leader.try_clone()?,
            store: self.store,
        })
    }
}

/// A store that requests go to, by its id.
#[derive(Clone, Copy, Debug, PartialEq, Eq)]
pub struct Store {
    pub id: StoreId,
}

impl Store {
    pub fn new(id: StoreId) -> Store
        ensures { result ≡ record { id = id } }
    {
        Store { id }
    }
}

/// The store of the region of the key at a place, and the place behind the last following key that lies in that region.
pub fn store_stream_for_keys<K: AsKey, C: PdClient>(
    keys: &[K],
    first: usize,
    pd: &mut C,
) -> Result<Look<(RegionStore, usize)>>
    requires { first < length keys.now }
    ensures look { IfOk result (λ look. MatchLook look (λ found. IsUsable found.0.region_with_leader × C.is_at pd.new found.0.region_with_leader found.0.store × IsKeyGroup (map K.key keys.now) first found.0.region_with_leader.region found.1) (λ q. IsPlaceQuery q × C.asks pd.new q) ⊥) }
    ensures why { IfErr result (λ error. error ≡ OutOfMemory) }
    ensures changed { C.looked pd.old pd.new }
{
    match pd.store_for_key(keys[first].as_key())? {
        Look::Found(store) => {
            let next = group_end(&store.region_with_leader, keys, first);
            Ok(Look::Found((store, next)))
        }
        Look::Query(query) => Ok(Look::Query(query)),
        Look::Wait => unreachable!(),
    }
}

/// The piece of a range, from a key on, that lies in the region of that key, with the region's store and the key at which the
/// rest of the range begins, if there is a rest. An empty upper key is unbounded.
pub fn store_stream_for_range<C: PdClient>(
    range: &(Key, Key),
    first: &Key,
    pd: &mut C,
) -> Result<Look<((Key, Key), RegionStore, Option<Key>)>>
    ensures look { IfOk result (λ look. MatchLook look (λ found. IsUsable found.1.region_with_leader × C.is_at pd.new found.1.region_with_leader found.1.store × IsRangePiece found.1.region_with_leader.region first.now range.now.1 (found.0.0, found.0.1) found.2) (λ q. IsPlaceQuery q × C.asks pd.new q) ⊥) }
    ensures why { IfErr result (λ error. error ≡ OutOfMemory) }
    ensures changed { C.looked pd.old pd.new }
{
    match pd.store_for_key(first)? {
        Look::Found(store) => {
            let piece = range_piece(&store.region_with_leader, first, &range.1)?;
            let next = next_start(&store.region_with_leader, &range.1)?;
            Ok(Look::Found((piece, store, next)))
        }
        Look::Query(query) => Ok(Look::Query(query)),
        Look::Wait => unreachable!(),
    }
}

/// Takes the first group off a reversed list of ranges, with the store of its region. None where the list is empty.
pub fn store_stream_for_ranges<C: PdClient>(
    ranges: &mut Vec<KeyRange>,
    pd: &mut C,
) -> Result<Look<Option<(Vec<KeyRange>, RegionStore)>>>
    ensures look { IfOk result (λ look. MatchLook look (λ found. MatchOption found (ranges.old.items ≡ []) (λ group. IsUsable group.1.region_with_leader × C.is_at pd.new group.1.region_with_leader group.1.store × IsRangeGroup group.1.region_with_leader.region (reverse ranges.old.items) group.0.items (reverse ranges.new.items))) (λ q. IsPlaceQuery q × C.asks pd.new q × (ranges.new ≡ ranges.old)) ⊥) }
    ensures why { IfErr result (λ error. error ≡ OutOfMemory) }
    ensures changed { C.looked pd.old pd.new }
{
    let Some(range) = ranges.as_slice().last() else {
        return Ok(Look::Found(None));
    };
    match pd.store_for_key(&range.start_key)? {
        Look::Found(store) => {
            let group = take_group(&store.region_with_leader, ranges)?;
            Ok(Look::Found(Some((group, store))))
        }
        Look::Query(query) => Ok(Look::Query(query)),
        Look::Wait => unreachable!(),
    }
}
