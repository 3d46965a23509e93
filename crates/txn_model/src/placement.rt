//! Regions, stores and the oracle.
ghost use Rattle.std.specs.Prelude.{◌≡◌, ◌+◌, ◌-◌, ◌*◌, ◌<◌, ◌≤◌, ◌^◌, IfOk, find, nat_eq};
ghost use Rattle.std.specs.Option.{option_copied};
ghost use Rattle.txn_model.specs.Placement.{told_bound, region_record, leader_of, region_with_id, region_holding, epoch_differs, led_elsewhere, holds_key, region_check_at, region_check, told_region, unknown_store, store_with_id, last_timestamp};

use crate::region::StoredRegion;
use std::alloc::Global;
use txn_kv::{
    Context, GetRegionResponse, Items, Key, NoMemory, Peer, Region, RegionEpoch, RegionErr,
    StoreLabel, StoreMeta, StoreState, Text,
};

/// A bound of a region, as the placement driver tells it: encoded, where there is one.
fn told_bound(key: &Key) -> Result<Key, NoMemory>
    ensures { IfOk result (λ bound. bound ≡ told_bound key.now) }
{
    if key.is_empty() {
        key.try_clone()
    } else {
        key.to_encoded()
    }
}

impl StoredRegion {
    /// The region, as the placement driver tells it.
    fn record(&self) -> Result<Region, NoMemory>
        ensures { IfOk result (λ region. region ≡ region_record self.now) }
    {
        Ok(Region {
            id: self.id,
            start_key: told_bound(&self.start_key)?,
            end_key: told_bound(&self.end_key)?,
            region_epoch: Some(self.epoch),
        })
    }

    fn leader(&self) -> Peer
        ensures { result ≡ leader_of self.now }
    {
        Peer {
            id: self.leader,
            store_id: self.leader,
        }
    }
}

fn epoch_differs(epoch: RegionEpoch, asked: Option<RegionEpoch>) -> bool
    ensures { result ≡ epoch_differs epoch asked }
{
    match asked {
        Some(asked) => !(asked.version == epoch.version && asked.conf_ver == epoch.conf_ver),
        None => true,
    }
}

fn led_elsewhere(region: &StoredRegion, peer: Option<Peer>) -> bool
    ensures { result ≡ led_elsewhere region.now peer }
{
    match peer {
        Some(peer) => peer.store_id != region.leader,
        None => true,
    }
}

pub fn region_with_id(regions: &[StoredRegion], id: u64) -> Option<&StoredRegion>
    ensures { option_copied result ≡ region_with_id regions.now id }
{
    regions.iter().find(|region| region.id == id)
}

/// Why a request with this context, which names this region, is refused.
fn error_at(
    alloc: Global,
    region: &StoredRegion,
    context: Context,
) -> Result<Option<RegionErr>, NoMemory>
    ensures { IfOk result (λ error. error ≡ region_check_at (Some region.now) context) }
{
    if led_elsewhere(region, context.peer) {
        return Ok(Some(RegionErr::NotLeader {
            region_id: region.id,
            leader: Some(region.leader()),
        }));
    }
    if epoch_differs(region.epoch, context.region_epoch) {
        let mut current_regions = Items::new(alloc);
        current_regions.push(region.record()?)?;
        return Ok(Some(RegionErr::EpochNotMatch { current_regions }));
    }
    Ok(None)
}

/// Why a request with this context is refused before its row is looked at.
pub fn region_error(
    alloc: Global,
    regions: &[StoredRegion],
    context: Option<Context>,
) -> Result<Option<RegionErr>, NoMemory>
    ensures { IfOk result (λ error. error ≡ region_check regions.now context) }
{
    let Some(context) = context else {
        return Ok(Some(RegionErr::RegionNotFound { region_id: 0 }));
    };
    match region_with_id(regions, context.region_id) {
        Some(region) => error_at(alloc, region, context),
        None => Ok(Some(RegionErr::RegionNotFound {
            region_id: context.region_id,
        })),
    }
}

/// The region's range is told to hold the encoded key.
fn holds_key(region: &StoredRegion, key: &Key) -> Result<bool, NoMemory>
    ensures { IfOk result (λ holds. holds ≡ holds_key region.now key.now) }
{
    let start = told_bound(&region.start_key)?;
    let end = told_bound(&region.end_key)?;
    Ok(start <= *key && (region.end_key.is_empty() || *key < end))
}

fn region_holding<'a>(
    regions: &'a [StoredRegion],
    key: &Key,
) -> Result<Option<&'a StoredRegion>, NoMemory>
    ensures { IfOk result (λ region. option_copied region ≡ region_holding regions.now key.now) }
{
    for region in regions {
        if holds_key(region, key)? {
            return Ok(Some(region));
        }
    }
    Ok(None)
}

/// The region whose range holds an encoded key, if there is one.
pub fn told_region(regions: &[StoredRegion], key: &Key) -> Result<GetRegionResponse, NoMemory>
    ensures { IfOk result (λ reply. reply ≡ told_region (region_holding regions.now key.now)) }
{
    match region_holding(regions, key)? {
        Some(region) => Ok(GetRegionResponse {
            region: Some(region.record()?),
            leader: Some(region.leader()),
        }),
        None => Ok(GetRegionResponse {
            region: None,
            leader: None,
        }),
    }
}

/// The region of an id, if there is one.
pub fn told_region_with_id(regions: &[StoredRegion], id: u64) -> Result<GetRegionResponse, NoMemory>
    ensures { IfOk result (λ reply. reply ≡ told_region (region_with_id regions.now id)) }
{
    match region_with_id(regions, id) {
        Some(region) => Ok(GetRegionResponse {
            region: Some(region.record()?),
            leader: Some(region.leader()),
        }),
        None => Ok(GetRegionResponse {
            region: None,
            leader: None,
        }),
    }
}

fn copied_labels(alloc: Global, labels: &[StoreLabel]) -> Result<Items<StoreLabel>, NoMemory>
    ensures { IfOk result (λ copies. copies ≡ labels.now) }
{
    let mut copies = Items::new(alloc);
    for label in labels {
        copies.push(StoreLabel {
            key: label.key.try_clone()?,
            value: label.value.try_clone()?,
        })?;
    }
    Ok(copies)
}

fn copied_store(alloc: Global, store: &StoreMeta) -> Result<StoreMeta, NoMemory>
    ensures { IfOk result (λ copy. copy ≡ store.now) }
{
    Ok(StoreMeta {
        id: store.id,
        address: store.address.try_clone()?,
        state: store.state,
        labels: copied_labels(alloc, store.labels.as_slice())?,
    })
}

/// All of the stores.
pub fn told_stores(alloc: Global, stores: &[StoreMeta]) -> Result<Items<StoreMeta>, NoMemory>
    ensures { IfOk result (λ copies. copies ≡ stores.now) }
{
    let mut copies = Items::new(alloc);
    for store in stores {
        copies.push(copied_store(alloc, store)?)?;
    }
    Ok(copies)
}

fn unknown_store(alloc: Global, id: u64) -> StoreMeta
    ensures { result ≡ unknown_store id }
{
    StoreMeta {
        id,
        address: Text::from_string(String::new(alloc)),
        state: StoreState::Tombstone,
        labels: Items::new(alloc),
    }
}

fn store_with_id(stores: &[StoreMeta], id: u64) -> Option<&StoreMeta>
    ensures { option_copied result ≡ find (λ store. nat_eq store.id id) stores.now }
{
    stores.iter().find(|store| store.id == id)
}

/// The store of an id. An id that no store has is that of a tombstone.
pub fn told_store(alloc: Global, stores: &[StoreMeta], id: u64) -> Result<StoreMeta, NoMemory>
    ensures { IfOk result (λ store. store ≡ store_with_id stores.now id) }
{
    match store_with_id(stores, id) {
        Some(store) => copied_store(alloc, store),
        None => Ok(unknown_store(alloc, id)),
    }
}

/// How many timestamps a millisecond has.
const MILLISECOND: u64 = 262144;

/// The last of `count` timestamps after `last`, by a clock in milliseconds.
pub fn last_timestamp(last: u64, clock: u64, count: u32) -> u64
    requires some { 1 ≤ count }
    requires few { count ≤ 64 }
    requires last_bits { last < 2 ^ 63 }
    requires clock_bits { clock < 2 ^ 44 }
    ensures { result ≡ last_timestamp last clock count }
{
    let more = u64::from(count) - 1;
    let next = (last + 1).max(clock * MILLISECOND);
    if next % MILLISECOND + more < MILLISECOND {
        next + more
    } else {
        (next / MILLISECOND + 1) * MILLISECOND + more
    }
}
