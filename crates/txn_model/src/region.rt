use txn_kv::{Key, RegionEpoch, StoreId};

/// A region, as the store keeps it, and the store that leads it. An empty end is unbounded.
#[derive(Debug, Drop)]
pub struct StoredRegion {
    pub id: u64,
    pub start_key: Key,
    pub end_key: Key,
    pub epoch: RegionEpoch,
    pub leader: StoreId,
}
