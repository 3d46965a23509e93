//! A region is led by another store.
ghost use Rattle.std.specs.Prelude.{◌≡◌, ◌&&◌, is_some, nat_le};
ghost use Rattle.txn_model.specs.Placement.{region_with_id as known_region};
ghost use Rattle.txn_model.specs.Regions.{led_if, led_by};

use crate::placement::region_with_id;
use crate::region::StoredRegion;
use txn_kv::StoreId;

fn lead_if(region: &mut StoredRegion, id: u64, store: StoreId)
    ensures { region.new ≡ led_if id store region.old }
{
    if region.id == id {
        region.leader = store;
    }
}

/// The region of this id is led by the store.
pub fn lead_region(regions: &mut Vec<StoredRegion>, id: u64, store: StoreId)
    ensures { regions.new.items ≡ led_by id store regions.old.items }
{
    for i in 0..regions.len() {
        lead_if(&mut regions[i], id, store);
    }
}

/// The region is known, and the store is one of the three.
pub fn can_lead(regions: &[StoredRegion], id: u64, store: StoreId) -> bool
    ensures { result ≡ (is_some (known_region regions.now id) && nat_le 1 store && nat_le store 3) }
{
    region_with_id(regions, id).is_some() && 1 <= store && store <= 3
}
