//! Where the region of each id starts.
ghost use Rattle.std.specs.Prelude.{◌≡◌, ◌≤◌, ℕ, cond, length, nat_eq, slice_range, None, Some, OnOk, OnErr};
ghost use Rattle.std.specs.List.{list_any};
ghost use Rattle.txn_region.specs.Regions.{has_id};
ghost use Rattle.txn_region.specs.Starts.{start_at};

use std::collections::BTreeMap;
use txn_kv::{Key, NoMemory, RegionId, RegionWithLeader};

/// The start of each region, by its id.
pub type Starts = BTreeMap<RegionId, Key>;

/// Sets the start of an id. A refusal changes nothing.
pub fn set_start(starts: &mut Starts, id: RegionId, start: Key) -> Result<(), NoMemory>
    ensures ok { OnOk result ((q : ℕ) → start_at starts.new q ≡ cond (nat_eq id q) (Some start) (start_at starts.old q)) }
    ensures err { OnErr result ((q : ℕ) → start_at starts.new q ≡ start_at starts.old q) }
{
    starts.insert(id, start)?;
    Ok(())
}

pub fn forget(starts: &mut Starts, id: RegionId)
    ensures { (q : ℕ) → start_at starts.new q ≡ cond (nat_eq id q) None (start_at starts.old q) }
{
    starts.remove(&id);
}

/// Forgets the starts of some regions.
fn forget_all(starts: &mut Starts, regions: &[RegionWithLeader])
    ensures { (q : ℕ) → start_at starts.new q ≡ cond (list_any (has_id q) regions.now) None (start_at starts.old q) }
{
    for region in regions {
        forget(starts, region.region.id);
    }
}

/// Forgets the starts of a run of regions.
pub fn forget_run(starts: &mut Starts, regions: &[RegionWithLeader], from: usize, to: usize)
    requires order { from ≤ to }
    requires in_range { to ≤ length regions.now }
    ensures { (q : ℕ) → start_at starts.new q ≡ cond (list_any (has_id q) (slice_range regions.now from to)) None (start_at starts.old q) }
{
    forget_all(starts, &regions[from..to]);
}
