//! A region is split in two.
ghost use Rattle.std.specs.Prelude.{◌≡◌, ℕ, ◌+◌, ◌<◌, ◌^◌, true, false, IfOk, IfSome, IfNone, OnOk, OnErr, length, slice_index_or, vec_len};
ghost use Rattle.txn_model.specs.declared.region.StoredRegion.{StoredRegion as Stored};
ghost use Rattle.txn_model.specs.Regions.{starts_at, next_version, upper_part, lower_part, split_at};
ghost use Rattle.txn_model.specs.Splits.{holds, VersionsFit};

use crate::ranges::is_in_range;
use crate::region::StoredRegion;
use txn_kv::{Key, NoMemory, RegionEpoch};

/// A region begins at the key.
pub fn starts_at(regions: &[StoredRegion], key: &Key) -> bool
    ensures { result ≡ starts_at regions.now key.now }
{
    for region in regions {
        if region.start_key == *key {
            return true;
        }
    }
    false
}

/// The place of the first region that holds a key.
fn place_of(regions: &[StoredRegion], key: &Key) -> Option<usize>
    ensures found { IfSome result (λ at. (at < length regions.now) × ((d : Stored) → holds key.now (slice_index_or regions.now at d) ≡ true)) }
    ensures first { IfSome result (λ at. (i : ℕ) (d : Stored) → i < at → holds key.now (slice_index_or regions.now i d) ≡ false) }
    ensures none { IfNone result ((i : ℕ) (d : Stored) → i < length regions.now → holds key.now (slice_index_or regions.now i d) ≡ false) }
{
    for i in 0..regions.len() {
        if is_in_range(&regions[i].start_key, &regions[i].end_key, key) {
            return Some(i);
        }
    }
    None
}

fn next_version(epoch: RegionEpoch) -> RegionEpoch
    requires { epoch.version + 1 < 2 ^ 64 }
    ensures { result ≡ next_version epoch }
{
    RegionEpoch {
        conf_ver: epoch.conf_ver,
        version: epoch.version + 1,
    }
}

/// The part of a region from a key on.
fn upper_part(region: &StoredRegion, key: &Key, id: u64) -> Result<StoredRegion, NoMemory>
    requires { region.now.epoch.version + 1 < 2 ^ 64 }
    ensures { IfOk result (λ upper. upper ≡ upper_part key.now id region.now) }
{
    Ok(StoredRegion {
        id,
        start_key: key.try_clone()?,
        end_key: region.end_key.try_clone()?,
        epoch: next_version(region.epoch),
        leader: region.leader,
    })
}

/// Leaves the part of a region below a key.
fn keep_lower_part(region: &mut StoredRegion, key: Key)
    requires { region.old.epoch.version + 1 < 2 ^ 64 }
    ensures { region.new ≡ lower_part key region.old }
{
    region.end_key = key;
    region.epoch = next_version(region.epoch);
}

/// Splits the region that holds a key, if there is one, before it.
pub fn split_region(regions: &mut Vec<StoredRegion>, key: &Key) -> Result<(), NoMemory>
    requires fits { VersionsFit regions.old.items }
    requires ids { vec_len regions.old + 1 < 2 ^ 64 }
    ensures ok { OnOk result (regions.new.items ≡ split_at key.now (length regions.old.items + 1) regions.old.items) }
    ensures err { OnErr result (regions.new.items ≡ regions.old.items) }
{
    let Some(at) = place_of(regions.as_slice(), key) else {
        return Ok(());
    };
    let id = regions.len() as u64 + 1;
    let upper = upper_part(&regions[at], key, id)?;
    let middle = key.try_clone()?;
    regions.insert(at + 1, upper)?;
    keep_lower_part(&mut regions[at], middle);
    Ok(())
}
