//! Looks keys or ids up in a region cache. It prints how many were found.
use case_words::Fault;
use std::alloc::Global;
use txn_kv::{Key, NoMemory, Region, RegionEpoch, RegionWithLeader, Result};
use txn_region::{Look, RegionCache};

/// The key of four bytes that spells a number.
fn key(alloc: Global, number: u32) -> std::result::Result<Key, NoMemory> {
    Ok(Key::from(number.to_be_bytes().as_slice().to_vec(alloc)?))
}

/// A cache with this many regions, each from the key of its number to the next.
fn filled(alloc: Global, regions: u32) -> Result<RegionCache> {
    let mut cache = RegionCache::new(alloc);
    for number in 0..regions {
        let region = Region {
            id: u64::from(number),
            start_key: key(alloc, number)?,
            end_key: key(alloc, number.wrapping_add(1))?,
            region_epoch: Some(RegionEpoch::default()),
        };
        cache.add_region(RegionWithLeader::new(region, None))?;
    }
    Ok(cache)
}

/// Numbers that jump about.
fn jumped(state: u64) -> u64 {
    state
        .wrapping_mul(6364136223846793005)
        .wrapping_add(1442695040888963407)
}

/// How many of the look-ups by key find a region.
fn found_by_key(
    alloc: Global,
    cache: &mut RegionCache,
    regions: u32,
    look_ups: u64,
) -> Result<u64> {
    let mut found: u64 = 0;
    let mut state: u64 = 1;
    for _ in 0..look_ups {
        state = jumped(state);
        let number = (state >> 33) as u32 % regions.max(1);
        if let Look::Found(_) = cache.get_region_by_key(&key(alloc, number)?)? {
            found = found.wrapping_add(1);
        }
    }
    Ok(found)
}

/// How many of the look-ups by id find a region.
fn found_by_id(cache: &mut RegionCache, regions: u32, look_ups: u64) -> Result<u64> {
    let mut found: u64 = 0;
    let mut state: u64 = 1;
    for _ in 0..look_ups {
        state = jumped(state);
        let id = (state >> 33) % u64::from(regions.max(1));
        if let Look::Found(_) = cache.get_region_by_id(id, 0)? {
            found = found.wrapping_add(1);
        }
    }
    Ok(found)
}

/// Fills a cache and looks up in it.
pub fn look_up(
    rt: &HostRuntime,
    regions: u32,
    look_ups: u64,
    by_id: bool,
) -> std::result::Result<(), Fault> {
    let alloc = rt.alloc();
    let mut cache = filled(alloc, regions)?;
    let found = if by_id {
        found_by_id(&mut cache, regions, look_ups)?
    } else {
        found_by_key(alloc, &mut cache, regions, look_ups)?
    };
    println!(rt; "{found}")?;
    Ok(())
}
