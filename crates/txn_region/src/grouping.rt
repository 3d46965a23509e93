//! Keys and ranges that lie in one region.
ghost use Rattle.std.specs.Prelude.{◌≡◌, ◌+◌, ◌++◌, ◌<◌, ◌≤◌, drop, length, map, reverse, take, true, vec_len, IfOk, OnOk};
ghost use Rattle.std.specs.List.{prefix_len, HoldsAt};
ghost use Rattle.txn_kv.specs.Region.{contains_key};
ghost use Rattle.txn_region.specs.Groups.{behind_group, count_whole, cut_back, cut_front, ends_by, group_of, is_whole, least_end, next_start, or_unbounded, IsKeyGroup};

use crate::as_key::AsKey;
use txn_kv::{Key, KeyRange, NoMemory, RegionWithLeader};

/// How many keys from a place on lie in the region.
fn count_inside<K: AsKey>(region: &RegionWithLeader, keys: &[K], first: usize) -> usize
    requires { first ≤ length keys.now }
    ensures count { result ≡ prefix_len (λ k. contains_key region.now.region (K.key k)) (drop first keys.now) }
    ensures bound { first + result ≤ length keys.now }
{
    keys.iter()
        .skip(first)
        .take_while(|key| region.contains(key.as_key()))
        .count()
}

/// The place behind the group of keys that begins at a place.
pub(crate) fn group_end<K: AsKey>(region: &RegionWithLeader, keys: &[K], first: usize) -> usize
    requires place { first < length keys.now }
    requires begins { HoldsAt (λ key. contains_key region.now.region key ≡ true) (map K.key keys.now) first }
    ensures { IsKeyGroup (map K.key keys.now) first region.now.region result }
{
    prove!(first < keys.len());
    first + count_inside(region, keys, first)
}

/// Where the part of a range up to an end begins that is beyond the region, if there is one.
pub(crate) fn next_start(region: &RegionWithLeader, end: &Key) -> Result<Option<Key>, NoMemory>
    ensures { IfOk result (λ next. next ≡ next_start region.now.region end.now) }
{
    if ends_by(end, region.end_key()) {
        return Ok(None);
    }
    Ok(Some(region.end_key().try_clone()?))
}

/// The same, where there may be no end.
pub(crate) fn next_start_or_none(
    region: &RegionWithLeader,
    end: &Option<Key>,
) -> Result<Option<Key>, NoMemory>
    ensures { IfOk result (λ next. next ≡ next_start region.now.region (or_unbounded end.now)) }
{
    if let Some(end) = end {
        return next_start(region, end);
    }
    if region.end_key().is_empty() {
        return Ok(None);
    }
    Ok(Some(region.end_key().try_clone()?))
}

/// The piece of a range up to an end that lies in the region, from a key in it on.
pub(crate) fn range_piece(
    region: &RegionWithLeader,
    first: &Key,
    end: &Key,
) -> Result<(Key, Key), NoMemory>
    ensures start { IfOk result (λ piece. piece.0 ≡ first.now) }
    ensures stop { IfOk result (λ piece. piece.1 ≡ least_end end.now region.now.region.end_key) }
{
    let stop = if ends_by(end, region.end_key()) {
        end.try_clone()?
    } else {
        region.end_key().try_clone()?
    };
    Ok((first.try_clone()?, stop))
}

/// Whether an end is not above another. An empty one is unbounded.
fn ends_by(end: &Key, limit: &Key) -> bool
    ensures { result ≡ ends_by end.now limit.now }
{
    limit.is_empty() || (!end.is_empty() && *end <= *limit)
}

fn is_whole(region: &RegionWithLeader, range: &KeyRange) -> bool
    ensures { result ≡ is_whole region.now.region range.now }
{
    region.contains(&range.start_key) && ends_by(&range.end_key, region.end_key())
}

/// How many ranges from the back on begin and end in the region.
fn count_whole(region: &RegionWithLeader, ranges: &[KeyRange]) -> usize
    ensures count { result ≡ count_whole region.now.region (reverse ranges.now) }
    ensures bound { result ≤ length ranges.now }
{
    ranges
        .iter()
        .rev()
        .take_while(|range| is_whole(region, range))
        .count()
}

/// Takes so many ranges off the back of a list, the last first.
fn take_last(ranges: &mut Vec<KeyRange>, count: usize) -> Result<Vec<KeyRange>, NoMemory>
    requires { count ≤ vec_len ranges.old }
    ensures taken { IfOk result (λ last. last.items ≡ take count (reverse ranges.old.items)) }
    ensures left { OnOk result (reverse ranges.new.items ≡ drop count (reverse ranges.old.items)) }
{
    let mut last = ranges.split_off(ranges.len() - count)?;
    last.reverse();
    Ok(last)
}

/// Cuts the last range where the region ends, if it begins in the region: its front goes into the group, and its back stays.
fn cut_last(
    region: &RegionWithLeader,
    ranges: &mut Vec<KeyRange>,
    group: &mut Vec<KeyRange>,
) -> Result<(), NoMemory>
    ensures front { OnOk result (group.new.items ≡ group.old.items ++ cut_front region.now.region (reverse ranges.old.items)) }
    ensures back { OnOk result (reverse ranges.new.items ≡ cut_back region.now.region (reverse ranges.old.items)) }
{
    let Some(range) = ranges.pop() else {
        return Ok(());
    };
    if !region.contains(&range.start_key) {
        ranges.push(range)?;
        return Ok(());
    }
    let (start_key, end_key) = range.into_keys();
    group.push(KeyRange {
        start_key,
        end_key: region.end_key().try_clone()?,
    })?;
    ranges.push(KeyRange {
        start_key: region.end_key().try_clone()?,
        end_key,
    })?;
    Ok(())
}

/// Takes the group of ranges in the region off a reversed list, in order. Want of memory may leave a part of the list.
pub(crate) fn take_group(
    region: &RegionWithLeader,
    ranges: &mut Vec<KeyRange>,
) -> Result<Vec<KeyRange>, NoMemory>
    ensures group { IfOk result (λ group. group.items ≡ group_of region.now.region (reverse ranges.old.items)) }
    ensures behind { OnOk result (reverse ranges.new.items ≡ behind_group region.now.region (reverse ranges.old.items)) }
{
    let count = count_whole(region, ranges.as_slice());
    let mut group = take_last(ranges, count)?;
    cut_last(region, ranges, &mut group)?;
    Ok(group)
}
