//! Regions in ascending order of their starts, none of which meets another.
ghost use Rattle.std.specs.Prelude.{◌≡◌, ◌+◌, ◌<◌, ◌≤◌, ℕ, not, map, cond, false, length, None, IfSome, IfNone, OnOk, OnErr, insert, vec_len, vec_capacity};
ghost use Rattle.std.specs.List.{filter, list_any, remove_range};
ghost use Rattle.std.specs.Option.{option_copied};
ghost use Rattle.txn_region.specs.Heads.{end_head, key_head, AreHeadsOf};
ghost use Rattle.txn_region.specs.Regions.{added, begun_below, ended_at, has_id, has_ver_id, in_order, is_below, is_reversed, led_if, met, region_of_id, region_of_key, region_refusal, same_epoch, without_place, AreApart, AreKept, IsPlaceOf, IsSoundAt, IsSoundOf};
ghost use Rattle.txn_region.specs.Starts.{start_at, AreStartsOf};

use crate::heads::{Head, end_head, key_head};
use crate::starts::{Starts, forget, forget_run, set_start};
use std::cmp::Ordering;
use txn_kv::{Key, NoMemory, Peer, RegionEpoch, RegionId, RegionVerId, RegionWithLeader};

/// Whether a key is below an end, where there is one.
pub fn is_below(key: &Key, end: &Key) -> bool
    ensures { result ≡ is_below key.now end.now }
{
    *key < *end || end.is_empty()
}

/// Whether a key is below the end of a region, by their heads where these differ: the region itself is not read then.
fn is_below_end(key: &Key, head: &Head, region: &RegionWithLeader, end: &Option<Head>) -> bool
    requires head { head.now ≡ key_head key.now }
    requires end { end.now ≡ end_head region.now }
    ensures { result ≡ is_below key.now region.now.region.end_key }
{
    match end {
        Some(end) => match head.cmp(end) {
            Ordering::Less => true,
            Ordering::Equal => is_below(key, &region.region.end_key),
            Ordering::Greater => false,
        },
        None => true,
    }
}

/// How many regions have ended where a key comes. Each step branches, so that the processor reads on while it compares.
fn count_ended(regions: &[RegionWithLeader], heads: &[Option<Head>], key: &Key) -> usize
    requires apart { AreApart regions.now }
    requires heads { AreHeadsOf heads.now regions.now }
    ensures count { result ≡ ended_at key.now regions.now }
    ensures bound { result ≤ length regions.now }
{
    let head = key_head(key);
    let mut from = 0;
    let mut to = regions.len();
    'search: while from < to {
        let middle = from + (to - from) / 2;
        if is_below_end(key, &head, &regions[middle], &heads[middle]) {
            to = middle;
        } else {
            from = middle + 1;
        }
    }
    from
}

/// How many regions begin below an end.
fn count_begun(regions: &[RegionWithLeader], end: &Key) -> usize
    requires { AreApart regions.now }
    ensures count { result ≡ begun_below end.now regions.now }
    ensures bound { result ≤ length regions.now }
{
    regions.partition_point(|known| is_below(&known.region.start_key, end))
}

/// The region that contains a key, by binary search.
pub fn find_by_key<'a>(
    regions: &'a [RegionWithLeader],
    heads: &[Option<Head>],
    key: &Key,
) -> Option<&'a RegionWithLeader>
    requires kept { AreKept regions.now }
    requires heads { AreHeadsOf heads.now regions.now }
    ensures found { option_copied result ≡ region_of_key key.now regions.now }
    ensures sound { IfSome result (λ r. IsSoundAt key.now r.now) }
{
    let at = count_ended(regions, heads, key);
    if at == regions.len() {
        return None;
    }
    let candidate = &regions[at];
    if candidate.contains(key) {
        Some(candidate)
    } else {
        None
    }
}

/// The place of the region of an id, by its start.
pub fn place_of(
    regions: &[RegionWithLeader],
    heads: &[Option<Head>],
    starts: &Starts,
    id: RegionId,
) -> Option<usize>
    requires kept { AreKept regions.now }
    requires heads { AreHeadsOf heads.now regions.now }
    requires starts { AreStartsOf starts.now regions.now }
    ensures found { IfSome result (IsPlaceOf id regions.now) }
    ensures none { IfNone result (region_of_id id regions.now ≡ None) }
{
    match starts.get(&id) {
        Some(start) => Some(count_ended(regions, heads, start)),
        None => None,
    }
}

/// The region of an id.
pub fn find_by_id<'a>(
    regions: &'a [RegionWithLeader],
    heads: &[Option<Head>],
    starts: &Starts,
    id: RegionId,
) -> Option<&'a RegionWithLeader>
    requires kept { AreKept regions.now }
    requires heads { AreHeadsOf heads.now regions.now }
    requires starts { AreStartsOf starts.now regions.now }
    ensures found { option_copied result ≡ region_of_id id regions.now }
    ensures sound { IfSome result (λ r. IsSoundOf id r.now) }
{
    match place_of(regions, heads, starts, id) {
        Some(at) => Some(&regions[at]),
        None => None,
    }
}

/// Drops what is at a place, where there is one.
fn drop_place<T: Drop>(items: &mut Vec<T>, place: Option<usize>)
    requires { IfSome place (λ at. at < vec_len items.old) }
    ensures items { items.new.items ≡ without_place place items.old.items }
    ensures len { vec_len items.new ≤ vec_len items.old }
    ensures capacity { vec_capacity items.new ≡ vec_capacity items.old }
{
    if let Some(at) = place {
        items.remove(at);
    }
}

/// Puts an item in place of a run of others. There is room for it.
fn replace_run<T: Drop>(items: &mut Vec<T>, from: usize, to: usize, item: T)
    requires order { from ≤ to }
    requires in_range { to ≤ vec_len items.old }
    requires room { vec_len items.old < vec_capacity items.old }
    ensures { items.new.items ≡ insert (remove_range items.old.items from to) from item }
{
    items.drain(from..to);
    let _ = items.insert(from, item);
}

/// Room for one more.
pub fn make_room<T: Drop>(items: &mut Vec<T>) -> Result<(), NoMemory>
    ensures items { items.new.items ≡ items.old.items }
    ensures room { OnOk result (vec_len items.new < vec_capacity items.new) }
{
    items.reserve(1)?;
    Ok(())
}

/// Puts a region among others, in place of those that it meets and of the one of its id, which is at this place. There
/// is room for it.
fn put_at(
    regions: &mut Vec<RegionWithLeader>,
    heads: &mut Vec<Option<Head>>,
    starts: &mut Starts,
    place: Option<usize>,
    region: RegionWithLeader,
)
    requires kept { AreKept regions.old.items }
    requires heads { AreHeadsOf heads.old.items regions.old.items }
    requires right_way { is_reversed region.region ≡ false }
    requires room { vec_len regions.old < vec_capacity regions.old }
    requires room_for_head { vec_len heads.old < vec_capacity heads.old }
    requires found { IfSome place (IsPlaceOf region.region.id regions.old.items) }
    requires none { IfNone place (region_of_id region.region.id regions.old.items ≡ None) }
    ensures items { regions.new.items ≡ in_order (added region regions.old.items) }
    ensures heads { AreHeadsOf heads.new.items regions.new.items }
    ensures starts { (q : ℕ) → start_at starts.new q ≡ cond (list_any (has_id q) (met region.region regions.old.items)) None (start_at starts.old q) }
{
    let head = end_head(&region);
    drop_place(regions, place);
    drop_place(heads, place);
    let from = count_ended(
        regions.as_slice(),
        heads.as_slice(),
        &region.region.start_key,
    );
    let to = count_begun(regions.as_slice(), &region.region.end_key);
    forget_run(starts, regions.as_slice(), from, to);
    replace_run(regions, from, to, region);
    replace_run(heads, from, to, head);
}

/// Puts a region among others, in place of those that it meets and of the one of its id. A refusal changes nothing.
pub fn put_region(
    regions: &mut Vec<RegionWithLeader>,
    heads: &mut Vec<Option<Head>>,
    starts: &mut Starts,
    region: RegionWithLeader,
) -> Result<(), NoMemory>
    requires kept { AreKept regions.old.items }
    requires heads { AreHeadsOf heads.old.items regions.old.items }
    requires starts { AreStartsOf starts.old regions.old.items }
    requires taken { region_refusal region.region ≡ None }
    ensures ok { OnOk result (regions.new.items ≡ in_order (added region regions.old.items)) }
    ensures err { OnErr result (regions.new.items ≡ regions.old.items) }
    ensures heads { AreHeadsOf heads.new.items regions.new.items }
    ensures starts { AreStartsOf starts.new regions.new.items }
{
    let start = region.region.start_key.try_clone()?;
    let place = place_of(
        regions.as_slice(),
        heads.as_slice(),
        starts,
        region.region.id,
    );
    make_room(regions)?;
    make_room(heads)?;
    set_start(starts, region.region.id, start)?;
    put_at(regions, heads, starts, place, region);
    Ok(())
}

fn same_epoch(ver_id: &RegionVerId, epoch: Option<RegionEpoch>) -> bool
    ensures { result ≡ same_epoch ver_id.now.conf_ver ver_id.now.ver epoch }
{
    match epoch {
        Some(epoch) => epoch.conf_ver == ver_id.conf_ver && epoch.version == ver_id.ver,
        None => false,
    }
}

fn has_ver_id(known: &RegionWithLeader, ver_id: &RegionVerId) -> bool
    ensures { result ≡ has_ver_id ver_id.now known.now }
{
    known.region.id == ver_id.id && same_epoch(ver_id, known.region.region_epoch)
}

fn lead_if(known: &mut RegionWithLeader, ver_id: &RegionVerId, leader: Peer)
    ensures { known.new ≡ led_if ver_id.now leader known.old }
{
    if has_ver_id(known, ver_id) {
        known.leader = Some(leader);
    }
}

/// Sets the leader of the region of an id at an epoch.
pub fn lead(
    regions: &mut Vec<RegionWithLeader>,
    heads: &[Option<Head>],
    starts: &Starts,
    ver_id: &RegionVerId,
    leader: Peer,
)
    requires kept { AreKept regions.old.items }
    requires heads { AreHeadsOf heads.now regions.old.items }
    requires starts { AreStartsOf starts.now regions.old.items }
    ensures { regions.new.items ≡ map (led_if ver_id.now leader) regions.old.items }
{
    match place_of(regions.as_slice(), heads, starts, ver_id.id) {
        Some(at) => lead_if(&mut regions[at], ver_id, leader),
        None => {}
    }
}

/// Drops the region at the place of an id, where it is of the epoch.
fn drop_at(
    regions: &mut Vec<RegionWithLeader>,
    heads: &mut Vec<Option<Head>>,
    starts: &mut Starts,
    at: usize,
    ver_id: &RegionVerId,
)
    requires kept { AreKept regions.old.items }
    requires heads { AreHeadsOf heads.old.items regions.old.items }
    requires starts { AreStartsOf starts.old regions.old.items }
    requires place { IsPlaceOf ver_id.now.id regions.old.items at }
    ensures items { regions.new.items ≡ filter (λ r. not (has_ver_id ver_id.now r)) regions.old.items }
    ensures heads { AreHeadsOf heads.new.items regions.new.items }
    ensures starts { AreStartsOf starts.new regions.new.items }
{
    if same_epoch(ver_id, regions[at].region.region_epoch) {
        regions.remove(at);
        heads.remove(at);
        forget(starts, ver_id.id);
    }
}

/// Drops the region of an id at an epoch.
pub fn drop_ver_id(
    regions: &mut Vec<RegionWithLeader>,
    heads: &mut Vec<Option<Head>>,
    starts: &mut Starts,
    ver_id: &RegionVerId,
)
    requires kept { AreKept regions.old.items }
    requires heads { AreHeadsOf heads.old.items regions.old.items }
    requires starts { AreStartsOf starts.old regions.old.items }
    ensures items { regions.new.items ≡ filter (λ r. not (has_ver_id ver_id.now r)) regions.old.items }
    ensures heads { AreHeadsOf heads.new.items regions.new.items }
    ensures starts { AreStartsOf starts.new regions.new.items }
{
    match place_of(regions.as_slice(), heads.as_slice(), starts, ver_id.id) {
        Some(at) => drop_at(regions, heads, starts, at, ver_id),
        None => {}
    }
}
