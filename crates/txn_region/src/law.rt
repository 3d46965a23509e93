//! What is true of a region cache after any calls, of regions that meet, and of groups of keys and ranges: theorems over
//! definitions alone.
ghost use Rattle.std.specs.Prelude.{◌≡◌, ℕ, List, Option, drop, true, false};
ghost use Rattle.txn_kv.specs.Region.{contains_key};
ghost use Rattle.txn_kv.specs.declared.message.KeyRange.{KeyRange};
ghost use Rattle.txn_kv.specs.declared.message.Region.{Region};
ghost use Rattle.txn_region.specs.Calls.{cache_after, regions_after, AreDisjoint, Made};
ghost use Rattle.txn_region.specs.Groups.{in_groups, in_pieces, in_ranges, is_beyond, joined_keys, AreKeyGroups, AreRangeGroups, AreRangePieces};
ghost use Rattle.txn_region.specs.Regions.{in_order, is_reversed, meets, region_of_key, Key};

/// After every list of calls a cache has the regions that its client believes in, and no two of these have a key in
/// common. What a client believes in is a list that knows no order of keys: each region that was taken is put first, in
/// place of those that it meets and of the one of its id.
pub fn after_any_calls()
    ensures regions { (calls : List Made) → (cache_after calls).regions ≡ in_order (regions_after calls) }
    ensures disjoint { (calls : List Made) → AreDisjoint (cache_after calls).regions }
    ensures look_up { (calls : List Made) (key : Key) → region_of_key key (cache_after calls).regions ≡ region_of_key key (regions_after calls) }
{}

/// Two regions that are not reversed meet where a key lies in both.
pub fn meeting_regions()
    ensures meet { (a b : Region) → is_reversed a ≡ false → is_reversed b ≡ false → meets a b ≡ true → (key : Key) × (contains_key a key ≡ true) × (contains_key b key ≡ true) }
    ensures apart { (a b : Region) → meets a b ≡ false → (key : Key) → contains_key a key ≡ true → contains_key b key ≡ false }
{}

/// Groups one after another, joined, are what was grouped: the keys themselves, and of ranges the keys that lie in them.
pub fn groups_are_the_input()
    ensures keys { (keys : List Key) (first : ℕ) (groups : List (Region × ℕ)) → AreKeyGroups keys first groups → joined_keys keys first groups ≡ drop first keys }
    ensures ranges { (ranges : List KeyRange) (groups : List (Region × List KeyRange)) → AreRangeGroups ranges groups → (key : Key) → in_ranges ranges key ≡ in_groups groups key }
    ensures pieces { (first : Option Key) (end : Key) (pieces : List (Region × (Key × Key))) → AreRangePieces first end pieces → (key : Key) → is_beyond first end key ≡ in_pieces pieces key }
{}
