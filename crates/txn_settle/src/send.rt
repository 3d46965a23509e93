//! Each type of this crate can move between threads.

use crate::by_primary::ByPrimary;
use crate::cleaned_regions::CleanedRegions;
use crate::expiry::PartedLocks;
use crate::key_search::KeySearch;
use crate::resolve_locks_context::ResolveLocksContext;
use std::marker::Send;
use txn_kv::RegionWithLeader;
use txn_region::RegionStore;

/// Accepts the types that can move between threads, and no other.
pub fn can_move<T: Send>() {}

/// The types of this crate do.
pub fn types_can_move() {
    can_move::<ByPrimary<u64>>();
    can_move::<CleanedRegions>();
    can_move::<ResolveLocksContext>();
    can_move::<PartedLocks>();
    can_move::<KeySearch<RegionStore>>();
    can_move::<KeySearch<RegionWithLeader>>();
}
