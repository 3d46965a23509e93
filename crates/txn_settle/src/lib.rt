//! What is known of locks that stand in the way of others, and of the transactions that left them.
#![tactic(auto)]

pub mod by_primary;
pub mod cleaned_regions;
pub mod expiry;
pub mod key_search;
pub mod place;
pub mod requests;
pub mod resolve_locks_context;
pub mod send;

pub use by_primary::ByPrimary;
pub use cleaned_regions::CleanedRegions;
pub use expiry::{PartedLocks, is_expired, part_locks};
pub use key_search::KeySearch;
pub use place::Place;
pub use requests::{cleanup_request, resolve_request, rollback_request};
pub use resolve_locks_context::ResolveLocksContext;
