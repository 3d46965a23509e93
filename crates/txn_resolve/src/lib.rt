//! Locks that stand in the way of a request.
#![tactic(auto)]

pub mod resolve_lock;
pub mod send;
mod shard;

pub use resolve_lock::ResolveLock;
