//! What a plan over many regions does about a failure, and in which order its tasks run and are answered.
#![tactic(auto)]

pub mod outcome;
pub mod place;
pub mod queue;
pub mod remedy;
pub mod send;
mod walk;

pub use outcome::{all_or_first, keep_all};
pub use place::{Parts, Place};
pub use queue::{MAX_RUNNING, Queue};
pub use remedy::{CacheChange, Next, Remedy, on_loss, on_region_error, remedy_of};
