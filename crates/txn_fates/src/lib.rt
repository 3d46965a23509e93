//! What became of each request of a run: who handled it, what its client was told, and what it changed. The run's requests are handled
//! once more for that, by a store of their own.
//!
//! The contracts say that each function ends and is safe. What it tells of a run is tested, by the pictures beside the scripts of
//! `examples/`, and not proved.
#![tactic(auto)]

mod cast;
mod event;
mod fates;
mod replay;
mod replies;
mod stamps;

pub use cast::{Cast, Life, is_skipped};
pub use fates::{Fate, Fates, Span, Told};
pub use replay::fates_of;
