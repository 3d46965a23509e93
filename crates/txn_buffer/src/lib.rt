//! A transaction's own writes, its locks, and what it has read.
#![tactic(auto)]

mod bounds;
pub mod buffer;
pub mod entry;
pub mod law;
mod merge;
mod pairs;
pub mod send;

pub use buffer::Buffer;
pub use entry::Entry;
