//! Clients whose transactions have heartbeats.
#![tactic(auto)]

pub mod heartbeats;
pub mod pulse;
pub mod send;

pub use heartbeats::Heartbeats;
