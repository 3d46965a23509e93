//! Stand-ins that the tests of several crates share.
#![tactic(auto)]

pub mod no_client;
pub mod own;
pub mod plans;

pub use no_client::NoClient;
pub use plans::Once;
