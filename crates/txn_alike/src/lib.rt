//! Whether two reports tell the same.
#![tactic(auto)]

pub mod alike;
mod outcomes;
pub mod reports;
mod requests;

pub use alike::Alike;
pub use reports::{are_alike, are_beats};
