//! A client whose calls return once they have ended, over any transport and any plans.
#![tactic(auto)]

pub mod client_over;
pub mod transport;

pub use client_over::{ClientOver, PlacementClient, TransactionOver};
pub use transport::{Answer, Transport};
