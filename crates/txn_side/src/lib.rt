//! The client side of a run, as a machine sees it: what its lines ask of the clients, what the clients want done, and which of
//! their calls have ended.
#![tactic(auto)]

pub mod client_side;
pub mod coming;
pub mod send;
pub mod turn;

pub use client_side::ClientSide;
pub use coming::Coming;
pub use turn::{Ending, Posting, Turn};
