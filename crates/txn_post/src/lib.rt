//! The mail of a run: the requests that were sent and what became of them, the sleeps, and the tickets that name both.
#![tactic(auto)]

mod lanes;
pub mod letter;
pub mod post;
mod room;
pub mod send;

pub use letter::Letter;
pub use post::{Place, Post};
