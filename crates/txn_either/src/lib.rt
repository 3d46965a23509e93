//! One of several kinds of plans, as one type: whoever holds a plan of one kind or of another has one type for both, and one
//! meaning.
#![tactic(auto)]

pub mod either;
pub mod send;

pub use either::Either;
