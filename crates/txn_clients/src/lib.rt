//! The clients of a run: lines that ask for timestamps and for writes, and the calls, transactions and jobs that go on at them.
#![tactic(auto)]

mod answer;
mod client_state;
pub mod clients;
mod endings;
mod place;
mod row;
pub mod send;
mod told;
mod transactions;
mod untimed;
mod want;

pub use clients::Clients;
