//! A client of a cluster: it makes transactions, and tells the time.
#![tactic(auto)]

pub mod client;
pub mod client_answer;
pub mod client_call;
pub mod laws;
pub mod send;

pub use client::Client;
pub use client_answer::ClientAnswer;
pub use client_call::ClientCall;
