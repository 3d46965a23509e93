//! Timestamps and placement, as states that hand out what they want asked: a client's asks for timestamps go to the oracle in
//! groups, and a query to the placement driver is tried up to ten times.
#![tactic(auto)]

pub mod asker;
pub mod cluster;
mod granting;
pub mod oracle;
pub mod pd_call;
pub mod reading;
pub mod retry_client;
pub mod send;
pub mod stage;

pub use asker::Asker;
pub use cluster::Cluster;
pub use oracle::TimestampOracle;
pub use pd_call::PdCall;
pub use retry_client::{RetryClient, RetryClientTrait};
