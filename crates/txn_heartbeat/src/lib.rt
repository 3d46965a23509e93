//! The heartbeat of a transaction: a job that keeps its primary's lock alive, the plans by which its requests go, and what clients
//! lend it.
#![tactic(auto)]

pub mod heart_host;
pub mod heartbeat_job;
pub mod plan_for_heartbeats;
pub mod send;

pub use heart_host::HeartHost;
pub use heartbeat_job::HeartbeatJob;
pub use plan_for_heartbeats::PlanForHeartbeats;
