//! The plans by which the requests of a commit and a rollback go to the regions of their keys.
#![tactic(auto)]

pub mod batch_rollback;
pub mod commit;
pub mod done;
pub mod has_causes;
pub mod heartbeat;
pub mod laws;
pub mod one_each;
pub mod over_regions;
pub mod own;
pub mod prewrite;
pub mod send;
pub mod transaction_plan;
pub mod transaction_plans;

pub use batch_rollback::BatchRollbackPlan;
pub use commit::CommitPlan;
pub use done::Done;
pub use has_causes::Caused;
pub use heartbeat::HeartbeatPlan;
pub use one_each::OneEach;
pub use over_regions::OverRegions;
pub use own::Own;
pub use prewrite::PrewritePlan;
pub use transaction_plan::TransactionPlan;
pub use transaction_plans::TransactionPlans;
