//! What settles one lock that stands in the way of others.
#![tactic(auto)]

pub mod cleanup;
pub mod decision;
pub mod kept;
pub mod removal;
pub mod resolve_tries;
pub mod ruling;
pub mod send;
pub mod verdict;

pub use cleanup::{CleanupPlan, cleanup_plan};
pub use decision::{Decision, decision_plan, keep_decision};
pub use kept::Kept;
pub use removal::{PessimisticRollbackPlan, pessimistic_rollback_plan};
pub use resolve_tries::{ResolveLockWithRetry, ResolveStep, ResolveTries, resolve_lock_with_retry};
pub use ruling::Ruling;
pub use verdict::Verdict;
