//! Plans that run one after the other, as one plan: what each answered decides what comes next.
#![tactic(auto)]

pub mod one_of;
pub mod routine;
pub mod routine_plan;
pub mod send;
pub mod stage;

pub use one_of::OneOf;
pub use routine::{Next, Routine};
pub use routine_plan::RoutinePlan;
