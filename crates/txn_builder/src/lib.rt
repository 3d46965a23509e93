//! Puts plans together, step by step.
#![tactic(auto)]

pub mod plan_builder;

pub use plan_builder::{NoTarget, PlanBuilder, PlanBuilderPhase, Targetted};
