//! Each type of this crate can move between threads, where the plans that it holds can.

use crate::one_of::OneOf;
use crate::routine::Routine;
use crate::routine_plan::RoutinePlan;
use std::marker::Send;
use txn_plan::Plan;

/// Accepts the types that can move between threads, and no other.
pub fn can_move<T: Send>() {}

/// One of two plans that can.
pub fn plans_can_move<A: Plan + Send, B: Plan + Send>() {
    can_move::<OneOf<A, B>>();
}

/// A routine that can, with its plans.
pub fn routines_can_move<R: Routine + Send>()
where
    R::Plan: Send,
{
    can_move::<RoutinePlan<R>>();
}
