//! Each type of this crate can move between threads, where the plans that it holds can.

use crate::either::Either;
use std::marker::Send;
use txn_plan::Plan;

/// Accepts the types that can move between threads, and no other.
pub fn can_move<T: Send>() {}

/// One of two plans that can.
pub fn plans_can_move<A: Plan + Send, B: Plan + Send>() {
    can_move::<Either<A, B>>();
}
