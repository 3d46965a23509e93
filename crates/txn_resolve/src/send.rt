//! Each type of this crate can move between threads.

use crate::resolve_lock::ResolveLock;
use std::marker::Send;
use txn_kv::{GetRequest, PrewriteRequest};
use txn_plan::{Dispatch, Plan};

/// Accepts the types that can move between threads, and no other.
pub fn can_move<T: Send>() {}

/// The types of this crate do.
pub fn plans_can_move() {
    can_move::<ResolveLock<Dispatch<GetRequest>>>();
    can_move::<ResolveLock<Dispatch<PrewriteRequest>>>();
}

/// A plan around another does where that one does.
pub fn wrappers_can_move<P: Plan + Send>() {
    can_move::<ResolveLock<P>>();
}
