//! Each wrapper of this crate can move between threads.

use crate::done::Done;
use crate::own::Own;
use std::marker::Send;

/// Accepts the types that can move between threads, and no other.
pub fn can_move<T: Send>() {}

/// A wrapper does where the plan that it holds does.
pub fn plans_can_move<P: Send>() {
    can_move::<Done<P>>();
    can_move::<Own<P>>();
}
