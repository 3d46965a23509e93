//! Each type of this crate can move between threads.

use crate::place::{Parts, Place};
use crate::queue::Queue;
use crate::remedy::{CacheChange, Next, Remedy};
use std::marker::Send;

/// Accepts the types that can move between threads, and no other.
pub fn can_move<T: Send>() {}

/// The types of this crate do.
pub fn tasks_can_move() {
    can_move::<CacheChange>();
    can_move::<Next>();
    can_move::<Remedy>();
    can_move::<Parts>();
    can_move::<Place<u64>>();
    can_move::<Queue<u64>>();
}
