//! Each type of this crate can move between threads.

use crate::search_stage::SearchStage;
use std::marker::Send;

/// Accepts the types that can move between threads, and no other.
pub fn can_move<T: Send>() {}

/// The types of this crate do.
pub fn searches_can_move() {
    can_move::<SearchStage>();
}
