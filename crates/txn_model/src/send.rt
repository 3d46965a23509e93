//! Each type of this crate can move between threads.

use crate::cell::{Cell, Kind, Lock, Write};
use crate::region::StoredRegion;
use crate::store::ModelStore;
use std::marker::Send;

/// Accepts the types that can move between threads, and no other.
pub fn can_move<T: Send>() {}

/// The types of this crate do.
pub fn store_can_move() {
    can_move::<Kind>();
    can_move::<Lock>();
    can_move::<Write>();
    can_move::<Cell>();
    can_move::<StoredRegion>();
    can_move::<ModelStore>();
}
