//! Each type of this crate can move between threads.

use crate::buffer::Buffer;
use crate::entry::Entry;
use txn_kv::send::can_move;

/// The types of this crate do.
pub fn buffers_can_move() {
    can_move::<Entry>();
    can_move::<Buffer>();
}
