//! What goes between clients and a machine can move between threads.

use crate::turn::Turn;
use txn_kv::send::can_move;

pub fn turns_can_move() {
    can_move::<Turn>();
}
