//! The ends of a run can move between threads.

use crate::program::End;
use txn_kv::send::can_move;

pub fn ends_can_move() {
    can_move::<End>();
}
