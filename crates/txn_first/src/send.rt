//! A machine can move between threads.

use crate::machine::Machine;
use crate::note::Ending;
use txn_kv::send::can_move;

/// The types of this crate that a machine or its run holds do.
pub fn machines_can_move() {
    can_move::<Machine>();
    can_move::<Ending>();
}
