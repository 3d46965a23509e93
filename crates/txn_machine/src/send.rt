//! A machine can move between threads, where its clients can.

use crate::machine::Machine;
use txn_kv::send::can_move;
use txn_side::ClientSide;

pub fn machines_can_move<S: ClientSide + Send>() {
    can_move::<Machine<S>>();
}
