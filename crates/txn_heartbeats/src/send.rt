//! They can move between threads where what they are made of can.

use crate::heartbeats::Heartbeats;
use std::marker::Send;
use txn_kv::send::can_move;

pub fn heartbeats_can_move<S: Send, H: Send>() {
    can_move::<Heartbeats<S, H>>();
}
