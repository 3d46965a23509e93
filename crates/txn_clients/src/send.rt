//! Clients can move between threads where the plans of their transactions can.

use crate::clients::Clients;
use std::marker::Send;
use txn_kv::send::can_move;

pub fn clients_can_move<P: Send>() {
    can_move::<Clients<P>>();
}
