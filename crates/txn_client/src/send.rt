//! Each type of this crate can move between threads.

use crate::client::Client;
use crate::client_answer::ClientAnswer;
use crate::client_call::ClientCall;
use std::marker::Send;
use txn_kv::send::can_move;
use txn_region::Codec;

/// A client does where its codec does.
pub fn clients_can_move<Cod: Codec + Send>() {
    can_move::<Client<Cod>>();
}

/// Its calls and their answers do where the plans of the transactions do.
pub fn calls_can_move<C: Send, P: Send>() {
    can_move::<ClientCall<C, P>>();
    can_move::<ClientAnswer<C, P>>();
}
