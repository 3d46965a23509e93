//! Each type of this crate can move between threads.

use crate::close_answer::CloseAnswer;
use crate::heartbeat::Heartbeat;
use crate::options::TransactionOptions;
use crate::status::Status;
use crate::transaction::Transaction;
use crate::txn_answer::TxnAnswer;
use std::marker::Send;
use txn_kv::send::can_move;

/// The types of this crate do.
pub fn parts_can_move() {
    can_move::<CloseAnswer>();
    can_move::<Heartbeat>();
    can_move::<Status>();
    can_move::<TransactionOptions>();
}

/// A transaction does where its plans do.
pub fn transactions_can_move<C: Send, P: Send>() {
    can_move::<Transaction<C, P>>();
    can_move::<TxnAnswer<P>>();
}
