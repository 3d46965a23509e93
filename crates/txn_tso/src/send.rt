//! Each type of this crate can move between threads.

use crate::asker::Asker;
use crate::cluster::Cluster;
use crate::oracle::TimestampOracle;
use crate::pd_call::PdCall;
use crate::retry_client::RetryClient;
use std::marker::Send;

/// Accepts the types that can move between threads, and no other.
pub fn can_move<T: Send>() {}

/// The types of this crate do.
pub fn states_can_move() {
    can_move::<Asker>();
    can_move::<TimestampOracle>();
    can_move::<Cluster>();
    can_move::<RetryClient>();
    can_move::<PdCall>();
}
