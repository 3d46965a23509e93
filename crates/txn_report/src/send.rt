//! Each type of this crate can move between threads.

use crate::outcome::{Outcome, Payload};
use crate::report::{Report, SentNote, SleepNote};
use txn_kv::send::can_move;

/// The types of this crate do.
pub fn reports_can_move() {
    can_move::<Payload>();
    can_move::<Outcome>();
    can_move::<SentNote>();
    can_move::<SleepNote>();
    can_move::<Report>();
}
