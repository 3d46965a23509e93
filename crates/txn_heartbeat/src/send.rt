//! The job can move between threads where its plan can.

use crate::heartbeat_job::HeartbeatJob;
use std::marker::Send;
use txn_kv::send::can_move;

pub fn jobs_can_move<H: Send>() {
    can_move::<HeartbeatJob<H>>();
}
