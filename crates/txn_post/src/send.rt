//! The mail of a run can move between threads.

use crate::post::Post;
use txn_kv::send::can_move;

pub fn mail_can_move() {
    can_move::<Post>();
}
