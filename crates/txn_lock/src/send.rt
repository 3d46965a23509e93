//! Each type of this crate can move between threads.

use crate::kept::Kept;
use crate::resolve_tries::ResolveTries;
use crate::ruling::Ruling;
use crate::verdict::Verdict;
use txn_kv::send::can_move;

/// The types of this crate do.
pub fn types_can_move() {
    can_move::<Kept>();
    can_move::<ResolveTries>();
    can_move::<Ruling>();
    can_move::<Verdict>();
}
