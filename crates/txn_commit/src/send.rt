//! Each type of this crate can move between threads.

use crate::commit_parts::CommitParts;
use crate::committer::{CommitterAnswer, CommitterCall};
use crate::primary_commits::PrimaryCommits;
use crate::secondary_job::SecondaryJob;
use std::marker::Send;
use txn_kv::send::can_move;

/// The types of this crate do.
pub fn parts_can_move() {
    can_move::<CommitParts>();
    can_move::<CommitterAnswer>();
    can_move::<PrimaryCommits>();
}

/// A commit, and the job behind it, do where their plans do.
pub fn commits_can_move<P: Send>() {
    can_move::<CommitterCall<P>>();
    can_move::<SecondaryJob<P>>();
}
