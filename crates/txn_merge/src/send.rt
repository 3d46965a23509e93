//! Each type of this crate can move between threads.

use crate::cleanup_locks_result::CleanupLocksResult;
use crate::merge::{Collect, CollectError, CollectSingle, CollectWithShard};
use crate::process::DefaultProcessor;
use crate::response_with_shard::ResponseWithShard;
use crate::retry_options::RetryOptions;
use crate::secondary_locks_status::SecondaryLocksStatus;
use crate::transaction_status::{TransactionStatus, TransactionStatusKind};
use std::marker::Send;
use txn_kv::{Items, Mutation, PessimisticLockResponse};

/// Accepts the types that can move between threads, and no other.
pub fn can_move<T: Send>() {}

/// The types of this crate do.
pub fn answers_can_move() {
    can_move::<ResponseWithShard<PessimisticLockResponse, Items<Mutation>>>();
    can_move::<TransactionStatusKind>();
    can_move::<TransactionStatus>();
    can_move::<SecondaryLocksStatus>();
    can_move::<CleanupLocksResult>();
    can_move::<RetryOptions>();
}

/// So do the ways to merge and to process.
pub fn ways_can_move() {
    can_move::<Collect>();
    can_move::<CollectSingle>();
    can_move::<CollectError>();
    can_move::<CollectWithShard>();
    can_move::<DefaultProcessor>();
}
