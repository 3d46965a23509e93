//! One answer of one reply, and how often is tried again.

use crate::replies::lock;
use case_words::{flag, number, show, value, word};
use std::alloc::Global;
use txn_kv::{
    Action, Backoff, CheckTxnStatusResponse, CleanupResponse, GetResponse, Timestamp, TimestampExt,
    TryClone, TxnHeartBeatResponse,
};
use txn_merge::{DefaultProcessor, Process, RetryOptions, TransactionStatus};

fn get(alloc: Global, words: &[&str]) -> GetResponse {
    GetResponse {
        region_error: None,
        error: None,
        value: value(alloc, words, 2),
        not_found: flag(words, 3, "absent"),
    }
}

fn cleanup(words: &[&str]) -> CleanupResponse {
    CleanupResponse {
        region_error: None,
        error: None,
        commit_version: number(words, 2),
    }
}

fn beat(words: &[&str]) -> TxnHeartBeatResponse {
    TxnHeartBeatResponse {
        region_error: None,
        error: None,
        lock_ttl: number(words, 2),
    }
}

/// `COMMIT TTL`, and `locked` where the reply has a lock.
fn status(alloc: Global, words: &[&str]) -> CheckTxnStatusResponse {
    let lock_info = if flag(words, 4, "locked") {
        Some(lock(alloc, "k", false, 0))
    } else {
        None
    };
    CheckTxnStatusResponse {
        region_error: None,
        error: None,
        lock_ttl: number(words, 3),
        commit_version: number(words, 2),
        action: Action::NoAction,
        lock_info,
    }
}

/// Shows a copy, and whether the status is expired and stays what it is at a time in milliseconds.
fn aged(rt: &HostRuntime, mut status: TransactionStatus, ms: u64) {
    show(rt, &status.try_clone());
    status.check_ttl(Timestamp::from_version(ms.saturating_mul(262_144)));
    show(rt, &(status.is_expired, status.is_cacheable()));
}

fn status_at(rt: &HostRuntime, words: &[&str]) {
    match DefaultProcessor.process(Ok(status(rt.alloc(), words))) {
        Ok(status) => aged(rt, status, number(words, 5)),
        Err(error) => show(rt, &error),
    }
}

pub fn serve(rt: &HostRuntime, words: &[&str]) {
    match word(words, 1) {
        "get" => show(rt, &DefaultProcessor.process(Ok(get(rt.alloc(), words)))),
        "cleanup" => show(rt, &DefaultProcessor.process(Ok(cleanup(words)))),
        "beat" => show(rt, &DefaultProcessor.process(Ok(beat(words)))),
        _ => status_at(rt, words),
    }
}

/// Shows options, a copy of them, and whether they are ten tries with delays from 2 to 500 ms each.
fn shown(rt: &HostRuntime, options: &RetryOptions) {
    let both = Backoff::no_jitter_backoff(2, 500, 10);
    let copy: Result<_, _> = options.clone();
    show(rt, &copy);
    show(rt, &(*options == RetryOptions::new(both, both)));
}

pub fn options(rt: &HostRuntime, words: &[&str]) {
    match word(words, 1) {
        "optimistic" => shown(rt, &RetryOptions::default_optimistic()),
        "pessimistic" => shown(rt, &RetryOptions::default_pessimistic()),
        _ => shown(rt, &RetryOptions::none()),
    }
}
