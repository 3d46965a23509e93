//! What stores answer, and which timestamps there are.
ghost use Rattle.std.specs.Prelude.{IfSome};
ghost use Rattle.txn_kv.specs.Timestamp.{HasVersion};
ghost use Rattle.txn_history.specs.Arrivals.{IsTimeAnswer, MayArrive};

use case_words::{number, word};
use std::alloc::Global;
use txn_kv::{
    Arrival, BatchRollbackResponse, CommitResponse, Error, Internal, Items, Key, KeyError,
    PrewriteResponse, Reply, Timestamp,
};

/// Where all starts.
pub fn first() -> Timestamp
    ensures { HasVersion result }
{
    Timestamp {
        physical: 0,
        logical: 1,
        suffix_bits: 0,
    }
}

/// What the oracle gives.
pub fn second() -> Timestamp
    ensures { HasVersion result }
{
    Timestamp {
        physical: 0,
        logical: 2,
        suffix_bits: 0,
    }
}

/// What comes by the words from a place on, if they tell it.
pub fn arrival(alloc: Global, words: &[&str], at: usize) -> Option<Arrival>
    ensures { IfSome result MayArrive }
{
    let number = number(words, at.min(9) + 1);
    match word(words, at) {
        "given" => Some(Arrival::Time {
            ask: number,
            answer: Ok(second()),
        }),
        "not_given" => Some(Arrival::Time {
            ask: number,
            answer: oracle_lost(),
        }),
        "lost" => Some(Arrival::Lost { number }),
        "slept" => Some(Arrival::Slept { number }),
        name => match reply(alloc, name) {
            Some(reply) => Some(Arrival::Reply { number, reply }),
            None => None,
        },
    }
}

fn oracle_lost() -> txn_kv::Result<Timestamp>
    ensures { IsTimeAnswer result }
{
    Err(Error::InternalError {
        what: Internal::OracleLost,
    })
}

/// What a store answers, if the word tells it.
pub fn reply(alloc: Global, name: &str) -> Option<Reply> {
    match name {
        "prewritten" => Some(prewrite(Items::new(alloc))),
        "conflict" => Some(prewrite(conflict(alloc))),
        "committed" => Some(commit(None)),
        "no_lock" => Some(commit(no_lock(alloc))),
        "rolled_back" => Some(rollback(None)),
        "abort" => Some(rollback(abort(alloc))),
        _ => None,
    }
}

fn prewrite(errors: Items<KeyError>) -> Reply {
    Reply::Prewrite(PrewriteResponse {
        region_error: None,
        errors,
        min_commit_ts: 0,
        one_pc_commit_ts: 0,
    })
}

fn commit(error: Option<KeyError>) -> Reply {
    Reply::Commit(CommitResponse {
        region_error: None,
        error,
        commit_version: 2,
    })
}

fn rollback(error: Option<KeyError>) -> Reply {
    Reply::BatchRollback(BatchRollbackResponse {
        region_error: None,
        error,
    })
}

/// Another transaction wrote a key since the start.
fn conflict(alloc: Global) -> Items<KeyError> {
    let mut errors = Items::new(alloc);
    let _ = errors.push(KeyError::WriteConflict {
        key: Key::empty(alloc),
        start: 1,
        commit: 2,
    });
    errors
}

/// The lock of the key is gone.
fn no_lock(alloc: Global) -> Option<KeyError> {
    Some(KeyError::TxnLockNotFound {
        key: Key::empty(alloc),
    })
}

/// The key is committed.
fn abort(alloc: Global) -> Option<KeyError> {
    Some(KeyError::Abort {
        key: Key::empty(alloc),
        start: 1,
        commit: 2,
    })
}
