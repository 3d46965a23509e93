//! A reply in a few words.
#![tactic(auto)]

use txn_kv::{GetRegionResponse, KeyError, NoMemory, RegionErr, Reply};
use txn_model::ModelStore;
use txn_words::{Piece, push};

fn region_words(error: &RegionErr) -> &'static [u8] {
    match error {
        RegionErr::NotLeader { .. } => b"NotLeader",
        RegionErr::RegionNotFound { .. } => b"RegionNotFound",
        RegionErr::EpochNotMatch { .. } => b"EpochNotMatch",
        RegionErr::ServerIsBusy => b"ServerIsBusy",
        _ => b"region error",
    }
}

fn key_words(error: &KeyError) -> &'static [u8] {
    match error {
        KeyError::Locked(_) => b"Locked",
        KeyError::Abort { .. } => b"Abort",
        KeyError::WriteConflict { .. } => b"WriteConflict",
        KeyError::AlreadyExist { .. } => b"AlreadyExist",
        KeyError::TxnLockNotFound { .. } => b"TxnLockNotFound",
        KeyError::CommitTsExpired { .. } => b"CommitTsExpired",
        KeyError::TxnNotFound { .. } => b"TxnNotFound",
        _ => b"key error",
    }
}

fn of_region(error: &Option<RegionErr>) -> Option<&'static [u8]> {
    match error {
        Some(error) => Some(region_words(error)),
        None => None,
    }
}

fn of_key(error: &Option<KeyError>) -> Option<&'static [u8]> {
    match error {
        Some(error) => Some(key_words(error)),
        None => None,
    }
}

fn of_keys(errors: &[KeyError]) -> Option<&'static [u8]> {
    match errors.first() {
        Some(error) => Some(key_words(error)),
        None => None,
    }
}

/// An error of the region comes before one of a key.
fn first(region: Option<&'static [u8]>, key: Option<&'static [u8]>) -> Option<&'static [u8]> {
    match region {
        Some(words) => Some(words),
        None => key,
    }
}

/// Why a request was refused, if it was.
pub fn refusal(reply: &Reply) -> Option<&'static [u8]> {
    match reply {
        Reply::Get(r) => first(of_region(&r.region_error), of_key(&r.error)),
        Reply::BatchGet(r) => first(of_region(&r.region_error), of_key(&r.error)),
        Reply::Scan(r) => first(of_region(&r.region_error), of_key(&r.error)),
        Reply::Prewrite(r) => first(of_region(&r.region_error), of_keys(r.errors.as_slice())),
        Reply::Commit(r) => first(of_region(&r.region_error), of_key(&r.error)),
        Reply::Cleanup(r) => first(of_region(&r.region_error), of_key(&r.error)),
        Reply::BatchRollback(r) => first(of_region(&r.region_error), of_key(&r.error)),
        Reply::PessimisticRollback(r) => {
            first(of_region(&r.region_error), of_keys(r.errors.as_slice()))
        }
        Reply::PessimisticLock(r) => {
            first(of_region(&r.region_error), of_keys(r.errors.as_slice()))
        }
        Reply::ResolveLock(r) => first(of_region(&r.region_error), of_key(&r.error)),
        Reply::ScanLock(r) => first(of_region(&r.region_error), of_key(&r.error)),
        Reply::TxnHeartBeat(r) => first(of_region(&r.region_error), of_key(&r.error)),
        Reply::CheckTxnStatus(r) => first(of_region(&r.region_error), of_key(&r.error)),
        Reply::CheckSecondaryLocks(r) => first(of_region(&r.region_error), of_key(&r.error)),
        Reply::UnsafeDestroyRange(r) => of_region(&r.region_error),
        _ => None,
    }
}

fn push_region(words: &mut Vec<u8>, reply: &GetRegionResponse) -> Result<(), NoMemory> {
    let id = match &reply.region {
        Some(region) => region.id,
        None => 0,
    };
    let leader = match reply.leader {
        Some(peer) => peer.store_id,
        None => 0,
    };
    push(
        words,
        &[
            Piece::Word(b"region "),
            Piece::Number(id),
            Piece::Word(b" at store "),
            Piece::Number(leader),
        ],
    )
}

/// The reply that a store has just given.
pub fn push_reply(words: &mut Vec<u8>, store: &ModelStore, reply: &Reply) -> Result<(), NoMemory> {
    if let Some(refusal) = refusal(reply) {
        return push(words, &[Piece::Word(refusal)]);
    }
    match reply {
        Reply::GetRegion(found) => push_region(words, found),
        Reply::Tso(told) => {
            let name: &[u8] = if told.count > 1 {
                b"timestamps to "
            } else {
                b"timestamp "
            };
            push(words, &[Piece::Word(name), Piece::Number(store.last())])
        }
        Reply::GetStore(_) => push(words, &[Piece::Word(b"up")]),
        _ => push(words, &[Piece::Word(b"ok")]),
    }
}
