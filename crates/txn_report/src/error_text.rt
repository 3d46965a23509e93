//! The text of an error at the end of a text.

ghost use Rattle.std.specs.Prelude.{◌≡◌, ◌++◌, codes, decimal, map, OnOk};
ghost use Rattle.std.specs.List.{flat_map};
ghost use Rattle.txn_report.specs.ErrorText.{text_of_bytes, text_of_internal, text_of_region_err, name_of_key_error, key_of_key_error, text_of_key_error, text_of_lock_info, text_of_lock_infos, text_of_ticket, separator, joined, text_of_error};

use crate::words::{push_bytes, push_number, push_word};
use txn_kv::{Error, Internal, Key, KeyError, LockInfo, NoMemory, RegionErr, Ticket};

fn push_words(out: &mut Vec<u8>, first: &[u8], second: &[u8]) -> Result<(), NoMemory>
    ensures { OnOk result (out.new.items ≡ out.old.items ++ (first.now ++ second.now)) }
{
    push_word(out, first)?;
    push_word(out, second)
}

fn push_numbered(out: &mut Vec<u8>, name: &[u8], n: u64) -> Result<(), NoMemory>
    ensures { OnOk result (out.new.items ≡ out.old.items ++ (name.now ++ decimal n)) }
{
    push_word(out, name)?;
    push_number(out, n)
}

fn internal_name(what: &Internal) -> &'static [u8]
    ensures { result.now ≡ text_of_internal what.now }
{
    match what {
        Internal::BadEnd { .. } => b"BadEnd",
        Internal::BadPadding { .. } => b"BadPadding",
        Internal::ReversedRegion { .. } => b"ReversedRegion",
        Internal::NoEpoch { .. } => b"NoEpoch",
        Internal::OracleLost => b"OracleLost",
        Internal::OracleCount { .. } => b"OracleCount",
        Internal::OracleEmpty => b"OracleEmpty",
        Internal::WrongReply => b"WrongReply",
        Internal::Shape { .. } => b"Shape",
        Internal::OddStatus => b"OddStatus",
        Internal::UnlikeCache { .. } => b"UnlikeCache",
    }
}

fn region_error_name(error: &RegionErr) -> &'static [u8]
    ensures { result.now ≡ text_of_region_err error.now }
{
    match error {
        RegionErr::NotLeader { .. } => b"NotLeader",
        RegionErr::RegionNotFound { .. } => b"RegionNotFound",
        RegionErr::EpochNotMatch { .. } => b"EpochNotMatch",
        RegionErr::StoreNotMatch => b"StoreNotMatch",
        RegionErr::StaleCommand => b"StaleCommand",
        RegionErr::ServerIsBusy => b"ServerIsBusy",
        RegionErr::RaftEntryTooLarge => b"RaftEntryTooLarge",
        RegionErr::MaxTimestampNotSynced => b"MaxTimestampNotSynced",
        RegionErr::Unknown => b"Unknown",
    }
}

fn key_error_name(error: &KeyError) -> &'static [u8]
    ensures { result.now ≡ name_of_key_error error.now }
{
    match error {
        KeyError::Locked(_) => b"Locked",
        KeyError::Abort { .. } => b"Abort",
        KeyError::WriteConflict { .. } => b"WriteConflict",
        KeyError::AlreadyExist { .. } => b"AlreadyExist",
        KeyError::PessimisticLockNotFound { .. } => b"PessimisticLockNotFound",
        KeyError::TxnLockNotFound { .. } => b"TxnLockNotFound",
        KeyError::CommitTsExpired { .. } => b"CommitTsExpired",
        KeyError::TxnNotFound { .. } => b"TxnNotFound",
        KeyError::PrimaryMismatch(_) => b"PrimaryMismatch",
    }
}

/// The key at which a store refused.
fn refused_key(error: &KeyError) -> &Key
    ensures { result.now ≡ key_of_key_error error.now }
{
    match error {
        KeyError::Locked(lock) | KeyError::PrimaryMismatch(lock) => &lock.key,
        KeyError::Abort { key, .. }
        | KeyError::WriteConflict { key, .. }
        | KeyError::AlreadyExist { key }
        | KeyError::PessimisticLockNotFound { key }
        | KeyError::TxnLockNotFound { key }
        | KeyError::CommitTsExpired { key, .. }
        | KeyError::TxnNotFound { key, .. } => key,
    }
}

fn push_key_error(out: &mut Vec<u8>, error: &KeyError) -> Result<(), NoMemory>
    ensures { OnOk result (out.new.items ≡ out.old.items ++ (codes "KeyError " ++ text_of_key_error error.now)) }
{
    push_words(out, b"KeyError ", key_error_name(error))?;
    push_word(out, b" ")?;
    push_bytes(out, refused_key(error).as_slice())
}

fn push_lock_info(out: &mut Vec<u8>, lock: &LockInfo) -> Result<(), NoMemory>
    ensures { OnOk result (out.new.items ≡ out.old.items ++ text_of_lock_info lock.now) }
{
    push_word(out, b" ")?;
    push_bytes(out, lock.key.as_slice())?;
    push_word(out, b" ")?;
    push_number(out, lock.lock_version)
}

fn push_lock_infos(out: &mut Vec<u8>, locks: &[LockInfo]) -> Result<(), NoMemory>
    ensures { OnOk result (out.new.items ≡ out.old.items ++ flat_map text_of_lock_info locks.now) }
{
    for lock in locks {
        push_lock_info(out, lock)?;
    }
    Ok(())
}

fn push_count_and_locks(out: &mut Vec<u8>, locks: &[LockInfo]) -> Result<(), NoMemory>
    ensures { OnOk result (out.new.items ≡ out.old.items ++ text_of_lock_infos locks.now) }
{
    push_number(out, locks.len() as u64)?;
    push_lock_infos(out, locks)
}

fn push_unresolved(out: &mut Vec<u8>, locks: &[LockInfo]) -> Result<(), NoMemory>
    ensures { OnOk result (out.new.items ≡ out.old.items ++ (codes "ResolveLockError " ++ text_of_lock_infos locks.now)) }
{
    push_word(out, b"ResolveLockError ")?;
    push_count_and_locks(out, locks)
}

/// The ticket of a request that was lost.
fn push_lost(out: &mut Vec<u8>, ticket: Ticket) -> Result<(), NoMemory>
    ensures { OnOk result (out.new.items ≡ out.old.items ++ (codes "GrpcAPI " ++ text_of_ticket ticket)) }
{
    push_numbered(out, b"GrpcAPI ", ticket.line)?;
    let point: &[u8] = if ticket.beat { b".h" } else { b"." };
    push_numbered(out, point, ticket.number)
}

fn push_unknown_key(out: &mut Vec<u8>, key: &Key) -> Result<(), NoMemory>
    ensures { OnOk result (out.new.items ≡ out.old.items ++ (codes "RegionForKeyNotFound " ++ text_of_bytes key.now)) }
{
    push_word(out, b"RegionForKeyNotFound ")?;
    push_bytes(out, key.as_slice())
}

#[cycle(push_error)]
pub fn push_error(out: &mut Vec<u8>, error: &Error) -> Result<(), NoMemory>
    ensures { OnOk result (out.new.items ≡ out.old.items ++ text_of_error error.now) }
{
    match error {
        Error::Unimplemented => push_word(out, b"Unimplemented"),
        Error::DuplicateKeyInsertion => push_word(out, b"DuplicateKeyInsertion"),
        Error::ResolveLockError(locks) => push_unresolved(out, locks.as_slice()),
        Error::OperationAfterCommitError => push_word(out, b"OperationAfterCommitError"),
        Error::OnePcFailure => push_word(out, b"OnePcFailure"),
        Error::NoPrimaryKey => push_word(out, b"NoPrimaryKey"),
        Error::GrpcAPI(ticket) => push_lost(out, *ticket),
        Error::RegionError(error) => push_words(out, b"RegionError ", region_error_name(error)),
        Error::UndeterminedError(inner) => push_inner(out, b"UndeterminedError [", inner),
        Error::KeyError(error) => push_key_error(out, error),
        Error::ExtractedErrors(errors) => push_errors(out, b"ExtractedErrors [", errors),
        Error::MultipleKeyErrors(errors) => push_errors(out, b"MultipleKeyErrors [", errors),
        Error::RegionForKeyNotFound { key } => push_unknown_key(out, key),
        Error::RegionNotFoundInResponse { region_id } => {
            push_numbered(out, b"RegionNotFoundInResponse ", *region_id)
        }
        Error::LeaderNotFound { region_id } => push_numbered(out, b"LeaderNotFound ", *region_id),
        Error::KvError { message } => push_words(out, b"KvError ", message.as_bytes()),
        Error::InternalError { what } => push_words(out, b"InternalError ", internal_name(what)),
        Error::StringError(text) => push_words(out, b"StringError ", text.as_bytes()),
        Error::PessimisticLockError { inner, .. } => {
            push_inner(out, b"PessimisticLockError [", inner)
        }
        Error::OutOfMemory => push_word(out, b"OutOfMemory"),
    }
}

#[cycle(push_error)]
fn push_inner(out: &mut Vec<u8>, name: &[u8], inner: &Error) -> Result<(), NoMemory>
    ensures { OnOk result (out.new.items ≡ out.old.items ++ (name.now ++ text_of_error inner.now ++ codes "]")) }
{
    push_word(out, name)?;
    push_error(out, inner)?;
    push_word(out, b"]")
}

#[cycle(push_error)]
fn push_errors(out: &mut Vec<u8>, name: &[u8], errors: &[Error]) -> Result<(), NoMemory>
    ensures { OnOk result (out.new.items ≡ out.old.items ++ (name.now ++ joined (map text_of_error errors.now) ++ codes "]")) }
{
    push_word(out, name)?;
    for (i, error) in errors.iter().enumerate() {
        push_separator(out, i)?;
        push_error(out, error)?;
    }
    push_word(out, b"]")
}

/// What stands before the text of the error that follows `i` others.
fn push_separator(out: &mut Vec<u8>, i: usize) -> Result<(), NoMemory>
    ensures { OnOk result (out.new.items ≡ out.old.items ++ separator i) }
{
    let mark: &[u8] = if i == 0 { b"" } else { b"; " };
    push_word(out, mark)
}
