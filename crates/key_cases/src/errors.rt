//! The texts of errors.

use case_words::{flag, key, number, say, word};
use std::alloc::Global;
use txn_kv::{Error, Internal, KeyError, NoMemory, RegionErr, Ticket};

/// Errors that hold a number at most.
fn plain(words: &[&str]) -> Option<Error> {
    Some(match word(words, 1) {
        "unimplemented" => Error::Unimplemented,
        "duplicate" => Error::DuplicateKeyInsertion,
        "ended" => Error::OperationAfterCommitError,
        "once" => Error::OnePcFailure,
        "primary" => Error::NoPrimaryKey,
        "memory" => Error::OutOfMemory,
        "ticket" => Error::GrpcAPI(Ticket {
            line: number(words, 2),
            beat: flag(words, 3, "beat"),
            number: number(words, 4),
        }),
        "response" => Error::RegionNotFoundInResponse {
            region_id: number(words, 2),
        },
        "leader" => Error::LeaderNotFound {
            region_id: number(words, 2),
        },
        "padding" => Error::InternalError {
            what: Internal::BadPadding { at: 9 },
        },
        _ => return None,
    })
}

/// Errors that hold what takes memory.
fn held(alloc: Global, words: &[&str]) -> Result<Error, NoMemory> {
    match word(words, 1) {
        "locks" => Ok(Error::ResolveLockError(Vec::new(alloc))),
        "stale" => Error::region(alloc, RegionErr::StaleCommand),
        "lost" => Ok(Error::RegionForKeyNotFound {
            key: key(alloc, words, 2),
        }),
        "exists" => Error::key(
            alloc,
            KeyError::AlreadyExist {
                key: key(alloc, words, 2),
            },
        ),
        "kv" => Ok(Error::KvError {
            message: word(words, 2).to_string(alloc)?,
        }),
        "text" => Ok(Error::StringError(word(words, 2).to_string(alloc)?)),
        _ => nested(alloc, words),
    }
}

/// Errors that hold errors.
fn nested(alloc: Global, words: &[&str]) -> Result<Error, NoMemory> {
    match word(words, 1) {
        "undetermined" => Ok(Error::UndeterminedError(Box::new(alloc, Error::OutOfMemory)?)),
        "unlocked" => Ok(Error::PessimisticLockError {
            inner: Box::new(alloc, Error::NoPrimaryKey)?,
            success_keys: Vec::new(alloc),
        }),
        "extracted" => Ok(Error::ExtractedErrors(vec![in alloc;
            Error::NoPrimaryKey,
            Error::OutOfMemory,
        ]?)),
        _ => Ok(Error::MultipleKeyErrors(vec![in alloc; Error::OutOfMemory]?)),
    }
}

fn tell(rt: &HostRuntime, error: Error) {
    if let Ok(copy) = error.try_clone() {
        say(rt, &copy);
    }
}

pub fn serve(rt: &HostRuntime, words: &[&str]) {
    if let Some(error) = plain(words) {
        return tell(rt, error);
    }
    if let Ok(error) = held(rt.alloc(), words) {
        tell(rt, error);
    }
}
