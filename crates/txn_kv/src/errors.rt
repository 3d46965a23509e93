ghost use Rattle.std.specs.Prelude.{◌≡◌, map, IfOk};
ghost use Rattle.txn_kv.specs.ErrorView.{view_of};
ghost use Rattle.txn_kv.specs.Errors.{IsKeyError, IsRegionError};

use crate::items::Value;
use crate::key::Key;
use crate::memory::NoMemory;
use crate::message::{KeyError, LockInfo, RegionErr};
use crate::ticket::Ticket;
use crate::try_clone::TryClone;
use std::alloc::Global;

/// What went wrong inside the client or at a server that keeps to no protocol.
#[derive(Debug, PartialEq, Eq)]
pub enum Internal {
    /// An encoded key whose group at `at` has no marker.
    BadEnd {
        at: usize,
    },
    /// An encoded key whose group at `at` says more than eight bytes of padding, or has another padding byte.
    BadPadding {
        at: usize,
    },
    /// A region whose end is not above its start.
    ReversedRegion {
        id: u64,
    },
    NoEpoch {
        id: u64,
    },
    /// The group of asks for a timestamp was lost.
    OracleLost,
    OracleCount {
        asked: u32,
        given: u32,
    },
    OracleEmpty,
    /// A reply of another kind than the request's, or one that its call has no use for.
    WrongReply,
    /// Two lists that belong together have two lengths.
    Shape {
        expected: u64,
        given: u64,
    },
    /// A status of a transaction that none of its forms fits.
    OddStatus,
    /// A read that differs from what the buffer knows.
    UnlikeCache {
        kept: Option<Value>,
        read: Option<Value>,
    },
}

/// By one call, here and below: a derived drop is opened at each exit that holds such a value, in each crate above.
impl Drop for Internal {
    fn drop(self) {
        match self {
            Internal::UnlikeCache { kept, read } => {
                drop(kept);
                drop(read);
            }
            Internal::BadEnd { at: _ } => {}
            Internal::BadPadding { at: _ } => {}
            Internal::ReversedRegion { id: _ } => {}
            Internal::NoEpoch { id: _ } => {}
            Internal::OracleLost => {}
            Internal::OracleCount { asked: _, given: _ } => {}
            Internal::OracleEmpty => {}
            Internal::WrongReply => {}
            Internal::Shape {
                expected: _,
                given: _,
            } => {}
            Internal::OddStatus => {}
        }
    }
}

impl TryClone for Internal {
    fn try_clone(&self) -> std::result::Result<Internal, NoMemory> {
        Ok(match self {
            Internal::BadEnd { at } => Internal::BadEnd { at: *at },
            Internal::BadPadding { at } => Internal::BadPadding { at: *at },
            Internal::ReversedRegion { id } => Internal::ReversedRegion { id: *id },
            Internal::NoEpoch { id } => Internal::NoEpoch { id: *id },
            Internal::OracleLost => Internal::OracleLost,
            Internal::OracleCount { asked, given } => Internal::OracleCount {
                asked: *asked,
                given: *given,
            },
            Internal::OracleEmpty => Internal::OracleEmpty,
            Internal::WrongReply => Internal::WrongReply,
            Internal::Shape { expected, given } => Internal::Shape {
                expected: *expected,
                given: *given,
            },
            Internal::OddStatus => Internal::OddStatus,
            Internal::UnlikeCache { kept, read } => Internal::UnlikeCache {
                kept: kept.try_clone()?,
                read: read.try_clone()?,
            },
        })
    }
}

/// Why a call of the client ends without its answer.
#[derive(Debug, thiserror::Error)]
pub enum Error {
    #[error("Unimplemented feature")]
    Unimplemented,
    #[error("Duplicate key insertion")]
    DuplicateKeyInsertion,
    #[error("Failed to resolve lock")]
    ResolveLockError(Vec<LockInfo>),
    /// The transaction was committed or rolled back, or that was begun.
    #[error("Cannot read or write data after any attempt to commit or roll back the transaction")]
    OperationAfterCommitError,
    #[error("1PC transaction could not be committed.")]
    OnePcFailure,
    #[error("transaction has no primary key")]
    NoPrimaryKey,
    /// The request of this ticket was lost.
    #[error("gRPC api error: {0}")]
    GrpcAPI(Ticket),
    #[error("Region error: {0:?}")]
    RegionError(Box<RegionErr>),
    #[error("Whether the transaction is committed or not is undetermined")]
    UndeterminedError(Box<Error>),
    #[error("{0:?}")]
    KeyError(Box<KeyError>),
    #[error("Multiple errors: {0:?}")]
    ExtractedErrors(Vec<Error>),
    #[error("Multiple key errors: {0:?}")]
    MultipleKeyErrors(Vec<Error>),
    #[error("Region is not found for key: {key:?}")]
    RegionForKeyNotFound {
        key: Key,
    },
    #[error("Region {region_id} is not found in the response")]
    RegionNotFoundInResponse {
        region_id: u64,
    },
    #[error("Leader of region {region_id} is not found")]
    LeaderNotFound {
        region_id: u64,
    },
    #[error("Kv error. {message}")]
    KvError {
        message: String,
    },
    #[error("{what:?}")]
    InternalError {
        what: Internal,
    },
    #[error("{0}")]
    StringError(String),
    #[error("PessimisticLock error: {inner:?}")]
    PessimisticLockError {
        inner: Box<Error>,
        success_keys: Vec<Key>,
    },
    #[error("out of memory")]
    OutOfMemory,
}

impl Drop for Error {
    fn drop(self) {
        match self {
            Error::ResolveLockError(locks) => drop(locks),
            Error::RegionError(error) => drop(error),
            Error::UndeterminedError(inner) => drop(inner),
            Error::KeyError(error) => drop(error),
            Error::ExtractedErrors(errors) => drop(errors),
            Error::MultipleKeyErrors(errors) => drop(errors),
            Error::RegionForKeyNotFound { key } => drop(key),
            Error::KvError { message } => drop(message),
            Error::InternalError { what } => drop(what),
            Error::StringError(message) => drop(message),
            Error::PessimisticLockError {
                inner,
                success_keys,
            } => {
                drop(inner);
                drop(success_keys);
            }
            Error::Unimplemented => {}
            Error::DuplicateKeyInsertion => {}
            Error::OperationAfterCommitError => {}
            Error::OnePcFailure => {}
            Error::NoPrimaryKey => {}
            Error::GrpcAPI(_) => {}
            Error::RegionNotFoundInResponse { region_id: _ } => {}
            Error::LeaderNotFound { region_id: _ } => {}
            Error::OutOfMemory => {}
        }
    }
}

/// What a call of the client answers.
pub type Result<T> = std::result::Result<T, Error>;

impl Error {
    pub fn region(alloc: Global, error: RegionErr) -> std::result::Result<Error, NoMemory>
        ensures { IfOk result (IsRegionError error) }
    {
        Ok(Error::RegionError(Box::new(alloc, error)?))
    }

    /// An error of the same view, in new memory.
    #[cycle(try_clone)]
    pub fn try_clone(&self) -> std::result::Result<Error, NoMemory>
        ensures { IfOk result (λ copy. view_of copy ≡ view_of self.now) }
    {
        match self {
            Error::UndeterminedError(inner) => {
                let copy = (**inner).try_clone()?;
                Ok(Error::UndeterminedError(Box::new(*Box::allocator(inner), copy)?))
            }
            Error::ExtractedErrors(errors) => {
                Ok(Error::ExtractedErrors(Error::try_clone_all(errors)?))
            }
            Error::MultipleKeyErrors(errors) => {
                Ok(Error::MultipleKeyErrors(Error::try_clone_all(errors)?))
            }
            Error::PessimisticLockError {
                inner,
                success_keys,
            } => {
                let copy = (**inner).try_clone()?;
                Ok(Error::PessimisticLockError {
                    inner: Box::new(*Box::allocator(inner), copy)?,
                    success_keys: Key::try_clone_all(
                        success_keys.as_slice(),
                        *success_keys.allocator(),
                    )?,
                })
            }
            Error::ResolveLockError(locks) => Ok(Error::ResolveLockError(LockInfo::try_clone_all(
                locks.as_slice(),
                *locks.allocator(),
            )?)),
            Error::RegionError(error) => Ok(Error::region(
                *Box::allocator(error),
                (**error).try_clone()?,
            )?),
            Error::KeyError(error) => Ok(Error::key(
                *Box::allocator(error),
                (**error).try_clone()?,
            )?),
            Error::KvError { message } => Ok(Error::KvError {
                message: message.clone()?,
            }),
            Error::StringError(message) => Ok(Error::StringError(message.clone()?)),
            Error::RegionForKeyNotFound { key } => Ok(Error::RegionForKeyNotFound {
                key: key.try_clone()?,
            }),
            Error::InternalError { what } => Ok(Error::InternalError {
                what: what.try_clone()?,
            }),
            Error::GrpcAPI(ticket) => Ok(Error::GrpcAPI(*ticket)),
            Error::RegionNotFoundInResponse { region_id } => {
                Ok(Error::RegionNotFoundInResponse {
                    region_id: *region_id,
                })
            }
            Error::LeaderNotFound { region_id } => Ok(Error::LeaderNotFound {
                region_id: *region_id,
            }),
            Error::Unimplemented => Ok(Error::Unimplemented),
            Error::DuplicateKeyInsertion => Ok(Error::DuplicateKeyInsertion),
            Error::OperationAfterCommitError => Ok(Error::OperationAfterCommitError),
            Error::OnePcFailure => Ok(Error::OnePcFailure),
            Error::NoPrimaryKey => Ok(Error::NoPrimaryKey),
            Error::OutOfMemory => Ok(Error::OutOfMemory),
        }
    }

    #[cycle(try_clone)]
    fn try_clone_all(errors: &Vec<Error>) -> std::result::Result<Vec<Error>, NoMemory>
        ensures { IfOk result (λ copies. map view_of copies.items ≡ map view_of errors.now.items) }
    {
        let mut copies = Vec::new(*errors.allocator());
        for error in errors {
            copies.push(error.try_clone()?)?;
        }
        Ok(copies)
    }

    pub fn key(alloc: Global, error: KeyError) -> std::result::Result<Error, NoMemory>
        ensures { IfOk result (IsKeyError error) }
    {
        Ok(Error::KeyError(Box::new(alloc, error)?))
    }
}

impl From<NoMemory> for Error {
    ghost use Rattle.txn_kv.specs.declared.errors.Error.TheVariants.{OutOfMemory};

    ghost from_gives = { λ _ error. error ≡ OutOfMemory };

    fn from(_error: NoMemory) -> Error {
        Error::OutOfMemory
    }
}
