use std::alloc::{AllocError, AllocFailed};
use std::io;
use txn_kv::{Error, NoMemory};

/// Why a program stops.
#[derive(Debug, Drop)]
pub enum Fault {
    /// A line or a word is none of those that it knows.
    Words,
    NoMemory,
    /// What it tries or times answers this error.
    Client(Error),
    Io(io::Error),
}

impl From<NoMemory> for Fault {
    fn from(_error: NoMemory) -> Fault {
        Fault::NoMemory
    }
}

impl From<AllocError> for Fault {
    fn from(_error: AllocError) -> Fault {
        Fault::NoMemory
    }
}

impl<T: Drop> From<AllocFailed<T>> for Fault {
    fn from(_error: AllocFailed<T>) -> Fault {
        Fault::NoMemory
    }
}

impl From<io::Error> for Fault {
    fn from(error: io::Error) -> Fault {
        Fault::Io(error)
    }
}

impl From<Error> for Fault {
    fn from(error: Error) -> Fault {
        Fault::Client(error)
    }
}
