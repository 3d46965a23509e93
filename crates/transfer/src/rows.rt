//! The rows of the input.

use std::alloc::{AllocError, AllocFailed};
use std::io;
use std::str::SplitWhitespace;
use tikv_client::NoMemory;

/// Why the program stops.
#[derive(Debug, Drop)]
pub enum Fault {
    /// A row is none of those that it knows.
    Row,
    NoMemory,
    Io(io::Error),
}

impl From<NoMemory> for Fault {
    fn from(_error: NoMemory) -> Fault {
        Fault::NoMemory
    }
}

impl From<AllocError> for Fault {
    fn from(_error: AllocError) -> Fault {
        Fault::NoMemory
    }
}

impl<T: Drop> From<AllocFailed<T>> for Fault {
    fn from(_error: AllocFailed<T>) -> Fault {
        Fault::NoMemory
    }
}

impl From<io::Error> for Fault {
    fn from(error: io::Error) -> Fault {
        Fault::Io(error)
    }
}

/// What is asked for.
#[derive(Clone, Copy, Debug)]
pub enum Row<'a> {
    Open {
        name: &'a str,
        amount: u64,
    },
    Pay {
        from: &'a str,
        to: &'a str,
        amount: u64,
    },
    /// Requests of a label are lost. Where they are handled, their replies are.
    Lose {
        label: &'a str,
        count: u64,
        handled: bool,
    },
}

fn number(word: &str) -> Result<u64, Fault> {
    word.parse::<u64>().map_err(|_| Fault::Row)
}

/// The next word of a row.
fn next<'a>(words: &mut SplitWhitespace<'a>) -> Result<&'a str, Fault> {
    words.next().ok_or(Fault::Row)
}

impl<'a> Row<'a> {
    pub fn parse(line: &'a str) -> Result<Row<'a>, Fault> {
        let mut words = line.split_whitespace();
        let verb = next(&mut words)?;
        let name = next(&mut words)?;
        let row = match verb {
            "open" => Row::Open {
                name,
                amount: number(next(&mut words)?)?,
            },
            "pay" => Row::Pay {
                from: name,
                to: next(&mut words)?,
                amount: number(next(&mut words)?)?,
            },
            "lose" | "hide" => Row::Lose {
                label: name,
                count: number(next(&mut words)?)?,
                handled: verb == "hide",
            },
            _ => return Err(Fault::Row),
        };
        match words.next() {
            None => Ok(row),
            Some(_) => Err(Fault::Row),
        }
    }
}
