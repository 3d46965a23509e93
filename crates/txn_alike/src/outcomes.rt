//! Outcomes that are compared. Of errors that of a call after a commit alone is, and all others are denied to be alike.
use crate::alike::Alike;
use txn_kv::Error;
use txn_report::{Outcome, Payload};

impl Alike for Payload {
    fn is_like(&self, other: &Payload) -> bool {
        match (self, other) {
            (Payload::Unit, Payload::Unit) => true,
            (Payload::Number(one), Payload::Number(another)) => *one == *another,
            (Payload::Commit(one), Payload::Commit(another)) => one.is_like(another),
            _ => false,
        }
    }
}

impl Alike for Outcome {
    fn is_like(&self, other: &Outcome) -> bool {
        match (self, other) {
            (Outcome::Ok(one), Outcome::Ok(another)) => one.is_like(another),
            (
                Outcome::Err(Error::OperationAfterCommitError),
                Outcome::Err(Error::OperationAfterCommitError),
            ) => true,
            (Outcome::Unfinished, Outcome::Unfinished) => true,
            (Outcome::Done, Outcome::Done) => true,
            (Outcome::Skipped, Outcome::Skipped) => true,
            _ => false,
        }
    }
}
