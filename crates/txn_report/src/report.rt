use crate::outcome::Outcome;
use txn_kv::{Items, Request, Target, Ticket};
use txn_model::ModelStore;

/// A request that was sent, and the line in whose step it was. `askers` are the lines whose asks a Tso request
/// carries, in order; for other requests it is empty.
#[derive(Debug, PartialEq, Eq, Drop)]
pub struct SentNote {
    pub ticket: Ticket,
    pub at: u64,
    pub to: Target,
    pub request: Request,
    pub askers: Items<u64>,
}

/// A sleep that was begun, and the line in whose step it was.
#[derive(Clone, Copy, Debug, PartialEq, Eq)]
pub struct SleepNote {
    pub ticket: Ticket,
    pub at: u64,
}

/// What a script did.
#[derive(Debug, Drop)]
pub struct Report {
    /// One for each line.
    pub outcomes: Items<Outcome>,
    /// For each line the number of the line in whose step its outcome came, and 0 where it is unfinished.
    pub ended: Items<u64>,
    pub sent: Items<SentNote>,
    pub sleeps: Items<SleepNote>,
    /// The tickets of the requests that the store handled, in order.
    pub served: Items<Ticket>,
    pub store: ModelStore,
}
