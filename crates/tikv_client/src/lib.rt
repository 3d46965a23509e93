//! The transactional client of TiKV under the names of the Rust crate `tikv-client`: what a program needs, and nothing of how a
//! request goes to its regions.
//!
//! A program gives a [`Transport`], which carries requests and brings replies. A [`BlockingClient`] runs each call to its end:
//!
//! ```text
//! let mut client = BlockingClient::new(alloc, transport);
//! let mut transaction = client.begin_optimistic()??;
//! client.put(&mut transaction, key, value)??;
//! let timestamp = client.commit(&mut transaction)??;
//! ```
//!
//! A program that has a loop of its own takes [`Client`] and [`Transaction`]. Their calls post into an [`Outbox`] and are told
//! what came (`docs/API.md`).
#![tactic(auto)]

pub mod transaction;

pub use transaction::{
    BlockingClient, BlockingTransaction, Client, ClientAnswer, ClientCall, SecondaryJob,
    Transaction, TransactionClient, TxnAnswer,
};
pub use txn_blocking::{Answer, PlacementClient, Transport};
pub use txn_core::{
    CheckLevel, CloseAnswer, HeartbeatOption, Status, TransactionKind, TransactionOptions,
};
pub use txn_kv::{
    Arrival, Backoff, BoundRange, Errand, Error, IntoOwnedRange, Key, KvPair, Mutation, NoMemory,
    Op, Outbox, Progress, Reply, Request, Result, Target, Ticket, Timestamp, TimestampExt, Value,
};
pub use txn_merge::RetryOptions;
