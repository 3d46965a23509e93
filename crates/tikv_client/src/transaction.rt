//! Clients and transactions whose requests go by the plans of `txn_commit_plans`: the plans are part of the types, and these
//! names leave them out.

use txn_blocking::{ClientOver, PlacementClient, TransactionOver};
use txn_commit_plans::TransactionPlan;
use txn_region::ApiV1TxnCodec;

/// A client whose calls return once they have ended. It sends its requests by a transport.
pub type BlockingClient<T> = ClientOver<T, TransactionPlan>;

/// A transaction of such a client.
pub type BlockingTransaction = TransactionOver<TransactionPlan>;

pub type Client = txn_client::Client<ApiV1TxnCodec>;

/// The name of the client at the top of the Rust crate.
pub type TransactionClient = Client;

/// A call that begins a transaction, or asks for a timestamp.
pub type ClientCall = txn_client::ClientCall<PlacementClient, TransactionPlan>;

pub type ClientAnswer = txn_client::ClientAnswer<PlacementClient, TransactionPlan>;

pub type Transaction = txn_core::Transaction<PlacementClient, TransactionPlan>;

pub type TxnAnswer = txn_core::TxnAnswer<TransactionPlan>;

/// Commits the keys of a transaction other than its primary, once that is committed.
pub type SecondaryJob = txn_commit::SecondaryJob<TransactionPlan>;
