//! Transactions as their users know them.
#![tactic(auto)]

pub mod close_answer;
pub mod heartbeat;
pub mod laws;
pub mod options;
pub mod send;
pub mod status;
pub mod transaction;
pub mod ttl;
pub mod txn_answer;

pub use close_answer::CloseAnswer;
pub use heartbeat::Heartbeat;
pub use options::{CheckLevel, HeartbeatOption, TransactionKind, TransactionOptions};
pub use status::Status;
pub use transaction::Transaction;
pub use txn_answer::TxnAnswer;
