//! How the replies of many shards become one answer.
//!
//! What a reply says of locks and errors is taken out of it (`HasLocks`, `HasKeyErrors`, `HasRegionError`,
//! `HasRegionErrors`), replies are merged (`Merge`) and made into what was asked for (`Process`), and errors that a
//! value holds take its place (`extract_error`). All of this is about values; the calls that send and wait stand on it.
#![tactic(auto)]

pub mod cleanup_locks_result;
pub mod client;
mod collect;
mod collect_with_shard;
pub mod extract;
pub mod has_key_errors;
pub mod has_locks;
pub mod has_region_error;
pub mod has_region_errors;
pub mod merge;
pub mod process;
pub mod response_with_shard;
pub mod retry_options;
pub mod secondary_locks_status;
pub mod send;
mod taking;
pub mod transaction_status;

pub use cleanup_locks_result::CleanupLocksResult;
pub use client::{KvClient, KvConnect};
pub use extract::extract_error;
pub use has_key_errors::HasKeyErrors;
pub use has_locks::HasLocks;
pub use has_region_error::HasRegionError;
pub use has_region_errors::HasRegionErrors;
pub use merge::{Collect, CollectError, CollectSingle, CollectWithShard, Merge};
pub use process::{DefaultProcessor, Process};
pub use response_with_shard::ResponseWithShard;
pub use retry_options::RetryOptions;
pub use secondary_locks_status::SecondaryLocksStatus;
pub use transaction_status::{TransactionStatus, TransactionStatusKind};
