//! What cuts one request to the regions that its keys lie in.
#![tactic(auto)]

pub mod batchable;
mod by_key;
mod by_keys;
mod by_range;
mod in_bytes;
mod law;
pub mod next_batch;
pub mod send;
pub mod shard_list;
pub mod shardable;
pub mod single_key;
mod sorted;
pub mod store_request;

pub use batchable::{Batchable, TXN_COMMIT_BATCH_SIZE};
pub use law::parts_are_licensed;
pub use next_batch::{HasNextBatch, NextBatch};
pub use shard_list::ShardList;
pub use shardable::Shardable;
pub use single_key::SingleKey;
pub use store_request::StoreRequest;
