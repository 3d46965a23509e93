//! Where a key's region is and where a store is, as the client knows it.
#![tactic(auto)]

pub mod as_key;
pub mod codec;
mod decoding;
mod grouping;
mod heads;
pub mod known_store;
mod law;
pub mod pd_client;
pub mod pd_rpc_client;
pub mod placement;
pub mod region_cache;
pub mod send;
mod sorted;
mod starts;
pub mod store;
pub mod stores;

pub use as_key::AsKey;
pub use codec::{ApiV1RawCodec, ApiV1TxnCodec, ApiV2TxnCodec, Codec, EncodedRequest};
pub use known_store::KnownStore;
pub use law::{after_any_calls, groups_are_the_input, meeting_regions};
pub use pd_client::PdClient;
pub use pd_rpc_client::PdRpcClient;
pub use region_cache::RegionCache;
pub use store::{RegionStore, Store};
pub use stores::is_valid_tikv_store;
pub use txn_kv::{Look, PdAnswer, PdQuery};
