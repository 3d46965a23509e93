//! Each type of this crate can move between threads.

use crate::codec::{ApiV1RawCodec, ApiV1TxnCodec, ApiV2TxnCodec, Codec, EncodedRequest};
use crate::known_store::KnownStore;
use crate::pd_rpc_client::PdRpcClient;
use crate::placement::Placement;
use crate::region_cache::RegionCache;
use crate::store::{RegionStore, Store};
use std::marker::Send;
use txn_kv::{GetRequest, Look, RegionWithLeader, StoreMeta};

/// Accepts the types that can move between threads, and no other.
pub fn can_move<T: Send>() {}

/// The types of this crate do.
pub fn caches_can_move() {
    can_move::<Look<RegionWithLeader>>();
    can_move::<Look<StoreMeta>>();
    can_move::<KnownStore>();
    can_move::<RegionCache>();
}

/// So do clients, whatever their codec, and what they give out.
pub fn clients_can_move<Cod: Codec + Send>() {
    can_move::<Placement>();
    can_move::<PdRpcClient<Cod>>();
    can_move::<RegionStore>();
    can_move::<Store>();
    can_move::<Look<RegionStore>>();
}

/// So do codecs and encoded requests.
pub fn codecs_can_move() {
    can_move::<ApiV1TxnCodec>();
    can_move::<ApiV1RawCodec>();
    can_move::<ApiV2TxnCodec>();
    can_move::<EncodedRequest<GetRequest>>();
}
