//! The client of the placement driver that plans look regions and stores up in.

use case_words::{key, keys, number, show};
use std::alloc::Global;
use txn_kv::{
    Items, Key, Look, PdAnswer, PdQuery, Peer, Region, RegionEpoch, RegionWithLeader, StoreId,
    StoreMeta, StoreState, Text,
};
use txn_region::{ApiV1TxnCodec, PdClient, PdRpcClient, RegionStore};

pub type Client = PdRpcClient<ApiV1TxnCodec>;

/// A client that knows nothing and does not encode keys.
pub fn new(alloc: Global) -> Client {
    PdRpcClient::new(alloc, 0, 0, false, ApiV1TxnCodec {})
}

/// A region of epoch 2 and 2.
pub fn region(id: u64, start_key: Key, end_key: Key) -> Region {
    Region {
        id,
        start_key,
        end_key,
        region_epoch: Some(RegionEpoch {
            conf_ver: 2,
            version: 2,
        }),
    }
}

/// The replica on a store.
pub fn peer(store_id: StoreId) -> Option<Peer> {
    Some(Peer { id: 7, store_id })
}

/// `ID START END`: a region.
pub fn told(alloc: Global, words: &[&str]) -> Region {
    region(number(words, 0), key(alloc, words, 1), key(alloc, words, 2))
}

/// The region of all keys, at a store.
pub fn everywhere(alloc: Global, id: u64, store: StoreId) -> RegionStore {
    let region = region(id, Key::empty(alloc), Key::empty(alloc));
    RegionStore::new(RegionWithLeader::new(region, peer(store)), store)
}

/// A store without an address.
pub fn store(alloc: Global, id: StoreId, state: StoreState) -> StoreMeta {
    StoreMeta {
        id,
        address: Text::from_string(String::new(alloc)),
        state,
        labels: Items::new(alloc),
    }
}

/// The client learns an answer. Why it is refused is shown.
fn take(rt: &HostRuntime, pd: &mut Client, query: PdQuery, answer: PdAnswer) {
    if let Err(error) = pd.learn(&query, &Ok(answer)) {
        show(rt, &error);
    }
}

/// The client learns a region and the store of its leader.
fn learn_region(rt: &HostRuntime, pd: &mut Client, region: Region, id: StoreId) {
    let query = PdQuery::RegionId(region.id);
    let region = RegionWithLeader::new(region, peer(id));
    take(rt, pd, query, PdAnswer::Region(region));
    let store = store(rt.alloc(), id, StoreState::Up);
    take(rt, pd, PdQuery::Store(id), PdAnswer::Store(store));
}

/// The client learns the region `ID START END STORE`.
pub fn learn(rt: &HostRuntime, pd: &mut Client, words: &[&str]) {
    learn_region(rt, pd, told(rt.alloc(), words), number(words, 3));
}

/// The client learns the regions that keys divide.
pub fn divide(rt: &HostRuntime, pd: &mut Client, words: &[&str]) {
    let mut id = 1;
    let mut start = Key::empty(rt.alloc());
    for end in keys(rt.alloc(), words, 1) {
        let next = end.try_clone().unwrap_or(Key::empty(rt.alloc()));
        learn_region(rt, pd, region(id, start, end), id);
        id = id.saturating_add(1);
        start = next;
    }
    learn_region(rt, pd, region(id, start, Key::empty(rt.alloc())), id);
}

/// Shows the region at a key with the store of its leader, or what its look-up asks.
fn known_at(rt: &HostRuntime, pd: &mut Client, key: &Key) {
    match pd.region_for_key(key) {
        Ok(Look::Found(region)) => show(rt, &(region.id(), region.leader)),
        other => show(rt, &other),
    }
}

pub fn known(rt: &HostRuntime, pd: &mut Client, words: &[&str]) {
    for key in keys(rt.alloc(), words, 1) {
        known_at(rt, pd, &key);
    }
}
