//! Codecs of requests, copies of stores, and what has a key.

use case_words::{key, show, word};
use std::alloc::Global;
use txn_kv::{
    Assertion, GetRequest, Items, Key, KvPair, Mutation, Op, Peer, Region, RegionWithLeader,
};
use txn_region::as_key::AsKey;
use txn_region::codec::{ApiV1RawCodec, ApiV1TxnCodec, ApiV2TxnCodec, Codec, EncodedRequest};
use txn_region::store::{RegionStore, Store};

fn get(alloc: Global) -> GetRequest {
    GetRequest {
        context: None,
        key: Key::empty(alloc),
        version: 7,
    }
}

/// Shows whether the codec leaves a request as it is.
fn unchanged<C: Codec>(rt: &HostRuntime, codec: &C) {
    let encoded = EncodedRequest::new(get(rt.alloc()), codec);
    show(rt, &(encoded.inner == get(rt.alloc())));
}

/// Shows the context that the codec sets.
fn context<C: Codec>(rt: &HostRuntime, codec: &C) {
    let mut request = get(rt.alloc());
    codec.encode_request(&mut request);
    show(rt, &request.context);
}

fn txn(rt: &HostRuntime) {
    let copy: Result<_, _> = ApiV1TxnCodec::default().clone();
    if let Ok(codec) = copy {
        unchanged(rt, &codec);
    }
}

fn raw(rt: &HostRuntime) {
    let copy: Result<_, _> = ApiV1RawCodec::default().clone();
    if let Ok(codec) = copy {
        unchanged(rt, &codec);
    }
}

fn second(rt: &HostRuntime) {
    let copy: Result<_, _> = ApiV2TxnCodec::new(3).clone();
    if let Ok(codec) = copy {
        context(rt, &codec);
    }
}

fn encoded(rt: &HostRuntime, key: Key) {
    let encoded = EncodedRequest { inner: key };
    if let Ok(copy) = encoded.try_clone() {
        show(rt, &(copy.inner == encoded.inner));
    }
}

fn region_store(rt: &HostRuntime) {
    let region = Region {
        id: 2,
        start_key: Key::empty(rt.alloc()),
        end_key: Key::empty(rt.alloc()),
        region_epoch: None,
    };
    let store = RegionStore::new(RegionWithLeader::new(region, Some(Peer::default())), 41);
    if let Ok(copy) = store.try_clone() {
        show(rt, &(copy == store));
    }
    show(rt, &Store::new(4));
}

fn mutation(key: Key, value: Items<u8>) -> Mutation {
    Mutation {
        op: Op::Del,
        key,
        value,
        assertion: Assertion::None,
    }
}

/// Shows the key of a key, of a pair and of a mutation.
fn keyed(rt: &HostRuntime, words: &[&str]) {
    let alloc = rt.alloc();
    show(rt, (&key(alloc, words, 2)).as_key());
    show(
        rt,
        KvPair::new(key(alloc, words, 2), Items::new(alloc)).as_key(),
    );
    show(
        rt,
        mutation(key(alloc, words, 2), Items::new(alloc)).as_key(),
    );
}

pub fn serve(rt: &HostRuntime, words: &[&str]) {
    match word(words, 1) {
        "txn" => txn(rt),
        "raw" => raw(rt),
        "second" => second(rt),
        "encoded" => encoded(rt, key(rt.alloc(), words, 2)),
        "stores" => region_store(rt),
        _ => keyed(rt, words),
    }
}
