//! The calls of the crate, each once. The rows of the request table are tried by the cases of the program `store_cases`.
use std::alloc::Global;
use std::process::Abort;
use txn_kv::{
    ApiVersion, Assertion, CommitRequest, Context, Items, Key, LockInfo, Mutation, Op, Peer,
    PrewriteRequest, RegionEpoch, Reply, Request, Timestamp, TsoRequest, TsoResponse, Value,
};
use txn_model::cell::{Cell, Kind, Lock, Write};
use txn_model::store::ModelStore;

fn key(rt: &impl Abort, alloc: Global) -> Key {
    Key::from([97].to_vec(alloc).expect(rt, "memory"))
}

fn value(rt: &impl Abort, alloc: Global) -> Value {
    Items::from_vec([118].to_vec(alloc).expect(rt, "memory"))
}

/// To the store that leads the only region.
fn here() -> Option<Context> {
    Some(Context {
        region_id: 1,
        region_epoch: Some(RegionEpoch {
            conf_ver: 1,
            version: 1,
        }),
        peer: Some(Peer { id: 1, store_id: 1 }),
        api_version: ApiVersion::V1,
    })
}

fn put(rt: &impl Abort, alloc: Global) -> Mutation {
    Mutation {
        op: Op::Put,
        key: key(rt, alloc),
        value: value(rt, alloc),
        assertion: Assertion::None,
    }
}

fn prewrite(rt: &impl Abort, alloc: Global) -> PrewriteRequest {
    let mutations = vec![in alloc; put(rt, alloc)].expect(rt, "memory");
    PrewriteRequest {
        context: here(),
        mutations: Items::from_vec(mutations),
        primary_lock: key(rt, alloc),
        start_version: 1,
        lock_ttl: 3000,
        txn_size: 1,
        for_update_ts: 0,
        is_pessimistic_lock: Items::new(alloc),
        use_async_commit: false,
        try_one_pc: false,
        secondaries: Items::new(alloc),
    }
}

fn commit(rt: &impl Abort, alloc: Global) -> CommitRequest {
    let keys = vec![in alloc; key(rt, alloc)].expect(rt, "memory");
    CommitRequest {
        context: here(),
        keys: Items::from_vec(keys),
        start_version: 1,
        commit_version: 5,
    }
}

fn lock(rt: &impl Abort, alloc: Global) -> Lock {
    Lock {
        start: 1,
        primary: key(rt, alloc),
        kind: Kind::Put,
        value: value(rt, alloc),
        ttl: 3000,
        for_update: 0,
        min_commit: 0,
        use_async: false,
        secondaries: Items::new(alloc),
    }
}

fn committed_cell(rt: &impl Abort, alloc: Global) -> Cell {
    let write = Write {
        start: 1,
        commit: 5,
        kind: Kind::Put,
        value: value(rt, alloc),
    };
    Cell {
        key: key(rt, alloc),
        lock: None,
        commits: Items::from_vec(vec![in alloc; write].expect(rt, "memory")),
        rolled: Items::new(alloc),
    }
}

#[test]
fn commits_a_key(rt: HostRuntime) {
    let alloc = rt.alloc();
    let mut store = ModelStore::new(alloc).expect(&rt, "memory");
    let prewrite = Request::Prewrite(prewrite(&rt, alloc));
    store.serve(&prewrite).expect(&rt, "memory");
    let commit = Request::Commit(commit(&rt, alloc));
    store.serve(&commit).expect(&rt, "memory");
    let cells = [committed_cell(&rt, alloc)];
    assert_eq!(rt; store.cells(), cells.as_slice());
}

#[test]
fn counts_on(rt: HostRuntime) {
    let mut store = ModelStore::new(rt.alloc()).expect(&rt, "memory");
    let three = Request::Tso(TsoRequest { count: 3 });
    let told = store.serve(&three).expect(&rt, "memory");
    let third = Timestamp {
        physical: 0,
        logical: 3,
        suffix_bits: 0,
    };
    let last = TsoResponse {
        count: 3,
        timestamp: Some(third),
    };
    assert_eq!(rt; told, Reply::Tso(last));
    assert_eq!(rt; store.last(), 3);
}

#[test]
fn opens_with_zeros(rt: HostRuntime) {
    let store = ModelStore::new(rt.alloc()).expect(&rt, "memory");
    assert_eq!(rt; store.clock(), 0);
    assert_eq!(rt; store.max_read(), 0);
    assert_eq!(rt; store.safepoint(), 0);
}

#[test]
fn splits_once_and_leads(rt: HostRuntime) {
    let alloc = rt.alloc();
    let mut store = ModelStore::new(alloc).expect(&rt, "memory");
    let key = key(&rt, alloc);
    assert!(rt; store.split(&key).expect(&rt, "memory"));
    assert!(rt; !store.split(&key).expect(&rt, "memory"));
    assert!(rt; store.lead(2, 3));
    store.set_clock(7);
    assert_eq!(rt; store.clock(), 7);
}

#[test]
fn shows_a_lock(rt: HostRuntime) {
    let alloc = rt.alloc();
    let key = key(&rt, alloc);
    let info = lock(&rt, alloc).info(alloc, &key).expect(&rt, "memory");
    let shown = LockInfo {
        primary_lock: key.try_clone().expect(&rt, "memory"),
        key,
        lock_version: 1,
        lock_ttl: 3000,
        lock_type: Op::Put,
        lock_for_update_ts: 0,
        use_async_commit: false,
        min_commit_ts: 0,
        secondaries: Items::new(alloc),
    };
    assert!(rt; info == shown);
}

#[test]
fn tells_empty_cells_apart(rt: HostRuntime) {
    let alloc = rt.alloc();
    let empty = Cell::empty(alloc, key(&rt, alloc));
    assert!(rt; empty.is_empty());
    assert!(rt; !committed_cell(&rt, alloc).is_empty());
}

#[test]
fn tells_kinds_apart(rt: HostRuntime) {
    assert!(rt; Kind::Lock.is_prewrite() && !Kind::Pessimistic.is_prewrite());
    assert!(rt; Kind::Del.is_written() && !Kind::Lock.is_written());
}
