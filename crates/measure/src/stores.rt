//! Serves pairs of a Prewrite and a Commit to a model store, over half as many keys, and then as many Gets. It prints how many
//! keys were committed and how many values were read.
use case_words::Fault;
use std::alloc::Global;
use txn_kv::{
    ApiVersion, Assertion, CommitRequest, Context, GetRequest, Items, Key, Mutation, NoMemory, Op,
    Peer, PrewriteRequest, RegionEpoch, Reply, Request,
};
use txn_model::ModelStore;

fn here() -> Option<Context> {
    Some(Context {
        region_id: 1,
        region_epoch: Some(RegionEpoch {
            conf_ver: 1,
            version: 1,
        }),
        peer: Some(Peer { id: 1, store_id: 1 }),
        api_version: ApiVersion::V1,
    })
}

/// The key of a number: its bytes, or those of its bits in reverse.
fn key(alloc: Global, number: u32, is_scattered: bool) -> Result<Key, Fault> {
    let number = if is_scattered {
        number.reverse_bits()
    } else {
        number
    };
    Ok(Key::from(number.to_be_bytes().to_vec(alloc)?))
}

fn prewrite(alloc: Global, key: Key, start_version: u64) -> Result<PrewriteRequest, Fault> {
    let primary_lock = key.try_clone()?;
    let mut mutations = Items::new(alloc);
    mutations.push(Mutation {
        op: Op::Put,
        key,
        value: Items::from_vec([118, 97, 108, 117, 101].to_vec(alloc)?),
        assertion: Assertion::None,
    })?;
    Ok(PrewriteRequest {
        context: here(),
        mutations,
        primary_lock,
        start_version,
        lock_ttl: 3000,
        txn_size: 1,
        for_update_ts: 0,
        is_pessimistic_lock: Items::new(alloc),
        use_async_commit: false,
        try_one_pc: false,
        secondaries: Items::new(alloc),
    })
}

fn commit(alloc: Global, key: Key, start_version: u64) -> Result<CommitRequest, Fault> {
    let mut keys = Items::new(alloc);
    keys.push(key)?;
    Ok(CommitRequest {
        context: here(),
        keys,
        start_version,
        commit_version: start_version.saturating_add(1),
    })
}

/// Writes a key and commits it: whether it was committed.
fn write(
    alloc: Global,
    store: &mut ModelStore,
    key: Key,
    start_version: u64,
) -> Result<bool, Fault> {
    let request = commit(alloc, key.try_clone()?, start_version)?;
    store.serve(&Request::Prewrite(prewrite(alloc, key, start_version)?))?;
    match &store.serve(&Request::Commit(request))? {
        Reply::Commit(reply) => Ok(reply.error.is_none()),
        _ => Ok(false),
    }
}

/// Reads a key: whether it has a value.
fn read(store: &mut ModelStore, key: Key) -> Result<bool, Fault> {
    let request = GetRequest {
        context: here(),
        key,
        version: u64::MAX,
    };
    match &store.serve(&Request::Get(request))? {
        Reply::Get(reply) => Ok(!reply.not_found),
        _ => Ok(false),
    }
}

pub fn serve(rt: &HostRuntime, pairs: u32, is_scattered: bool) -> Result<(), Fault> {
    let alloc = rt.alloc();
    let keys = (pairs / 2).max(1);
    let mut store = ModelStore::new(alloc)?;
    let mut commits = 0_u32;
    for i in 0..pairs {
        let key = key(alloc, i % keys, is_scattered)?;
        if write(alloc, &mut store, key, 2 * u64::from(i) + 1)? {
            commits = commits.saturating_add(1);
        }
    }
    let mut values = 0_u32;
    for i in 0..pairs {
        if read(&mut store, key(alloc, i % keys, is_scattered)?)? {
            values = values.saturating_add(1);
        }
    }
    println!(rt;
        "keys {} commits {commits} values {values}",
        store.cells().len()
    )?;
    Ok(())
}
