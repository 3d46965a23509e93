//! What cuts requests to regions.

use crate::client::Client;
use crate::requests::{batch_get, get, scan, scan_lock};
use case_words::{show, word};
use std::fmt::Debug;
use txn_shard::{ShardList, Shardable};

/// Goes on finding shards, and shows what has to be asked first.
fn look<R: Shardable>(
    rt: &HostRuntime,
    request: &R,
    pd: &mut Client,
    found: &mut ShardList<R::Shard>,
)
    requires { R.IsFound request.now found.old }
    ensures { R.IsFound request.now found.new }
{
    show(rt, &request.shards(rt.alloc(), pd, found));
}

/// Shows each shard behind its store.
fn show_shards<S: Debug + Drop>(rt: &HostRuntime, found: &ShardList<S>) {
    for (shard, store) in &found.shards {
        show(rt, &store.store);
        show(rt, shard);
    }
}

/// The shards that are found with one client, and then with the other.
fn found<R: Shardable>(rt: &HostRuntime, request: &R, pd: &mut Client, later: &mut Client)
where
    R::Shard: Debug,
{
    let mut found = ShardList::new(rt.alloc());
    look(rt, request, pd, &mut found);
    look(rt, request, later, &mut found);
    show_shards(rt, &found);
}

pub fn serve(rt: &HostRuntime, pd: &mut Client, later: &mut Client, words: &[&str]) {
    let alloc = rt.alloc();
    match word(words, 1) {
        "get" => found(rt, &get(alloc, words, 2), pd, later),
        "batch_get" => found(rt, &batch_get(alloc, words, 2), pd, later),
        "scan" => found(rt, &scan(alloc, words, 3, 2), pd, later),
        _ => found(rt, &scan_lock(alloc, words, 2), pd, later),
    }
}
