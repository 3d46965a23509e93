//! Replies by words.

use crate::client::{peer, store, told};
use crate::refusals::{key_error, region_error};
use case_words::{flag, number, number_in, rest, value, word};
use std::alloc::Global;
use txn_kv::{
    CleanupResponse, CommitResponse, GetAllStoresResponse, GetRegionResponse, GetResponse,
    GetStoreResponse, Items, KeyError, MembersResponse, PrewriteResponse, Reply, StoreMeta,
    StoreState, Text, UnsafeDestroyRangeResponse,
};

fn get(alloc: Global, words: &[&str]) -> GetResponse {
    GetResponse {
        region_error: region_error(alloc, word(words, 1)),
        error: key_error(alloc, word(words, 2)),
        value: value(alloc, words, 3),
        not_found: flag(words, 3, "-"),
    }
}

fn commit(alloc: Global, words: &[&str]) -> CommitResponse {
    CommitResponse {
        region_error: region_error(alloc, word(words, 1)),
        error: key_error(alloc, word(words, 2)),
        commit_version: number(words, 3),
    }
}

fn errors(alloc: Global, words: &[&str]) -> Items<KeyError> {
    let mut errors = Items::new(alloc);
    for word in rest(words, 1) {
        if let Some(error) = key_error(alloc, word) {
            let _ = errors.push(error);
        }
    }
    errors
}

fn prewrite(alloc: Global, words: &[&str]) -> PrewriteResponse {
    PrewriteResponse {
        region_error: None,
        errors: errors(alloc, words),
        min_commit_ts: 0,
        one_pc_commit_ts: 0,
    }
}

/// The rest of the row, or no text for `-`.
fn text(alloc: Global, word: &str) -> Text {
    if word == "-" {
        return Text::from_string(String::new(alloc));
    }
    Text::from_string(word.to_string(alloc).unwrap_or(String::new(alloc)))
}

fn destroy(alloc: Global, words: &[&str]) -> UnsafeDestroyRangeResponse {
    UnsafeDestroyRangeResponse {
        region_error: region_error(alloc, word(words, 1)),
        error: text(alloc, word(words, 2)),
    }
}

/// `ID`, or `gone:ID` for a tombstone.
fn listed(alloc: Global, word: &str) -> StoreMeta {
    match word.strip_prefix("gone:") {
        Some(id) => store(alloc, number_in(id), StoreState::Tombstone),
        None => store(alloc, number_in(word), StoreState::Up),
    }
}

fn stores(alloc: Global, words: &[&str]) -> Items<StoreMeta> {
    let mut stores = Items::new(alloc);
    for word in rest(words, 1) {
        let _ = stores.push(listed(alloc, word));
    }
    stores
}

/// A reply of the placement driver.
fn placed(alloc: Global, words: &[&str]) -> Reply {
    match word(words, 0) {
        "region" => Reply::GetRegion(GetRegionResponse {
            region: Some(told(alloc, rest(words, 1))),
            leader: peer(number(words, 4)),
        }),
        "store" => Reply::GetStore(GetStoreResponse {
            store: store(alloc, number(words, 1), StoreState::Up),
        }),
        "stores" => Reply::GetAllStores(GetAllStoresResponse {
            stores: stores(alloc, words),
        }),
        _ => Reply::Members(MembersResponse),
    }
}

pub fn reply(alloc: Global, words: &[&str]) -> Reply {
    match word(words, 0) {
        "get" => Reply::Get(get(alloc, words)),
        "commit" => Reply::Commit(commit(alloc, words)),
        "prewrite" => Reply::Prewrite(prewrite(alloc, words)),
        "destroy" => Reply::UnsafeDestroyRange(destroy(alloc, words)),
        "cleanup" => Reply::Cleanup(CleanupResponse {
            region_error: None,
            error: None,
            commit_version: 0,
        }),
        _ => placed(alloc, words),
    }
}
