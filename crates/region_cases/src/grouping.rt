//! What the regions of a client cut keys and ranges into.

use crate::client::Client;
use case_words::{cut, key, key_or_none, keys, rest, show};
use std::alloc::Global;
use txn_kv::{Key, KeyRange, Look};
use txn_region::PdClient;
use txn_region::store::{store_stream_for_keys, store_stream_for_range, store_stream_for_ranges};

/// Shows the store of the group that begins at a place.
fn store_of(rt: &HostRuntime, pd: &mut Client, keys: &[Key], first: usize) {
    if first < keys.len() {
        match store_stream_for_keys(keys, first, pd) {
            Ok(Look::Found((store, next))) => show(rt, &(store.store, next)),
            _ => show(rt, &"?"),
        }
    }
}

/// Shows the region of the group that begins at a place, and the place behind it, which is given.
fn group_of(rt: &HostRuntime, pd: &mut Client, keys: &[Key], first: usize) -> usize {
    if first >= keys.len() {
        return first;
    }
    match pd.group_keys_by_region(keys, first) {
        Ok(Look::Found((region, next))) => {
            show(rt, &(region.id(), next));
            next
        }
        _ => keys.len(),
    }
}

pub fn keys_of(rt: &HostRuntime, pd: &mut Client, words: &[&str]) {
    let keys = keys(rt.alloc(), words, 1);
    let mut first = 0;
    for _ in 0..keys.len() {
        store_of(rt, pd, keys.as_slice(), first);
        first = group_of(rt, pd, keys.as_slice(), first);
    }
}

/// Shows the store of a key, and where the rest of the range up to an end begins.
pub fn range(rt: &HostRuntime, pd: &mut Client, words: &[&str]) {
    let end = key_or_none(rt.alloc(), words, 2);
    match pd.stores_for_range(&end, &key(rt.alloc(), words, 1)) {
        Ok(Look::Found((store, next))) => show(rt, &(store.store, next)),
        other => show(rt, &other),
    }
}

/// Shows the piece of a range from a key on, its store, and where the rest begins.
pub fn piece(rt: &HostRuntime, pd: &mut Client, words: &[&str]) {
    let alloc = rt.alloc();
    let range = (key(alloc, words, 1), key(alloc, words, 2));
    match store_stream_for_range(&range, &key(alloc, words, 3), pd) {
        Ok(Look::Found((piece, store, next))) => show(rt, &(piece, store.store, next)),
        other => show(rt, &other),
    }
}

fn key_range(alloc: Global, words: &[&str]) -> KeyRange {
    KeyRange {
        start_key: key(alloc, words, 0),
        end_key: key(alloc, words, 1),
    }
}

/// The ranges `START/END`, the last first.
fn key_ranges(alloc: Global, words: &[&str]) -> Vec<KeyRange> {
    let mut ranges = Vec::new(alloc);
    for word in rest(words, 1) {
        let _ = ranges.push(key_range(alloc, cut(alloc, word, '/').as_slice()));
    }
    ranges
}

/// Shows the region of the next group, and its ranges.
fn next_group(rt: &HostRuntime, pd: &mut Client, left: &mut Vec<KeyRange>) {
    match pd.group_ranges_by_region(left) {
        Ok(Look::Found(Some((region, group)))) => {
            show(rt, &region.id());
            show_keys(rt, group);
        }
        other => show(rt, &other),
    }
}

fn show_keys(rt: &HostRuntime, group: Vec<KeyRange>) {
    for range in group {
        show(rt, &range.into_keys());
    }
}

pub fn ranges(rt: &HostRuntime, pd: &mut Client, words: &[&str]) {
    let mut left = key_ranges(rt.alloc(), words);
    for _ in 0..5 {
        next_group(rt, pd, &mut left);
    }
}

/// Shows the store of the next group, and how many ranges it has.
fn next_store(rt: &HostRuntime, pd: &mut Client, left: &mut Vec<KeyRange>) {
    match store_stream_for_ranges(left, pd) {
        Ok(Look::Found(Some((group, store)))) => show(rt, &(store.store, group.len())),
        other => show(rt, &other),
    }
}

pub fn stores(rt: &HostRuntime, pd: &mut Client, words: &[&str]) {
    let mut left = key_ranges(rt.alloc(), words);
    for _ in 0..3 {
        next_store(rt, pd, &mut left);
    }
}
