//! Calls of the region cache.

use crate::told::{answer, peer, query, region, store, version};
use case_words::{key, keys, number, rest, say, show, small, word};
use txn_kv::{Key, Look};
use txn_region::{RegionCache, is_valid_tikv_store};

/// Shows the id of the region at a key, or what its look-up asks.
fn found(rt: &HostRuntime, cache: &mut RegionCache, key: &Key) {
    match cache.get_region_by_key(key) {
        Ok(Look::Found(region)) => show(rt, &region.id()),
        other => show(rt, &other),
    }
}

fn at(rt: &HostRuntime, cache: &mut RegionCache, words: &[&str]) {
    for key in keys(rt.alloc(), words, 1) {
        found(rt, cache, &key);
    }
}

fn ids(rt: &HostRuntime, cache: &RegionCache) {
    for region in cache.regions() {
        show(rt, &region.id());
    }
}

/// Learns an answer, and shows how many regions are kept.
fn learn(rt: &HostRuntime, cache: &mut RegionCache, words: &[&str]) {
    let query = query(rt.alloc(), word(words, 1));
    let answer = answer(rt.alloc(), rest(words, 2));
    show(rt, &cache.learn(&query, &answer));
    show(rt, &cache.regions().len());
}

fn change(rt: &HostRuntime, cache: &mut RegionCache, words: &[&str]) {
    match word(words, 0) {
        "add" => show(rt, &cache.add_region(region(rt.alloc(), rest(words, 1)))),
        "learn" => learn(rt, cache, words),
        "lead" => cache.update_leader(&version(rest(words, 1)), peer(rest(words, 3))),
        "drop" => {
            cache.invalidate_region_cache(&version(rest(words, 1)));
            show(rt, &cache.regions().len());
        }
        _ => say(rt, &"?"),
    }
}

pub fn serve(rt: &HostRuntime, cache: &mut RegionCache, words: &[&str]) {
    let alloc = rt.alloc();
    match word(words, 0) {
        "at" => at(rt, cache, words),
        "ids" => ids(rt, cache),
        "by_id" => show(
            rt,
            &cache.get_region_by_id(number(words, 1), small(words, 2)),
        ),
        "store_by_id" => show(rt, &cache.get_store_by_id(number(words, 1))),
        "ask" => {
            show(rt, &cache.read_through_region_by_key(key(alloc, words, 1)));
            show(rt, &cache.read_through_all_stores());
        }
        "valid" => {
            show(
                rt,
                &is_valid_tikv_store(&store(alloc, 1, word(words, 1), word(words, 2))),
            );
        }
        _ => change(rt, cache, words),
    }
}
