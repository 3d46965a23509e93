//! Calls of a client of the placement driver.

use crate::told::{answer, peer, query, region, version};
use case_words::{flag, key, keys, number, rest, say, show, small, word};
use std::alloc::Global;
use txn_kv::{Key, Look, PdQuery};
use txn_region::{ApiV1TxnCodec, PdClient, PdRpcClient};

pub type Client = PdRpcClient<ApiV1TxnCodec>;

/// A client that was connected at 0, whose regions' keys are encoded or not.
pub fn new(alloc: Global, encodes: bool) -> Client {
    PdRpcClient::new(alloc, 1, 0, encodes, ApiV1TxnCodec {})
}

/// Shows the store of the leader of the region at a key, or what its look-up asks.
fn led(rt: &HostRuntime, pd: &mut Client, key: &Key) {
    match pd.region_for_key(key) {
        Ok(Look::Found(region)) => show(rt, &region.get_store_id()),
        other => show(rt, &other),
    }
}

fn at(rt: &HostRuntime, pd: &mut Client, words: &[&str]) {
    for key in keys(rt.alloc(), words, 2) {
        led(rt, pd, &key);
    }
}

fn learn(rt: &HostRuntime, pd: &mut Client, words: &[&str]) {
    let query = query(rt.alloc(), word(words, 2));
    let answer = answer(rt.alloc(), rest(words, 3));
    show(rt, &pd.learn(&query, &answer));
}

/// What is always asked.
fn asked(rt: &HostRuntime, pd: &mut Client) {
    show(rt, &pd.all_stores());
    show(rt, &pd.get_timestamp());
    show(rt, &pd.update_safepoint(5));
    show(rt, pd.call(PdQuery::Time).query());
}

/// Shows whether the members may be asked for at each time.
fn may_connect(rt: &HostRuntime, pd: &mut Client, words: &[&str]) {
    for at in [2, 3] {
        show(rt, &pd.retry_client().may_connect(number(words, at)));
    }
}

fn codec(rt: &HostRuntime, pd: &mut Client) {
    pd.set_codec(ApiV1TxnCodec {});
    let copy: Result<_, _> = pd.get_codec().clone();
    show(rt, &copy.is_ok());
}

fn change(rt: &HostRuntime, pd: &mut Client, words: &[&str]) {
    match word(words, 1) {
        "learn" => learn(rt, pd, words),
        "lead" => show(
            rt,
            &pd.update_leader(&version(rest(words, 2)), peer(rest(words, 4))),
        ),
        "drop" => pd.invalidate_region_cache(&version(rest(words, 2))),
        "connect" => pd.retry_client().connect(number(words, 2)),
        "codec" => codec(rt, pd),
        _ => say(rt, &"?"),
    }
}

pub fn serve(rt: &HostRuntime, pd: &mut Client, words: &[&str]) {
    let alloc = rt.alloc();
    match word(words, 1) {
        "at" => at(rt, pd, words),
        "by_id" => show(rt, &pd.region_for_id(number(words, 2), small(words, 3))),
        "store_of" => show(rt, &pd.map_region_to_store(region(alloc, rest(words, 2)))),
        "store_at" => show(rt, &pd.store_for_key(&key(alloc, words, 2))),
        "store_by_id" => show(rt, &pd.store_for_id(number(words, 2), small(words, 3))),
        "asked" => asked(rt, pd),
        "may_connect" => may_connect(rt, pd, words),
        _ => change(rt, pd, words),
    }
}

/// Shows the keys of a region, or why it is not shown.
pub fn decode(rt: &HostRuntime, words: &[&str]) {
    let told = region(rt.alloc(), &["7", word(words, 2), word(words, 3), "41"]);
    match Client::decode_region(told, flag(words, 1, "encoding")) {
        Ok(shown) => show(rt, &shown.into_parts().0.into_keys()),
        Err(error) => show(rt, &error),
    }
}
