//! Ranges of keys, and regions.

use case_words::{key, keys, show, word};
use txn_kv::{IntoOwnedRange, Peer, Region, RegionEpoch, RegionWithLeader};

/// Shows the range of keys that a range becomes, whether a copy is the same, and its two keys.
fn shown<R: IntoOwnedRange>(rt: &HostRuntime, range: R) {
    let alloc = rt.alloc();
    if let Ok(owned) = range.into_owned(alloc) {
        show(rt, &owned);
        show(rt, &(owned.try_clone().as_ref() == Ok(&owned)));
        show(rt, &owned.into_key_range(alloc));
    }
}

fn ranges(rt: &HostRuntime, kind: &str, a: &[u8], b: &[u8]) {
    match kind {
        "half" => shown(rt, a..b),
        "from" => shown(rt, a..),
        "below" => shown(rt, ..b),
        "both" => shown(rt, a..=b),
        "to" => shown(rt, ..=b),
        "all" => shown(rt, ..),
        "keys" => shown(rt, (a, b)),
        _ => shown(rt, (a, Some(b))),
    }
}

pub fn serve(rt: &HostRuntime, words: &[&str]) {
    if word(words, 1) == "text" {
        return shown(rt, (word(words, 2), word(words, 3)));
    }
    let (a, b) = (key(rt.alloc(), words, 2), key(rt.alloc(), words, 3));
    ranges(rt, word(words, 1), a.as_slice(), b.as_slice());
}

fn answers(rt: &HostRuntime, region: &RegionWithLeader) {
    show(rt, &region.context());
    show(rt, &region.ver_id());
    show(rt, &region.get_store_id());
    show(rt, &region.range());
    show(rt, &(region.id(), region.start_key(), region.end_key()));
    show(rt, &(region.try_clone().as_ref() == Ok(region)));
}

pub fn region(rt: &HostRuntime, words: &[&str]) {
    let region = Region {
        id: 3,
        start_key: key(rt.alloc(), words, 1),
        end_key: key(rt.alloc(), words, 2),
        region_epoch: Some(RegionEpoch::default()),
    };
    let region = RegionWithLeader::new(region, Some(Peer::default()));
    answers(rt, &region);
    for key in keys(rt.alloc(), words, 3) {
        show(rt, &region.contains(&key));
    }
}
