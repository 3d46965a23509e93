//! Regions, stores, queries and answers by words.

use case_words::{cut, flag, key, number, rest, word};
use std::alloc::Global;
use txn_kv::{
    Error, Items, PdAnswer, PdQuery, Peer, Region, RegionEpoch, RegionVerId, RegionWithLeader,
    Result, StoreLabel, StoreMeta, StoreState, Text, Timestamp,
};

/// `ID START END STORE`: a region of the first epoch, or of none with `bare` behind it, and its leader.
pub fn region(alloc: Global, words: &[&str]) -> RegionWithLeader {
    let epoch = if flag(words, 4, "bare") {
        None
    } else {
        Some(RegionEpoch {
            conf_ver: 1,
            version: 1,
        })
    };
    let leader = if flag(words, 3, "-") {
        None
    } else {
        Some(Peer {
            id: 1,
            store_id: number(words, 3),
        })
    };
    let region = Region {
        id: number(words, 0),
        start_key: key(alloc, words, 1),
        end_key: key(alloc, words, 2),
        region_epoch: epoch,
    };
    RegionWithLeader::new(region, leader)
}

fn text(alloc: Global, word: &str) -> Text {
    Text::from_string(word.to_string(alloc).unwrap_or(String::new(alloc)))
}

/// The label that names an engine, if there is a word.
fn labels(alloc: Global, engine: &str) -> Items<StoreLabel> {
    let mut labels = Items::new(alloc);
    if !engine.is_empty() {
        let _ = labels.push(StoreLabel {
            key: text(alloc, "engine"),
            value: text(alloc, engine),
        });
    }
    labels
}

fn state(word: &str) -> StoreState {
    match word {
        "offline" => StoreState::Offline,
        "tombstone" => StoreState::Tombstone,
        _ => StoreState::Up,
    }
}

/// A store without an address.
pub fn store(alloc: Global, id: u64, name: &str, engine: &str) -> StoreMeta {
    StoreMeta {
        id,
        address: Text::from_string(String::new(alloc)),
        state: state(name),
        labels: labels(alloc, engine),
    }
}

/// Stores of these states, with ids from 1 on.
fn stores(alloc: Global, words: &[&str]) -> Vec<StoreMeta> {
    let mut stores = Vec::new(alloc);
    let mut id = 0;
    for word in words {
        id = id.min(1000) + 1;
        let _ = stores.push(store(alloc, id, word, ""));
    }
    stores
}

pub fn query(alloc: Global, word: &str) -> PdQuery {
    let words = cut(alloc, word, ':');
    let words = words.as_slice();
    match case_words::word(words, 0) {
        "region" => PdQuery::Region(key(alloc, words, 1)),
        "id" => PdQuery::RegionId(number(words, 1)),
        "store" => PdQuery::Store(number(words, 1)),
        "safepoint" => PdQuery::Safepoint(number(words, 1)),
        "time" => PdQuery::Time,
        _ => PdQuery::Stores,
    }
}

/// The answer that words tell.
pub fn answer(alloc: Global, words: &[&str]) -> Result<PdAnswer> {
    match word(words, 0) {
        "region" => Ok(PdAnswer::Region(region(alloc, rest(words, 1)))),
        "store" => {
            let (id, name) = (number(words, 1), word(words, 2));
            Ok(PdAnswer::Store(store(alloc, id, name, word(words, 3))))
        }
        "stores" => Ok(PdAnswer::Stores(stores(alloc, rest(words, 1)))),
        "time" => Ok(PdAnswer::Time(Timestamp::default())),
        "safepoint" => Ok(PdAnswer::Safepoint(number(words, 1))),
        _ => Err(Error::LeaderNotFound { region_id: 1 }),
    }
}

/// `ID CONF`: the version of a region.
pub fn version(words: &[&str]) -> RegionVerId {
    RegionVerId {
        id: number(words, 0),
        conf_ver: number(words, 1),
        ver: 1,
    }
}

/// `ID STORE`: a replica.
pub fn peer(words: &[&str]) -> Peer {
    Peer {
        id: number(words, 0),
        store_id: number(words, 1),
    }
}
