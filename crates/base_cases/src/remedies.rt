//! What is done about a failure.

use case_words::{number, show, small, word};
use txn_kv::{Backoff, Peer, RegionErr, RegionVerId};
use txn_retry::{on_loss, on_region_error, remedy_of};

const USED: RegionVerId = RegionVerId {
    id: 1,
    conf_ver: 1,
    ver: 1,
};

const LEADER: Peer = Peer { id: 9, store_id: 8 };

fn error(name: &str) -> RegionErr {
    match name {
        "led" => RegionErr::NotLeader {
            region_id: 1,
            leader: Some(LEADER),
        },
        "unled" => RegionErr::NotLeader {
            region_id: 1,
            leader: None,
        },
        "busy" => RegionErr::ServerIsBusy,
        _ => RegionErr::Unknown,
    }
}

pub fn remedy(rt: &HostRuntime, words: &[&str]) {
    show(
        rt,
        &remedy_of(&error(word(words, 1)), &USED, number(words, 2)),
    );
}

/// The same region error twice, and how many attempts were made.
pub fn failing(rt: &HostRuntime, words: &[&str]) {
    let error = error(word(words, 1));
    let mut backoff = Backoff::no_jitter_backoff(
        number(words, 2),
        number(words, 3),
        small(words, 4),
    );
    show(rt, &on_region_error(&error, &USED, &mut backoff));
    show(rt, &on_region_error(&error, &USED, &mut backoff));
    show(rt, &backoff.current_attempts());
}

pub fn losing(rt: &HostRuntime) {
    show(rt, &on_loss(&mut Backoff::no_backoff()));
}
