//! Copies of values, what is printed of them, timestamps, and results that are mapped.

use case_words::{key, number, rest, say, show, value, word};
use std::alloc::Global;
use txn_kv::{
    FlatMapOkIterExt, Internal, Items, KeyRange, KvPair, RegionVerId, Text, Timestamp,
    TimestampExt, TryClone,
};

/// Shows whether a copy of the value is the same.
fn copied<T: TryClone + PartialEq>(rt: &HostRuntime, value: T) {
    if let Ok(copy) = value.try_clone() {
        show(rt, &(copy == value));
    }
}

fn numbers(alloc: Global, words: &[&str]) -> Items<u64> {
    let mut numbers = Items::new(alloc);
    let _ = numbers.push(number(words, 2));
    let _ = numbers.push(number(words, 3));
    numbers
}

fn copies(rt: &HostRuntime, words: &[&str]) {
    let alloc = rt.alloc();
    match word(words, 1) {
        "byte" => copied(rt, 7u8),
        "number" => copied(rt, number(words, 2)),
        "flag" => copied(rt, true),
        "numbers" => copied(rt, numbers(alloc, words)),
        "unlike" => copied(
            rt,
            Internal::UnlikeCache {
                kept: Some(value(alloc, words, 2)),
                read: None,
            },
        ),
        "range" => copied(
            rt,
            KeyRange {
                start_key: key(alloc, words, 2),
                end_key: key(alloc, words, 3),
            },
        ),
        _ => copied(
            rt,
            KvPair::new(key(alloc, words, 2), value(alloc, words, 3)),
        ),
    }
}

fn text(rt: &HostRuntime, word: &str) {
    if let Ok(string) = word.to_string(rt.alloc()) {
        show(rt, &Text::from_string(string));
    }
}

fn shows(rt: &HostRuntime, words: &[&str]) {
    match word(words, 1) {
        "version" => show(rt, &RegionVerId::default()),
        "time" => show(rt, &Timestamp::default()),
        _ => text(rt, word(words, 2)),
    }
}

/// Shows the timestamp of a number, its number, and the timestamp of a number other than 0.
fn time(rt: &HostRuntime, version: u64) {
    let time = Timestamp::from_version(version);
    show(rt, &time);
    show(rt, &time.version());
    show(rt, &(Timestamp::try_from_version(version) == Some(time)));
}

fn result(word: &str) -> Result<u64, ()> {
    match word.parse::<u64>() {
        Ok(number) => Ok(number),
        Err(_) => Err(()),
    }
}

/// Shows each Ok thrice, and each Err in its place.
fn triple(rt: &HostRuntime, words: &[&str]) {
    let mut results = Vec::new(rt.alloc());
    for word in words {
        let _ = results.push(result(word));
    }
    for item in results.into_iter().flat_map_ok(|i| [i, i, i]) {
        show(rt, &item);
    }
}

pub fn serve(rt: &HostRuntime, words: &[&str]) {
    match word(words, 0) {
        "copy" => copies(rt, words),
        "show" => shows(rt, words),
        "time" => time(rt, number(words, 1)),
        "triple" => triple(rt, rest(words, 1)),
        _ => say(rt, &"?"),
    }
}
