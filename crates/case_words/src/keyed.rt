//! Words that are keys and values.

use crate::words::{rest, word};
use std::alloc::Global;
use txn_kv::{Items, Key, KvPair, Value};

/// The bytes of numbers with commas between them.
fn listed(alloc: Global, numbers: &str) -> Vec<u8> {
    let mut bytes = Vec::new(alloc);
    for number in numbers.split(',') {
        if let Ok(byte) = number.parse::<u8>() {
            let _ = bytes.push(byte);
        }
    }
    bytes
}

/// The numbers of `[1,2,255]`.
fn inside<'a>(word: &'a str) -> Option<&'a str> {
    word.strip_prefix('[')?.strip_suffix(']')
}

pub fn bytes(alloc: Global, word: &str) -> Vec<u8> {
    if word == "-" {
        return Vec::new(alloc);
    }
    match inside(word) {
        Some(numbers) => listed(alloc, numbers),
        None => word.as_bytes().to_vec(alloc).unwrap_or(Vec::new(alloc)),
    }
}

/// The key at a place.
pub fn key(alloc: Global, words: &[&str], at: usize) -> Key {
    Key::from(bytes(alloc, word(words, at)))
}

/// The key at a place, and none for `none`.
pub fn key_or_none(alloc: Global, words: &[&str], at: usize) -> Option<Key> {
    if word(words, at) == "none" {
        return None;
    }
    Some(key(alloc, words, at))
}

/// The value at a place.
pub fn value(alloc: Global, words: &[&str], at: usize) -> Value {
    Items::from_vec(bytes(alloc, word(words, at)))
}

/// The keys from a place on: the words without a `=`.
pub fn keys(alloc: Global, words: &[&str], from: usize) -> Vec<Key> {
    let mut keys = Vec::new(alloc);
    for word in rest(words, from) {
        if !word.contains('=') {
            let _ = keys.push(Key::from(bytes(alloc, word)));
        }
    }
    keys
}

/// The key and the value of `KEY=VALUE`, and no value where there is no `=`.
pub fn pair(alloc: Global, word: &str) -> KvPair {
    let (name, text) = word.split_once('=').unwrap_or((word, ""));
    KvPair::new(
        Key::from(bytes(alloc, name)),
        Items::from_vec(bytes(alloc, text)),
    )
}

/// The pairs `KEY=VALUE` from a place on.
pub fn pairs(alloc: Global, words: &[&str], from: usize) -> Vec<KvPair> {
    let mut pairs = Vec::new(alloc);
    for word in rest(words, from) {
        if word.contains('=') {
            let _ = pairs.push(pair(alloc, word));
        }
    }
    pairs
}
