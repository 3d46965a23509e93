//! Calls of keys and of pairs.

use case_words::{key, say, show, value, word};
use std::hash::{DefaultHasher, Hash, Hasher};
use txn_kv::{HexRepr, Key, KvPair, max_encoded_bytes_size};

/// How long no key of a row is.
const LONG: usize = 1 << 60;

fn encoded(rt: &HostRuntime, key: Key) {
    show(rt, &key.to_encoded());
    show(rt, &(key.is_empty(), key.len()));
    if key.len() < LONG {
        show(rt, &max_encoded_bytes_size(key.len()));
    }
}

fn pair(rt: &HostRuntime, pair: KvPair) {
    show(rt, &pair);
    let key = pair.into_key();
    show(rt, &key);
    say(rt, &HexRepr(key.as_slice()));
}

/// Writes a key and a byte into a pair.
fn write(rt: &HostRuntime, mut pair: KvPair, key: Key) {
    *pair.key_mut() = key;
    let _ = pair.value_mut().push(b'"');
    show(rt, &pair);
    show(rt, pair.key());
    show(rt, pair.value());
}

fn hash_of<T: Hash>(value: &T) -> u64 {
    let mut hasher = DefaultHasher::new();
    value.hash(&mut hasher);
    hasher.finish()
}

/// Whether the hash of a key is that of its bytes.
fn hashed(rt: &HostRuntime, key: Key) {
    show(rt, &(hash_of(&key) == hash_of(&key.as_slice())));
}

pub fn serve(rt: &HostRuntime, words: &[&str]) {
    let alloc = rt.alloc();
    let first = key(alloc, words, 2);
    match word(words, 1) {
        "encoded" => encoded(rt, first),
        "pair" => pair(rt, KvPair::new(first, value(alloc, words, 3))),
        "write" => write(
            rt,
            KvPair::new(first, value(alloc, words, 3)),
            key(alloc, words, 4),
        ),
        "hash" => hashed(rt, first),
        _ => show(rt, &first.cmp(&key(alloc, words, 3))),
    }
}
