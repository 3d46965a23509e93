//! Encodings of keys.

use case_words::{bytes, flag, key, show, word};
use txn_kv::{BytesEncoder, decode_bytes_in_place};

/// What an encoding with two bytes behind it is decoded to.
fn decode_back(rt: &HostRuntime, mut encoding: Vec<u8>, descending: bool) {
    let _ = encoding.extend_from_slice(&[6, 6]);
    show(rt, &decode_bytes_in_place(&mut encoding, descending));
    show(rt, &encoding);
}

pub fn encode(rt: &HostRuntime, words: &[&str]) {
    let descending = flag(words, 1, "down");
    let key = key(rt.alloc(), words, 2);
    let mut encoding = Vec::new(rt.alloc());
    let _ = encoding.encode_bytes(key.as_slice(), descending);
    show(rt, &encoding);
    decode_back(rt, encoding, descending);
}

pub fn decode(rt: &HostRuntime, words: &[&str]) {
    let mut bytes = bytes(rt.alloc(), word(words, 2));
    let descending = flag(words, 1, "down");
    show(rt, &decode_bytes_in_place(&mut bytes, descending));
    show(rt, &bytes);
}
