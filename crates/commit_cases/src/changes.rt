//! A buffer by words, and its parts.
use crate::shown::{name, show_keys, show_mutations};
use case_words::{bytes, rest, say};
use std::alloc::Global;
use txn_buffer::Buffer;
use txn_commit::CommitParts;
use txn_kv::{Key, Value};

/// Changes a key. A change that finds no memory is left out.
fn change(alloc: Global, buffer: &mut Buffer, verb: &str, name: &str) {
    let key = Key::from(bytes(alloc, name));
    let _ = match verb {
        "insert" => buffer.insert(key, Value::new(alloc)),
        "put" => buffer.put(key, Value::new(alloc)),
        "lock" => buffer.lock(key),
        _ => buffer.delete(key),
    };
}

/// The parts of a buffer after the changes behind the first word, each `VERB:KEY`.
pub fn parts(alloc: Global, words: &[&str]) -> Option<CommitParts> {
    let mut buffer = Buffer::new(alloc, false);
    for word in rest(words, 1) {
        if let Some((verb, name)) = word.split_once(':') {
            change(alloc, &mut buffer, verb, name);
        }
    }
    match CommitParts::of_buffer(alloc, &buffer) {
        Ok(parts) => parts,
        Err(_) => None,
    }
}

fn show_parts(rt: &HostRuntime, parts: &CommitParts) {
    show_mutations(rt, parts.mutations.as_slice());
    let _ = print!(rt; " under {}, and", name(&parts.primary));
    show_keys(rt, parts.secondaries.as_slice());
    let _ = print!(rt; "; locks: {}", parts.locks);
}

pub fn serve(rt: &HostRuntime, words: &[&str]) {
    match parts(rt.alloc(), words) {
        Some(parts) => show_parts(rt, &parts),
        None => say(rt, &"nothing"),
    }
}
