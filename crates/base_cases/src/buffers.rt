//! Calls of the buffer.

use case_words::{flag, key, keys, pair, pairs, say, show, small, value, word};
use std::alloc::Global;
use std::ops::Bound;
use txn_buffer::Buffer;
use txn_kv::{Assertion, BoundRange, KvPair, Mutation, Op};

fn mutation(alloc: Global, words: &[&str]) -> Mutation {
    let op = match word(words, 1) {
        "put" => Op::Put,
        "del" => Op::Del,
        _ => Op::Lock,
    };
    Mutation {
        op,
        key: key(alloc, words, 2),
        value: value(alloc, words, 3),
        assertion: Assertion::None,
    }
}

fn write(rt: &HostRuntime, buffer: &mut Buffer, words: &[&str]) {
    let alloc = rt.alloc();
    match word(words, 0) {
        "put" => show(
            rt,
            &buffer.put(key(alloc, words, 1), value(alloc, words, 2)),
        ),
        "insert" => show(
            rt,
            &buffer.insert(key(alloc, words, 1), value(alloc, words, 2)),
        ),
        "delete" => show(rt, &buffer.delete(key(alloc, words, 1))),
        "lock" => show(rt, &buffer.lock(key(alloc, words, 1))),
        "unlock" => show(rt, &buffer.unlock(&key(alloc, words, 1))),
        "mutate" => show(rt, &buffer.mutate(mutation(alloc, words))),
        "primary" => show(rt, &buffer.primary_key_or(&key(alloc, words, 1))),
        _ => say(rt, &"?"),
    }
}

fn one(rt: &HostRuntime, mutation: Mutation) {
    show(rt, &mutation.op);
    show(rt, &KvPair::from(mutation.into_parts()));
}

fn written(rt: &HostRuntime, buffer: &Buffer) {
    if let Ok(mutations) = buffer.to_proto_mutations() {
        for mutation in mutations {
            one(rt, mutation);
        }
    }
    show(rt, &buffer.primary_for_commit());
    show(rt, &buffer.get_write_size());
}

/// Takes what was read of a key: nothing where there is no `=`.
fn fill(rt: &HostRuntime, buffer: &mut Buffer, word: &str) {
    let (key, value) = pair(rt.alloc(), word).into_parts();
    if word.contains('=') {
        show(rt, &buffer.fill(key, Some(value)));
    } else {
        show(rt, &buffer.fill(key, None));
    }
}

fn batch_fill(rt: &HostRuntime, buffer: &mut Buffer, words: &[&str]) {
    let asked = keys(rt.alloc(), words, 1);
    let fetched = pairs(rt.alloc(), words, 1);
    show(rt, &buffer.batch_fill(asked.as_slice(), fetched));
}

fn missing(rt: &HostRuntime, buffer: &Buffer, words: &[&str]) {
    let asked = keys(rt.alloc(), words, 1);
    show(rt, &buffer.batch_missing(asked.as_slice()));
    for key in asked {
        show(rt, &buffer.missing(&key));
    }
}

fn scan(rt: &HostRuntime, buffer: &mut Buffer, words: &[&str]) {
    let range = BoundRange::range_from(key(rt.alloc(), words, 1));
    let fetched = pairs(rt.alloc(), words, 5);
    let keeps = flag(words, 3, "keep");
    show(
        rt,
        &buffer.scan_fill(
            &range,
            small(words, 2),
            keeps,
            flag(words, 4, "down"),
            fetched,
        ),
    );
}

/// The range between two keys, both left out.
fn between(alloc: Global, words: &[&str]) -> BoundRange {
    let start = Bound::Excluded(key(alloc, words, 1));
    BoundRange::new(start, Bound::Excluded(key(alloc, words, 2)))
}

fn scans(rt: &HostRuntime, buffer: &mut Buffer, words: &[&str]) {
    let alloc = rt.alloc();
    match word(words, 0) {
        "scan" => scan(rt, buffer, words),
        "scan_limit" => {
            let range = BoundRange::range_from(key(alloc, words, 1));
            show(rt, &buffer.scan_limit(&range, small(words, 2)));
        }
        "scan_limit_between" => {
            show(
                rt,
                &buffer.scan_limit(&between(alloc, words), small(words, 3)),
            );
        }
        _ => write(rt, buffer, words),
    }
}

pub fn serve(rt: &HostRuntime, buffer: &mut Buffer, words: &[&str]) {
    let alloc = rt.alloc();
    match word(words, 0) {
        "get" => show(rt, &buffer.get(&key(alloc, words, 1))),
        "missing" => missing(rt, buffer, words),
        "first" => show(rt, &buffer.get_primary_key()),
        "written" => written(rt, buffer),
        "fill" => fill(rt, buffer, word(words, 1)),
        "batch_fill" => batch_fill(rt, buffer, words),
        _ => scans(rt, buffer, words),
    }
}
