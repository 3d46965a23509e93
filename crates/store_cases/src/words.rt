//! The words of a line.

use case_words::Fault;
use std::alloc::Global;
use txn_kv::{Assertion, Items, Key, Mutation, NoMemory, Op, TxnInfo, Value};

pub fn words<'a>(alloc: Global, line: &'a str) -> Result<Vec<&'a str>, NoMemory> {
    let mut words = Vec::new(alloc);
    for word in line.split_whitespace() {
        words.push(word)?;
    }
    Ok(words)
}

pub fn word<'a>(words: &[&'a str], at: usize) -> Result<&'a str, Fault> {
    match words.get(at) {
        Some(word) => Ok(*word),
        None => Err(Fault::Words),
    }
}

/// The words from one on.
pub fn rest<'a, 'b>(words: &'b [&'a str], from: usize) -> &'b [&'a str] {
    if from < words.len() {
        &words[from..]
    } else {
        &[]
    }
}

/// One of the words is this.
pub fn has(words: &[&str], sought: &str) -> bool {
    for word in words {
        if *word == sought {
            return true;
        }
    }
    false
}

fn number_of(word: &str) -> Result<u64, Fault> {
    match word.parse::<u64>() {
        Ok(number) => Ok(number),
        Err(_) => Err(Fault::Words),
    }
}

pub fn number(words: &[&str], at: usize) -> Result<u64, Fault> {
    number_of(word(words, at)?)
}

/// A number, and none for `-`.
pub fn number_or_none(words: &[&str], at: usize) -> Result<Option<u64>, Fault> {
    let word = word(words, at)?;
    if word == "-" {
        return Ok(None);
    }
    Ok(Some(number_of(word)?))
}

fn bytes(alloc: Global, word: &str) -> Result<Vec<u8>, Fault> {
    if word == "-" {
        return Ok(Vec::new(alloc));
    }
    Ok(word.as_bytes().to_vec(alloc)?)
}

pub fn key(alloc: Global, words: &[&str], at: usize) -> Result<Key, Fault> {
    Ok(Key::from(bytes(alloc, word(words, at)?)?))
}

pub fn keys(alloc: Global, words: &[&str], from: usize) -> Result<Items<Key>, Fault> {
    let mut keys = Items::new(alloc);
    for word in rest(words, from) {
        keys.push(Key::from(bytes(alloc, word)?))?;
    }
    Ok(keys)
}

fn op(word: &str) -> Result<Op, Fault> {
    match word {
        "put" | "put!" => Ok(Op::Put),
        "del" | "del!" => Ok(Op::Del),
        "lock" | "lock!" => Ok(Op::Lock),
        "insert" | "insert!" => Ok(Op::Insert),
        "check" | "check!" => Ok(Op::CheckNotExists),
        "pess" | "absent" => Ok(Op::PessimisticLock),
        _ => Err(Fault::Words),
    }
}

/// `OP:KEY` or `OP:KEY=VALUE`.
fn mutation(alloc: Global, word: &str) -> Result<Mutation, Fault> {
    let Some((name, rest)) = word.split_once(':') else {
        return Err(Fault::Words);
    };
    let (key, value) = match rest.split_once('=') {
        Some((key, value)) => (key, value),
        None => (rest, "-"),
    };
    let value: Value = Items::from_vec(bytes(alloc, value)?);
    let assertion = if name == "absent" {
        Assertion::NotExist
    } else {
        Assertion::None
    };
    Ok(Mutation {
        op: op(name)?,
        key: Key::from(bytes(alloc, key)?),
        value,
        assertion,
    })
}

pub fn mutations(alloc: Global, words: &[&str], from: usize) -> Result<Items<Mutation>, Fault> {
    let mut mutations = Items::new(alloc);
    for word in rest(words, from) {
        if secondary(word).is_none() {
            mutations.push(mutation(alloc, word)?)?;
        }
    }
    Ok(mutations)
}

/// The key of `also:KEY`.
fn secondary<'a>(word: &'a str) -> Option<&'a str> {
    word.strip_prefix("also:")
}

/// The keys of the words `also:KEY`.
pub fn secondaries(alloc: Global, words: &[&str], from: usize) -> Result<Items<Key>, Fault> {
    let mut keys = Items::new(alloc);
    for word in rest(words, from) {
        if let Some(key) = secondary(word) {
            keys.push(Key::from(bytes(alloc, key)?))?;
        }
    }
    Ok(keys)
}

/// For each mutation whether its op is written with `!`.
pub fn flags(alloc: Global, words: &[&str], from: usize) -> Result<Items<bool>, Fault> {
    let mut flags = Items::new(alloc);
    for word in rest(words, from) {
        if secondary(word).is_none() {
            flags.push(word.contains('!'))?;
        }
    }
    Ok(flags)
}

/// Pairs `START=COMMIT`.
pub fn infos(alloc: Global, words: &[&str], from: usize) -> Result<Items<TxnInfo>, Fault> {
    let mut infos = Items::new(alloc);
    for word in rest(words, from) {
        let Some((txn, status)) = word.split_once('=') else {
            return Err(Fault::Words);
        };
        infos.push(TxnInfo {
            txn: number_of(txn)?,
            status: number_of(status)?,
        })?;
    }
    Ok(infos)
}
