//! The oracle of timestamps.

use case_words::{number, show, small, word};
use txn_kv::{Timestamp, TsoResponse};
use txn_tso::{Asker, TimestampOracle};

/// How many lines ask at most.
const MANY: u64 = 1000;

fn signed(words: &[&str], at: usize) -> i64 {
    word(words, at).parse::<i64>().unwrap_or(0)
}

/// `COUNT PHYSICAL LOGICAL`, and no timestamp where the physical part is `none`.
fn response(words: &[&str]) -> TsoResponse {
    let timestamp = if word(words, 2) == "none" {
        None
    } else {
        Some(Timestamp {
            physical: signed(words, 2),
            logical: signed(words, 3),
            suffix_bits: 0,
        })
    };
    TsoResponse {
        count: small(words, 1),
        timestamp,
    }
}

/// The lines from one to another ask.
fn asks(oracle: &mut TimestampOracle, words: &[&str]) {
    for line in number(words, 1)..=number(words, 2).min(MANY) {
        let _ = oracle.ask(Asker {
            line,
            beat: false,
            ask: 1,
        });
    }
}

/// Shows how many are answered, and the answers of the first and the last.
fn reply(rt: &HostRuntime, oracle: &mut TimestampOracle, words: &[&str]) {
    if let Ok(answers) = oracle.take_reply(&response(words)) {
        show(rt, &answers.len());
        show(rt, &answers.first());
        show(rt, &answers.last());
    }
}

pub fn serve(rt: &HostRuntime, oracle: &mut TimestampOracle, words: &[&str]) {
    match word(words, 0) {
        "asks" => asks(oracle, words),
        "group" => show(rt, &oracle.next_group()),
        "reply" => reply(rt, oracle, words),
        "askers" => show(rt, &oracle.askers()),
        _ => show(rt, &oracle.lost()),
    }
}
