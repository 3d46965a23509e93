//! Calls of keys, values, errors and messages, by rows of words (`case_words` tells how a row is read and shown).
//!
//! | row | what is called |
//! |---|---|
//! | `delays KIND BASE MOST ATTEMPTS WORD..` | the delay for each random word, whether there is no backoff, how many attempts were made |
//! | `triple NUMBER..` | `flat_map_ok`, each Ok thrice; `!` is an Err |
//! | `encode up KEY`, `encode down KEY` | the encoding, and what it is decoded to with two bytes behind it |
//! | `decode up BYTES`, `decode down BYTES` | the answer, and what is left |
//! | `key CALL KEY..` | a call on keys or on a pair |
//! | `range KIND WORD..` | the range of keys that a range over borrowed bytes becomes, its copy, its two keys |
//! | `region START END KEY..` | a region's calls, and whether it contains each key |
//! | `time VERSION` | the timestamp of a number, and back |
//! | `copy TYPE WORD..`, `show TYPE` | whether a copy is the same, what is printed of a value |
//! | `error NAME WORD..` | the text of a copy of the error |
//! | `ask KIND WORD..` | a request: its label, whether a copy is the same, and the copy |
//! | `reply KIND WORD..` | a reply: whether a copy is the same, and what the kind's request takes the copy for |
#![tactic(auto)]

mod backoffs;
mod codecs;
mod errors;
mod keys;
mod ranges;
mod replies;
mod requests;
mod values;

use case_words::{Rows, run, word};
use std::process::ExitCode;

/// No row leaves anything to the next.
#[derive(Clone, Copy)]
struct Calls;

impl Rows for Calls {
    fn begin(&mut self) {}

    fn serve(&mut self, rt: &HostRuntime, words: &[&str]) {
        match word(words, 0) {
            "delays" => backoffs::serve(rt, words),
            "encode" => codecs::encode(rt, words),
            "decode" => codecs::decode(rt, words),
            "key" => keys::serve(rt, words),
            "range" => ranges::serve(rt, words),
            "region" => ranges::region(rt, words),
            "error" => errors::serve(rt, words),
            "ask" => requests::serve(rt, words),
            "reply" => replies::serve(rt, words),
            _ => values::serve(rt, words),
        }
    }
}

fn main(rt: HostRuntime) -> ExitCode {
    run(&rt, &mut Calls)
}
