//! Backoffs and their delays.

use case_words::{number, number_in, rest, show, small, word};
use txn_kv::{Backoff, DEFAULT_STORE_BACKOFF, OPTIMISTIC_BACKOFF, PESSIMISTIC_BACKOFF};

/// A backoff whose delays have jitter. There is none below the least base and the least maximum of its kind.
fn with_jitter(kind: &str, base: u64, most: u64, attempts: u32) -> Backoff {
    if base < 2 || most < 2 {
        return Backoff::no_backoff();
    }
    match kind {
        "full" => Backoff::full_jitter_backoff(base, most, attempts),
        "equal" => Backoff::equal_jitter_backoff(base, most, attempts),
        _ => Backoff::decorrelated_jitter_backoff(base, most, attempts),
    }
}

fn backoff(words: &[&str]) -> Backoff {
    let (base, most, attempts) = (number(words, 2), number(words, 3), small(words, 4));
    match word(words, 1) {
        "none" => Backoff::no_backoff(),
        "store" => DEFAULT_STORE_BACKOFF,
        "optimistic" => OPTIMISTIC_BACKOFF,
        "pessimistic" => PESSIMISTIC_BACKOFF,
        "plain" => Backoff::no_jitter_backoff(base, most, attempts),
        kind => with_jitter(kind, base, most, attempts),
    }
}

pub fn serve(rt: &HostRuntime, words: &[&str]) {
    let mut backoff = backoff(words);
    for word in rest(words, 5) {
        show(rt, &backoff.next_delay_duration(number_in(word)));
    }
    show(rt, &(backoff.is_none(), backoff.current_attempts()));
    show(rt, &(backoff == OPTIMISTIC_BACKOFF));
}
