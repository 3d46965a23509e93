//! Options by words.
use case_words::{rest, show, word};
use txn_core::{CheckLevel, HeartbeatOption, TransactionOptions};
use txn_merge::RetryOptions;

fn kind(word: &str) -> TransactionOptions {
    match word {
        "optimistic" => TransactionOptions::new_optimistic(),
        "pessimistic" => TransactionOptions::new_pessimistic(),
        _ => TransactionOptions::default(),
    }
}

fn changed(options: TransactionOptions, word: &str) -> TransactionOptions {
    match word {
        "async" => options.use_async_commit(),
        "one_pc" => options.try_one_pc(),
        "read_only" => options.read_only(),
        "no_locks" => options.no_resolve_locks(),
        "no_regions" => options.no_resolve_regions(),
        "usual_retries" => options.retry_options(RetryOptions::default_optimistic()),
        "panics" => options.drop_check(CheckLevel::Panic),
        "warns" => options.drop_check(CheckLevel::Warn),
        "unchecked" => options.drop_check(CheckLevel::None),
        "no_heartbeat" => options.heartbeat_option(HeartbeatOption::NoHeartbeat),
        _ => options,
    }
}

/// The options behind the first word: a kind, and what is changed of it one by one.
pub fn options(words: &[&str]) -> TransactionOptions {
    let mut options = kind(word(words, 1));
    for word in rest(words, 2) {
        options = changed(options, word);
    }
    options
}

/// Options, and whether they are pessimistic.
fn show_options(rt: &HostRuntime, words: &[&str]) {
    let options = options(words);
    show(rt, &options);
    show(rt, &options.is_pessimistic());
}

fn defaults(rt: &HostRuntime) {
    show(rt, &CheckLevel::default());
    show(rt, &HeartbeatOption::default().is_auto_heartbeat());
}

fn retries(rt: &HostRuntime) {
    show(rt, &RetryOptions::none());
    show(rt, &RetryOptions::default_optimistic());
}

pub fn serve(rt: &HostRuntime, words: &[&str]) {
    match word(words, 0) {
        "options" => show_options(rt, words),
        "defaults" => defaults(rt),
        _ => retries(rt),
    }
}
