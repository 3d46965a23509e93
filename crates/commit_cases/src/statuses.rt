//! Statuses by their numbers.
use case_words::{flag, number, say, show, word};
use txn_core::{CheckLevel, Status};

fn show_allowed(rt: &HostRuntime, status: Status) {
    let rows = [
        (status.allows_data(), "data"),
        (status.allows_commit(), "commit"),
        (status.allows_rollback(), "rollback"),
        (status.is_end(), "end"),
    ];
    for (allowed, word) in rows {
        if allowed {
            say(rt, &word);
        }
    }
}

/// The numbers of the statuses that may come next.
fn show_next(rt: &HostRuntime, status: Status) {
    for number in 0..7 {
        match Status::from_number(number) {
            Some(next) => {
                if status.may_move_to(next) {
                    say(rt, &number);
                }
            }
            None => say(rt, &"?"),
        }
    }
}

fn show_status(rt: &HostRuntime, status: Status) {
    show(rt, &status);
    say(rt, &status.number());
    show_allowed(rt, status);
    for level in [CheckLevel::Panic, CheckLevel::Warn, CheckLevel::None] {
        show(rt, &status.closing(level));
    }
    show_next(rt, status);
}

fn numbered(rt: &HostRuntime, words: &[&str]) {
    match Status::from_number(number(words, 1).min(255) as u8) {
        Some(status) => show_status(rt, status),
        None => say(rt, &"none"),
    }
}

pub fn serve(rt: &HostRuntime, words: &[&str]) {
    match word(words, 0) {
        "numbered" => numbered(rt, words),
        _ => show(rt, &Status::opening(flag(words, 1, "read_only"))),
    }
}
