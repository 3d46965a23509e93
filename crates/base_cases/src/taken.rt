//! What is taken out of the replies to commits.

use crate::replies::{commit, outcomes, replies};
use case_words::{rest, show, word};
use std::alloc::Global;
use txn_kv::{CommitResponse, Result};
use txn_merge::{HasKeyErrors, HasLocks, HasRegionError, HasRegionErrors, extract_error};

fn extracted(rt: &HostRuntime, reply: Result<CommitResponse>) {
    show(rt, &extract_error(rt.alloc(), reply));
}

fn errors(rt: &HostRuntime, mut reply: Result<CommitResponse>) {
    show(rt, &reply.region_error());
    show(rt, &reply.key_errors(rt.alloc()));
}

/// Shows the locks, and whether the reply is without an error then.
fn locks(rt: &HostRuntime, mut reply: CommitResponse) {
    show(rt, &reply.take_locks(rt.alloc()));
    show(rt, &(reply == commit(None, None)));
}

fn commits(alloc: Global, words: &[&str]) -> Vec<CommitResponse> {
    replies(alloc, rest(words, 2))
}

pub fn serve(rt: &HostRuntime, words: &[&str]) {
    let alloc = rt.alloc();
    match word(words, 1) {
        "extract" => {
            for reply in outcomes(alloc, rest(words, 2)) {
                extracted(rt, reply);
            }
        }
        "errors" => {
            for reply in outcomes(alloc, rest(words, 2)) {
                errors(rt, reply);
            }
        }
        "locks" => {
            for reply in commits(alloc, words) {
                locks(rt, reply);
            }
        }
        _ => show(rt, &commits(alloc, words).region_errors(alloc)),
    }
}
