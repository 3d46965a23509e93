//! The results of a plan's tasks as the plan's answer.

use crate::replies::outcomes;
use case_words::{rest, show};
use txn_kv::Result;
use txn_retry::{all_or_first, keep_all};

pub fn serve(rt: &HostRuntime, words: &[&str]) {
    let alloc = rt.alloc();
    let results: Vec<Result<Result<u64>>> = outcomes(alloc, rest(words, 1));
    show(rt, &keep_all(alloc, results));
    let results: Vec<Result<u64>> = outcomes(alloc, rest(words, 1));
    show(rt, &all_or_first(alloc, results));
}
