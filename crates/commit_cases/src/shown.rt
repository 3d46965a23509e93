//! Answers and errands in words.
use case_words::{say, show};
use std::fmt::Debug;
use std::str;
use txn_core::TxnAnswer;
use txn_kv::{
    BatchRollbackRequest, CommitRequest, Errand, Key, Mutation, NoMemory, PrewriteRequest,
    Progress, Request, Target,
};

/// How far a call has come.
pub fn show_progress<T: Debug>(rt: &HostRuntime, turn: &Result<Progress<T>, NoMemory>) {
    match turn {
        Ok(progress) => show(rt, progress),
        Err(error) => show(rt, error),
    }
}

/// What a call of a transaction answers. It is "open" where it goes on, and "unheard" where no call is open.
pub fn show_turn<Q>(
    rt: &HostRuntime,
    turn: &Result<Progress<TxnAnswer<Q>>, NoMemory>,
    is_busy: bool,
) {
    match turn {
        Ok(Progress::Waiting) => say(rt, &if is_busy { "open" } else { "unheard" }),
        Ok(Progress::Done(Ok(answer))) => show_answer(rt, answer),
        Ok(Progress::Done(Err(error))) => show(rt, error),
        Err(error) => show(rt, error),
    }
}

/// "unit", a timestamp, or "none" where nothing was to be committed.
fn show_answer<Q>(rt: &HostRuntime, answer: &TxnAnswer<Q>) {
    match answer {
        TxnAnswer::Unit => say(rt, &"unit"),
        TxnAnswer::Committed(None, _) => say(rt, &"none"),
        TxnAnswer::Committed(Some(time), job) => {
            let _ = print!(rt; " {}.{}", time.physical, time.logical);
            if job.is_some() {
                say(rt, &"and a job");
            }
        }
        _ => say(rt, &"a read"),
    }
}

/// What is to be done, from this errand on.
pub fn show_errands(rt: &HostRuntime, errands: &[Errand], from: usize) {
    for errand in errands.iter().skip(from) {
        show_errand(rt, errand);
    }
}

fn show_errand(rt: &HostRuntime, errand: &Errand) {
    match errand {
        Errand::Send { to, request, .. } => {
            show_request(rt, request);
            show_target(rt, *to);
        }
        Errand::Sleep { ms, .. } => {
            let _ = print!(rt; "; Sleep {ms}");
        }
        Errand::Ask { ask } => {
            let _ = print!(rt; "; Ask {ask}");
        }
    }
}

/// Store 1 goes without saying.
fn show_target(rt: &HostRuntime, to: Target) {
    match to {
        Target::Store(1) => {}
        Target::Store(store) => {
            let _ = print!(rt; " to store {store}");
        }
        Target::Placement => say(rt, &"to placement"),
    }
}

fn show_request(rt: &HostRuntime, request: &Request) {
    match request {
        Request::Prewrite(prewrite) => show_prewrite(rt, prewrite),
        Request::Commit(commit) => show_commit(rt, commit),
        Request::BatchRollback(rollback) => show_rollback(rt, rollback),
        _ => say(rt, &"; another request"),
    }
}

fn show_prewrite(rt: &HostRuntime, request: &PrewriteRequest) {
    let (start, ttl) = (request.start_version, request.lock_ttl);
    let primary = name(&request.primary_lock);
    let _ = print!(rt; "; Prewrite {start} under {primary} for {ttl}:");
    show_mutations(rt, request.mutations.as_slice());
}

pub fn show_mutations(rt: &HostRuntime, mutations: &[Mutation]) {
    for mutation in mutations {
        let _ = print!(rt; " {:?} {}", mutation.op, name(&mutation.key));
    }
}

fn show_commit(rt: &HostRuntime, request: &CommitRequest) {
    let (start, commit) = (request.start_version, request.commit_version);
    let _ = print!(rt; "; Commit {start} at {commit}:");
    show_keys(rt, request.keys.as_slice());
}

fn show_rollback(rt: &HostRuntime, request: &BatchRollbackRequest) {
    let start = request.start_version;
    let _ = print!(rt; "; BatchRollback {start}:");
    show_keys(rt, request.keys.as_slice());
}

pub fn show_keys(rt: &HostRuntime, keys: &[Key]) {
    for key in keys {
        say(rt, &name(key));
    }
}

/// The keys of the rows are letters.
pub fn name(key: &Key) -> &str {
    match str::from_utf8(key.as_slice()) {
        Ok(name) => name,
        Err(_) => "?",
    }
}
