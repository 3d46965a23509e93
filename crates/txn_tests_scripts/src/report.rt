use crate::fixtures::assert_text;
use std::alloc::Global;
use std::process::Abort;
use txn_kv::{Error, Internal, Items, Key, KeyError, LockInfo, Op, RegionErr, Ticket};
use txn_model::ModelStore;
use txn_report::*;

/// Asserts the text of a report over a store that is empty.
fn assert_report(rt: &impl Abort, alloc: Global, outcomes: Vec<Outcome>, lines: &str) {
    let ticket = Ticket {
        line: 2,
        beat: false,
        number: 1,
    };
    let served = vec![in alloc; ticket].expect(rt, "memory");
    let report = Report {
        outcomes: Items::from_vec(outcomes),
        ended: Items::new(alloc),
        sent: Items::new(alloc),
        sleeps: Items::new(alloc),
        served: Items::from_vec(served),
        store: ModelStore::new(alloc).expect(rt, "memory"),
    };
    let text = report_text(alloc, &report).expect(rt, "memory");
    let text = String::from_utf8(text).expect(rt, "a text");
    assert_text(rt, &text, lines);
}

#[test]
fn one_line_for_each_outcome(rt: HostRuntime) {
    let outcomes = vec![in rt.alloc();
        Outcome::Ok(Payload::Unit),
        Outcome::Ok(Payload::Number(786432000)),
        Outcome::Ok(Payload::Commit(None)),
        Outcome::Ok(Payload::Commit(Some(2))),
        Outcome::Err(Error::OperationAfterCommitError),
        Outcome::Unfinished,
        Outcome::Done,
        Outcome::Skipped,
    ];
    let lines = "1 ok
2 ok 786432000
3 ok none
4 ok 2
5 err OperationAfterCommitError
6 open
7 done
8 skipped
sent 0 served 1
";
    assert_report(&rt, rt.alloc(), outcomes.expect(&rt, "memory"), lines);
}

/// Adds a copy of an outcome.
fn add(rt: &impl Abort, outcomes: &mut Vec<Outcome>, outcome: Outcome) {
    let copy = outcome.try_clone().expect(rt, "memory");
    outcomes.push(copy).expect(rt, "memory");
}

/// Adds an error.
fn fail(rt: &impl Abort, outcomes: &mut Vec<Outcome>, error: Error) {
    add(rt, outcomes, Outcome::Err(error));
}

#[test]
fn copied_outcomes_and_errors_of_parts(rt: HostRuntime) {
    let alloc = rt.alloc();
    let mut outcomes = Vec::new(alloc);
    let ticket = Ticket {
        line: 5,
        beat: true,
        number: 2,
    };
    let committed = Payload::Commit(Some(7));
    add(&rt, &mut outcomes, Outcome::Ok(committed));
    fail(&rt, &mut outcomes, Error::GrpcAPI(ticket));
    let region = Error::region(alloc, RegionErr::StaleCommand);
    fail(&rt, &mut outcomes, region.expect(&rt, "memory"));
    let what = Internal::NoEpoch { id: 3 };
    fail(&rt, &mut outcomes, Error::InternalError { what });
    let inner = Box::new(alloc, Error::LeaderNotFound { region_id: 9 });
    let inner = inner.expect(&rt, "memory");
    fail(&rt, &mut outcomes, Error::UndeterminedError(inner));
    let lines = "1 ok 7
2 err GrpcAPI 5.h2
3 err RegionError StaleCommand
4 err InternalError NoEpoch
5 err UndeterminedError [LeaderNotFound 9]
sent 0 served 1
";
    assert_report(&rt, alloc, outcomes, lines);
}

fn exists_at(rt: &impl Abort, alloc: Global, key: &[u8]) -> Error {
    let key = Key::from(key.to_vec(alloc).expect(rt, "memory"));
    Error::key(alloc, KeyError::AlreadyExist { key }).expect(rt, "memory")
}

fn lock(rt: &impl Abort, alloc: Global) -> LockInfo {
    LockInfo {
        key: Key::from(b"a".to_vec(alloc).expect(rt, "memory")),
        primary_lock: Key::empty(alloc),
        lock_version: 7,
        lock_ttl: 3000,
        lock_type: Op::Put,
        lock_for_update_ts: 0,
        use_async_commit: false,
        min_commit_ts: 0,
        secondaries: Items::new(alloc),
    }
}

#[test]
fn errors_at_keys(rt: HostRuntime) {
    let alloc = rt.alloc();
    let mut outcomes = Vec::new(alloc);
    let errors = vec![in alloc; exists_at(&rt, alloc, b"a"), exists_at(&rt, alloc, b"")];
    let errors = errors.expect(&rt, "memory");
    fail(&rt, &mut outcomes, Error::MultipleKeyErrors(errors));
    let locks = vec![in alloc; lock(&rt, alloc)].expect(&rt, "memory");
    fail(&rt, &mut outcomes, Error::ResolveLockError(locks));
    let lines = "1 err MultipleKeyErrors [KeyError AlreadyExist a; KeyError AlreadyExist x:]
2 err ResolveLockError 1 a 7
sent 0 served 1
";
    assert_report(&rt, alloc, outcomes, lines);
}
