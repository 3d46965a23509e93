use crate::fixtures::assert_text;
use std::alloc::Global;
use std::process::Abort;
use txn_lines::*;

/// The lines of a script, or its first bad line.
fn read(rt: &impl Abort, alloc: Global, script: &str) -> String {
    let read = parse_script(alloc, script.as_bytes()).expect(rt, "memory");
    format!(in alloc; "{read:?}").expect(rt, "memory")
}

#[test]
fn calls_of_a_client(rt: HostRuntime) {
    let script = "client
# a comment

timestamp 1
begin 1 opt
begin 1 opt nolocks
begin 1 opt noregions nolocks
crash 1";
    let lines = "Ok(Script { lines: Items { vec: [\
        Client, \
        Blank, \
        Blank, \
        Timestamp { client: 1 }, \
        Begin { client: 1, options: BeginOptions { no_locks: false, no_regions: false } }, \
        Begin { client: 1, options: BeginOptions { no_locks: true, no_regions: false } }, \
        Begin { client: 1, options: BeginOptions { no_locks: true, no_regions: true } }, \
        Crash { client: 1 }] } })";
    assert_text(&rt, &read(&rt, rt.alloc(), script), lines);
}

#[test]
fn calls_of_a_transaction(rt: HostRuntime) {
    let script = "client
begin 1 opt
put 2 x:006b v_1
insert 2 k x:
delete 2 k
lock 2 b a
commit 2
rollback 2
";
    let lines = "Ok(Script { lines: Items { vec: [\
        Client, \
        Begin { client: 1, options: BeginOptions { no_locks: false, no_regions: false } }, \
        Put { transaction: 2, key: Key(006B), value: Items { vec: [118, 95, 49] } }, \
        Insert { transaction: 2, key: Key(6B), value: Items { vec: [] } }, \
        Delete { transaction: 2, key: Key(6B) }, \
        Lock { transaction: 2, keys: Items { vec: [Key(62), Key(61)] } }, \
        Commit { transaction: 2 }, \
        Rollback { transaction: 2 }] } })";
    assert_text(&rt, &read(&rt, rt.alloc(), script), lines);
}

#[test]
fn a_mutate_of_each_kind(rt: HostRuntime) {
    let script = "client
begin 1 opt
mutate 2 put a 1 del b lock put insert c 3 check d";
    let lines = "Ok(Script { lines: Items { vec: [\
        Client, \
        Begin { client: 1, options: BeginOptions { no_locks: false, no_regions: false } }, \
        Mutate { transaction: 2, mutations: Items { vec: [\
        Mutation { op: Put, key: Key(61), value: Items { vec: [49] }, assertion: None }, \
        Mutation { op: Del, key: Key(62), value: Items { vec: [] }, assertion: None }, \
        Mutation { op: Lock, key: Key(707574), value: Items { vec: [] }, assertion: None }, \
        Mutation { op: Insert, key: Key(63), value: Items { vec: [51] }, assertion: None }, \
        Mutation { op: CheckNotExists, key: Key(64), value: Items { vec: [] }, assertion: None }\
        ] } }] } })";
    assert_text(&rt, &read(&rt, rt.alloc(), script), lines);
}

#[test]
fn events(rt: HostRuntime) {
    let script = "deliver 5.18446744073709551615
serve 6.1
answer 6.1
lose 6.1
busy 6.1
wake 6.1
split m
lead 9 3
clock 17592186044415
";
    let lines = "Ok(Script { lines: Items { vec: [\
        Deliver { ticket: Ticket { line: 5, beat: false, number: 18446744073709551615 } }, \
        Serve { ticket: Ticket { line: 6, beat: false, number: 1 } }, \
        Answer { ticket: Ticket { line: 6, beat: false, number: 1 } }, \
        Lose { ticket: Ticket { line: 6, beat: false, number: 1 } }, \
        Busy { ticket: Ticket { line: 6, beat: false, number: 1 } }, \
        Wake { ticket: Ticket { line: 6, beat: false, number: 1 } }, \
        Split { key: Key(6D) }, \
        Lead { region: 9, store: 3 }, \
        Clock { ms: 17592186044415 }] } })";
    assert_text(&rt, &read(&rt, rt.alloc(), script), lines);
}

/// Each event that takes a ticket takes that of a heartbeat.
#[test]
fn events_of_heartbeats(rt: HostRuntime) {
    let script = "wake 6.h1
serve 6.h2
answer 18446744073709551615.h2
deliver 6.h18446744073709551615
lose 6.h10
busy 0.h0
busy 0.0";
    let lines = "Ok(Script { lines: Items { vec: [\
        Wake { ticket: Ticket { line: 6, beat: true, number: 1 } }, \
        Serve { ticket: Ticket { line: 6, beat: true, number: 2 } }, \
        Answer { ticket: Ticket { line: 18446744073709551615, beat: true, number: 2 } }, \
        Deliver { ticket: Ticket { line: 6, beat: true, number: 18446744073709551615 } }, \
        Lose { ticket: Ticket { line: 6, beat: true, number: 10 } }, \
        Busy { ticket: Ticket { line: 0, beat: true, number: 0 } }, \
        Busy { ticket: Ticket { line: 0, beat: false, number: 0 } }] } })";
    assert_text(&rt, &read(&rt, rt.alloc(), script), lines);
}

#[test]
fn lines_that_are_not_in_the_grammar(rt: HostRuntime) {
    let lines = [
        "commit 02",
        "commit 18446744073709551616",
        "client ",
        "put 2 k x:0A",
        "deliver 1.h",
        "deliver 1.hh1",
        "deliver 1.h01",
        "deliver 1.h18446744073709551616",
        "deliver h1.1",
        "deliver 1.H1",
        "deliver 1h1",
        "mutate 2",
        "lead 1 4",
        "begin 1 opt nolocks nolocks",
    ];
    for line in lines {
        let read = parse_line(rt.alloc(), line.as_bytes()).expect(&rt, "memory");
        assert!(rt; read == Err(Why::Word), "{line}");
    }
}

#[test]
fn first_bad_lines(rt: HostRuntime) {
    let rows = [
        (
            "client\ncrash 2\n",
            "Err(BadAt { line: 2, why: NotEarlier })",
        ),
        ("client\ncommit 1\n", "Err(BadAt { line: 2, why: Kind })"),
        ("client\n \ncommit 1", "Err(BadAt { line: 2, why: Word })"),
        (
            "split x:\nclock x",
            "Err(BadAt { line: 1, why: EmptySplit })",
        ),
        (
            "clock 17592186044416",
            "Err(BadAt { line: 1, why: ClockHigh })",
        ),
        (
            "clock 5\nclock 5\nclock 4",
            "Err(BadAt { line: 3, why: ClockFalls })",
        ),
    ];
    for (script, bad) in rows {
        assert_text(&rt, &read(&rt, rt.alloc(), script), bad);
    }
}

fn why_bad(rt: &impl Abort, alloc: Global, script: &str) -> Option<Why> {
    match parse_script(alloc, script.as_bytes()).expect(rt, "memory") {
        Ok(_) => None,
        Err(bad) => Some(bad.why),
    }
}

/// So many pieces are a script, and one more is none.
#[test]
fn scripts_that_are_too_long(rt: HostRuntime) {
    let rows = [
        ("#", 4096, Why::TooLong),
        ("\n", 65536, Why::TooMany),
        ("client\n", 64, Why::Clients),
    ];
    for (piece, most, why) in rows {
        let mut script = piece.repeat(rt.alloc(), most).expect(&rt, "memory");
        assert!(rt; why_bad(&rt, rt.alloc(), &script).is_none(), "{piece:?}");
        script.push_str(piece).expect(&rt, "memory");
        assert!(rt; why_bad(&rt, rt.alloc(), &script) == Some(why), "{piece:?}");
    }
}

#[test]
fn the_kinds_of_the_lines_so_far(rt: HostRuntime) {
    let mut kinds = LineKinds::new(rt.alloc());
    kinds.push(&Line::Client).expect(&rt, "memory");
    assert!(rt; kinds.len() == 1);
    let commit = Line::Commit { transaction: 1 };
    assert!(rt; kinds.why(&commit) == Some(Why::Kind));
}
