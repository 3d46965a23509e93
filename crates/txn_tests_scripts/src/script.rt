use crate::fixtures::assert_text;
use std::alloc::Global;
use std::process::Abort;
use txn_script::*;

/// The lines of a script, or its first bad line.
fn read(rt: &impl Abort, alloc: Global, script: &str) -> String {
    let read = parse_script(alloc, script.as_bytes()).expect(rt, "memory");
    format!(in alloc; "{read:?}").expect(rt, "memory")
}

#[test]
fn a_line_of_each_kind(rt: HostRuntime) {
    let script = "client
# a comment

begin 1 opt
put 4 x:006b v_1
commit 4
deliver 5.18446744073709551615
";
    let lines = "Ok(Script { lines: Items { vec: [\
        Client, \
        Blank, \
        Blank, \
        Begin { client: 1 }, \
        Put { transaction: 4, key: Key(006B), value: Items { vec: [118, 95, 49] } }, \
        Commit { transaction: 4 }, \
        Deliver { ticket: Ticket { line: 5, beat: false, number: 18446744073709551615 } }] } })";
    assert_text(&rt, &read(&rt, rt.alloc(), script), lines);
}

#[test]
fn lines_that_are_not_in_the_grammar(rt: HostRuntime) {
    let lines = [
        "commit 02",
        "commit  2",
        "commit 18446744073709551616",
        "put 2 x:0 v",
        "get 2 k",
    ];
    for line in lines {
        let read = parse_line(rt.alloc(), line.as_bytes()).expect(&rt, "memory");
        assert!(rt; read == Err(Why::Word), "{line}");
    }
}

#[test]
fn first_bad_lines(rt: HostRuntime) {
    let rows = [
        (
            "client\nbegin 1 opt\nput 4 a 1",
            "Err(BadAt { line: 3, why: NotEarlier })",
        ),
        ("client\ncommit 1\n", "Err(BadAt { line: 2, why: Kind })"),
        ("client\nclient\n", "Err(BadAt { line: 2, why: Word })"),
        ("client\n \n", "Err(BadAt { line: 2, why: Word })"),
    ];
    for (script, bad) in rows {
        assert_text(&rt, &read(&rt, rt.alloc(), script), bad);
    }
}

fn why_bad(rt: &impl Abort, alloc: Global, script: &str) -> Option<Why> {
    match parse_script(alloc, script.as_bytes()).expect(rt, "memory") {
        Ok(_) => None,
        Err(bad) => Some(bad.why),
    }
}

/// So many pieces are a script, and one more is none.
#[test]
fn scripts_that_are_too_long(rt: HostRuntime) {
    for (piece, most, why) in [("#", 4096, Why::TooLong), ("\n", 65536, Why::TooMany)] {
        let mut script = piece.repeat(rt.alloc(), most).expect(&rt, "memory");
        assert!(rt; why_bad(&rt, rt.alloc(), &script).is_none(), "{piece:?}");
        script.push_str(piece).expect(&rt, "memory");
        assert!(rt; why_bad(&rt, rt.alloc(), &script) == Some(why), "{piece:?}");
    }
}

#[test]
fn the_kinds_of_the_lines_so_far(rt: HostRuntime) {
    let mut kinds = LineKinds::new(rt.alloc());
    kinds.push(&Line::Client).expect(&rt, "memory");
    assert!(rt; kinds.len() == 1);
    assert!(rt; kinds.why(&Line::Client) == Some(Why::Word));
}
