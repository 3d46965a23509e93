//! Reports are compared.
use std::alloc::Global;
use std::process::Abort;
use txn_alike::{are_alike, are_beats};
use txn_first::run_lines;
use txn_kv::Ticket;
use txn_report::{Report, SleepNote};
use txn_script::Line;

const ASK: Ticket = Ticket {
    line: 2,
    beat: false,
    number: 1,
};

/// The report of a client that begins a transaction, whose ask is answered.
fn answered(rt: &impl Abort, alloc: Global) -> Report {
    let lines = vec![in alloc;
        Line::Client,
        Line::Begin { client: 1 },
        Line::Deliver { ticket: ASK },
    ];
    run_lines(alloc, lines.expect(rt, "memory")).expect(rt, "memory")
}

/// The same without the answer.
fn waiting(rt: &impl Abort, alloc: Global) -> Report {
    let lines = vec![in alloc; Line::Client, Line::Begin { client: 1 }, Line::Blank];
    run_lines(alloc, lines.expect(rt, "memory")).expect(rt, "memory")
}

#[test]
fn reports_are_alike_where_they_tell_the_same(rt: HostRuntime) {
    let alloc = rt.alloc();
    let one = answered(&rt, alloc);
    let same = answered(&rt, alloc);
    assert!(rt; are_alike(alloc, &one, &same).expect(&rt, "memory"));
    let other = waiting(&rt, alloc);
    assert!(rt; !are_alike(alloc, &one, &other).expect(&rt, "memory"));
}

#[test]
fn a_sleep_of_a_call_is_no_beat(rt: HostRuntime) {
    let beat = SleepNote {
        ticket: Ticket { beat: true, ..ASK },
        at: 5,
    };
    let nap = SleepNote { ticket: ASK, at: 5 };
    assert!(rt; are_beats(&[]));
    assert!(rt; are_beats(&[beat]));
    assert!(rt; !are_beats(&[beat, nap]));
}
