use crate::fixtures::assert_shown;
use txn_first::*;
use txn_kv::Ticket;
use txn_script::Line;

/// The first request of line 2.
const TICKET: Ticket = Ticket {
    line: 2,
    beat: false,
    number: 1,
};

#[test]
fn a_machine_runs_line_by_line(rt: HostRuntime) {
    let alloc = rt.alloc();
    let mut machine = Machine::new(alloc).expect(&rt, "memory");
    assert_eq!(rt; machine.check(&Line::Client), None);
    let first = machine.step(Line::Client).expect(&rt, "memory");
    assert_shown(
        &rt,
        alloc,
        &first,
        "StepNote { place: 1, outcome: Ok(Unit), sent: Items { vec: [] }, ended: Items { vec: [Ending { line: 1, outcome: Ok(Unit) }] } }",
    );
    let begin = Line::Begin { client: 1 };
    let second = machine.step(begin).expect(&rt, "memory");
    assert_shown(
        &rt,
        alloc,
        &second,
        "StepNote { place: 2, outcome: Unfinished, sent: Items { vec: [Ticket { line: 2, beat: false, number: 1 }] }, ended: Items { vec: [] } }",
    );
    let outs = machine.outs().expect(&rt, "memory");
    assert_eq!(rt; outs.as_slice(), [TICKET].as_slice());
    let deliver = Line::Deliver { ticket: TICKET };
    let third = machine.step(deliver).expect(&rt, "memory");
    assert_shown(
        &rt,
        alloc,
        &third,
        "StepNote { place: 3, outcome: Done, sent: Items { vec: [] }, ended: Items { vec: [Ending { line: 2, outcome: Ok(Number(1)) }] } }",
    );
    let outs = machine.outs().expect(&rt, "memory");
    assert_eq!(rt; outs.len(), 0);
    assert_eq!(rt; machine.report().outcomes.len(), 3);
}

#[test]
fn lines_are_run_to_a_report(rt: HostRuntime) {
    let alloc = rt.alloc();
    let lines = vec![in alloc; Line::Client, Line::Begin { client: 1 }];
    let report = run_lines(alloc, lines.expect(&rt, "memory")).expect(&rt, "memory");
    assert_eq!(rt; report.ended.as_slice(), [1, 0].as_slice());
    assert_eq!(rt; report.sent.len(), 1);
}
