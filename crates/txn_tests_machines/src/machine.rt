ghost use Rattle.std.specs.Prelude.{◌≡◌, ◌∷◌, []};
ghost use Rattle.txn_side.specs.Doubt.{itself};
ghost use Rattle.txn_tests_machines.specs.Nobody.{nobody_at, none, none_arises, none_due};

use crate::fixtures::assert_shown;
use std::alloc::Global;
use txn_kv::{NoMemory, Ticket};
use txn_lines::{Act, ClientAct, Line};
use txn_machine::*;
use txn_side::{ClientSide, Coming, Turn};

/// The clients of a run that has none.
#[derive(Drop)]
struct Nobody {
    lines: Vec<u64>,
}

impl ClientSide for Nobody {
    ghost use Rattle.std.specs.Prelude.{⊤};
    ghost use Rattle.txn_side.specs.Account.{new_account};

    ghost sight = { λ s. nobody_at s.lines.items };

    ghost ready = { λ s. ⊤ };

    ghost waits = { λ s. none };

    ghost nobody_waits = { λ s is_nobody line a h. h };

    ghost due = { λ s is_ready. none_due s.lines.items };

    ghost account = { λ s n. new_account };

    ghost fails = { λ kind begun heard error. ⊥ };

    ghost rests = { λ s trace. ⊤ };

    ghost rests_longer = { λ s trace longer is_longer rest. rest };

    ghost nobody_rests = { λ s is_nobody trace owed. tt };

    ghost arises = { λ s history. ⊤ };

    ghost holds = { λ s history line outcome. ⊤ };

    ghost nobody_arises = { λ s ready is_nobody. tt };

    ghost arises_longer = { λ s history event is_outside possible arisen. none_arises itself (event ∷ history) };

    fn open(&mut self) -> Result<(), NoMemory> {
        self.lines.push(0)?;
        Ok(())
    }

    fn is_live(&self, _line: u64) -> bool {
        false
    }

    fn connect(&mut self, _now: u64) -> Result<(), NoMemory> {
        Err(NoMemory)
    }

    fn crash(&mut self, _line: u64) -> bool {
        false
    }

    fn call(&mut self, _client: u64, _act: ClientAct, _now: u64) -> Result<Option<Turn>, NoMemory> {
        Ok(None)
    }

    fn act(&mut self, _transaction: u64, _act: Act, _now: u64) -> Result<Option<Turn>, NoMemory> {
        Ok(None)
    }

    fn tell(&mut self, _ticket: Ticket, _what: Coming, _now: u64) -> Result<Turn, NoMemory> {
        Err(NoMemory)
    }
}

fn no_clients(alloc: Global) -> Nobody
    ensures { result.lines.items ≡ [] }
{
    Nobody {
        lines: Vec::new(alloc),
    }
}

/// What no line has sent.
const UNSENT: Ticket = Ticket {
    line: 2,
    beat: false,
    number: 1,
};

#[test]
fn a_machine_runs_line_by_line(rt: HostRuntime) {
    let alloc = rt.alloc();
    let mut machine = Machine::new(alloc, no_clients(alloc)).expect(&rt, "memory");
    assert_eq!(rt; machine.check(&Line::Blank), None);
    let first = machine.step(Line::Blank).expect(&rt, "memory");
    assert_shown(
        &rt,
        alloc,
        &first,
        "StepNote { place: 1, outcome: Done, sent: Items { vec: [] }, ended: Items { vec: [] } }",
    );
    let serve = Line::Serve { ticket: UNSENT };
    let second = machine.step(serve).expect(&rt, "memory");
    assert_shown(
        &rt,
        alloc,
        &second,
        "StepNote { place: 2, outcome: Skipped, sent: Items { vec: [] }, ended: Items { vec: [] } }",
    );
    let outs = machine.outs().expect(&rt, "memory");
    assert_eq!(rt; outs.len(), 0);
}

#[test]
fn a_report_has_the_outcomes_and_the_store(rt: HostRuntime) {
    let alloc = rt.alloc();
    let mut machine = Machine::new(alloc, no_clients(alloc)).expect(&rt, "memory");
    machine.step(Line::Clock { ms: 5 }).expect(&rt, "memory");
    let lead = Line::Lead {
        region: 7,
        store: 2,
    };
    machine.step(lead).expect(&rt, "memory");
    let report = machine.report();
    assert_eq!(rt; report.store.clock(), 5);
    assert_eq!(rt; report.ended.as_slice(), [1, 2].as_slice());
    let outcomes = "Items { vec: [Done, Skipped] }";
    assert_shown(&rt, alloc, &report.outcomes, outcomes);
}

#[test]
fn lines_are_run_to_a_report(rt: HostRuntime) {
    let alloc = rt.alloc();
    let lines = vec![in alloc; Line::Blank, Line::Clock { ms: 5 }];
    let lines = lines.expect(&rt, "memory");
    let report = run_lines(alloc, no_clients(alloc), lines).expect(&rt, "memory");
    assert_eq!(rt; report.store.clock(), 5);
    assert_eq!(rt; report.ended.as_slice(), [1, 2].as_slice());
}
