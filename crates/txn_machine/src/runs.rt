//! Whole scripts.
ghost use Rattle.std.specs.Prelude.{◌≡◌, [], IfOk, reverse};
ghost use Rattle.txn_machine.specs.Arising.{ArisenLines};
ghost use Rattle.txn_machine.specs.Failing.{CausesMeetLines};
ghost use Rattle.txn_machine.specs.Lawful.{AllGood, Lawful};
ghost use Rattle.txn_side.specs.Account.{AreNew};
ghost use Rattle.txn_side.specs.Sight.{nobody};

use crate::machine::Machine;
use std::alloc::Global;
use txn_kv::NoMemory;
use txn_lines::Line;
use txn_report::Report;
use txn_side::ClientSide;

/// Runs lines, none of which is bad after the earlier ones, over clients of no line.
pub fn run_lines<S: ClientSide>(
    alloc: Global,
    clients: S,
    lines: Vec<Line>,
) -> Result<Report, NoMemory>
    requires nobody { S.sight clients ≡ nobody }
    requires ready { S.ready clients }
    requires accounts { AreNew (S.account clients) }
    requires good { AllGood [] lines.items }
    ensures lawful { IfOk result (λ report. Lawful lines.items report) }
    ensures causes { IfOk result (λ report. CausesMeetLines S.fails (reverse lines.items) report) }
    ensures arisen { IfOk result (λ report. ArisenLines S.sight S.arises S.holds S.account (reverse lines.items) report) }
{
    let mut machine = Machine::new(alloc, clients)?;
    for line in lines {
        machine.step(line)?;
    }
    Ok(machine.report())
}
