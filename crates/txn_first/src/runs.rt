ghost use Rattle.std.specs.Prelude.{[], IfOk};
ghost use Rattle.txn_first.specs.Lawful.{AllGood, Lawful};

use crate::machine::Machine;
use std::alloc::Global;
use txn_kv::NoMemory;
use txn_report::Report;
use txn_script::Line;

/// Runs lines, none of which is bad after the earlier ones.
pub fn run_lines(alloc: Global, lines: Vec<Line>) -> Result<Report, NoMemory>
    requires { AllGood [] lines.items }
    ensures { IfOk result (λ report. Lawful lines.items report) }
{
    let mut machine = Machine::new(alloc)?;
    for line in lines {
        machine.step(line)?;
    }
    Ok(machine.report())
}
