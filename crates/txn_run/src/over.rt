//! A run over the clients of the library, whatever plans the requests of their commits and rollbacks go by.
ghost use Rattle.std.specs.Prelude.{[], IfOk, reverse};
ghost use Rattle.txn_clients.specs.Failing.{FailsFor};
ghost use Rattle.txn_machine.specs.Failing.{CausesMeetLines};
ghost use Rattle.txn_machine.specs.Lawful.{AllGood, Lawful};
ghost use Rattle.txn_run.specs.Behind.{AreBehind};

use std::alloc::Global;
use txn_clients::Clients;
use txn_commit::Plans;
use txn_commit_plans::HeartbeatPlan;
use txn_heartbeats::Heartbeats;
use txn_kv::NoMemory;
use txn_lines::Line;
use txn_machine::run_lines;
use txn_report::Report;

/// Runs lines, none of which is bad after the earlier ones, over clients of no line.
pub(crate) fn run_over<P>(alloc: Global, lines: Vec<Line>) -> Result<Report, NoMemory>
where
    P: Plans,
    requires { AllGood [] lines.items }
    ensures lawful { IfOk result (λ report. Lawful lines.items report) }
    ensures causes { IfOk result (λ report. CausesMeetLines (FailsFor P.ways) (reverse lines.items) report) }
    ensures behind { IfOk result (λ report. AreBehind P.ways (reverse lines.items) report) }
{
    let clients: Clients<P> = Clients::new(alloc);
    let hearts: Heartbeats<Clients<P>, HeartbeatPlan> = Heartbeats::new(alloc, clients);
    run_lines(alloc, hearts, lines)
}
