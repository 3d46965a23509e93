ghost use Rattle.std.specs.Prelude.{IfOk};
ghost use Rattle.txn_heartbeat.specs.Beats.{IsPlanForBeats};

use std::alloc::Global;
use txn_kv::{Backoff, NoMemory, TxnHeartBeatRequest};
use txn_plan::Plan;
use txn_region::PdClient;

/// A plan by which a beat goes to the region of its primary.
pub trait PlanForHeartbeats: Plan {
    /// A plan of the request that is not started yet. It is tried again as often as the backoff has attempts.
    fn plan_for_beat<C: PdClient>(
        alloc: Global,
        pd: &C,
        request: TxnHeartBeatRequest,
        backoff: Backoff,
    ) -> Result<Self, NoMemory>
        ensures { IfOk result (IsPlanForBeats Self.Plan.meaning request) };
}
