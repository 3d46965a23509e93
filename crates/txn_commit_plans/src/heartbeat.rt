ghost use Rattle.std.specs.Prelude.{◌≡◌};
ghost use Rattle.txn_kv.specs.declared.request.Request.TheVariants.{TxnHeartBeat};
ghost use Rattle.txn_kv.specs.declared.request.commits.TxnHeartBeatRequest.{TxnHeartBeatRequest as Sent};
ghost use Rattle.txn_request.specs.Defaults.{default_txn_heart_beat};

use crate::own::Own;
use std::alloc::Global;
use txn_heartbeat::PlanForHeartbeats;
use txn_kv::{Backoff, Key, NoMemory, TxnHeartBeatRequest, TxnHeartBeatResponse};
use txn_merge::CollectSingle;
use txn_multi::RetryableMultiRegion;
use txn_plan::{Dispatch, MergeResponse};
use txn_region::{EncodedRequest, PdClient};
use txn_request::requests::new_heart_beat_request;

/// The plan of a heartbeat: it goes to the region of its primary, and the one reply is its answer.
pub type HeartbeatPlan = Own<
    MergeResponse<
        RetryableMultiRegion<Dispatch<TxnHeartBeatRequest>>,
        TxnHeartBeatResponse,
        CollectSingle,
    >,
>;

/// The heartbeat with the context that the client's codec gives one like it that names nothing.
fn encoded<C: PdClient>(alloc: Global, pd: &C, request: TxnHeartBeatRequest) -> TxnHeartBeatRequest
    ensures rest { result ≡ record request { context = result.context } }
    ensures context { (sent : Sent) × (C.Codec.encoded (C.codec pd.now) (TxnHeartBeat (record default_txn_heart_beat { context = request.context })) ≡ TxnHeartBeat sent) × (result.context ≡ sent.context) }
{
    let mut request = request;
    let mut empty = new_heart_beat_request(0, Key::empty(alloc), 0);
    empty.context = request.context;
    request.context = EncodedRequest::new(empty, pd.get_codec()).inner.context;
    request
}

impl PlanForHeartbeats for HeartbeatPlan {
    fn plan_for_beat<C: PdClient>(
        alloc: Global,
        pd: &C,
        request: TxnHeartBeatRequest,
        backoff: Backoff,
    ) -> Result<Self, NoMemory> {
        let request = encoded(alloc, pd, request);
        let sent = Dispatch::new(request, None);
        let plan = RetryableMultiRegion::new(alloc, sent, backoff, false);
        let merged = MergeResponse::new(alloc, plan, CollectSingle);
        Ok(Own::new(merged))
    }
}
