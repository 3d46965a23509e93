//! The plan that takes a pessimistic lock away.
ghost use Rattle.std.specs.Prelude.{◌≡◌, IfOk};
ghost use Rattle.txn_kv.specs.declared.request.Request.TheVariants.{PessimisticRollback};
ghost use Rattle.txn_kv.specs.declared.request.locks.PessimisticRollbackRequest.{PessimisticRollbackRequest as Sent};
ghost use Rattle.txn_lock.specs.Settling.{IsRemovalPlan};
ghost use Rattle.txn_request.specs.Defaults.{default_pessimistic_rollback};

use std::alloc::Global;
use txn_kv::{DEFAULT_REGION_BACKOFF, Items, LockInfo, NoMemory, PessimisticRollbackRequest};
use txn_multi::RetryableMultiRegion;
use txn_plan::{Dispatch, ExtractError};
use txn_region::{EncodedRequest, PdClient};
use txn_request::requests::new_pessimistic_rollback_request;
use txn_settle::rollback_request;

/// The plan of a PessimisticRollback: it goes to the region of its key, and the first error in the replies is its answer.
pub type PessimisticRollbackPlan = ExtractError<
    RetryableMultiRegion<Dispatch<PessimisticRollbackRequest>>,
>;

/// The PessimisticRollback with the context that the client's codec gives one like it that names nothing.
fn encoded<C: PdClient>(
    alloc: Global,
    pd: &C,
    request: PessimisticRollbackRequest,
) -> PessimisticRollbackRequest
    ensures rest { result ≡ record request { context = result.context } }
    ensures context { (sent : Sent) × (C.Codec.encoded (C.codec pd.now) (PessimisticRollback (record default_pessimistic_rollback { context = request.context })) ≡ PessimisticRollback sent) × (result.context ≡ sent.context) }
{
    let mut request = request;
    let mut empty = new_pessimistic_rollback_request(Items::new(alloc), 0, 0);
    empty.context = request.context;
    request.context = EncodedRequest::new(empty, pd.get_codec()).inner.context;
    request
}

/// A plan that takes the lock away if it is a pessimistic one of its for-update timestamp, and is not begun.
pub fn pessimistic_rollback_plan<C: PdClient>(
    alloc: Global,
    pd: &C,
    lock: &LockInfo,
) -> Result<PessimisticRollbackPlan, NoMemory>
    ensures { IfOk result (IsRemovalPlan lock.now) }
{
    let asked = rollback_request(alloc, lock)?;
    let request = encoded(alloc, pd, asked);
    let sent = Dispatch::new(request, None);
    let plan = RetryableMultiRegion::new(alloc, sent, DEFAULT_REGION_BACKOFF, false);
    Ok(ExtractError::new(alloc, plan))
}
