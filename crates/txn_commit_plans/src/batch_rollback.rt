ghost use Rattle.std.specs.Prelude.{◌≡◌};
ghost use Rattle.txn_commit_plans.specs.Failing.{HasGivenWith};
ghost use Rattle.txn_commit_plans.specs.Kinds.{rollback_plan, rollback_retries};
ghost use Rattle.txn_commit.specs.Plans.{IsPlanFor};
ghost use Rattle.txn_kv.specs.declared.request.commits.BatchRollbackRequest.{BatchRollbackRequest as Sent};
ghost use Rattle.txn_kv.specs.declared.request.Request.TheVariants.{BatchRollback};
ghost use Rattle.txn_multi.specs.Few.{by_items};
ghost use Rattle.txn_request.specs.Defaults.{default_batch_rollback};

use crate::done::Done;
use crate::over_regions::{OverRegions, plan_over_regions};
use std::alloc::Global;
use txn_kv::{BatchRollbackRequest, Items};
use txn_merge::RetryOptions;
use txn_plan::ExtractError;
use txn_region::{EncodedRequest, PdClient};
use txn_request::requests::new_batch_rollback_request;

/// The plan of a BatchRollback: its keys go to their regions, and the first error in the replies is its answer.
pub type BatchRollbackPlan = Done<ExtractError<OverRegions<BatchRollbackRequest>>>;

/// The BatchRollback with the context that the client's codec gives one like it that names nothing.
fn encoded<C: PdClient>(
    alloc: Global,
    pd: &C,
    request: BatchRollbackRequest,
) -> BatchRollbackRequest
    ensures rest { result ≡ record request { context = result.context } }
    ensures context { (sent : Sent) × (C.Codec.encoded (C.codec pd.now) (BatchRollback (record default_batch_rollback { context = request.context })) ≡ BatchRollback sent) × (result.context ≡ sent.context) }
{
    let mut request = request;
    let mut empty = new_batch_rollback_request(Items::new(alloc), 0);
    empty.context = request.context;
    request.context = EncodedRequest::new(empty, pd.get_codec()).inner.context;
    request
}

/// A plan of the request that is not begun, with these options.
pub fn plan_of_batch_rollback<C: PdClient>(
    alloc: Global,
    pd: &C,
    request: BatchRollbackRequest,
    retry_options: RetryOptions,
) -> BatchRollbackPlan
    ensures { IsPlanFor rollback_plan (HasGivenWith rollback_plan rollback_retries retry_options) by_items (BatchRollback request) result }
{
    let request = encoded(alloc, pd, request);
    let plan = plan_over_regions(alloc, request, retry_options);
    let extracted = ExtractError::new(alloc, plan);
    Done::new(extracted)
}
