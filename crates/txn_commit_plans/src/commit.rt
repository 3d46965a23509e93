ghost use Rattle.std.specs.Prelude.{◌≡◌};
ghost use Rattle.txn_commit_plans.specs.Failing.{HasGivenWith};
ghost use Rattle.txn_commit_plans.specs.Kinds.{commit_plan, commit_retries};
ghost use Rattle.txn_commit.specs.Plans.{IsPlanFor};
ghost use Rattle.txn_kv.specs.declared.request.commits.CommitRequest.{CommitRequest as Sent};
ghost use Rattle.txn_kv.specs.declared.request.Request.TheVariants.{Commit};
ghost use Rattle.txn_multi.specs.Few.{by_items};
ghost use Rattle.txn_request.specs.Defaults.{default_commit};

use crate::done::Done;
use crate::over_regions::{OverRegions, plan_over_regions};
use std::alloc::Global;
use txn_kv::{CommitRequest, Items};
use txn_merge::RetryOptions;
use txn_plan::ExtractError;
use txn_region::{EncodedRequest, PdClient};
use txn_request::requests::new_commit_request;

/// The plan of a Commit: its keys go to their regions in batches, and the first error in the replies is its answer.
pub type CommitPlan = Done<ExtractError<OverRegions<CommitRequest>>>;

/// The Commit with the context that the client's codec gives one like it that names nothing.
fn encoded<C: PdClient>(alloc: Global, pd: &C, request: CommitRequest) -> CommitRequest
    ensures rest { result ≡ record request { context = result.context } }
    ensures context { (sent : Sent) × (C.Codec.encoded (C.codec pd.now) (Commit (record default_commit { context = request.context })) ≡ Commit sent) × (result.context ≡ sent.context) }
{
    let mut request = request;
    let mut empty = new_commit_request(Items::new(alloc), 0, 0);
    empty.context = request.context;
    request.context = EncodedRequest::new(empty, pd.get_codec()).inner.context;
    request
}

/// A plan of the request that is not begun, with these options.
pub fn plan_of_commit<C: PdClient>(
    alloc: Global,
    pd: &C,
    request: CommitRequest,
    retry_options: RetryOptions,
) -> CommitPlan
    ensures { IsPlanFor commit_plan (HasGivenWith commit_plan commit_retries retry_options) by_items (Commit request) result }
{
    let request = encoded(alloc, pd, request);
    let plan = plan_over_regions(alloc, request, retry_options);
    let extracted = ExtractError::new(alloc, plan);
    Done::new(extracted)
}
