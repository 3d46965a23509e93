ghost use Rattle.std.specs.Prelude.{◌≡◌, ◌^◌, ◌-◌};
ghost use Rattle.txn_commit_plans.specs.Failing.{HasGivenWith};
ghost use Rattle.txn_commit_plans.specs.Kinds.{prewrite_plan, prewrite_retries};
ghost use Rattle.txn_commit.specs.Plans.{IsPlanFor};
ghost use Rattle.txn_kv.specs.declared.request.commits.PrewriteRequest.{PrewriteRequest as Sent};
ghost use Rattle.txn_kv.specs.declared.request.Request.TheVariants.{Prewrite};
ghost use Rattle.txn_multi.specs.Few.{by_items};
ghost use Rattle.txn_request.specs.Defaults.{default_prewrite};

use crate::done::Done;
use crate::over_regions::{OverRegions, plan_over_regions};
use std::alloc::Global;
use txn_kv::{Items, Key, PrewriteRequest, PrewriteResponse};
use txn_merge::{CollectError, RetryOptions};
use txn_plan::{ExtractError, MergeResponse};
use txn_region::{EncodedRequest, PdClient};
use txn_request::requests::new_prewrite_request;

/// The plan of a Prewrite: its mutations go to their regions in batches, and the replies are collected. The first error in
/// them is its answer.
pub type PrewritePlan = Done<
    ExtractError<MergeResponse<OverRegions<PrewriteRequest>, PrewriteResponse, CollectError>>,
>;

/// The Prewrite with the context that the client's codec gives one like it that names nothing.
fn encoded<C: PdClient>(alloc: Global, pd: &C, request: PrewriteRequest) -> PrewriteRequest
    ensures rest { result ≡ record request { context = result.context } }
    ensures context { (sent : Sent) × (C.Codec.encoded (C.codec pd.now) (Prewrite (record default_prewrite { context = request.context; txn_size = 2 ^ 64 - 1 })) ≡ Prewrite sent) × (result.context ≡ sent.context) }
{
    let mut request = request;
    let mut empty = new_prewrite_request(alloc, Items::new(alloc), Key::empty(alloc), 0, 0);
    empty.context = request.context;
    request.context = EncodedRequest::new(empty, pd.get_codec()).inner.context;
    request
}

/// A plan of the request that is not begun, with these options.
pub fn plan_of_prewrite<C: PdClient>(
    alloc: Global,
    pd: &C,
    request: PrewriteRequest,
    retry_options: RetryOptions,
) -> PrewritePlan
    ensures { IsPlanFor prewrite_plan (HasGivenWith prewrite_plan prewrite_retries retry_options) by_items (Prewrite request) result }
{
    let request = encoded(alloc, pd, request);
    let plan = plan_over_regions(alloc, request, retry_options);
    let merged = MergeResponse::new(alloc, plan, CollectError);
    let extracted = ExtractError::new(alloc, merged);
    Done::new(extracted)
}
