//! The plan of a Cleanup.
ghost use Rattle.std.specs.Prelude.{◌≡◌, IfOk};
ghost use Rattle.txn_kv.specs.declared.request.Request.TheVariants.{Cleanup};
ghost use Rattle.txn_kv.specs.declared.request.locks.CleanupRequest.{CleanupRequest as Sent};
ghost use Rattle.txn_lock.specs.Settling.{IsCleanupPlan};
ghost use Rattle.txn_request.specs.Defaults.{default_cleanup};

use std::alloc::Global;
use txn_kv::{
    CleanupRequest, CleanupResponse, DEFAULT_REGION_BACKOFF, Key, LockInfo, NoMemory,
    OPTIMISTIC_BACKOFF,
};
use txn_merge::{CollectSingle, DefaultProcessor};
use txn_multi::RetryableMultiRegion;
use txn_plan::{Dispatch, MergeResponse, ProcessResponse};
use txn_region::{EncodedRequest, PdClient};
use txn_request::requests::new_cleanup_request;
use txn_resolve::ResolveLock;
use txn_settle::cleanup_request;

/// The plan of a Cleanup: it goes to the region of its key, and the commit version in the one reply is its answer, 0 where the start
/// is rolled back.
pub type CleanupPlan = ProcessResponse<
    MergeResponse<
        RetryableMultiRegion<ResolveLock<Dispatch<CleanupRequest>>>,
        CleanupResponse,
        CollectSingle,
    >,
    DefaultProcessor,
>;

/// The Cleanup with the context that the client's codec gives one like it that names nothing.
fn encoded<C: PdClient>(alloc: Global, pd: &C, request: CleanupRequest) -> CleanupRequest
    ensures rest { result ≡ record request { context = result.context } }
    ensures context { (sent : Sent) × (C.Codec.encoded (C.codec pd.now) (Cleanup (record default_cleanup { context = request.context })) ≡ Cleanup sent) × (result.context ≡ sent.context) }
{
    let mut request = request;
    let mut empty = new_cleanup_request(Key::empty(alloc), 0);
    empty.context = request.context;
    request.context = EncodedRequest::new(empty, pd.get_codec()).inner.context;
    request
}

/// A plan that asks the lock's primary what became of its start, and is not begun.
pub fn cleanup_plan<C: PdClient>(
    alloc: Global,
    pd: &C,
    lock: &LockInfo,
) -> Result<CleanupPlan, NoMemory>
    ensures { IfOk result (IsCleanupPlan lock.now) }
{
    let asked = cleanup_request(lock)?;
    let request = encoded(alloc, pd, asked);
    let sent = Dispatch::new(request, None);
    let locked = ResolveLock::new(alloc, sent, OPTIMISTIC_BACKOFF);
    let plan = RetryableMultiRegion::new(alloc, locked, DEFAULT_REGION_BACKOFF, false);
    let merged = MergeResponse::new(alloc, plan, CollectSingle);
    Ok(ProcessResponse {
        inner: merged,
        processor: DefaultProcessor,
    })
}
