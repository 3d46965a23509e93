//! Plans of one request that goes to one store, once. The store tells which errors would be retried.
ghost use Rattle.std.specs.Prelude.{◌≡◌, ⊤, Some};
ghost use Rattle.txn_plan.specs.Dispatch.{unsent};

use crate::own::Own;
use std::alloc::Global;
use txn_commit_plans::{Done, TransactionPlans};
use txn_either::Either;
use txn_kv::{BatchRollbackRequest, CommitRequest, PrewriteRequest, StoreId};
use txn_merge::{HasKeyErrors, HasRegionErrors, RetryOptions};
use txn_plan::{CopyRequest, Dispatch, ExtractError};
use txn_region::PdClient;

/// Sends the request, and takes the errors out of its reply.
type Sent<R> = ExtractError<Dispatch<R>>;

/// One of the plans that send a request once. It is of this crate, and so may keep a trait of another.
type AnyOnce = Own<
    Either<
        Done<Sent<PrewriteRequest>>,
        Either<Done<Sent<CommitRequest>>, Done<Sent<BatchRollbackRequest>>>,
    >,
>;

/// A plan that sends its request once, as one by which a transaction may go.
pub type Once = txn_commit_plans::Own<AnyOnce>;

/// A plan that sends this to a store.
fn sent<R: CopyRequest>(alloc: Global, request: R, store: StoreId) -> Sent<R>
where
    R::Response: HasKeyErrors + HasRegionErrors + Drop,
    ensures { result.inner ≡ unsent request (Some store) }
{
    ExtractError::new(alloc, Dispatch::new(request, Some(store)))
}

/// Store 1, or 2 where errors of regions are not retried, or 3 where locks are not, or 4 where nothing is.
fn store_for(retry_options: &RetryOptions) -> StoreId {
    match (
        retry_options.region_backoff.is_none(),
        retry_options.lock_backoff.is_none(),
    ) {
        (false, false) => 1,
        (true, false) => 2,
        (false, true) => 3,
        (true, true) => 4,
    }
}

impl TransactionPlans for AnyOnce {
    ghost use Rattle.txn_fakes.specs.Once.{once_ways, onces_last};

    ghost unwritten = { once_ways.unwritten };

    ghost uncommitted = { once_ways.uncommitted };

    ghost unrolled = { once_ways.unrolled };

    ghost costs = { once_ways.costs };

    fn prewrite<C: PdClient>(
        alloc: Global,
        _pd: &C,
        request: PrewriteRequest,
        retry_options: RetryOptions,
    ) -> Self {
        let store = store_for(&retry_options);
        let plan = Done::new(sent(alloc, request, store));
        Own::new(Either::First(plan))
    }

    fn commit<C: PdClient>(
        alloc: Global,
        _pd: &C,
        request: CommitRequest,
        retry_options: RetryOptions,
    ) -> Self {
        let store = store_for(&retry_options);
        let plan = Done::new(sent(alloc, request, store));
        Own::new(Either::Second(Either::First(plan)))
    }

    fn roll_back<C: PdClient>(
        alloc: Global,
        _pd: &C,
        request: BatchRollbackRequest,
        retry_options: RetryOptions,
    ) -> Self {
        let store = store_for(&retry_options);
        let plan = Done::new(sent(alloc, request, store));
        Own::new(Either::Second(Either::Second(plan)))
    }

    fn width(&self) -> u64 {
        match self.plan() {
            Either::First(_) => 0,
            Either::Second(Either::First(_)) => 0,
            Either::Second(Either::Second(_)) => 0,
        }
    }

    ghost lasting = { onces_last };
}
