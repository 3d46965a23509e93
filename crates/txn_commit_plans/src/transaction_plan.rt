ghost use Rattle.txn_commit_plans.specs.Transactions.{transaction_ways, transactions_caused, transactions_last, transactions_one_each};

use crate::batch_rollback::{BatchRollbackPlan, plan_of_batch_rollback};
use crate::commit::{CommitPlan, plan_of_commit};
use crate::has_causes::Caused;
use crate::one_each::OneEach;
use crate::own::Own;
use crate::prewrite::{PrewritePlan, plan_of_prewrite};
use crate::transaction_plans::TransactionPlans;
use std::alloc::Global;
use txn_either::Either;
use txn_kv::{BatchRollbackRequest, CommitRequest, PrewriteRequest};
use txn_merge::RetryOptions;
use txn_region::PdClient;

/// One of the plans by which the requests of a transaction go to the regions of their keys.
type AnyPlan = Either<PrewritePlan, Either<CommitPlan, BatchRollbackPlan>>;

/// The plans by which the requests of a transaction go to the regions of their keys, as one type.
pub type TransactionPlan = Own<AnyPlan>;

impl TransactionPlans for AnyPlan {
    ghost unwritten = { transaction_ways.unwritten };

    ghost uncommitted = { transaction_ways.uncommitted };

    ghost unrolled = { transaction_ways.unrolled };

    ghost costs = { transaction_ways.costs };

    fn prewrite<C: PdClient>(
        alloc: Global,
        pd: &C,
        request: PrewriteRequest,
        retry_options: RetryOptions,
    ) -> Self {
        let plan = plan_of_prewrite(alloc, pd, request, retry_options);
        Either::First(plan)
    }

    fn commit<C: PdClient>(
        alloc: Global,
        pd: &C,
        request: CommitRequest,
        retry_options: RetryOptions,
    ) -> Self {
        let plan = plan_of_commit(alloc, pd, request, retry_options);
        Either::Second(Either::First(plan))
    }

    fn roll_back<C: PdClient>(
        alloc: Global,
        pd: &C,
        request: BatchRollbackRequest,
        retry_options: RetryOptions,
    ) -> Self {
        let plan = plan_of_batch_rollback(alloc, pd, request, retry_options);
        Either::Second(Either::Second(plan))
    }

    fn width(&self) -> u64 {
        match self {
            Either::First(plan) => plan.plan().inner.inner.width() as u64,
            Either::Second(Either::First(plan)) => plan.plan().inner.width() as u64,
            Either::Second(Either::Second(plan)) => plan.plan().inner.width() as u64,
        }
    }

    ghost lasting = { transactions_last };
}

impl OneEach for TransactionPlan {
    ghost one_each = { transactions_one_each };
}

impl Caused for TransactionPlan {
    ghost caused = { transactions_caused };
}
