ghost use Rattle.std.specs.Prelude.{◌≡◌, true, Err};
ghost use Rattle.txn_history.specs.Meaning.{IsUnbegun};
ghost use Rattle.txn_kv.specs.declared.errors.Error.TheVariants.{GrpcAPI};
ghost use Rattle.txn_kv.specs.declared.ticket.Ticket.{Ticket};
ghost use Rattle.txn_region.specs.declared.store.Store.{Store as OneStore};
ghost use Rattle.txn_stores.specs.Aimed.{dispatch-aimed, IsAimed};
ghost use Rattle.std.proofs.Common.{refl};

use txn_plan::{CopyRequest, Dispatch, Plan};
use txn_shard::StoreRequest;

/// A plan that is run for each store.
pub trait StorePlan: Plan + StoreRequest {
    // Sent to a store, a plan that has not begun may be started. It has not begun then either, and costs no more.
    ghost aimed_unbegun: { (plan : Self) (store : OneStore) → IsUnbegun Self.meaning plan → IsAimed Self.meaning plan (Self.at_store store plan) };

    // A new run may better a loss.
    ghost loss_fails: { (ticket : Ticket) → Self.meaning.fails (Err (GrpcAPI ticket)) ≡ true };
}

impl<R: CopyRequest + StoreRequest> StorePlan for Dispatch<R>
where
    R::Response: Drop,
{
    ghost aimed_unbegun = { λ plan store unbegun. dispatch-aimed R.request_of R.reply_of plan (R.at_store store plan.request) store.id unbegun };

    ghost loss_fails = { λ ticket. refl };
}
