//! The requests that settle a lock.
ghost use Rattle.std.specs.Prelude.{◌≡◌, ℕ, IfOk, List, None, Option};
ghost use Rattle.txn_history.specs.Event.{Event as Happened, Has};
ghost use Rattle.txn_history.specs.Event.Event.{Took};
ghost use Rattle.txn_history.specs.Decided.{IsPrewriteOp};
ghost use Rattle.txn_history.specs.Foreign.{IsForeign};
ghost use Rattle.txn_history.specs.Replies.{IsWithoutError};
ghost use Rattle.txn_kv.specs.declared.message.Context.{Context as At};
ghost use Rattle.txn_kv.specs.declared.message.LockInfo.{LockInfo as Lock};
ghost use Rattle.txn_kv.specs.declared.reply.Reply.TheVariants as reply;
ghost use Rattle.txn_kv.specs.declared.reply.locks.CleanupResponse.{CleanupResponse as Cleaned};
ghost use Rattle.txn_kv.specs.declared.request.Request.TheVariants as request;
ghost use Rattle.txn_kv.specs.declared.ticket.Ticket.{Ticket as Taken};
ghost use Rattle.txn_settle.specs.Requests.{cleanup_of, resolve_of, rollback_of, WasSeen};

use std::alloc::Global;
use txn_kv::{
    CleanupRequest, Items, LockInfo, NoMemory, PessimisticRollbackRequest, ResolveLockRequest,
    TryClone,
};
use txn_request::requests::{
    new_cleanup_request, new_pessimistic_rollback_request, new_resolve_lock_request,
};

/// Asks the lock's primary what became of its start, and rolls the start back where nothing did.
pub fn cleanup_request(lock: &LockInfo) -> Result<CleanupRequest, NoMemory>
    ensures { IfOk result (λ request. request ≡ cleanup_of lock.now None) }
{
    Ok(new_cleanup_request(lock.primary_lock.try_clone()?, lock.lock_version))
}

/// Settles each lock of the lock's start in a region: commits it at this version, or rolls it back for 0.
pub fn resolve_request(alloc: Global, lock: &LockInfo, commit_version: u64) -> ResolveLockRequest
    ensures { result ≡ resolve_of lock.now commit_version None }
{
    new_resolve_lock_request(alloc, lock.lock_version, commit_version)
}

/// Takes the lock away, if it is a pessimistic one of its for-update timestamp.
pub fn rollback_request(
    alloc: Global,
    lock: &LockInfo,
) -> Result<PessimisticRollbackRequest, NoMemory>
    ensures { IfOk result (λ request. request ≡ rollback_of lock.now None) }
{
    let mut keys = Items::new(alloc);
    keys.push(lock.key.try_clone()?)?;
    Ok(new_pessimistic_rollback_request(keys, lock.lock_version, lock.lock_for_update_ts))
}

/// What settles a lock rests on what was taken. A lock that a reply showed may be asked for at its primary, and taken away if it is
/// a pessimistic one. Its start may be settled as the Cleanup of its primary says.
pub fn requests_are_licensed()
    ensures asks { (h : List Happened) (lock : Lock) (at : Option At) → WasSeen h lock → IsForeign h (request.Cleanup (cleanup_of lock at)) }
    ensures settles { (h : List Happened) (lock : Lock) (asked_at at : Option At) (t : Taken) (answer : Cleaned) → WasSeen h lock → IsPrewriteOp lock → Has h (Took t (request.Cleanup (cleanup_of lock asked_at)) (reply.Cleanup answer)) → IsWithoutError (reply.Cleanup answer) → IsForeign h (request.ResolveLock (resolve_of lock answer.commit_version at)) }
    ensures removes { (h : List Happened) (lock : Lock) (at : Option At) → WasSeen h lock → IsForeign h (request.PessimisticRollback (rollback_of lock at)) }
{}
