//! What became of a lock's start: it is known, or its primary is asked.
ghost use Rattle.std.specs.Bool.{MatchBool};
ghost use Rattle.std.specs.Prelude.{◌≡◌, ◌≢◌, ℕ, IfOk, List, OnErr, OnOk, Option, Some};
ghost use Rattle.txn_history.specs.Decided.{IsPrewriteOp};
ghost use Rattle.txn_history.specs.Event.{Event};
ghost use Rattle.txn_history.specs.Foreign.{IsForeign};
ghost use Rattle.txn_kv.specs.declared.message.Context.{Context as At};
ghost use Rattle.txn_kv.specs.declared.message.LockInfo.{LockInfo as Lock};
ghost use Rattle.txn_kv.specs.declared.request.Request.TheVariants.{ResolveLock as Resolving};
ghost use Rattle.txn_lock.specs.Deciding.{IsDecision, IsPessimistic};
ghost use Rattle.txn_lock.specs.Settling.{IsDecided};
ghost use Rattle.txn_settle.specs.Known.{known_of};
ghost use Rattle.txn_settle.specs.Requests.{resolve_of, WasSeen};

use crate::cleanup::{CleanupPlan, cleanup_plan};
use crate::kept::Kept;
use crate::ruling::Ruling;
use crate::verdict::Verdict;
use std::alloc::Global;
use txn_either::Either;
use txn_kv::{LockInfo, NoMemory, Op, TryClone};
use txn_plan::ProcessResponse;
use txn_region::PdClient;
use txn_settle::ByPrimary;

/// Answers what became of a lock's start, as it is known or as its primary tells.
pub type Decision = Either<Kept, ProcessResponse<CleanupPlan, Ruling>>;

/// A plan of the lock that is not begun. Nothing is asked where the start and primary are known.
pub fn decision_plan<C: PdClient>(
    alloc: Global,
    pd: &C,
    lock: &LockInfo,
    known: &ByPrimary<u64>,
) -> Result<Decision, NoMemory>
    ensures { IfOk result (IsDecision lock.now (known_of known.now.starts lock.now.lock_version lock.now.primary_lock)) }
{
    match known.get(lock.lock_version, &lock.primary_lock) {
        Some(commit_version) => Ok(Either::First(Kept::new(*commit_version))),
        None => {
            let plan = cleanup_plan(alloc, pd, lock)?;
            Ok(Either::Second(ProcessResponse {
                inner: plan,
                processor: Ruling {
                    pessimistic: is_pessimistic(lock),
                },
            }))
        }
    }
}

/// Notes what a prewrite lock's start has come to. What a pessimistic lock told is not kept. A refusal changes nothing.
pub fn keep_decision(
    known: &mut ByPrimary<u64>,
    lock: &LockInfo,
    verdict: Verdict,
) -> Result<(), NoMemory>
    ensures noted { (c : ℕ) → IsPrewriteOp lock.now → verdict ≡ Verdict.Version c → OnOk result (known_of known.new.starts lock.now.lock_version lock.now.primary_lock ≡ Some c) }
    ensures primaries { OnOk result ((p : List ℕ) → p ≢ lock.now.primary_lock → known_of known.new.starts lock.now.lock_version p ≡ known_of known.old.starts lock.now.lock_version p) }
    ensures starts { OnOk result ((s : ℕ) (p : List ℕ) → s ≢ lock.now.lock_version → known_of known.new.starts s p ≡ known_of known.old.starts s p) }
    ensures pessimistic { IsPessimistic lock.now → known.new ≡ known.old }
    ensures mismatch { verdict ≡ Verdict.Mismatch → known.new ≡ known.old }
    ensures err { OnErr result ((s : ℕ) (p : List ℕ) → known_of known.new.starts s p ≡ known_of known.old.starts s p) }
{
    if is_pessimistic(lock) {
        return Ok(());
    }
    match verdict {
        Verdict::Version { commit_version } => {
            let primary = lock.primary_lock.try_clone()?;
            known.insert(lock.lock_version, primary, commit_version)
        }
        Verdict::Mismatch => Ok(()),
    }
}

fn is_pessimistic(lock: &LockInfo) -> bool
    ensures { MatchBool result (IsPessimistic lock.now) (IsPessimistic lock.now → ⊥) }
{
    lock.lock_type == Op::PessimisticLock
}

/// What one lock's primary told holds of each lock of the same start and primary, and of one that was seen it settles the start.
pub fn decisions_hold()
    ensures shared { (h : List Event) (a b : Lock) (c : ℕ) → b.lock_version ≡ a.lock_version → b.primary_lock ≡ a.primary_lock → IsDecided h a c → IsDecided h b c }
    ensures settles { (h : List Event) (lock : Lock) (c : ℕ) (at : Option At) → WasSeen h lock → IsPrewriteOp lock → IsDecided h lock c → IsForeign h (Resolving (resolve_of lock c at)) }
{}
