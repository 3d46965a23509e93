ghost use Rattle.std.specs.Prelude.{◌≡◌, List, [], IfOk, OnOk, map};
ghost use Rattle.std.proofs.Common.{ap, refl, sym, ◌∙◌};
ghost use Rattle.txn_kv.specs.declared.message.LockInfo.{LockInfo};
ghost use Rattle.txn_merge.specs.Locks.{beside-none, error_beside, locks_of_error, locks_of_errors, locks_of_pairs_or, pairs_or-none, without_lock, without_lock-none, without_locks, without_locks-none, without_pair_lock};

use crate::response_with_shard::ResponseWithShard;
use crate::taking::{take_error_lock, take_error_locks, take_pair_locks_or};
use std::alloc::Global;
use std::mem;
use txn_kv::{
    BatchGetResponse, BatchRollbackResponse, CheckSecondaryLocksResponse, CheckTxnStatusResponse,
    CleanupResponse, CommitResponse, GetResponse, Items, LockInfo, NoMemory,
    PessimisticLockResponse, PessimisticRollbackResponse, PrewriteResponse, ResolveLockResponse,
    ScanLockResponse, ScanResponse, TxnHeartBeatResponse, UnsafeDestroyRangeResponse,
};

/// What a reply says of locks that stand in the way of its request.
pub trait HasLocks: Sized {
    ghost locks: { Self → List LockInfo };

    ghost without_locks: { Self → Self };

    /// Takes the locks out, in their order. At want of memory some of them may be gone.
    fn take_locks(&mut self, alloc: Global) -> Result<Vec<LockInfo>, NoMemory>
        ensures taken { IfOk result (λ found. found.items ≡ locks self.old) }
        ensures left { OnOk result (self.new ≡ without_locks self.old) };

    /// Where there is no lock, all is left.
    ghost unlocked: { (s : Self) → locks s ≡ [] → without_locks s ≡ s };
}

impl HasLocks for GetResponse {
    ghost locks = { λ s. locks_of_error s.error };

    ghost without_locks = { λ s. record s { error = without_lock s.error } };

    ghost unlocked = { λ s none. ap (λ error. record s { error = error }) (without_lock-none s.error none) };

    fn take_locks(&mut self, alloc: Global) -> Result<Vec<LockInfo>, NoMemory> {
        take_error_lock(alloc, &mut self.error)
    }
}

impl HasLocks for BatchGetResponse {
    ghost locks = { λ s. locks_of_pairs_or s.pairs s.error };

    ghost without_locks = { λ s. record s { error = error_beside s.pairs s.error; pairs = map without_pair_lock s.pairs } };

    ghost unlocked = { λ s none. ap (λ error. record s { error = error; pairs = map without_pair_lock s.pairs }) (beside-none s.pairs s.error none) ∙ ap (λ pairs. record s { pairs = pairs }) (pairs_or-none s.pairs s.error none) };

    fn take_locks(&mut self, alloc: Global) -> Result<Vec<LockInfo>, NoMemory> {
        take_pair_locks_or(alloc, &mut self.pairs, &mut self.error)
    }
}

impl HasLocks for ScanResponse {
    ghost locks = { λ s. locks_of_pairs_or s.pairs s.error };

    ghost without_locks = { λ s. record s { error = error_beside s.pairs s.error; pairs = map without_pair_lock s.pairs } };

    ghost unlocked = { λ s none. ap (λ error. record s { error = error; pairs = map without_pair_lock s.pairs }) (beside-none s.pairs s.error none) ∙ ap (λ pairs. record s { pairs = pairs }) (pairs_or-none s.pairs s.error none) };

    fn take_locks(&mut self, alloc: Global) -> Result<Vec<LockInfo>, NoMemory> {
        take_pair_locks_or(alloc, &mut self.pairs, &mut self.error)
    }
}

impl HasLocks for PrewriteResponse {
    ghost locks = { λ s. locks_of_errors s.errors };

    ghost without_locks = { λ s. record s { errors = without_locks s.errors } };

    ghost unlocked = { λ s none. ap (λ errors. record s { errors = errors }) (without_locks-none s.errors none) };

    fn take_locks(&mut self, alloc: Global) -> Result<Vec<LockInfo>, NoMemory> {
        take_error_locks(alloc, &mut self.errors)
    }
}

impl HasLocks for CommitResponse {
    ghost locks = { λ s. locks_of_error s.error };

    ghost without_locks = { λ s. record s { error = without_lock s.error } };

    ghost unlocked = { λ s none. ap (λ error. record s { error = error }) (without_lock-none s.error none) };

    fn take_locks(&mut self, alloc: Global) -> Result<Vec<LockInfo>, NoMemory> {
        take_error_lock(alloc, &mut self.error)
    }
}

/// None: a lock that it meets is no hindrance.
impl HasLocks for CleanupResponse {
    ghost locks = { λ _. [] };

    ghost without_locks = { λ s. s };

    ghost unlocked = { λ _ _. refl };

    fn take_locks(&mut self, alloc: Global) -> Result<Vec<LockInfo>, NoMemory> {
        Ok(Vec::new(alloc))
    }
}

impl HasLocks for BatchRollbackResponse {
    ghost locks = { λ s. locks_of_error s.error };

    ghost without_locks = { λ s. record s { error = without_lock s.error } };

    ghost unlocked = { λ s none. ap (λ error. record s { error = error }) (without_lock-none s.error none) };

    fn take_locks(&mut self, alloc: Global) -> Result<Vec<LockInfo>, NoMemory> {
        take_error_lock(alloc, &mut self.error)
    }
}

impl HasLocks for PessimisticRollbackResponse {
    ghost locks = { λ s. locks_of_errors s.errors };

    ghost without_locks = { λ s. record s { errors = without_locks s.errors } };

    ghost unlocked = { λ s none. ap (λ errors. record s { errors = errors }) (without_locks-none s.errors none) };

    fn take_locks(&mut self, alloc: Global) -> Result<Vec<LockInfo>, NoMemory> {
        take_error_locks(alloc, &mut self.errors)
    }
}

impl HasLocks for PessimisticLockResponse {
    ghost locks = { λ s. locks_of_errors s.errors };

    ghost without_locks = { λ s. record s { errors = without_locks s.errors } };

    ghost unlocked = { λ s none. ap (λ errors. record s { errors = errors }) (without_locks-none s.errors none) };

    fn take_locks(&mut self, alloc: Global) -> Result<Vec<LockInfo>, NoMemory> {
        take_error_locks(alloc, &mut self.errors)
    }
}

impl HasLocks for ResolveLockResponse {
    ghost locks = { λ s. locks_of_error s.error };

    ghost without_locks = { λ s. record s { error = without_lock s.error } };

    ghost unlocked = { λ s none. ap (λ error. record s { error = error }) (without_lock-none s.error none) };

    fn take_locks(&mut self, alloc: Global) -> Result<Vec<LockInfo>, NoMemory> {
        take_error_lock(alloc, &mut self.error)
    }
}

/// The locks that were scanned.
impl HasLocks for ScanLockResponse {
    ghost locks = { λ s. s.locks };

    ghost without_locks = { λ s. record s { locks = [] } };

    ghost unlocked = { λ s none. ap (λ found. record s { locks = found }) (sym none) };

    fn take_locks(&mut self, alloc: Global) -> Result<Vec<LockInfo>, NoMemory> {
        Ok(mem::replace(&mut self.locks, Items::new(alloc)).into_vec())
    }
}

impl HasLocks for TxnHeartBeatResponse {
    ghost locks = { λ s. locks_of_error s.error };

    ghost without_locks = { λ s. record s { error = without_lock s.error } };

    ghost unlocked = { λ s none. ap (λ error. record s { error = error }) (without_lock-none s.error none) };

    fn take_locks(&mut self, alloc: Global) -> Result<Vec<LockInfo>, NoMemory> {
        take_error_lock(alloc, &mut self.error)
    }
}

impl HasLocks for CheckTxnStatusResponse {
    ghost locks = { λ s. locks_of_error s.error };

    ghost without_locks = { λ s. record s { error = without_lock s.error } };

    ghost unlocked = { λ s none. ap (λ error. record s { error = error }) (without_lock-none s.error none) };

    fn take_locks(&mut self, alloc: Global) -> Result<Vec<LockInfo>, NoMemory> {
        take_error_lock(alloc, &mut self.error)
    }
}

impl HasLocks for CheckSecondaryLocksResponse {
    ghost locks = { λ s. locks_of_error s.error };

    ghost without_locks = { λ s. record s { error = without_lock s.error } };

    ghost unlocked = { λ s none. ap (λ error. record s { error = error }) (without_lock-none s.error none) };

    fn take_locks(&mut self, alloc: Global) -> Result<Vec<LockInfo>, NoMemory> {
        take_error_lock(alloc, &mut self.error)
    }
}

/// None: it asks for no lock.
impl HasLocks for UnsafeDestroyRangeResponse {
    ghost locks = { λ _. [] };

    ghost without_locks = { λ s. s };

    ghost unlocked = { λ _ _. refl };

    fn take_locks(&mut self, alloc: Global) -> Result<Vec<LockInfo>, NoMemory> {
        Ok(Vec::new(alloc))
    }
}

impl<Resp: HasLocks, Shard> HasLocks for ResponseWithShard<Resp, Shard> {
    ghost locks = { λ s. Resp.locks s.0 };

    ghost without_locks = { λ s. record s { 0 = Resp.without_locks s.0 } };

    ghost unlocked = { λ s none. ap (λ response. record s { 0 = response }) (Resp.unlocked s.0 none) };

    fn take_locks(&mut self, alloc: Global) -> Result<Vec<LockInfo>, NoMemory> {
        self.0.take_locks(alloc)
    }
}
