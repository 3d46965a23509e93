ghost use Rattle.std.specs.Prelude.{◌≡◌, ℕ, List, ◌∷◌, Some};
ghost use Rattle.txn_kv.specs.declared.ticket.Ticket.{Ticket};
ghost use Rattle.txn_kv.specs.declared.request.Request.{Request};
ghost use Rattle.txn_kv.specs.declared.request.Request.TheVariants.{ScanLock};
ghost use Rattle.txn_kv.specs.declared.request.locks.ScanLockRequest.{ScanLockRequest};
ghost use Rattle.txn_kv.specs.declared.reply.Reply.{Reply};
ghost use Rattle.txn_kv.specs.declared.reply.Reply.TheVariants as reply;
ghost use Rattle.txn_kv.specs.declared.reply.locks.ScanLockResponse.{ScanLockResponse};
ghost use Rattle.txn_history.specs.Busy.{busy_reply};
ghost use Rattle.txn_history.specs.Event.{Event, Has};
ghost use Rattle.txn_history.specs.Event.Event.{Served, Took};
ghost use Rattle.txn_history.specs.Plan.{Key, Plan};
ghost use Rattle.txn_model.specs.Cells.{cell_at};
ghost use Rattle.txn_law.specs.Part.{IsPart, IsLockedBy, CameSince, NonePrewrittenSince, LooksAt, ShowsLockAt, WasResolvedSince, WasCleanedSince};
ghost use Rattle.txn_law.specs.Run.{IsRun, IsUnused, store_after};

/// A prewrite lock that is gone does not come back: one that stood at first and stands in the end stood all the time. So a
/// complete scan for locks, and the settling of those that it shows, cleans the range for good.
pub fn locks_stay_gone()
    ensures stood { (plans : ℕ → Plan) (events middle first : List Event) → IsRun plans events →
        IsPart events middle → IsPart middle first → (s : ℕ) (k : Key) →
        IsLockedBy (cell_at (store_after first).cells k) s → IsLockedBy (cell_at (store_after events).cells k) s →
        IsLockedBy (cell_at (store_after middle).cells k) s }
    // A lock that stood before a scan that looked at its key and did not show it does not stand in the end.
    ensures unshown { (plans : ℕ → Plan) (events before first : List Event) (t : Ticket) (r : ScanLockRequest) (o : ScanLockResponse) →
        IsRun plans events → IsPart events (Served t (ScanLock r) (reply.ScanLock o) ∷ before) → IsPart before first →
        (s : ℕ) (k : Key) → IsLockedBy (cell_at (store_after first).cells k) s → LooksAt r o s k → (ShowsLockAt o s k → ⊥) →
        IsLockedBy (cell_at (store_after events).cells k) s → ⊥ }
    // Nor does one that stood before a ResolveLock that settled its start in its key's region.
    ensures resolved { (plans : ℕ → Plan) (events first : List Event) → IsRun plans events → IsPart events first →
        (s : ℕ) (k : Key) → IsLockedBy (cell_at (store_after first).cells k) s → WasResolvedSince events first s k →
        IsLockedBy (cell_at (store_after events).cells k) s → ⊥ }
    // So one that stood before a complete scan whose locks were settled does not stand in the end.
    ensures cleaned { (plans : ℕ → Plan) (events first : List Event) → IsRun plans events → IsPart events first →
        (s : ℕ) (k : Key) → IsLockedBy (cell_at (store_after first).cells k) s → WasCleanedSince events first s k →
        IsLockedBy (cell_at (store_after events).cells k) s → ⊥ }
    // Where the scan came after the last Prewrite of the start that was served, none stands in the end, whether one stood before or not.
    ensures none_left { (plans : ℕ → Plan) (events first : List Event) → IsRun plans events → IsPart events first →
        (s : ℕ) (k : Key) → NonePrewrittenSince events first s → WasCleanedSince events first s k →
        IsLockedBy (cell_at (store_after events).cells k) s → ⊥ }
    // A reply that was taken of a request that was sent since, and is not that of a busy store, was served since.
    ensures since { (plans : ℕ → Plan) (events first : List Event) → IsRun plans events → IsPart events first →
        (t : Ticket) (r : Request) (o : Reply) → IsUnused first t → Has events (Took t r o) → (busy_reply r ≡ Some o → ⊥) →
        CameSince events first (Served t r o) }
{}
