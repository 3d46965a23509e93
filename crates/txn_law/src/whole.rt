ghost use Rattle.std.specs.Prelude.{◌≡◌, ◌≢◌, ◌⊎◌, ◌<◌, ℕ, true, false, List, Some, None};
ghost use Rattle.txn_kv.specs.declared.ticket.Ticket.{Ticket};
ghost use Rattle.txn_kv.specs.declared.request.Request.TheVariants.{Commit, BatchRollback, PessimisticLock};
ghost use Rattle.txn_kv.specs.declared.request.locks.PessimisticLockRequest.{PessimisticLockRequest};
ghost use Rattle.txn_kv.specs.declared.request.commits.CommitRequest.{CommitRequest};
ghost use Rattle.txn_kv.specs.declared.request.commits.BatchRollbackRequest.{BatchRollbackRequest};
ghost use Rattle.txn_kv.specs.declared.reply.Reply.{Reply};
ghost use Rattle.txn_kv.specs.declared.reply.Reply.TheVariants as reply;
ghost use Rattle.txn_kv.specs.declared.reply.commits.CommitResponse.{CommitResponse};
ghost use Rattle.txn_kv.specs.declared.reply.commits.BatchRollbackResponse.{BatchRollbackResponse};
ghost use Rattle.txn_history.specs.Event.{Event, Has};
ghost use Rattle.txn_history.specs.Event.Event.{Served, Took};
ghost use Rattle.txn_history.specs.Licence.{IsWithoutError, WasDecided, WasNamed, WasOnePhase, WasSettled, PrimaryCommitted, PrimaryRolledBack};
ghost use Rattle.txn_history.specs.Plan.{Key, Content, Plan, has_key, is_spread};
ghost use Rattle.txn_history.specs.Plan.Way.{TwoPhases};
ghost use Rattle.txn_model.specs.declared.cell.Cell.{Cell};
ghost use Rattle.txn_model.specs.declared.cell.Lock.{Lock};
ghost use Rattle.txn_model.specs.Cells.{cell_at};
ghost use Rattle.txn_model.specs.Locks.{has_start, is_prewrite};
ghost use Rattle.txn_law.specs.Part.{LocksForUpdate, WasGivenBack};
ghost use Rattle.txn_law.specs.Run.{IsRun, store_after};
ghost use Rattle.txn_law.specs.Whole.{FitsAnswers, HasCommit, IsWholeAt, IsAbsent, IsWholeOrAbsent, KeyCommitted, PrimaryServed};

/// Whatever is lost, comes late or crashes: each transaction, in two phases, in one, or spread over its keys, is whole at one
/// commit timestamp or not at all.
pub fn whole_or_nothing()
    ensures whole { (plans : ℕ → Plan) (events : List Event) → IsRun plans events →
        (s : ℕ) → IsWholeOrAbsent (plans s) (store_after events).cells s }
    // It is whole at one timestamp alone.
    ensures one_time { (plan : Plan) (cells : List Cell) (s c d : ℕ) → IsWholeAt plan cells s c → IsWholeAt plan cells s d → c ≡ d }
    // What was answered fits what is there.
    ensures fits { (plans : ℕ → Plan) (events : List Event) → IsRun plans events →
        (s : ℕ) → FitsAnswers (plans s) events (store_after events).cells s }
    // Who was told that the primary is committed at c finds the transaction whole at c, then and ever after.
    ensures committed { (plans : ℕ → Plan) (events : List Event) → IsRun plans events →
        (s c : ℕ) → PrimaryCommitted (plans s) events s c → IsWholeAt (plans s) (store_after events).cells s c }
    // So does the committer who was told a bound for each key, at the greatest.
    ensures settled { (plans : ℕ → Plan) (events : List Event) → IsRun plans events →
        (s c : ℕ) → is_spread (plans s).way ≡ true → WasSettled (plans s) events s c → IsWholeAt (plans s) (store_after events).cells s c }
    // And who was answered a timestamp at which all was committed at once, at it.
    ensures one_phase { (plans : ℕ → Plan) (events : List Event) → IsRun plans events →
        (s c : ℕ) → WasOnePhase events s c → IsWholeAt (plans s) (store_after events).cells s c }
    // Who was told that the primary is rolled back finds nothing of the transaction.
    ensures rolled_back { (plans : ℕ → Plan) (events : List Event) → IsRun plans events →
        (s : ℕ) → PrimaryRolledBack (plans s) events s → IsAbsent (store_after events).cells s }
    // Once the start is recorded as rolled back at its primary, no key holds a commit of it.
    ensures rolled_stays { (plans : ℕ → Plan) (events : List Event) → IsRun plans events →
        (s : ℕ) → has_start (cell_at (store_after events).cells (plans s).primary).rolled s ≡ true →
        IsAbsent (store_after events).cells s }
    // What a resolver was told of the primary of a lock that it was shown, or of all keys, is so: committed at c, or for 0 rolled back.
    ensures decided { (plans : ℕ → Plan) (events : List Event) → IsRun plans events →
        (s c : ℕ) → WasDecided events s c →
        ((c ≡ 0) × IsAbsent (store_after events).cells s) ⊎ IsWholeAt (plans s) (store_after events).cells s c }
    // What is whole at c in two phases was sent to the primary at c.
    ensures named { (plans : ℕ → Plan) (events : List Event) → IsRun plans events →
        (s c : ℕ) → (plans s).way ≡ TwoPhases → (plans s).one_phase ≡ false → IsWholeAt (plans s) (store_after events).cells s c → WasNamed (plans s) events s c }
    // Its primary holds its commit at c, also where it committed in one.
    ensures by_primary { (plans : ℕ → Plan) (events : List Event) → IsRun plans events →
        (s c : ℕ) → (plans s).way ≡ TwoPhases → IsWholeAt (plans s) (store_after events).cells s c →
        (x : Content) × HasCommit (cell_at (store_after events).cells (plans s).primary) s c x }
    // And it was committed by a Commit of the primary at c that was served without error.
    ensures served { (plans : ℕ → Plan) (events : List Event) → IsRun plans events →
        (s c : ℕ) → (plans s).way ≡ TwoPhases → (plans s).one_phase ≡ false → IsWholeAt (plans s) (store_after events).cells s c → PrimaryServed (plans s) events s c }
    // All commits of the primary name one timestamp.
    ensures one { (plans : ℕ → Plan) (events : List Event) → IsRun plans events →
        (s c d : ℕ) → WasNamed (plans s) events s c → WasNamed (plans s) events s d → c ≡ d }
    // A commit that was answered leaves no lock of the transaction on its keys.
    ensures unlocked { (plans : ℕ → Plan) (events : List Event) → IsRun plans events →
        (t : Ticket) (r : CommitRequest) (o : CommitResponse) → Has events (Took t (Commit r) (reply.Commit o)) →
        IsWithoutError (reply.Commit o) → (k : Key) → has_key r.keys k ≡ true →
        (l : Lock) → (cell_at (store_after events).cells k).lock ≡ Some l → l.start ≢ r.start_version }
    // A rollback that was answered is recorded, and leaves no lock of the transaction on its keys.
    ensures recorded { (plans : ℕ → Plan) (events : List Event) → IsRun plans events →
        (t : Ticket) (r : BatchRollbackRequest) (o : BatchRollbackResponse) → Has events (Took t (BatchRollback r) (reply.BatchRollback o)) →
        IsWithoutError (reply.BatchRollback o) → (k : Key) → has_key r.keys k ≡ true →
        (has_start (cell_at (store_after events).cells k).rolled r.start_version ≡ true)
        × ((l : Lock) → (cell_at (store_after events).cells k).lock ≡ Some l → l.start ≢ r.start_version) }
    // Where each key that the transaction writes stood in a Commit that was answered, or in a Prewrite that committed it at once, no
    // prewrite lock of it stays.
    ensures no_lock { (plans : ℕ → Plan) (events : List Event) → IsRun plans events →
        (s : ℕ) → ((k : Key) (x : Content) → (plans s).writes k ≡ Some x → KeyCommitted events s k) →
        (k : Key) (l : Lock) → (cell_at (store_after events).cells k).lock ≡ Some l → is_prewrite l.kind ≡ true → l.start ≢ s }
    // And no lock at all where each other key that a PessimisticLock of it named was given back.
    ensures no_lock_left { (plans : ℕ → Plan) (events : List Event) → IsRun plans events →
        (s : ℕ) → ((k : Key) (x : Content) → (plans s).writes k ≡ Some x → KeyCommitted events s k) →
        ((k : Key) → (plans s).writes k ≡ None → ((t : Ticket) (q : PessimisticLockRequest) (o : Reply) → Has events (Served t (PessimisticLock q) o) → LocksForUpdate q s k → ⊥) ⊎ WasGivenBack events s k) →
        (k : Key) (l : Lock) → (cell_at (store_after events).cells k).lock ≡ Some l → l.start ≢ s }
    // A commit timestamp that was sent is above its start.
    ensures above { (plans : ℕ → Plan) (events : List Event) → IsRun plans events →
        (s c : ℕ) → WasNamed (plans s) events s c → s < c }
{}
