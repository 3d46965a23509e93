//! What holds of shards, as contracts of functions that do nothing.

ghost use Rattle.std.specs.Prelude.{◌≡◌, ℕ, List, false};
ghost use Rattle.txn_history.specs.Event.{Event};
ghost use Rattle.txn_history.specs.Licence.{IsLicensed};
ghost use Rattle.txn_history.specs.Plan.{Plan};
ghost use Rattle.txn_kv.specs.declared.request.reads.BatchGetRequest.{BatchGetRequest};
ghost use Rattle.txn_kv.specs.declared.request.commits.BatchRollbackRequest.{BatchRollbackRequest};
ghost use Rattle.txn_kv.specs.declared.request.commits.CommitRequest.{CommitRequest};
ghost use Rattle.txn_kv.specs.declared.request.reads.GetRequest.{GetRequest};
ghost use Rattle.txn_kv.specs.declared.request.locks.PessimisticLockRequest.{PessimisticLockRequest};
ghost use Rattle.txn_kv.specs.declared.request.locks.PessimisticRollbackRequest.{PessimisticRollbackRequest};
ghost use Rattle.txn_kv.specs.declared.request.commits.PrewriteRequest.{PrewriteRequest};
ghost use Rattle.txn_kv.specs.declared.request.reads.ScanRequest.{ScanRequest};
ghost use Rattle.txn_kv.specs.declared.request.Request.TheVariants as request;
ghost use Rattle.txn_shard.specs.Parts.{BatchGetPart, BatchRollbackPart, CommitPart, GetPart, PessimisticLockPart, PessimisticRollbackPart, PrewritePart, ScanPart};

/// Where a request may be sent, a part of it may be sent. A Prewrite that commits all at once is none of these: a part of it would not hold
/// all keys. The other kinds that are cut may always be sent.
pub fn parts_are_licensed()
    ensures get { (plans : ℕ → Plan) (es : List Event) (p w : GetRequest) → GetPart p w → IsLicensed plans es (request.Get w) → IsLicensed plans es (request.Get p) }
    ensures batch_get { (plans : ℕ → Plan) (es : List Event) (p w : BatchGetRequest) → BatchGetPart p w → IsLicensed plans es (request.BatchGet w) → IsLicensed plans es (request.BatchGet p) }
    ensures scan { (plans : ℕ → Plan) (es : List Event) (p w : ScanRequest) → ScanPart p w → IsLicensed plans es (request.Scan w) → IsLicensed plans es (request.Scan p) }
    ensures prewrite { (plans : ℕ → Plan) (es : List Event) (p w : PrewriteRequest) → PrewritePart p w → w.try_one_pc ≡ false → IsLicensed plans es (request.Prewrite w) → IsLicensed plans es (request.Prewrite p) }
    ensures commit { (plans : ℕ → Plan) (es : List Event) (p w : CommitRequest) → CommitPart p w → IsLicensed plans es (request.Commit w) → IsLicensed plans es (request.Commit p) }
    ensures batch_rollback { (plans : ℕ → Plan) (es : List Event) (p w : BatchRollbackRequest) → BatchRollbackPart p w → IsLicensed plans es (request.BatchRollback w) → IsLicensed plans es (request.BatchRollback p) }
    ensures pessimistic_rollback { (plans : ℕ → Plan) (es : List Event) (p w : PessimisticRollbackRequest) → PessimisticRollbackPart p w → IsLicensed plans es (request.PessimisticRollback w) → IsLicensed plans es (request.PessimisticRollback p) }
    ensures pessimistic_lock { (plans : ℕ → Plan) (es : List Event) (p w : PessimisticLockRequest) → PessimisticLockPart p w → IsLicensed plans es (request.PessimisticLock w) → IsLicensed plans es (request.PessimisticLock p) }
{}
