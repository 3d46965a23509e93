ghost use Rattle.std.specs.Prelude.{◌≡◌, ◌<◌, ◌≤◌, ℕ, true, false, Some};
ghost use Rattle.txn_kv.specs.declared.message.Mutation.{Mutation};
ghost use Rattle.txn_kv.specs.declared.request.Request.{Request};
ghost use Rattle.txn_kv.specs.declared.request.Request.TheVariants.{Prewrite, Tso as TsoAsked};
ghost use Rattle.txn_kv.specs.declared.request.commits.PrewriteRequest.{PrewriteRequest};
ghost use Rattle.txn_kv.specs.declared.request.cluster.TsoRequest.{TsoRequest};
ghost use Rattle.txn_kv.specs.declared.reply.Reply.TheVariants.{Tso as TsoGiven};
ghost use Rattle.txn_kv.specs.declared.reply.cluster.TsoResponse.{TsoResponse};
ghost use Rattle.txn_history.specs.Among.{IsAmong};
ghost use Rattle.txn_history.specs.Licence.{IsWithoutError, GivesTimestamp};
ghost use Rattle.txn_history.specs.Plan.{Key};
ghost use Rattle.txn_model.specs.declared.cell.Lock.{Lock};
ghost use Rattle.txn_model.specs.declared.cell.Write.{Write};
ghost use Rattle.txn_model.specs.Cells.{cell_at};
ghost use Rattle.txn_model.specs.Locks.{has_start, is_prewrite};
ghost use Rattle.txn_model.specs.Store.{Store, opening};
ghost use Rattle.txn_model.specs.Table.{table};
ghost use Rattle.txn_law.specs.Run.{IsCovered};
ghost use Rattle.txn_law.specs.Sound.{IsSoundStore, IsTimely, Became};

/// What one request leaves of the store that serves it.
pub fn one_request()
    // The store begins sound, and stays so.
    ensures begins { IsSoundStore opening }
    ensures sound { (st : Store) (r : Request) → IsCovered r → IsTimely st r → IsSoundStore st → IsSoundStore (table st r).store }
    // A commit that is there stays.
    ensures commit_stays { (st : Store) (r : Request) → IsCovered r → IsTimely st r → IsSoundStore st → (k : Key) (w : Write) →
        IsAmong (cell_at st.cells k).commits w → IsAmong (cell_at (table st r).store.cells k).commits w }
    // A prewrite lock stands on, or is the commit of its start, or its start is recorded as rolled back.
    ensures lock_goes { (st : Store) (r : Request) → IsCovered r → IsTimely st r → IsSoundStore st → (k : Key) (l : Lock) →
        (cell_at st.cells k).lock ≡ Some l → is_prewrite l.kind ≡ true → Became l (cell_at (table st r).store.cells k) }
    // A start that is recorded as rolled back stays so.
    ensures rollback_stays { (st : Store) (r : Request) → IsCovered r → IsTimely st r → IsSoundStore st → (k : Key) (s : ℕ) →
        has_start (cell_at st.cells k).rolled s ≡ true → has_start (cell_at (table st r).store.cells k).rolled s ≡ true }
    // A Prewrite never passes over a start that is rolled back at one of its keys.
    ensures prewrite_stops { (st : Store) (r : PrewriteRequest) → IsWithoutError (table st (Prewrite r)).reply → (m : Mutation) →
        IsAmong r.mutations m → has_start (cell_at st.cells m.key).rolled r.start_version ≡ false }
    // Each timestamp is above all earlier ones.
    ensures timestamps_rise { (st : Store) (r : TsoRequest) (o : TsoResponse) (c : ℕ) → (table st (TsoAsked r)).reply ≡ TsoGiven o →
        GivesTimestamp o c → (st.last < c) × (c ≤ (table st (TsoAsked r)).store.last) }
    ensures last_stays { (st : Store) (r : Request) → st.last ≤ (table st r).store.last }
{}
