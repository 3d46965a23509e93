//! Facts about one step of the request table, for every store in order and every request. Each is the contract of a
//! function that does nothing, so that nothing above needs to look into a row again.
ghost use Rattle.std.specs.Prelude.{◌≡◌, ◌⊎◌, ℕ, ◌+◌, ◌<◌, ◌≤◌, true, false, Some, None};
ghost use Rattle.txn_kv.specs.Timestamp.{version_of};
ghost use Rattle.txn_kv.specs.declared.message.RegionErr.{RegionErr};
ghost use Rattle.txn_kv.specs.declared.request.Request.{Request};
ghost use Rattle.txn_kv.specs.declared.request.Request.TheVariants.{Tso as TsoAsked};
ghost use Rattle.txn_kv.specs.declared.request.cluster.TsoRequest.{TsoRequest};
ghost use Rattle.txn_kv.specs.declared.reply.Reply.TheVariants.{Tso as TsoGiven};
ghost use Rattle.txn_kv.specs.declared.reply.cluster.TsoResponse.{TsoResponse};
ghost use Rattle.txn_kv.specs.declared.timestamp.Timestamp.{Timestamp};
ghost use Rattle.txn_model.specs.declared.cell.Lock.{Lock};
ghost use Rattle.txn_model.specs.declared.cell.Write.{Write};
ghost use Rattle.txn_model.specs.Cells.{Key, AreKept, cell_at};
ghost use Rattle.txn_model.specs.Locks.{commit_of, has_start, is_prewrite, owns};
ghost use Rattle.txn_model.specs.Orderly.{AreOrderly};
ghost use Rattle.txn_model.specs.Read.{read_at};
ghost use Rattle.txn_model.specs.Refusals.{read_timestamp, refuses, region_error_in};
ghost use Rattle.txn_model.specs.Served.{OthersStay};
ghost use Rattle.txn_model.specs.Steps.{CommitsAt, DestroysAt, LandsAt, PessimisticLockBecomes, PrewriteLockBecomes, PrewritesAt, RollsBackAt, commit_from};
ghost use Rattle.txn_model.specs.Store.{Store, opening};
ghost use Rattle.txn_model.specs.Table.{table};

/// Cells begin in order and stay so: by their keys, none empty; in each the commits by timestamp and none of a start twice,
/// the rolled starts ascending and none twice, and no prewrite lock of a start that is committed or rolled back.
pub fn cells_stay_in_order()
    ensures begin { AreKept opening.cells × AreOrderly opening.cells }
    ensures stay { (st : Store) (r : Request) → AreKept st.cells → AreOrderly st.cells →
        AreKept (table st r).store.cells × AreOrderly (table st r).store.cells }
{}

/// A commit and a rolled start that are there stay, unless all that is kept of their key is destroyed.
pub fn commits_and_rollbacks_stay()
    ensures commits { (st : Store) (r : Request) → AreKept st.cells → AreOrderly st.cells → (k : Key) (s : ℕ) (w : Write) →
        commit_of (cell_at st.cells k).commits s ≡ Some w →
        (commit_of (cell_at (table st r).store.cells k).commits s ≡ Some w) ⊎ DestroysAt r k }
    ensures rollbacks { (st : Store) (r : Request) → AreKept st.cells → AreOrderly st.cells → (k : Key) (s : ℕ) →
        has_start (cell_at st.cells k).rolled s ≡ true →
        (has_start (cell_at (table st r).store.cells k).rolled s ≡ true) ⊎ DestroysAt r k }
{}

/// How locks leave their keys: a prewrite lock as the commit of its start, at the timestamp of the request that commits it,
/// or by a request that rolls its start back; a pessimistic lock also by giving way to a prewrite lock or a commit of its
/// start, or by being released.
pub fn locks_leave()
    ensures prewrite { (st : Store) (r : Request) → AreKept st.cells → AreOrderly st.cells → (k : Key) (l : Lock) →
        (cell_at st.cells k).lock ≡ Some l → is_prewrite l.kind ≡ true →
        PrewriteLockBecomes st r k l (cell_at (table st r).store.cells k) }
    ensures pessimistic { (st : Store) (r : Request) → AreKept st.cells → AreOrderly st.cells → (k : Key) (l : Lock) →
        (cell_at st.cells k).lock ≡ Some l → is_prewrite l.kind ≡ false →
        PessimisticLockBecomes st r k l (cell_at (table st r).store.cells k) }
{}

/// How what is kept of a key comes there: a prewrite lock by a prewrite of its start, which was neither rolled back nor
/// committed; a commit of a prewrite lock, by a request that commits it, or at once, by a prewrite of its start, which was
/// neither rolled back nor locked nor committed; a rolled start by a request that rolls it back.
pub fn what_is_kept_comes()
    ensures prewrite_locks { (st : Store) (r : Request) → AreKept st.cells → AreOrderly st.cells → (k : Key) (s : ℕ) →
        owns (cell_at (table st r).store.cells k).lock s ≡ true → (owns (cell_at st.cells k).lock s ≡ true)
        ⊎ (PrewritesAt r k s × (has_start (cell_at st.cells k).rolled s ≡ false) × (commit_of (cell_at st.cells k).commits s ≡ None)) }
    ensures commits { (st : Store) (r : Request) → AreKept st.cells → AreOrderly st.cells → (k : Key) (s : ℕ) (w : Write) →
        commit_of (cell_at (table st r).store.cells k).commits s ≡ Some w → (commit_of (cell_at st.cells k).commits s ≡ Some w)
        ⊎ ((l : Lock) × ((cell_at st.cells k).lock ≡ Some l) × (is_prewrite l.kind ≡ true) × (w ≡ commit_from l w.commit) × (l.start ≡ s) × CommitsAt st r k s w.commit)
        ⊎ (LandsAt st r k s w.commit × (has_start (cell_at st.cells k).rolled s ≡ false) × (owns (cell_at st.cells k).lock s ≡ false) × (commit_of (cell_at st.cells k).commits s ≡ None)) }
    ensures rollbacks { (st : Store) (r : Request) → AreKept st.cells → AreOrderly st.cells → (k : Key) (s : ℕ) →
        has_start (cell_at (table st r).store.cells k).rolled s ≡ true →
        (has_start (cell_at st.cells k).rolled s ≡ true) ⊎ RollsBackAt st r k s }
{}

/// A key where a start is rolled back never gets a prewrite lock or a commit of it.
pub fn rolled_back_stays_without()
    ensures { (st : Store) (r : Request) → AreKept st.cells → AreOrderly st.cells → (k : Key) (s : ℕ) →
        has_start (cell_at st.cells k).rolled s ≡ true →
        (owns (cell_at (table st r).store.cells k).lock s ≡ false)
        × (commit_of (cell_at st.cells k).commits s ≡ None → commit_of (cell_at (table st r).store.cells k).commits s ≡ None) }
{}

/// A request with a region error changes nothing, and one that its row refuses nothing but the greatest timestamp at which
/// was read.
pub fn refusals_change_nothing()
    ensures region { (st : Store) (r : Request) → AreKept st.cells → (e : RegionErr) → region_error_in (table st r).reply ≡ Some e →
        (table st r).store ≡ st }
    ensures row { (st : Store) (r : Request) → AreKept st.cells → refuses (table st r).reply ≡ true →
        (table st r).store ≡ read_at (read_timestamp r) st }
{}

/// Neither the greatest timestamp at which was read nor the safe point nor the last timestamp falls, and a request leaves
/// regions, stores and the clock as they are.
pub fn numbers_never_fall()
    ensures others { (st : Store) (r : Request) → OthersStay st (table st r).store }
    ensures last { (st : Store) (r : Request) → st.last ≤ (table st r).store.last }
{}

/// Each timestamp c that a Tso gives is above all earlier ones, and no later than the last.
pub fn timestamps_rise()
    ensures { (st : Store) (r : TsoRequest) (o : TsoResponse) (t : Timestamp) (c : ℕ) → (table st (TsoAsked r)).reply ≡ TsoGiven o →
        o.timestamp ≡ Some t → c ≤ version_of t → version_of t < c + o.count →
        (st.last < c) × (c ≤ (table st (TsoAsked r)).store.last) }
{}
