//! Laws of the definitions, as contracts of functions that do nothing.
ghost use Rattle.std.specs.Prelude.{◌≡◌, ◌≢◌, ◌⊎◌, ◌≤◌, ◌+◌, ◌*◌, ℕ, ◌∷◌, Bool, List, None, Ok, Option, Result, Some, false, length, true};
ghost use Rattle.txn_buffer.specs.Contents.{Contents, locked, mutations, with_write};
ghost use Rattle.txn_buffer.specs.Writes.{Write};
ghost use Rattle.txn_commit.specs.Committing.{IsFormed};
ghost use Rattle.txn_commit.specs.Ways.{Costs, IsOneEach};
ghost use Rattle.txn_commit.specs.Following.{Commits as Followed};
ghost use Rattle.txn_commit.specs.Jobs.{JobFits};
ghost use Rattle.txn_commit.specs.Parts.{parts_of};
ghost use Rattle.txn_commit.specs.Sending.{MaySendBehind, plan_of};
ghost use Rattle.txn_commit.specs.declared.commit_parts.CommitParts.{CommitParts};
ghost use Rattle.txn_commit.specs.declared.secondary_job.SecondaryJob.{SecondaryJob};
ghost use Rattle.txn_core.specs.Counting.{Runs, Step, commit_price, errors, failures, locked as locked_by, posted, rested, rollback_price, standing_after, transaction_width, weighed};
ghost use Rattle.txn_core.specs.Going.{IsJobOf, IsUncommitted, IsUndetermined, MaySendFor, TransactionFits, TransactionGives, TransactionReady};
ghost use Rattle.txn_core.specs.Others.{AddsNoPrimaryOf, AddsNothingOf, IsBeside};
ghost use Rattle.txn_core.specs.Status.{Became, allows_commit, allows_data, allows_rollback, may_move, status_step};
ghost use Rattle.txn_core.specs.Status.Became.{commits, rolls_back};
ghost use Rattle.txn_core.specs.Transaction.{IsDetermined, IsOrdered, Standing, begun, commit_outcome, is_open, locks_nothing, moved_by, rollback_outcome, rolled_status};
ghost use Rattle.txn_core.specs.Waiting.{work_phase, work_waits};
ghost use Rattle.txn_core.specs.declared.options.TransactionOptions.{TransactionOptions};
ghost use Rattle.txn_core.specs.declared.status.Status.{Status};
ghost use Rattle.txn_core.specs.declared.status.Status.TheVariants.{Dropped};
ghost use Rattle.txn_core.specs.declared.transaction.Work.{Work};
ghost use Rattle.txn_core.specs.declared.transaction.Work.TheVariants.{Idle};
ghost use Rattle.txn_core.specs.declared.txn_answer.TxnAnswer.{TxnAnswer};
ghost use Rattle.txn_core.specs.declared.txn_answer.TxnAnswer.TheVariants as answers;
ghost use Rattle.txn_history.specs.Event.{Event, Has};
ghost use Rattle.txn_history.specs.Event.Event.{Sent};
ghost use Rattle.txn_history.specs.Later.{IsLater};
ghost use Rattle.txn_history.specs.Licence.{PrimaryCommitted, PrimaryRolledBack, WasGiven};
ghost use Rattle.txn_history.specs.Meaning.{WasPosted};
ghost use Rattle.txn_history.specs.Phase.{Awaited};
ghost use Rattle.txn_history.specs.Phase.Phase.{Running};
ghost use Rattle.txn_history.specs.Plan.{Key, Plan};
ghost use Rattle.txn_history.specs.Posted.{Errand, Licensed, Posted, Within, after};
ghost use Rattle.txn_history.specs.Turn.{HasEnded, Turn};
ghost use Rattle.txn_kv.specs.Timestamp.{version_of};
ghost use Rattle.txn_merge.specs.declared.retry_options.RetryOptions.{RetryOptions};
ghost use Rattle.txn_kv.specs.declared.errors.Error.{Error};
ghost use Rattle.txn_kv.specs.declared.request.commits.CommitRequest.{CommitRequest as Asked};
ghost use Rattle.txn_kv.specs.declared.request.Request.TheVariants.{Commit};
ghost use Rattle.txn_kv.specs.declared.ticket.Ticket.{Ticket};
ghost use Rattle.txn_kv.specs.declared.timestamp.Timestamp.{Timestamp};

use txn_commit::Plans;

/// Whatever becomes of a call, the status goes there by at most two moves.
pub fn statuses_move()
    ensures { (s : Status) (call : Became) → (via : Status) × (may_move s via ≡ true) × (may_move via (status_step s call) ≡ true) }
{}

/// As a commit or a rollback goes on that is open, the status becomes what it is to be after a call that came to this: a commit, of
/// which something was prewritten, or a rollback, of which no error says that a commit's end is not known. One that was let go
/// meanwhile stays so. A rollback that begins leaves it, or moves it so, by whether a Commit of the primary was lost.
pub fn statuses_follow<P: Plans>()
    ensures commit { (s : Status) (has_prewritten : Bool) (turn : Turn (Result (TxnAnswer P) Error)) → allows_commit s ≡ true
        → moved_by (status_step s (commits None has_prewritten)) turn ≡ status_step s (commits (commit_outcome turn) true) }
    ensures rollback { (s : Status) (turn : Turn (Result (TxnAnswer P) Error)) → allows_rollback s ≡ true → IsDetermined turn
        → moved_by (status_step s (rolls_back None)) turn ≡ status_step s (rolls_back (rollback_outcome turn)) }
    ensures closed { (turn : Turn (Result (TxnAnswer P) Error)) → moved_by Dropped turn ≡ Dropped }
    ensures refused { (s : Status) (t : Ticket) (turn : Turn (Result (TxnAnswer P) Error)) → IsUndetermined t turn → HasEnded turn
        → rolled_status s true turn ≡ status_step s (rolls_back (rollback_outcome turn)) }
    ensures begun { (s : Status) (turn : Turn (Result (TxnAnswer P) Error)) → IsDetermined turn
        → rolled_status s false turn ≡ status_step s (rolls_back (rollback_outcome turn)) }
{}

/// A transaction that has begun can have arisen from each history in which its start was given and no Commit of it was sent, and
/// it still can once it was written, where the keys of its buffer are in order.
pub fn transactions_arise<P>()
where
    P: Plans,
    ensures begun { (start : Timestamp) (options : TransactionOptions) (now : ℕ) (o : Posted) (h : List Event)
        → WasGiven h (version_of start) → IsUncommitted (version_of start) h → TransactionFits P.ways (begun start options now) o h }
    ensures written { (t : Standing P) (contents : Contents) (o : Posted) (h : List Event)
        → allows_data t.status ≡ true → t.work ≡ Idle → IsOrdered contents → TransactionFits P.ways t o h → TransactionFits P.ways (record t { contents = contents }) o h }
{}

/// Writes and locks leave the keys of a buffer in order.
pub fn keys_stay_in_order()
    ensures written { (contents : Contents) (key : List ℕ) (write : Write) → IsOrdered contents → IsOrdered (with_write contents key write) }
    ensures locked { (contents : Contents) (key : List ℕ) → IsOrdered contents → IsOrdered (locked contents key) }
{}

/// The job that a commit hands out can have arisen so: the primary is committed, and it is of the other keys.
pub fn jobs_arise<P: Plans>()
    ensures { (options : RetryOptions) (start t : Timestamp) (parts : CommitParts) (job : SecondaryJob P) (o : Posted) (h : List Event)
        → IsFormed parts → PrimaryCommitted (plan_of parts) h (version_of start) (version_of t) → IsJobOf options start t parts.secondaries job
        → JobFits P.ways.plan P.ways.uncommitted (plan_of parts) parts.secondaries job o h }
{}

/// A whole call posts no more requests and asks than it costs, once more for each error that comes to it, where locks weigh what
/// they may cost. It begins no more sleeps than it is told of failures and of replies with locks.
pub fn whole_calls_are_paid<P>()
where
    P: Plans,
    ensures posted { (costs : Costs) (whole : ℕ → ℕ) (first : Step P) (steps : List (Step P)) (n : ℕ)
        → Runs P.ways costs whole first steps
        → 1 ≤ n → transaction_width P.ways (standing_after first.new steps) ≤ n
        → posted (first ∷ steps) ≤ (1 + errors steps) * (whole n + weighed steps) }
    ensures rested { (costs : Costs) (whole : ℕ → ℕ) (first : Step P) (steps : List (Step P))
        → Runs P.ways costs whole first steps
        → rested (first ∷ steps) ≤ failures steps + locked_by steps }
{}

/// Where a plan posts no more than one request for each of its keys, a commit or a rollback of k mutations posts no more than 2k + 9
/// requests and asks, once more for each error that comes to it, and what locks may cost.
pub fn commits_are_bounded<P>()
where
    P: Plans,
    ensures commit { (costs : Costs) (first : Step P) (steps : List (Step P)) → IsOneEach costs
        → Runs P.ways costs (commit_price costs (parts_of first.old.contents) first.old.commits.timestamp) first steps
        → posted (first ∷ steps) ≤ (1 + errors steps) * (2 * length (mutations first.old.contents.entries) + 9 + weighed steps) }
    ensures rollback { (costs : Costs) (first : Step P) (steps : List (Step P)) → IsOneEach costs
        → Runs P.ways costs (rollback_price costs (parts_of first.old.contents)) first steps
        → posted (first ∷ steps) ≤ (1 + errors steps) * (2 * length (mutations first.old.contents.entries) + 9 + weighed steps) }
{}

/// A transaction waits for something exactly while a call of it runs, and what it waits for was posted. One that may be called
/// runs while a call of it is open.
pub fn transactions_wait_for_what_was_posted<P>()
where
    P: Plans,
    ensures runs { (g : Work P) (a : Awaited) → work_waits P.ways g a → work_phase P.ways g ≡ Running }
    ensures busy { (t : Standing P) → TransactionReady P.ways t → is_open t.work ≡ true → work_phase P.ways t.work ≡ Running }
    ensures waits { (t : Standing P) (o : Posted) (h : List Event) → TransactionFits P.ways t o h
        → work_phase P.ways t.work ≡ Running → (a : Awaited) × work_waits P.ways t.work a }
    ensures posted { (t : Standing P) (o : Posted) (h : List Event) (a : Awaited) → TransactionFits P.ways t o h
        → work_waits P.ways t.work a → WasPosted o h a }
{}

/// What others send and take changes nothing that a transaction knows, where no Commit of its start is sent beside it. Nor does
/// what its own job sends, once the transaction is no longer written: no Commit that names its primary. Between calls it waits
/// for nothing that a line posts.
pub fn others_change_nothing<P>()
where
    P: Plans,
    ensures others { (t : Standing P) (o p : Posted) (h longer : List Event) → IsLater o p → AddsNothingOf (version_of t.start) h longer
        → TransactionFits P.ways t o h → TransactionFits P.ways t p longer }
    ensures own_job { (t : Standing P) (parts : CommitParts) (o p : Posted) (h longer : List Event) → allows_data t.status ≡ false → parts_of t.contents ≡ Some parts
        → IsLater o p → AddsNoPrimaryOf (plan_of parts) (version_of t.start) h longer
        → TransactionFits P.ways t o h → TransactionFits P.ways t p longer }
    ensures idle { (t : Standing P) (o p : Posted) (h : List Event) → t.work ≡ Idle
        → TransactionFits P.ways t o h → TransactionFits P.ways t p h }
{}

/// What others send and take changes nothing that a job knows.
pub fn jobs_last<P: Plans>()
    ensures { (plan : Plan) (keys : List Key) (job : SecondaryJob P) (o p : Posted) (h longer : List Event) → IsLater o p → Within h longer
        → JobFits P.ways.plan P.ways.uncommitted plan keys job o h → JobFits P.ways.plan P.ways.uncommitted plan keys job p longer }
{}

/// A history grows one event at a time, and what it had stays. Each event but a Commit of a start adds nothing of the start.
pub fn histories_grow()
    ensures within { (s : ℕ) (h longer : List Event) → AddsNothingOf s h longer → Within h longer }
    ensures same { (s : ℕ) (h : List Event) → AddsNothingOf s h h }
    ensures further { (s : ℕ) (a b c : List Event) → AddsNothingOf s a b → AddsNothingOf s b c → AddsNothingOf s a c }
    ensures event { (s : ℕ) (e : Event) (h : List Event) → IsBeside s e → AddsNothingOf s h (e ∷ h) }
    ensures primary { (plan : Plan) (s : ℕ) (h longer : List Event) → AddsNothingOf s h longer → AddsNoPrimaryOf plan s h longer }
    ensures primary_within { (plan : Plan) (s : ℕ) (h longer : List Event) → AddsNoPrimaryOf plan s h longer → Within h longer }
    ensures primary_further { (plan : Plan) (s : ℕ) (a b c : List Event) → AddsNoPrimaryOf plan s a b → AddsNoPrimaryOf plan s b c → AddsNoPrimaryOf plan s a c }
{}

/// The Commits that a transaction and its job send are of its own start. So they are none of another start, and those of the job
/// are none of the primary.
pub fn commits_are_owned()
    ensures transaction { (contents : Contents) (s line : ℕ) (beat : Bool) (h : List Event) (sends : List Errand) (t : Ticket) (r : Asked) → Licensed (MaySendFor contents s) line beat h sends
        → Has (after line beat h sends) (Sent t (Commit r)) → Has h (Sent t (Commit r)) ⊎ (r.start_version ≡ s) }
    ensures job { (plan : Plan) (s line : ℕ) (beat : Bool) (h : List Event) (sends : List Errand) (t : Ticket) (r : Asked) → Licensed (MaySendBehind plan s) line beat h sends
        → Has (after line beat h sends) (Sent t (Commit r)) → Has h (Sent t (Commit r)) ⊎ (r.start_version ≡ s) }
    ensures other_transaction { (contents : Contents) (s own line : ℕ) (beat : Bool) (h : List Event) (sends : List Errand) → own ≢ s → Licensed (MaySendFor contents own) line beat h sends
        → AddsNothingOf s h (after line beat h sends) }
    ensures other_job { (plan : Plan) (s own line : ℕ) (beat : Bool) (h : List Event) (sends : List Errand) → own ≢ s → Licensed (MaySendBehind plan own) line beat h sends
        → AddsNothingOf s h (after line beat h sends) }
    ensures own_job { (plan : Plan) (s line : ℕ) (beat : Bool) (h : List Event) (sends : List Errand) → Licensed (MaySendBehind plan s) line beat h sends
        → AddsNoPrimaryOf plan s h (after line beat h sends) }
{}

/// What the end of a commit or a rollback stands on. A timestamp says that the primary of what the buffer holds is committed there,
/// and the job beside it can have arisen so. No timestamp says that no key is locked. A rollback that did something rolled the
/// primary back.
pub fn ends_stand<P>()
where
    P: Plans,
    ensures committed { (options : RetryOptions) (start t : Timestamp) (contents : Contents) (c : Followed) (h : List Event) (job : Option (SecondaryJob P))
        → TransactionGives P.ways options start contents c h (Ok (answers.Committed (Some t) job))
        → (parts : CommitParts) × (parts_of contents ≡ Some parts) × PrimaryCommitted (plan_of parts) h (version_of start) (version_of t) }
    ensures job { (options : RetryOptions) (start t : Timestamp) (contents : Contents) (c : Followed) (o : Posted) (h : List Event) (job : SecondaryJob P)
        → TransactionGives P.ways options start contents c h (Ok (answers.Committed (Some t) (Some job)))
        → (parts : CommitParts) × (parts_of contents ≡ Some parts) × (job.start ≡ start) × (job.commit ≡ t) × JobFits P.ways.plan P.ways.uncommitted (plan_of parts) parts.secondaries job o h }
    ensures checked { (options : RetryOptions) (start : Timestamp) (contents : Contents) (c : Followed) (h : List Event) (job : Option (SecondaryJob P))
        → TransactionGives P.ways options start contents c h (Ok (answers.Committed None job)) → locks_nothing contents ≡ true }
    ensures rolled_back { (options : RetryOptions) (start : Timestamp) (contents : Contents) (c : Followed) (h : List Event)
        → TransactionGives P.ways options start contents c h (Ok answers.Unit)
        → (locks_nothing contents ≡ true) ⊎ ((parts : CommitParts) × (parts_of contents ≡ Some parts) × PrimaryRolledBack (plan_of parts) h (version_of start)) }
{}
