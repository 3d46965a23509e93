//! Laws of the definitions, as contracts of functions that do nothing.
ghost use Rattle.std.specs.Prelude.{ℕ, ◌+◌, ◌≡◌, ◌≢◌, ◌≤◌, ◌∷◌, List, None, Ok, Option, Some, false, length, true};
ghost use Rattle.txn_buffer.specs.Contents.{Contents};
ghost use Rattle.txn_history.specs.Event.{Event, Has};
ghost use Rattle.txn_history.specs.Event.Event.{Answered, Sent, Took, Lost};
ghost use Rattle.txn_history.specs.Licence.{IsLicensed, WantedAfter, WasAskedFor};
ghost use Rattle.txn_history.specs.Meaning.{IsSent, WasPosted};
ghost use Rattle.txn_history.specs.Phase.{Awaited};
ghost use Rattle.txn_history.specs.Phase.Phase.{Running};
ghost use Rattle.txn_history.specs.Foreign.{IsForeign};
ghost use Rattle.txn_history.specs.Plan.{AreDistinct, ArePlanned, Key, Plan, has_key};
ghost use Rattle.txn_history.specs.Posted.{Posted, Within};
ghost use Rattle.txn_kv.specs.Timestamp.{version_of};
ghost use Rattle.txn_kv.specs.declared.reply.Reply.{Reply};
ghost use Rattle.txn_kv.specs.declared.request.Request.{Request};
ghost use Rattle.txn_kv.specs.declared.request.commits.CommitRequest.{CommitRequest as Committing};
ghost use Rattle.txn_kv.specs.declared.request.Request.TheVariants.{Commit, PessimisticLock, UnsafeDestroyRange};
ghost use Rattle.txn_kv.specs.declared.request.locks.PessimisticLockRequest.{PessimisticLockRequest};
ghost use Rattle.txn_kv.specs.declared.request.cluster.UnsafeDestroyRangeRequest.{UnsafeDestroyRangeRequest};
ghost use Rattle.txn_kv.specs.declared.ticket.Ticket.{Ticket};
ghost use Rattle.txn_kv.specs.declared.timestamp.Timestamp.{Timestamp};
ghost use Rattle.txn_commit.specs.Committing.{CommitterFits};
ghost use Rattle.txn_commit.specs.Counting.{commit_costs, rollback_costs};
ghost use Rattle.txn_commit.specs.Following.{Commits, CommitsPrimary, IsFollowed, KnowsCommits, MarksLost, WasRefused, answered, awaits, heard, lost, none_sent, undetermined};
ghost use Rattle.txn_commit.specs.Going.{stage_phase, stage_waits};
ghost use Rattle.txn_commit.specs.Parts.{parts_of};
ghost use Rattle.txn_commit.specs.Sending.{MaySend, plan_of};
ghost use Rattle.txn_commit.specs.declared.commit_parts.CommitParts.{CommitParts};
ghost use Rattle.txn_commit.specs.declared.committer.CommitterCall.{CommitterCall};
ghost use Rattle.txn_commit.specs.declared.committer.Stage.{Stage};
ghost use Rattle.txn_commit.specs.Ways.{Costs, IsOneEach};
ghost use Rattle.txn_history.specs.Arrivals.{told_by};
ghost use Rattle.txn_kv.specs.declared.arrival.Arrival.{Arrival};

use crate::plans::Plans;

/// What is known of the Commits of a primary is known of them once a reply was taken, or a request was lost.
pub fn commits_are_followed()
    ensures answered { (plan : Plan) (s : ℕ) (c : Commits) (t : Ticket) (q : Request) (o : Reply) (h : List Event) → IsSent t q h → KnowsCommits plan s c h → KnowsCommits plan s (answered t o c) (Took t q o ∷ h) }
    ensures lost { (plan : Plan) (s : ℕ) (c : Commits) (t : Ticket) (q : Request) (h : List Event) → IsSent t q h → KnowsCommits plan s c h → KnowsCommits plan s (lost t c) (Lost t q ∷ h) }
{}

/// What is marked as lost was lost, in each history that keeps what was. So it is at first; and it stays so as what comes is heard, and by
/// what each call of a commit makes of the marks besides (clause `follows`).
pub fn marks_are_losses()
    ensures none { (plan : Plan) (s : ℕ) (h : List Event) → MarksLost plan s none_sent h }
    ensures longer { (plan : Plan) (s : ℕ) (c : Commits) (h longer : List Event) → Within h longer → MarksLost plan s c h → MarksLost plan s c longer }
    ensures heard { (plan : Plan) (s : ℕ) (c : Commits) (a : Arrival) (o : Posted) (r : Request) (h : List Event) → (told_by a o r).known h → KnowsCommits plan s c h → MarksLost plan s c h → MarksLost plan s (heard a o c) ((told_by a o r).hear h) }
    ensures followed { (plan : Plan) (s : ℕ) (was is : Commits) (o : Posted) (h : List Event) → IsFollowed o was is → MarksLost plan s was h → MarksLost plan s is h }
{}

/// Where it is known that the transaction is not committed, each Commit of its primary was refused.
pub fn what_is_determined_was_refused()
    ensures { (plan : Plan) (s : ℕ) (c : Commits) (h : List Event) → undetermined c ≡ None → KnowsCommits plan s c h → (t : Ticket) (r : Committing) → Has h (Sent t (Commit r)) → CommitsPrimary plan s r → WasRefused h t r }
{}

/// What a transaction may send has its licence, where a timestamp that an ask was answered with was asked for.
pub fn sending_is_licensed()
    ensures { (plans : ℕ → Plan) (s : ℕ) (h : List Event) (r : Request)
        → ((a : Ticket) (time : Timestamp) → WantedAfter (plans s) h s a → Has h (Answered a (Ok time)) → WasAskedFor (plans s) h s (version_of time))
        → MaySend (plans s) s h r → IsLicensed plans h r }
{}

/// The primary is none of the other keys of a commit, and where each key is mutated once, all is planned.
pub fn parts_are_apart()
    ensures apart { (contents : Contents) (parts : CommitParts) → parts_of contents ≡ Some parts → (k : Key) → has_key parts.secondaries k ≡ true → k ≢ parts.primary }
    ensures planned { (parts : CommitParts) → AreDistinct parts.mutations → ArePlanned (plan_of parts) parts.mutations }
{}

/// Where a plan posts no more than one request for each of its keys, a commit of k mutations costs at most k + 2, and a
/// rollback of k keys k.
pub fn costs_are_bounded()
    ensures commit { (costs : Costs) (parts : CommitParts) (n : ℕ) → IsOneEach costs → commit_costs costs parts n ≤ length parts.mutations + 2 }
    ensures rollback { (costs : Costs) (parts : CommitParts) (n : ℕ) → IsOneEach costs → rollback_costs costs parts n ≤ length parts.secondaries + 1 }
{}

/// A commit or a rollback waits for something exactly while it runs, and what it waits for was posted.
pub fn calls_wait_for_what_was_posted<P>()
where
    P: Plans,
    ensures runs { (g : Stage P) (a : Awaited) → stage_waits P.ways g a → stage_phase P.ways g ≡ Running }
    ensures waits { (call : CommitterCall P) (c : Commits) (o : Posted) (h : List Event) → CommitterFits P.ways call c o h
        → stage_phase P.ways call.stage ≡ Running → (a : Awaited) × stage_waits P.ways call.stage a }
    ensures posted { (call : CommitterCall P) (c : Commits) (o : Posted) (h : List Event) (a : Awaited) → CommitterFits P.ways call c o h
        → stage_waits P.ways call.stage a → WasPosted o h a }
{}

/// What none of the Commits that are out waits for changes nothing of what is known of them.
pub fn others_are_not_followed()
    ensures { (a : Arrival) (o : Posted) (c : Commits) → awaits a o c ≡ false → heard a o c ≡ c }
{}

/// No transaction and no job destroys a range: a run has no such request.
pub fn no_range_is_destroyed()
    ensures sent { (plan : Plan) (s : ℕ) (h : List Event) (r : UnsafeDestroyRangeRequest) → MaySend plan s h (UnsafeDestroyRange r) → ⊥ }
    ensures foreign { (h : List Event) (r : UnsafeDestroyRangeRequest) → IsForeign h (UnsafeDestroyRange r) → ⊥ }
{}

/// Nor does any ask for a pessimistic lock: each transaction is optimistic.
pub fn no_pessimistic_lock_is_asked_for()
    ensures sent { (plan : Plan) (s : ℕ) (h : List Event) (r : PessimisticLockRequest) → MaySend plan s h (PessimisticLock r) → ⊥ }
    ensures foreign { (h : List Event) (r : PessimisticLockRequest) → IsForeign h (PessimisticLock r) → ⊥ }
{}
