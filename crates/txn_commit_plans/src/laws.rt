//! What the plans of requests are, as contracts of functions that do nothing.
ghost use Rattle.std.specs.Prelude.{◌≡◌, ◌≤◌, ◌+◌, ◌*◌, ◌∷◌, ℕ, List, Option, Some, Err, false, length};
ghost use Rattle.txn_buffer.specs.Contents.{Contents, mutations};
ghost use Rattle.txn_causes.specs.Causes.{HasCause};
ghost use Rattle.txn_causes.specs.Heard.{heard_in};
ghost use Rattle.txn_commit.specs.Ways.{IsOneEach};
ghost use Rattle.txn_commit.specs.Following.{Commits as Followed, KnowsCommits, MarksLost, PrimaryLost, PrimarySent, undetermined};
ghost use Rattle.txn_commit.specs.Jobs.{others};
ghost use Rattle.txn_commit.specs.Parts.{parts_of};
ghost use Rattle.txn_commit.specs.Plans.{IsPlanFor};
ghost use Rattle.txn_plan.specs.Timing.{WasUntimed};
ghost use Rattle.txn_commit.specs.declared.secondary_job.SecondaryJob.{SecondaryJob};
ghost use Rattle.txn_commit.specs.declared.secondary_job.Stage.TheVariants.{Fresh};
ghost use Rattle.txn_commit_plans.specs.CausesOfCalls.{IsCallExplained, IsExplained};
ghost use Rattle.txn_commit_plans.specs.Failing.{FailsForCauses, HasGivenWith, IsSpentBy};
ghost use Rattle.txn_commit_plans.specs.Kinds.{commit_attempts, commit_plan, commit_retries, prewrite_attempts, prewrite_plan, prewrite_retries, rollback_attempts, rollback_plan, rollback_retries, CommitPlan as Committing, PrewritePlan as Prewriting, RollbackPlan as Rolling};
ghost use Rattle.txn_commit_plans.specs.Transactions.{AnyPlan, transaction_ways};
ghost use Rattle.txn_core.specs.Counting.{commit_price, errors, posted, rollback_price, weighed, Runs, Step};
ghost use Rattle.txn_core.specs.Going.{TransactionGives};
ghost use Rattle.txn_history.specs.Event.{Event};
ghost use Rattle.txn_history.specs.Meaning.{IsUnbegun};
ghost use Rattle.txn_history.specs.Plan.{Key, Plan};
ghost use Rattle.txn_merge.specs.declared.retry_options.RetryOptions.{RetryOptions};
ghost use Rattle.txn_multi.specs.Few.{by_items};
ghost use Rattle.txn_multi.specs.Task.{attempts_left};
ghost use Rattle.txn_kv.specs.ErrorView.{view_of};
ghost use Rattle.txn_kv.specs.declared.errors.Error.{Error};
ghost use Rattle.txn_kv.specs.declared.message.Context.{Context as Place};
ghost use Rattle.txn_kv.specs.declared.request.commits.BatchRollbackRequest.{BatchRollbackRequest as RolledBack};
ghost use Rattle.txn_kv.specs.declared.request.commits.CommitRequest.{CommitRequest as Committed};
ghost use Rattle.txn_kv.specs.declared.request.commits.PrewriteRequest.{PrewriteRequest as Prewritten};
ghost use Rattle.txn_kv.specs.declared.request.Request.TheVariants.{BatchRollback, Commit, Prewrite};
ghost use Rattle.txn_kv.specs.declared.ticket.Ticket.{Ticket};
ghost use Rattle.txn_kv.specs.declared.timestamp.Timestamp.{Timestamp};

use crate::has_causes::Caused;
use crate::one_each::OneEach;
use crate::transaction_plan::TransactionPlan;
use txn_commit::Plans;
use txn_core::laws::commits_are_bounded;

/// A plan that is not begun, and sends a request in any context to the regions of its keys, is a plan of the request: all that
/// the request names was answered without error where the plan's answer is no error.
pub fn plans_are_of_their_requests()
    ensures prewrite { (request : Prewritten) (context : Option Place) (p : Prewriting) → p.inner.inner.inner.inner.request ≡ record request { context = context } → p.inner.inner.preserve_region_results ≡ false → IsUnbegun prewrite_plan p → prewrite_plan.ready p → IsPlanFor prewrite_plan (HasGivenWith prewrite_plan prewrite_retries (prewrite_retries p)) by_items (Prewrite request) p }
    ensures commit { (request : Committed) (context : Option Place) (p : Committing) → p.inner.inner.inner.request ≡ record request { context = context } → p.inner.preserve_region_results ≡ false → IsUnbegun commit_plan p → commit_plan.ready p → IsPlanFor commit_plan (HasGivenWith commit_plan commit_retries (commit_retries p)) by_items (Commit request) p }
    ensures batch_rollback { (request : RolledBack) (context : Option Place) (p : Rolling) → p.inner.inner.inner.request ≡ record request { context = context } → p.inner.preserve_region_results ≡ false → IsUnbegun rollback_plan p → rollback_plan.ready p → IsPlanFor rollback_plan (HasGivenWith rollback_plan rollback_retries (rollback_retries p)) by_items (BatchRollback request) p }
{}

/// Each plan posts no more than one request for each key of its request, whatever it is cut into.
pub fn plans_cost_one_request_a_key()
    ensures { IsOneEach ⟦<TransactionPlan as Plans>⟧.ways.costs }
{}

/// Where a commit and a rollback of k mutations go by such plans, they post no more than 2k + 9 requests and asks, once more for each
/// error that comes to them, and what locks may cost.
pub fn frugal_commits_are_bounded<P>()
where
    P: OneEach,
    ensures commit { (first : Step P) (steps : List (Step P))
        → Runs P.ways P.ways.costs (commit_price P.ways.costs (parts_of first.old.contents) first.old.commits.timestamp) first steps
        → posted (first ∷ steps) ≤ (1 + errors steps) * (2 * length (mutations first.old.contents.entries) + 9 + weighed steps) }
    ensures rollback { (first : Step P) (steps : List (Step P))
        → Runs P.ways P.ways.costs (rollback_price P.ways.costs (parts_of first.old.contents)) first steps
        → posted (first ∷ steps) ≤ (1 + errors steps) * (2 * length (mutations first.old.contents.entries) + 9 + weighed steps) }
{
    commits_are_bounded::<P>();
}

/// The plans of this crate are such plans.
pub fn commits_by_plans_are_bounded()
    ensures commit { (first : Step AnyPlan) (steps : List (Step AnyPlan))
        → Runs ⟦<TransactionPlan as Plans>⟧.ways ⟦<TransactionPlan as Plans>⟧.ways.costs (commit_price ⟦<TransactionPlan as Plans>⟧.ways.costs (parts_of first.old.contents) first.old.commits.timestamp) first steps
        → posted (first ∷ steps) ≤ (1 + errors steps) * (2 * length (mutations first.old.contents.entries) + 9 + weighed steps) }
    ensures rollback { (first : Step AnyPlan) (steps : List (Step AnyPlan))
        → Runs ⟦<TransactionPlan as Plans>⟧.ways ⟦<TransactionPlan as Plans>⟧.ways.costs (rollback_price ⟦<TransactionPlan as Plans>⟧.ways.costs (parts_of first.old.contents)) first steps
        → posted (first ∷ steps) ≤ (1 + errors steps) * (2 * length (mutations first.old.contents.entries) + 9 + weighed steps) }
{}

/// The job of k other keys, which is not started, posts no more than k requests.
pub fn jobs_by_plans_are_bounded()
    ensures { (job : SecondaryJob AnyPlan) (plan : Plan) (n : ℕ) → job.stage ≡ Fresh → (others transaction_ways.plan transaction_ways.uncommitted transaction_ways.costs.commits plan job.keys).round job n ≤ length job.keys }
{}

/// Each error of a plan has its cause in what was heard, whatever its stage: where it says that a request was lost, that was; what
/// it says of a region, a key or a lock stands in a reply that was taken. A request to a store that was lost, and an error of a
/// region that a new try may better, it tells only once more requests of a line had failed at their regions than its backoff has
/// attempts.
pub fn plans_fail_for_causes()
    ensures prewrite { FailsForCauses prewrite_plan prewrite_attempts }
    ensures commit { FailsForCauses commit_plan commit_attempts }
    ensures batch_rollback { FailsForCauses rollback_plan rollback_attempts }
{}

/// Where a commit or a rollback fails that goes by such plans, its error has its cause in what was heard; or there was no timestamp,
/// and it is the error with which the oracle refused the tenth ask. Where a Commit of the primary was lost or is out, the answer says
/// that the end is not known, and holds such an error. A rollback that is refused for that names a Commit of the primary that was
/// sent, and one that was lost, where one is marked so.
pub fn failed_calls_have_causes<P>()
where
    P: Caused,
    ensures failed { (options : RetryOptions) (start : Timestamp) (contents : Contents) (c : Followed) (h : List Event) (e : Error)
        → TransactionGives P.ways options start contents c h (Err e) → IsCallExplained (attempts_left options.region_backoff) (undetermined c) h e }
    ensures refused { (plan : Plan) (s : ℕ) (c : Followed) (h : List Event) (t : Ticket)
        → KnowsCommits plan s c h → undetermined c ≡ Some t → PrimarySent plan s h t }
    // One that is marked as lost is the one that is named, and was lost.
    ensures marked { (plan : Plan) (s : ℕ) (c : Followed) (h : List Event) (t : Ticket)
        → MarksLost plan s c h → c.lost ≡ Some t → (undetermined c ≡ Some t) × PrimaryLost plan s h t }
    // A call for a timestamp alone fails so, too, and so does the job of the other keys.
    ensures untimed { (attempts : ℕ) (h : List Event) (e : Error) → WasUntimed h e → IsExplained attempts h e }
    ensures jobs { (plan : Plan) (keys : List Key) (job : SecondaryJob P) (h : List Event) (e : Error)
        → (others P.ways.plan P.ways.uncommitted P.ways.costs.commits plan keys).gives job h (Err e) → HasCause (heard_in h) (IsSpentBy job.retry_options h) (view_of e) }
{}
