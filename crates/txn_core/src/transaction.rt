ghost use Rattle.std.specs.Prelude.{◌≡◌, ◌<◌, ◌^◌, ⊤, IfOk, IfSome, None, Some, Ok, Err, false, length, max, true, is_some};
ghost use Rattle.txn_history.specs.Phase.Phase.{Running};
ghost use Rattle.txn_history.specs.Posted.{HasNumbers, Posted};
ghost use Rattle.txn_history.specs.Turn.{HasEnded, IfEnds, IfKept, turn_of};
ghost use Rattle.txn_history.specs.Turn.Turn.{Ends, Stopped, Waits};
ghost use Rattle.txn_kv.specs.ErrorView.{view_of};
ghost use Rattle.txn_kv.specs.ErrorView.ErrorView.{undetermined as not_known};
ghost use Rattle.txn_kv.specs.Timestamp.{HasVersion, version_of};
ghost use Rattle.txn_kv.specs.declared.errors.Error.TheVariants.{OperationAfterCommitError};
ghost use Rattle.txn_kv.specs.declared.ticket.Ticket.{Ticket as Named};
ghost use Rattle.txn_commit.specs.Committing.{CommitterMoves, IsInRange, MayCommit, StageReady};
ghost use Rattle.txn_commit.specs.Counting.{Begins, call_width, commit_again_costs};
ghost use Rattle.txn_commit.specs.Following.{IsFollowed, undetermined};
ghost use Rattle.txn_commit.specs.Going.{Opens as CallOpens, stage_phase};
ghost use Rattle.txn_commit.specs.Parts.{parts_of};
ghost use Rattle.txn_commit.specs.Sending.{plan_of};
ghost use Rattle.txn_core.specs.Counting.{Keeps, TransactionBegins, commit_price, rollback_price};
ghost use Rattle.txn_core.specs.Going.{BeginMoves, HasFailed, IsCommittedAt, IsJobFor, IsNamed, IsNewCall, IsSameCall, MayBegin, MayGoBack, MayStart, IsUndetermined, TakesUp, TransactionMoves, TransactionReady};
ghost use Rattle.txn_core.specs.Status.{allows_commit, allows_rollback, closing, has_turned_back, status_step};
ghost use Rattle.txn_core.specs.Status.Became.{commits};
ghost use Rattle.txn_core.specs.Transaction.{GivesUp, AnswersAtOnce, IsRefused, locks_nothing, begun, commit_outcome, has_given_up, is_open, is_waiting, moved, moved_by, rolled_status};
ghost use Rattle.txn_core.specs.Waiting.{Follows, HandsOut, Opens, Rests};
ghost use Rattle.txn_core.specs.declared.status.Status.TheVariants as statuses;
ghost use Rattle.txn_core.specs.declared.transaction.Work.TheVariants as works;
ghost use Rattle.txn_core.specs.declared.txn_answer.TxnAnswer.TheVariants as answers;

mod events;
mod hearts;
mod writes;

use crate::close_answer::CloseAnswer;
use crate::options::TransactionOptions;
use crate::status::Status;
use crate::ttl::txn_lock_ttl;
use crate::txn_answer::TxnAnswer;
use std::alloc::Global;
use std::marker::{Model, PhantomData};
use std::mem;
use txn_buffer::Buffer;
use txn_commit::{
    CommitParts, CommitterAnswer, CommitterCall, Plans, PrimaryCommits, SecondaryJob,
};
use txn_kv::{Error, Items, Key, NoMemory, Outbox, Progress, Ticket, Timestamp};
use txn_merge::RetryOptions;
use txn_region::PdClient;
use writes::{done, refused};

type Turn<P> = Result<Progress<TxnAnswer<P>>, NoMemory>;

/// The call that is open, if one is.
#[derive(Drop)]
enum Work<P> {
    Idle,
    Open(CommitterCall<P>),
    /// A call gave up for want of memory, and so does each later one.
    GaveUp,
}

/// A transaction that has begun: it buffers writes until they are committed or rolled back.
///
/// A call answers at once, or goes on by the events that it asked for. One call is open at a time. A call that gave up for want
/// of memory gives up ever after, and so does each later one.
pub struct Transaction<C, P> {
    timestamp: Timestamp,
    options: TransactionOptions,
    /// The clock as the start timestamp came.
    started: u64,
    status: Status,
    buffer: Buffer,
    commits: PrimaryCommits,
    work: Work<P>,
    /// The most parts that a request of a call was cut into that is let go.
    width: u64,
    alloc: Global,
    client: PhantomData<C>,
}

impl<C: Drop, P: Drop> Drop for Transaction<C, P> {
    fn drop(self) {
        let Transaction {
            timestamp: _,
            options,
            started: _,
            status,
            buffer,
            commits,
            work,
            width: _,
            alloc: _,
            client: _,
        } = self;
        drop(options);
        drop(status);
        drop(buffer);
        drop(commits);
        drop(work);
    }
}

impl<C, P> Model for Transaction<C, P> {
    ghost use Rattle.txn_core.specs.Transaction.{Standing};

    ghost Value = { Standing P };

    ghost view = { λ t. record { start = t.timestamp; options = t.options; began = t.started; status = t.status; contents = t.buffer; commits = t.commits; work = t.work; width = t.width } };
}

impl<C, P> Transaction<C, P>
where
    C: PdClient,
    P: Plans,
{
    pub fn new(
        alloc: Global,
        timestamp: Timestamp,
        options: TransactionOptions,
        now: u64,
    ) -> Result<Self, NoMemory>
        ensures state { IfOk result (λ t. t ≡ begun timestamp options now) }
    {
        Ok(Transaction {
            timestamp,
            started: now,
            status: Status::opening(options.read_only),
            buffer: Buffer::new(alloc, options.is_pessimistic()),
            commits: PrimaryCommits::new(alloc),
            work: Work::Idle,
            width: 0,
            options,
            alloc,
            client: PhantomData,
        })
    }

    pub fn start_timestamp(&self) -> Timestamp
        ensures { result ≡ self.now.start }
    {
        self.timestamp
    }

    /// How far it has come.
    pub fn status(&self) -> Status
        ensures { result ≡ self.now.status }
    {
        self.status
    }

    /// Whether a call is open.
    pub fn is_busy(&self) -> bool
        ensures { result ≡ is_open self.now.work }
    {
        matches!(self.work, Work::Open(_))
    }

    /// Lets the transaction go. A call that is open goes on.
    pub fn close(&mut self) -> CloseAnswer
        ensures answer { result ≡ closing self.old.status self.old.options.check_level }
        ensures state { self.new ≡ record self.old { status = statuses.Dropped } }
    {
        let answer = self.status.closing(self.options.check_level);
        self.status = Status::Dropped;
        answer
    }

    /// Commits what was written and locked. Once a Commit of the primary was sent, a further call sends it again.
    pub fn commit(&mut self, pd: &mut C, now: u64, out: &mut Outbox) -> Turn<P>
        requires idle { is_open self.old.work ≡ false }
        requires ready { TransactionReady P.ways self.old }
        requires numbers { HasNumbers out.old }
        requires clock { now < 2 ^ 44 }
        ensures refused { allows_commit self.old.status ≡ false → IsRefused OperationAfterCommitError self.old self.new (turn_of result) × (out.new ≡ out.old) }
        ensures empty { allows_commit self.old.status ≡ true → parts_of self.old.contents ≡ None → AnswersAtOnce (answers.Committed None None) (turn_of result) × (out.new ≡ out.old) }
        ensures moves { allows_commit self.old.status ≡ true → TransactionMoves P.ways (λ h. ⊤) (λ h. h) self.old self.new out.old out.new (turn_of result) }
        ensures counts { TransactionBegins P.ways P.ways.costs (commit_price P.ways.costs (parts_of self.old.contents) self.old.commits.timestamp) self.old self.new out.old out.new (turn_of result) }
        ensures status { self.old.work ≡ works.Idle → self.new.status ≡ status_step self.old.status (commits (commit_outcome (turn_of result)) (is_some (parts_of self.old.contents))) }
        ensures kept { self.new ≡ record self.old { status = self.new.status; commits = self.new.commits; work = self.new.work; width = self.new.width } }
        ensures follows { IfKept (turn_of result) (IsFollowed out.old self.old.commits self.new.commits) }
        ensures gives_up { GivesUp self.old self.new (turn_of result) }
        ensures busy { is_open self.new.work ≡ is_waiting (turn_of result) }
        ensures opens { Opens P.ways self.new out.old out.new (turn_of result) }
        ensures job { IfEnds (turn_of result) (HandsOut P.ways.plan) }
        ensures ready { TransactionReady P.ways self.new }
        ensures numbers { HasNumbers out.new }
    {
        if self.has_given_up() {
            return Err(NoMemory);
        }
        if !self.status.allows_commit() {
            return Ok(refused(Error::OperationAfterCommitError));
        }
        self.begin(Status::StartedCommit);
        match self.parts()? {
            None => Ok(self.nothing_committed()),
            Some(parts) => self.start_commit(parts, pd, now, out),
        }
    }

    /// Takes back what a failed commit may have left. Refused where a Commit of the primary was lost: whether it was served is not
    /// known.
    pub fn rollback(&mut self, pd: &mut C, now: u64, out: &mut Outbox) -> Turn<P>
        requires idle { is_open self.old.work ≡ false }
        requires ready { TransactionReady P.ways self.old }
        requires numbers { HasNumbers out.old }
        requires clock { now < 2 ^ 44 }
        ensures refused { allows_rollback self.old.status ≡ false → IsRefused OperationAfterCommitError self.old self.new (turn_of result) × (out.new ≡ out.old) }
        ensures undetermined { (t : Named) → allows_rollback self.old.status ≡ true → undetermined self.old.commits ≡ Some t → IsUndetermined t (turn_of result) × (self.new ≡ record self.old { work = self.new.work }) × (out.new ≡ out.old) }
        ensures empty { allows_rollback self.old.status ≡ true → undetermined self.old.commits ≡ None → locks_nothing self.old.contents ≡ true → AnswersAtOnce answers.Unit (turn_of result) × (out.new ≡ out.old) }
        ensures moves { allows_rollback self.old.status ≡ true → undetermined self.old.commits ≡ None → TransactionMoves P.ways (λ h. ⊤) (λ h. h) self.old self.new out.old out.new (turn_of result) }
        ensures counts { TransactionBegins P.ways P.ways.costs (rollback_price P.ways.costs (parts_of self.old.contents)) self.old self.new out.old out.new (turn_of result) }
        ensures status { self.old.work ≡ works.Idle → self.new.status ≡ rolled_status self.old.status (is_some (undetermined self.old.commits)) (turn_of result) }
        ensures kept { self.new ≡ record self.old { status = self.new.status; commits = self.new.commits; work = self.new.work; width = self.new.width } }
        ensures commits { self.new.commits ≡ self.old.commits }
        ensures gives_up { GivesUp self.old self.new (turn_of result) }
        ensures busy { is_open self.new.work ≡ is_waiting (turn_of result) }
        ensures opens { Opens P.ways self.new out.old out.new (turn_of result) }
        ensures job { IfEnds (turn_of result) (HandsOut P.ways.plan) }
        ensures ready { TransactionReady P.ways self.new }
        ensures numbers { HasNumbers out.new }
    {
        if self.has_given_up() {
            return Err(NoMemory);
        }
        if !self.status.allows_rollback() {
            return Ok(refused(Error::OperationAfterCommitError));
        }
        match self.lost_commit() {
            Some(ticket) => self.refuse_rollback(ticket),
            None => self.go_back(pd, now, out),
        }
    }

    fn start_commit(
        &mut self,
        parts: CommitParts,
        pd: &mut C,
        now: u64,
        out: &mut Outbox,
    ) -> Turn<P>
        requires aside { self.old.work ≡ works.GaveUp }
        requires start { HasVersion self.old.start }
        requires forward { has_turned_back self.old.status ≡ false }
        requires parts { parts_of self.old.contents ≡ Some parts }
        requires numbers { HasNumbers out.old }
        requires clock { now < 2 ^ 44 }
        ensures moves { BeginMoves P.ways (MayBegin self.old parts) self.old self.new out.old out.new (turn_of result) }
        ensures counts { TransactionBegins P.ways P.ways.costs (commit_price P.ways.costs (Some parts) self.old.commits.timestamp) self.old self.new out.old out.new (turn_of result) }
        ensures status { self.new.status ≡ moved_by self.old.status (turn_of result) }
        ensures kept { self.new ≡ record self.old { status = self.new.status; commits = self.new.commits; work = self.new.work; width = self.new.width } }
        ensures follows { IfKept (turn_of result) (IsFollowed out.old self.old.commits self.new.commits) }
        ensures stops { turn_of result ≡ Stopped → self.new.work ≡ works.GaveUp }
        ensures busy { is_open self.new.work ≡ is_waiting (turn_of result) }
        ensures opens { Opens P.ways self.new out.old out.new (turn_of result) }
        ensures job { IfEnds (turn_of result) (HandsOut P.ways.plan) }
        ensures ready { TransactionReady P.ways self.new }
        ensures numbers { HasNumbers out.new }
    {
        let mut call = self.committer(parts);
        match self.start_call(&mut call, pd, now, out) {
            Ok(progress) => self.go_on(call, progress),
            Err(_) => self.stop(call),
        }
    }

    /// Prewrites, or sends the Commit of the primary again once one was sent.
    fn start_call(
        &mut self,
        call: &mut CommitterCall<P>,
        pd: &mut C,
        now: u64,
        out: &mut Outbox,
    ) -> Result<Progress<CommitterAnswer>, NoMemory>
        requires start { HasVersion self.old.start }
        requires call { call.old.start ≡ self.old.start }
        requires numbers { HasNumbers out.old }
        requires clock { now < 2 ^ 44 }
        ensures moves { CommitterMoves P.ways (MayStart (plan_of call.old.parts) (version_of call.old.start) self.old.commits) (λ h. h) call.old call.new self.old.commits self.new.commits out.old out.new (turn_of result) }
        ensures counts { Begins P.ways P.ways.costs (commit_price P.ways.costs (Some call.old.parts) self.old.commits.timestamp) call.old call.new out.old out.new (turn_of result) }
        ensures job { IsSameCall call.old call.new }
        ensures kept { self.new ≡ record self.old { commits = self.new.commits } }
        ensures follows { IfKept (turn_of result) (IsFollowed out.old self.old.commits self.new.commits) }
        ensures opens { CallOpens P.ways call.new out.old out.new (turn_of result) }
        ensures version { IfEnds (turn_of result) IsInRange }
        ensures ready { StageReady P.ways call.new.stage }
        ensures numbers { HasNumbers out.new }
    {
        match self.commit_time() {
            Some(timestamp) => self.commit_again(call, timestamp, pd, now, out),
            None => {
                let ttl = txn_lock_ttl(self.buffer.get_write_size(), self.started, now);
                call.prewrite(pd, now, ttl, out)
            }
        }
    }

    fn commit_again(
        &mut self,
        call: &mut CommitterCall<P>,
        timestamp: Timestamp,
        pd: &mut C,
        now: u64,
        out: &mut Outbox,
    ) -> Result<Progress<CommitterAnswer>, NoMemory>
        requires start { HasVersion call.old.start }
        requires timestamp { HasVersion timestamp }
        requires numbers { HasNumbers out.old }
        requires clock { now < 2 ^ 44 }
        ensures moves { CommitterMoves P.ways (MayCommit (plan_of call.old.parts) (version_of call.old.start) timestamp self.old.commits) (λ h. h) call.old call.new self.old.commits self.new.commits out.old out.new (turn_of result) }
        ensures counts { Begins P.ways P.ways.costs (commit_again_costs P.ways.costs) call.old call.new out.old out.new (turn_of result) }
        ensures job { IsSameCall call.old call.new }
        ensures kept { self.new ≡ record self.old { commits = self.new.commits } }
        ensures follows { IfKept (turn_of result) (IsFollowed out.old self.old.commits self.new.commits) }
        ensures opens { CallOpens P.ways call.new out.old out.new (turn_of result) }
        ensures version { IfEnds (turn_of result) IsInRange }
        ensures ready { StageReady P.ways call.new.stage }
        ensures numbers { HasNumbers out.new }
    {
        call.commit_again(&mut self.commits, timestamp, pd, now, out)
    }

    /// Whether the transaction is committed is not known, since this Commit of its primary was lost or is not refused.
    fn refuse_rollback(&mut self, ticket: Ticket) -> Turn<P>
        ensures answer { IsUndetermined ticket (turn_of result) }
        ensures state { self.new ≡ record self.old { work = self.new.work } }
        ensures rests { Rests P.ways self.new (turn_of result) }
        ensures stops { turn_of result ≡ Stopped → self.new.work ≡ works.GaveUp }
        ensures busy { is_open self.new.work ≡ false }
    {
        self.set_work(Work::GaveUp);
        let error = self.undetermined(Error::GrpcAPI(ticket))?;
        self.set_work(Work::Idle);
        Ok(refused(error))
    }

    fn go_back(&mut self, pd: &mut C, now: u64, out: &mut Outbox) -> Turn<P>
        requires idle { is_open self.old.work ≡ false }
        requires start { HasVersion self.old.start }
        requires numbers { HasNumbers out.old }
        requires clock { now < 2 ^ 44 }
        ensures empty { locks_nothing self.old.contents ≡ true → AnswersAtOnce answers.Unit (turn_of result) × (out.new ≡ out.old) }
        ensures moves { BeginMoves P.ways (MayGoBack self.old) self.old self.new out.old out.new (turn_of result) }
        ensures counts { TransactionBegins P.ways P.ways.costs (rollback_price P.ways.costs (parts_of self.old.contents)) self.old self.new out.old out.new (turn_of result) }
        ensures status { self.new.status ≡ moved_by statuses.StartedRollback (turn_of result) }
        ensures kept { self.new ≡ record self.old { status = self.new.status; commits = self.new.commits; work = self.new.work; width = self.new.width } }
        ensures commits { self.new.commits ≡ self.old.commits }
        ensures stops { turn_of result ≡ Stopped → self.new.work ≡ works.GaveUp }
        ensures busy { is_open self.new.work ≡ is_waiting (turn_of result) }
        ensures opens { Opens P.ways self.new out.old out.new (turn_of result) }
        ensures job { IfEnds (turn_of result) (HandsOut P.ways.plan) }
        ensures ready { TransactionReady P.ways self.new }
        ensures numbers { HasNumbers out.new }
    {
        self.begin(Status::StartedRollback);
        match self.parts()? {
            None => Ok(self.nothing_rolled_back()),
            Some(parts) => self.start_rollback(parts, pd, now, out),
        }
    }

    fn start_rollback(
        &mut self,
        parts: CommitParts,
        pd: &mut C,
        now: u64,
        out: &mut Outbox,
    ) -> Turn<P>
        requires aside { self.old.work ≡ works.GaveUp }
        requires start { HasVersion self.old.start }
        requires parts { parts_of self.old.contents ≡ Some parts }
        requires numbers { HasNumbers out.old }
        requires clock { now < 2 ^ 44 }
        ensures empty { parts.locks ≡ false → AnswersAtOnce answers.Unit (turn_of result) × (out.new ≡ out.old) }
        ensures moves { BeginMoves P.ways (λ h. MayBegin self.old parts h × (undetermined self.old.commits ≡ None)) self.old self.new out.old out.new (turn_of result) }
        ensures counts { TransactionBegins P.ways P.ways.costs (rollback_price P.ways.costs (Some parts)) self.old self.new out.old out.new (turn_of result) }
        ensures status { self.new.status ≡ moved_by self.old.status (turn_of result) }
        ensures kept { self.new ≡ record self.old { status = self.new.status; commits = self.new.commits; work = self.new.work; width = self.new.width } }
        ensures commits { self.new.commits ≡ self.old.commits }
        ensures stops { turn_of result ≡ Stopped → self.new.work ≡ works.GaveUp }
        ensures busy { is_open self.new.work ≡ is_waiting (turn_of result) }
        ensures opens { Opens P.ways self.new out.old out.new (turn_of result) }
        ensures job { IfEnds (turn_of result) (HandsOut P.ways.plan) }
        ensures ready { TransactionReady P.ways self.new }
        ensures numbers { HasNumbers out.new }
    {
        if !parts.locks {
            return Ok(self.nothing_rolled_back());
        }
        let mut call = self.committer(parts);
        match call.roll_back(pd, now, out) {
            Ok(progress) => self.go_on(call, progress),
            Err(_) => self.stop(call),
        }
    }

    /// Keeps a call that waits, and answers for one that has ended.
    fn go_on(&mut self, call: CommitterCall<P>, progress: Progress<CommitterAnswer>) -> Turn<P>
        requires aside { self.old.work ≡ works.GaveUp }
        requires start { HasVersion self.old.start }
        requires call { (call.start ≡ self.old.start) × StageReady P.ways call.stage }
        requires runs { turn_of (Ok progress) ≡ Waits → stage_phase P.ways call.stage ≡ Running }
        requires version { IfEnds (turn_of (Ok progress)) IsInRange }
        ensures takes_up { (o : Posted) → TakesUp P.ways call self.old self.new o (turn_of (Ok progress)) (turn_of result) }
        ensures keeps { Keeps P.ways call self.old self.new }
        ensures status { self.new.status ≡ moved_by self.old.status (turn_of result) }
        ensures kept { self.new ≡ record self.old { status = self.new.status; work = self.new.work; width = self.new.width } }
        ensures stops { turn_of result ≡ Stopped → self.new.work ≡ works.GaveUp }
        ensures busy { is_open self.new.work ≡ is_waiting (turn_of result) }
        ensures follows { Follows P.ways call (turn_of (Ok progress)) self.old self.new (turn_of result) }
        ensures job { IfEnds (turn_of result) (HandsOut P.ways.plan) }
        ensures ready { TransactionReady P.ways self.new }
    {
        match progress {
            Progress::Waiting => {
                self.set_work(Work::Open(call));
                Ok(Progress::Waiting)
            }
            Progress::Done(Ok(answer)) => Ok(self.answer(call, answer)),
            Progress::Done(Err(error)) => self.fail(call, error),
        }
    }

    fn answer(&mut self, call: CommitterCall<P>, answer: CommitterAnswer) -> Progress<TxnAnswer<P>>
        requires start { HasVersion self.old.start }
        requires version { IsInRange (Ok answer) }
        ensures takes_up { (o : Posted) → TakesUp P.ways call self.old self.new o (Ends (Ok answer)) (turn_of (Ok result)) }
        ensures ended { HasEnded (turn_of (Ok result)) }
        ensures status { self.new.status ≡ moved_by self.old.status (turn_of (Ok result)) }
        ensures kept { self.new ≡ record self.old { status = self.new.status; work = works.Idle; width = self.new.width } }
        ensures job { IfEnds (turn_of (Ok result)) (HandsOut P.ways.plan) }
        ensures width { self.new.width ≡ max self.old.width (call_width P.ways call) }
    {
        self.let_go(&call);
        match answer {
            CommitterAnswer::Committed(timestamp) => {
                self.reach(Status::Committed);
                self.committed(timestamp, call.into_secondaries())
            }
            CommitterAnswer::Checked => {
                self.reach(Status::Committed);
                Progress::Done(Ok(TxnAnswer::Committed(None, None)))
            }
            CommitterAnswer::RolledBack => {
                self.reach(Status::Rolledback);
                Progress::Done(Ok(TxnAnswer::Unit))
            }
        }
    }

    /// The primary is committed. A job is left for the other keys.
    fn committed(&self, timestamp: Timestamp, keys: Items<Key>) -> Progress<TxnAnswer<P>>
        ensures { IsCommittedAt self.now.options.retry_options self.now.start timestamp keys (turn_of (Ok result)) }
    {
        Progress::Done(Ok(TxnAnswer::Committed(Some(timestamp), self.job(timestamp, keys))))
    }

    fn job(&self, timestamp: Timestamp, keys: Items<Key>) -> Option<SecondaryJob<P>>
        ensures { IsJobFor self.now.options.retry_options self.now.start timestamp keys result }
    {
        if keys.as_slice().is_empty() {
            return None;
        }
        Some(SecondaryJob::new(self.alloc, self.timestamp, timestamp, keys, self.retries()))
    }

    /// A commit or a rollback ended so. Where a Commit of the primary was lost, nobody knows whether it was served.
    fn fail(&mut self, call: CommitterCall<P>, error: Error) -> Turn<P>
        requires aside { self.old.work ≡ works.GaveUp }
        ensures takes_up { (o : Posted) → TakesUp P.ways call self.old self.new o (Ends (Err error)) (turn_of result) }
        ensures fails { HasFailed (turn_of result) }
        ensures kept { self.new ≡ record self.old { work = self.new.work; width = self.new.width } }
        ensures width { self.new.width ≡ max self.old.width (call_width P.ways call) }
        ensures rests { Rests P.ways self.new (turn_of result) }
        ensures stops { turn_of result ≡ Stopped → self.new.work ≡ works.GaveUp }
        ensures busy { is_open self.new.work ≡ false }
    {
        self.note_width(&call);
        let error = self.name_failure(error)?;
        self.set_work(Work::Idle);
        Ok(refused(error))
    }

    fn name_failure(&self, error: Error) -> Result<Error, NoMemory>
        ensures { IfOk result (IsNamed (undetermined self.now.commits) error) }
    {
        match self.lost_commit() {
            None => Ok(error),
            Some(_) => self.undetermined(error),
        }
    }

    fn undetermined(&self, error: Error) -> Result<Error, NoMemory>
        ensures { IfOk result (λ e. view_of e ≡ not_known (view_of error)) }
    {
        Ok(Error::UndeterminedError(Box::new(self.alloc, error)?))
    }

    fn committer(&self, parts: CommitParts) -> CommitterCall<P>
        ensures { IsNewCall self.now.options.retry_options self.now.start parts result }
    {
        CommitterCall::new(self.alloc, self.timestamp, parts, self.retries())
    }

    fn retries(&self) -> RetryOptions
        ensures { result ≡ self.now.options.retry_options }
    {
        RetryOptions::new(
            self.options.retry_options.region_backoff,
            self.options.retry_options.lock_backoff,
        )
    }

    /// A commit or a rollback begins. Until it has gone on it has given up.
    fn begin(&mut self, status: Status)
        ensures { self.new ≡ record self.old { status = status; work = works.GaveUp } }
    {
        self.status = status;
        self.set_work(Work::GaveUp);
    }

    fn nothing_committed(&mut self) -> Progress<TxnAnswer<P>>
        ensures answer { turn_of (Ok result) ≡ Ends (Ok (answers.Committed None None)) }
        ensures state { self.new ≡ record self.old { work = works.Idle } }
    {
        self.set_work(Work::Idle);
        Progress::Done(Ok(TxnAnswer::Committed(None, None)))
    }

    fn nothing_rolled_back(&mut self) -> Progress<TxnAnswer<P>>
        ensures answer { turn_of (Ok result) ≡ Ends (Ok answers.Unit) }
        ensures state { self.new ≡ record self.old { status = moved self.old.status statuses.Rolledback; work = works.Idle } }
    {
        self.set_work(Work::Idle);
        self.reach(Status::Rolledback);
        done()
    }

    /// The status goes there, if it may: where the transaction was let go it stays so.
    fn reach(&mut self, next: Status)
        ensures { self.new ≡ record self.old { status = moved self.old.status next } }
    {
        if self.status.may_move_to(next) {
            self.status = next;
        }
    }

    fn wait(&mut self) -> Progress<TxnAnswer<P>>
        ensures answer { turn_of (Ok result) ≡ Waits }
        ensures state { self.new ≡ record self.old { work = works.Idle } }
    {
        self.set_work(Work::Idle);
        Progress::Waiting
    }

    /// The call that is open, for a while: until it is set back the transaction has given up.
    fn take_work(&mut self) -> Work<P>
        ensures work { result ≡ self.old.work }
        ensures state { self.new ≡ record self.old { work = works.GaveUp } }
    {
        mem::replace(&mut self.work, Work::GaveUp)
    }

    fn set_work(&mut self, work: Work<P>)
        ensures { self.new ≡ record self.old { work = work } }
    {
        self.work = work;
    }

    fn parts(&self) -> Result<Option<CommitParts>, NoMemory>
        ensures { IfOk result (λ parts. parts ≡ parts_of self.now.contents) }
    {
        CommitParts::of_buffer(self.alloc, &self.buffer)
    }

    /// The timestamp that the Commits of the primary name, once one was sent.
    fn commit_time(&self) -> Option<Timestamp>
        ensures time { result ≡ self.now.commits.timestamp }
        ensures version { IfSome result HasVersion }
    {
        self.commits.timestamp()
    }

    /// How many Commits of the primary are neither refused nor lost.
    pub fn count_commits_out(&self) -> usize
        ensures { result ≡ length self.now.commits.out }
    {
        self.commits.count_out()
    }

    /// Whether a Commit of the primary was lost.
    pub fn has_lost_commit(&self) -> bool
        ensures { result ≡ is_some self.now.commits.lost }
    {
        self.commits.has_lost()
    }

    /// A Commit of the primary that was lost, or that is not refused: by it the transaction may be committed.
    pub fn lost_commit(&self) -> Option<Ticket>
        ensures { result ≡ undetermined self.now.commits }
    {
        self.commits.undetermined()
    }

    fn has_given_up(&self) -> bool
        ensures { result ≡ has_given_up self.now.work }
    {
        matches!(self.work, Work::GaveUp)
    }

    /// The call has ended. No other is open then.
    fn let_go(&mut self, call: &CommitterCall<P>)
        ensures { self.new ≡ record self.old { work = works.Idle; width = max self.old.width (call_width P.ways call.now) } }
    {
        self.note_width(call);
        self.set_work(Work::Idle);
    }

    fn note_width(&mut self, call: &CommitterCall<P>)
        ensures { self.new ≡ record self.old { width = max self.old.width (call_width P.ways call.now) } }
    {
        self.width = self.width.max(call.width());
    }

    /// The call gave up, and so does the transaction.
    fn stop(&mut self, call: CommitterCall<P>) -> Turn<P>
        ensures turn { turn_of result ≡ Stopped }
        ensures state { self.new ≡ record self.old { work = works.GaveUp; width = max self.old.width (call_width P.ways call) } }
    {
        self.note_width(&call);
        self.give_up()
    }

    fn give_up(&mut self) -> Turn<P>
        ensures turn { turn_of result ≡ Stopped }
        ensures state { self.new ≡ record self.old { work = works.GaveUp } }
    {
        self.set_work(Work::GaveUp);
        Err(NoMemory)
    }
}
