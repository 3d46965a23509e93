//! Calls that send requests: each goes on until it has ended.
ghost use Rattle.std.specs.Prelude.{◌≡◌, IfOk, IfSome, Err, false, true};
ghost use Rattle.txn_blocking.specs.Blocking.{HasCome, HasGiven, IsNew, IsSame, job_in, time_in, unit_in};
ghost use Rattle.txn_client.specs.Calls.{AnswerReady};
ghost use Rattle.txn_client.specs.declared.client_call.Stage.TheVariants as stages;
ghost use Rattle.txn_commit.specs.Jobs.{JobReady};
ghost use Rattle.txn_core.specs.Going.{TransactionReady};
ghost use Rattle.txn_core.specs.Options.{AreDefault, usual_retries};
ghost use Rattle.txn_core.specs.Status.{allows_commit, allows_rollback};
ghost use Rattle.txn_core.specs.Transaction.{is_open, moved_by};
ghost use Rattle.txn_core.specs.Waiting.{HandsOut};
ghost use Rattle.txn_core.specs.declared.options.TransactionKind.TheVariants as kinds;
ghost use Rattle.txn_core.specs.declared.options.TransactionOptions.{TransactionOptions as Options};
ghost use Rattle.txn_history.specs.Posted.{HasNumbers};
ghost use Rattle.txn_history.specs.Turn.Turn.{Ends};
ghost use Rattle.txn_kv.specs.Timestamp.{HasVersion};
ghost use Rattle.txn_kv.specs.declared.errors.Error.TheVariants.{InternalError, OperationAfterCommitError};
ghost use Rattle.txn_kv.specs.declared.errors.Internal.TheVariants.{WrongReply};

use crate::client_over::{ClientOver, PlacementClient, TransactionOver};
use crate::transport::{Answer, Transport};
use txn_client::{ClientAnswer, ClientCall};
use txn_commit::{Plans, SecondaryJob};
use txn_core::{Transaction, TransactionOptions, TxnAnswer};
use txn_kv::{Error, Internal, NoMemory, Outbox, Progress, Timestamp};

/// An answer of another kind than the call's.
fn odd() -> Error
    ensures { result ≡ InternalError WrongReply }
{
    Error::InternalError {
        what: Internal::WrongReply,
    }
}

/// What a commit answers, and the job that it leaves.
fn apart<P: Drop>(
    answer: txn_kv::Result<TxnAnswer<P>>,
) -> (txn_kv::Result<Option<Timestamp>>, Option<SecondaryJob<P>>)
    ensures answer { result.0 ≡ time_in answer }
    ensures job { result.1 ≡ job_in answer }
{
    match answer {
        Ok(TxnAnswer::Committed(timestamp, job)) => (Ok(timestamp), job),
        Ok(_) => (Err(odd()), None),
        Err(error) => (Err(error), None),
    }
}

/// What a rollback answers.
fn undone<P: Drop>(answer: txn_kv::Result<TxnAnswer<P>>) -> txn_kv::Result<()>
    ensures { result ≡ unit_in answer }
{
    match answer {
        Ok(TxnAnswer::Unit) => Ok(()),
        Ok(_) => Err(odd()),
        Err(error) => Err(error),
    }
}

impl<T, P> ClientOver<T, P>
where
    T: Transport,
    P: Plans,
{
    /// Begins an optimistic transaction with the usual options.
    pub fn begin_optimistic(&mut self) -> Answer<TransactionOver<P>>
        ensures { IfOk result (λ answer. IfOk answer (λ t. (options : Options) × AreDefault kinds.Optimistic usual_retries options × IsNew options t)) }
    {
        self.begin_with_options(TransactionOptions::new_optimistic())
    }

    /// Begins a transaction with these options.
    pub fn begin_with_options(&mut self, options: TransactionOptions) -> Answer<TransactionOver<P>>
        ensures { IfOk result (λ answer. IfOk answer (IsNew options)) }
    {
        let mut call = self.client.begin_with_options(options)?;
        match self.ask(&mut call)? {
            Ok(ClientAnswer::Begun(inner)) => Ok(Ok(TransactionOver { inner })),
            Ok(ClientAnswer::Time(_)) => Ok(Err(odd())),
            Err(error) => Ok(Err(error)),
        }
    }

    /// A timestamp of now.
    pub fn current_timestamp(&mut self) -> Answer<Timestamp>
        ensures { IfOk result (λ answer. IfOk answer HasVersion) }
    {
        let mut call: ClientCall<PlacementClient, P> = self.client.current_timestamp()?;
        match self.ask(&mut call)? {
            Ok(ClientAnswer::Time(timestamp)) => Ok(Ok(timestamp)),
            Ok(ClientAnswer::Begun(_)) => Ok(Err(odd())),
            Err(error) => Ok(Err(error)),
        }
    }

    /// Has a call that is not started run to its end.
    fn ask(
        &mut self,
        call: &mut ClientCall<PlacementClient, P>,
    ) -> Answer<ClientAnswer<PlacementClient, P>>
        requires fresh { call.old.stage ≡ stages.Fresh }
        ensures wanted { IfOk result (λ answer. IfOk answer (HasGiven call.old)) }
        ensures ready { IfOk result (AnswerReady P.ways) }
    {
        let mut out = self.outbox()?;
        let now = self.transport.now();
        call.start(self.client.pd(), now, &mut out)?;
        for at in 0..usize::MAX {
            let Some(arrival) = self.carry_out(&out, at) else {
                return Err(NoMemory);
            };
            let now = self.transport.now();
            match call.tell(arrival, self.client.pd(), now, &mut out)? {
                Progress::Waiting => {}
                Progress::Done(answer) => return Ok(answer),
            }
        }
        Err(NoMemory)
    }

    /// Commits what was written and locked, and gives the timestamp at which it is committed. None where nothing was to be.
    ///
    /// After an `UndeterminedError` the transaction may be committed. A further call sends the Commit again, and tells.
    pub fn commit(&mut self, transaction: &mut TransactionOver<P>) -> Answer<Option<Timestamp>>
        ensures refused { allows_commit transaction.old.status ≡ false → IfOk result (λ answer. answer ≡ Err OperationAfterCommitError) × (transaction.new ≡ transaction.old) }
        ensures status { allows_commit transaction.old.status ≡ true → IfOk result (HasCome transaction.new.status) }
        ensures same { IsSame transaction.old transaction.new }
    {
        if transaction.inner.is_busy() {
            return Err(NoMemory);
        }
        let answer = self.run_commit(&mut transaction.inner)?;
        let (answer, job) = apart(answer);
        self.commit_others(job);
        Ok(answer)
    }

    /// Takes back what a failed commit may have left. Refused after an `UndeterminedError`.
    pub fn rollback(&mut self, transaction: &mut TransactionOver<P>) -> Answer<()>
        ensures refused { allows_rollback transaction.old.status ≡ false → IfOk result (λ answer. answer ≡ Err OperationAfterCommitError) × (transaction.new ≡ transaction.old) }
        ensures same { IsSame transaction.old transaction.new }
    {
        if transaction.inner.is_busy() {
            return Err(NoMemory);
        }
        let answer = self.run_rollback(&mut transaction.inner)?;
        Ok(undone(answer))
    }

    fn run_commit(
        &mut self,
        transaction: &mut Transaction<PlacementClient, P>,
    ) -> Answer<TxnAnswer<P>>
        requires idle { is_open transaction.old.work ≡ false }
        requires ready { TransactionReady P.ways transaction.old }
        ensures refused { allows_commit transaction.old.status ≡ false → IfOk result (λ answer. answer ≡ Err OperationAfterCommitError) × (transaction.new ≡ transaction.old) }
        ensures status { allows_commit transaction.old.status ≡ true → IfOk result (λ answer. HasCome transaction.new.status (time_in answer)) }
        ensures same { IsSame transaction.old transaction.new }
        ensures job { IfOk result (HandsOut P.ways.plan) }
        ensures ready { TransactionReady P.ways transaction.new }
    {
        let mut out = self.outbox()?;
        let now = self.transport.now();
        match transaction.commit(self.client.pd(), now, &mut out)? {
            Progress::Waiting => self.finish(transaction, &mut out),
            Progress::Done(answer) => Ok(answer),
        }
    }

    fn run_rollback(
        &mut self,
        transaction: &mut Transaction<PlacementClient, P>,
    ) -> Answer<TxnAnswer<P>>
        requires idle { is_open transaction.old.work ≡ false }
        requires ready { TransactionReady P.ways transaction.old }
        ensures refused { allows_rollback transaction.old.status ≡ false → IfOk result (λ answer. answer ≡ Err OperationAfterCommitError) × (transaction.new ≡ transaction.old) }
        ensures same { IsSame transaction.old transaction.new }
        ensures ready { TransactionReady P.ways transaction.new }
    {
        let mut out = self.outbox()?;
        let now = self.transport.now();
        match transaction.rollback(self.client.pd(), now, &mut out)? {
            Progress::Waiting => self.finish(transaction, &mut out),
            Progress::Done(answer) => Ok(answer),
        }
    }

    /// Has the open call of a transaction run to its end.
    fn finish(
        &mut self,
        transaction: &mut Transaction<PlacementClient, P>,
        out: &mut Outbox,
    ) -> Answer<TxnAnswer<P>>
        requires ready { TransactionReady P.ways transaction.old }
        requires numbers { HasNumbers out.old }
        ensures status { IfOk result (λ answer. transaction.new.status ≡ moved_by transaction.old.status (Ends answer)) }
        ensures same { IsSame transaction.old transaction.new }
        ensures job { IfOk result (HandsOut P.ways.plan) }
        ensures ready { TransactionReady P.ways transaction.new }
    {
        for at in 0..usize::MAX {
            let Some(arrival) = self.carry_out(out, at) else {
                return Err(NoMemory);
            };
            let now = self.transport.now();
            match transaction.tell(arrival, self.client.pd(), now, out)? {
                Progress::Waiting => {}
                Progress::Done(answer) => return Ok(answer),
            }
        }
        Err(NoMemory)
    }

    /// Commits the other keys. Its errors are nobody's: whoever meets a lock that stays finds the primary committed.
    fn commit_others(&mut self, job: Option<SecondaryJob<P>>)
        requires { IfSome job (JobReady P.ways.plan) }
    {
        if let Some(mut job) = job {
            let _ = self.run_job(&mut job);
        }
    }

    fn run_job(&mut self, job: &mut SecondaryJob<P>) -> std::result::Result<(), NoMemory>
        requires { JobReady P.ways.plan job.old }
    {
        let mut out = self.outbox()?;
        let now = self.transport.now();
        if let Progress::Done(_) = job.start(self.client.pd(), now, &mut out)? {
            return Ok(());
        }
        for at in 0..usize::MAX {
            let Some(arrival) = self.carry_out(&out, at) else {
                return Err(NoMemory);
            };
            let now = self.transport.now();
            if let Progress::Done(_) = job.tell(arrival, self.client.pd(), now, &mut out)? {
                return Ok(());
            }
        }
        Err(NoMemory)
    }
}
