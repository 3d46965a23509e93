ghost use Rattle.txn_clients.specs.Arising.{JobMoves, RowMoves, StandMoves};
ghost use Rattle.std.specs.Prelude.{◌≡◌, ◌<◌, ◌^◌, ℕ, Bool, false, IfOk, IfSome, OnOk};
ghost use Rattle.txn_client.specs.Calls.{CallReady};
ghost use Rattle.txn_clients.specs.Accounts.{AccountTold, AnswersAsk, AnswersNew, AnswersTold, IsQuiet, RowTold, WantsNew, account_in, account_of};
ghost use Rattle.txn_clients.specs.Rows.{AnswerFits, IsFreeFor, IsToldIn, MayHear, MayTell, Posts, RowReady, Rests, stand_of, with_waits};
ghost use Rattle.txn_clients.specs.Waiting.{IsAnswerOf, IsNewAnswer, RowGoes};
ghost use Rattle.txn_clients.specs.declared.row.Row.TheVariants.{Asking, Begun};
ghost use Rattle.txn_commit.specs.Jobs.{JobReady};
ghost use Rattle.txn_core.specs.Going.{TransactionReady};
ghost use Rattle.txn_core.specs.Transaction.{is_open};
ghost use Rattle.txn_history.specs.Posted.{HasNumbers};
ghost use Rattle.txn_side.specs.Sight.{client_at, commits};

use crate::answer::{Answer, Pd};
use crate::told::Told;
use crate::transactions::{hear, perform};
use txn_client::ClientCall;
use txn_commit::{Plans, SecondaryJob};
use txn_core::Transaction;
use txn_kv::{NoMemory, Outbox};
use txn_lines::Act;

/// What stands at a line. Clients are counted from 0, and lines from 1.
pub enum Row<P> {
    Plain,
    Client {
        client: usize,
    },
    /// A call for a timestamp, or for a transaction that begins at one.
    Asking {
        client: usize,
        begins: bool,
        call: ClientCall<Pd, P>,
    },
    /// A transaction that has begun. `waits` is the line of its call that is open, or 0.
    Begun {
        client: usize,
        transaction: Transaction<Pd, P>,
        waits: u64,
    },
    /// A call of the transaction of a line.
    Calling {
        client: usize,
        transaction: u64,
        commits: bool,
    },
    /// A call that is over.
    Past {
        client: usize,
    },
    /// A job goes on behind a commit, or is over.
    Working {
        client: usize,
        job: SecondaryJob<P>,
    },
}

impl<P: Drop> Drop for Row<P> {
    fn drop(self) {
        match self {
            Row::Plain => {}
            Row::Client { client: _ } => {}
            Row::Asking {
                client: _,
                begins: _,
                call,
            } => drop(call),
            Row::Begun {
                client: _,
                transaction,
                waits: _,
            } => drop(transaction),
            Row::Calling {
                client: _,
                transaction: _,
                commits: _,
            } => {}
            Row::Past { client: _ } => {}
            Row::Working { client: _, job } => drop(job),
        }
    }
}

/// Whether it commits.
pub fn is_commit(act: &Act) -> bool
    ensures { result ≡ commits act.now }
{
    match act {
        Act::Commit => true,
        Act::Put(_, _) => false,
        Act::Insert(_, _) => false,
        Act::Delete(_) => false,
        Act::Mutate(_) => false,
        Act::Lock(_) => false,
        Act::Rollback => false,
    }
}

/// A call of a client is told of something.
fn tell_call<P>(
    call: &mut ClientCall<Pd, P>,
    told: Told,
    pd: &mut Pd,
    now: u64,
    out: &mut Outbox,
) -> Result<Option<Answer<P>>, NoMemory>
where
    P: Plans,
    requires ready { CallReady call.old.stage }
    requires wants { WantsNew call.old }
    requires told { MayTell told }
    requires numbers { HasNumbers out.old }
    requires clock { now < 2 ^ 44 }
    ensures ready { OnOk result (CallReady call.new.stage) }
    ensures wants { OnOk result (WantsNew call.new) }
    ensures begins { IfOk result (λ answer. IfSome answer AnswersNew) }
    ensures goes { IfOk result (λ answer. (c : ℕ) (b : Bool) → RowGoes P.ways told (Asking c b call.old) (Asking c b call.new) out.old out.new answer) }
    ensures new { IfOk result (λ answer. IfSome answer IsNewAnswer) }
    ensures kind { IfOk result (λ answer. (c : ℕ) (b : Bool) → IfSome answer (IsAnswerOf (stand_of (Asking c b call.old)))) }
    ensures posts { OnOk result (Posts out.old out.new) }
    ensures fits { IfOk result (λ answer. IfSome answer (AnswerFits P.ways)) }
    ensures stamped { IfOk result (λ answer. IfSome answer (IsToldIn told)) }
    ensures moves { IfOk result (λ answer. (c : ℕ) (b : Bool) → RowMoves P.ways told (Asking c b call.old) (Asking c b call.new) out.old out.new answer) }
{
    match told {
        Told::Start => {
            let progress = call.start(pd, now, out)?;
            Ok(Answer::asked(progress))
        }
        Told::Act(_) => Ok(None),
        Told::Heard(arrival) => {
            let progress = call.tell(arrival, pd, now, out)?;
            Ok(Answer::asked(progress))
        }
    }
}

/// A transaction is told of something.
fn tell_transaction<P>(
    transaction: &mut Transaction<Pd, P>,
    told: Told,
    pd: &mut Pd,
    now: u64,
    out: &mut Outbox,
) -> Result<Option<Answer<P>>, NoMemory>
where
    P: Plans,
    requires ready { TransactionReady P.ways transaction.old }
    requires told { MayTell told }
    requires quiet { IsQuiet transaction.old }
    requires free { IsFreeFor told transaction.old.work }
    requires numbers { HasNumbers out.old }
    requires clock { now < 2 ^ 44 }
    ensures goes { IfOk result (λ answer. (c m : ℕ) → RowGoes P.ways told (Begun c transaction.old m) (Begun c transaction.new m) out.old out.new answer) }
    ensures new { IfOk result (λ answer. IfSome answer IsNewAnswer) }
    ensures kind { IfOk result (λ answer. (c m : ℕ) → IfSome answer (IsAnswerOf (stand_of (Begun c transaction.old m)))) }
    ensures ready { OnOk result (TransactionReady P.ways transaction.new) }
    ensures quiet { OnOk result (IsQuiet transaction.new) }
    ensures account { IfOk result (λ answer. AccountTold told answer (account_of transaction.old) (account_of transaction.new)) }
    ensures answers { IfOk result (AnswersAsk told (account_of transaction.old)) }
    ensures begins { IfOk result (λ answer. IfSome answer AnswersNew) }
    ensures posts { OnOk result (Posts out.old out.new) }
    ensures rests { IfOk result (λ answer. IfSome answer (λ a. is_open transaction.new.work ≡ false)) }
    ensures fits { IfOk result (λ answer. IfSome answer (AnswerFits P.ways)) }
    ensures stamped { IfOk result (λ answer. IfSome answer (IsToldIn told)) }
    ensures moves { IfOk result (StandMoves P.ways told transaction.old transaction.new out.old out.new) }
{
    match told {
        Told::Start => Ok(None),
        Told::Act(act) => {
            let progress = perform(transaction, act, pd, now, out)?;
            Ok(Answer::called(progress))
        }
        Told::Heard(arrival) => {
            let progress = hear(transaction, arrival, pd, now, out)?;
            Ok(Answer::called(progress))
        }
    }
}

/// A job is told of something. Nobody waits for its end.
fn tell_job<P: Plans>(
    job: &mut SecondaryJob<P>,
    told: Told,
    pd: &mut Pd,
    now: u64,
    out: &mut Outbox,
) -> Result<(), NoMemory>
    requires ready { JobReady P.ways.plan job.old }
    requires told { MayTell told }
    requires numbers { HasNumbers out.old }
    requires clock { now < 2 ^ 44 }
    ensures ready { OnOk result (JobReady P.ways.plan job.new) }
    ensures posts { OnOk result (Posts out.old out.new) }
    ensures moves { OnOk result (JobMoves P.ways.plan P.ways.uncommitted told job.old job.new out.old out.new) }
{
    match told {
        Told::Start => {
            job.start(pd, now, out)?;
            Ok(())
        }
        Told::Act(_) => Ok(()),
        Told::Heard(arrival) => {
            job.tell(arrival, pd, now, out)?;
            Ok(())
        }
    }
}

impl<P> Row<P> {
    /// The client of the line, if it has one.
    pub fn client(&self) -> Option<usize>
        ensures { result ≡ client_at (stand_of self.now) }
    {
        match self {
            Row::Plain => None,
            Row::Client { client } => Some(*client),
            Row::Asking { client, .. } => Some(*client),
            Row::Begun { client, .. } => Some(*client),
            Row::Calling { client, .. } => Some(*client),
            Row::Past { client } => Some(*client),
            Row::Working { client, .. } => Some(*client),
        }
    }

    /// A transaction that stands here waits for this line, or for none where it is 0.
    pub fn wait_for(&mut self, line: u64)
        ensures { self.new ≡ with_waits line self.old }
    {
        match self {
            Row::Begun { waits, .. } => *waits = line,
            Row::Plain => {}
            Row::Client { .. } => {}
            Row::Asking { .. } => {}
            Row::Calling { .. } => {}
            Row::Past { .. } => {}
            Row::Working { .. } => {}
        }
    }
}

impl<P> Row<P>
where
    P: Plans,
{
    /// What stands here is told of something, and posts in `out` what it wants done. It stays what it is.
    pub fn tell(
        &mut self,
        told: Told,
        pd: &mut Pd,
        now: u64,
        out: &mut Outbox,
    ) -> Result<Option<Answer<P>>, NoMemory>
        requires ready { RowReady P.ways self.old }
        requires told { MayTell told }
        requires hears { MayHear told self.old }
        requires numbers { HasNumbers out.old }
        requires clock { now < 2 ^ 44 }
        ensures goes { IfOk result (λ answer. RowGoes P.ways told self.old self.new out.old out.new answer) }
        ensures new { IfOk result (λ answer. IfSome answer IsNewAnswer) }
        ensures kind { IfOk result (λ answer. IfSome answer (IsAnswerOf (stand_of self.old))) }
        ensures stand { OnOk result (stand_of self.new ≡ stand_of self.old) }
        ensures ready { OnOk result (RowReady P.ways self.new) }
        ensures account { IfOk result (λ answer. RowTold told answer self.old (account_in self.new)) }
        ensures answers { IfOk result (AnswersTold told self.old) }
        ensures begins { IfOk result (λ answer. IfSome answer AnswersNew) }
        ensures posts { OnOk result (Posts out.old out.new) }
        ensures rests { IfOk result (λ answer. IfSome answer (λ a. Rests self.new)) }
        ensures fits { IfOk result (λ answer. IfSome answer (AnswerFits P.ways)) }
        ensures stamped { IfOk result (λ answer. IfSome answer (IsToldIn told)) }
        ensures moves { IfOk result (RowMoves P.ways told self.old self.new out.old out.new) }
    {
        match self {
            Row::Asking { call, .. } => tell_call(call, told, pd, now, out),
            Row::Begun { transaction, .. } => tell_transaction(transaction, told, pd, now, out),
            Row::Working { job, .. } => {
                tell_job(job, told, pd, now, out)?;
                Ok(None)
            }
            Row::Plain => Ok(None),
            Row::Client { .. } => Ok(None),
            Row::Calling { .. } => Ok(None),
            Row::Past { .. } => Ok(None),
        }
    }
}
