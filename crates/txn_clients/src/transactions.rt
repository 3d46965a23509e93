//! What a transaction is told.
ghost use Rattle.txn_clients.specs.Arising.{StandMoves};
ghost use Rattle.txn_clients.specs.Rows.{answer_in};
ghost use Rattle.txn_clients.specs.declared.answer.Answer.TheVariants.{Called};
ghost use Rattle.txn_clients.specs.declared.told.Told.TheVariants as tells;
ghost use Rattle.std.specs.Bool.{MatchBool};
ghost use Rattle.std.specs.Prelude.{◌≡◌, ◌<◌, ◌^◌, IsTrue, Ok, false, ⊤, true};
ghost use Rattle.txn_clients.specs.Accounts.{EndsCommit, HasHeard, HasTaken, IsAlone, IsQuiet, SaysLoss, TellsEnd, account_of, says_undetermined, stage_of};
ghost use Rattle.txn_clients.specs.Closing.{stage_after, status_by};
ghost use Rattle.txn_clients.specs.Failing.{CameIn, KnowsAsk, owing};
ghost use Rattle.txn_clients.specs.Rows.{IsTold};
ghost use Rattle.txn_clients.specs.Waiting.{StandGoes};
ghost use Rattle.txn_core.specs.Going.{TransactionReady};
ghost use Rattle.txn_core.specs.Transaction.{is_open};
ghost use Rattle.txn_history.specs.Posted.{HasNumbers};
ghost use Rattle.txn_history.specs.Turn.{IfEnds, IfKept, turn_of};
ghost use Rattle.txn_history.specs.Turn.Turn.{Ends};
ghost use Rattle.txn_history.specs.Arrivals.{MayArrive, awaited_as};
ghost use Rattle.txn_lines.specs.declared.act.Act.TheVariants as acts;

use crate::answer::Pd;
use txn_commit::Plans;
use txn_core::{Status, Transaction, TxnAnswer};
use txn_kv::{Arrival, Error, NoMemory, Outbox, Progress};
use txn_lines::Act;

/// Whether the answer says that it is not known whether the transaction is committed.
fn says_undetermined<P>(answer: &txn_kv::Result<TxnAnswer<P>>) -> bool
    ensures { result ≡ says_undetermined (Ends answer.now) }
{
    matches!(answer, Err(Error::UndeterminedError(_)))
}

/// Whether the status stayed, where the answer says that it is not known whether the transaction is committed.
fn fits_status<P>(progress: &Progress<TxnAnswer<P>>, before: Status, after: Status) -> bool
    ensures { IsTrue result → says_undetermined (turn_of (Ok progress.now)) ≡ true → after ≡ before }
{
    match progress {
        Progress::Waiting => true,
        Progress::Done(answer) => !says_undetermined(answer) || after == before,
    }
}

/// Whether a Commit of the primary was lost, where the answer says that it is not known whether the transaction is committed.
fn fits_loss<P>(progress: &Progress<TxnAnswer<P>>, transaction: &Transaction<Pd, P>) -> bool
where
    P: Plans,
    ensures { IsTrue result → SaysLoss (turn_of (Ok progress.now)) transaction.now }
{
    match progress {
        Progress::Waiting => true,
        Progress::Done(answer) => !says_undetermined(answer) || transaction.has_lost_commit(),
    }
}

/// Whether no Commit of the primary is out beside the one that is lost, where none was lost before.
fn is_alone<P>(arrival: &Arrival, transaction: &Transaction<Pd, P>) -> bool
where
    P: Plans,
    ensures { MatchBool result (IsAlone arrival.now transaction.now) (IsAlone arrival.now transaction.now → ⊥) }
{
    match arrival {
        Arrival::Lost { .. } => {
            transaction.has_lost_commit() || transaction.count_commits_out() <= 1
        }
        Arrival::Reply { .. } => true,
        Arrival::Slept { .. } => true,
        Arrival::Time { .. } => true,
    }
}

/// Whether a commit may end with the answer.
fn ends_commit<P>(answer: &txn_kv::Result<TxnAnswer<P>>) -> bool
    ensures { IsTrue result → EndsCommit answer.now }
{
    matches!(answer, Ok(TxnAnswer::Committed(_, _)) | Err(_))
}

/// Whether the answer of a commit tells how the transaction stands.
fn tells_end<P>(answer: &txn_kv::Result<TxnAnswer<P>>, transaction: &Transaction<Pd, P>) -> bool
where
    P: Plans,
    ensures { IsTrue result → TellsEnd answer.now transaction.now }
{
    if !ends_commit(answer) {
        return false;
    }
    transaction.status() != Status::StartedCommit
        || says_undetermined(answer) == transaction.lost_commit().is_some()
}

/// Whether the answer of a commit, if there is one, tells how the transaction stands.
fn tells_progress<P>(progress: &Progress<TxnAnswer<P>>, transaction: &Transaction<Pd, P>) -> bool
where
    P: Plans,
    ensures { IsTrue result → IfEnds (turn_of (Ok progress.now)) (λ v. TellsEnd v transaction.now) }
{
    match progress {
        Progress::Waiting => true,
        Progress::Done(answer) => tells_end(answer, transaction),
    }
}

/// The status of a transaction whose call, which commits or rolls back, has answered later than in its own line.
fn status_by<P>(commits: bool, answer: &txn_kv::Result<TxnAnswer<P>>) -> Status
    ensures { result ≡ status_by commits answer.now }
{
    if commits {
        match answer {
            Ok(TxnAnswer::Committed(_, _)) => Status::Committed,
            _ => Status::StartedCommit,
        }
    } else {
        match answer {
            Ok(TxnAnswer::Unit) => Status::Rolledback,
            _ => Status::StartedRollback,
        }
    }
}

/// Whether a transaction has come as far as the answer of its call says, which commits or rolls back, and came later than in its
/// own line.
pub fn has_come_to<P>(
    transaction: &Transaction<Pd, P>,
    commits: bool,
    answer: &txn_kv::Result<TxnAnswer<P>>,
) -> bool
where
    P: Plans,
    ensures { IsTrue result → stage_of transaction.now ≡ stage_after commits answer.now }
{
    if transaction.status() != status_by(commits, answer) {
        return false;
    }
    !commits || (!transaction.is_busy() && tells_end(answer, transaction))
}

/// A transaction is committed.
fn commit<P>(
    transaction: &mut Transaction<Pd, P>,
    pd: &mut Pd,
    now: u64,
    out: &mut Outbox,
) -> Result<Progress<TxnAnswer<P>>, NoMemory>
where
    P: Plans,
    requires idle { is_open transaction.old.work ≡ false }
    requires ready { TransactionReady P.ways transaction.old }
    requires numbers { HasNumbers out.old }
    requires clock { now < 2 ^ 44 }
    requires quiet { IsQuiet transaction.old }
    ensures told { IfKept (turn_of result) (IsTold P.ways transaction.new out.old out.new (turn_of result)) }
    ensures taken { IfKept (turn_of result) (HasTaken acts.Commit transaction.old transaction.new (turn_of result)) }
    ensures goes { IfKept (turn_of result) (StandGoes P.ways (λ trace. trace) (λ a. ⊥) ⊤ (λ trace. KnowsAsk trace out.old.line acts.Commit (account_of transaction.old)) transaction.old transaction.new out.old out.new (turn_of result)) }
    ensures moves { IfKept (turn_of result) (StandMoves P.ways (tells.Act acts.Commit) transaction.old transaction.new out.old out.new (answer_in Called (turn_of result))) }
{
    let progress = transaction.commit(pd, now, out)?;
    // It answers that its end is not known exactly where a Commit was lost: no plan makes it say otherwise.
    if !tells_progress(&progress, transaction) || !fits_loss(&progress, transaction) {
        return Err(NoMemory);
    }
    Ok(progress)
}

/// A transaction is rolled back.
fn roll_back<P>(
    transaction: &mut Transaction<Pd, P>,
    pd: &mut Pd,
    now: u64,
    out: &mut Outbox,
) -> Result<Progress<TxnAnswer<P>>, NoMemory>
where
    P: Plans,
    requires idle { is_open transaction.old.work ≡ false }
    requires ready { TransactionReady P.ways transaction.old }
    requires numbers { HasNumbers out.old }
    requires clock { now < 2 ^ 44 }
    requires quiet { IsQuiet transaction.old }
    ensures told { IfKept (turn_of result) (IsTold P.ways transaction.new out.old out.new (turn_of result)) }
    ensures taken { IfKept (turn_of result) (HasTaken acts.Rollback transaction.old transaction.new (turn_of result)) }
    ensures goes { IfKept (turn_of result) (StandGoes P.ways (λ trace. trace) (λ a. ⊥) ⊤ (λ trace. KnowsAsk trace out.old.line acts.Rollback (account_of transaction.old)) transaction.old transaction.new out.old out.new (turn_of result)) }
    ensures moves { IfKept (turn_of result) (StandMoves P.ways (tells.Act acts.Rollback) transaction.old transaction.new out.old out.new (answer_in Called (turn_of result))) }
{
    let before = transaction.status();
    let progress = transaction.rollback(pd, now, out)?;
    // Only a rollback that is refused answers that it is not known, since a Commit was lost, and leaves the status.
    if !fits_status(&progress, before, transaction.status()) || !fits_loss(&progress, transaction) {
        return Err(NoMemory);
    }
    Ok(progress)
}

/// A transaction does what a line asks of it.
pub fn perform<P>(
    transaction: &mut Transaction<Pd, P>,
    act: Act,
    pd: &mut Pd,
    now: u64,
    out: &mut Outbox,
) -> Result<Progress<TxnAnswer<P>>, NoMemory>
where
    P: Plans,
    requires idle { is_open transaction.old.work ≡ false }
    requires ready { TransactionReady P.ways transaction.old }
    requires numbers { HasNumbers out.old }
    requires clock { now < 2 ^ 44 }
    requires quiet { IsQuiet transaction.old }
    ensures told { IfKept (turn_of result) (IsTold P.ways transaction.new out.old out.new (turn_of result)) }
    ensures taken { IfKept (turn_of result) (HasTaken act transaction.old transaction.new (turn_of result)) }
    ensures goes { IfKept (turn_of result) (StandGoes P.ways (λ trace. trace) (λ a. ⊥) ⊤ (λ trace. KnowsAsk trace out.old.line act (account_of transaction.old)) transaction.old transaction.new out.old out.new (turn_of result)) }
    ensures moves { IfKept (turn_of result) (StandMoves P.ways (tells.Act act) transaction.old transaction.new out.old out.new (answer_in Called (turn_of result))) }
{
    match act {
        Act::Put(key, value) => transaction.put(pd, key, value, now, out),
        Act::Insert(key, value) => transaction.insert(pd, key, value, now, out),
        Act::Delete(key) => transaction.delete(pd, key, now, out),
        Act::Mutate(mutations) => transaction.batch_mutate(pd, mutations.into_vec(), now, out),
        Act::Lock(keys) => transaction.lock_keys(pd, keys.into_vec(), now, out),
        Act::Commit => commit(transaction, pd, now, out),
        Act::Rollback => roll_back(transaction, pd, now, out),
    }
}

/// A transaction hears of something.
pub fn hear<P>(
    transaction: &mut Transaction<Pd, P>,
    arrival: Arrival,
    pd: &mut Pd,
    now: u64,
    out: &mut Outbox,
) -> Result<Progress<TxnAnswer<P>>, NoMemory>
where
    P: Plans,
    requires ready { TransactionReady P.ways transaction.old }
    requires arrives { MayArrive arrival }
    requires numbers { HasNumbers out.old }
    requires clock { now < 2 ^ 44 }
    requires quiet { IsQuiet transaction.old }
    ensures told { IfKept (turn_of result) (IsTold P.ways transaction.new out.old out.new (turn_of result)) }
    ensures heard { IfKept (turn_of result) (HasHeard transaction.old transaction.new (turn_of result)) }
    ensures goes { IfKept (turn_of result) (StandGoes P.ways (owing out.old.line (tells.Heard arrival)) (λ a. a ≡ awaited_as arrival) (is_open transaction.old.work ≡ true) (λ trace. CameIn trace out.old arrival) transaction.old transaction.new out.old out.new (turn_of result)) }
    ensures moves { IfKept (turn_of result) (StandMoves P.ways (tells.Heard arrival) transaction.old transaction.new out.old out.new (answer_in Called (turn_of result))) }
{
    // One Commit of the primary is out at a time.
    if !is_alone(&arrival, transaction) {
        drop(arrival);
        return Err(NoMemory);
    }
    let progress = tell(transaction, arrival, pd, now, out)?;
    // Each Commit of the primary was answered or lost by then: no plan ends before.
    if !fits_loss(&progress, transaction) {
        return Err(NoMemory);
    }
    Ok(progress)
}

/// A transaction is told of something.
fn tell<P>(
    transaction: &mut Transaction<Pd, P>,
    arrival: Arrival,
    pd: &mut Pd,
    now: u64,
    out: &mut Outbox,
) -> Result<Progress<TxnAnswer<P>>, NoMemory>
where
    P: Plans,
    requires ready { TransactionReady P.ways transaction.old }
    requires arrives { MayArrive arrival }
    requires numbers { HasNumbers out.old }
    requires clock { now < 2 ^ 44 }
    requires quiet { IsQuiet transaction.old }
    ensures told { IfKept (turn_of result) (IsTold P.ways transaction.new out.old out.new (turn_of result)) }
    ensures heard { IfKept (turn_of result) (HasHeard transaction.old transaction.new (turn_of result)) }
    ensures goes { IfKept (turn_of result) (StandGoes P.ways (owing out.old.line (tells.Heard arrival)) (λ a. a ≡ awaited_as arrival) (is_open transaction.old.work ≡ true) (λ trace. CameIn trace out.old arrival) transaction.old transaction.new out.old out.new (turn_of result)) }
    ensures moves { SaysLoss (turn_of result) transaction.new → IsAlone arrival transaction.old → IfKept (turn_of result) (StandMoves P.ways (tells.Heard arrival) transaction.old transaction.new out.old out.new (answer_in Called (turn_of result))) }
{
    transaction.tell(arrival, pd, now, out)
}
