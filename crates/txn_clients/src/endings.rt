//! What a line comes to, as its call ends.
ghost use Rattle.std.specs.Prelude.{◌≡◌, ℕ, IfOk, IfSome, None, List, OnErr, OnOk, Ok, Err, Option, false, option_map, true};
ghost use Rattle.txn_clients.specs.Ended.{AskLeaves, CallLeaves};
ghost use Rattle.txn_clients.specs.Accounts.{BeginsNew, EndsNoAsk, EndsNoCall, IsNew, account_in, outcome_by};
ghost use Rattle.txn_clients.specs.Rows.{AskFits, IsStamped, RowReady, stand_of};
ghost use Rattle.txn_clients.specs.Turns.{AskedArises, BegunArises};
ghost use Rattle.txn_clients.specs.Waiting.{RowArises};
ghost use Rattle.txn_clients.specs.Want.{wants_memory};
ghost use Rattle.txn_commit.specs.Jobs.{JobReady};
ghost use Rattle.txn_core.specs.Going.{TransactionReady};
ghost use Rattle.txn_core.specs.Transaction.{is_open};
ghost use Rattle.txn_client.specs.declared.client_answer.ClientAnswer.TheVariants.{Begun, Time};
ghost use Rattle.txn_core.specs.Waiting.{HandsOut};
ghost use Rattle.txn_history.specs.Posted.{Posted};
ghost use Rattle.txn_kv.specs.ErrorView.{view_of};
ghost use Rattle.txn_kv.specs.Timestamp.{HasVersion, version_of};
ghost use Rattle.txn_side.specs.Account.{new_account};
ghost use Rattle.txn_side.specs.Sight.{AskEnds, CallEnds, number_of};
ghost use Rattle.txn_clients.specs.declared.row.Row.TheVariants.{Past};
ghost use Rattle.txn_report.specs.declared.outcome.Outcome.TheVariants.{Err as Failed};
ghost use Rattle.txn_kv.specs.declared.errors.Error.{Error as Failure};
ghost use Rattle.txn_side.specs.Trace.{Trace};
ghost use Rattle.txn_core.specs.declared.txn_answer.TxnAnswer.TheVariants as answers;

use crate::answer::Pd;
use crate::row::Row;
use crate::want::wants_memory;
use txn_client::ClientAnswer;
use txn_commit::{Plans, SecondaryJob};
use txn_core::{Transaction, TxnAnswer};
use txn_kv::{Error, NoMemory, Timestamp, TimestampExt};
use txn_report::{Outcome, Payload};

/// What stands at a line whose call has ended, and its outcome.
#[derive(Drop)]
pub struct Ended<P> {
    pub row: Row<P>,
    pub outcome: Outcome,
}

impl<P> Ended<P>
where
    P: Plans,
{
    /// The call failed. Want of memory is told as such, and is the outcome of no line.
    fn failed(client: usize, error: Error) -> Result<Ended<P>, NoMemory>
        ensures ended { IfOk result (λ ended. ended ≡ record { row = Past client; outcome = Failed error }) }
        ensures fed { OnOk result (wants_memory (view_of error) ≡ false) }
        ensures starved { OnErr result (wants_memory (view_of error) ≡ true) }
    {
        if wants_memory(&error) {
            return Err(NoMemory);
        }
        Ok(Ended {
            row: Row::Past { client },
            outcome: Outcome::Err(error),
        })
    }

    /// A call for a timestamp has ended.
    pub fn asked(
        client: usize,
        begins: bool,
        answer: txn_kv::Result<ClientAnswer<Pd, P>>,
    ) -> Result<Ended<P>, NoMemory>
        requires fits { AskFits P.ways answer }
        requires begins { BeginsNew answer }
        ensures ends { IfOk result (λ ended. AskEnds client begins ended.outcome (stand_of ended.row)) }
        ensures stamped { IfOk result (λ ended. (version : ℕ) → number_of ended.outcome ≡ Some version → IsStamped answer version) }
        ensures arises { IfOk result (λ ended. AskedArises P.ways answer ended.row) }
        ensures ready { IfOk result (λ ended. RowReady P.ways ended.row) }
        ensures account { IfOk result (λ ended. account_in ended.row ≡ new_account) }
        ensures unlike { OnErr result (EndsNoAsk begins answer) }
        ensures failed { IfOk result (λ ended. (e : Failure) → ended.outcome ≡ Failed e → answer ≡ Err e) }
        ensures fed { IfOk result (λ ended. (e : Failure) → ended.outcome ≡ Failed e → wants_memory (view_of e) ≡ false) }
        ensures leaves { IfOk result (λ ended. AskLeaves client answer ended.row ended.outcome) }
    {
        match answer {
            Err(error) => Ended::failed(client, error),
            Ok(ClientAnswer::Begun(transaction)) => Ended::begun(client, begins, transaction),
            Ok(ClientAnswer::Time(timestamp)) => Ended::timed(client, begins, timestamp),
        }
    }

    fn begun(
        client: usize,
        begins: bool,
        transaction: Transaction<Pd, P>,
    ) -> Result<Ended<P>, NoMemory>
        requires ready { TransactionReady P.ways transaction }
        requires rests { is_open transaction.work ≡ false }
        requires new { IsNew transaction }
        ensures ends { IfOk result (λ ended. AskEnds client begins ended.outcome (stand_of ended.row)) }
        ensures stamped { IfOk result (λ ended. (version : ℕ) → number_of ended.outcome ≡ Some version → version_of transaction.start ≡ version) }
        ensures arises { IfOk result (λ ended. BegunArises P.ways transaction ended.row) }
        ensures ready { IfOk result (λ ended. RowReady P.ways ended.row) }
        ensures account { IfOk result (λ ended. account_in ended.row ≡ new_account) }
        ensures unlike { OnErr result (begins ≡ false) }
        ensures well { IfOk result (λ ended. (e : Failure) → ended.outcome ≡ Failed e → ⊥) }
        ensures leaves { IfOk result (λ ended. AskLeaves client (Ok (Begun transaction)) ended.row ended.outcome) }
    {
        if !begins {
            return Err(NoMemory);
        }
        let version = transaction.start_timestamp().version();
        Ok(Ended {
            row: Row::Begun {
                client,
                transaction,
                waits: 0,
            },
            outcome: Outcome::Ok(Payload::Number(version)),
        })
    }

    fn timed(client: usize, begins: bool, timestamp: Timestamp) -> Result<Ended<P>, NoMemory>
        requires { HasVersion timestamp }
        ensures ends { IfOk result (λ ended. AskEnds client begins ended.outcome (stand_of ended.row)) }
        ensures stamped { IfOk result (λ ended. (version : ℕ) → number_of ended.outcome ≡ Some version → version_of timestamp ≡ version) }
        ensures arises { IfOk result (λ ended. (trace : Option Trace) (at : ℕ) (o : Posted) (nexts : List ℕ) → RowArises P.ways trace at o nexts ended.row) }
        ensures ready { IfOk result (λ ended. RowReady P.ways ended.row) }
        ensures account { IfOk result (λ ended. account_in ended.row ≡ new_account) }
        ensures unlike { OnErr result (begins ≡ true) }
        ensures well { IfOk result (λ ended. (e : Failure) → ended.outcome ≡ Failed e → ⊥) }
        ensures leaves { IfOk result (λ ended. AskLeaves {P = P} client (Ok (Time timestamp)) ended.row ended.outcome) }
    {
        if begins {
            return Err(NoMemory);
        }
        Ok(Ended {
            row: Row::Past { client },
            outcome: Outcome::Ok(Payload::Number(timestamp.version())),
        })
    }

    /// A call of a transaction has ended.
    pub fn called(
        client: usize,
        commits: bool,
        answer: txn_kv::Result<TxnAnswer<P>>,
    ) -> Result<Ended<P>, NoMemory>
        requires { HandsOut P.ways.plan answer }
        ensures ends { IfOk result (λ ended. CallEnds client commits ended.outcome (stand_of ended.row)) }
        ensures number { IfOk result (λ ended. number_of ended.outcome ≡ None) }
        ensures ready { IfOk result (λ ended. RowReady P.ways ended.row) }
        ensures account { IfOk result (λ ended. account_in ended.row ≡ new_account) }
        ensures outcome { IfOk result (λ ended. ended.outcome ≡ outcome_by commits answer) }
        ensures unlike { OnErr result (EndsNoCall commits answer) }
        ensures failed { IfOk result (λ ended. (e : Failure) → ended.outcome ≡ Failed e → answer ≡ Err e) }
        ensures fed { IfOk result (λ ended. (e : Failure) → ended.outcome ≡ Failed e → wants_memory (view_of e) ≡ false) }
        ensures leaves { IfOk result (λ ended. CallLeaves client answer ended.row) }
    {
        match answer {
            Err(error) => Ended::failed(client, error),
            Ok(TxnAnswer::Unit) => Ended::done(client, commits),
            Ok(TxnAnswer::Committed(timestamp, job)) => {
                Ended::committed(client, commits, timestamp, job)
            }
            // No call answers anything else.
            Ok(_) => Err(NoMemory),
        }
    }

    fn done(client: usize, commits: bool) -> Result<Ended<P>, NoMemory>
        ensures ends { IfOk result (λ ended. CallEnds client commits ended.outcome (stand_of ended.row)) }
        ensures number { IfOk result (λ ended. number_of ended.outcome ≡ None) }
        ensures ready { IfOk result (λ ended. RowReady P.ways ended.row) }
        ensures account { IfOk result (λ ended. account_in ended.row ≡ new_account) }
        ensures unlike { OnErr result (commits ≡ true) }
        ensures well { IfOk result (λ ended. (e : Failure) → ended.outcome ≡ Failed e → ⊥) }
        ensures leaves { IfOk result (λ ended. CallLeaves {P = P} client (Ok answers.Unit) ended.row) }
        ensures outcome { IfOk result (λ ended. ended.outcome ≡ outcome_by {P = P} commits (Ok answers.Unit)) }
    {
        if commits {
            return Err(NoMemory);
        }
        Ok(Ended {
            row: Row::Past { client },
            outcome: Outcome::Ok(Payload::Unit),
        })
    }

    fn committed(
        client: usize,
        commits: bool,
        timestamp: Option<Timestamp>,
        job: Option<SecondaryJob<P>>,
    ) -> Result<Ended<P>, NoMemory>
        requires time { IfSome timestamp HasVersion }
        requires job { IfSome job (JobReady P.ways.plan) }
        ensures ends { IfOk result (λ ended. CallEnds client commits ended.outcome (stand_of ended.row)) }
        ensures number { IfOk result (λ ended. number_of ended.outcome ≡ None) }
        ensures ready { IfOk result (λ ended. RowReady P.ways ended.row) }
        ensures account { IfOk result (λ ended. account_in ended.row ≡ new_account) }
        ensures unlike { OnErr result (commits ≡ false) }
        ensures well { IfOk result (λ ended. (e : Failure) → ended.outcome ≡ Failed e → ⊥) }
        ensures leaves { IfOk result (λ ended. CallLeaves client (Ok (answers.Committed timestamp job)) ended.row) }
        ensures outcome { IfOk result (λ ended. ended.outcome ≡ outcome_by commits (Ok (answers.Committed timestamp job))) }
    {
        if !commits {
            return Err(NoMemory);
        }
        let version = version_of(timestamp);
        let outcome = Outcome::Ok(Payload::Commit(version));
        match job {
            None => Ok(Ended {
                row: Row::Past { client },
                outcome,
            }),
            Some(job) => Ok(Ended {
                row: Row::Working { client, job },
                outcome,
            }),
        }
    }
}

fn version_of(timestamp: Option<Timestamp>) -> Option<u64>
    requires { IfSome timestamp HasVersion }
    ensures { result ≡ option_map version_of timestamp }
{
    match timestamp {
        None => None,
        Some(timestamp) => Some(timestamp.version()),
    }
}
