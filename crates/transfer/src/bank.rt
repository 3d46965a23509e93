//! A bank whose balances are values of a cluster, each under the name of its account.

ghost use Rattle.std.specs.Prelude.{◌≡◌, ◌+◌, IfOk};

use crate::accounts::Accounts;
use crate::network::Network;
use crate::rows::{Fault, Row};
use std::alloc::Global;
use std::fmt;
use tikv_client::{
    BlockingClient, BlockingTransaction, Error, Key, NoMemory, Timestamp, TimestampExt, Value,
};
use txn_model::{Cell, Kind};

/// How often a commit is called whose outcome is not known.
const COMMITS: usize = 3;

/// A balance that is to be written.
#[derive(Clone, Copy)]
struct Entry<'a> {
    name: &'a str,
    balance: u64,
}

/// What came of a row.
#[derive(Drop)]
pub enum Outcome {
    Noted,
    Committed(Option<Timestamp>),
    Failed(Error),
    /// The transaction may be committed.
    Unknown,
    Refused(&'static str),
}

impl fmt::Display for Outcome {
    fn fmt<W: fmt::Write>(&self, f: &mut fmt::Formatter<W>) -> fmt::Result {
        match self {
            Outcome::Noted => write!(f, "noted"),
            Outcome::Committed(Some(timestamp)) => {
                write!(f, "ok {}.{}", timestamp.physical, timestamp.logical)
            }
            Outcome::Committed(None) => write!(f, "ok"),
            Outcome::Failed(error) => write!(f, "failed {error}"),
            Outcome::Unknown => write!(f, "unknown"),
            Outcome::Refused(why) => write!(f, "refused {why}"),
        }
    }
}

/// Whether the transaction may be committed.
fn is_undetermined(error: &Error) -> bool {
    matches!(error, Error::UndeterminedError(_))
}

/// Both balances after a payment, or why there is none.
fn moved(from: u64, to: u64, amount: u64) -> Result<(u64, u64), &'static str>
    ensures sum { IfOk result (λ both. both.0 + both.1 ≡ from + to) }
    ensures amount { IfOk result (λ both. both.0 + amount ≡ from) }
{
    match (from.checked_sub(amount), to.checked_add(amount)) {
        (Some(left), Some(more)) => Ok((left, more)),
        (None, _) => Err("balance too low"),
        (_, None) => Err("balance too high"),
    }
}

#[derive(Drop)]
pub struct Bank {
    client: BlockingClient<Network>,
    accounts: Accounts,
    alloc: Global,
}

impl Bank {
    pub fn new(alloc: Global) -> Result<Bank, NoMemory> {
        Ok(Bank {
            client: BlockingClient::new(alloc, Network::new(alloc)?),
            accounts: Accounts::new(alloc),
            alloc,
        })
    }

    /// Does what a row asks for.
    pub fn serve(&mut self, row: Row<'_>) -> Result<Outcome, NoMemory> {
        match row {
            Row::Open { name, amount } => self.open(name, amount),
            Row::Pay { from, to, amount } => self.pay(from, to, amount),
            Row::Lose {
                label,
                count,
                handled,
            } => {
                let label = String::from_str(self.alloc, label)?;
                self.client.transport.lose(label, count, handled)?;
                Ok(Outcome::Noted)
            }
        }
    }

    fn open(&mut self, name: &str, amount: u64) -> Result<Outcome, NoMemory> {
        if self.accounts.has(name) {
            return Ok(Outcome::Refused("the account is there"));
        }
        self.write(&[Entry {
            name,
            balance: amount,
        }])
    }

    fn pay(&mut self, from: &str, to: &str, amount: u64) -> Result<Outcome, NoMemory> {
        if from == to {
            return Ok(Outcome::Refused("one account"));
        }
        let (Some(payer), Some(payee)) = (self.accounts.balance(from), self.accounts.balance(to))
        else {
            return Ok(Outcome::Refused("a balance is not known"));
        };
        match moved(payer, payee, amount) {
            Ok((left, more)) => self.write(&[
                Entry {
                    name: from,
                    balance: left,
                },
                Entry {
                    name: to,
                    balance: more,
                },
            ]),
            Err(why) => Ok(Outcome::Refused(why)),
        }
    }

    /// Writes balances in one transaction, and keeps what is known of them.
    fn write(&mut self, entries: &[Entry<'_>]) -> Result<Outcome, NoMemory> {
        let outcome = self.send(entries)?;
        for entry in entries {
            match &outcome {
                Outcome::Committed(_) => {
                    self.accounts
                        .set(self.alloc, entry.name, Some(entry.balance))?;
                }
                Outcome::Unknown => self.accounts.set(self.alloc, entry.name, None)?,
                _ => {}
            }
        }
        Ok(outcome)
    }

    fn send(&mut self, entries: &[Entry<'_>]) -> Result<Outcome, NoMemory> {
        match self.client.begin_optimistic()? {
            Ok(transaction) => {
                let mut transaction = transaction;
                self.fill(&mut transaction, entries)
            }
            Err(error) => Ok(Outcome::Failed(error)),
        }
    }

    fn fill(
        &mut self,
        transaction: &mut BlockingTransaction,
        entries: &[Entry<'_>],
    ) -> Result<Outcome, NoMemory> {
        for entry in entries {
            if let Err(error) = self.put(transaction, *entry)? {
                return Ok(Outcome::Failed(error));
            }
        }
        self.commit(transaction)
    }

    fn put(
        &mut self,
        transaction: &mut BlockingTransaction,
        entry: Entry<'_>,
    ) -> Result<tikv_client::Result<()>, NoMemory> {
        let key = Key::from(String::from_str(self.alloc, entry.name)?);
        let balance = entry.balance;
        let text = format!(in self.alloc; "{balance}")?;
        self.client
            .put(transaction, key, Value::from_vec(text.into_bytes()))
    }

    /// Commits. While it is not known what became of the transaction, a further call sends the Commit again, at the same timestamp.
    fn commit(&mut self, transaction: &mut BlockingTransaction) -> Result<Outcome, NoMemory> {
        for _ in 0..COMMITS {
            match self.client.commit(transaction)? {
                Ok(timestamp) => return Ok(Outcome::Committed(timestamp)),
                Err(error) => {
                    if !is_undetermined(&error) {
                        return self.take_back(transaction, error);
                    }
                }
            }
        }
        Ok(Outcome::Unknown)
    }

    /// The transaction is not committed. Its locks are taken back.
    fn take_back(
        &mut self,
        transaction: &mut BlockingTransaction,
        error: Error,
    ) -> Result<Outcome, NoMemory> {
        // If this fails too, locks are left until somebody resolves them.
        let _ = self.client.rollback(transaction)?;
        Ok(Outcome::Failed(error))
    }

    /// Prints what the store holds for each account.
    pub fn show(&self, rt: &HostRuntime) -> Result<(), Fault> {
        for cell in self.client.transport.store().cells() {
            show_cell(rt, cell)?;
        }
        Ok(())
    }
}

/// The newest value of a key, as a text.
fn newest(cell: &Cell) -> &str {
    for write in cell.commits.as_slice().iter().rev() {
        if write.kind == Kind::Put {
            return std::str::from_utf8(write.value.as_slice()).unwrap_or("-");
        }
    }
    "-"
}

fn show_cell(rt: &HostRuntime, cell: &Cell) -> Result<(), Fault> {
    let name = std::str::from_utf8(cell.key.as_slice()).unwrap_or("-");
    let locked = if cell.lock.is_some() { " locked" } else { "" };
    let value = newest(cell);
    println!(rt; "{name} {value}{locked}")?;
    Ok(())
}
