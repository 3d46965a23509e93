//! A transaction with its client and its outbox.
ghost use Rattle.std.specs.Prelude.{◌≡◌, false};
ghost use Rattle.txn_core.specs.Transaction.{is_open};

use crate::options::options;
use crate::replies::{arrival, first};
use crate::shown::{show_errands, show_turn};
use case_words::{number, say, show, word};
use std::alloc::Global;
use std::marker::Model;
use txn_commit::Plans;
use txn_core::{CloseAnswer, Transaction, TxnAnswer};
use txn_fakes::NoClient;
use txn_kv::{NoMemory, Outbox, Progress};

pub type Turn<P> = Result<Progress<TxnAnswer<P>>, NoMemory>;

/// It began at 100 ms, and all its calls are made at 350 ms.
pub struct Transacting<P>
where
    P: Plans,
{
    pub(crate) txn: Transaction<NoClient, P>,
    pub(crate) pd: NoClient,
    pub(crate) out: Outbox,
    pub(crate) alloc: Global,
}

/// By one call: a derived drop is opened at each exit that holds such a value.
impl<P> Drop for Transacting<P>
where
    P: Plans,
{
    fn drop(self) {
        let Transacting {
            txn,
            pd,
            out,
            alloc: _,
        } = self;
        drop(txn);
        drop(pd);
        drop(out);
    }
}

impl<P> Model for Transacting<P>
where
    P: Plans,
{
    ghost use Rattle.txn_core.specs.Going.{TransactionReady};
    ghost use Rattle.txn_core.specs.Transaction.{Standing};
    ghost use Rattle.txn_history.specs.Posted.{HasNumbers};

    ghost Value = { Standing P };

    ghost view = { λ l. l.txn };

    ghost invariant = { λ l. TransactionReady P.ways l.txn × HasNumbers l.out };
}

impl<P> Transacting<P>
where
    P: Plans,
{
    /// With the options behind the first word, if there is memory.
    pub fn begin(alloc: Global, words: &[&str]) -> Option<Self> {
        match Transaction::new(alloc, first(), options(words), 100) {
            Ok(txn) => Some(Transacting {
                txn,
                pd: NoClient::new(),
                out: Outbox::new(alloc, 0, false),
                alloc,
            }),
            Err(_) => None,
        }
    }

    pub fn serve(&mut self, rt: &HostRuntime, words: &[&str]) {
        match word(words, 0) {
            "status" => show(rt, &self.txn.status()),
            "close" => show(rt, &self.close()),
            "heartbeat" => self.heartbeat(rt),
            "lost_commit" => show(rt, &self.txn.lost_commit()),
            "has_lost_commit" => show(rt, &self.txn.has_lost_commit()),
            "count_commits_out" => show(rt, &self.txn.count_commits_out()),
            _ => self.go(rt, words),
        }
    }

    fn close(&mut self) -> CloseAnswer {
        self.txn.close()
    }

    /// Which key is kept alive, how often, and how long it would live on.
    fn heartbeat(&self, rt: &HostRuntime) {
        match self.txn.heartbeat() {
            Ok(None) => say(rt, &"none"),
            Ok(Some(heartbeat)) => {
                let (primary, interval) = (&heartbeat.primary, heartbeat.interval);
                let _ = print!(rt; " {primary:?} each {interval} for {}", heartbeat.ttl(350));
            }
            Err(error) => show(rt, &error),
        }
    }

    /// A commit and a rollback stand on lines of their own, where nothing was posted before.
    fn go(&mut self, rt: &HostRuntime, words: &[&str]) {
        let line = self.out.line;
        let posted = self.out.sends.len();
        match self.turn(words) {
            Some(turn) => show_turn(rt, &turn, self.txn.is_busy()),
            None => say(rt, &"?"),
        }
        let before = if self.out.line == line { posted } else { 0 };
        show_errands(rt, self.out.sends.as_slice(), before);
    }

    /// What comes of a row. No call is made while another is open.
    fn turn(&mut self, words: &[&str]) -> Option<Turn<P>> {
        if let Some(arrival) = arrival(self.alloc, words, 0) {
            return Some(self.txn.tell(arrival, &mut self.pd, 350, &mut self.out));
        }
        if self.txn.is_busy() {
            return None;
        }
        self.call(words)
    }

    fn call(&mut self, words: &[&str]) -> Option<Turn<P>>
        requires { is_open self.old.work ≡ false }
    {
        match word(words, 0) {
            "commit" => Some(self.commit(number(words, 1))),
            "rollback" => Some(self.roll_back(number(words, 1))),
            _ => self.write(words),
        }
    }

    /// Commits, on a line of this number.
    fn commit(&mut self, line: u64) -> Turn<P>
        requires { is_open self.old.work ≡ false }
    {
        self.open(line);
        self.txn.commit(&mut self.pd, 350, &mut self.out)
    }

    /// Rolls back, on a line of this number.
    fn roll_back(&mut self, line: u64) -> Turn<P>
        requires { is_open self.old.work ≡ false }
    {
        self.open(line);
        self.txn.rollback(&mut self.pd, 350, &mut self.out)
    }

    /// What comes is posted on a new line of this number.
    fn open(&mut self, line: u64)
        ensures { self.new ≡ self.old }
    {
        self.out = Outbox::new(self.alloc, line, false);
    }
}
