//! What is kept of the heartbeat of each line.
ghost use Rattle.std.specs.Prelude.{◌≡◌, ◌-◌, IfOk, None, Some, slice_set};
ghost use Rattle.txn_heartbeats.specs.Beating.{IsLine};
ghost use Rattle.txn_heartbeats.specs.Hearts.{beats_of, job_at, jobs_of, outbox_at};
ghost use Rattle.txn_heartbeats.specs.Started.{starts_of, transaction_at, transactions_of, was_started, with_started};
ghost use Rattle.txn_history.specs.Posted.{HasNumbers};
ghost use Rattle.txn_side.specs.Sight.{next_at};

use crate::heartbeats::Heartbeats;
use txn_heartbeat::HeartbeatJob;
use txn_kv::{NoMemory, Outbox};

impl<S, H> Heartbeats<S, H> {
    /// Whether a heartbeat of the transaction of a line was started.
    pub(crate) fn was_started(&self, transaction: u64) -> bool
        ensures { result ≡ was_started (starts_of self.now) transaction }
    {
        if transaction == 0 {
            return true;
        }
        match self.pulses.get(transaction as usize - 1) {
            None => true,
            Some(pulse) => pulse.started,
        }
    }

    /// The line of the transaction that the heartbeat of a line keeps alive.
    pub(crate) fn transaction_of(&self, line: u64) -> u64
        requires { IsLine (beats_of self.now) line }
        ensures { result ≡ transaction_at (transactions_of self.now) line }
    {
        self.pulses[line as usize - 1].transaction
    }

    /// An empty outbox for the heartbeat of a line.
    pub(crate) fn outbox(&self, line: u64) -> Result<Outbox, NoMemory>
        requires { IsLine (beats_of self.now) line }
        ensures outbox { IfOk result (λ out. out ≡ outbox_at line (next_at (beats_of self.now) line)) }
        ensures numbers { IfOk result HasNumbers }
    {
        self.pulses[line as usize - 1].outbox(self.alloc, line)
    }
}

impl<S: Drop, H: Drop> Heartbeats<S, H> {
    /// A heartbeat of the transaction of a line was started.
    pub(crate) fn mark_started(&mut self, transaction: u64)
        ensures side { self.new.side ≡ self.old.side }
        ensures beats { beats_of self.new ≡ beats_of self.old }
        ensures jobs { jobs_of self.new ≡ jobs_of self.old }
        ensures starts { starts_of self.new ≡ with_started transaction (starts_of self.old) }
        ensures transactions { transactions_of self.new ≡ transactions_of self.old }
    {
        if transaction != 0 && transaction as usize <= self.pulses.len() {
            self.pulses[transaction as usize - 1].started = true;
        }
    }

    /// The job of the heartbeat of a line, and the line of the transaction that it keeps alive.
    pub(crate) fn keep(&mut self, line: u64, transaction: u64, job: HeartbeatJob<H>)
        requires { IsLine (beats_of self.old) line }
        ensures side { self.new.side ≡ self.old.side }
        ensures beats { beats_of self.new ≡ beats_of self.old }
        ensures jobs { jobs_of self.new ≡ slice_set (jobs_of self.old) (line - 1) (Some job) }
        ensures starts { starts_of self.new ≡ starts_of self.old }
        ensures transactions { transactions_of self.new ≡ slice_set (transactions_of self.old) (line - 1) transaction }
    {
        let pulse = &mut self.pulses[line as usize - 1];
        pulse.transaction = transaction;
        pulse.job = Some(job);
    }

    /// Takes the job of the heartbeat of a line out, if it has one.
    pub(crate) fn take_job(&mut self, line: u64) -> Option<HeartbeatJob<H>>
        requires { IsLine (beats_of self.old) line }
        ensures job { result ≡ job_at (jobs_of self.old) line }
        ensures side { self.new.side ≡ self.old.side }
        ensures beats { beats_of self.new ≡ beats_of self.old }
        ensures jobs { jobs_of self.new ≡ slice_set (jobs_of self.old) (line - 1) None }
        ensures starts { starts_of self.new ≡ starts_of self.old }
        ensures transactions { transactions_of self.new ≡ transactions_of self.old }
    {
        self.pulses[line as usize - 1].job.take()
    }

    /// The numbers of the heartbeat of a line go on from here.
    pub(crate) fn set_next(&mut self, line: u64, next: u64)
        requires { IsLine (beats_of self.old) line }
        ensures side { self.new.side ≡ self.old.side }
        ensures beats { beats_of self.new ≡ slice_set (beats_of self.old) (line - 1) next }
        ensures jobs { jobs_of self.new ≡ jobs_of self.old }
        ensures starts { starts_of self.new ≡ starts_of self.old }
        ensures transactions { transactions_of self.new ≡ transactions_of self.old }
    {
        self.pulses[line as usize - 1].next = next;
    }
}
