//! Heartbeats start, and are told of what comes for them.
ghost use Rattle.std.specs.Prelude.{◌≡◌, ◌-◌, ◌<◌, ◌≤◌, ◌++◌, ◌∷◌, ◌^◌, [], IfOk, None, OnOk, false, length, slice_set, true};
ghost use Rattle.txn_heartbeat.specs.Hosting.{StaysSo};
ghost use Rattle.txn_heartbeats.specs.Beating.{AreBeats, AreTimeless, IsLine, PostsBeats, beat_ticket, posted_as, postings_of};
ghost use Rattle.txn_heartbeats.specs.Hearts.{IsReady, beats_of, job_at, jobs_of};
ghost use Rattle.txn_heartbeats.specs.Started.{StartsAsLent, TellsJob, starts_of, transactions_of, was_started};
ghost use Rattle.txn_history.specs.Arrivals.{MayArrive};
ghost use Rattle.txn_side.specs.Sight.{is_live};

use crate::heartbeats::Heartbeats;
use std::alloc::Global;
use std::mem;
use txn_heartbeat::{HeartHost, HeartbeatJob, PlanForHeartbeats};
use txn_kv::{Arrival, Errand, Items, NoMemory, Outbox, Ticket};
use txn_side::{Posting, Turn};

/// Posts one thing that the heartbeat of a line wants done.
fn post_one(alloc: Global, line: u64, errand: Errand, turn: &mut Turn) -> Result<(), NoMemory>
    ensures posted { OnOk result (turn.new.posted.items ≡ turn.old.posted.items ++ posted_as line errand) }
    ensures timeless { OnOk result (AreTimeless (errand ∷ [])) }
    ensures ended { OnOk result (turn.new.ended ≡ turn.old.ended) }
{
    match errand {
        Errand::Send {
            number,
            to,
            request,
        } => {
            turn.posted.push(Posting::Send {
                ticket: ticket_of(line, number),
                to,
                request,
                askers: Items::new(alloc),
            })?;
            Ok(())
        }
        Errand::Sleep { number, .. } => {
            turn.posted.push(Posting::Sleep {
                ticket: ticket_of(line, number),
            })?;
            Ok(())
        }
        // No heartbeat asks for a timestamp.
        Errand::Ask { .. } => Err(NoMemory),
    }
}

/// Posts all that it wants done, in order.
fn post_all(alloc: Global, line: u64, sends: Vec<Errand>, turn: &mut Turn) -> Result<(), NoMemory>
    ensures posted { OnOk result (turn.new.posted.items ≡ turn.old.posted.items ++ postings_of line sends.items) }
    ensures timeless { OnOk result (AreTimeless sends.items) }
    ensures ended { OnOk result (turn.new.ended ≡ turn.old.ended) }
{
    for errand in sends {
        post_one(alloc, line, errand, turn)?;
    }
    Ok(())
}

/// The ticket of a heartbeat's number.
fn ticket_of(line: u64, number: u64) -> Ticket
    ensures { result ≡ beat_ticket line number }
{
    Ticket {
        line,
        beat: true,
        number,
    }
}

impl<S: HeartHost, H: PlanForHeartbeats> Heartbeats<S, H> {
    /// A commit of the transaction of a line was begun in the newest line: its heartbeat starts there, where none was started.
    pub(crate) fn start_beat(&mut self, transaction: u64, turn: &mut Turn) -> Result<(), NoMemory>
        requires ready { IsReady S.ready S.sight H.meaning self.old }
        requires line { 1 ≤ length (beats_of self.old) }
        ensures side { OnOk result (self.new.side ≡ self.old.side) }
        ensures ended { OnOk result (turn.new.ended ≡ turn.old.ended) }
        ensures beats { OnOk result (PostsBeats (length (beats_of self.old)) (beats_of self.old) turn.old.posted.items turn.new.posted.items (beats_of self.new)) }
        ensures ready { OnOk result (IsReady S.ready S.sight H.meaning self.new) }
        ensures once { was_started (starts_of self.old) transaction ≡ true → OnOk result ((self.new ≡ self.old) × (turn.new ≡ turn.old)) }
        ensures starts { was_started (starts_of self.old) transaction ≡ false → OnOk result (StartsAsLent (S.heart self.old.side transaction) (length (beats_of self.old)) transaction self.old self.new turn.old turn.new) }
    {
        if self.was_started(transaction) {
            return Ok(());
        }
        match self.side.heartbeat(transaction)? {
            None => Ok(()),
            Some(heartbeat) => {
                let line = self.pulses.len() as u64;
                let mut job = HeartbeatJob::new(self.alloc, heartbeat);
                let mut out = self.outbox(line)?;
                job.start(&mut out)?;
                self.mark_started(transaction);
                self.keep(line, transaction, job);
                self.post(line, out, turn)
            }
        }
    }

    /// Something came for the heartbeat of a line.
    pub(crate) fn tell_beat(
        &mut self,
        line: u64,
        arrival: Arrival,
        now: u64,
    ) -> Result<Turn, NoMemory>
        requires ready { IsReady S.ready S.sight H.meaning self.old }
        requires arrives { MayArrive arrival }
        requires clock { now < 2 ^ 44 }
        ensures ended { IfOk result (λ turn. turn.ended.items ≡ []) }
        ensures stays { OnOk result (StaysSo S.sight S.waits S.account S.rests S.arises S.holds self.old.side self.new.side) }
        ensures beats { IfOk result (λ turn. AreBeats line (beats_of self.old) turn.posted.items (beats_of self.new)) }
        ensures dead { is_live (S.sight self.old.side) line ≡ false → IfOk result (λ turn. turn.posted.items ≡ []) }
        ensures ready { OnOk result (IsReady S.ready S.sight H.meaning self.new) }
        ensures told { is_live (S.sight self.old.side) line ≡ true → IfOk result (TellsJob H.meaning S.status_at line arrival now self.old self.new) }
        ensures nobody { job_at (jobs_of self.old) line ≡ None → IfOk result (λ turn. (turn.posted.items ≡ []) × (jobs_of self.new ≡ jobs_of self.old)) }
        ensures kept { OnOk result ((starts_of self.new ≡ starts_of self.old) × (transactions_of self.new ≡ transactions_of self.old)) }
    {
        let mut turn = Turn::new(self.alloc);
        if !self.side.is_live(line) {
            drop(arrival);
            return Ok(turn);
        }
        match self.take_job(line) {
            None => {
                drop(arrival);
                Ok(turn)
            }
            Some(mut job) => {
                let transaction = self.transaction_of(line);
                let status = self.side.status(transaction);
                let mut out = self.outbox(line)?;
                // Nobody waits for what became of it.
                drop(
                    self.side
                        .beat(line, &mut job, arrival, status, now, &mut out)?,
                );
                self.keep(line, transaction, job);
                self.post(line, out, &mut turn)?;
                Ok(turn)
            }
        }
    }

    /// Posts what the heartbeat of a line wants done.
    fn post(&mut self, line: u64, out: Outbox, turn: &mut Turn) -> Result<(), NoMemory>
        requires { IsLine (beats_of self.old) line }
        ensures posted { OnOk result (turn.new.posted.items ≡ turn.old.posted.items ++ postings_of line out.sends) }
        ensures timeless { OnOk result (AreTimeless out.sends) }
        ensures ended { OnOk result (turn.new.ended ≡ turn.old.ended) }
        ensures side { OnOk result (self.new.side ≡ self.old.side) }
        ensures beats { OnOk result (beats_of self.new ≡ slice_set (beats_of self.old) (line - 1) out.next) }
        ensures jobs { OnOk result (jobs_of self.new ≡ jobs_of self.old) }
        ensures starts { OnOk result (starts_of self.new ≡ starts_of self.old) }
        ensures transactions { OnOk result (transactions_of self.new ≡ transactions_of self.old) }
    {
        let mut out = out;
        let sends = mem::replace(&mut out.sends, Vec::new(self.alloc));
        post_all(self.alloc, line, sends, turn)?;
        self.set_next(line, out.next);
        Ok(())
    }
}
