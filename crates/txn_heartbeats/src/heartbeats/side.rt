//! What a machine asks of clients and their heartbeats.
ghost use Rattle.std.specs.Prelude.{◌≡◌, ◌<◌, ◌≤◌, ◌^◌, [], IfOk, None, OnOk, false, true};
ghost use Rattle.txn_heartbeats.specs.Hearts.{IsReady, job_at, jobs_of, sight_of};
ghost use Rattle.txn_heartbeats.specs.Started.{BeginsOnCommit, TellsJob, arrival_of, is_commit};
ghost use Rattle.txn_heartbeats.specs.Steps.{ToldWithBeats, UsedWithBeats};
ghost use Rattle.txn_side.specs.Sight.{is_live, line_count};

use crate::heartbeats::Heartbeats;
use crate::pulse::Pulse;
use txn_heartbeat::{HeartHost, PlanForHeartbeats};
use txn_kv::{Arrival, NoMemory, Ticket};
use txn_lines::{Act, ClientAct};
use txn_side::{ClientSide, Coming, Turn};

fn is_commit(act: &Act) -> bool
    ensures { result ≡ is_commit act.now }
{
    matches!(act, Act::Commit)
}

/// What came for a ticket of a heartbeat, as its job is told of it.
fn arrival_of(number: u64, what: Coming) -> Arrival
    ensures { result ≡ arrival_of number what }
{
    match what {
        Coming::Reply(reply) => Arrival::Reply { number, reply },
        Coming::Lost => Arrival::Lost { number },
        Coming::Slept => Arrival::Slept { number },
    }
}

impl<S: HeartHost, H: PlanForHeartbeats> ClientSide for Heartbeats<S, H> {
    ghost use Rattle.txn_heartbeats.specs.Hearts.{ArisesIn, IsReady, RestsIn, sight_of, waits_of};
    ghost use Rattle.txn_heartbeats.specs.Standing.{arises_outside, due_so, nobody_arises_so, nobody_rests_so, nobody_waits_so, rests_longer_so};

    ghost sight = { sight_of S.sight };

    ghost ready = { IsReady S.ready S.sight H.meaning };

    ghost waits = { waits_of S.sight S.waits };

    ghost nobody_waits = { λ b. nobody_waits_so S.sight b S.waits (S.nobody_waits b.side) };

    ghost due = { λ b r. due_so S.sight b S.waits r.unbeaten (S.due b.side r.side) };

    ghost account = { λ b. S.account b.side };

    ghost fails = { S.fails };

    ghost rests = { RestsIn S.sight S.rests };

    ghost rests_longer = { λ b. rests_longer_so S.sight b S.rests (S.rests_longer b.side) };

    ghost nobody_rests = { λ b. nobody_rests_so S.sight b S.rests (S.nobody_rests b.side) };

    ghost arises = { ArisesIn S.arises };

    ghost holds = { λ b. S.holds b.side };

    ghost nobody_arises = { λ b. nobody_arises_so S.arises S.holds b S.ready S.sight H.meaning (S.nobody_arises b.side) };

    ghost arises_longer = { λ b h e outside may a. arises_outside S.arises S.holds b h e outside a (S.arises_longer b.side h e outside may a.side) };

    fn open(&mut self) -> Result<(), NoMemory> {
        self.side.open()?;
        self.pulses.push(Pulse::new())?;
        Ok(())
    }

    fn is_live(&self, line: u64) -> bool {
        self.side.is_live(line)
    }

    fn connect(&mut self, now: u64) -> Result<(), NoMemory> {
        self.side.connect(now)
    }

    fn crash(&mut self, line: u64) -> bool {
        self.side.crash(line)
    }

    fn call(&mut self, client: u64, act: ClientAct, now: u64) -> Result<Option<Turn>, NoMemory> {
        self.side.call(client, act, now)
    }

    fn act(&mut self, transaction: u64, act: Act, now: u64) -> Result<Option<Turn>, NoMemory>
        requires ready { IsReady S.ready S.sight H.meaning self.old }
        requires line { 1 ≤ line_count (sight_of S.sight self.old) }
        requires clock { now < 2 ^ 44 }
        ensures step { IfOk result (UsedWithBeats S.sight S.ready H.meaning S.waits S.account S.fails S.rests S.arises S.holds transaction act self.old self.new) }
        ensures begins { IfOk result (BeginsOnCommit S.sight S.heart act transaction self.old self.new) }
        ensures alone { is_commit act ≡ false → OnOk result (self.new ≡ record self.old { side = self.new.side }) }
    {
        let commits = is_commit(&act);
        match self.side.act(transaction, act, now)? {
            None => Ok(None),
            Some(mut turn) => {
                if !commits {
                    return Ok(Some(turn));
                }
                self.start_beat(transaction, &mut turn)?;
                Ok(Some(turn))
            }
        }
    }

    fn tell(&mut self, ticket: Ticket, what: Coming, now: u64) -> Result<Turn, NoMemory>
        requires ready { IsReady S.ready S.sight H.meaning self.old }
        requires clock { now < 2 ^ 44 }
        ensures step { IfOk result (ToldWithBeats S.sight S.ready H.meaning S.waits S.account S.fails S.rests S.arises S.holds ticket what self.old self.new) }
        ensures told { ticket.beat ≡ true → is_live (S.sight self.old.side) ticket.line ≡ true → IfOk result (TellsJob H.meaning S.status_at ticket.line (arrival_of ticket.number what) now self.old self.new) }
        ensures nobody { ticket.beat ≡ true → job_at (jobs_of self.old) ticket.line ≡ None → IfOk result (λ turn. (turn.posted.items ≡ []) × (jobs_of self.new ≡ jobs_of self.old)) }
        ensures alone { ticket.beat ≡ false → OnOk result (self.new ≡ record self.old { side = self.new.side }) }
    {
        if !ticket.beat {
            return self.side.tell(ticket, what, now);
        }
        self.tell_beat(ticket.line, arrival_of(ticket.number, what), now)
    }
}
