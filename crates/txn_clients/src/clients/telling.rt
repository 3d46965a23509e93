//! What stands at the lines is told of what came.
ghost use Rattle.txn_clients.specs.Arising.{AnswerArises, CallCame, LeadsEnded, LeadsPushed, LeadsTold, MovesRow};
ghost use Rattle.std.specs.Prelude.{⊤};
ghost use Rattle.txn_clients.specs.declared.answer.Answer.TheVariants.{Called};
ghost use Rattle.txn_clients.specs.declared.row.Row.TheVariants.{Plain};
ghost use Rattle.std.specs.Prelude.{◌≡◌, ◌<◌, ◌^◌, ◌-◌, ℕ, Option, true, length, IfOk, IfSome, IsTrue, OnOk, Bool, None, Some, false};
ghost use Rattle.txn_clients.specs.Accounts.{AccountsTold, AnswersNew, AnswersTold, BeginsNew, account_at, is_heard};
ghost use Rattle.txn_clients.specs.Closing.{ClosesIn, EndsCall, EndsOwn, GoesTold, HasComeTo, StandsAt, stage_after};
ghost use Rattle.txn_clients.specs.Clients.{AreReady, HearsFor, IsLine, Listens, MayEnd, crashed_of, groups_of, nexts_of, row_at, rows_of, sight_of};
ghost use Rattle.txn_clients.specs.Going.{Advances, EndsIn, NamesIn, OfLine};
ghost use Rattle.txn_clients.specs.Rows.{AnswerFits, AskFits, Brings, IsStamped, IsToldIn, MayHear, MayTell, Posts, Rests, Tells, stand_of};
ghost use Rattle.txn_clients.specs.Turns.{AskGoes, CallGoes, CameGoes, JobGoes, PushGoes, ToldGoes, TurnLeads};
ghost use Rattle.txn_clients.specs.Waiting.{AreRunning, AreRunningBut, IsAnswerOf, IsNewAnswer, IsPrepared, NoneHears, RunsOn, TellsRow};
ghost use Rattle.txn_clients.specs.declared.answer.Answer.TheVariants.{Asked};
ghost use Rattle.txn_clients.specs.declared.told.Told.TheVariants.{Heard, Start};
ghost use Rattle.txn_core.specs.Waiting.{HandsOut};
ghost use Rattle.txn_history.specs.Posted.{HasNumbers};
ghost use Rattle.txn_history.specs.Arrivals.{MayArrive};
ghost use Rattle.txn_side.specs.Account.{AreKept};
ghost use Rattle.txn_side.specs.Sight.{NoneGiven, is_live, stand_at, client_at};
ghost use Rattle.txn_side.specs.Sight.Stand.{HasBegun, Asking, Calling, Working};

use crate::answer::{Answer, Pd};
use crate::clients::{Clients, Listener};
use crate::endings::Ended;
use crate::row::Row;
use crate::told::Told;
use crate::transactions::has_come_to;
use crate::untimed::is_told_last;
use std::mem;
use txn_client::ClientAnswer;
use txn_commit::Plans;
use txn_core::TxnAnswer;
use txn_kv::{Arrival, NoMemory, Outbox};
use txn_side::{Ending, Turn};

impl<P> Clients<P>
where
    P: Plans,
{
    /// What stands at a place is told of something, with the outbox of a line.
    fn tell_row(
        &mut self,
        listener: Listener,
        told: Told,
        now: u64,
        out: &mut Outbox,
    ) -> Result<Option<Answer<P>>, NoMemory>
        requires place { listener.at < length (rows_of self.old) }
        requires client { listener.client < length (crashed_of self.old) }
        requires ready { AreReady P.ways (rows_of self.old) }
        requires told { MayTell told }
        requires hears { MayHear told (row_at (rows_of self.old) listener.at) }
        requires numbers { HasNumbers out.old }
        requires clock { now < 2 ^ 44 }
        ensures stands { OnOk result ((sight_of self.new).stands ≡ (sight_of self.old).stands) }
        ensures nexts { OnOk result (nexts_of self.new ≡ nexts_of self.old) }
        ensures crashed { OnOk result (crashed_of self.new ≡ crashed_of self.old) }
        ensures groups { OnOk result (groups_of self.new ≡ groups_of self.old) }
        ensures ready { OnOk result (AreReady P.ways (rows_of self.new)) }
        ensures accounts { IfOk result (λ answer. AccountsTold told listener.at answer (rows_of self.old) (rows_of self.new)) }
        ensures answers { IfOk result (AnswersTold told (row_at (rows_of self.old) listener.at)) }
        ensures begins { IfOk result (λ answer. IfSome answer AnswersNew) }
        ensures posts { OnOk result (Posts out.old out.new) }
        ensures rests { IfOk result (λ answer. IfSome answer (λ a. Rests (row_at (rows_of self.new) listener.at))) }
        ensures fits { IfOk result (λ answer. IfSome answer (AnswerFits P.ways)) }
        ensures stamped { IfOk result (λ answer. IfSome answer (IsToldIn told)) }
        ensures tells { IfOk result (λ answer. TellsRow P.ways told listener.at self.old self.new out.old out.new answer) }
        ensures new { IfOk result (λ answer. IfSome answer IsNewAnswer) }
        ensures kind { IfOk result (λ answer. IfSome answer (IsAnswerOf (stand_of (row_at (rows_of self.old) listener.at)))) }
        ensures moves { IfOk result (λ answer. MovesRow P.ways told listener.at self.old self.new out.old out.new answer) }
    {
        let pd = self.clients[listener.client].client.pd();
        self.places[listener.at].row.tell(told, pd, now, out)
    }

    /// What stands at a place is told of something, and what it wants done is posted for the line. Gives its answer, if it has
    /// one now.
    fn push(
        &mut self,
        line: u64,
        listener: Listener,
        told: Told,
        now: u64,
        turn: &mut Turn,
    ) -> Result<Option<Answer<P>>, NoMemory>
        requires line { IsLine (sight_of self.old).stands line }
        requires live { is_live (sight_of self.old) line ≡ true }
        requires place { listener.at < length (rows_of self.old) }
        requires client { listener.client < length (crashed_of self.old) }
        requires ready { AreReady P.ways (rows_of self.old) }
        requires told { MayTell told }
        requires hears { MayHear told (row_at (rows_of self.old) listener.at) }
        requires clock { now < 2 ^ 44 }
        ensures advances { OnOk result (Advances turn.old turn.new (sight_of self.old) (sight_of self.new)) }
        ensures ended { OnOk result (turn.new.ended ≡ turn.old.ended) }
        ensures stands { OnOk result ((sight_of self.new).stands ≡ (sight_of self.old).stands) }
        ensures crashed { OnOk result (crashed_of self.new ≡ crashed_of self.old) }
        ensures ready { OnOk result (AreReady P.ways (rows_of self.new)) }
        ensures accounts { IfOk result (λ answer. AccountsTold told listener.at answer (rows_of self.old) (rows_of self.new)) }
        ensures answers { IfOk result (AnswersTold told (row_at (rows_of self.old) listener.at)) }
        ensures begins { IfOk result (λ answer. IfSome answer AnswersNew) }
        ensures rests { IfOk result (λ answer. IfSome answer (λ a. Rests (row_at (rows_of self.new) listener.at))) }
        ensures fits { IfOk result (λ answer. IfSome answer (AnswerFits P.ways)) }
        ensures stamped { IfOk result (λ answer. IfSome answer (IsToldIn told)) }
        ensures waits { IfOk result (PushGoes P.ways told line listener.at listener.client turn.old turn.new self.old self.new) }
        ensures runs { IfOk result (λ answer. RunsOn told listener.at answer (rows_of self.old) (rows_of self.new)) }
        ensures new { IfOk result (λ answer. IfSome answer IsNewAnswer) }
        ensures kind { IfOk result (λ answer. IfSome answer (IsAnswerOf (stand_of (row_at (rows_of self.old) listener.at)))) }
        ensures leads { IfOk result (λ answer. LeadsPushed P.ways told line listener.at listener.client answer turn.old.posted.items turn.new.posted.items turn.old.ended.items turn.new.ended.items self.old self.new) }
    {
        let mut out = self.outbox(line)?;
        let answer = self.tell_row(listener, told, now, &mut out)?;
        let sends = mem::replace(&mut out.sends, Vec::new(self.alloc));
        self.hand_out(line, listener.client, sends, turn)?;
        self.set_next_ask(line, out.next_ask);
        Ok(answer)
    }

    /// The call for a timestamp that stands at a line has ended.
    fn end_ask(
        &mut self,
        line: u64,
        answer: txn_kv::Result<ClientAnswer<Pd, P>>,
        turn: &mut Turn,
    ) -> Result<(), NoMemory>
        requires line { IsLine (sight_of self.old).stands line }
        requires live { is_live (sight_of self.old) line ≡ true }
        requires ready { AreReady P.ways (rows_of self.old) }
        requires answer { AskFits P.ways answer }
        requires begins { BeginsNew answer }
        ensures advances { OnOk result (Advances turn.old turn.new (sight_of self.old) (sight_of self.new)) }
        ensures alone { OnOk result (EndsIn line turn.old turn.new) }
        ensures names { OnOk result (NamesIn (OfLine line (IsStamped answer)) turn.old turn.new) }
        ensures ends { OnOk result (EndsOwn line turn.old.ended.items turn.new.ended.items) }
        ensures waits { OnOk result (IsNewAnswer {P = P} (Asked answer) → AskGoes P.ways line answer turn.old turn.new self.old self.new) }
        ensures runs { OnOk result ((c : ℕ) (b : Bool) → stand_at (sight_of self.old).stands line ≡ Asking c b → AreRunningBut (line - 1) (rows_of self.old) → AreRunning (rows_of self.new)) }
        ensures ready { OnOk result (AreReady P.ways (rows_of self.new)) }
        ensures accounts { OnOk result (AreKept (account_at (rows_of self.old)) (account_at (rows_of self.new))) }
        ensures crashed { OnOk result (crashed_of self.new ≡ crashed_of self.old) }
        ensures leads { OnOk result (IsNewAnswer {P = P} (Asked answer) → TurnLeads P.ways (λ askers h. AnswerArises P.ways ⊥ askers line Plain (Some (Asked answer)) h) turn.old turn.new self.old self.new) }
    {
        match self.row(line) {
            Row::Asking { client, begins, .. } => {
                let ended = Ended::asked(*client, *begins, answer)?;
                self.set_row(line, ended.row);
                turn.ended.push(Ending {
                    line,
                    outcome: ended.outcome,
                })?;
                Ok(())
            }
            _ => Ok(()),
        }
    }

    /// The call of a transaction that stands at a line has ended, and the transaction waits no more.
    fn end_call(
        &mut self,
        line: u64,
        answer: txn_kv::Result<TxnAnswer<P>>,
        turn: &mut Turn,
    ) -> Result<(), NoMemory>
        requires line { IsLine (sight_of self.old).stands line }
        requires live { is_live (sight_of self.old) line ≡ true }
        requires may { MayEnd (rows_of self.old) line (stand_at (sight_of self.old).stands line) }
        requires ready { AreReady P.ways (rows_of self.old) }
        requires answer { HandsOut P.ways.plan answer }
        ensures advances { OnOk result (Advances turn.old turn.new (sight_of self.old) (sight_of self.new)) }
        ensures alone { OnOk result (EndsIn line turn.old turn.new) }
        ensures names { OnOk result (NamesIn NoneGiven turn.old turn.new) }
        ensures waits { OnOk result (CallGoes P.ways line answer turn.old turn.new self.old self.new) }
        ensures runs { OnOk result ((c x : ℕ) (b : Bool) → stand_at (sight_of self.old).stands line ≡ Calling c x b → AreRunningBut (x - 1) (rows_of self.old) → AreRunning (rows_of self.new)) }
        ensures clients { OnOk result ((c : ℕ) → client_at (stand_at (sight_of self.old).stands line) ≡ Some c → client_at (stand_at (sight_of self.new).stands line) ≡ Some c) }
        ensures live { OnOk result (is_live (sight_of self.new) line ≡ true) }
        ensures ready { OnOk result (AreReady P.ways (rows_of self.new)) }
        ensures accounts { OnOk result (AreKept (account_at (rows_of self.old)) (account_at (rows_of self.new))) }
        ensures ends { OnOk result (EndsCall line (stand_at (sight_of self.old).stands line) answer turn.old.ended.items turn.new.ended.items) }
        ensures crashed { OnOk result (crashed_of self.new ≡ crashed_of self.old) }
        ensures count { OnOk result (length (sight_of self.new).stands ≡ length (sight_of self.old).stands) }
        ensures leads { OnOk result (LeadsEnded P.ways (CallCame P.ways self.old line (Some (Called answer))) turn.old.posted.items turn.new.posted.items turn.old.ended.items turn.new.ended.items self.old self.new) }
    {
        match self.row(line) {
            Row::Calling {
                client,
                transaction,
                commits,
            } => {
                let transaction = *transaction;
                let ended = Ended::called(*client, *commits, answer)?;
                self.set_waits(transaction, 0);
                self.set_row(line, ended.row);
                turn.ended.push(Ending {
                    line,
                    outcome: ended.outcome,
                })?;
                Ok(())
            }
            _ => Ok(()),
        }
    }

    /// Whether a transaction that stands at a place has come as far as the answer of its call says, which commits or rolls back.
    fn stands_at(&self, at: usize, commits: bool, answer: &txn_kv::Result<TxnAnswer<P>>) -> bool
        requires { at < length (rows_of self.now) }
        ensures { IsTrue result → StandsAt (stage_after commits answer.now) (row_at (rows_of self.now) at) }
    {
        match &self.places[at].row {
            Row::Begun { transaction, .. } => has_come_to(transaction, commits, answer),
            _ => true,
        }
    }

    /// Whether a transaction has come as far as the answer says that the call of a line has.
    fn has_come_to(&self, line: u64, at: usize, answer: &txn_kv::Result<TxnAnswer<P>>) -> bool
        requires line { IsLine (sight_of self.now).stands line }
        requires place { at < length (rows_of self.now) }
        ensures { IsTrue result → HasComeTo (stand_at (sight_of self.now).stands line) answer.now (row_at (rows_of self.now) at) }
    {
        match self.row(line) {
            Row::Calling { commits, .. } => self.stands_at(at, *commits, answer),
            _ => true,
        }
    }

    /// Where something that came brought the answer, the transaction has come as far as that says: none does otherwise.
    fn come_to(
        &self,
        heard: bool,
        line: u64,
        at: usize,
        answer: &txn_kv::Result<TxnAnswer<P>>,
    ) -> Result<(), NoMemory>
        requires line { IsLine (sight_of self.now).stands line }
        requires place { at < length (rows_of self.now) }
        ensures { OnOk result (heard ≡ true → HasComeTo (stand_at (sight_of self.now).stands line) answer.now (row_at (rows_of self.now) at)) }
    {
        if heard && !self.has_come_to(line, at, answer) {
            return Err(NoMemory);
        }
        Ok(())
    }

    /// Whether a job stands at a line.
    fn has_job(&self, line: u64) -> bool
        requires { IsLine (sight_of self.now).stands line }
        ensures hears { IsTrue result → MayHear Start (row_at (rows_of self.now) (line - 1)) }
        ensures job { IsTrue result → (c : ℕ) × (stand_of (row_at (rows_of self.now) (line - 1)) ≡ Working c) }
    {
        matches!(self.row(line), Row::Working { .. })
    }

    /// The job behind a commit begins, if there is one at the line.
    fn start_job(
        &mut self,
        line: u64,
        client: usize,
        now: u64,
        turn: &mut Turn,
    ) -> Result<(), NoMemory>
        requires line { IsLine (sight_of self.old).stands line }
        requires live { is_live (sight_of self.old) line ≡ true }
        requires client { client < length (crashed_of self.old) }
        requires ready { AreReady P.ways (rows_of self.old) }
        requires clock { now < 2 ^ 44 }
        ensures advances { OnOk result (Advances turn.old turn.new (sight_of self.old) (sight_of self.new)) }
        ensures ended { OnOk result (turn.new.ended ≡ turn.old.ended) }
        ensures ready { OnOk result (AreReady P.ways (rows_of self.new)) }
        ensures accounts { OnOk result (AreKept (account_at (rows_of self.old)) (account_at (rows_of self.new))) }
        ensures crashed { OnOk result (crashed_of self.new ≡ crashed_of self.old) }
        ensures waits { OnOk result (JobGoes P.ways line client turn.old turn.new self.old self.new) }
        ensures runs { OnOk result (AreRunning (rows_of self.old) → AreRunning (rows_of self.new)) }
        ensures leads { OnOk result (client_at (stand_at (sight_of self.old).stands line) ≡ Some client → TurnLeads P.ways (λ askers h. ⊤) turn.old turn.new self.old self.new) }
    {
        if !self.has_job(line) {
            return Ok(());
        }
        let at = line as usize - 1;
        self.push(line, Listener { at, client }, Told::Start, now, turn)?;
        Ok(())
    }

    /// What waits for a line is told of something, and the call of the line may end.
    pub(crate) fn go(
        &mut self,
        line: u64,
        listener: Listener,
        told: Told,
        now: u64,
        turn: &mut Turn,
    ) -> Result<(), NoMemory>
        requires listens { Listens (sight_of self.old) line listener.at listener.client }
        requires ready { AreReady P.ways (rows_of self.old) }
        requires told { MayTell told }
        requires hears { MayHear told (row_at (rows_of self.old) listener.at) }
        requires clock { now < 2 ^ 44 }
        ensures advances { OnOk result (Advances turn.old turn.new (sight_of self.old) (sight_of self.new)) }
        ensures alone { OnOk result (EndsIn line turn.old turn.new) }
        ensures names { OnOk result (NamesIn (OfLine line (Tells told)) turn.old turn.new) }
        ensures ready { OnOk result (AreReady P.ways (rows_of self.new)) }
        ensures accounts { OnOk result (GoesTold told line listener.at (stand_at (sight_of self.old).stands line) (rows_of self.old) (rows_of self.new) turn.old.ended.items turn.new.ended.items) }
        ensures crashed { OnOk result (crashed_of self.new ≡ crashed_of self.old) }
        ensures waits { OnOk result (ToldGoes P.ways told line listener.at listener.client turn.old turn.new self.old self.new) }
        ensures runs { OnOk result (AreRunningBut listener.at (rows_of self.old) → IsPrepared told (row_at (rows_of self.old) listener.at) → AreRunning (rows_of self.new)) }
        ensures leads { OnOk result (LeadsTold P.ways told line listener.client turn.old.posted.items turn.new.posted.items turn.old.ended.items turn.new.ended.items self.old self.new) }
    {
        let heard = told.is_heard();
        let untimed = told.untimed();
        match self.push(line, listener, told, now, turn)? {
            None => Ok(()),
            Some(Answer::Asked(answer)) => {
                is_told_last(&answer, &untimed)?;
                self.end_ask(line, answer, turn)
            }
            Some(Answer::Called(answer)) => {
                self.come_to(heard, line, listener.at, &answer)?;
                is_told_last(&answer, &untimed)?;
                self.end_call(line, answer, turn)?;
                self.start_job(line, listener.client, now, turn)
            }
        }
    }

    /// Whether the transaction of a line waits for another line.
    fn waits_for(&self, transaction: u64, line: u64) -> bool
        ensures is { IsTrue result → (c : ℕ) × (stand_at (sight_of self.now).stands transaction ≡ HasBegun c line) }
        ensures not { result ≡ false → (c : ℕ) → stand_at (sight_of self.now).stands transaction ≡ HasBegun c line → ⊥ }
    {
        if transaction == 0 || transaction > self.newest() {
            return false;
        }
        match self.row(transaction) {
            Row::Begun { waits, .. } => *waits == line,
            _ => false,
        }
    }

    /// Who hears what comes for a line of this client.
    fn listener_of(&self, line: u64, client: usize) -> Option<Listener>
        requires { IsLine (sight_of self.now).stands line }
        ensures client { IfSome result (λ listener. listener.client ≡ client) }
        ensures place { IfSome result (λ listener. listener.at < length (sight_of self.now).stands) }
        ensures hears { IfSome result (λ listener. HearsFor (sight_of self.now).stands line listener.at (stand_at (sight_of self.now).stands line)) }
        ensures none { result ≡ None → NoneHears (sight_of self.now).stands line (stand_at (sight_of self.now).stands line) }
    {
        let own = line as usize - 1;
        match self.row(line) {
            Row::Asking { .. } => Some(Listener { at: own, client }),
            Row::Working { .. } => Some(Listener { at: own, client }),
            Row::Calling { transaction, .. } => {
                if !self.waits_for(*transaction, line) {
                    return None;
                }
                let at = *transaction as usize - 1;
                Some(Listener { at, client })
            }
            _ => None,
        }
    }

    /// Who hears what comes for a line: nobody, where its client has crashed.
    fn listener(&self, line: u64) -> Option<Listener>
        ensures listens { IfSome result (λ listener. Listens (sight_of self.now) line listener.at listener.client) }
        ensures own { IfSome result (λ listener. client_at (stand_at (sight_of self.now).stands line) ≡ Some listener.client) }
        ensures none { result ≡ None → is_live (sight_of self.now) line ≡ true → NoneHears (sight_of self.now).stands line (stand_at (sight_of self.now).stands line) }
    {
        match self.live_client(line) {
            None => None,
            Some(client) => self.listener_of(line, client),
        }
    }

    /// Whoever waits for a line hears what came for it, if anybody does.
    pub(crate) fn tell_line(
        &mut self,
        line: u64,
        arrival: Arrival,
        now: u64,
        turn: &mut Turn,
    ) -> Result<(), NoMemory>
        requires ready { AreReady P.ways (rows_of self.old) }
        requires arrives { MayArrive arrival }
        requires clock { now < 2 ^ 44 }
        ensures advances { OnOk result (Advances turn.old turn.new (sight_of self.old) (sight_of self.new)) }
        ensures names { OnOk result (NamesIn (OfLine line (Brings arrival)) turn.old turn.new) }
        ensures ready { OnOk result (AreReady P.ways (rows_of self.new)) }
        ensures accounts { OnOk result (ClosesIn (sight_of self.old) (rows_of self.old) (rows_of self.new) turn.old.ended.items turn.new.ended.items) }
        ensures crashed { OnOk result (crashed_of self.new ≡ crashed_of self.old) }
        ensures waits { OnOk result (CameGoes P.ways arrival line turn.old turn.new self.old self.new) }
        ensures runs { OnOk result (AreRunning (rows_of self.old) → AreRunning (rows_of self.new)) }
        ensures leads { OnOk result ((client : ℕ) → LeadsTold P.ways (Heard arrival) line client turn.old.posted.items turn.new.posted.items turn.old.ended.items turn.new.ended.items self.old self.new) }
    {
        match self.listener(line) {
            None => Ok(()),
            Some(listener) => self.go(line, listener, Told::Heard(arrival), now, turn),
        }
    }
}
