//! What the calls of the lines want done is posted.
ghost use Rattle.txn_clients.specs.Arising.{HandsAll};
ghost use Rattle.txn_side.specs.declared.turn.Posting.TheVariants.{Send};
ghost use Rattle.std.specs.Bool.{MatchBool};
ghost use Rattle.std.specs.Prelude.{◌≡◌, ◌-◌, ◌<◌, ◌++◌, ◌∷◌, ⊤, [], List, false, length, slice_set, true, IfOk, OnOk};
ghost use Rattle.txn_clients.specs.Clients.{IsLine, crashed_of, groups_of, nexts_of, rows_of, sight_of};
ghost use Rattle.txn_clients.specs.Going.{Advances, AreNext, HasNext, next_after};
ghost use Rattle.txn_clients.specs.Waiting.{AsksOne, HandsOn, PostsOne, asks_of, posted_at};
ghost use Rattle.txn_history.specs.Posted.{HasNumbers};
ghost use Rattle.txn_history.specs.Posted.{Errand as Wanted};
ghost use Rattle.txn_kv.specs.declared.request.Request.TheVariants.{Tso};
ghost use Rattle.txn_kv.specs.declared.request.cluster.TsoRequest.{TsoRequest as Asks};
ghost use Rattle.txn_side.specs.Sight.{AskersAre, HasAskers, IsNext, is_live, line_count, next_at, ticket_in, with_next};
ghost use Rattle.std.specs.List.{Any};
ghost use Rattle.txn_side.specs.Trace.{IsSend};
ghost use Rattle.txn_side.specs.Waiting.Awaited.{ReplyTo};

use crate::clients::Clients;
use crate::place::NUMBERS_END;
use txn_kv::{Errand, Items, NoMemory, Outbox, Request, Target, Ticket};
use txn_side::{Posting, Turn};

fn is_tso(request: &Request) -> bool
    ensures { MatchBool result ⊤ ((r : Asks) → request.now ≡ Tso r → ⊥) }
{
    matches!(request, Request::Tso(_))
}

impl<P> Clients<P> {
    /// An empty outbox for a line.
    pub(crate) fn outbox(&self, line: u64) -> Result<Outbox, NoMemory>
        requires { IsLine (sight_of self.now).stands line }
        ensures next { IfOk result (λ out. out.next ≡ next_at (nexts_of self.now) line) }
        ensures sends { IfOk result (λ out. out.sends ≡ []) }
        ensures is { IfOk result (λ out. out ≡ posted_at (nexts_of self.now) (asks_of self.now) line) }
        ensures numbers { IfOk result HasNumbers }
    {
        self.places[line as usize - 1].outbox(self.alloc, line)
    }

    /// The numbers of the asks of a line go on from here.
    pub(crate) fn set_next_ask(&mut self, line: u64, next_ask: u64)
        requires { IsLine (sight_of self.old).stands line }
        ensures rows { rows_of self.new ≡ rows_of self.old }
        ensures nexts { nexts_of self.new ≡ nexts_of self.old }
        ensures asks { asks_of self.new ≡ slice_set (asks_of self.old) (line - 1) next_ask }
        ensures clients { self.new.clients ≡ self.old.clients }
    {
        self.places[line as usize - 1].next_ask = next_ask;
    }

    /// The next number of a line is one greater. There is none where the numbers have run out.
    fn raise(&mut self, line: u64) -> Result<(), NoMemory>
        requires { IsLine (sight_of self.old).stands line }
        ensures rows { OnOk result (rows_of self.new ≡ rows_of self.old) }
        ensures nexts { OnOk result (nexts_of self.new ≡ with_next (nexts_of self.old) line) }
        ensures asks { OnOk result (asks_of self.new ≡ asks_of self.old) }
        ensures clients { self.new.clients ≡ self.old.clients }
    {
        let next = self.places[line as usize - 1].next;
        if next >= NUMBERS_END {
            return Err(NoMemory);
        }
        self.places[line as usize - 1].next = next + 1;
        Ok(())
    }

    /// Posts this, which has the next number of its line.
    pub(crate) fn post(
        &mut self,
        line: u64,
        posting: Posting,
        turn: &mut Turn,
    ) -> Result<(), NoMemory>
        requires line { IsLine (sight_of self.old).stands line }
        requires live { is_live (sight_of self.old) line ≡ true }
        requires own { (ticket_in posting).line ≡ line }
        requires beat { (ticket_in posting).beat ≡ false }
        requires next { IsNext (sight_of self.old).nexts (ticket_in posting) }
        requires askers { HasAskers posting }
        requires lines { AskersAre (line_count (sight_of self.old)) posting }
        ensures posted { OnOk result (turn.new.posted.items ≡ turn.old.posted.items ++ posting ∷ []) }
        ensures advances { OnOk result (Advances turn.old turn.new (sight_of self.old) (sight_of self.new)) }
        ensures ended { OnOk result (turn.new.ended ≡ turn.old.ended) }
        ensures rows { OnOk result (rows_of self.new ≡ rows_of self.old) }
        ensures nexts { OnOk result (nexts_of self.new ≡ with_next (nexts_of self.old) line) }
        ensures asks { OnOk result (asks_of self.new ≡ asks_of self.old) }
        ensures clients { OnOk result (self.new.clients ≡ self.old.clients) }
    {
        turn.posted.push(posting)?;
        self.raise(line)
    }

    /// A line sends a request under this number.
    fn send(
        &mut self,
        line: u64,
        number: u64,
        to: Target,
        request: Request,
        turn: &mut Turn,
    ) -> Result<(), NoMemory>
        requires line { IsLine (sight_of self.old).stands line }
        requires live { is_live (sight_of self.old) line ≡ true }
        requires next { number ≡ next_at (nexts_of self.old) line }
        ensures advances { OnOk result (Advances turn.old turn.new (sight_of self.old) (sight_of self.new)) }
        ensures ended { OnOk result (turn.new.ended ≡ turn.old.ended) }
        ensures rows { OnOk result (rows_of self.new ≡ rows_of self.old) }
        ensures nexts { OnOk result (nexts_of self.new ≡ with_next (nexts_of self.old) line) }
        ensures asks { OnOk result (asks_of self.new ≡ asks_of self.old) }
        ensures clients { OnOk result (self.new.clients ≡ self.old.clients) }
        ensures posts { OnOk result (PostsOne line (ReplyTo number) turn.old.posted.items turn.new.posted.items) }
        ensures sent { OnOk result (Any (IsSend (record { line = line; beat = false; number = number }) request) turn.new.posted.items) }
        ensures exact { OnOk result (turn.new.posted.items ≡ turn.old.posted.items ++ Send (record { line = line; beat = false; number = number }) to request [] ∷ []) }
    {
        // Timestamps are asked for by the oracle, and by nobody else.
        if is_tso(&request) {
            return Err(NoMemory);
        }
        let posting = Posting::Send {
            ticket: ticket_of(line, number),
            to,
            request,
            askers: Items::new(self.alloc),
        };
        self.post(line, posting, turn)
    }

    /// A line asks the oracle of its client for a timestamp.
    fn ask_oracle(&mut self, client: usize, line: u64, ask: u64) -> Result<(), NoMemory>
        requires { client < length (crashed_of self.old) }
        ensures rows { OnOk result (rows_of self.new ≡ rows_of self.old) }
        ensures nexts { OnOk result (nexts_of self.new ≡ nexts_of self.old) }
        ensures crashed { OnOk result (crashed_of self.new ≡ crashed_of self.old) }
        ensures groups { OnOk result (groups_of self.new ≡ groups_of self.old) }
        ensures asks { OnOk result (AsksOne client (record { line = line; beat = false; ask = ask }) self.old self.new) }
    {
        self.clients[client].ask(line, ask)
    }

    /// Does what the call of a line wants done.
    fn hand_on(
        &mut self,
        line: u64,
        client: usize,
        errand: Errand,
        turn: &mut Turn,
    ) -> Result<(), NoMemory>
        requires line { IsLine (sight_of self.old).stands line }
        requires live { is_live (sight_of self.old) line ≡ true }
        requires client { client < length (crashed_of self.old) }
        requires next { HasNext (next_at (nexts_of self.old) line) errand }
        ensures advances { OnOk result (Advances turn.old turn.new (sight_of self.old) (sight_of self.new)) }
        ensures ended { OnOk result (turn.new.ended ≡ turn.old.ended) }
        ensures rows { OnOk result (rows_of self.new ≡ rows_of self.old) }
        ensures crashed { OnOk result (crashed_of self.new ≡ crashed_of self.old) }
        ensures next { OnOk result (next_at (nexts_of self.new) line ≡ next_after errand (next_at (nexts_of self.old) line)) }
        ensures hands { OnOk result ((rest : List Wanted) → HandsOn line client (errand ∷ rest) rest turn.old.posted.items turn.new.posted.items self.old self.new) }
        ensures exact { OnOk result ((rest : List Wanted) → HandsAll line client (errand ∷ rest) rest turn.old.posted.items turn.new.posted.items self.old self.new) }
    {
        match errand {
            Errand::Send {
                number,
                to,
                request,
            } => self.send(line, number, to, request, turn),
            Errand::Sleep { number, .. } => {
                let posting = Posting::Sleep {
                    ticket: ticket_of(line, number),
                };
                self.post(line, posting, turn)
            }
            Errand::Ask { ask } => self.ask_oracle(client, line, ask),
        }
    }

    /// Does all that the call of a line wants done, in order.
    pub(crate) fn hand_out(
        &mut self,
        line: u64,
        client: usize,
        sends: Vec<Errand>,
        turn: &mut Turn,
    ) -> Result<(), NoMemory>
        requires line { IsLine (sight_of self.old).stands line }
        requires live { is_live (sight_of self.old) line ≡ true }
        requires client { client < length (crashed_of self.old) }
        requires next { AreNext (next_at (nexts_of self.old) line) sends.items }
        ensures hands { OnOk result (HandsOn line client sends.items [] turn.old.posted.items turn.new.posted.items self.old self.new) }
        ensures advances { OnOk result (Advances turn.old turn.new (sight_of self.old) (sight_of self.new)) }
        ensures ended { OnOk result (turn.new.ended ≡ turn.old.ended) }
        ensures rows { OnOk result (rows_of self.new ≡ rows_of self.old) }
        ensures crashed { OnOk result (crashed_of self.new ≡ crashed_of self.old) }
        ensures exact { OnOk result (HandsAll line client sends.items [] turn.old.posted.items turn.new.posted.items self.old self.new) }
    {
        for errand in sends {
            self.hand_on(line, client, errand, turn)?;
        }
        Ok(())
    }
}

pub(crate) fn ticket_of(line: u64, number: u64) -> Ticket
    ensures { result ≡ record { line = line; beat = false; number = number } }
{
    Ticket {
        line,
        beat: false,
        number,
    }
}
