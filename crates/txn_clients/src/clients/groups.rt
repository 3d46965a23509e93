//! Timestamps: the groups of asks that go out, and what comes of them.
ghost use Rattle.txn_clients.specs.Arising.{GroupsNext, LeadsGiven, LeadsSent, PostsGroup, heard_by, oracle_of};
ghost use Rattle.std.specs.Prelude.{◌≡◌, ◌<◌, ◌≤◌, ◌^◌, ℕ, [], None, Option, Some, false, length, option_map, slice_set, true, IfOk, IfSome, IsTrue, OnOk};
ghost use Rattle.std.specs.List.{All};
ghost use Rattle.txn_clients.specs.Accounts.{account_at};
ghost use Rattle.txn_clients.specs.Clients.{AreGiven, AreReady, HasOut, IsLine, asks_at, crashed_of, groups_of, nexts_of, rows_of, sight_of};
ghost use Rattle.txn_clients.specs.Failing.{IfFails};
ghost use Rattle.txn_clients.specs.Going.{Advances, NamesIn};
ghost use Rattle.txn_clients.specs.Groups.{IsRefused, IsTimeFor, IsTimed, RefusesBy, coming_as, over_by};
ghost use Rattle.txn_clients.specs.Turns.{GivenGoes, GroupGoes, GroupLeads, NextGoes};
ghost use Rattle.txn_clients.specs.Waiting.{AreRunning, RegroupsAt, SendsGroup, SetsTicket, Takes, book_at};
ghost use Rattle.txn_kv.specs.declared.reply.Reply.TheVariants as replies;
ghost use Rattle.txn_kv.specs.declared.reply.cluster.TsoResponse.{TsoResponse as Times};
ghost use Rattle.txn_kv.specs.declared.request.Request.TheVariants.{Tso};
ghost use Rattle.txn_kv.specs.declared.ticket.Ticket.{Ticket as Name};
ghost use Rattle.txn_side.specs.Account.{AreClosed};
ghost use Rattle.txn_side.specs.Sight.{AskFor, GroupsGo, IsNext, is_live, line_count, client_at, stand_at};
ghost use Rattle.txn_side.specs.Steps.{GivesTo};
ghost use Rattle.txn_tso.specs.Oracle.{answered};

use crate::client_state::{Answers, Group};
use crate::clients::Clients;
use crate::clients::posting::ticket_of;
use txn_commit::Plans;
use txn_kv::{Arrival, NoMemory, Reply, Request, Target, Ticket};
use txn_side::{Posting, Turn};

impl<P> Clients<P> {
    /// Whether this is the ticket of the group of a client that is out.
    pub(crate) fn is_group(&self, client: usize, ticket: Ticket) -> bool
        ensures is { IsTrue result → HasOut (sight_of self.now) client ticket }
        ensures not { result ≡ false → (book_at self.now client).ticket ≡ Some ticket → ⊥ }
    {
        match self.clients.get(client) {
            None => false,
            Some(state) => state.is_group(ticket),
        }
    }

    /// The group of a client that goes out next, if one does.
    fn next_group(&mut self, client: usize) -> Result<Option<Group>, NoMemory>
        requires { client < length (crashed_of self.old) }
        ensures rows { OnOk result (rows_of self.new ≡ rows_of self.old) }
        ensures nexts { OnOk result (nexts_of self.new ≡ nexts_of self.old) }
        ensures crashed { OnOk result (crashed_of self.new ≡ crashed_of self.old) }
        ensures groups { OnOk result (GroupsGo [] (sight_of self.old) (sight_of self.new)) }
        ensures group { IfOk result (λ group. IfSome group (λ g. (line : ℕ) × AskFor line (Tso g.request) g.askers)) }
        ensures askers { IfOk result (λ group. IfSome group (λ g. g.askers ≡ asks_at self.new client)) }
        ensures lines { IfOk result (λ group. IfSome group (λ g. All (λ n. n ≤ line_count (sight_of self.new)) g.askers)) }
        ensures regroups { IfOk result (λ group. RegroupsAt client group self.old self.new) }
        ensures next { IfOk result (λ group. GroupsNext (option_map (λ g. g.request) group) (book_at self.old client) (book_at self.new client)) }
    {
        let newest = self.newest();
        self.clients[client].next_group(self.alloc, newest)
    }

    /// What the reply to the group of a client that is out gives its askers: none where it was lost.
    fn take_times(&mut self, client: usize, reply: Option<Reply>) -> Result<Answers, NoMemory>
        requires { client < length (crashed_of self.old) }
        ensures rows { OnOk result (rows_of self.new ≡ rows_of self.old) }
        ensures nexts { OnOk result (nexts_of self.new ≡ nexts_of self.old) }
        ensures crashed { OnOk result (crashed_of self.new ≡ crashed_of self.old) }
        ensures groups { OnOk result (GroupsGo [] (sight_of self.old) (sight_of self.new)) }
        ensures times { IfOk result (λ given. All IsTimeFor given.items) }
        ensures given { IfOk result (λ given. AreGiven (sight_of self.old) client reply given.items) }
        ensures errors { IfOk result (λ given. All (λ a. IfFails (RefusesBy (length given.items) reply) a.1) given.items) }
        ensures takes { IfOk result (λ given. Takes client given.items self.old self.new) }
        ensures granted { IfOk result (λ given. (times : Times) → reply ≡ Some (replies.Tso times) → given.items ≡ answered times (oracle_of (book_at self.old client))) }
        ensures refused { IfOk result (λ given. ((times : Times) → reply ≡ Some (replies.Tso times) → ⊥) → All IsRefused given.items) }
    {
        self.clients[client].take_group(self.alloc, reply)
    }

    /// This is the ticket of the group of a client that is out.
    fn set_group(&mut self, client: usize, ticket: Ticket)
        requires { client < length (crashed_of self.old) }
        ensures rows { rows_of self.new ≡ rows_of self.old }
        ensures nexts { nexts_of self.new ≡ nexts_of self.old }
        ensures crashed { crashed_of self.new ≡ crashed_of self.old }
        ensures groups { groups_of self.new ≡ slice_set (groups_of self.old) client (Some (record { ticket = ticket; askers = asks_at self.old client })) }
        ensures ticket { SetsTicket client ticket self.old self.new }
    {
        self.clients[client].group = Some(ticket);
    }

    /// Whether a line is of this client, which has not crashed.
    fn is_of(&self, line: u64, client: usize) -> bool
        ensures live { IsTrue result → is_live (sight_of self.now) line ≡ true }
        ensures own { IsTrue result → client_at (stand_at (sight_of self.now).stands line) ≡ Some client }
    {
        match self.live_client(line) {
            None => false,
            Some(own) => own == client,
        }
    }

    /// The next ticket of a line of a client.
    fn next_ticket(&self, client: usize, line: u64) -> Result<Ticket, NoMemory>
        ensures next { IfOk result (IsNext (sight_of self.now).nexts) }
        ensures beat { IfOk result (λ ticket. ticket.beat ≡ false) }
        ensures line { IfOk result (λ ticket. ticket.line ≡ line) }
        ensures is { OnOk result (IsLine (sight_of self.now).stands line) }
        ensures live { OnOk result (is_live (sight_of self.now) line ≡ true) }
        ensures own { OnOk result (client_at (stand_at (sight_of self.now).stands line) ≡ Some client) }
    {
        // Only lines of a client that has not crashed ask its oracle.
        if !self.is_of(line, client) {
            return Err(NoMemory);
        }
        Ok(ticket_of(line, self.places[line as usize - 1].next))
    }

    /// Sends the request of a group in the name of its first asker.
    fn send_request(&mut self, client: usize, group: Group, turn: &mut Turn) -> Result<(), NoMemory>
        requires client { client < length (crashed_of self.old) }
        requires group { (line : ℕ) × AskFor line (Tso group.request) group.askers }
        requires askers { group.askers ≡ asks_at self.old client }
        requires lines { All (λ n. n ≤ line_count (sight_of self.old)) group.askers }
        ensures advances { OnOk result (Advances turn.old turn.new (sight_of self.old) (sight_of self.new)) }
        ensures ended { OnOk result (turn.new.ended ≡ turn.old.ended) }
        ensures rows { OnOk result (rows_of self.new ≡ rows_of self.old) }
        ensures crashed { OnOk result (crashed_of self.new ≡ crashed_of self.old) }
        ensures sends { OnOk result (SendsGroup client turn.old.posted.items turn.new.posted.items self.old self.new) }
        ensures groups { OnOk result (GroupsGo turn.new.posted.items (sight_of self.old) (sight_of self.new)) }
        ensures exact { OnOk result (PostsGroup client group.request group.askers turn.old.posted.items turn.new.posted.items self.new) }
    {
        let line = match group.askers.as_slice().first() {
            None => return Ok(()),
            Some(line) => *line,
        };
        let ticket = self.next_ticket(client, line)?;
        let posting = Posting::Send {
            ticket,
            to: Target::Placement,
            request: Request::Tso(group.request),
            askers: group.askers,
        };
        self.post(line, posting, turn)?;
        self.set_group(client, ticket);
        Ok(())
    }
}

impl<P> Clients<P>
where
    P: Plans,
{
    /// At the end of a step the next group of a client goes out, unless one is out already or nobody asks.
    pub(crate) fn send_group(&mut self, client: usize, turn: &mut Turn) -> Result<(), NoMemory>
        requires { client < length (crashed_of self.old) }
        ensures advances { OnOk result (Advances turn.old turn.new (sight_of self.old) (sight_of self.new)) }
        ensures ended { OnOk result (turn.new.ended ≡ turn.old.ended) }
        ensures rows { OnOk result (rows_of self.new ≡ rows_of self.old) }
        ensures waits { OnOk result (NextGoes P.ways client turn.old turn.new self.old self.new) }
        ensures groups { OnOk result (GroupsGo turn.new.posted.items (sight_of self.old) (sight_of self.new)) }
        ensures leads { OnOk result (LeadsSent P.ways turn.old.posted.items turn.new.posted.items turn.old.ended.items turn.new.ended.items (heard_by self.old) self.old self.new) }
    {
        match self.next_group(client)? {
            None => Ok(()),
            Some(group) => self.send_request(client, group, turn),
        }
    }

    /// The reply to the group of a client that is out came, or it was lost.
    pub(crate) fn take_group(
        &mut self,
        client: usize,
        reply: Option<Reply>,
        now: u64,
        turn: &mut Turn,
    ) -> Result<(), NoMemory>
        requires client { client < length (crashed_of self.old) }
        requires ready { AreReady P.ways (rows_of self.old) }
        requires clock { now < 2 ^ 44 }
        ensures advances { OnOk result (Advances turn.old turn.new (sight_of self.old) (sight_of self.new)) }
        ensures names { OnOk result ((t : Name) → HasOut (sight_of self.old) client t → NamesIn (GivesTo (sight_of self.old) t (coming_as reply)) turn.old turn.new) }
        ensures ready { OnOk result (AreReady P.ways (rows_of self.new)) }
        ensures accounts { OnOk result (turn.old.posted.items ≡ [] → turn.old.ended.items ≡ [] → AreClosed (sight_of self.old) turn.new.ended.items (account_at (rows_of self.old)) (account_at (rows_of self.new))) }
        ensures crashed { OnOk result (crashed_of self.new ≡ crashed_of self.old) }
        ensures waits { OnOk result (GroupGoes P.ways client (over_by reply) turn.old turn.new self.old self.new) }
        ensures runs { OnOk result (AreRunning (rows_of self.old) → AreRunning (rows_of self.new)) }
        ensures leads { OnOk result (GroupLeads P.ways client (over_by reply) turn.old turn.new self.old self.new) }
    {
        let given = self.take_times(client, reply)?;
        self.give(client, given, now, turn)
    }

    /// Each asker is told its answer, in their order.
    fn give(
        &mut self,
        client: usize,
        given: Answers,
        now: u64,
        turn: &mut Turn,
    ) -> Result<(), NoMemory>
        requires times { All IsTimeFor given.items }
        requires ready { AreReady P.ways (rows_of self.old) }
        requires clock { now < 2 ^ 44 }
        ensures advances { OnOk result (Advances turn.old turn.new (sight_of self.old) (sight_of self.new)) }
        ensures names { OnOk result (NamesIn (IsTimed given.items) turn.old turn.new) }
        ensures ready { OnOk result (AreReady P.ways (rows_of self.new)) }
        ensures accounts { OnOk result (turn.old.posted.items ≡ [] → turn.old.ended.items ≡ [] → AreClosed (sight_of self.old) turn.new.ended.items (account_at (rows_of self.old)) (account_at (rows_of self.new))) }
        ensures crashed { OnOk result (crashed_of self.new ≡ crashed_of self.old) }
        ensures waits { OnOk result (GivenGoes P.ways client given.items turn.old turn.new self.old self.new) }
        ensures runs { OnOk result (AreRunning (rows_of self.old) → AreRunning (rows_of self.new)) }
        ensures leads { OnOk result (turn.old.posted.items ≡ [] → turn.old.ended.items ≡ [] → LeadsGiven P.ways given.items turn.old.posted.items turn.new.posted.items turn.old.ended.items turn.new.ended.items self.old self.new) }
    {
        for (asker, answer) in given {
            // Only calls of lines of a client that has not crashed ask its oracle, and no heartbeat.
            if asker.beat {
                return Err(NoMemory);
            }
            if !self.is_of(asker.line, client) {
                return Err(NoMemory);
            }
            let arrival = Arrival::Time {
                ask: asker.ask,
                answer,
            };
            self.tell_line(asker.line, arrival, now, turn)?;
        }
        Ok(())
    }
}
