//! What a machine asks of the clients.
ghost use Rattle.txn_clients.specs.Arising.{LeadsSent, StepsTold};
ghost use Rattle.std.specs.List.{All};
ghost use Rattle.std.specs.Prelude.{◌≡◌, ◌<◌, ◌≤◌, ◌^◌, [], None, Option, IfOk, IfSome, IsTrue, OnOk, false, is_some, length, slice_index_or, true, ◌≢◌, ℕ, Some};
ghost use Rattle.txn_client.specs.Calls.{CallReady, called};
ghost use Rattle.txn_clients.specs.Accounts.{WantsNew, account_at};
ghost use Rattle.txn_clients.specs.Closing.{GoesTold};
ghost use Rattle.txn_client.specs.declared.client_call.Stage.TheVariants.{Fresh};
ghost use Rattle.txn_clients.specs.Clients.{AreReady, HasOut, Listens, crashed_of, row_at, rows_of, sight_of};
ghost use Rattle.txn_clients.specs.Going.{OfLine};
ghost use Rattle.txn_clients.specs.Groups.{coming_as};
ghost use Rattle.txn_clients.specs.Options.{AreOptionsOf};
ghost use Rattle.txn_clients.specs.Rows.{MayHear, MayTell, Tells};
ghost use Rattle.txn_clients.specs.Tickets.{HasTold, HasToldGroup, IsForLine, IsOfLine, arrival_as};
ghost use Rattle.txn_clients.specs.Turns.{AskSteps, CallSteps, ToldSteps, calling};
ghost use Rattle.txn_clients.specs.Waiting.{IsReady};
ghost use Rattle.txn_history.specs.Meaning.{IsUnbegun};
ghost use Rattle.txn_side.specs.Doubt.{itself};
ghost use Rattle.txn_side.specs.Account.{AreKept, TakesIn};
ghost use Rattle.txn_side.specs.Sight.{EndsAlone, Goes, Names, NoneGiven, commits, is_free, line_count, stand_at, with_stand};
ghost use Rattle.txn_side.specs.Sight.Stand.{Asking, Calling, HasBegun, Idle};

use crate::answer::Pd;
use crate::client_state::ClientState;
use crate::clients::{Clients, Listener};
use crate::place::Place;
use crate::row::{Row, is_commit};
use crate::told::Told;
use txn_client::ClientCall;
use txn_commit::Plans;
use txn_core::TransactionOptions;
use txn_kv::{Arrival, NoMemory, Reply, Ticket};
use txn_lines::{Act, BeginOptions, ClientAct};
use txn_side::{ClientSide, Coming, Turn};

/// The options of an optimistic transaction that begins so.
fn options_of(options: BeginOptions) -> TransactionOptions
    ensures { AreOptionsOf options result }
{
    let mut wanted = TransactionOptions::new_optimistic();
    if options.no_locks {
        wanted = wanted.no_resolve_locks();
    }
    if options.no_regions {
        wanted = wanted.no_resolve_regions();
    }
    wanted
}

/// What came, for the number of its ticket.
fn arrival_of(number: u64, what: Coming) -> Arrival
    ensures { result ≡ arrival_as number what }
{
    match what {
        Coming::Reply(reply) => Arrival::Reply { number, reply },
        Coming::Lost => Arrival::Lost { number },
        Coming::Slept => Arrival::Slept { number },
    }
}

impl<P> Clients<P> {
    /// Whether nothing stands at the newest line.
    fn is_new(&self) -> bool
        ensures { IsTrue result → stand_at (sight_of self.now).stands (line_count (sight_of self.now)) ≡ Idle }
    {
        let line = self.newest();
        if line == 0 {
            return true;
        }
        matches!(self.row(line), Row::Plain)
    }

    /// The client of a transaction that has begun and of which no call waits, if it has not crashed.
    fn free_client(&self, transaction: u64) -> Option<usize>
        ensures free { is_some result ≡ is_free (sight_of self.now) transaction }
        ensures client { IfSome result (λ client. stand_at (sight_of self.now).stands transaction ≡ HasBegun client 0) }
        ensures there { IfSome result (λ client. slice_index_or (crashed_of self.now) client true ≡ false) }
    {
        match self.live_client(transaction) {
            None => None,
            Some(client) => match self.row(transaction) {
                Row::Begun { waits, .. } => { if *waits == 0 { Some(client) } else { None } }
                _ => None,
            },
        }
    }
}

impl<P> Clients<P>
where
    P: Plans,
{
    /// The newest line calls for a timestamp of a client.
    fn ask(
        &mut self,
        client: usize,
        begins: bool,
        call: ClientCall<Pd, P>,
        now: u64,
    ) -> Result<Turn, NoMemory>
        requires call { CallReady call.stage }
        requires wants { WantsNew call }
        requires fresh { call.stage ≡ Fresh }
        requires unbegun { IsUnbegun called call }
        requires client { slice_index_or (crashed_of self.old) client true ≡ false }
        requires line { 1 ≤ line_count (sight_of self.old) }
        requires ready { AreReady P.ways (rows_of self.old) }
        requires clock { now < 2 ^ 44 }
        ensures turn { IfOk result (λ turn. Goes turn.posted.items turn.ended.items (with_stand (line_count (sight_of self.old)) (Asking client begins) (sight_of self.old)) (sight_of self.new)) }
        ensures alone { IfOk result (λ turn. EndsAlone (line_count (sight_of self.old)) turn.ended.items) }
        ensures names { IfOk result (λ turn. All (Names NoneGiven) turn.ended.items) }
        ensures steps { IfOk result (AskSteps P.ways call self.old self.new) }
        ensures ready { OnOk result (AreReady P.ways (rows_of self.new)) }
        ensures accounts { OnOk result (AreKept (account_at (rows_of self.old)) (account_at (rows_of self.new))) }
        ensures leads { IfOk result (λ turn. LeadsSent P.ways [] turn.posted.items [] turn.ended.items itself self.old self.new) }
    {
        // A call begins where nothing stands.
        if !self.is_new() {
            return Err(NoMemory);
        }
        let line = self.newest();
        self.set_row(
            line,
            Row::Asking {
                client,
                begins,
                call,
            },
        );
        let at = line as usize - 1;
        self.step(line, Listener { at, client }, Told::Start, now)
    }

    /// A step: what waits for a line is told of something, and then the next group of its client goes out.
    fn step(
        &mut self,
        line: u64,
        listener: Listener,
        told: Told,
        now: u64,
    ) -> Result<Turn, NoMemory>
        requires listens { Listens (sight_of self.old) line listener.at listener.client }
        requires ready { AreReady P.ways (rows_of self.old) }
        requires told { MayTell told }
        requires hears { MayHear told (row_at (rows_of self.old) listener.at) }
        requires clock { now < 2 ^ 44 }
        ensures turn { IfOk result (λ turn. Goes turn.posted.items turn.ended.items (sight_of self.old) (sight_of self.new)) }
        ensures alone { IfOk result (λ turn. EndsAlone line turn.ended.items) }
        ensures names { IfOk result (λ turn. All (Names (OfLine line (Tells told))) turn.ended.items) }
        ensures steps { IfOk result (ToldSteps P.ways told line listener.at listener.client self.old self.new) }
        ensures ready { OnOk result (AreReady P.ways (rows_of self.new)) }
        ensures accounts { IfOk result (λ turn. GoesTold told line listener.at (stand_at (sight_of self.old).stands line) (rows_of self.old) (rows_of self.new) [] turn.ended.items) }
        ensures leads { IfOk result (λ turn. StepsTold P.ways told line listener.client turn.posted.items turn.ended.items self.old self.new) }
    {
        let mut turn = Turn::new(self.alloc);
        self.go(line, listener, told, now, &mut turn)?;
        self.send_group(listener.client, &mut turn)?;
        Ok(turn)
    }

    /// The newest line asks something of a transaction of which no call waits.
    fn call_transaction(
        &mut self,
        client: usize,
        transaction: u64,
        act: Act,
        now: u64,
    ) -> Result<Turn, NoMemory>
        requires transaction { stand_at (sight_of self.old).stands transaction ≡ HasBegun client 0 }
        requires client { slice_index_or (crashed_of self.old) client true ≡ false }
        requires line { 1 ≤ line_count (sight_of self.old) }
        requires ready { AreReady P.ways (rows_of self.old) }
        requires clock { now < 2 ^ 44 }
        ensures turn { IfOk result (λ turn. Goes turn.posted.items turn.ended.items (calling client transaction (commits act) (sight_of self.old)) (sight_of self.new)) }
        ensures alone { IfOk result (λ turn. EndsAlone (line_count (sight_of self.old)) turn.ended.items) }
        ensures names { IfOk result (λ turn. All (Names NoneGiven) turn.ended.items) }
        ensures steps { IfOk result (CallSteps P.ways act transaction self.old self.new) }
        ensures ready { OnOk result (AreReady P.ways (rows_of self.new)) }
        ensures takes { IfOk result (λ turn. TakesIn act transaction (line_count (sight_of self.old)) (account_at (rows_of self.old)) (account_at (rows_of self.new)) turn.ended.items) }
        ensures leads { IfOk result (λ turn. LeadsSent P.ways [] turn.posted.items [] turn.ended.items (λ n. record { at = transaction; commits = commits act }) self.old self.new) }
    {
        // A call begins where nothing stands.
        if !self.is_new() {
            return Err(NoMemory);
        }
        let line = self.newest();
        self.set_waits(transaction, line);
        self.set_row(
            line,
            Row::Calling {
                client,
                transaction,
                commits: is_commit(&act),
            },
        );
        let at = transaction as usize - 1;
        self.step(line, Listener { at, client }, Told::Act(act), now)
    }

    /// This came for a ticket of a line of this client, for which its group is not told.
    fn hear(
        &mut self,
        client: usize,
        ticket: Ticket,
        what: Coming,
        now: u64,
    ) -> Result<Turn, NoMemory>
        requires line { IsOfLine client ticket self.old }
        requires other { IsForLine client ticket what self.old }
        requires ready { IsReady P.ways self.old }
        requires clock { now < 2 ^ 44 }
        ensures { IfOk result (HasTold P.ways ticket what self.old self.new) }
    {
        let arrival = arrival_of(ticket.number, what);
        let mut turn = Turn::new(self.alloc);
        self.tell_line(ticket.line, arrival, now, &mut turn)?;
        self.send_group(client, &mut turn)?;
        Ok(turn)
    }

    /// This came for the ticket of the group of a client.
    fn tell_group(
        &mut self,
        client: usize,
        ticket: Ticket,
        what: Coming,
        now: u64,
    ) -> Result<Turn, NoMemory>
        requires line { IsOfLine client ticket self.old }
        requires out { HasOut (sight_of self.old) client ticket }
        requires ready { IsReady P.ways self.old }
        requires clock { now < 2 ^ 44 }
        ensures { IfOk result (HasTold P.ways ticket what self.old self.new) }
    {
        match what {
            Coming::Reply(reply) => self.hear_group(client, Some(reply), now),
            Coming::Lost => self.hear_group(client, None, now),
            // No sleep is a group's.
            Coming::Slept => self.hear(client, ticket, Coming::Slept, now),
        }
    }

    /// The reply to the group of a client came, or it was lost.
    fn hear_group(
        &mut self,
        client: usize,
        reply: Option<Reply>,
        now: u64,
    ) -> Result<Turn, NoMemory>
        requires client { client < length (crashed_of self.old) }
        requires ready { IsReady P.ways self.old }
        requires clock { now < 2 ^ 44 }
        ensures { IfOk result (HasToldGroup P.ways client (coming_as reply) self.old self.new) }
    {
        let mut turn = Turn::new(self.alloc);
        self.take_group(client, reply, now, &mut turn)?;
        self.send_group(client, &mut turn)?;
        Ok(turn)
    }
}

impl<P> ClientSide for Clients<P>
where
    P: Plans,
{
    ghost use Rattle.txn_clients.specs.Accounts.{account_at};
    ghost use Rattle.txn_clients.specs.Clients.{rows_of, sight_of};
    ghost use Rattle.txn_clients.specs.Due.{due_when_ready, nobody_waits_so};
    ghost use Rattle.txn_clients.specs.Failing.{FailsFor};
    ghost use Rattle.txn_clients.specs.Resting.{RestsIn, nobody_rests_so, rests_when_longer};
    ghost use Rattle.txn_clients.specs.Arising.{ArisenFrom, HoldsAt};
    ghost use Rattle.txn_clients.specs.Unmoved.{arises_when_longer, nobody_arises_so};
    ghost use Rattle.txn_clients.specs.Waiting.{IsReady, waits_of};

    ghost sight = { sight_of };

    ghost ready = { IsReady P.ways };

    ghost waits = { waits_of P.ways };

    ghost nobody_waits = { nobody_waits_so P.ways };

    ghost due = { due_when_ready P.ways };

    ghost account = { λ s. account_at (rows_of s) };

    ghost fails = { FailsFor P.ways };

    ghost rests = { RestsIn P.ways };

    ghost rests_longer = { rests_when_longer P.ways };

    ghost nobody_rests = { nobody_rests_so P.ways };

    ghost arises = { ArisenFrom P.ways };

    ghost holds = { λ s h x o. HoldsAt (rows_of s) h x o };

    ghost nobody_arises = { nobody_arises_so P.ways };

    ghost arises_longer = { arises_when_longer P.ways };

    fn open(&mut self) -> Result<(), NoMemory> {
        self.places.push(Place::new())?;
        Ok(())
    }

    fn is_live(&self, line: u64) -> bool {
        self.live_client(line).is_some()
    }

    fn connect(&mut self, now: u64) -> Result<(), NoMemory> {
        // A client is made where nothing stands.
        if !self.is_new() {
            return Err(NoMemory);
        }
        let client = self.clients.len();
        self.clients.push(ClientState::new(self.alloc, now))?;
        self.set_row(self.newest(), Row::Client { client });
        Ok(())
    }

    fn crash(&mut self, line: u64) -> bool {
        match self.live_client(line) {
            None => false,
            Some(client) => {
                self.clients[client].crashed = true;
                true
            }
        }
    }

    fn call(&mut self, client: u64, act: ClientAct, now: u64) -> Result<Option<Turn>, NoMemory> {
        match self.live_client(client) {
            None => Ok(None),
            Some(client) => match act {
                ClientAct::Begin(options) => {
                    let call = self.clients[client]
                        .client
                        .begin_with_options(options_of(options))?;
                    Ok(Some(self.ask(client, true, call, now)?))
                }
                ClientAct::Timestamp => {
                    let call = self.clients[client].client.current_timestamp()?;
                    Ok(Some(self.ask(client, false, call, now)?))
                }
            },
        }
    }

    fn act(&mut self, transaction: u64, act: Act, now: u64) -> Result<Option<Turn>, NoMemory> {
        match self.free_client(transaction) {
            None => Ok(None),
            Some(client) => Ok(Some(self.call_transaction(client, transaction, act, now)?)),
        }
    }

    fn tell(&mut self, ticket: Ticket, what: Coming, now: u64) -> Result<Turn, NoMemory> {
        // No call waits for what comes for a beat.
        if ticket.beat {
            drop(what);
            return Ok(Turn::new(self.alloc));
        }
        match self.live_client(ticket.line) {
            None => {
                drop(what);
                Ok(Turn::new(self.alloc))
            }
            Some(client) => {
                if self.is_group(client, ticket) {
                    return self.tell_group(client, ticket, what, now);
                }
                self.hear(client, ticket, what, now)
            }
        }
    }
}
