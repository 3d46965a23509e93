//! Events: what becomes of requests and sleeps, and of the store and the clients.
ghost use Rattle.std.specs.Prelude.{◌≡◌, ◌≤◌, ◌<◌, ◌^◌, [], IfOk, IfSome, OnOk, Some, length, true};
ghost use Rattle.txn_history.specs.Event.Event.{Took};
ghost use Rattle.txn_post.specs.Mail.{IsSentAt, IsSleptAt};
ghost use Rattle.txn_side.specs.Account.{AreClosed, AreKept};
ghost use Rattle.txn_side.specs.Arising.{ArisesHearing};
ghost use Rattle.txn_side.specs.Sight.{IsGiven, is_live};
ghost use Rattle.txn_side.specs.Trace.{HearsOn};
ghost use Rattle.txn_side.specs.Waiting.{HearsReply, WaitsOn};
ghost use Rattle.txn_machine.specs.Accounts.{Credits};
ghost use Rattle.txn_machine.specs.Arising.{RunsTo};
ghost use Rattle.txn_machine.specs.Failing.{RunsOn};
ghost use Rattle.txn_machine.specs.Lists.{Lists, handled, newest, outright, reply_at};
ghost use Rattle.txn_machine.specs.Running.{CanClose, IsEven, IsFine, IsOrdered, KeepOut, closed, lists_of};
ghost use Rattle.txn_machine.specs.Steps.{Does, Hears, done_if, found_asleep, found_out};
ghost use Rattle.txn_machine.specs.Told.{CanTell, OwnEnds};

use crate::busy::busy_reply;
use crate::done::Done;
use crate::machine::Machine;
use txn_kv::{Key, NoMemory, Reply, Ticket};
use txn_lines::{Deed, Happening};
use txn_report::Outcome;
use txn_side::{ClientSide, Coming, Turn};

impl<S: ClientSide> Machine<S> {
    /// Something happens that no client asked for.
    pub(crate) fn befall(&mut self, what: Happening) -> Result<Done, NoMemory>
        requires ready { S.ready self.old.clients }
        requires ordered { IsOrdered (lists_of S.sight self.old) }
        requires some { 1 ≤ newest (lists_of S.sight self.old) }
        requires fine { IsFine (Deed.Happens what) }
        ensures does { IfOk result (λ done. Does (Deed.Happens what) (lists_of S.sight self.old) (closed done (lists_of S.sight self.new))) }
        ensures can { IfOk result (λ done. CanClose done (lists_of S.sight self.new)) }
        ensures tells { IfOk result (λ done. CanTell (lists_of S.sight self.old) done (lists_of S.sight self.new)) }
        ensures out { IfOk result (λ done. KeepOut (S.waits self.old.clients) (S.waits self.new.clients) (lists_of S.sight self.old) done (lists_of S.sight self.new)) }
        ensures ready { OnOk result (S.ready self.new.clients) }
        ensures credits { IfOk result (Credits (Deed.Happens what) (lists_of S.sight self.old) (S.account self.old.clients) (S.account self.new.clients)) }
        ensures rests { IfOk result (RunsOn S.fails (S.rests self.old.clients) (S.rests self.new.clients) (Deed.Happens what) (lists_of S.sight self.old) (S.account self.old.clients)) }
        ensures arises { IfOk result (RunsTo (S.arises self.old.clients) (S.arises self.new.clients) (S.holds self.old.clients) (S.holds self.new.clients) (Deed.Happens what) (lists_of S.sight self.old)) }
    {
        match what {
            Happening::Serve(ticket) => self.serve(ticket),
            Happening::Answer(ticket) => self.answer(ticket),
            Happening::Deliver(ticket) => self.deliver(ticket),
            Happening::Lose(ticket) => self.lose(ticket),
            Happening::Busy(ticket) => self.busy(ticket),
            Happening::Wake(ticket) => self.wake(ticket),
            Happening::Split(key) => self.split(key),
            Happening::Lead(region, store) => self.lead(region, store),
            Happening::Clock(ms) => self.set_clock(ms),
            Happening::Crash(client) => self.crash(client),
        }
    }

    /// The event is done, or could do nothing.
    fn happened(&self, done: bool) -> Done
        ensures closed { (l : Lists) → closed result l ≡ outright (done_if done) l }
        ensures nothing { result.turn.posted.items ≡ [] }
        ensures own { OwnEnds result.outcome }
        ensures ended { result.turn.ended.items ≡ [] }
    {
        if done {
            self.outright(Outcome::Done)
        } else {
            self.outright(Outcome::Skipped)
        }
    }

    /// The event is done, and the clients did so.
    fn came(&self, turn: Turn) -> Done
        ensures outcome { result.outcome ≡ Some Outcome.Done }
        ensures turn { result.turn ≡ turn }
    {
        Done {
            outcome: Some(Outcome::Done),
            turn,
        }
    }

    /// Where the request that a ticket names stands, if its client waits for a reply.
    fn find_out(&self, ticket: &Ticket) -> Option<usize>
        ensures exact { result ≡ found_out (lists_of S.sight self.now) ticket.now }
        ensures found { IfSome result (IsSentAt (lists_of S.sight self.now).mail ticket.now) }
    {
        if !self.clients.is_live(ticket.line) {
            return None;
        }
        self.post.find_awaited(ticket)
    }

    /// Where the sleep that a ticket names stands, if it lasts and its client has not crashed.
    fn find_asleep(&self, ticket: &Ticket) -> Option<usize>
        ensures exact { result ≡ found_asleep (lists_of S.sight self.now) ticket.now }
        ensures found { IfSome result (IsSleptAt (lists_of S.sight self.now).mail ticket.now) }
    {
        if self.clients.is_live(ticket.line) {
            self.post.find_lasting(ticket)
        } else {
            None
        }
    }

    /// The store handles the request at a place.
    fn handle(&mut self, place: usize, ticket: Ticket) -> Result<Reply, NoMemory>
        requires ordered { IsOrdered (lists_of S.sight self.old) }
        requires sent { place < length (lists_of S.sight self.old).mail.sent }
        ensures reply { IfOk result (λ reply. reply ≡ reply_at (lists_of S.sight self.old) place) }
        ensures lists { OnOk result (lists_of S.sight self.new ≡ handled ticket place (lists_of S.sight self.old)) }
        ensures clients { OnOk result (self.new.clients ≡ self.old.clients) }
    {
        let reply = self.store.serve(&self.post.sent()[place].request)?;
        self.served.push(ticket)?;
        Ok(reply)
    }

    /// The store handles a request, also after it was lost or its client crashed.
    fn serve(&mut self, ticket: Ticket) -> Result<Done, NoMemory>
        requires ready { S.ready self.old.clients }
        requires ordered { IsOrdered (lists_of S.sight self.old) }
        requires some { 1 ≤ newest (lists_of S.sight self.old) }
        ensures does { IfOk result (λ done. Does (Deed.Happens (Happening.Serve ticket)) (lists_of S.sight self.old) (closed done (lists_of S.sight self.new))) }
        ensures can { IfOk result (λ done. CanClose done (lists_of S.sight self.new)) }
        ensures tells { IfOk result (λ done. CanTell (lists_of S.sight self.old) done (lists_of S.sight self.new)) }
        ensures out { IfOk result (λ done. KeepOut (S.waits self.old.clients) (S.waits self.new.clients) (lists_of S.sight self.old) done (lists_of S.sight self.new)) }
        ensures ready { OnOk result (S.ready self.new.clients) }
        ensures accounts { OnOk result (AreKept (S.account self.old.clients) (S.account self.new.clients)) }
        ensures rests { IfOk result (RunsOn S.fails (S.rests self.old.clients) (S.rests self.new.clients) (Deed.Happens (Happening.Serve ticket)) (lists_of S.sight self.old) (S.account self.old.clients)) }
        ensures arises { IfOk result (RunsTo (S.arises self.old.clients) (S.arises self.new.clients) (S.holds self.old.clients) (S.holds self.new.clients) (Deed.Happens (Happening.Serve ticket)) (lists_of S.sight self.old)) }
    {
        let Some(place) = self.post.find_unserved(&ticket) else {
            return Ok(self.happened(false));
        };
        let reply = self.handle(place, ticket)?;
        self.post.keep(place, reply);
        Ok(self.happened(true))
    }

    /// The client takes the reply that the store gave.
    fn answer(&mut self, ticket: Ticket) -> Result<Done, NoMemory>
        requires ready { S.ready self.old.clients }
        requires ordered { IsOrdered (lists_of S.sight self.old) }
        requires some { 1 ≤ newest (lists_of S.sight self.old) }
        ensures does { IfOk result (λ done. Does (Deed.Happens (Happening.Answer ticket)) (lists_of S.sight self.old) (closed done (lists_of S.sight self.new))) }
        ensures can { IfOk result (λ done. CanClose done (lists_of S.sight self.new)) }
        ensures tells { IfOk result (λ done. CanTell (lists_of S.sight self.old) done (lists_of S.sight self.new)) }
        ensures out { IfOk result (λ done. KeepOut (S.waits self.old.clients) (S.waits self.new.clients) (lists_of S.sight self.old) done (lists_of S.sight self.new)) }
        ensures ready { OnOk result (S.ready self.new.clients) }
        ensures accounts { IfOk result (λ done. AreClosed (S.sight self.old.clients) done.turn.ended.items (S.account self.old.clients) (S.account self.new.clients)) }
        ensures rests { IfOk result (RunsOn S.fails (S.rests self.old.clients) (S.rests self.new.clients) (Deed.Happens (Happening.Answer ticket)) (lists_of S.sight self.old) (S.account self.old.clients)) }
        ensures arises { IfOk result (RunsTo (S.arises self.old.clients) (S.arises self.new.clients) (S.holds self.old.clients) (S.holds self.new.clients) (Deed.Happens (Happening.Answer ticket)) (lists_of S.sight self.old)) }
    {
        let Some(place) = self.find_out(&ticket) else {
            return Ok(self.happened(false));
        };
        match self.post.take_kept(place) {
            None => Ok(self.happened(false)),
            Some(reply) => self.hear(ticket, reply),
        }
    }

    /// The store handles a request, and the client takes the reply.
    fn deliver(&mut self, ticket: Ticket) -> Result<Done, NoMemory>
        requires ready { S.ready self.old.clients }
        requires ordered { IsOrdered (lists_of S.sight self.old) }
        requires some { 1 ≤ newest (lists_of S.sight self.old) }
        ensures does { IfOk result (λ done. Does (Deed.Happens (Happening.Deliver ticket)) (lists_of S.sight self.old) (closed done (lists_of S.sight self.new))) }
        ensures can { IfOk result (λ done. CanClose done (lists_of S.sight self.new)) }
        ensures tells { IfOk result (λ done. CanTell (lists_of S.sight self.old) done (lists_of S.sight self.new)) }
        ensures out { IfOk result (λ done. KeepOut (S.waits self.old.clients) (S.waits self.new.clients) (lists_of S.sight self.old) done (lists_of S.sight self.new)) }
        ensures ready { OnOk result (S.ready self.new.clients) }
        ensures accounts { IfOk result (λ done. AreClosed (S.sight self.old.clients) done.turn.ended.items (S.account self.old.clients) (S.account self.new.clients)) }
        ensures rests { IfOk result (RunsOn S.fails (S.rests self.old.clients) (S.rests self.new.clients) (Deed.Happens (Happening.Deliver ticket)) (lists_of S.sight self.old) (S.account self.old.clients)) }
        ensures arises { IfOk result (RunsTo (S.arises self.old.clients) (S.arises self.new.clients) (S.holds self.old.clients) (S.holds self.new.clients) (Deed.Happens (Happening.Deliver ticket)) (lists_of S.sight self.old)) }
    {
        let Some(place) = self.find_out(&ticket) else {
            return Ok(self.happened(false));
        };
        if !self.post.can_be_served(place) {
            return Ok(self.happened(false));
        }
        let reply = self.handle(place, ticket)?;
        self.post.deliver(place);
        self.hear(ticket, reply)
    }

    /// The client is told by a store that it is too busy.
    fn busy(&mut self, ticket: Ticket) -> Result<Done, NoMemory>
        requires ready { S.ready self.old.clients }
        requires ordered { IsOrdered (lists_of S.sight self.old) }
        requires some { 1 ≤ newest (lists_of S.sight self.old) }
        ensures does { IfOk result (λ done. Does (Deed.Happens (Happening.Busy ticket)) (lists_of S.sight self.old) (closed done (lists_of S.sight self.new))) }
        ensures can { IfOk result (λ done. CanClose done (lists_of S.sight self.new)) }
        ensures tells { IfOk result (λ done. CanTell (lists_of S.sight self.old) done (lists_of S.sight self.new)) }
        ensures out { IfOk result (λ done. KeepOut (S.waits self.old.clients) (S.waits self.new.clients) (lists_of S.sight self.old) done (lists_of S.sight self.new)) }
        ensures ready { OnOk result (S.ready self.new.clients) }
        ensures accounts { IfOk result (λ done. AreClosed (S.sight self.old.clients) done.turn.ended.items (S.account self.old.clients) (S.account self.new.clients)) }
        ensures rests { IfOk result (RunsOn S.fails (S.rests self.old.clients) (S.rests self.new.clients) (Deed.Happens (Happening.Busy ticket)) (lists_of S.sight self.old) (S.account self.old.clients)) }
        ensures arises { IfOk result (RunsTo (S.arises self.old.clients) (S.arises self.new.clients) (S.holds self.old.clients) (S.holds self.new.clients) (Deed.Happens (Happening.Busy ticket)) (lists_of S.sight self.old)) }
    {
        let Some(place) = self.find_out(&ticket) else {
            return Ok(self.happened(false));
        };
        if !self.post.can_be_served(place) {
            return Ok(self.happened(false));
        }
        match busy_reply(self.alloc, &self.post.sent()[place].request) {
            None => Ok(self.happened(false)),
            Some(reply) => {
                self.post.refuse(place);
                self.hear(ticket, reply)
            }
        }
    }

    /// The client of a ticket takes a reply.
    fn hear(&mut self, ticket: Ticket, reply: Reply) -> Result<Done, NoMemory>
        requires ready { S.ready self.old.clients }
        requires even { IsEven (lists_of S.sight self.old) }
        requires some { 1 ≤ newest (lists_of S.sight self.old) }
        ensures hears { IfOk result (λ done. Hears (IsGiven (S.sight self.old.clients) ticket reply) (lists_of S.sight self.old) (closed done (lists_of S.sight self.new))) }
        ensures can { IfOk result (λ done. CanClose done (lists_of S.sight self.new)) }
        ensures tells { IfOk result (λ done. CanTell (lists_of S.sight self.old) done (lists_of S.sight self.new)) }
        ensures waits { is_live (S.sight self.old.clients) ticket.line ≡ true → IfOk result (λ done. WaitsOn (HearsReply ticket) done.turn.posted.items (S.waits self.old.clients) (S.waits self.new.clients) (S.sight self.old.clients) (S.sight self.new.clients)) }
        ensures ready { OnOk result (S.ready self.new.clients) }
        ensures post { OnOk result (self.new.post ≡ self.old.post) }
        ensures accounts { IfOk result (λ done. AreClosed (S.sight self.old.clients) done.turn.ended.items (S.account self.old.clients) (S.account self.new.clients)) }
        ensures rests { IfOk result (λ done. HearsOn S.fails (S.rests self.old.clients) (S.rests self.new.clients) (S.sight self.old.clients) ticket (λ r. Took ticket r reply) done.turn) }
        ensures arises { IfOk result (λ done. ArisesHearing (S.arises self.old.clients) (S.arises self.new.clients) (S.holds self.old.clients) (S.holds self.new.clients) (S.sight self.old.clients) (λ r. Took ticket r reply) done.turn) }
    {
        let now = self.store.clock();
        let turn = self.clients.tell(ticket, Coming::Reply(reply), now)?;
        Ok(self.came(turn))
    }

    /// The client is told that no reply will come.
    fn lose(&mut self, ticket: Ticket) -> Result<Done, NoMemory>
        requires ready { S.ready self.old.clients }
        requires ordered { IsOrdered (lists_of S.sight self.old) }
        requires some { 1 ≤ newest (lists_of S.sight self.old) }
        ensures does { IfOk result (λ done. Does (Deed.Happens (Happening.Lose ticket)) (lists_of S.sight self.old) (closed done (lists_of S.sight self.new))) }
        ensures can { IfOk result (λ done. CanClose done (lists_of S.sight self.new)) }
        ensures tells { IfOk result (λ done. CanTell (lists_of S.sight self.old) done (lists_of S.sight self.new)) }
        ensures out { IfOk result (λ done. KeepOut (S.waits self.old.clients) (S.waits self.new.clients) (lists_of S.sight self.old) done (lists_of S.sight self.new)) }
        ensures ready { OnOk result (S.ready self.new.clients) }
        ensures accounts { IfOk result (λ done. AreClosed (S.sight self.old.clients) done.turn.ended.items (S.account self.old.clients) (S.account self.new.clients)) }
        ensures rests { IfOk result (RunsOn S.fails (S.rests self.old.clients) (S.rests self.new.clients) (Deed.Happens (Happening.Lose ticket)) (lists_of S.sight self.old) (S.account self.old.clients)) }
        ensures arises { IfOk result (RunsTo (S.arises self.old.clients) (S.arises self.new.clients) (S.holds self.old.clients) (S.holds self.new.clients) (Deed.Happens (Happening.Lose ticket)) (lists_of S.sight self.old)) }
    {
        let Some(place) = self.find_out(&ticket) else {
            return Ok(self.happened(false));
        };
        self.post.lose(place);
        let turn = self.clients.tell(ticket, Coming::Lost, self.store.clock())?;
        Ok(self.came(turn))
    }

    /// A sleep ends.
    fn wake(&mut self, ticket: Ticket) -> Result<Done, NoMemory>
        requires ready { S.ready self.old.clients }
        requires ordered { IsOrdered (lists_of S.sight self.old) }
        requires some { 1 ≤ newest (lists_of S.sight self.old) }
        ensures does { IfOk result (λ done. Does (Deed.Happens (Happening.Wake ticket)) (lists_of S.sight self.old) (closed done (lists_of S.sight self.new))) }
        ensures can { IfOk result (λ done. CanClose done (lists_of S.sight self.new)) }
        ensures tells { IfOk result (λ done. CanTell (lists_of S.sight self.old) done (lists_of S.sight self.new)) }
        ensures out { IfOk result (λ done. KeepOut (S.waits self.old.clients) (S.waits self.new.clients) (lists_of S.sight self.old) done (lists_of S.sight self.new)) }
        ensures ready { OnOk result (S.ready self.new.clients) }
        ensures accounts { IfOk result (λ done. AreClosed (S.sight self.old.clients) done.turn.ended.items (S.account self.old.clients) (S.account self.new.clients)) }
        ensures rests { IfOk result (RunsOn S.fails (S.rests self.old.clients) (S.rests self.new.clients) (Deed.Happens (Happening.Wake ticket)) (lists_of S.sight self.old) (S.account self.old.clients)) }
        ensures arises { IfOk result (RunsTo (S.arises self.old.clients) (S.arises self.new.clients) (S.holds self.old.clients) (S.holds self.new.clients) (Deed.Happens (Happening.Wake ticket)) (lists_of S.sight self.old)) }
    {
        let Some(place) = self.find_asleep(&ticket) else {
            return Ok(self.happened(false));
        };
        self.post.wake(place);
        let turn = self
            .clients
            .tell(ticket, Coming::Slept, self.store.clock())?;
        Ok(self.came(turn))
    }

    fn split(&mut self, key: Key) -> Result<Done, NoMemory>
        requires ready { S.ready self.old.clients }
        requires ordered { IsOrdered (lists_of S.sight self.old) }
        requires some { 1 ≤ newest (lists_of S.sight self.old) }
        ensures does { IfOk result (λ done. Does (Deed.Happens (Happening.Split key)) (lists_of S.sight self.old) (closed done (lists_of S.sight self.new))) }
        ensures can { IfOk result (λ done. CanClose done (lists_of S.sight self.new)) }
        ensures tells { IfOk result (λ done. CanTell (lists_of S.sight self.old) done (lists_of S.sight self.new)) }
        ensures out { IfOk result (λ done. KeepOut (S.waits self.old.clients) (S.waits self.new.clients) (lists_of S.sight self.old) done (lists_of S.sight self.new)) }
        ensures ready { OnOk result (S.ready self.new.clients) }
        ensures accounts { OnOk result (AreKept (S.account self.old.clients) (S.account self.new.clients)) }
        ensures rests { IfOk result (RunsOn S.fails (S.rests self.old.clients) (S.rests self.new.clients) (Deed.Happens (Happening.Split key)) (lists_of S.sight self.old) (S.account self.old.clients)) }
        ensures arises { IfOk result (RunsTo (S.arises self.old.clients) (S.arises self.new.clients) (S.holds self.old.clients) (S.holds self.new.clients) (Deed.Happens (Happening.Split key)) (lists_of S.sight self.old)) }
    {
        let done = self.store.split(&key)?;
        Ok(self.happened(done))
    }

    fn lead(&mut self, region: u64, store: u64) -> Result<Done, NoMemory>
        requires ready { S.ready self.old.clients }
        requires ordered { IsOrdered (lists_of S.sight self.old) }
        requires some { 1 ≤ newest (lists_of S.sight self.old) }
        ensures does { IfOk result (λ done. Does (Deed.Happens (Happening.Lead region store)) (lists_of S.sight self.old) (closed done (lists_of S.sight self.new))) }
        ensures can { IfOk result (λ done. CanClose done (lists_of S.sight self.new)) }
        ensures tells { IfOk result (λ done. CanTell (lists_of S.sight self.old) done (lists_of S.sight self.new)) }
        ensures out { IfOk result (λ done. KeepOut (S.waits self.old.clients) (S.waits self.new.clients) (lists_of S.sight self.old) done (lists_of S.sight self.new)) }
        ensures ready { OnOk result (S.ready self.new.clients) }
        ensures accounts { OnOk result (AreKept (S.account self.old.clients) (S.account self.new.clients)) }
        ensures rests { IfOk result (RunsOn S.fails (S.rests self.old.clients) (S.rests self.new.clients) (Deed.Happens (Happening.Lead region store)) (lists_of S.sight self.old) (S.account self.old.clients)) }
        ensures arises { IfOk result (RunsTo (S.arises self.old.clients) (S.arises self.new.clients) (S.holds self.old.clients) (S.holds self.new.clients) (Deed.Happens (Happening.Lead region store)) (lists_of S.sight self.old)) }
    {
        let done = self.store.lead(region, store);
        Ok(self.happened(done))
    }

    fn set_clock(&mut self, ms: u64) -> Result<Done, NoMemory>
        requires ready { S.ready self.old.clients }
        requires ordered { IsOrdered (lists_of S.sight self.old) }
        requires some { 1 ≤ newest (lists_of S.sight self.old) }
        requires fine { ms < 2 ^ 44 }
        ensures does { IfOk result (λ done. Does (Deed.Happens (Happening.Clock ms)) (lists_of S.sight self.old) (closed done (lists_of S.sight self.new))) }
        ensures can { IfOk result (λ done. CanClose done (lists_of S.sight self.new)) }
        ensures tells { IfOk result (λ done. CanTell (lists_of S.sight self.old) done (lists_of S.sight self.new)) }
        ensures out { IfOk result (λ done. KeepOut (S.waits self.old.clients) (S.waits self.new.clients) (lists_of S.sight self.old) done (lists_of S.sight self.new)) }
        ensures ready { OnOk result (S.ready self.new.clients) }
        ensures accounts { OnOk result (AreKept (S.account self.old.clients) (S.account self.new.clients)) }
        ensures rests { IfOk result (RunsOn S.fails (S.rests self.old.clients) (S.rests self.new.clients) (Deed.Happens (Happening.Clock ms)) (lists_of S.sight self.old) (S.account self.old.clients)) }
        ensures arises { IfOk result (RunsTo (S.arises self.old.clients) (S.arises self.new.clients) (S.holds self.old.clients) (S.holds self.new.clients) (Deed.Happens (Happening.Clock ms)) (lists_of S.sight self.old)) }
    {
        self.store.set_clock(ms);
        Ok(self.happened(true))
    }

    fn crash(&mut self, client: u64) -> Result<Done, NoMemory>
        requires ready { S.ready self.old.clients }
        requires ordered { IsOrdered (lists_of S.sight self.old) }
        requires some { 1 ≤ newest (lists_of S.sight self.old) }
        ensures does { IfOk result (λ done. Does (Deed.Happens (Happening.Crash client)) (lists_of S.sight self.old) (closed done (lists_of S.sight self.new))) }
        ensures can { IfOk result (λ done. CanClose done (lists_of S.sight self.new)) }
        ensures tells { IfOk result (λ done. CanTell (lists_of S.sight self.old) done (lists_of S.sight self.new)) }
        ensures out { IfOk result (λ done. KeepOut (S.waits self.old.clients) (S.waits self.new.clients) (lists_of S.sight self.old) done (lists_of S.sight self.new)) }
        ensures ready { OnOk result (S.ready self.new.clients) }
        ensures accounts { OnOk result (AreKept (S.account self.old.clients) (S.account self.new.clients)) }
        ensures rests { IfOk result (RunsOn S.fails (S.rests self.old.clients) (S.rests self.new.clients) (Deed.Happens (Happening.Crash client)) (lists_of S.sight self.old) (S.account self.old.clients)) }
        ensures arises { IfOk result (RunsTo (S.arises self.old.clients) (S.arises self.new.clients) (S.holds self.old.clients) (S.holds self.new.clients) (Deed.Happens (Happening.Crash client)) (lists_of S.sight self.old)) }
    {
        let done = self.clients.crash(client);
        Ok(self.happened(done))
    }
}
