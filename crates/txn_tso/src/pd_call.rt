ghost use Rattle.std.specs.Prelude.{◌≡◌, ◌≢◌, ◌∷◌, None, Some, IfOk, is_err, true, false};
ghost use Rattle.std.specs.Bool.{MatchBool};
ghost use Rattle.txn_kv.specs.declared.reply.cluster.MembersResponse.{MembersResponse};
ghost use Rattle.txn_kv.specs.declared.errors.Error.TheVariants.{GrpcAPI};
ghost use Rattle.txn_kv.specs.declared.request.Request.{Request as Asked};
ghost use Rattle.txn_history.specs.Event.Event.{Took, Lost, Slept, Answered};
ghost use Rattle.txn_history.specs.Moves.{Moves};
ghost use Rattle.txn_history.specs.Posted.{HasNumbers, Posted, ticket_of};
ghost use Rattle.txn_history.specs.Spends.{sleeps};
ghost use Rattle.txn_history.specs.Turn.{turn_of};
ghost use Rattle.txn_history.specs.Turn.Turn.{Waits};
ghost use Rattle.txn_tso.specs.Heeding.{hears_answer, hears_reply, hears_start, hears_waking, CallHeeds};
ghost use Rattle.txn_tso.specs.Calling.{CallFits, Gives, MayAsk, MayBe};
ghost use Rattle.txn_tso.specs.Counting.{CallSpends};
ghost use Rattle.txn_tso.specs.Placement.{fresh, request_of, not_found};
ghost use Rattle.txn_tso.specs.Steps.{connected, connecting, ends, failing_try, losing_members, on_answer, on_loss, on_start, on_timestamp, on_waking, reconnected, resting, standing, tried, tried_with, unconnected, waits, IsMembersReply, IsOnReply, IsQueryReply, Stands, StandsBy};

use crate::cluster::Cluster;
use crate::reading::{Reading, read};
use crate::retry_client::{RECONNECT_INTERVAL_MS, RetryClient};
use crate::stage::Stage;
use txn_kv::{
    Error, Internal, NoMemory, Outbox, PdAnswer, PdQuery, Progress, Reply, Request, Result, Target,
    Timestamp,
};

/// How often a query is tried.
const MAX_TRIES: u32 = 10;

/// How many lost requests for the members end a call, after each failed try anew.
const MAX_RECONNECTS: u32 = 5;

/// What an event of a call answers.
type Turn = std::result::Result<Progress<PdAnswer>, NoMemory>;

/// A query to the placement driver, which is tried ten times. A try fails where it is lost, where the answer holds no
/// region, or where the oracle refuses the ask. After a failed try comes a reconnect, then the next try; the tenth failure is
/// the answer. A reconnect asks for the members, unless that was answered within the last second or another call waits for
/// it. Where the members are lost, the call sleeps a second and reconnects again; the fifth such loss is the answer.
///
/// What comes under a number that is not out changes nothing, and once the call has answered nothing does. A call that once
/// gave up for want of memory gives up ever after.
pub struct PdCall {
    query: PdQuery,
    /// How many tries have failed.
    failed: u32,
    stage: Stage,
}

impl Drop for PdCall {
    fn drop(self) {
        let PdCall {
            query,
            failed: _,
            stage,
        } = self;
        drop(query);
        drop(stage);
    }
}

impl PdCall {
    /// A call that is not started yet.
    pub fn new(query: PdQuery) -> PdCall
        ensures { result ≡ fresh query }
    {
        PdCall {
            query,
            failed: 0,
            stage: Stage::Fresh,
        }
    }

    /// What it asks.
    pub fn query(&self) -> &PdQuery
        ensures { result.now ≡ self.now.query }
    {
        &self.query
    }

    /// The same call, which waits for the same.
    pub fn try_clone(&self) -> std::result::Result<PdCall, NoMemory>
        ensures { IfOk result (λ call. call ≡ self.now) }
    {
        Ok(PdCall {
            query: copy_query(&self.query)?,
            failed: self.failed,
            stage: self.stage,
        })
    }

    /// Makes the first try.
    pub fn start(&mut self, client: &mut RetryClient, _now: u64, out: &mut Outbox) -> Turn
        requires { HasNumbers out.old }
        ensures step { Stands self.old.query out.old (on_start self.old.stage (standing self.old client.old out.old)) (turn_of result) (standing self.new client.new out.new) }
        ensures moves { Moves (MayAsk self.old) (CallFits self.old out.old) (CallFits self.new out.new) (Gives self.old out.old) (λ h. h) out.old out.new (turn_of result) }
        ensures spends { CallSpends self.old self.new false out.old out.new (turn_of result) }
        ensures job { self.new.query ≡ self.old.query }
        ensures numbers { HasNumbers out.new }
        ensures heeds { CallHeeds (hears_start self.old.stage) (standing self.old client.old out.old) (turn_of result) (standing self.new client.new out.new) }
    {
        if self.has_given_up() {
            return Err(NoMemory);
        }
        self.hear_start(client, out)
    }

    /// The reply to the request of this number came.
    pub fn take_reply(
        &mut self,
        client: &mut RetryClient,
        now: u64,
        number: u64,
        reply: Reply,
        out: &mut Outbox,
    ) -> Turn
        requires { HasNumbers out.old }
        ensures step { StandsBy self.old.query out.old (IsOnReply self.old.stage number reply now (standing self.old client.old out.old)) (turn_of result) (standing self.new client.new out.new) }
        ensures moves { (r : Asked) → MayBe self.old.query self.old.stage number r →
            Moves (MayAsk self.old) (CallFits self.old out.old) (CallFits self.new out.new) (Gives self.old out.old) (λ h. Took (ticket_of out.old number) r reply ∷ h) out.old out.new (turn_of result) }
        ensures spends { CallSpends self.old self.new false out.old out.new (turn_of result) }
        ensures job { self.new.query ≡ self.old.query }
        ensures numbers { HasNumbers out.new }
        ensures heeds { CallHeeds (hears_reply self.old.stage number) (standing self.old client.old out.old) (turn_of result) (standing self.new client.new out.new) }
    {
        if self.has_given_up() {
            return Err(NoMemory);
        }
        self.hear_reply(client, now, number, reply, out)
    }

    /// No reply to the request of this number will come.
    pub fn lost(
        &mut self,
        client: &mut RetryClient,
        now: u64,
        number: u64,
        out: &mut Outbox,
    ) -> Turn
        requires { HasNumbers out.old }
        ensures step { Stands self.old.query out.old (on_loss self.old.stage number now (standing self.old client.old out.old)) (turn_of result) (standing self.new client.new out.new) }
        ensures moves { (r : Asked) → MayBe self.old.query self.old.stage number r →
            Moves (MayAsk self.old) (CallFits self.old out.old) (CallFits self.new out.new) (Gives self.old out.old) (λ h. Lost (ticket_of out.old number) r ∷ h) out.old out.new (turn_of result) }
        ensures spends { CallSpends self.old self.new true out.old out.new (turn_of result) }
        ensures job { self.new.query ≡ self.old.query }
        ensures numbers { HasNumbers out.new }
        ensures heeds { CallHeeds (hears_reply self.old.stage number) (standing self.old client.old out.old) (turn_of result) (standing self.new client.new out.new) }
    {
        if self.has_given_up() {
            return Err(NoMemory);
        }
        self.hear_loss(client, now, number, out)
    }

    /// The sleep of this number has ended.
    pub fn slept(
        &mut self,
        client: &mut RetryClient,
        now: u64,
        number: u64,
        out: &mut Outbox,
    ) -> Turn
        requires { HasNumbers out.old }
        ensures step { Stands self.old.query out.old (on_waking self.old.stage number now (standing self.old client.old out.old)) (turn_of result) (standing self.new client.new out.new) }
        ensures moves { Moves (MayAsk self.old) (CallFits self.old out.old) (CallFits self.new out.new) (Gives self.old out.old) (λ h. Slept (ticket_of out.old number) ∷ h) out.old out.new (turn_of result) }
        ensures spends { CallSpends self.old self.new false out.old out.new (turn_of result) }
        ensures job { self.new.query ≡ self.old.query }
        ensures numbers { HasNumbers out.new }
        ensures heeds { CallHeeds (hears_waking self.old.stage number) (standing self.old client.old out.old) (turn_of result) (standing self.new client.new out.new) }
    {
        if self.has_given_up() {
            return Err(NoMemory);
        }
        self.hear_waking(client, now, number, out)
    }

    /// The ask of this number was answered, by the oracle of the client.
    pub fn take_time(
        &mut self,
        client: &mut RetryClient,
        now: u64,
        ask: u64,
        answer: Result<Timestamp>,
        out: &mut Outbox,
    ) -> Turn
        requires { HasNumbers out.old }
        ensures step { Stands self.old.query out.old (on_answer self.old.stage ask answer now (standing self.old client.old out.old)) (turn_of result) (standing self.new client.new out.new) }
        ensures moves { Moves (MayAsk self.old) (CallFits self.old out.old) (CallFits self.new out.new) (Gives self.old out.old) (λ h. Answered (ticket_of out.old ask) answer ∷ h) out.old out.new (turn_of result) }
        ensures spends { CallSpends self.old self.new (is_err answer) out.old out.new (turn_of result) }
        ensures awake { sleeps out.new ≡ sleeps out.old }
        ensures job { self.new.query ≡ self.old.query }
        ensures numbers { HasNumbers out.new }
        ensures heeds { CallHeeds (hears_answer self.old.stage ask) (standing self.old client.old out.old) (turn_of result) (standing self.new client.new out.new) }
    {
        if self.has_given_up() {
            return Err(NoMemory);
        }
        self.hear_answer(client, now, ask, answer, out)
    }

    fn has_given_up(&self) -> bool
        ensures { MatchBool result (self.now.stage ≡ Stage.Stopped) (self.now.stage ≢ Stage.Stopped) }
    {
        matches!(self.stage, Stage::Stopped)
    }

    // What a call that has not given up makes of each event. It hears only what it waits for.

    fn hear_start(&mut self, client: &RetryClient, out: &mut Outbox) -> Turn
        requires { HasNumbers out.old }
        ensures step { Stands self.old.query out.old (on_start self.old.stage (standing self.old client.now out.old)) (turn_of result) (standing self.new client.now out.new) }
        ensures unheard { hears_start self.old.stage ≡ false → (turn_of result ≡ Waits) × (self.new ≡ self.old) × (out.new ≡ out.old) }
    {
        match self.stage {
            Stage::Fresh => self.make_try(client, out),
            _ => Ok(Progress::Waiting),
        }
    }

    fn hear_reply(
        &mut self,
        client: &mut RetryClient,
        now: u64,
        number: u64,
        reply: Reply,
        out: &mut Outbox,
    ) -> Turn
        requires { HasNumbers out.old }
        ensures step { StandsBy self.old.query out.old (IsOnReply self.old.stage number reply now (standing self.old client.old out.old)) (turn_of result) (standing self.new client.new out.new) }
        ensures unheard { hears_reply self.old.stage number ≡ false → (turn_of result ≡ Waits) × (standing self.new client.new out.new ≡ standing self.old client.old out.old) }
    {
        match self.stage {
            Stage::Sent(sent) => {
                if sent != number {
                    return Ok(Progress::Waiting);
                }
                self.take_answer(client, now, reply, out)
            }
            Stage::Reconnecting { number: sent, .. } => {
                if sent != number {
                    return Ok(Progress::Waiting);
                }
                self.take_members(client, now, reply, out)
            }
            _ => Ok(Progress::Waiting),
        }
    }

    fn hear_loss(
        &mut self,
        client: &mut RetryClient,
        now: u64,
        number: u64,
        out: &mut Outbox,
    ) -> Turn
        requires { HasNumbers out.old }
        ensures step { Stands self.old.query out.old (on_loss self.old.stage number now (standing self.old client.old out.old)) (turn_of result) (standing self.new client.new out.new) }
        ensures unheard { hears_reply self.old.stage number ≡ false → (turn_of result ≡ Waits) × (standing self.new client.new out.new ≡ standing self.old client.old out.old) }
    {
        match self.stage {
            Stage::Sent(sent) => {
                if sent != number {
                    return Ok(Progress::Waiting);
                }
                let ticket = out.ticket(number);
                self.fail(Error::GrpcAPI(ticket), client, now, out)
            }
            Stage::Reconnecting {
                number: sent,
                failed,
            } => {
                if sent != number {
                    return Ok(Progress::Waiting);
                }
                self.lose_members(client, number, failed, out)
            }
            _ => Ok(Progress::Waiting),
        }
    }

    fn hear_waking(
        &mut self,
        client: &mut RetryClient,
        now: u64,
        number: u64,
        out: &mut Outbox,
    ) -> Turn
        requires { HasNumbers out.old }
        ensures step { Stands self.old.query out.old (on_waking self.old.stage number now (standing self.old client.old out.old)) (turn_of result) (standing self.new client.new out.new) }
        ensures unheard { hears_waking self.old.stage number ≡ false → (turn_of result ≡ Waits) × (standing self.new client.new out.new ≡ standing self.old client.old out.old) }
    {
        match self.stage {
            Stage::Resting {
                number: begun,
                failed,
            } => {
                if begun != number {
                    return Ok(Progress::Waiting);
                }
                self.reconnect(failed, client, now, out)
            }
            _ => Ok(Progress::Waiting),
        }
    }

    fn hear_answer(
        &mut self,
        client: &mut RetryClient,
        now: u64,
        ask: u64,
        answer: Result<Timestamp>,
        out: &mut Outbox,
    ) -> Turn
        requires { HasNumbers out.old }
        ensures step { Stands self.old.query out.old (on_answer self.old.stage ask answer now (standing self.old client.old out.old)) (turn_of result) (standing self.new client.new out.new) }
        ensures unheard { hears_answer self.old.stage ask ≡ false → (turn_of result ≡ Waits) × (standing self.new client.new out.new ≡ standing self.old client.old out.old) }
    {
        match self.stage {
            Stage::Asked(asked) => {
                if asked != ask {
                    return Ok(Progress::Waiting);
                }
                self.take_timestamp(client, now, answer, out)
            }
            _ => Ok(Progress::Waiting),
        }
    }

    fn take_timestamp(
        &mut self,
        client: &mut RetryClient,
        now: u64,
        answer: Result<Timestamp>,
        out: &mut Outbox,
    ) -> Turn
        requires { HasNumbers out.old }
        ensures { Stands self.old.query out.old (on_timestamp answer now (standing self.old client.old out.old)) (turn_of result) (standing self.new client.new out.new) }
    {
        match answer {
            Ok(timestamp) => self.end(Ok(PdAnswer::Time(timestamp))),
            Err(why) => self.fail(why, client, now, out),
        }
    }

    /// The request of the query, if it has one: a timestamp is asked of the oracle.
    fn request(&self, cluster: Cluster) -> std::result::Result<Option<Request>, NoMemory>
        ensures { IfOk result (λ request. request ≡ request_of self.now.query) }
    {
        Ok(match &self.query {
            PdQuery::Region(key) => Some(cluster.get_region(key.try_clone()?)),
            PdQuery::RegionId(id) => Some(cluster.get_region_by_id(*id)),
            PdQuery::Store(id) => Some(cluster.get_store(*id)),
            PdQuery::Stores => Some(cluster.get_all_stores()),
            PdQuery::Time => None,
            PdQuery::Safepoint(safe_point) => Some(cluster.update_safepoint(*safe_point)),
        })
    }

    /// Sends the query, or asks for a timestamp.
    fn make_try(&mut self, client: &RetryClient, out: &mut Outbox) -> Turn
        requires { HasNumbers out.old }
        ensures { Stands self.old.query out.old (waits (tried (standing self.old client.now out.old))) (turn_of result) (standing self.new client.now out.new) }
    {
        self.stage = Stage::Stopped;
        match self.request(client.cluster())? {
            Some(request) => self.send(request, out),
            None => self.ask(out),
        }
    }

    fn send(&mut self, request: Request, out: &mut Outbox) -> Turn
        requires { HasNumbers out.old }
        ensures { (c : RetryClient) → Stands self.old.query out.old (waits (tried_with (Some request) (standing self.old c out.old))) (turn_of result) (standing self.new c out.new) }
    {
        self.stage = Stage::Stopped;
        let number = out.send(Target::Placement, request)?;
        self.stage = Stage::Sent(number);
        Ok(Progress::Waiting)
    }

    fn ask(&mut self, out: &mut Outbox) -> Turn
        requires { HasNumbers out.old }
        ensures { (c : RetryClient) → Stands self.old.query out.old (waits (tried_with None (standing self.old c out.old))) (turn_of result) (standing self.new c out.new) }
    {
        self.stage = Stage::Stopped;
        let ask = out.ask()?;
        self.stage = Stage::Asked(ask);
        Ok(Progress::Waiting)
    }

    fn end(&mut self, answer: Result<PdAnswer>) -> Turn
        ensures { (c : RetryClient) (o : Posted) → Stands self.old.query o (ends answer (standing self.old c o)) (turn_of result) (standing self.new c o) }
    {
        self.stage = Stage::Over;
        Ok(Progress::Done(answer))
    }

    fn take_answer(
        &mut self,
        client: &mut RetryClient,
        now: u64,
        reply: Reply,
        out: &mut Outbox,
    ) -> Turn
        requires { HasNumbers out.old }
        ensures { StandsBy self.old.query out.old (IsQueryReply reply now (standing self.old client.old out.old)) (turn_of result) (standing self.new client.new out.new) }
    {
        match read(&self.query, reply) {
            Reading::Answer(answer) => self.end(Ok(answer)),
            Reading::Nothing => self.find_nothing(client, now, out),
            Reading::Unlike => self.end(Err(wrong_reply())),
        }
    }

    fn find_nothing(&mut self, client: &mut RetryClient, now: u64, out: &mut Outbox) -> Turn
        requires { HasNumbers out.old }
        ensures { Stands self.old.query out.old (failing_try (not_found self.old.query) now (standing self.old client.old out.old)) (turn_of result) (standing self.new client.new out.new) }
    {
        self.stage = Stage::Stopped;
        let why = self.not_found()?;
        self.fail(why, client, now, out)
    }

    /// How an answer without a region is named.
    fn not_found(&self) -> std::result::Result<Error, NoMemory>
        ensures { IfOk result (λ why. why ≡ not_found self.now.query) }
    {
        match &self.query {
            PdQuery::Region(key) => Ok(Error::RegionForKeyNotFound {
                key: key.try_clone()?,
            }),
            PdQuery::RegionId(id) => Ok(Error::RegionNotFoundInResponse { region_id: *id }),
            _ => Ok(wrong_reply()),
        }
    }

    /// A try has failed. The last of them is the answer.
    fn fail(&mut self, why: Error, client: &mut RetryClient, now: u64, out: &mut Outbox) -> Turn
        requires { HasNumbers out.old }
        ensures { Stands self.old.query out.old (failing_try why now (standing self.old client.old out.old)) (turn_of result) (standing self.new client.new out.new) }
    {
        if self.failed >= MAX_TRIES - 1 {
            return self.end(Err(why));
        }
        self.failed += 1;
        self.reconnect(0, client, now, out)
    }

    /// Asks for the members, where that is due, and else makes the next try.
    fn reconnect(
        &mut self,
        failed: u32,
        client: &mut RetryClient,
        now: u64,
        out: &mut Outbox,
    ) -> Turn
        requires { HasNumbers out.old }
        ensures { Stands self.old.query out.old (waits (reconnected failed now (standing self.old client.old out.old))) (turn_of result) (standing self.new client.new out.new) }
    {
        if client.may_connect(now) {
            self.ask_members(failed, client, out)
        } else {
            self.make_try(client, out)
        }
    }

    fn ask_members(&mut self, failed: u32, client: &mut RetryClient, out: &mut Outbox) -> Turn
        requires { HasNumbers out.old }
        ensures { Stands self.old.query out.old (waits (connecting failed (standing self.old client.old out.old))) (turn_of result) (standing self.new client.new out.new) }
    {
        self.stage = Stage::Stopped;
        let number = out.send(Target::Placement, client.cluster().members())?;
        client.begin();
        self.stage = Stage::Reconnecting { number, failed };
        Ok(Progress::Waiting)
    }

    fn take_members(
        &mut self,
        client: &mut RetryClient,
        now: u64,
        reply: Reply,
        out: &mut Outbox,
    ) -> Turn
        requires { HasNumbers out.old }
        ensures { StandsBy self.old.query out.old (IsMembersReply reply now (standing self.old client.old out.old)) (turn_of result) (standing self.new client.new out.new) }
    {
        if !is_members(reply) {
            client.give_up();
            return self.end(Err(wrong_reply()));
        }
        client.connect(now);
        self.make_try(client, out)
    }

    fn lose_members(
        &mut self,
        client: &mut RetryClient,
        number: u64,
        failed: u32,
        out: &mut Outbox,
    ) -> Turn
        requires { HasNumbers out.old }
        ensures { Stands self.old.query out.old (losing_members (GrpcAPI (ticket_of out.old number)) failed (unconnected (standing self.old client.old out.old))) (turn_of result) (standing self.new client.new out.new) }
    {
        client.give_up();
        if failed >= MAX_RECONNECTS - 1 {
            return self.end(Err(Error::GrpcAPI(out.ticket(number))));
        }
        self.rest(failed + 1, out)
    }

    fn rest(&mut self, failed: u32, out: &mut Outbox) -> Turn
        requires { HasNumbers out.old }
        ensures { (c : RetryClient) → Stands self.old.query out.old (waits (resting failed (standing self.old c out.old))) (turn_of result) (standing self.new c out.new) }
    {
        self.stage = Stage::Stopped;
        let number = out.sleep(RECONNECT_INTERVAL_MS)?;
        self.stage = Stage::Resting { number, failed };
        Ok(Progress::Waiting)
    }
}

fn copy_query(query: &PdQuery) -> std::result::Result<PdQuery, NoMemory>
    ensures { IfOk result (λ copy. copy ≡ query.now) }
{
    Ok(match query {
        PdQuery::Region(key) => PdQuery::Region(key.try_clone()?),
        PdQuery::RegionId(id) => PdQuery::RegionId(*id),
        PdQuery::Store(id) => PdQuery::Store(*id),
        PdQuery::Stores => PdQuery::Stores,
        PdQuery::Time => PdQuery::Time,
        PdQuery::Safepoint(safe_point) => PdQuery::Safepoint(*safe_point),
    })
}

fn wrong_reply() -> Error
    ensures { result ≡ Error.InternalError Internal.WrongReply }
{
    Error::InternalError {
        what: Internal::WrongReply,
    }
}

/// Whether a reply is one to a request for the members.
fn is_members(reply: Reply) -> bool
    ensures { MatchBool result ((o : MembersResponse) × (reply ≡ Reply.Members o)) ((o : MembersResponse) → reply ≢ Reply.Members o) }
{
    match reply.into_members() {
        Ok(_) => true,
        Err(_) => false,
    }
}
