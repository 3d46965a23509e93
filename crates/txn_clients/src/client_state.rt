ghost use Rattle.std.specs.Prelude.{◌≡◌, ◌≤◌, ◌++◌, ◌∷◌, ℕ, [], IfOk, IfSome, IsTrue, OnOk, Some, false, length, map, option_map};
ghost use Rattle.std.specs.List.{All};
ghost use Rattle.txn_clients.specs.Arising.{GroupsNext};
ghost use Rattle.txn_clients.specs.Failing.{IfFails};
ghost use Rattle.txn_clients.specs.Groups.{IsLeft, IsRefused, IsTimeFor, RefusesBy, group_of, lines_in, lines_out, why_none};
ghost use Rattle.txn_kv.specs.declared.errors.Error.TheVariants.{InternalError};
ghost use Rattle.txn_side.specs.Trace.{Refuses};
ghost use Rattle.txn_clients.specs.Waiting.{Regroups, blank, book_of};
ghost use Rattle.txn_side.specs.Sight.{AskFor};
ghost use Rattle.txn_kv.specs.declared.reply.Reply.TheVariants as replies;
ghost use Rattle.txn_kv.specs.declared.reply.cluster.TsoResponse.{TsoResponse as Times};
ghost use Rattle.txn_kv.specs.declared.request.Request.TheVariants.{Tso};
ghost use Rattle.txn_tso.specs.Oracle.{answered, group_or_none};

use std::alloc::Global;
use txn_client::Client;
use txn_kv::{Error, Internal, Items, NoMemory, Reply, Ticket, Timestamp, TsoRequest, TsoResponse};
use txn_region::ApiV1TxnCodec;
use txn_tso::{Asker, TimestampOracle};

/// A client of a run.
pub struct ClientState {
    pub client: Client<ApiV1TxnCodec>,
    pub oracle: TimestampOracle,
    /// The ticket of the request for timestamps that is out.
    pub group: Option<Ticket>,
    pub crashed: bool,
}

impl Drop for ClientState {
    fn drop(self) {
        let ClientState {
            client,
            oracle,
            group,
            crashed: _,
        } = self;
        drop(client);
        drop(oracle);
        drop(group);
    }
}

/// What each asker of a group is told.
pub type Answers = Vec<(Asker, txn_kv::Result<Timestamp>)>;

/// A group of asks that goes out, by the lines that asked.
#[derive(Drop)]
pub struct Group {
    pub request: TsoRequest,
    pub askers: Items<u64>,
}

/// The lines of askers, in their order.
fn lines_of(alloc: Global, askers: &[Asker], newest: u64) -> Result<Items<u64>, NoMemory>
    ensures lines { IfOk result (λ lines. lines ≡ lines_in askers.now) }
    ensures most { IfOk result (λ lines. All (λ n. n ≤ newest) lines) }
{
    let mut lines = Items::new(alloc);
    for asker in askers {
        // Only lines that are there ask.
        if asker.line > newest {
            return Err(NoMemory);
        }
        lines.push(asker.line)?;
    }
    Ok(lines)
}

/// Each of these is told that there is no timestamp.
fn refusals(alloc: Global, askers: Vec<Asker>, lost: bool) -> Result<Answers, NoMemory>
    ensures times { IfOk result (λ given. All IsTimeFor given.items) }
    ensures refused { IfOk result (λ given. All IsRefused given.items) }
    ensures errors { IfOk result (λ given. All (λ a. IfFails (λ e. e ≡ InternalError (why_none lost)) a.1) given.items) }
    ensures askers { IfOk result (λ given. map (λ a. a.0) given.items ≡ askers.items) }
{
    let mut given = Vec::new(alloc);
    for asker in askers {
        let what = if lost {
            Internal::OracleLost
        } else {
            Internal::WrongReply
        };
        given.push((asker, Err(Error::InternalError { what })))?;
    }
    Ok(given)
}

impl ClientState {
    /// A client that has just connected.
    pub fn new(alloc: Global, now: u64) -> ClientState
        ensures crashed { result.crashed ≡ false }
        ensures group { result.group ≡ None }
        ensures book { book_of result ≡ blank }
    {
        ClientState {
            client: Client::new(alloc, now),
            oracle: TimestampOracle::new(alloc),
            group: None,
            crashed: false,
        }
    }

    /// Whether this ticket is that of the group that is out.
    pub fn is_group(&self, ticket: Ticket) -> bool
        ensures is { IsTrue result → self.now.group ≡ Some ticket }
        ensures not { result ≡ false → self.now.group ≡ Some ticket → ⊥ }
    {
        match self.group {
            None => false,
            Some(group) => group == ticket,
        }
    }

    /// A line asks for a timestamp.
    pub fn ask(&mut self, line: u64, ask: u64) -> Result<(), NoMemory>
        ensures crashed { OnOk result (self.new.crashed ≡ self.old.crashed) }
        ensures group { OnOk result (group_of self.new ≡ group_of self.old) }
        ensures book { OnOk result (book_of self.new ≡ record (book_of self.old) { queue = (book_of self.old).queue ++ record { line = line; beat = false; ask = ask } ∷ [] }) }
    {
        self.oracle.ask(Asker {
            line,
            beat: false,
            ask,
        })
    }

    /// What the reply to the group that is out gives each of its askers: none where it was lost. A reply of another kind gives none of
    /// them a timestamp.
    pub fn take_group(&mut self, alloc: Global, reply: Option<Reply>) -> Result<Answers, NoMemory>
        ensures crashed { OnOk result (self.new.crashed ≡ self.old.crashed) }
        ensures group { OnOk result (group_of self.new ≡ None) }
        ensures times { IfOk result (λ given. All IsTimeFor given.items) }
        ensures granted { IfOk result (λ given. (times : Times) → reply ≡ Some (replies.Tso times) → given.items ≡ answered times self.old.oracle) }
        ensures refused { IfOk result (λ given. ((times : Times) → reply ≡ Some (replies.Tso times) → ⊥) → All IsRefused given.items) }
        ensures errors { IfOk result (λ given. All (λ a. IfFails (RefusesBy (length given.items) reply) a.1) given.items) }
        ensures book { OnOk result (book_of self.new ≡ record (book_of self.old) { out = None; ticket = None }) }
        ensures askers { IfOk result (λ given. map (λ a. a.0) given.items ≡ group_or_none (book_of self.old).out) }
    {
        self.group = None;
        match &reply {
            None => refusals(alloc, self.oracle.lost(), true),
            Some(Reply::Tso(reply)) => self.take_times(reply),
            Some(_) => refusals(alloc, self.oracle.lost(), false),
        }
    }

    fn take_times(&mut self, reply: &TsoResponse) -> Result<Answers, NoMemory>
        ensures crashed { OnOk result (self.new.crashed ≡ self.old.crashed) }
        ensures group { OnOk result (self.new.group ≡ self.old.group) }
        ensures times { IfOk result (λ given. All IsTimeFor given.items) }
        ensures granted { IfOk result (λ given. given.items ≡ answered reply.now self.old.oracle) }
        ensures errors { IfOk result (λ given. All (λ a. IfFails (Refuses (length given.items) (replies.Tso reply.now)) a.1) given.items) }
        ensures book { OnOk result (book_of self.new ≡ record (book_of self.old) { out = None }) }
        ensures askers { IfOk result (λ given. map (λ a. a.0) given.items ≡ group_or_none (book_of self.old).out) }
    {
        self.oracle.take_reply(reply)
    }

    /// The group that goes out next, unless one is out already or nobody asks. Whoever sends it sets its ticket. No line is greater
    /// than the newest.
    pub fn next_group(&mut self, alloc: Global, newest: u64) -> Result<Option<Group>, NoMemory>
        ensures crashed { OnOk result (self.new.crashed ≡ self.old.crashed) }
        ensures left { OnOk result (IsLeft (group_of self.old) (group_of self.new)) }
        ensures group { IfOk result (λ group. IfSome group (λ g. (line : ℕ) × AskFor line (Tso g.request) g.askers)) }
        ensures askers { IfOk result (λ group. IfSome group (λ g. g.askers ≡ lines_out self.new)) }
        ensures most { IfOk result (λ group. IfSome group (λ g. All (λ n. n ≤ newest) g.askers)) }
        ensures regroups { IfOk result (λ group. Regroups group (book_of self.old) (book_of self.new)) }
        ensures next { IfOk result (λ group. GroupsNext (option_map (λ g. g.request) group) (book_of self.old) (book_of self.new)) }
    {
        match self.oracle.next_group()? {
            None => Ok(None),
            Some(request) => {
                self.group = None;
                let askers = lines_of(alloc, self.oracle.askers(), newest)?;
                Ok(Some(Group { request, askers }))
            }
        }
    }
}
