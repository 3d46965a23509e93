ghost use Rattle.std.specs.Prelude.{◌≡◌, ◌<◌, ◌++◌, IfSome, OnErr, OnOk, drop, filter, is_some, length, not};
ghost use Rattle.txn_history.specs.Event.{same_ticket};
ghost use Rattle.txn_kv.specs.Timestamp.{HasVersion};
ghost use Rattle.txn_commit.specs.Following.{answered, commit_tickets, heard, is_commit, is_done, is_out, lost, none_sent, sent, undetermined, without};

use std::alloc::Global;
use std::marker::Model;
use txn_kv::{Arrival, Errand, NoMemory, Outbox, Reply, Request, Ticket, Timestamp, TimestampExt};

/// The Commits of a transaction's primary: the timestamp that all of them name, once one was sent, and what became of them.
#[derive(Debug)]
pub struct PrimaryCommits {
    timestamp: Option<Timestamp>,
    /// Those that are neither refused nor lost.
    out: Vec<Ticket>,
    /// The first that was lost.
    lost: Option<Ticket>,
}

impl Drop for PrimaryCommits {
    fn drop(self) {
        let PrimaryCommits {
            timestamp,
            out,
            lost,
        } = self;
        drop(timestamp);
        drop(out);
        drop(lost);
    }
}

impl Model for PrimaryCommits {
    ghost use Rattle.std.specs.Prelude.{IfSome};
    ghost use Rattle.txn_kv.specs.Timestamp.{HasVersion};
    ghost use Rattle.txn_commit.specs.Following.{Commits};

    ghost Value = { Commits };

    ghost view = { λ c. record { timestamp = c.timestamp; out = c.out.items; lost = c.lost } };

    // the timestamp is in range
    ghost invariant = { λ c. IfSome c.timestamp HasVersion };
}

impl PrimaryCommits {
    /// None was sent. Takes no memory.
    pub fn new(alloc: Global) -> PrimaryCommits
        ensures { result ≡ none_sent }
    {
        PrimaryCommits {
            timestamp: None,
            out: Vec::new(alloc),
            lost: None,
        }
    }

    /// The timestamp that each of them names, once one was sent.
    pub fn timestamp(&self) -> Option<Timestamp>
        ensures time { result ≡ self.now.timestamp }
        ensures version { IfSome result HasVersion }
    {
        self.timestamp
    }

    /// The request of this ticket was answered. A Commit whose reply does not say that it was done is out no more. Takes no memory.
    pub fn take(&mut self, ticket: Ticket, reply: &Reply)
        ensures { self.new ≡ answered ticket reply.now self.old }
    {
        if is_done(self.timestamp, reply) {
            return;
        }
        drop_ticket(&mut self.out, ticket);
    }

    /// The request of this ticket was lost. Takes no memory.
    pub fn lose(&mut self, ticket: Ticket)
        ensures { self.new ≡ lost ticket self.old }
    {
        if !self.is_out(ticket) {
            return;
        }
        drop_ticket(&mut self.out, ticket);
        if self.lost.is_none() {
            self.lost = Some(ticket);
        }
    }

    /// The line of this outbox was told of something. Takes no memory.
    pub fn hear(&mut self, arrival: &Arrival, out: &Outbox)
        ensures { self.new ≡ heard arrival.now out.now self.old }
    {
        match arrival {
            Arrival::Reply { number, reply } => self.take(out.ticket(*number), reply),
            Arrival::Lost { number } => self.lose(out.ticket(*number)),
            Arrival::Slept { .. } => {}
            Arrival::Time { .. } => {}
        }
    }

    fn is_out(&self, ticket: Ticket) -> bool
        ensures { result ≡ is_out ticket self.now }
    {
        for out in &self.out {
            if is_same(*out, ticket) {
                return true;
            }
        }
        false
    }

    /// What an outbox holds beyond this place was posted, of which each Commit commits the primary at this timestamp. It refuses
    /// only where something was posted, and leaves it open then what is known.
    pub fn send(&mut self, out: &Outbox, had: usize, timestamp: Timestamp) -> Result<(), NoMemory>
        requires { HasVersion timestamp }
        ensures ok { OnOk result (self.new ≡ sent out.now.line out.now.beat (drop had out.now.sends) timestamp self.old) }
        ensures err { OnErr result (had < length out.now.sends) }
    {
        let before = self.out.len();
        push_commits(&mut self.out, out, had)?;
        if self.out.len() > before {
            self.timestamp = Some(timestamp);
        }
        Ok(())
    }

    /// How many are neither refused nor lost.
    pub fn count_out(&self) -> usize
        ensures { result ≡ length self.now.out }
    {
        self.out.len()
    }

    /// Whether one was lost.
    pub fn has_lost(&self) -> bool
        ensures { result ≡ is_some self.now.lost }
    {
        self.lost.is_some()
    }

    /// One that was lost, or that is not refused: it may have committed the transaction.
    pub fn undetermined(&self) -> Option<Ticket>
        ensures { result ≡ undetermined self.now }
    {
        match self.lost {
            Some(ticket) => Some(ticket),
            None => self.out.first().copied(),
        }
    }
}

/// The reply says that what was sent at this timestamp is committed.
fn is_done(timestamp: Option<Timestamp>, reply: &Reply) -> bool
    requires { IfSome timestamp HasVersion }
    ensures { result ≡ is_done timestamp reply.now }
{
    match (timestamp, reply) {
        (Some(time), Reply::Commit(it)) => {
            it.region_error.is_none() && it.error.is_none() && it.commit_version == time.version()
        }
        _ => false,
    }
}

fn is_same(a: Ticket, b: Ticket) -> bool
    ensures { result ≡ same_ticket a b }
{
    a.line == b.line && a.beat == b.beat && a.number == b.number
}

fn drop_ticket(tickets: &mut Vec<Ticket>, ticket: Ticket)
    ensures { tickets.new.items ≡ without ticket tickets.old.items }
{
    tickets.retain(|out| !is_same(*out, ticket));
}

fn is_commit(request: &Request) -> bool
    ensures { result ≡ is_commit request.now }
{
    matches!(request, Request::Commit(_))
}

/// How much an outbox holds.
pub(crate) fn count_posted(out: &Outbox) -> usize
    ensures { result ≡ length out.now.sends }
{
    out.sends.len()
}

/// Appends the ticket of each Commit beyond this place.
fn push_commits(tickets: &mut Vec<Ticket>, out: &Outbox, had: usize) -> Result<(), NoMemory>
    ensures ok { OnOk result (tickets.new.items ≡ tickets.old.items ++ commit_tickets out.now.line out.now.beat (drop had out.now.sends)) }
    ensures err { OnErr result (had < length out.now.sends) }
{
    push_each(tickets, out.line, out.beat, out.sends.as_slice(), had)
}

fn push_each(
    tickets: &mut Vec<Ticket>,
    line: u64,
    beat: bool,
    errands: &[Errand],
    had: usize,
) -> Result<(), NoMemory>
    ensures ok { OnOk result (tickets.new.items ≡ tickets.old.items ++ commit_tickets line beat (drop had errands.now)) }
    ensures err { OnErr result (had < length errands.now) }
{
    for index in had..errands.len() {
        if let Errand::Send {
            number,
            request,
            ..
        } = &errands[index]
        {
            if is_commit(request) {
                tickets.push(Ticket {
                    line,
                    beat,
                    number: *number,
                })?;
            }
        }
    }
    Ok(())
}
