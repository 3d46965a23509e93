ghost use Rattle.std.specs.Prelude.{◌≡◌, ◌+◌, ◌-◌, ◌<◌, ◌≤◌, [], ◌∷◌, IfOk, OnOk, OnErr, length, List, IfSome, true, false, Option, Some, None, slice_get, reverse, map, option_map, drop, ◌++◌};
ghost use Rattle.txn_model.specs.Table.{table};
ghost use Rattle.txn_first.specs.Lists.{lists_of, outs_of, opened, ended_at, row_set, sent_more, next_of, row_at, sent_by, ended_by, followed, ask_one, begins, standing_in, written, puts, commit_begun, commits, request_at, handled, reply_at, start_in, begun, advanced, passed, waits, delivers, stepped, IsEven, IsSound};
ghost use Rattle.txn_first.specs.Posting.{position, place_in};
ghost use Rattle.txn_first.specs.StandsFor.{HasMemory, StandsFor, CanStep, delivered_line, ended_now, outcome_in, view_of_ending, answered, ending_of, IsNote, IsNoteFrom};
ghost use Rattle.txn_first.specs.Lawful.{Lawful};
ghost use Rattle.txn_script.specs.Kinds.{kinds_of};
ghost use Rattle.txn_script.specs.Lines.{why_after};

use crate::note::{Ending, StepNote};
use crate::post::{Letter, Post};
use crate::transaction::{Put, Sending, Status, Transaction, Turn, version_in};
use std::alloc::Global;
use std::mem::replace;
use txn_kv::{
    Error, Internal, Items, Key, NoMemory, Reply, Request, Target, Ticket, TsoRequest, Value,
};
use txn_model::ModelStore;
use txn_report::{Outcome, Payload, Report};
use txn_script::{Line, LineKinds, Why};

/// What stands at a line.
#[derive(Debug, Drop)]
pub enum Row {
    Plain,
    /// A transaction that waits for its start.
    Beginning,
    /// A transaction that has begun.
    Running(Transaction),
    /// A commit of the transaction of this line.
    Committing { transaction: u64 },
}

/// A machine that runs a script line by line.
#[derive(Debug, Drop)]
pub struct Machine {
    store: ModelStore,
    post: Post,
    rows: Vec<Row>,
    outcomes: Vec<Outcome>,
    ended: Vec<u64>,
    served: Vec<Ticket>,
    kinds: LineKinds,
    /// Memory was wanting in a step, so that nothing more is said of the machine.
    broken: bool,
}

/// The line whose ticket a line delivers, or 0.
fn delivered_line(line: &Line) -> u64
    ensures { result ≡ delivered_line line.now }
{
    match line {
        Line::Deliver { ticket } => ticket.line,
        _ => 0,
    }
}

impl Machine {
    /// A machine that stands for no lines.
    pub fn new(alloc: Global) -> Result<Machine, NoMemory>
        ensures stands { IfOk result (λ machine. StandsFor machine []) }
        ensures memory { IfOk result HasMemory }
    {
        Ok(Machine {
            store: ModelStore::new(alloc)?,
            post: Post::new(alloc),
            rows: Vec::new(alloc),
            outcomes: Vec::new(alloc),
            ended: Vec::new(alloc),
            served: Vec::new(alloc),
            kinds: LineKinds::new(alloc),
            broken: false,
        })
    }

    /// Why a line is bad after the lines that the machine stands for.
    pub fn check(&self, line: &Line) -> Option<Why>
        ensures { HasMemory self.now → (lines : List Line) → StandsFor self.now lines → result ≡ why_after lines line.now }
    {
        self.kinds.why(line)
    }

    /// Runs one line more, which is not bad. Once a step has answered `NoMemory`, every later one does.
    pub fn step(&mut self, line: Line) -> Result<StepNote, NoMemory>
        requires { CanStep self.old line }
        ensures stands { (lines : List Line) → StandsFor self.old lines → why_after lines line ≡ None → StandsFor self.new (line ∷ lines) }
        ensures memory { OnOk result (HasMemory self.old × HasMemory self.new) }
        ensures broken { OnErr result (HasMemory self.new → ⊥) }
        ensures note { IfOk result (λ note. IsNote (lists_of self.new) line note) }
    {
        if self.broken {
            return Err(NoMemory);
        }
        match self.try_step(line) {
            Ok(note) => {
                self.broken = false;
                Ok(note)
            }
            Err(error) => {
                self.broken = true;
                Err(error)
            }
        }
    }

    /// Runs one line more, where memory was never wanting.
    fn try_step(&mut self, line: Line) -> Result<StepNote, NoMemory>
        requires can { CanStep self.old line }
        requires memory { HasMemory self.old }
        ensures lists { OnOk result (lists_of self.new ≡ stepped (lists_of self.old) line) }
        ensures kinds { OnOk result ((lines : List Line) → self.old.kinds ≡ kinds_of lines → self.new.kinds ≡ kinds_of (line ∷ lines)) }
        ensures note { IfOk result (λ note. IsNote (lists_of self.new) line note) }
    {
        let from = self.post.sent.len();
        let delivered = delivered_line(&line);
        // The run of a line does not look at the kinds of the earlier ones: they stand apart while it lasts.
        let alloc = *self.rows.allocator();
        let mut kinds = replace(&mut self.kinds, LineKinds::new(alloc));
        kinds.push(&line)?;
        self.run(line)?;
        let note = self.note(from, delivered)?;
        self.kinds = kinds;
        Ok(note)
    }

    /// The note of the newest line. `from` is where in the list what it sent begins, and `delivered` the line whose
    /// ticket it delivers, or 0.
    fn note(&self, from: usize, delivered: u64) -> Result<StepNote, NoMemory>
        requires some { 0 < length (lists_of self.now).outcomes }
        requires from { from ≤ length (lists_of self.now).sent }
        ensures { IfOk result (λ note. IsNoteFrom (lists_of self.now) from delivered note) }
    {
        let place = self.outcomes.len();
        let mut ended = Items::new(*self.rows.allocator());
        self.push_ending(&mut ended, delivered)?;
        self.push_ending(&mut ended, place as u64)?;
        Ok(StepNote {
            place: place as u64,
            outcome: self.outcomes[place - 1].try_clone()?,
            sent: self.sent_since(from)?,
            ended,
        })
    }

    /// The tickets of what was sent from a place on.
    fn sent_since(&self, from: usize) -> Result<Items<Ticket>, NoMemory>
        requires { from ≤ length (lists_of self.now).sent }
        ensures { IfOk result (λ tickets. tickets ≡ map (λ s. s.ticket) (drop from (lists_of self.now).sent)) }
    {
        let mut sent = Items::new(*self.rows.allocator());
        for note in &self.post.sent[from..] {
            sent.push(note.ticket)?;
        }
        Ok(sent)
    }

    /// Whether a line was over first in the step of the newest.
    fn ended_now(&self, line: u64) -> bool
        ensures { result ≡ ended_now (length (lists_of self.now).outcomes) (place_in (lists_of self.now).ended line) }
    {
        if line == 0 {
            return false;
        }
        match self.ended.get(line as usize - 1) {
            None => false,
            Some(at) => *at == self.outcomes.len() as u64,
        }
    }

    /// What the call of a line answered, if it did.
    fn answer(&self, line: u64) -> Result<Option<Ending>, NoMemory>
        ensures { IfOk result (λ ending. option_map view_of_ending ending ≡ answered line (outcome_in (lists_of self.now).outcomes line)) }
    {
        if line == 0 {
            return Ok(None);
        }
        Ok(match self.outcomes.get(line as usize - 1) {
            Some(Outcome::Ok(payload)) => Some(Ending {
                line,
                outcome: Outcome::Ok(payload.try_clone()?),
            }),
            Some(Outcome::Err(error)) => Some(Ending {
                line,
                outcome: Outcome::Err(error.try_clone()?),
            }),
            Some(Outcome::Unfinished) => None,
            Some(Outcome::Done) => None,
            Some(Outcome::Skipped) => None,
            None => None,
        })
    }

    /// Notes the call of a line, where it answered in the step of the newest line.
    fn push_ending(&self, endings: &mut Items<Ending>, line: u64) -> Result<(), NoMemory>
        ensures { OnOk result (map view_of_ending endings.new ≡ map view_of_ending endings.old ++ ending_of (lists_of self.now) line) }
    {
        if !self.ended_now(line) {
            return Ok(());
        }
        if let Some(ending) = self.answer(line)? {
            endings.push(ending)?;
        }
        Ok(())
    }

    /// Every ticket that is out, by line and number.
    pub fn outs(&self) -> Result<Vec<Ticket>, NoMemory>
        ensures { IfOk result (λ outs. outs.items ≡ outs_of (lists_of self.now)) }
    {
        let mut outs = Vec::new(*self.rows.allocator());
        for places in self.post.tickets.as_slice() {
            self.post.push_outs(&mut outs, places.as_slice())?;
        }
        Ok(outs)
    }

    /// The report of the lines that the machine stands for. Takes no memory.
    pub fn report(self) -> Report
        requires { HasMemory self }
        ensures { (lines : List Line) → StandsFor self lines → Lawful (reverse lines) result }
    {
        let post = self.post;
        Report {
            outcomes: Items::from_vec(self.outcomes),
            ended: Items::from_vec(self.ended),
            sent: Items::from_vec(post.sent),
            sleeps: Items::new(*self.rows.allocator()),
            served: Items::from_vec(self.served),
            store: self.store,
        }
    }

    /// The number of the line that comes next.
    fn next_line(&self) -> u64
        ensures { result ≡ length (lists_of self.now).outcomes + 1 }
    {
        self.outcomes.len() as u64 + 1
    }

    /// One row more. `ended` is the line's number where it is over already, and 0 where it is not.
    fn open(&mut self, row: Row, outcome: Outcome, ended: u64) -> Result<(), NoMemory>
        ensures { OnOk result (lists_of self.new ≡ opened (lists_of self.old) row outcome ended) }
    {
        self.post.open()?;
        self.rows.push(row)?;
        self.outcomes.push(outcome)?;
        self.ended.push(ended)?;
        Ok(())
    }

    /// Ends the call of a line in the step of the newest.
    fn end(&mut self, line: u64, outcome: Outcome)
        requires { 1 ≤ line }
        ensures { lists_of self.new ≡ ended_at (lists_of self.old) line outcome }
    {
        let place = line as usize - 1;
        if place < self.ended.len() {
            self.ended[place] = self.outcomes.len() as u64;
        }
        if place < self.outcomes.len() {
            self.outcomes[place] = outcome;
        }
    }

    /// Sends a request of a line in the step of the newest.
    fn send(&mut self, line: u64, to: Target, request: Request) -> Result<(), NoMemory>
        requires first { 1 ≤ line }
        requires last { line ≤ length (lists_of self.old).tickets }
        ensures { OnOk result (lists_of self.new ≡ sent_more (lists_of self.old) line to request) }
    {
        let at = self.outcomes.len() as u64;
        self.post.send(line, at, to, request)
    }

    /// Sends what a call wants to send, if anything.
    fn send_any(&mut self, line: u64, sending: Option<Sending>) -> Result<(), NoMemory>
        requires first { 1 ≤ line }
        requires last { line ≤ length (lists_of self.old).tickets }
        ensures { OnOk result (lists_of self.new ≡ sent_by (lists_of self.old) line sending) }
    {
        match sending {
            None => Ok(()),
            Some(sending) => self.send(line, sending.to, sending.request),
        }
    }

    /// Ends a call that has come to its end.
    fn end_any(&mut self, line: u64, outcome: Option<Outcome>)
        requires { 1 ≤ line }
        ensures { lists_of self.new ≡ ended_by (lists_of self.old) line outcome }
    {
        match outcome {
            None => {}
            Some(outcome) => self.end(line, outcome),
        }
    }

    /// A call goes on: it sends, and it ends.
    fn follow(&mut self, line: u64, turn: Turn) -> Result<(), NoMemory>
        requires first { 1 ≤ line }
        requires last { line ≤ length (lists_of self.old).tickets }
        ensures { OnOk result (lists_of self.new ≡ followed (lists_of self.old) line turn) }
    {
        self.send_any(line, turn.send)?;
        self.end_any(line, turn.outcome);
        Ok(())
    }

    /// A transaction asks for its start.
    fn begin(&mut self) -> Result<(), NoMemory>
        requires { IsEven (lists_of self.old) }
        ensures { OnOk result (lists_of self.new ≡ begins (lists_of self.old)) }
    {
        let line = self.next_line();
        self.open(Row::Beginning, Outcome::Unfinished, 0)?;
        self.send(
            line,
            Target::Placement,
            Request::Tso(TsoRequest { count: 1 }),
        )
    }

    /// The status of a transaction that has begun and has no call open.
    fn standing(&self, transaction: u64) -> Option<Status>
        ensures { result ≡ standing_in (row_at (lists_of self.now).rows transaction) }
    {
        if transaction == 0 {
            return None;
        }
        match self.rows.get(transaction as usize - 1) {
            Some(Row::Running(running)) => running.free_status(),
            _ => None,
        }
    }

    /// Buffers a write.
    fn write(&mut self, transaction: u64, key: Key, value: Value)
        ensures { lists_of self.new ≡ written (lists_of self.old) transaction key value }
    {
        if transaction == 0 {
            return;
        }
        let place = transaction as usize - 1;
        if place < self.rows.len() {
            if let Row::Running(running) = &mut self.rows[place] {
                running.put = Some(Put { key, value });
            }
        }
    }

    /// A transaction writes.
    fn put(&mut self, transaction: u64, key: Key, value: Value) -> Result<(), NoMemory>
        ensures { OnOk result (lists_of self.new ≡ puts (lists_of self.old) transaction key value) }
    {
        let line = self.next_line();
        match self.standing(transaction) {
            None => self.open(Row::Plain, Outcome::Skipped, line),
            Some(Status::Active) => {
                self.write(transaction, key, value);
                self.open(Row::Plain, Outcome::Ok(Payload::Unit), line)
            }
            Some(_) => self.refuse(line),
        }
    }

    /// A call comes after the commit has begun.
    fn refuse(&mut self, line: u64) -> Result<(), NoMemory>
        ensures { OnOk result (lists_of self.new ≡ opened (lists_of self.old) Row.Plain (Outcome.Err Error.OperationAfterCommitError) line) }
    {
        self.open(
            Row::Plain,
            Outcome::Err(Error::OperationAfterCommitError),
            line,
        )
    }

    /// The newest line begins to commit a transaction.
    fn start_commit(&mut self, transaction: u64, line: u64) -> Result<(), NoMemory>
        requires first { 1 ≤ line }
        requires last { line ≤ length (lists_of self.old).tickets }
        requires newest { line ≡ length (lists_of self.old).outcomes }
        ensures { OnOk result (lists_of self.new ≡ commit_begun (lists_of self.old) transaction) }
    {
        if transaction == 0 {
            return Ok(());
        }
        let place = transaction as usize - 1;
        if place >= self.rows.len() {
            return Ok(());
        }
        match &mut self.rows[place] {
            Row::Running(running) => {
                let turn = running.start_commit(line)?;
                self.follow(line, turn)
            }
            _ => Ok(()),
        }
    }

    /// A transaction is to be committed.
    fn commit(&mut self, transaction: u64) -> Result<(), NoMemory>
        requires { IsEven (lists_of self.old) }
        ensures { OnOk result (lists_of self.new ≡ commits (lists_of self.old) transaction) }
    {
        let line = self.next_line();
        match self.standing(transaction) {
            None => self.open(Row::Plain, Outcome::Skipped, line),
            Some(Status::Committed) => self.refuse(line),
            Some(_) => {
                self.open(Row::Committing { transaction }, Outcome::Unfinished, 0)?;
                self.start_commit(transaction, line)
            }
        }
    }

    /// Whether the request at a place may be handled, and its reply taken.
    fn waits(&self, place: usize) -> bool
        ensures { result ≡ waits (slice_get (lists_of self.now).letters place) }
    {
        match self.post.letters.get(place) {
            None => false,
            Some(letter) => !letter.served && !letter.gone,
        }
    }

    /// The store handles the request at a place, and the client takes the reply.
    fn handle(&mut self, place: usize, ticket: Ticket) -> Result<Reply, NoMemory>
        requires sound { IsSound (lists_of self.old) }
        requires sent { place < length (lists_of self.old).sent }
        ensures reply { IfOk result (λ reply. reply ≡ reply_at (lists_of self.old) place) }
        ensures lists { OnOk result (lists_of self.new ≡ handled (lists_of self.old) place ticket) }
    {
        let reply = self.store.serve(&self.post.sent[place].request)?;
        self.post.letters[place] = Letter {
            served: true,
            gone: true,
        };
        self.served.push(ticket)?;
        Ok(reply)
    }

    /// A transaction begins with the start that a reply gives.
    fn start(&mut self, line: u64, start: Option<u64>)
        requires { 1 ≤ line }
        ensures { lists_of self.new ≡ begun (lists_of self.old) line start }
    {
        let place = line as usize - 1;
        match start {
            None => {
                self.stand(place, Row::Plain);
                self.end(
                    line,
                    Outcome::Err(Error::InternalError {
                        what: Internal::WrongReply,
                    }),
                );
            }
            Some(start) => {
                self.stand(place, Row::Running(Transaction::new(start)));
                self.end(line, Outcome::Ok(Payload::Number(start)));
            }
        }
    }

    /// Puts another row in a line's place.
    fn stand(&mut self, place: usize, row: Row)
        ensures { lists_of self.new ≡ row_set (lists_of self.old) (place + 1) row }
    {
        if place < self.rows.len() {
            self.rows[place] = row;
        }
    }

    /// A commit of a transaction takes a reply.
    fn advance(&mut self, transaction: u64, line: u64, reply: &Reply) -> Result<(), NoMemory>
        requires first { 1 ≤ line }
        requires last { line ≤ length (lists_of self.old).tickets }
        ensures { OnOk result (lists_of self.new ≡ advanced (lists_of self.old) transaction line reply.now (row_at (lists_of self.old).rows transaction)) }
    {
        if transaction == 0 {
            return Ok(());
        }
        let place = transaction as usize - 1;
        if place >= self.rows.len() {
            return Ok(());
        }
        let alloc = *self.rows.allocator();
        match &mut self.rows[place] {
            Row::Running(running) => {
                let turn = running.take_reply(alloc, reply)?;
                self.follow(line, turn)
            }
            _ => Ok(()),
        }
    }

    /// The call of a line takes a reply.
    fn pass(&mut self, line: u64, reply: &Reply) -> Result<(), NoMemory>
        requires { IsEven (lists_of self.old) }
        ensures { OnOk result (lists_of self.new ≡ passed (lists_of self.old) line reply.now) }
    {
        if line == 0 {
            return Ok(());
        }
        match self.rows.get(line as usize - 1) {
            Some(Row::Beginning) => {
                self.start(line, start_in(reply));
                Ok(())
            }
            Some(Row::Committing { transaction }) => {
                let transaction = *transaction;
                self.advance(transaction, line, reply)
            }
            Some(Row::Plain) | Some(Row::Running(_)) | None => Ok(()),
        }
    }

    /// The store handles a request, and the client takes the reply.
    fn deliver(&mut self, ticket: Ticket) -> Result<(), NoMemory>
        requires sound { IsSound (lists_of self.old) }
        requires few { length (lists_of self.old).outcomes < 65536 }
        ensures { OnOk result (lists_of self.new ≡ delivers (lists_of self.old) ticket) }
    {
        match self.post.place(ticket) {
            None => self.skip(),
            Some(place) => {
                if self.waits(place) {
                    self.deliver_at(place, ticket)
                } else {
                    self.skip()
                }
            }
        }
    }

    fn skip(&mut self) -> Result<(), NoMemory>
        ensures { OnOk result (lists_of self.new ≡ opened (lists_of self.old) Row.Plain Outcome.Skipped (next_of (lists_of self.old))) }
    {
        let line = self.next_line();
        self.open(Row::Plain, Outcome::Skipped, line)
    }

    fn deliver_at(&mut self, place: usize, ticket: Ticket) -> Result<(), NoMemory>
        requires sound { IsSound (lists_of self.old) }
        requires few { length (lists_of self.old).outcomes < 65536 }
        requires sent { place < length (lists_of self.old).sent }
        ensures { OnOk result (lists_of self.new ≡ passed (handled (opened (lists_of self.old) Row.Plain Outcome.Done (next_of (lists_of self.old))) place ticket) ticket.line (reply_at (lists_of self.old) place)) }
    {
        let line = self.next_line();
        self.open(Row::Plain, Outcome::Done, line)?;
        let reply = self.handle(place, ticket)?;
        self.pass(ticket.line, &reply)
    }

    /// What a line does.
    fn run(&mut self, line: Line) -> Result<(), NoMemory>
        requires sound { IsSound (lists_of self.old) }
        requires few { length (lists_of self.old).outcomes < 65536 }
        ensures { OnOk result (lists_of self.new ≡ stepped (lists_of self.old) line) }
    {
        let number = self.next_line();
        match line {
            Line::Blank => self.open(Row::Plain, Outcome::Done, number),
            Line::Client => self.open(Row::Plain, Outcome::Ok(Payload::Unit), number),
            Line::Begin { client: _ } => self.begin(),
            Line::Put {
                transaction,
                key,
                value,
            } => self.put(transaction, key, value),
            Line::Commit { transaction } => self.commit(transaction),
            Line::Deliver { ticket } => self.deliver(ticket),
        }
    }
}

/// The start that a reply gives.
fn start_in(reply: &Reply) -> Option<u64>
    ensures { result ≡ start_in reply.now }
{
    match reply {
        Reply::Tso(answer) => version_in(answer.timestamp),
        _ => None,
    }
}
