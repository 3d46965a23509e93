ghost use Rattle.std.specs.List.Sorted.{IsNonDecreasing, IsPermutation};
ghost use Rattle.std.specs.Prelude.{◌≡◌, ◌+◌, ◌++◌, ◌∷◌, ◌<◌, ◌≤◌, [], IfOk, List, OnErr, OnOk, None, Some, length, map};
ghost use Rattle.txn_lines.specs.Deeds.{deed_of};
ghost use Rattle.txn_lines.specs.Kinds.{kinds_of};
ghost use Rattle.txn_lines.specs.Lines.{max_lines, why_after};
ghost use Rattle.txn_machine.specs.Accounts.{AccountsMeetLines, Credited, Credits, TakenIn, own_by};
ghost use Rattle.txn_machine.specs.Arising.{Arisen, ArisenIn, ArisenLines, RunsTo};
ghost use Rattle.txn_machine.specs.Causes.{CallsMeetLines, EndsLines, EventsMeetLines, LivesLines, TellsLines};
ghost use Rattle.txn_machine.specs.Dues.{DuesLines, StayOut};
ghost use Rattle.txn_machine.specs.Failing.{CausesMeetLines, HeardIn, Rested, RunsOn};
ghost use Rattle.txn_machine.specs.Lists.{Lists, all_ended, all_posted, ended_at, newest, opened, outright, posted_at, with_mail};
ghost use Rattle.txn_machine.specs.Notes.{AreNoted};
ghost use Rattle.txn_machine.specs.Outs.{AreOutAfter};
ghost use Rattle.txn_machine.specs.Running.{CanClose, CanPost, CanStep, HasMemory, IsEven, IsFine, IsOrdered, IsReportOf, KeepOut, LedTo, Stands, StandsFor, closed, lists_of, outs_at, outs_until, with_own};
ghost use Rattle.txn_machine.specs.Script.{FoldsLines, outcome_of};
ghost use Rattle.txn_machine.specs.Steps.{Does, Steps, called, ended_in, posted_in};
ghost use Rattle.txn_machine.specs.Times.{TimesLines};
ghost use Rattle.txn_machine.specs.Told.{ArePast, CanTell, IsNote, IsNoteOf, OwnEnds, ending_at, view_of_ending};
ghost use Rattle.txn_post.specs.Mail.{IsNext};
ghost use Rattle.txn_report.specs.OutcomeView.{view_of_outcome};
ghost use Rattle.txn_report.specs.declared.report.Report.{Report as Reported};
ghost use Rattle.txn_side.specs.Account.{AreKept, AreNew};
ghost use Rattle.txn_side.specs.Arising.{StillArises};
ghost use Rattle.txn_side.specs.Sight.{nobody, ticket_in};
ghost use Rattle.txn_side.specs.Trace.{StillRests};

mod events;

use crate::done::Done;
use crate::note::StepNote;
use std::alloc::Global;
use std::mem::replace;
use txn_kv::{Items, NoMemory, Ticket};
use txn_lines::{Act, ClientAct, Deed, Line, LineKinds, Why};
use txn_model::ModelStore;
use txn_post::Post;
use txn_report::{Outcome, Payload, Report};
use txn_side::{ClientSide, Ending, Posting, Turn};

/// A machine that runs a script line by line.
#[derive(Drop)]
pub struct Machine<S> {
    store: ModelStore,
    post: Post,
    clients: S,
    /// One for each line.
    outcomes: Vec<Outcome>,
    /// For each line the number of the line in whose step its outcome came, and 0 where it is unfinished.
    ended: Vec<u64>,
    served: Vec<Ticket>,
    kinds: LineKinds,
    /// Memory was wanting in a step, so that nothing more is said of the machine.
    broken: bool,
    alloc: Global,
}

/// Sends what a client posted in the step of the line `at`, and gives the ticket.
fn send_one(post: &mut Post, at: u64, posting: Posting) -> Result<Ticket, NoMemory>
    requires { IsNext post.old (ticket_in posting) }
    ensures posted { OnOk result (post.new ≡ posted_at at posting post.old) }
    ensures ticket { IfOk result (λ ticket. ticket ≡ ticket_in posting) }
{
    match posting {
        Posting::Send {
            ticket,
            to,
            request,
            askers,
        } => {
            post.send(ticket, at, to, request, askers)?;
            Ok(ticket)
        }
        Posting::Sleep { ticket } => {
            post.sleep(ticket, at)?;
            Ok(ticket)
        }
    }
}

impl<S: ClientSide> Machine<S> {
    /// A machine that stands for no lines, over clients of no line.
    pub fn new(alloc: Global, clients: S) -> Result<Machine<S>, NoMemory>
        requires nobody { S.sight clients ≡ nobody }
        requires ready { S.ready clients }
        requires accounts { AreNew (S.account clients) }
        ensures stands { IfOk result (λ machine. StandsFor S.sight S.ready S.waits machine []) }
        ensures taken { IfOk result (λ machine. TakenIn S.account machine []) }
        ensures heard { IfOk result (λ machine. HeardIn S.rests S.fails machine []) }
        ensures arisen { IfOk result (λ machine. ArisenIn S.arises S.holds machine []) }
        ensures memory { IfOk result HasMemory }
    {
        Ok(Machine {
            store: ModelStore::new(alloc)?,
            post: Post::new(alloc),
            clients,
            outcomes: Vec::new(alloc),
            ended: Vec::new(alloc),
            served: Vec::new(alloc),
            kinds: LineKinds::new(alloc),
            broken: false,
            alloc,
        })
    }

    /// Why a line is bad after the lines that the machine stands for.
    pub fn check(&self, line: &Line) -> Option<Why>
        ensures { HasMemory self.now → (lines : List Line) → StandsFor S.sight S.ready S.waits self.now lines → result ≡ why_after lines line.now }
    {
        self.kinds.why(line)
    }

    /// Runs one line more, which is not bad. Once a step has answered `NoMemory`, every later one does.
    pub fn step(&mut self, line: Line) -> Result<StepNote, NoMemory>
        requires { CanStep S.sight S.ready S.waits self.old line }
        ensures stands { (lines : List Line) → StandsFor S.sight S.ready S.waits self.old lines → why_after lines line ≡ None → StandsFor S.sight S.ready S.waits self.new (line ∷ lines) }
        ensures taken { (lines : List Line) → StandsFor S.sight S.ready S.waits self.old lines → why_after lines line ≡ None → TakenIn S.account self.old lines → TakenIn S.account self.new (line ∷ lines) }
        ensures heard { (lines : List Line) → StandsFor S.sight S.ready S.waits self.old lines → why_after lines line ≡ None → TakenIn S.account self.old lines → HeardIn S.rests S.fails self.old lines → HeardIn S.rests S.fails self.new (line ∷ lines) }
        ensures arisen { (lines : List Line) → StandsFor S.sight S.ready S.waits self.old lines → why_after lines line ≡ None → ArisenIn S.arises S.holds self.old lines → ArisenIn S.arises S.holds self.new (line ∷ lines) }
        ensures memory { OnOk result (HasMemory self.old × HasMemory self.new) }
        ensures broken { OnErr result (HasMemory self.new → ⊥) }
        ensures note { IfOk result (λ note. IsNote (lists_of S.sight self.new) note) }
    {
        if self.broken {
            return Err(NoMemory);
        }
        match self.try_step(line) {
            Ok(note) => {
                self.broken = false;
                Ok(note)
            }
            Err(error) => {
                self.broken = true;
                Err(error)
            }
        }
    }

    /// Runs one line more, where memory was never wanting.
    fn try_step(&mut self, line: Line) -> Result<StepNote, NoMemory>
        requires ready { S.ready self.old.clients }
        requires ordered { IsOrdered (lists_of S.sight self.old) }
        requires room { newest (lists_of S.sight self.old) < max_lines }
        requires fine { IsFine (deed_of line) }
        requires past { ArePast (lists_of S.sight self.old) }
        ensures lists { OnOk result (Steps line (lists_of S.sight self.old) (lists_of S.sight self.new)) }
        ensures out { OnOk result (StayOut (S.waits self.old.clients) (S.waits self.new.clients) (lists_of S.sight self.old) (lists_of S.sight self.new)) }
        ensures ready { OnOk result (S.ready self.new.clients) }
        ensures credited { OnOk result (Credited (deed_of line) (S.sight self.old.clients) (S.account self.old.clients) (S.account self.new.clients) (lists_of S.sight self.new)) }
        ensures rests { OnOk result (Rested S.fails (S.rests self.old.clients) (S.rests self.new.clients) (deed_of line) (lists_of S.sight self.old) (S.account self.old.clients) (lists_of S.sight self.new)) }
        ensures arises { OnOk result (Arisen (S.arises self.old.clients) (S.arises self.new.clients) (S.holds self.old.clients) (S.holds self.new.clients) (deed_of line) (lists_of S.sight self.old) (lists_of S.sight self.new)) }
        ensures kinds { OnOk result ((lines : List Line) → self.old.kinds ≡ kinds_of lines → self.new.kinds ≡ kinds_of (line ∷ lines)) }
        ensures note { IfOk result (λ note. IsNote (lists_of S.sight self.new) note) }
    {
        // The run of a line does not look at the kinds of the earlier ones: they stand apart while it lasts.
        let mut kinds = replace(&mut self.kinds, LineKinds::new(self.alloc));
        kinds.push(&line)?;
        self.open()?;
        let done = self.run(line.deed())?;
        let note = self.close(done)?;
        self.kinds = kinds;
        Ok(note)
    }

    /// The number of the newest line.
    fn newest(&self) -> u64
        ensures { result ≡ newest (lists_of S.sight self.now) }
    {
        self.outcomes.len() as u64
    }

    /// One line more, of which nothing is said yet.
    fn open(&mut self) -> Result<(), NoMemory>
        requires { S.ready self.old.clients }
        ensures lists { OnOk result (lists_of S.sight self.new ≡ opened (lists_of S.sight self.old)) }
        ensures out { OnOk result (StayOut (S.waits self.old.clients) (S.waits self.new.clients) (lists_of S.sight self.old) (lists_of S.sight self.new)) }
        ensures ready { OnOk result (S.ready self.new.clients) }
        ensures accounts { OnOk result (AreKept (S.account self.old.clients) (S.account self.new.clients)) }
        ensures rests { OnOk result (StillRests (S.rests self.old.clients) (S.rests self.new.clients)) }
        ensures arises { OnOk result (StillArises (S.arises self.old.clients) (S.arises self.new.clients) (S.holds self.old.clients) (S.holds self.new.clients)) }
    {
        self.post.open()?;
        self.clients.open()?;
        self.outcomes.push(Outcome::Unfinished)?;
        self.ended.push(0)?;
        Ok(())
    }

    /// The newest line does what it asks.
    fn run(&mut self, deed: Deed) -> Result<Done, NoMemory>
        requires ready { S.ready self.old.clients }
        requires ordered { IsOrdered (lists_of S.sight self.old) }
        requires some { 1 ≤ newest (lists_of S.sight self.old) }
        requires fine { IsFine deed }
        ensures does { IfOk result (λ done. Does deed (lists_of S.sight self.old) (closed done (lists_of S.sight self.new))) }
        ensures can { IfOk result (λ done. CanClose done (lists_of S.sight self.new)) }
        ensures tells { IfOk result (λ done. CanTell (lists_of S.sight self.old) done (lists_of S.sight self.new)) }
        ensures out { IfOk result (λ done. KeepOut (S.waits self.old.clients) (S.waits self.new.clients) (lists_of S.sight self.old) done (lists_of S.sight self.new)) }
        ensures ready { OnOk result (S.ready self.new.clients) }
        ensures credits { IfOk result (Credits deed (lists_of S.sight self.old) (S.account self.old.clients) (S.account self.new.clients)) }
        ensures rests { IfOk result (RunsOn S.fails (S.rests self.old.clients) (S.rests self.new.clients) deed (lists_of S.sight self.old) (S.account self.old.clients)) }
        ensures arises { IfOk result (RunsTo (S.arises self.old.clients) (S.arises self.new.clients) (S.holds self.old.clients) (S.holds self.new.clients) deed (lists_of S.sight self.old)) }
    {
        match deed {
            Deed::Nothing => Ok(self.outright(Outcome::Done)),
            Deed::Connect => self.connect(),
            Deed::Ask(client, act) => self.call(client, act),
            Deed::Use(transaction, act) => self.act(transaction, act),
            Deed::Happens(what) => self.befall(what),
        }
    }

    /// The line does no more than this.
    fn outright(&self, outcome: Outcome) -> Done
        ensures closed { (l : Lists) → closed result l ≡ outright outcome l }
        ensures nothing { result.turn.posted.items ≡ [] }
        ensures outcome { result.outcome ≡ Some outcome }
        ensures ended { result.turn.ended.items ≡ [] }
    {
        Done {
            outcome: Some(outcome),
            turn: Turn::new(self.alloc),
        }
    }

    /// The line is a call, and skipped where there is no turn of it.
    fn called(&self, turn: Option<Turn>) -> Done
        ensures closed { (l : Lists) → closed result l ≡ called turn l }
        ensures posted { result.turn.posted.items ≡ posted_in turn }
        ensures own { OwnEnds result.outcome }
        ensures ended { result.turn.ended.items ≡ ended_in turn }
        ensures outcome { result.outcome ≡ own_by turn }
    {
        match turn {
            None => self.outright(Outcome::Skipped),
            Some(turn) => Done {
                outcome: None,
                turn,
            },
        }
    }

    /// The line makes a client, a call that ends at once.
    fn connect(&mut self) -> Result<Done, NoMemory>
        requires ready { S.ready self.old.clients }
        requires ordered { IsOrdered (lists_of S.sight self.old) }
        requires some { 1 ≤ newest (lists_of S.sight self.old) }
        ensures does { IfOk result (λ done. Does Deed.Connect (lists_of S.sight self.old) (closed done (lists_of S.sight self.new))) }
        ensures can { IfOk result (λ done. CanClose done (lists_of S.sight self.new)) }
        ensures tells { IfOk result (λ done. CanTell (lists_of S.sight self.old) done (lists_of S.sight self.new)) }
        ensures out { IfOk result (λ done. KeepOut (S.waits self.old.clients) (S.waits self.new.clients) (lists_of S.sight self.old) done (lists_of S.sight self.new)) }
        ensures ready { OnOk result (S.ready self.new.clients) }
        ensures accounts { OnOk result (AreKept (S.account self.old.clients) (S.account self.new.clients)) }
        ensures rests { IfOk result (RunsOn S.fails (S.rests self.old.clients) (S.rests self.new.clients) Deed.Connect (lists_of S.sight self.old) (S.account self.old.clients)) }
        ensures arises { IfOk result (RunsTo (S.arises self.old.clients) (S.arises self.new.clients) (S.holds self.old.clients) (S.holds self.new.clients) Deed.Connect (lists_of S.sight self.old)) }
    {
        self.clients.connect(self.store.clock())?;
        let mut turn = Turn::new(self.alloc);
        turn.ended.push(Ending {
            line: self.newest(),
            outcome: Outcome::Ok(Payload::Unit),
        })?;
        Ok(self.called(Some(turn)))
    }

    /// The line asks something of a client.
    fn call(&mut self, client: u64, act: ClientAct) -> Result<Done, NoMemory>
        requires ready { S.ready self.old.clients }
        requires ordered { IsOrdered (lists_of S.sight self.old) }
        requires some { 1 ≤ newest (lists_of S.sight self.old) }
        ensures does { IfOk result (λ done. Does (Deed.Ask client act) (lists_of S.sight self.old) (closed done (lists_of S.sight self.new))) }
        ensures can { IfOk result (λ done. CanClose done (lists_of S.sight self.new)) }
        ensures tells { IfOk result (λ done. CanTell (lists_of S.sight self.old) done (lists_of S.sight self.new)) }
        ensures out { IfOk result (λ done. KeepOut (S.waits self.old.clients) (S.waits self.new.clients) (lists_of S.sight self.old) done (lists_of S.sight self.new)) }
        ensures ready { OnOk result (S.ready self.new.clients) }
        ensures accounts { OnOk result (AreKept (S.account self.old.clients) (S.account self.new.clients)) }
        ensures rests { IfOk result (RunsOn S.fails (S.rests self.old.clients) (S.rests self.new.clients) (Deed.Ask client act) (lists_of S.sight self.old) (S.account self.old.clients)) }
        ensures arises { IfOk result (RunsTo (S.arises self.old.clients) (S.arises self.new.clients) (S.holds self.old.clients) (S.holds self.new.clients) (Deed.Ask client act) (lists_of S.sight self.old)) }
    {
        let turn = self.clients.call(client, act, self.store.clock())?;
        Ok(self.called(turn))
    }

    /// The line asks something of a transaction.
    fn act(&mut self, transaction: u64, act: Act) -> Result<Done, NoMemory>
        requires ready { S.ready self.old.clients }
        requires ordered { IsOrdered (lists_of S.sight self.old) }
        requires some { 1 ≤ newest (lists_of S.sight self.old) }
        ensures does { IfOk result (λ done. Does (Deed.Use transaction act) (lists_of S.sight self.old) (closed done (lists_of S.sight self.new))) }
        ensures can { IfOk result (λ done. CanClose done (lists_of S.sight self.new)) }
        ensures tells { IfOk result (λ done. CanTell (lists_of S.sight self.old) done (lists_of S.sight self.new)) }
        ensures out { IfOk result (λ done. KeepOut (S.waits self.old.clients) (S.waits self.new.clients) (lists_of S.sight self.old) done (lists_of S.sight self.new)) }
        ensures ready { OnOk result (S.ready self.new.clients) }
        ensures credits { IfOk result (Credits (Deed.Use transaction act) (lists_of S.sight self.old) (S.account self.old.clients) (S.account self.new.clients)) }
        ensures rests { IfOk result (RunsOn S.fails (S.rests self.old.clients) (S.rests self.new.clients) (Deed.Use transaction act) (lists_of S.sight self.old) (S.account self.old.clients)) }
        ensures arises { IfOk result (RunsTo (S.arises self.old.clients) (S.arises self.new.clients) (S.holds self.old.clients) (S.holds self.new.clients) (Deed.Use transaction act) (lists_of S.sight self.old)) }
    {
        let turn = self.clients.act(transaction, act, self.store.clock())?;
        Ok(self.called(turn))
    }

    /// The step of the newest line comes to its end: what was posted is sent, and what ended is noted.
    fn close(&mut self, done: Done) -> Result<StepNote, NoMemory>
        requires { CanClose done (lists_of S.sight self.old) }
        ensures lists { OnOk result (lists_of S.sight self.new ≡ closed done (lists_of S.sight self.old)) }
        ensures note { IfOk result (λ note. IsNoteOf done (lists_of S.sight self.old) (lists_of S.sight self.new) note) }
        ensures clients { OnOk result (self.new.clients ≡ self.old.clients) }
    {
        let line = self.newest();
        let outcome = done.outcome;
        let turn = done.turn;
        self.end_own(outcome);
        let sent = self.send_all(turn.posted)?;
        let ended = self.end_all(turn.ended)?;
        Ok(StepNote {
            place: line,
            outcome: self.outcome_of(line)?,
            sent,
            ended: self.endings(ended)?,
        })
    }

    /// The outcome of the newest line came at once, if it did.
    fn end_own(&mut self, outcome: Option<Outcome>)
        ensures lists { lists_of S.sight self.new ≡ with_own outcome (lists_of S.sight self.old) }
        ensures clients { self.new.clients ≡ self.old.clients }
    {
        match outcome {
            None => {}
            Some(outcome) => {
                let line = self.newest();
                self.end(line, outcome)
            }
        }
    }

    /// Sends what the clients posted in the step of the newest line, and gives the tickets.
    fn send_all(&mut self, posted: Vec<Posting>) -> Result<Items<Ticket>, NoMemory>
        requires { CanPost posted.items self.old.post (S.sight self.old.clients).nexts }
        ensures lists { OnOk result (lists_of S.sight self.new ≡ with_mail (all_posted (newest (lists_of S.sight self.old)) posted.items self.old.post) (lists_of S.sight self.old)) }
        ensures tickets { IfOk result (λ tickets. tickets ≡ map ticket_in posted.items) }
        ensures clients { OnOk result (self.new.clients ≡ self.old.clients) }
    {
        let at = self.newest();
        let mut tickets = Items::new(self.alloc);
        for posting in posted {
            let ticket = send_one(&mut self.post, at, posting)?;
            tickets.push(ticket)?;
        }
        Ok(tickets)
    }

    /// The outcome of a line came in the step of the newest.
    fn end(&mut self, line: u64, outcome: Outcome)
        ensures lists { lists_of S.sight self.new ≡ ended_at line outcome (lists_of S.sight self.old) }
        ensures clients { self.new.clients ≡ self.old.clients }
    {
        if line == 0 {
            return;
        }
        let place = line as usize - 1;
        if place < self.ended.len() {
            self.ended[place] = self.newest();
        }
        if place < self.outcomes.len() {
            self.outcomes[place] = outcome;
        }
    }

    /// The calls ended in the step of the newest line. Gives their lines, in order.
    fn end_all(&mut self, ended: Vec<Ending>) -> Result<Vec<u64>, NoMemory>
        ensures lists { OnOk result (lists_of S.sight self.new ≡ all_ended ended.items (lists_of S.sight self.old)) }
        ensures moved { IfOk result (λ lines. IsPermutation (map (λ e. e.line) ended.items) lines.items) }
        ensures rises { IfOk result (λ lines. IsNonDecreasing lines.items) }
        ensures clients { OnOk result (self.new.clients ≡ self.old.clients) }
    {
        let mut lines = Vec::new(self.alloc);
        for ending in ended {
            lines.push(ending.line)?;
            self.end(ending.line, ending.outcome);
        }
        lines.sort()?;
        Ok(lines)
    }

    /// The outcome of a line so far.
    fn outcome_of(&self, line: u64) -> Result<Outcome, NoMemory>
        ensures { IfOk result (λ outcome. view_of_outcome outcome ≡ view_of_outcome (outcome_of self.now.outcomes.items line)) }
    {
        if line == 0 {
            return Ok(Outcome::Unfinished);
        }
        match self.outcomes.get(line as usize - 1) {
            None => Ok(Outcome::Unfinished),
            Some(outcome) => outcome.try_clone(),
        }
    }

    /// What the calls of these lines answered.
    fn endings(&self, lines: Vec<u64>) -> Result<Items<Ending>, NoMemory>
        ensures { IfOk result (λ endings. map view_of_ending endings ≡ map (λ line. ending_at self.now.outcomes.items line) lines.items) }
    {
        let mut endings = Items::new(self.alloc);
        for line in lines {
            endings.push(Ending {
                line,
                outcome: self.outcome_of(line)?,
            })?;
        }
        Ok(endings)
    }

    /// Notes the tickets of a line that are out.
    fn push_outs(&self, line: usize, outs: &mut Vec<Ticket>) -> Result<(), NoMemory>
        requires even { IsEven (lists_of S.sight self.now) }
        requires line { line < newest (lists_of S.sight self.now) }
        ensures { OnOk result (outs.new.items ≡ outs.old.items ++ outs_at (lists_of S.sight self.now) (line + 1)) }
    {
        if !self.clients.is_live(line as u64 + 1) {
            return Ok(());
        }
        self.post.push_outs(line, outs)
    }

    /// Every ticket that is out, by line and number: those that are out by the report that the machine would give now.
    pub fn outs(&self) -> Result<Vec<Ticket>, NoMemory>
        requires { Stands S.sight S.ready S.waits self.now }
        ensures lists { IfOk result (λ outs. outs.items ≡ outs_until (lists_of S.sight self.now) (newest (lists_of S.sight self.now))) }
        ensures told { IfOk result (λ outs. (lines : List Line) (report : Reported) → StandsFor S.sight S.ready S.waits self.now lines → IsReportOf (lists_of S.sight self.now) report → AreOutAfter lines report outs.items) }
    {
        let mut outs = Vec::new(self.alloc);
        for line in 0..self.outcomes.len() {
            self.push_outs(line, &mut outs)?;
        }
        Ok(outs)
    }

    /// The report of the lines that the machine stands for. Takes no memory.
    pub fn report(self) -> Report
        requires { HasMemory self }
        ensures own { IsReportOf (lists_of S.sight self) result }
        ensures lists { (lines : List Line) → StandsFor S.sight S.ready S.waits self lines → (l : Lists) × LedTo lines l × IsReportOf l result }
        ensures folded { (lines : List Line) → StandsFor S.sight S.ready S.waits self lines → FoldsLines lines result }
        ensures told { (lines : List Line) → StandsFor S.sight S.ready S.waits self lines → TellsLines lines result }
        ensures ends { (lines : List Line) → StandsFor S.sight S.ready S.waits self lines → EndsLines lines result }
        ensures lives { (lines : List Line) → StandsFor S.sight S.ready S.waits self lines → LivesLines lines result }
        ensures calls { (lines : List Line) → StandsFor S.sight S.ready S.waits self lines → CallsMeetLines lines result }
        ensures events { (lines : List Line) → StandsFor S.sight S.ready S.waits self lines → EventsMeetLines lines result }
        ensures times { (lines : List Line) → StandsFor S.sight S.ready S.waits self lines → TimesLines lines result }
        ensures dues { (lines : List Line) → StandsFor S.sight S.ready S.waits self lines → DuesLines lines result }
        ensures noted { (lines : List Line) → StandsFor S.sight S.ready S.waits self lines → AreNoted (length lines) result.sent result.sleeps }
        ensures accounts { (lines : List Line) → TakenIn S.account self lines → AccountsMeetLines lines result }
        ensures causes { (lines : List Line) → HeardIn S.rests S.fails self lines → CausesMeetLines S.fails lines result }
        ensures arisen { (lines : List Line) → StandsFor S.sight S.ready S.waits self lines → TakenIn S.account self lines → ArisenIn S.arises S.holds self lines → ArisenLines S.sight S.arises S.holds S.account lines result }
    {
        let (sent, sleeps) = self.post.into_notes();
        Report {
            outcomes: Items::from_vec(self.outcomes),
            ended: Items::from_vec(self.ended),
            sent,
            sleeps,
            served: Items::from_vec(self.served),
            store: self.store,
        }
    }
}
