ghost use Rattle.std.specs.Prelude.{◌≡◌, List, length, OnOk, OnErr};
ghost use Rattle.txn_lines.specs.declared.line.Line.{Line};
ghost use Rattle.txn_lines.specs.Lines.{kind_of, named_by, why_clock, why_alone, why_after};
ghost use Rattle.txn_lines.specs.Kinds.{no_line, with_line, kinds_of, why_kind, why_kinds, why_so_far};

use crate::line::Line;
use crate::script::Why;
use std::alloc::Global;
use std::marker::Model;
use txn_kv::NoMemory;

/// How many lines a script may have.
pub const MAX_LINES: usize = 65536;

/// How many clients a script may have.
pub const MAX_CLIENTS: usize = 64;

/// The clock stays below.
pub const MAX_CLOCK: u64 = 1 << 44;

/// What a later line may ask of a line that it names.
#[derive(Clone, Copy, Debug, PartialEq, Eq)]
pub enum LineKind {
    Client,
    Begin,
    Other,
}

/// What the lines of a script so far say about the next one.
#[derive(Debug, Drop)]
pub struct LineKinds {
    kinds: Vec<LineKind>,
    clients: usize,
    clock: u64,
}

impl Model for LineKinds {
    ghost use Rattle.std.specs.Prelude.{◌≤◌, length};
    ghost use Rattle.txn_lines.specs.Kinds.{SoFar};

    ghost Value = { SoFar };

    ghost view = { λ s. record { kinds = s.kinds.items; clients = s.clients; clock = s.clock } };

    ghost invariant = { λ s. s.clients ≤ length s.kinds.items };
}

/// The kind of a line.
fn kind_of(line: &Line) -> LineKind
    ensures { result ≡ kind_of line.now }
{
    match line {
        Line::Client => LineKind::Client,
        Line::Begin { .. } => LineKind::Begin,
        _ => LineKind::Other,
    }
}

/// The line that a line names, and of which kind it has to be.
fn named_by(line: &Line) -> Option<(u64, LineKind)>
    ensures { result ≡ named_by line.now }
{
    match line {
        Line::Begin { client, .. } | Line::Timestamp { client } | Line::Crash { client } => {
            Some((*client, LineKind::Client))
        }
        Line::Put { transaction, .. }
        | Line::Insert { transaction, .. }
        | Line::Delete { transaction, .. }
        | Line::Mutate { transaction, .. }
        | Line::Lock { transaction, .. }
        | Line::Commit { transaction }
        | Line::Rollback { transaction } => Some((*transaction, LineKind::Begin)),
        _ => None,
    }
}

impl LineKinds {
    /// No line yet. Takes no memory.
    pub fn new(alloc: Global) -> LineKinds
        ensures { result ≡ no_line }
    {
        LineKinds {
            kinds: Vec::new(alloc),
            clients: 0,
            clock: 0,
        }
    }

    pub fn len(&self) -> usize
        ensures { result ≡ length self.now.kinds }
    {
        self.kinds.len()
    }

    /// Why a later line may not name this one as one of the wanted kind.
    fn why_kind(&self, number: u64, wanted: LineKind) -> Option<Why>
        ensures { result ≡ why_kind self.now.kinds number wanted }
    {
        if number == 0 || number > self.kinds.len() as u64 {
            return Some(Why::NotEarlier);
        }
        if self.kinds[number as usize - 1] == wanted {
            None
        } else {
            Some(Why::Kind)
        }
    }

    fn why_kinds(&self, line: &Line) -> Option<Why>
        ensures { result ≡ why_kinds self.now.kinds (named_by line.now) }
    {
        let (number, wanted) = named_by(line)?;
        self.why_kind(number, wanted)
    }

    fn why_clock(&self, ms: u64) -> Option<Why>
        ensures { result ≡ why_clock self.now.clock ms }
    {
        if ms >= MAX_CLOCK {
            Some(Why::ClockHigh)
        } else if ms < self.clock {
            Some(Why::ClockFalls)
        } else {
            None
        }
    }

    fn why_alone(&self, line: &Line) -> Option<Why>
        ensures { result ≡ why_alone self.now.clients self.now.clock line.now }
    {
        match line {
            Line::Split { key } if key.is_empty() => Some(Why::EmptySplit),
            Line::Clock { ms } => self.why_clock(*ms),
            Line::Client if self.clients >= MAX_CLIENTS => Some(Why::Clients),
            _ => None,
        }
    }

    #[tactic(auto, unfolding(crate::specs::Kinds::why_so_far))]
    fn why_so_far(&self, line: &Line) -> Option<Why>
        ensures { result ≡ why_so_far self.now line.now }
    {
        if self.len() >= MAX_LINES {
            return Some(Why::TooMany);
        }
        match self.why_kinds(line) {
            Some(why) => Some(why),
            None => self.why_alone(line),
        }
    }

    /// Why a line is bad after the lines so far, the newest first.
    pub fn why(&self, line: &Line) -> Option<Why>
        ensures { (before : List Line) → self.now ≡ kinds_of before → result ≡ why_after before line.now }
    {
        self.why_so_far(line)
    }

    /// One line more.
    pub fn push(&mut self, line: &Line) -> Result<(), NoMemory>
        ensures ok { OnOk result (self.new ≡ with_line self.old line.now) }
        ensures err { OnErr result (self.new ≡ self.old) }
    {
        self.kinds.push(kind_of(line))?;
        match line {
            Line::Client => self.clients += 1,
            Line::Clock { ms } => self.clock = *ms,
            _ => {}
        }
        Ok(())
    }
}
