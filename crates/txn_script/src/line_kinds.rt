ghost use Rattle.std.specs.Prelude.{◌≡◌, ◌++◌, ◌∷◌, [], List, length, OnOk, OnErr};
ghost use Rattle.txn_script.specs.declared.line.Line.{Line};
ghost use Rattle.txn_script.specs.Kinds.{kind_of, kinds_of, is_kind, why_kind, is_second_kind, why_kinds, why_by_kinds};
ghost use Rattle.txn_script.specs.Lines.{why_after};

use crate::line::Line;
use crate::script::Why;
use std::alloc::Global;
use std::marker::Model;
use txn_kv::NoMemory;

/// How many lines a script may have.
pub const MAX_LINES: usize = 65536;

/// What a later line may ask of a line that it names.
#[derive(Clone, Copy, Debug, PartialEq, Eq)]
pub enum LineKind {
    Client,
    Begin,
    Put,
    Other,
}

/// What the lines of a script so far say about the next one: contracts see the kind of each line, in order.
#[derive(Debug, Drop)]
pub struct LineKinds {
    kinds: Vec<LineKind>,
    has_client: bool,
    has_begin: bool,
    has_put: bool,
}

impl Model for LineKinds {
    ghost use Rattle.std.specs.Prelude.{List};
    ghost use Rattle.txn_script.specs.declared.line_kinds.LineKind.{LineKind};
    ghost use Rattle.txn_script.specs.Kinds.{HasFlags};

    ghost Value = { List LineKind };

    ghost view = { λ s. s.kinds.items };

    ghost invariant = { λ s. HasFlags s.kinds.items s.has_client s.has_begin s.has_put };
}

/// The kind of a line.
fn kind_of(line: &Line) -> LineKind
    ensures { result ≡ kind_of line.now }
{
    match line {
        Line::Client => LineKind::Client,
        Line::Begin { client: _ } => LineKind::Begin,
        Line::Put {
            transaction: _,
            key: _,
            value: _,
        } => LineKind::Put,
        Line::Blank | Line::Commit { transaction: _ } | Line::Deliver { ticket: _ } => {
            LineKind::Other
        }
    }
}

/// Why a line of these kinds of lines may not be named as one that passes `test`.
fn why_kind(kinds: &[LineKind], line: u64, wanted: LineKind) -> Option<Why>
    ensures { result ≡ why_kind kinds.now line (λ k. is_kind wanted k) }
{
    if line == 0 || line > kinds.len() as u64 {
        return Some(Why::NotEarlier);
    }
    if kinds[line as usize - 1] == wanted {
        None
    } else {
        Some(Why::Kind)
    }
}

impl LineKinds {
    /// No line yet. Takes no memory.
    pub fn new(alloc: Global) -> LineKinds
        ensures { result ≡ [] }
    {
        LineKinds {
            kinds: Vec::new(alloc),
            has_client: false,
            has_begin: false,
            has_put: false,
        }
    }

    pub fn len(&self) -> usize
        ensures { result ≡ length self.now }
    {
        self.kinds.len()
    }

    fn is_second(&self, line: &Line) -> bool
        ensures { result ≡ is_second_kind self.now line.now }
    {
        match line {
            Line::Client => self.has_client,
            Line::Begin { client: _ } => self.has_begin,
            Line::Put {
                transaction: _,
                key: _,
                value: _,
            } => self.has_put,
            Line::Blank | Line::Commit { transaction: _ } | Line::Deliver { ticket: _ } => false,
        }
    }

    fn why_kinds(&self, line: &Line) -> Option<Why>
        ensures { result ≡ why_kinds self.now line.now }
    {
        match line {
            Line::Begin { client } => why_kind(&self.kinds, *client, LineKind::Client),
            Line::Put {
                transaction,
                key: _,
                value: _,
            } => why_kind(&self.kinds, *transaction, LineKind::Begin),
            Line::Commit { transaction } => why_kind(&self.kinds, *transaction, LineKind::Begin),
            Line::Blank | Line::Client | Line::Deliver { ticket: _ } => None,
        }
    }

    #[tactic(auto, unfolding(crate::specs::Kinds::why_by_kinds))]
    fn why_by_kinds(&self, line: &Line) -> Option<Why>
        ensures { result ≡ why_by_kinds self.now line.now }
    {
        if self.len() >= MAX_LINES {
            return Some(Why::TooMany);
        }
        if self.is_second(line) {
            return Some(Why::Word);
        }
        self.why_kinds(line)
    }

    /// Why a line is bad after the lines so far, the newest first.
    pub fn why(&self, line: &Line) -> Option<Why>
        ensures { (before : List Line) → self.now ≡ kinds_of before → result ≡ why_after before line.now }
    {
        self.why_by_kinds(line)
    }

    /// One line more.
    pub fn push(&mut self, line: &Line) -> Result<(), NoMemory>
        ensures ok { OnOk result (self.new ≡ self.old ++ kind_of line.now ∷ []) }
        ensures err { OnErr result (self.new ≡ self.old) }
    {
        let kind = kind_of(line);
        self.kinds.push(kind)?;
        self.has_client = self.has_client || kind == LineKind::Client;
        self.has_begin = self.has_begin || kind == LineKind::Begin;
        self.has_put = self.has_put || kind == LineKind::Put;
        Ok(())
    }
}
