use crate::line::Line;
use txn_kv::Items;

/// Why a line is bad, in the order in which the reasons are tested.
#[derive(Clone, Copy, Debug, PartialEq, Eq)]
pub enum Why {
    /// It is the line after the last that a script may have.
    TooMany,
    /// It has more bytes than a line may have.
    TooLong,
    /// It is not in the grammar.
    Word,
    /// A line that it names is not an earlier one.
    NotEarlier,
    /// A line that it names is of another kind.
    Kind,
    /// It splits at the empty key.
    EmptySplit,
    /// It sets the clock too high.
    ClockHigh,
    /// It sets the clock back.
    ClockFalls,
    /// It is the client after the last that a script may have.
    Clients,
}

/// The lines of a script, none of which is bad.
#[derive(Debug, PartialEq, Eq, Drop)]
pub struct Script {
    pub lines: Items<Line>,
}

/// The first bad line of a script, counted from 1, and its first reason.
#[derive(Clone, Copy, Debug, PartialEq, Eq)]
pub struct BadAt {
    pub line: u64,
    pub why: Why,
}
