use std::fmt;

/// The id of a store.
pub type StoreId = u64;

/// Where a request goes: to a store, or to the placement driver.
#[derive(Clone, Copy, Debug, PartialEq, Eq)]
pub enum Target {
    Store(StoreId),
    Placement,
}

/// Names a request or a sleep: the `number`-th of its line, counted from 1. A line's heartbeats are counted by
/// themselves, and `beat` is true for them.
#[derive(Clone, Copy, Debug, PartialEq, Eq)]
pub struct Ticket {
    pub line: u64,
    pub beat: bool,
    pub number: u64,
}

/// `L.n`, or `L.hn` for a heartbeat.
impl fmt::Display for Ticket {
    fn fmt<W: fmt::Write>(&self, f: &mut fmt::Formatter<W>) -> fmt::Result {
        let line = self.line;
        let number = self.number;
        if self.beat {
            write!(f, "{line}.h{number}")
        } else {
            write!(f, "{line}.{number}")
        }
    }
}
