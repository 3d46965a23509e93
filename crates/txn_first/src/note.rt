use txn_kv::{Items, Ticket};
use txn_report::Outcome;

/// A call that ended in a step, and what it answered.
#[derive(Debug, Drop)]
pub struct Ending {
    pub line: u64,
    pub outcome: Outcome,
}

/// What one step did.
#[derive(Debug, Drop)]
pub struct StepNote {
    /// The number of the line.
    pub place: u64,
    /// The outcome of the line so far.
    pub outcome: Outcome,
    /// The requests and sleeps that were sent in the step.
    pub sent: Items<Ticket>,
    /// The calls that ended in the step, in the order of their lines, the line's own among them. A call that was
    /// skipped is not among them.
    pub ended: Items<Ending>,
}
