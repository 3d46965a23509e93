use txn_report::Outcome;
use txn_side::Turn;

/// What the step of a line came to.
#[derive(Drop)]
pub struct Done {
    /// The outcome of the line, unless it is a call that is made: what becomes of that its turn tells.
    pub outcome: Option<Outcome>,
    /// What the clients did.
    pub turn: Turn,
}
