//! What clients post keeps a history a run: laws over definitions alone.
//!
//! A machine with many clients has one history, and `txn_law` speaks of histories that are runs (`IsRun`). Here stands what
//! keeps it one, event by event. What a line posts does, where each request was licensed when it was posted and the line's
//! numbers rise from ones that are free (`posting_keeps_runs`), as a transaction's are by what it may send
//! (`transactions_keep_runs`); any other event does that may happen (`events_keep_runs`). A report does not show every event,
//! and those that it shows are a run too (`what_is_seen_is_a_run`).
//!
//! Timestamps come to the lines of a client through its oracle, which asks for several lines at once. What the oracle holds
//! fits the history (`oracles_fit`), and so each answer that it gives may be given (`answers_are_timed`). No timestamp is drawn
//! by two lines (`draws_are_apart`).
#![tactic(auto)]

mod draws;
mod more;
mod oracles;
mod posts;
mod timed;
mod transacts;
mod view;

pub use draws::draws_are_apart;
pub use more::events_keep_runs;
pub use oracles::oracles_fit;
pub use posts::posting_keeps_runs;
pub use timed::answers_are_timed;
pub use transacts::transactions_keep_runs;
pub use view::what_is_seen_is_a_run;
