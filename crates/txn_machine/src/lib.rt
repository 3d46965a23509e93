//! The machine: it runs the lines of a script over clients and a store, and reports what they did.
#![tactic(auto)]

mod busy;
mod done;
pub mod machine;
pub mod note;
pub mod runs;
pub mod send;

pub use machine::Machine;
pub use note::StepNote;
pub use runs::run_lines;
pub use txn_side::Ending;
