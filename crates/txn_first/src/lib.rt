//! The first machine: it runs the scripts of the first path, of one client and one transaction, and reports what their lines did.
#![tactic(auto)]

pub mod machine;
pub mod note;
mod post;
pub mod runs;
pub mod send;
mod transaction;

pub use machine::Machine;
pub use note::{Ending, StepNote};
pub use runs::run_lines;
