//! The report of a run, and its text.
#![tactic(auto)]

mod error_text;
pub mod outcome;
pub mod report;
pub mod send;
mod text;
mod words;

pub use outcome::{Outcome, Payload};
pub use report::{Report, SentNote, SleepNote};
pub use text::report_text;
