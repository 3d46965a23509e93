//! The program: it reads a script, runs it, and writes the report of what its lines did.
#![tactic(auto)]

mod over;
pub mod program;
pub mod send;

pub use program::{End, RunEnd, run_program, run_script};
pub use txn_lines::{BadAt, Line, Script, Why, parse_line, parse_script};
pub use txn_machine::{Ending, Machine, StepNote};
pub use txn_report::{Outcome, Payload, Report, SentNote, SleepNote, report_text};
pub use txn_stream::{
    Failed, MemorySink, MemorySource, Sink, Source, StdinSource, StdoutSink, SureSink, SureSource,
};
