//! Where a script comes from and where a report goes, with a count of what went wrong there.
#![tactic(auto)]

mod memory_sink;
mod memory_source;
mod reading;
pub mod sink;
pub mod source;
mod std_sink;
mod std_source;
mod sure;
mod writing;

pub use memory_sink::MemorySink;
pub use memory_source::MemorySource;
pub use reading::{MOST_BYTES, ReadStop, read_all};
pub use sink::Sink;
pub use source::{Failed, Source};
pub use std_sink::StdoutSink;
pub use std_source::StdinSource;
pub use sure::{SureSink, SureSource};
pub use writing::write_all;
