//! From the bytes of a script to what is printed of it.

use std::alloc::Global;
use txn_kv::NoMemory;
use txn_picture::push_picture;
use txn_run::{End, run_script};
use txn_stream::{ReadStop, Sink, Source, read_all, write_all};
use txn_words::{push_bad_line, push_run};

/// How a run is shown.
#[derive(Clone, Copy, PartialEq, Eq)]
pub enum Shape {
    Lines,
    Picture,
}

/// The text of how a run ended. Of a run that ended for want of memory there is none.
fn push_end(
    alloc: Global,
    shape: Shape,
    out: &mut Vec<u8>,
    script: &[u8],
    end: &End,
) -> Result<(), NoMemory> {
    match end {
        End::Done(report) if shape == Shape::Picture => push_picture(alloc, out, script, report),
        End::Done(report) => push_run(alloc, out, script, report),
        End::BadLine { line, why } => push_bad_line(out, script, *line, *why),
        End::BadWords | End::ReadFault | End::WriteFault { .. } | End::OutOfMemory => Ok(()),
    }
}

/// Runs a script and writes what is to be shown of it. The answer is the exit status.
fn show_script<K: Sink>(alloc: Global, shape: Shape, script: &[u8], sink: &mut K) -> u8 {
    let mut out = Vec::new(alloc);
    let end = run_script(alloc, script);
    let status = end.status();
    let pushed = push_end(alloc, shape, &mut out, script, &end);
    drop(end);
    match pushed {
        Err(NoMemory) => 6,
        Ok(()) => match write_all(sink, out.as_slice()) {
            Ok(()) => status,
            Err(_) => 5,
        },
    }
}

/// Reads a script to its end, runs it, and writes what is to be shown of it. The answer is the exit status.
pub fn show_source<S: Source, K: Sink>(
    alloc: Global,
    shape: Shape,
    source: &mut S,
    sink: &mut K,
) -> u8 {
    match read_all(alloc, source) {
        Err(ReadStop::Memory) => 6,
        Err(ReadStop::Fault) => 4,
        Ok(script) => show_script(alloc, shape, script.as_slice(), sink),
    }
}
