//! Runs the script on standard input, and prints its report.
#![tactic(auto)]

use std::alloc::Global;
use std::env;
use std::io::{self, ErrorKind};
use std::process::ExitCode;
use txn_run::{StdinSource, StdoutSink, run_program};

/// The words of the command line, without the program's own name.
fn words(rt: &HostRuntime, alloc: Global) -> io::Result<Vec<String>> {
    let mut words = Vec::new(alloc);
    for word in env::args(rt)?.skip(1) {
        words.push(word)?;
    }
    Ok(words)
}

fn main(rt: HostRuntime) -> ExitCode {
    let alloc = rt.alloc();
    let words = match words(&rt, alloc) {
        Ok(words) => words,
        // A word that is no text is not among those that are known.
        Err(error) if error.kind() == ErrorKind::InvalidData => return ExitCode::from(2),
        Err(_) => return ExitCode::from(6),
    };
    let mut source = StdinSource::new(rt.stdin());
    let mut sink = StdoutSink::new(rt.stdout());
    ExitCode::from(run_program(alloc, &words, &mut source, &mut sink).status)
}
