//! Runs the script on standard input, and prints it line by line with what became of each line; or the first bad line, with
//! what would be right. With the word `--svg` it prints a picture of the run instead. Its exit statuses are those of txnrun.
#![tactic(auto)]

mod show;

use crate::show::Shape;
use std::env;
use std::io::{self, ErrorKind};
use std::process::ExitCode;
use txn_stream::{StdinSource, StdoutSink};

/// What is asked for by the words on the command line, without the program's own name. No words ask for lines.
fn asked_for(rt: &HostRuntime) -> io::Result<Option<Shape>> {
    let mut words = env::args(rt)?.skip(1);
    let shape = match words.next() {
        None => return Ok(Some(Shape::Lines)),
        Some(word) if word.as_str() == "--svg" => Shape::Picture,
        Some(_) => return Ok(None),
    };
    match words.next() {
        None => Ok(Some(shape)),
        Some(_) => Ok(None),
    }
}

fn main(rt: HostRuntime) -> ExitCode {
    let alloc = rt.alloc();
    let shape = match asked_for(&rt) {
        Ok(Some(shape)) => shape,
        Ok(None) => return ExitCode::from(2),
        // A word that is no text is not among those that are known.
        Err(error) if error.kind() == ErrorKind::InvalidData => return ExitCode::from(2),
        Err(_) => return ExitCode::from(6),
    };
    let mut source = StdinSource::new(rt.stdin());
    let mut sink = StdoutSink::new(rt.stdout());
    ExitCode::from(show::show_source(alloc, shape, &mut source, &mut sink))
}
