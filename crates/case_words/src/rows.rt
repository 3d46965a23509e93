//! The rows, one after another, and what is printed for them.

use crate::words::words;
use std::fmt::{Debug, Display};
use std::process::ExitCode;

/// What a program does with its rows.
pub trait Rows {
    /// A case begins.
    fn begin(&mut self);

    /// Makes the call of a row, and shows what it answers.
    fn serve(&mut self, rt: &HostRuntime, words: &[&str]);
}

/// Shows a value behind its row. A line that cannot be printed is missing from what is compared.
pub fn show<T: Debug>(rt: &HostRuntime, value: &T) {
    let _ = print!(rt; " {value:?}");
}

/// Shows a text behind its row.
pub fn say<T: Display>(rt: &HostRuntime, text: &T) {
    let _ = print!(rt; " {text}");
}

fn row<R: Rows>(rt: &HostRuntime, rows: &mut R, line: &str) {
    let words = words(rt.alloc(), line);
    let _ = print!(rt; "{line} =");
    rows.serve(rt, words.as_slice());
    let _ = println!(rt; "");
}

fn take<R: Rows>(rt: &HostRuntime, rows: &mut R, line: &str) {
    if line.starts_with("case ") {
        rows.begin();
        let _ = println!(rt; "{line}");
    } else if !line.is_empty() && !line.starts_with('#') {
        row(rt, rows, line);
    }
}

/// Serves each line of standard input.
pub fn run<R: Rows>(rt: &HostRuntime, rows: &mut R) -> ExitCode {
    for line in rt.lines(rt.alloc()) {
        match line {
            Ok(line) => take(rt, rows, line.as_str()),
            Err(_) => return ExitCode::FAILURE,
        }
    }
    ExitCode::SUCCESS
}
