ghost use Rattle.std.specs.Prelude.{◌≡◌, ◌<◌, [], MatchResult, OnOk, vec_len};
ghost use Rattle.txn_first.specs.Lawful.{AllGood};
ghost use Rattle.txn_run.specs.Program.{status_of_end, Ran, RanScript, EndOfScript, IsConfirmed, IsConfirmedIfFirst, StopOfLines, Edges, EndOfRun, WritesNothing, Wrote};
ghost use Rattle.txn_run.specs.declared.program.ScriptStop.TheVariants.{Bad, Memory};

use crate::over::run_over;
use std::alloc::Global;
use txn_alike::{are_alike, are_beats};
use txn_commit_plans::TransactionPlan;
use txn_kv::NoMemory;
use txn_lines::{BadAt, Why, parse_script};
use txn_report::{Report, report_text};
use txn_stream::{ReadStop, Sink, Source, read_all, write_all};

/// How a run ends.
#[derive(Debug, Drop)]
pub enum End {
    Done(Report),
    /// There are words on the command line, and none are known.
    BadWords,
    /// The first bad line, counted from 1, and its first reason.
    BadLine { line: u64, why: Why },
    ReadFault,
    /// The sink took this many bytes of the report's text, and then failed.
    WriteFault { written: u64 },
    OutOfMemory,
}

/// How a run ends, and the exit status of the program.
#[derive(Debug, Drop)]
pub struct RunEnd {
    pub status: u8,
    pub end: End,
}

/// Why a script gives no report.
#[derive(Clone, Copy, Debug)]
enum ScriptStop {
    Bad(BadAt),
    Memory,
}

impl From<NoMemory> for ScriptStop {
    ghost from_gives = { λ _ e. e ≡ Memory };

    fn from(_error: NoMemory) -> ScriptStop {
        ScriptStop::Memory
    }
}

impl End {
    /// The exit status: 0 where the run is done, and another number for each other end.
    pub fn status(&self) -> u8
        ensures { result ≡ status_of_end self.now }
    {
        match self {
            End::Done(_) => 0,
            End::BadWords => 2,
            End::BadLine { .. } => 3,
            End::ReadFault => 4,
            End::WriteFault { .. } => 5,
            End::OutOfMemory => 6,
        }
    }
}

/// Runs the script of these bytes over the clients of the library.
fn run_lines_of(alloc: Global, bytes: &[u8]) -> Result<Report, ScriptStop>
    ensures { MatchResult result (RanScript bytes.now) (StopOfLines bytes.now) }
{
    match parse_script(alloc, bytes)? {
        Err(bad) => Err(ScriptStop::Bad(bad)),
        Ok(script) => {
            let lines = script.lines.into_vec();
            Ok(run_over::<TransactionPlan>(alloc, lines)?)
        }
    }
}

/// Runs lines of the first path on the machine of the first path, which has to tell the same as the report.
fn confirm_lines(
    alloc: Global,
    lines: Vec<txn_script::Line>,
    report: &Report,
) -> Result<(), NoMemory>
    requires { AllGood [] lines.items }
    ensures { OnOk result (IsConfirmed lines.items report.now) }
{
    let first = txn_first::run_lines(alloc, lines)?;
    if are_alike(alloc, &first, report)? && are_beats(report.sleeps.as_slice()) {
        Ok(())
    } else {
        Err(NoMemory)
    }
}

/// Has a report confirmed, where the bytes are a script of the first path.
fn confirm(alloc: Global, bytes: &[u8], report: &Report) -> Result<(), NoMemory>
    ensures { OnOk result (IsConfirmedIfFirst bytes.now report.now) }
{
    match txn_script::parse_script(alloc, bytes)? {
        Ok(script) => confirm_lines(alloc, script.lines.into_vec(), report),
        Err(_) => Ok(()),
    }
}

/// Runs the script of these bytes, and has its report confirmed where it is of the first path.
fn run_bytes(alloc: Global, bytes: &[u8]) -> Result<Report, ScriptStop>
    ensures { MatchResult result (Ran bytes.now) (StopOfLines bytes.now) }
{
    let report = run_lines_of(alloc, bytes)?;
    confirm(alloc, bytes, &report)?;
    Ok(report)
}

/// Runs the script of these bytes.
pub fn run_script(alloc: Global, bytes: &[u8]) -> End
    ensures { EndOfScript bytes.now result }
{
    match run_bytes(alloc, bytes) {
        Ok(report) => End::Done(report),
        Err(ScriptStop::Bad(bad)) => End::BadLine {
            line: bad.line,
            why: bad.why,
        },
        Err(ScriptStop::Memory) => End::OutOfMemory,
    }
}

/// Writes the text of a report.
fn write_report<K: Sink>(alloc: Global, report: Report, sink: &mut K) -> End
    ensures { Wrote report (K.written sink.old) (K.written sink.new) (K.faults sink.old) (K.faults sink.new) result }
{
    match report_text(alloc, &report) {
        Err(_) => End::OutOfMemory,
        Ok(text) => match write_all(sink, text.as_slice()) {
            Ok(()) => End::Done(report),
            Err(written) => End::WriteFault { written },
        },
    }
}

/// Runs what a source has left, and writes the report.
fn run_source<S: Source, K: Sink>(alloc: Global, source: &mut S, sink: &mut K) -> End
    ensures run { EndOfRun (record {
      left = S.left source.old;
      left_after = S.left source.new;
      read_faults = S.faults source.old;
      read_faults_after = S.faults source.new;
      written = K.written sink.old;
      written_after = K.written sink.new;
      write_faults = K.faults sink.old;
      write_faults_after = K.faults sink.new;
    }) result }
    ensures unwritten { WritesNothing result sink.old sink.new }
{
    match read_all(alloc, source) {
        Err(ReadStop::Memory) => End::OutOfMemory,
        Err(ReadStop::Fault) => End::ReadFault,
        Ok(bytes) => match run_bytes(alloc, bytes.as_slice()) {
            Ok(report) => write_report(alloc, report, sink),
            Err(ScriptStop::Bad(bad)) => End::BadLine {
                line: bad.line,
                why: bad.why,
            },
            Err(ScriptStop::Memory) => End::OutOfMemory,
        },
    }
}

/// The program: without words it reads the script to its end, runs it, and writes the report. Any words are bad.
pub fn run_program<S: Source, K: Sink>(
    alloc: Global,
    words: &Vec<String>,
    source: &mut S,
    sink: &mut K,
) -> RunEnd
    ensures status { result.status ≡ status_of_end result.end }
    // There are words, and nothing is read or written.
    ensures words { 0 < vec_len words.now → (result.end ≡ End.BadWords) × (source.new ≡ source.old) × (sink.new ≡ sink.old) }
    ensures run { vec_len words.now ≡ 0 → EndOfRun (record {
      left = S.left source.old;
      left_after = S.left source.new;
      read_faults = S.faults source.old;
      read_faults_after = S.faults source.new;
      written = K.written sink.old;
      written_after = K.written sink.new;
      write_faults = K.faults sink.old;
      write_faults_after = K.faults sink.new;
    }) result.end }
    ensures unwritten { WritesNothing result.end sink.old sink.new }
{
    let end = if words.is_empty() {
        run_source(alloc, source, sink)
    } else {
        End::BadWords
    };
    RunEnd {
        status: end.status(),
        end,
    }
}
