ghost use Rattle.std.specs.Prelude.{◌≡◌, ◌++◌, ◌∷◌, ◌<◌, List, ℕ, length, reverse, IfOk, MatchResult, MatchOption};
ghost use Rattle.txn_lines.specs.declared.line.Line.{Line};
ghost use Rattle.txn_lines.specs.declared.script.Why.{Why};
ghost use Rattle.txn_lines.specs.Kinds.{kinds_of};
ghost use Rattle.txn_lines.specs.Text.{text_lines, IsGood, IsBad, IsScript, IsFirstBad};

use crate::line::Line;
use crate::line_kinds::{LineKinds, MAX_LINES};
use crate::parser::parse_line;
use crate::script::{BadAt, Script, Why};
use crate::words::cut_at;
use std::alloc::Global;
use txn_kv::{Items, NoMemory};

/// The first line of a text, and the text after its newline.
fn first_line(text: &[u8]) -> (&[u8], &[u8])
    requires { 0 < length text.now }
    ensures cut { text_lines text.now ≡ result.0.now ∷ text_lines result.1.now }
    ensures shorter { length result.1.now < length text.now }
{
    match cut_at(b'\n', text) {
        Some(parts) => parts,
        None => (text, &[]),
    }
}

/// The line that stands after these, or why it is bad.
fn next_line(alloc: Global, kinds: &LineKinds, text: &[u8]) -> Result<Result<Line, Why>, NoMemory>
    ensures { (before : List Line) → kinds.now ≡ kinds_of before → IfOk result (λ read. MatchResult read (IsGood before text.now) (IsBad before text.now)) }
{
    if kinds.len() >= MAX_LINES {
        return Ok(Err(Why::TooMany));
    }
    match parse_line(alloc, text)? {
        Err(why) => Ok(Err(why)),
        Ok(line) => match kinds.why(&line) {
            None => Ok(Ok(line)),
            Some(why) => Ok(Err(why)),
        },
    }
}

/// The lines of a text, or the first that is bad.
pub fn parse_script(alloc: Global, bytes: &[u8]) -> Result<Result<Script, BadAt>, NoMemory>
    ensures read { IfOk result (λ read. MatchResult read (λ script. IsScript bytes.now script.lines) (λ bad. IsFirstBad bytes.now bad.line bad.why)) }
{
    let mut lines = Items::new(alloc);
    let mut kinds = LineKinds::new(alloc);
    let mut rest = bytes;
    while !rest.is_empty() {
        let (text, after) = first_line(rest);
        match next_line(alloc, &kinds, text)? {
            Ok(line) => {
                kinds.push(&line)?;
                lines.push(line)?;
            }
            Err(why) => {
                return Ok(Err(BadAt {
                    line: lines.len() as u64 + 1,
                    why,
                }));
            }
        }
        rest = after;
    }
    Ok(Ok(Script { lines }))
}
