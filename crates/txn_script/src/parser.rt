ghost use Rattle.std.specs.Prelude.{◌≡◌, codes};
ghost use Rattle.txn_script.specs.Reading.{Gives, ended, begin_in, put_in, commit_in, deliver_in, words_in, line_in};
ghost use Rattle.txn_script.specs.Text.{IsReading};
ghost use Rattle.std.specs.Prelude.{IfOk};

use crate::fields::{next_exactly, next_number, next_string, next_ticket};
use crate::line::Line;
use crate::script::Why;
use crate::stop::Stop;
use crate::words::Words;
use std::alloc::Global;
use txn_kv::{Key, NoMemory, Value};

/// How many bytes a line may have.
pub const MAX_LINE_BYTES: usize = 4096;

/// The line, if no word is left.
fn ended(line: Line, words: &Words<'_>) -> Result<Line, Stop>
    ensures { Gives (λ x. x) result (ended line words.now) }
{
    if !words.is_empty() {
        return Err(Stop::Word);
    }
    Ok(line)
}

#[tactic(auto, unfolding(crate::specs::Reading::begin_in))]
fn begin_in(words: Words<'_>) -> Result<Line, Stop>
    ensures { Gives (λ x. x) result (begin_in words.entry) }
{
    let (client, words) = next_number(words)?;
    let words = next_exactly(b"opt".as_slice(), words)?;
    ended(Line::Begin { client }, &words)
}

#[tactic(auto, unfolding(crate::specs::Reading::put_in))]
fn put_in(alloc: Global, words: Words<'_>) -> Result<Line, Stop>
    ensures { Gives (λ x. x) result (put_in words.entry) }
{
    let (transaction, words) = next_number(words)?;
    let (key, words) = next_string(alloc, words)?;
    let (value, words) = next_string(alloc, words)?;
    let line = Line::Put {
        transaction,
        key: Key::from(key),
        value: Value::from_vec(value),
    };
    ended(line, &words)
}

#[tactic(auto, unfolding(crate::specs::Reading::commit_in))]
fn commit_in(words: Words<'_>) -> Result<Line, Stop>
    ensures { Gives (λ x. x) result (commit_in words.entry) }
{
    let (transaction, words) = next_number(words)?;
    ended(Line::Commit { transaction }, &words)
}

#[tactic(auto, unfolding(crate::specs::Reading::deliver_in))]
fn deliver_in(words: Words<'_>) -> Result<Line, Stop>
    ensures { Gives (λ x. x) result (deliver_in words.entry) }
{
    let (ticket, words) = next_ticket(words)?;
    ended(Line::Deliver { ticket }, &words)
}

/// The line whose first word is `kind`.
#[tactic(auto, unfolding(crate::specs::Reading::words_in))]
fn words_in(alloc: Global, kind: &[u8], words: Words<'_>) -> Result<Line, Stop>
    ensures { Gives (λ x. x) result (words_in kind.now words.entry) }
{
    if kind == b"client".as_slice() {
        ended(Line::Client, &words)
    } else if kind == b"begin".as_slice() {
        begin_in(words)
    } else if kind == b"put".as_slice() {
        put_in(alloc, words)
    } else if kind == b"commit".as_slice() {
        commit_in(words)
    } else if kind == b"deliver".as_slice() {
        deliver_in(words)
    } else {
        Err(Stop::Word)
    }
}

#[tactic(auto, unfolding(crate::specs::Reading::line_in))]
fn line_in(alloc: Global, bytes: &[u8]) -> Result<Line, Stop>
    ensures { Gives (λ x. x) result (line_in bytes.now) }
{
    if bytes.is_empty() {
        return Ok(Line::Blank);
    }
    if bytes[0] == b'#' {
        return Ok(Line::Blank);
    }
    let (kind, words) = Words::of(bytes).next()?;
    words_in(alloc, kind, words)
}

/// The line that these bytes spell; `Word` where they spell none, `TooLong` where there are too many of them.
pub fn parse_line(alloc: Global, bytes: &[u8]) -> Result<Result<Line, Why>, NoMemory>
    ensures { IfOk result (IsReading bytes.now) }
{
    if bytes.len() > MAX_LINE_BYTES {
        return Ok(Err(Why::TooLong));
    }
    match line_in(alloc, bytes) {
        Ok(line) => Ok(Ok(line)),
        Err(Stop::Word) => Ok(Err(Why::Word)),
        Err(Stop::Memory) => Err(NoMemory),
    }
}
