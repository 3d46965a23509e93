ghost use Rattle.std.specs.Prelude.{◌≡◌, codes, IfOk};
ghost use Rattle.txn_lines.specs.Reading.{Gives, ended, number_alone, ticket_alone, string_alone, strings_alone, keys_in, with_option, options_after, no_options, begin_in, put_in, insert_in, delete_in, mutate_in, lock_in, lead_in, event_in, words_in, line_in};
ghost use Rattle.txn_lines.specs.Text.{IsReading};

use crate::begin_options::BeginOptions;
use crate::fields::{next_exactly, next_key, next_number, next_ticket, next_value};
use crate::line::Line;
use crate::mutations::mutations_in;
use crate::script::Why;
use crate::stop::Stop;
use crate::words::Words;
use std::alloc::Global;
use txn_kv::{Items, Key, NoMemory, Ticket, Value};

/// How many bytes a line may have.
pub const MAX_LINE_BYTES: usize = 4096;

/// What was read, if no word is left.
fn ended<T: Drop>(read: T, words: Words<'_>) -> Result<T, Stop>
    ensures { Gives (λ x. x) result (ended read words.entry) }
{
    if !words.is_empty() {
        return Err(Stop::Word);
    }
    Ok(read)
}

#[tactic(auto, unfolding(crate::specs::Reading::number_alone))]
fn number_alone(words: Words<'_>) -> Result<u64, Stop>
    ensures { Gives (λ x. x) result (number_alone words.entry) }
{
    let (number, words) = next_number(words)?;
    ended(number, words)
}

#[tactic(auto, unfolding(crate::specs::Reading::ticket_alone))]
fn ticket_alone(words: Words<'_>) -> Result<Ticket, Stop>
    ensures { Gives (λ x. x) result (ticket_alone words.entry) }
{
    let (ticket, words) = next_ticket(words)?;
    ended(ticket, words)
}

#[tactic(auto, unfolding(crate::specs::Reading::string_alone))]
fn key_alone(alloc: Global, words: Words<'_>) -> Result<Key, Stop>
    ensures { Gives (λ x. x) result (string_alone words.entry) }
{
    let (key, words) = next_key(alloc, words)?;
    ended(key, words)
}

/// One key or more, to the end of the line.
#[tactic(auto, unfolding(crate::specs::Reading::keys_in))]
fn keys_in(alloc: Global, words: Words<'_>) -> Result<Items<Key>, Stop>
    ensures { Gives (λ x. x) result (keys_in words.entry) }
{
    if words.is_empty() {
        return Err(Stop::Word);
    }
    let mut keys = Items::new(alloc);
    let mut rest = words;
    while !rest.is_empty() {
        let (key, after) = next_key(alloc, rest)?;
        keys.push(key)?;
        rest = after;
    }
    Ok(keys)
}

#[tactic(auto, unfolding(crate::specs::Reading::strings_alone))]
fn key_and_value_in(alloc: Global, words: Words<'_>) -> Result<(Key, Value), Stop>
    ensures { Gives (λ x. x) result (strings_alone words.entry) }
{
    let (key, words) = next_key(alloc, words)?;
    let (value, words) = next_value(alloc, words)?;
    ended((key, value), words)
}

/// The options with one more, which is not among them.
#[tactic(auto, unfolding(crate::specs::Reading::with_option))]
fn with_option(options: BeginOptions, word: &[u8]) -> Result<BeginOptions, Stop>
    ensures { Gives (λ x. x) result (with_option options word.now) }
{
    if word == b"nolocks".as_slice() && !options.no_locks {
        Ok(BeginOptions {
            no_locks: true,
            ..options
        })
    } else if word == b"noregions".as_slice() && !options.no_regions {
        Ok(BeginOptions {
            no_regions: true,
            ..options
        })
    } else {
        Err(Stop::Word)
    }
}

fn options_in(words: Words<'_>) -> Result<BeginOptions, Stop>
    ensures { Gives (λ x. x) result (options_after no_options words.entry) }
{
    let mut options = BeginOptions::default();
    let mut rest = words;
    while !rest.is_empty() {
        let (word, after) = rest.next()?;
        options = with_option(options, word)?;
        rest = after;
    }
    Ok(options)
}

#[tactic(auto, unfolding(crate::specs::Reading::begin_in))]
fn begin_in(words: Words<'_>) -> Result<Line, Stop>
    ensures { Gives (λ x. x) result (begin_in words.entry) }
{
    let (client, words) = next_number(words)?;
    let words = next_exactly(b"opt".as_slice(), words)?;
    let options = options_in(words)?;
    Ok(Line::Begin { client, options })
}

#[tactic(auto, unfolding(crate::specs::Reading::put_in))]
fn put_in(alloc: Global, words: Words<'_>) -> Result<Line, Stop>
    ensures { Gives (λ x. x) result (put_in words.entry) }
{
    let (transaction, words) = next_number(words)?;
    let (key, value) = key_and_value_in(alloc, words)?;
    Ok(Line::Put {
        transaction,
        key,
        value,
    })
}

#[tactic(auto, unfolding(crate::specs::Reading::insert_in))]
fn insert_in(alloc: Global, words: Words<'_>) -> Result<Line, Stop>
    ensures { Gives (λ x. x) result (insert_in words.entry) }
{
    let (transaction, words) = next_number(words)?;
    let (key, value) = key_and_value_in(alloc, words)?;
    Ok(Line::Insert {
        transaction,
        key,
        value,
    })
}

#[tactic(auto, unfolding(crate::specs::Reading::delete_in))]
fn delete_in(alloc: Global, words: Words<'_>) -> Result<Line, Stop>
    ensures { Gives (λ x. x) result (delete_in words.entry) }
{
    let (transaction, words) = next_number(words)?;
    let key = key_alone(alloc, words)?;
    Ok(Line::Delete { transaction, key })
}

#[tactic(auto, unfolding(crate::specs::Reading::mutate_in))]
fn mutate_in(alloc: Global, words: Words<'_>) -> Result<Line, Stop>
    ensures { Gives (λ x. x) result (mutate_in words.entry) }
{
    let (transaction, words) = next_number(words)?;
    let mutations = mutations_in(alloc, words)?;
    Ok(Line::Mutate {
        transaction,
        mutations,
    })
}

#[tactic(auto, unfolding(crate::specs::Reading::lock_in))]
fn lock_in(alloc: Global, words: Words<'_>) -> Result<Line, Stop>
    ensures { Gives (λ x. x) result (lock_in words.entry) }
{
    let (transaction, words) = next_number(words)?;
    let keys = keys_in(alloc, words)?;
    Ok(Line::Lock { transaction, keys })
}

#[tactic(auto, unfolding(crate::specs::Reading::lead_in))]
fn lead_in(words: Words<'_>) -> Result<Line, Stop>
    ensures { Gives (λ x. x) result (lead_in words.entry) }
{
    let (region, words) = next_number(words)?;
    let store = number_alone(words)?;
    if store == 0 || store > 3 {
        return Err(Stop::Word);
    }
    Ok(Line::Lead { region, store })
}

/// The event whose first word is `kind`.
#[tactic(auto, unfolding(crate::specs::Reading::event_in))]
fn event_in(alloc: Global, kind: &[u8], words: Words<'_>) -> Result<Line, Stop>
    ensures { Gives (λ x. x) result (event_in kind.now words.entry) }
{
    if kind == b"serve".as_slice() {
        ticket_alone(words).map(|ticket| Line::Serve { ticket })
    } else if kind == b"answer".as_slice() {
        ticket_alone(words).map(|ticket| Line::Answer { ticket })
    } else if kind == b"deliver".as_slice() {
        ticket_alone(words).map(|ticket| Line::Deliver { ticket })
    } else if kind == b"lose".as_slice() {
        ticket_alone(words).map(|ticket| Line::Lose { ticket })
    } else if kind == b"busy".as_slice() {
        ticket_alone(words).map(|ticket| Line::Busy { ticket })
    } else if kind == b"wake".as_slice() {
        ticket_alone(words).map(|ticket| Line::Wake { ticket })
    } else if kind == b"split".as_slice() {
        key_alone(alloc, words).map(|key| Line::Split { key })
    } else if kind == b"lead".as_slice() {
        lead_in(words)
    } else if kind == b"clock".as_slice() {
        number_alone(words).map(|ms| Line::Clock { ms })
    } else if kind == b"crash".as_slice() {
        number_alone(words).map(|client| Line::Crash { client })
    } else {
        Err(Stop::Word)
    }
}

/// The call or event whose first word is `kind`.
#[tactic(auto, unfolding(crate::specs::Reading::words_in))]
fn words_in(alloc: Global, kind: &[u8], words: Words<'_>) -> Result<Line, Stop>
    ensures { Gives (λ x. x) result (words_in kind.now words.entry) }
{
    if kind == b"client".as_slice() {
        ended(Line::Client, words)
    } else if kind == b"begin".as_slice() {
        begin_in(words)
    } else if kind == b"timestamp".as_slice() {
        number_alone(words).map(|client| Line::Timestamp { client })
    } else if kind == b"put".as_slice() {
        put_in(alloc, words)
    } else if kind == b"insert".as_slice() {
        insert_in(alloc, words)
    } else if kind == b"delete".as_slice() {
        delete_in(alloc, words)
    } else if kind == b"mutate".as_slice() {
        mutate_in(alloc, words)
    } else if kind == b"lock".as_slice() {
        lock_in(alloc, words)
    } else if kind == b"commit".as_slice() {
        number_alone(words).map(|transaction| Line::Commit { transaction })
    } else if kind == b"rollback".as_slice() {
        number_alone(words).map(|transaction| Line::Rollback { transaction })
    } else {
        event_in(alloc, kind, words)
    }
}

#[tactic(auto, unfolding(crate::specs::Reading::line_in))]
fn line_in(alloc: Global, bytes: &[u8]) -> Result<Line, Stop>
    ensures { Gives (λ x. x) result (line_in bytes.now) }
{
    if bytes.is_empty() {
        return Ok(Line::Blank);
    }
    if bytes[0] == b'#' {
        return Ok(Line::Blank);
    }
    let (kind, words) = Words::of(bytes).next()?;
    words_in(alloc, kind, words)
}

/// The line that these bytes spell; `Word` where they spell none, `TooLong` where there are too many of them.
pub fn parse_line(alloc: Global, bytes: &[u8]) -> Result<Result<Line, Why>, NoMemory>
    ensures { IfOk result (IsReading bytes.now) }
{
    if bytes.len() > MAX_LINE_BYTES {
        return Ok(Err(Why::TooLong));
    }
    match line_in(alloc, bytes) {
        Ok(line) => Ok(Ok(line)),
        Err(Stop::Word) => Ok(Err(Why::Word)),
        Err(Stop::Memory) => Err(NoMemory),
    }
}
