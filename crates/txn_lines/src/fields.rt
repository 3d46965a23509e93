//! The words of a line as numbers, byte strings and tickets.

ghost use Rattle.std.specs.Prelude.{◌≡◌, ◌%◌, length};
ghost use Rattle.txn_lines.specs.Reading.{Gives, next_digit, digits_after, number_in, hex_value, byte_in, pairs_in, hex_in, string_in, behind_dot, ticket_in, next_number, next_string, next_ticket, next_exactly};

use crate::stop::Stop;
use crate::words::{Words, cut_at};
use std::alloc::Global;
use txn_kv::spelling::is_plain;
use txn_kv::{Key, Ticket, Value};

/// The number with one digit more.
fn next_digit(n: u64, byte: u8) -> Option<u64>
    ensures { result ≡ next_digit n byte }
{
    if !byte.is_ascii_digit() {
        return None;
    }
    n.checked_mul(10)?.checked_add(u64::from(byte - b'0'))
}

fn digits(word: &[u8]) -> Result<u64, Stop>
    ensures { Gives (λ n. n) result (digits_after 0 word.now) }
{
    let mut n = 0;
    for byte in word {
        n = next_digit(n, *byte).ok_or(Stop::Word)?;
    }
    Ok(n)
}

/// A decimal number without leading zeros, below 2^64.
#[tactic(auto, unfolding(crate::specs::Reading::number_in))]
fn number_in(word: &[u8]) -> Result<u64, Stop>
    ensures { Gives (λ n. n) result (number_in word.now) }
{
    if word.is_empty() {
        return Err(Stop::Word);
    }
    if word[0] == b'0' && word.len() > 1 {
        return Err(Stop::Word);
    }
    digits(word)
}

fn hex_value(byte: u8) -> Result<u8, Stop>
    ensures { Gives (λ n. n) result (hex_value byte) }
{
    match byte {
        b'0'..=b'9' => Ok(byte - b'0'),
        b'a'..=b'f' => Ok(byte - b'a' + 10),
        _ => Err(Stop::Word),
    }
}

fn byte_in(high: u8, low: u8) -> Result<u8, Stop>
    ensures { Gives (λ n. n) result (byte_in high low) }
{
    let high = hex_value(high)?;
    let low = hex_value(low)?;
    Ok(high * 16 + low)
}

fn pairs_in(alloc: Global, hex: &[u8]) -> Result<Vec<u8>, Stop>
    requires { length hex.now % 2 ≡ 0 }
    ensures { Gives (λ v. v.items) result (pairs_in hex.now) }
{
    let mut bytes = Vec::with_capacity(alloc, hex.len() / 2)?;
    for i in 0..hex.len() / 2 {
        let byte = byte_in(hex[2 * i], hex[2 * i + 1])?;
        bytes.push(byte)?;
    }
    Ok(bytes)
}

/// Two digits for each byte.
#[tactic(auto, unfolding(crate::specs::Reading::hex_in))]
fn hex_in(alloc: Global, hex: &[u8]) -> Result<Vec<u8>, Stop>
    ensures { Gives (λ v. v.items) result (hex_in hex.now) }
{
    if hex.len() % 2 != 0 {
        return Err(Stop::Word);
    }
    pairs_in(alloc, hex)
}

/// A byte string, as itself or in hexadecimal.
#[tactic(auto, unfolding(crate::specs::Reading::string_in))]
fn string_in(alloc: Global, word: &[u8]) -> Result<Vec<u8>, Stop>
    ensures { Gives (λ v. v.items) result (string_in word.now) }
{
    if let Some(hex) = word.strip_prefix(b"x:".as_slice()) {
        return hex_in(alloc, hex);
    }
    if !is_plain(word) {
        return Err(Stop::Word);
    }
    Ok(Vec::from_slice(alloc, word)?)
}

/// Whether an h stands behind the dot of a ticket, and what is left without it.
#[tactic(auto, unfolding(crate::specs::Reading::behind_dot))]
fn behind_dot(word: &[u8]) -> (bool, &[u8])
    ensures { (result.0, result.1.now) ≡ behind_dot word.now }
{
    match word.strip_prefix(b"h".as_slice()) {
        Some(number) => (true, number),
        None => (false, word),
    }
}

/// Two numbers with a dot between, and for a heartbeat an h behind the dot.
#[tactic(auto, unfolding(crate::specs::Reading::ticket_in))]
fn ticket_in(word: &[u8]) -> Result<Ticket, Stop>
    ensures { Gives (λ t. t) result (ticket_in word.now) }
{
    let Some((line, rest)) = cut_at(b'.', word) else {
        return Err(Stop::Word);
    };
    let line = number_in(line)?;
    let (beat, number) = behind_dot(rest);
    let number = number_in(number)?;
    Ok(Ticket { line, beat, number })
}

#[tactic(auto, unfolding(crate::specs::Reading::next_number))]
pub fn next_number(words: Words<'_>) -> Result<(u64, Words<'_>), Stop>
    ensures { Gives (λ x. x) result (next_number words.entry) }
{
    let (word, words) = words.next()?;
    let n = number_in(word)?;
    Ok((n, words))
}

#[tactic(auto, unfolding(crate::specs::Reading::next_string))]
pub fn next_string(alloc: Global, words: Words<'_>) -> Result<(Vec<u8>, Words<'_>), Stop>
    ensures { Gives (λ x. (x.0.items, x.1)) result (next_string words.entry) }
{
    let (word, words) = words.next()?;
    let bytes = string_in(alloc, word)?;
    Ok((bytes, words))
}

pub fn next_key(alloc: Global, words: Words<'_>) -> Result<(Key, Words<'_>), Stop>
    ensures { Gives (λ x. x) result (next_string words.entry) }
{
    let (bytes, words) = next_string(alloc, words)?;
    Ok((Key::from(bytes), words))
}

pub fn next_value(alloc: Global, words: Words<'_>) -> Result<(Value, Words<'_>), Stop>
    ensures { Gives (λ x. x) result (next_string words.entry) }
{
    let (bytes, words) = next_string(alloc, words)?;
    Ok((Value::from_vec(bytes), words))
}

#[tactic(auto, unfolding(crate::specs::Reading::next_ticket))]
pub fn next_ticket(words: Words<'_>) -> Result<(Ticket, Words<'_>), Stop>
    ensures { Gives (λ x. x) result (next_ticket words.entry) }
{
    let (word, words) = words.next()?;
    let ticket = ticket_in(word)?;
    Ok((ticket, words))
}

/// This very word.
#[tactic(auto, unfolding(crate::specs::Reading::next_exactly))]
pub fn next_exactly<'a>(text: &[u8], words: Words<'a>) -> Result<Words<'a>, Stop>
    ensures { Gives (λ x. x) result (next_exactly text.now words.entry) }
{
    let (word, words) = words.next()?;
    if word != text {
        return Err(Stop::Word);
    }
    Ok(words)
}
