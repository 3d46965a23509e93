//! The lines of a text, and the words of a line.
#![tactic(auto, using(crate::proofs::Adding::nothing_added, crate::proofs::Adding::further))]

ghost use Rattle.std.specs.Prelude.{◌≡◌, ◌==◌, position};

use txn_kv::Ticket;

fn position_of(byte: u8, bytes: &[u8]) -> Option<usize>
    ensures { result ≡ position (λ b. b == byte) bytes.now }
{
    bytes.iter().position(|b| *b == byte)
}

/// The bytes before the first such byte, and those after it; all of them, and none, where there is no such byte.
pub fn cut_at(byte: u8, bytes: &[u8]) -> (&[u8], &[u8]) {
    match position_of(byte, bytes) {
        Some(at) => (&bytes[..at], &bytes[at + 1..]),
        None => (bytes, &[]),
    }
}

/// The first line, and the text after its newline.
pub fn first_line(text: &[u8]) -> (&[u8], &[u8]) {
    cut_at(b'\n', text)
}

/// The first word of a line, and the words after it.
pub fn first_word(line: &[u8]) -> (&[u8], &[u8]) {
    cut_at(b' ', line)
}

/// The line of this number, counted from 1.
pub fn line_of(text: &[u8], number: u64) -> &[u8] {
    let mut rest = text;
    for _ in 1..number {
        rest = first_line(rest).1;
    }
    first_line(rest).0
}

pub fn has_byte(bytes: &[u8], byte: u8) -> bool {
    position_of(byte, bytes).is_some()
}

/// The number that digits spell.
pub fn number_in(word: &[u8]) -> Option<u64> {
    let mut n: u64 = 0;
    for byte in word {
        if !byte.is_ascii_digit() {
            return None;
        }
        n = n.checked_mul(10)?.checked_add(u64::from(*byte - b'0'))?;
    }
    Some(n)
}

/// The ticket that a word spells.
pub fn ticket_in(word: &[u8]) -> Option<Ticket> {
    let (line, rest) = cut_at(b'.', word);
    let line = number_in(line)?;
    let (beat, number) = match rest.strip_prefix(b"h".as_slice()) {
        Some(number) => (true, number),
        None => (false, rest),
    };
    let number = number_in(number)?;
    Some(Ticket { line, beat, number })
}
