ghost use Rattle.std.specs.Prelude.{◌≡◌, ◌==◌, option_map, position};
ghost use Rattle.txn_lines.specs.Reading.{Gives, cut_at, words_of, no_word, next_word};

use crate::stop::Stop;
use std::marker::Model;

fn position_of(byte: u8, bytes: &[u8]) -> Option<usize>
    ensures { result ≡ position (λ b. b == byte) bytes.now }
{
    bytes.iter().position(|b| *b == byte)
}

/// The bytes before and after the first such byte.
pub fn cut_at(byte: u8, bytes: &[u8]) -> Option<(&[u8], &[u8])>
    ensures { option_map (λ parts. (parts.0.now, parts.1.now)) result ≡ cut_at byte bytes.now }
{
    let at = position_of(byte, bytes)?;
    Some((&bytes[..at], &bytes[at + 1..]))
}

/// The words of a line that are still to be read.
#[derive(Debug, Drop)]
pub struct Words<'a> {
    rest: Option<&'a [u8]>,
}

impl<'a> Model for Words<'a> {
    ghost use Rattle.std.specs.Prelude.{List, ℕ, option_copied};
    ghost use Rattle.txn_lines.specs.Reading.{words_left};

    ghost Value = { List (List ℕ) };

    ghost view = { λ s. words_left (option_copied s.rest) };
}

impl<'a> Words<'a> {
    /// The words of a line, between single spaces.
    pub fn of(bytes: &'a [u8]) -> Words<'a>
        ensures { result ≡ words_of bytes.now }
    {
        Words { rest: Some(bytes) }
    }

    pub fn is_empty(&self) -> bool
        ensures { result ≡ no_word self.now }
    {
        self.rest.is_none()
    }

    /// The next word, and the words after it.
    pub fn next(self) -> Result<(&'a [u8], Words<'a>), Stop>
        ensures { Gives (λ x. (x.0.now, x.1)) result (next_word self.entry) }
    {
        let Some(bytes) = self.rest else {
            return Err(Stop::Word);
        };
        match cut_at(b' ', bytes) {
            Some((word, after)) => Ok((word, Words { rest: Some(after) })),
            None => Ok((bytes, Words { rest: None })),
        }
    }
}
