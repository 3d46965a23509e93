//! Words that are numbers.

use crate::words::word;

pub fn number_in(word: &str) -> u64 {
    word.parse::<u64>().unwrap_or(0)
}

/// The number at a place.
pub fn number(words: &[&str], at: usize) -> u64 {
    number_in(word(words, at))
}

/// The number at a place, of 32 bits.
pub fn small(words: &[&str], at: usize) -> u32 {
    word(words, at).parse::<u32>().unwrap_or(0)
}

/// Whether the word at a place is this.
pub fn flag(words: &[&str], at: usize, name: &str) -> bool {
    word(words, at) == name
}
