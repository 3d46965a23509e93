//! The words of a row.

use std::alloc::Global;

/// The words of a line.
pub fn words<'a>(alloc: Global, line: &'a str) -> Vec<&'a str> {
    let mut words = Vec::new(alloc);
    for word in line.split_whitespace() {
        let _ = words.push(word);
    }
    words
}

/// What stands between the marks in a word.
pub fn cut<'a>(alloc: Global, word: &'a str, mark: char) -> Vec<&'a str> {
    let mut parts = Vec::new(alloc);
    for part in word.split(mark) {
        let _ = parts.push(part);
    }
    parts
}

/// The word at a place, counted from 0.
pub fn word<'a>(words: &[&'a str], at: usize) -> &'a str {
    match words.get(at) {
        Some(word) => *word,
        None => "",
    }
}

/// The words from one on.
pub fn rest<'a, 'b>(words: &'b [&'a str], from: usize) -> &'b [&'a str] {
    if from < words.len() {
        &words[from..]
    } else {
        &[]
    }
}
