//! What is wrong with a line that is not in the grammar, and what would be right.
#![tactic(auto, using(crate::proofs::Adding::nothing_added, crate::proofs::Adding::further))]

ghost use Rattle.std.specs.Prelude.{OnOk};
ghost use Rattle.txn_words.specs.GoesOn.{GoesOn};

use crate::forms::{Form, Use, form_like, form_of};
use crate::line_words::{first_word, has_byte};
use crate::pieces::{Piece, push};
use txn_kv::NoMemory;
use txn_kv::spelling::is_plain;

/// Whether the two bytes stand side by side.
fn has_pair(line: &[u8], first: u8, second: u8) -> bool {
    let mut last = b'a';
    for byte in line {
        if last == first && *byte == second {
            return true;
        }
        last = *byte;
    }
    false
}

/// What is wrong between its words or behind them.
fn spacing(line: &[u8]) -> Option<&'static [u8]> {
    if line.last() == Some(&b'\r') {
        return Some(b" ends in a carriage return: a line ends in a newline alone");
    }
    if has_byte(line, b'\t') {
        return Some(b" has a tab: between words stands one space");
    }
    if line.first() == Some(&b' ') {
        return Some(b" begins with a space: take it away");
    }
    if line.last() == Some(&b' ') {
        return Some(b" ends in a space: take it away");
    }
    if has_pair(line, b' ', b' ') {
        return Some(b" has two spaces in a row: between words stands one space");
    }
    if has_pair(line, b' ', b'#') {
        return Some(b" has a comment behind it: a comment stands on a line of its own");
    }
    None
}

/// A line whose first word no line has.
fn push_unknown(out: &mut Vec<u8>, word: &[u8]) -> Result<(), NoMemory>
    ensures { OnOk result (GoesOn out.old.items out.new.items) }
{
    match form_like(word) {
        Some(form) => push(
            out,
            &[
                Piece::Word(b" has upper case: write "),
                Piece::Word(form.word),
            ],
        ),
        None => push(
            out,
            &[
                Piece::Word(b": no line begins with "),
                Piece::Quoted(word),
                Piece::Word(
                    b". A call begins with client, begin, timestamp, put, insert, delete, mutate, lock, commit or rollback, an event with serve, answer, deliver, lose, busy, wake, split, lead, clock or crash, a comment with #",
                ),
            ],
        ),
    }
}

/// A word that is no key and no value.
#[derive(Clone, Copy)]
enum Odd<'a> {
    /// It is neither plain nor in hexadecimal.
    Bytes(&'a [u8]),
    /// What stands behind its `x:` is not in hexadecimal.
    Hex(&'a [u8]),
}

fn is_hex(digits: &[u8]) -> bool {
    digits.len() % 2 == 0
        && digits
            .iter()
            .all(|digit| matches!(*digit, b'0'..=b'9' | b'a'..=b'f'))
}

fn odd_string(word: &[u8]) -> Option<Odd<'_>> {
    match word.strip_prefix(b"x:".as_slice()) {
        Some(digits) => {
            if is_hex(digits) {
                None
            } else {
                Some(Odd::Hex(word))
            }
        }
        None => {
            if is_plain(word) {
                None
            } else {
                Some(Odd::Bytes(word))
            }
        }
    }
}

/// The first of these words that is no key and no value.
fn first_odd(words: &[u8]) -> Option<Odd<'_>> {
    let mut rest = words;
    for _ in 0..words.len() {
        let (word, after) = first_word(rest);
        if let Some(odd) = odd_string(word) {
            return Some(odd);
        }
        if after.is_empty() {
            return None;
        }
        rest = after;
    }
    None
}

fn push_odd(out: &mut Vec<u8>, odd: Odd<'_>) -> Result<(), NoMemory>
    ensures { OnOk result (GoesOn out.old.items out.new.items) }
{
    match odd {
        Odd::Bytes(word) => push(
            out,
            &[
                Piece::Word(b" has "),
                Piece::Quoted(word),
                Piece::Word(
                    b", where letters, digits and _ may stand: other bytes are written in hexadecimal, here as ",
                ),
                Piece::Hex(word),
            ],
        ),
        Odd::Hex(word) => push(
            out,
            &[
                Piece::Word(b" has "),
                Piece::Quoted(word),
                Piece::Word(b": behind x: stand two digits for each byte, of 0 to 9 and a to f"),
            ],
        ),
    }
}

/// The keys and values among the words behind the first word of a line.
fn strings_of<'a>(form: &Form, words: &'a [u8]) -> &'a [u8] {
    match form.is_for {
        _ if !form.has_keys => &[],
        Use::Call => first_word(words).1,
        _ => words,
    }
}

/// Whether the number behind the first word has a zero before it.
fn has_zero_before(form: &Form, words: &[u8]) -> bool {
    let number = first_word(words).0;
    let is_number = form.is_for == Use::Call || !form.has_keys;
    is_number && number.len() > 1 && number.first() == Some(&b'0')
}

fn push_fault_of(out: &mut Vec<u8>, form: &Form, words: &[u8]) -> Result<(), NoMemory>
    ensures { OnOk result (GoesOn out.old.items out.new.items) }
{
    if has_zero_before(form, words) {
        return push(
            out,
            &[Piece::Word(b" has a zero before a number: take it away")],
        );
    }
    match first_odd(strings_of(form, words)) {
        Some(odd) => push_odd(out, odd),
        None => push(
            out,
            &[
                Piece::Word(b" is not in the grammar: "),
                Piece::Word(form.written),
            ],
        ),
    }
}

pub fn push_fault(out: &mut Vec<u8>, line: &[u8]) -> Result<(), NoMemory>
    ensures { OnOk result (GoesOn out.old.items out.new.items) }
{
    if let Some(fault) = spacing(line) {
        return push(out, &[Piece::Word(fault)]);
    }
    let (word, words) = first_word(line);
    match form_of(word) {
        None => push_unknown(out, word),
        Some(form) => push_fault_of(out, &form, words),
    }
}
