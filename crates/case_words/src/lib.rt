//! Rows of words that a program reads on standard input, and the line that it prints for each.
//!
//! A line is a row: its first word names a call, the others say with what. The row is printed, then a `=`, and then what the
//! call answers. A line `case TITLE` is printed as it stands, and what the rows before it made is let go. Blank lines and
//! lines that begin with `#` say nothing.
//!
//! | word | what it stands for |
//! |---|---|
//! | `7` | a number |
//! | `-` | no bytes |
//! | `[1,2,255]` | these bytes |
//! | `key1` | the bytes of the word |
//! | `a=1`, `a=` | a key and a value |
//!
//! Each word is read without an error: what is left out, is written otherwise, or finds no memory is 0 or has no bytes. Its
//! row then prints another line than the one that it is compared with.
#![tactic(auto)]

pub mod fault;
pub mod keyed;
pub mod numbers;
pub mod rows;
pub mod words;

pub use fault::Fault;
pub use keyed::{bytes, key, key_or_none, keys, pair, pairs, value};
pub use numbers::{flag, number, number_in, small};
pub use rows::{Rows, run, say, show};
pub use words::{cut, rest, word};
