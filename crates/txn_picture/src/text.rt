//! Text in a picture: signs that XML spells otherwise, and what is too long.
#![tactic(auto, using(crate::proofs::Adding::nothing_added, crate::proofs::Adding::further))]

ghost use Rattle.std.specs.Prelude.{OnOk};
ghost use Rattle.txn_words.specs.GoesOn.{GoesOn};

use txn_kv::NoMemory;
use txn_words::{Piece, push};

/// How wide ten signs are.
const TEN_SIGNS: u64 = 67;

/// How wide so many signs are.
pub fn width_of(signs: u64) -> u64 {
    signs.wrapping_mul(TEN_SIGNS) / 10
}

/// Whether a byte begins a sign: one of UTF-8 may have more bytes behind its first.
fn begins_sign(byte: u8) -> bool {
    byte / 64 != 2
}

/// How many signs a text has, but no more than so many.
pub fn signs_in(text: &[u8], most: u64) -> u64 {
    let mut signs: u64 = 0;
    for byte in text {
        if signs < most && begins_sign(*byte) {
            signs = signs.wrapping_add(1);
        }
    }
    signs
}

/// A byte of a text, which is UTF-8 or not.
fn push_byte(out: &mut Vec<u8>, byte: u8, is_text: bool) -> Result<(), NoMemory>
    ensures { OnOk result (GoesOn out.old.items out.new.items) }
{
    let spelled: &[u8] = match byte {
        b'<' => b"&lt;",
        b'>' => b"&gt;",
        b'&' => b"&amp;",
        b' '..=b'~' => return push(out, &[Piece::Word(&[byte])]),
        128..=255 if is_text => return push(out, &[Piece::Word(&[byte])]),
        _ => b"?",
    };
    push(out, &[Piece::Word(spelled)])
}

/// How many bytes the first signs of a text have.
fn bytes_of(text: &[u8], most: u64) -> usize {
    let mut signs: u64 = 0;
    let mut bytes: usize = 0;
    for byte in text {
        if begins_sign(*byte) {
            if signs >= most {
                return bytes;
            }
            signs = signs.wrapping_add(1);
        }
        bytes = bytes.wrapping_add(1);
    }
    bytes
}

/// The first bytes of a text.
fn push_bytes(out: &mut Vec<u8>, text: &[u8], count: usize) -> Result<(), NoMemory>
    ensures { OnOk result (GoesOn out.old.items out.new.items) }
{
    let is_text = std::str::from_utf8(text).is_ok();
    for byte in text.iter().take(count) {
        push_byte(out, *byte, is_text)?;
    }
    Ok(())
}

/// The first signs of a text, and two points where there are more.
pub fn push_shown(out: &mut Vec<u8>, text: &[u8], most: u64) -> Result<(), NoMemory>
    ensures { OnOk result (GoesOn out.old.items out.new.items) }
{
    let count = bytes_of(text, most);
    let end: &[u8] = if count < text.len() { b".." } else { b"" };
    push_bytes(out, text, count)?;
    push(out, &[Piece::Word(end)])
}
