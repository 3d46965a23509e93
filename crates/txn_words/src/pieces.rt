//! Pieces of text.
#![tactic(auto, using(crate::proofs::Adding::nothing_added, crate::proofs::Adding::further))]

ghost use Rattle.std.specs.Prelude.{◌≡◌, ◌<◌, OnOk};
ghost use Rattle.txn_words.specs.GoesOn.{GoesOn};

use itoa::Buffer;
use txn_kv::codec::decode_bytes_in_place;
use txn_kv::spelling::is_plain;
use txn_kv::{Key, Mutation, NoMemory, Target, Ticket};

/// A piece of text. A line is written by a row of them.
#[derive(Clone, Copy)]
pub enum Piece<'a> {
    /// As it is.
    Word(&'a [u8]),
    Number(u64),
    /// A key or a value, as a script writes it.
    Bytes(&'a [u8]),
    /// In hexadecimal, as a script writes any key or value.
    Hex(&'a [u8]),
    /// The key that has this encoding.
    Encoded(&'a [u8]),
    /// Between quotes, with what cannot be seen written out, and not all of it where it is long.
    Quoted(&'a [u8]),
    /// With a space before each.
    Keys(&'a [Key]),
    /// The keys of mutations, with a space before each.
    Mutated(&'a [Mutation]),
    /// With a space before each.
    Numbers(&'a [u64]),
    Ticket(Ticket),
    Target(Target),
}

/// How many bytes of a line are quoted.
const MOST_QUOTED: usize = 120;

fn push_word(out: &mut Vec<u8>, word: &[u8]) -> Result<(), NoMemory>
    ensures { OnOk result (GoesOn out.old.items out.new.items) }
{
    out.extend_from_slice(word)?;
    Ok(())
}

fn push_number(out: &mut Vec<u8>, n: u64) -> Result<(), NoMemory>
    ensures { OnOk result (GoesOn out.old.items out.new.items) }
{
    let mut buffer = Buffer::new();
    push_word(out, buffer.format(n).as_bytes())
}

/// A digit of the hexadecimal system.
fn hex_digit(n: u8) -> u8
    requires { n < 16 }
{
    if n < 10 { b'0' + n } else { b'a' - 10 + n }
}

fn push_hex_byte(out: &mut Vec<u8>, byte: u8) -> Result<(), NoMemory>
    ensures { OnOk result (GoesOn out.old.items out.new.items) }
{
    push_word(out, &[hex_digit(byte / 16), hex_digit(byte % 16)])
}

fn push_hex(out: &mut Vec<u8>, bytes: &[u8]) -> Result<(), NoMemory>
    ensures { OnOk result (GoesOn out.old.items out.new.items) }
{
    push_word(out, b"x:")?;
    for byte in bytes {
        push_hex_byte(out, *byte)?;
    }
    Ok(())
}

fn push_bytes(out: &mut Vec<u8>, bytes: &[u8]) -> Result<(), NoMemory>
    ensures { OnOk result (GoesOn out.old.items out.new.items) }
{
    if is_plain(bytes) {
        push_word(out, bytes)
    } else {
        push_hex(out, bytes)
    }
}

/// The key of an encoding; other bytes as they are.
fn push_encoded(out: &mut Vec<u8>, encoding: &[u8]) -> Result<(), NoMemory>
    ensures { OnOk result (GoesOn out.old.items out.new.items) }
{
    let mut key = Vec::from_slice(*out.allocator(), encoding)?;
    let _ = decode_bytes_in_place(&mut key, false);
    let pushed = push_bytes(out, key.as_slice());
    drop(key);
    pushed
}

/// A byte of a quoted line.
fn push_seen(out: &mut Vec<u8>, byte: u8) -> Result<(), NoMemory>
    ensures { OnOk result (GoesOn out.old.items out.new.items) }
{
    match byte {
        b'\r' => push_word(out, b"\\r"),
        b'\t' => push_word(out, b"\\t"),
        b' '..=b'~' => push_word(out, &[byte]),
        _ => {
            push_word(out, b"\\x")?;
            push_hex_byte(out, byte)
        }
    }
}

fn push_quoted(out: &mut Vec<u8>, text: &[u8]) -> Result<(), NoMemory>
    ensures { OnOk result (GoesOn out.old.items out.new.items) }
{
    push_word(out, b"\"")?;
    for byte in text.iter().take(MOST_QUOTED) {
        push_seen(out, *byte)?;
    }
    let end: &[u8] = if text.len() > MOST_QUOTED {
        b"\" .."
    } else {
        b"\""
    };
    push_word(out, end)
}

fn push_keys(out: &mut Vec<u8>, keys: &[Key]) -> Result<(), NoMemory>
    ensures { OnOk result (GoesOn out.old.items out.new.items) }
{
    for key in keys {
        push_word(out, b" ")?;
        push_bytes(out, key.as_slice())?;
    }
    Ok(())
}

fn push_mutated(out: &mut Vec<u8>, mutations: &[Mutation]) -> Result<(), NoMemory>
    ensures { OnOk result (GoesOn out.old.items out.new.items) }
{
    for mutation in mutations {
        push_word(out, b" ")?;
        push_bytes(out, mutation.key.as_slice())?;
    }
    Ok(())
}

fn push_numbers(out: &mut Vec<u8>, numbers: &[u64]) -> Result<(), NoMemory>
    ensures { OnOk result (GoesOn out.old.items out.new.items) }
{
    for number in numbers {
        push_word(out, b" ")?;
        push_number(out, *number)?;
    }
    Ok(())
}

fn push_ticket(out: &mut Vec<u8>, ticket: Ticket) -> Result<(), NoMemory>
    ensures { OnOk result (GoesOn out.old.items out.new.items) }
{
    push_number(out, ticket.line)?;
    let point: &[u8] = if ticket.beat { b".h" } else { b"." };
    push_word(out, point)?;
    push_number(out, ticket.number)
}

fn push_target(out: &mut Vec<u8>, target: Target) -> Result<(), NoMemory>
    ensures { OnOk result (GoesOn out.old.items out.new.items) }
{
    match target {
        Target::Placement => push_word(out, b"placement"),
        Target::Store(id) => {
            push_word(out, b"store ")?;
            push_number(out, id)
        }
    }
}

fn push_piece(out: &mut Vec<u8>, piece: Piece<'_>) -> Result<(), NoMemory>
    ensures { OnOk result (GoesOn out.old.items out.new.items) }
{
    match piece {
        Piece::Word(word) => push_word(out, word),
        Piece::Number(n) => push_number(out, n),
        Piece::Bytes(bytes) => push_bytes(out, bytes),
        Piece::Hex(bytes) => push_hex(out, bytes),
        Piece::Encoded(encoding) => push_encoded(out, encoding),
        Piece::Quoted(text) => push_quoted(out, text),
        Piece::Keys(keys) => push_keys(out, keys),
        Piece::Mutated(mutations) => push_mutated(out, mutations),
        Piece::Numbers(numbers) => push_numbers(out, numbers),
        Piece::Ticket(ticket) => push_ticket(out, ticket),
        Piece::Target(target) => push_target(out, target),
    }
}

/// Adds the pieces, one after the other.
pub fn push(out: &mut Vec<u8>, pieces: &[Piece<'_>]) -> Result<(), NoMemory>
    ensures { OnOk result (GoesOn out.old.items out.new.items) }
{
    for piece in pieces {
        push_piece(out, *piece)?;
    }
    Ok(())
}
