//! A bad line, the reason, and what would be right.
#![tactic(auto, using(crate::proofs::Adding::nothing_added, crate::proofs::Adding::further))]

ghost use Rattle.std.specs.Prelude.{OnOk};
ghost use Rattle.txn_words.specs.GoesOn.{GoesOn};

use crate::fault::push_fault;
use crate::forms::form_of;
use crate::line_words::{first_word, line_of, number_in};
use crate::pieces::{Piece, push};
use txn_kv::NoMemory;
use txn_lines::Why;

/// What the number of a line would be.
fn wanted(line: &[u8]) -> &'static [u8] {
    match form_of(first_word(line).0) {
        Some(form) => form.names,
        None => b"",
    }
}

/// The number of the line that a line names.
fn named_by(line: &[u8]) -> u64 {
    number_in(first_word(first_word(line).1).0).unwrap_or(0)
}

fn push_not_earlier(out: &mut Vec<u8>, line: &[u8]) -> Result<(), NoMemory>
    ensures { OnOk result (GoesOn out.old.items out.new.items) }
{
    push(
        out,
        &[
            Piece::Word(b" names line "),
            Piece::Number(named_by(line)),
            Piece::Word(b", which does not stand before it: "),
            Piece::Word(wanted(line)),
        ],
    )
}

fn push_kind(out: &mut Vec<u8>, script: &[u8], line: &[u8]) -> Result<(), NoMemory>
    ensures { OnOk result (GoesOn out.old.items out.new.items) }
{
    let named = named_by(line);
    push(
        out,
        &[
            Piece::Word(b" names line "),
            Piece::Number(named),
            Piece::Word(b", which is "),
            Piece::Quoted(line_of(script, named)),
            Piece::Word(b": "),
            Piece::Word(wanted(line)),
        ],
    )
}

fn push_why(out: &mut Vec<u8>, script: &[u8], line: &[u8], why: Why) -> Result<(), NoMemory>
    ensures { OnOk result (GoesOn out.old.items out.new.items) }
{
    let reason: &[u8] = match why {
        Why::Word => return push_fault(out, line),
        Why::NotEarlier => return push_not_earlier(out, line),
        Why::Kind => return push_kind(out, script, line),
        Why::TooMany => b" is a line too many: a script has at most 65536 lines",
        Why::TooLong => b" is too long: a line has at most 4096 bytes",
        Why::EmptySplit =>
            b" splits at the empty key, where the first region begins: name another key",
        Why::ClockHigh => b" sets the clock too high: it stays below 17592186044416",
        Why::ClockFalls => b" sets the clock back: an earlier line has set it higher",
        Why::Clients => b" is a client too many: a script has at most 64 clients",
    };
    push(out, &[Piece::Word(reason)])
}

/// The first bad line of a script, with its number, its text, the reason, and what would be right.
pub fn push_bad_line(
    out: &mut Vec<u8>,
    script: &[u8],
    number: u64,
    why: Why,
) -> Result<(), NoMemory>
    ensures { OnOk result (GoesOn out.old.items out.new.items) }
{
    let line = line_of(script, number);
    push(
        out,
        &[
            Piece::Word(b"line "),
            Piece::Number(number),
            Piece::Word(b": "),
            Piece::Quoted(line),
        ],
    )?;
    push_why(out, script, line, why)?;
    push(out, &[Piece::Word(b"\n")])
}
