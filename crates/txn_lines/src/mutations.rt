//! The items of a `mutate` line.

ghost use Rattle.std.specs.Prelude.{◌≡◌};
ghost use Rattle.txn_lines.specs.Reading.{Gives, with_value, without_value, mutation_from, next_mutation, mutations_in};

use crate::fields::{next_key, next_value};
use crate::stop::Stop;
use crate::words::Words;
use std::alloc::Global;
use txn_kv::{Assertion, Items, Mutation, Op, Value};

#[tactic(auto, unfolding(crate::specs::Reading::with_value))]
fn with_value(alloc: Global, op: Op, words: Words<'_>) -> Result<(Mutation, Words<'_>), Stop>
    ensures { Gives (λ x. x) result (with_value op words.entry) }
{
    let (key, words) = next_key(alloc, words)?;
    let (value, words) = next_value(alloc, words)?;
    let mutation = Mutation {
        op,
        key,
        value,
        assertion: Assertion::None,
    };
    Ok((mutation, words))
}

#[tactic(auto, unfolding(crate::specs::Reading::without_value))]
fn without_value(alloc: Global, op: Op, words: Words<'_>) -> Result<(Mutation, Words<'_>), Stop>
    ensures { Gives (λ x. x) result (without_value op words.entry) }
{
    let (key, words) = next_key(alloc, words)?;
    let mutation = Mutation {
        op,
        key,
        value: Value::new(alloc),
        assertion: Assertion::None,
    };
    Ok((mutation, words))
}

/// The mutation that its first word asks for.
fn mutation_from<'a>(
    alloc: Global,
    kind: &[u8],
    words: Words<'a>,
) -> Result<(Mutation, Words<'a>), Stop>
    ensures { Gives (λ x. x) result (mutation_from kind.now words.entry) }
{
    if kind == b"put".as_slice() {
        with_value(alloc, Op::Put, words)
    } else if kind == b"insert".as_slice() {
        with_value(alloc, Op::Insert, words)
    } else if kind == b"del".as_slice() {
        without_value(alloc, Op::Del, words)
    } else if kind == b"lock".as_slice() {
        without_value(alloc, Op::Lock, words)
    } else if kind == b"check".as_slice() {
        without_value(alloc, Op::CheckNotExists, words)
    } else {
        Err(Stop::Word)
    }
}

#[tactic(auto, unfolding(crate::specs::Reading::next_mutation))]
fn next_mutation(alloc: Global, words: Words<'_>) -> Result<(Mutation, Words<'_>), Stop>
    ensures { Gives (λ x. x) result (next_mutation words.entry) }
{
    let (kind, words) = words.next()?;
    mutation_from(alloc, kind, words)
}

/// One mutation or more, to the end of the line.
#[tactic(auto, unfolding(crate::specs::Reading::mutations_in))]
pub fn mutations_in(alloc: Global, words: Words<'_>) -> Result<Items<Mutation>, Stop>
    ensures { Gives (λ x. x) result (mutations_in words.entry) }
{
    if words.is_empty() {
        return Err(Stop::Word);
    }
    let mut mutations = Items::new(alloc);
    let mut rest = words;
    while !rest.is_empty() {
        let (mutation, after) = next_mutation(alloc, rest)?;
        mutations.push(mutation)?;
        rest = after;
    }
    Ok(mutations)
}
