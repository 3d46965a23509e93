//! What `CollectWithShard` makes of pessimistic locks.

ghost use Rattle.std.specs.Prelude.{◌≡◌, ◌⊎◌, ◌++◌, ◌<◌, ◌==◌, ◌||◌, [], None, Some, IfOk, IfErr, OnOk, OnErr, map, length, nat_lt, if◌then◌else◌};
ghost use Rattle.std.specs.List.{filter_map, flat_map};
ghost use Rattle.txn_kv.specs.declared.errors.Error.TheVariants.{OutOfMemory};
ghost use Rattle.txn_merge.specs.Gathered.{UnlessMemory, errors_of, first, shape, values_of};
ghost use Rattle.txn_merge.specs.Shards.{Collected, IsCollected, IsLockError, LastErrorOr, Locked, found_of, keys_of, last_or, misfit, misfit_of, paired, pairs_of, unflagged};

use crate::merge::{CollectWithShard, Merge, misshapen};
use crate::response_with_shard::ResponseWithShard;
use std::alloc::Global;
use txn_kv::{
    Error, Items, Key, KvPair, Mutation, NoMemory, PessimisticLockResponse, Result, Value,
};

/// The reply to a pessimistic lock, beside the mutations that it locks.
type Locked = ResponseWithShard<PessimisticLockResponse, Items<Mutation>>;

/// The values of results, and the last of their errors.
#[derive(Drop)]
struct Parted<T> {
    values: Vec<T>,
    last_error: Option<Error>,
}

fn part<T: Drop>(alloc: Global, input: Vec<Result<T>>) -> std::result::Result<Parted<T>, NoMemory>
    ensures values { IfOk result (λ parts. parts.values.items ≡ values_of input.items) }
    ensures error { IfOk result (λ parts. parts.last_error ≡ last_or None (errors_of input.items)) }
{
    let mut values = Vec::new(alloc);
    let mut last_error = None;
    for result in input {
        match result {
            Ok(value) => values.push(value)?,
            Err(error) => last_error = Some(error),
        }
    }
    Ok(Parted { values, last_error })
}

fn add_keys(keys: &mut Vec<Key>, mutations: Vec<Mutation>) -> std::result::Result<(), NoMemory>
    ensures { OnOk result (keys.new.items ≡ keys.old.items ++ map (λ mutation. mutation.key) mutations.items) }
{
    for mutation in mutations {
        keys.push(mutation.into_key())?;
    }
    Ok(())
}

/// The keys of the shards, in their order.
fn success_keys(alloc: Global, shards: Vec<Locked>) -> std::result::Result<Vec<Key>, NoMemory>
    ensures { IfOk result (λ keys. keys.items ≡ flat_map keys_of shards.items) }
{
    let mut keys = Vec::new(alloc);
    for shard in shards {
        add_keys(&mut keys, shard.1.into_vec())?;
    }
    Ok(keys)
}

/// A lock that failed with an error, and succeeded at the shards.
fn lock_error(
    alloc: Global,
    inner: Error,
    shards: Vec<Locked>,
) -> std::result::Result<Error, NoMemory>
    ensures { IfOk result (IsLockError inner (flat_map keys_of shards.items)) }
{
    let success_keys = success_keys(alloc, shards)?;
    Ok(Error::PessimisticLockError {
        inner: Box::new(alloc, inner)?,
        success_keys,
    })
}

/// Adds the first keys with their values, where these are not empty.
fn add_nonempty(
    pairs: &mut Vec<KvPair>,
    mutations: Vec<Mutation>,
    values: Vec<Value>,
) -> std::result::Result<(), NoMemory>
    ensures { OnOk result (pairs.new.items ≡ pairs.old.items ++ found_of (map (λ mutation. mutation.key) mutations.items) values.items []) }
{
    let mut mutations = mutations.into_iter();
    for value in values {
        let Some(mutation) = mutations.next() else {
            return Ok(());
        };
        if !value.as_slice().is_empty() {
            pairs.push(KvPair(mutation.into_key(), value))?;
        }
    }
    Ok(())
}

/// Adds the first keys with their values, where their flags are false.
fn add_unflagged(
    pairs: &mut Vec<KvPair>,
    mutations: Vec<Mutation>,
    values: Vec<Value>,
    not_founds: Vec<bool>,
) -> std::result::Result<(), NoMemory>
    ensures { OnOk result (pairs.new.items ≡ pairs.old.items ++ unflagged (paired (map (λ mutation. mutation.key) mutations.items) values.items) not_founds.items) }
{
    let mut mutations = mutations.into_iter();
    let mut not_founds = not_founds.into_iter();
    for value in values {
        let Some(mutation) = mutations.next() else {
            return Ok(());
        };
        let Some(not_found) = not_founds.next() else {
            return Ok(());
        };
        if !not_found {
            pairs.push(KvPair(mutation.into_key(), value))?;
        }
    }
    Ok(())
}

/// Refuses more values than keys, and flags of another number than the values.
fn check_numbers(keys: usize, values: usize, flags: usize) -> Result<()>
    ensures ok { OnOk result (misfit_of keys values flags ≡ None) }
    ensures err { IfErr result (λ error. misfit_of keys values flags ≡ Some error) }
{
    if keys < values {
        Err(misshapen(keys as u64, values as u64))
    } else if flags == 0 || flags == values {
        Ok(())
    } else {
        Err(misshapen(values as u64, flags as u64))
    }
}

/// Adds the pairs of a shard that has as many keys, values and flags as it has to.
fn add_found(pairs: &mut Vec<KvPair>, shard: Locked) -> std::result::Result<(), NoMemory>
    ensures { OnOk result (pairs.new.items ≡ pairs.old.items ++ pairs_of shard) }
{
    let ResponseWithShard(reply, mutations) = shard;
    let mutations = mutations.into_vec();
    let (values, not_founds) = reply.into_values();
    let values = values.into_vec();
    let not_founds = not_founds.into_vec();
    if not_founds.is_empty() {
        add_nonempty(pairs, mutations, values)
    } else {
        add_unflagged(pairs, mutations, values, not_founds)
    }
}

/// Adds the pairs of a shard, or refuses it.
fn add_shard(pairs: &mut Vec<KvPair>, shard: Locked) -> Result<()>
    ensures ok { OnOk result ((misfit shard ≡ None) × (pairs.new.items ≡ pairs.old.items ++ pairs_of shard)) }
    ensures err { IfErr result (λ error. (error ≡ OutOfMemory) ⊎ (misfit shard ≡ Some error)) }
{
    check_numbers(
        shard.1.len(),
        shard.0.values.len(),
        shard.0.not_founds.len(),
    )?;
    Ok(add_found(pairs, shard)?)
}

/// The pairs of the shards, in their order.
fn collect_pairs(alloc: Global, shards: Vec<Locked>) -> Result<Vec<KvPair>>
    ensures { UnlessMemory (Collected shards.items) result }
{
    let mut pairs = Vec::new(alloc);
    for shard in shards {
        add_shard(&mut pairs, shard)?;
    }
    Ok(pairs)
}

/// The pairs of the shards, or what became of them where another one failed.
fn all_or_error(
    alloc: Global,
    shards: Vec<Locked>,
    last_error: Option<Error>,
) -> Result<Vec<KvPair>>
    ensures { UnlessMemory (LastErrorOr last_error shards.items) result }
{
    match last_error {
        None => collect_pairs(alloc, shards),
        Some(inner) => Err(lock_error(alloc, inner, shards)?),
    }
}

/// Where a shard failed, `PessimisticLockError` of the last error and the keys of the shards that succeeded.
impl Merge<ResponseWithShard<PessimisticLockResponse, Items<Mutation>>> for CollectWithShard {
    type Out = Vec<KvPair>;

    ghost merges = { λ _ results result. IsCollected results result };

    fn merge(
        &self,
        alloc: Global,
        input: Vec<Result<ResponseWithShard<PessimisticLockResponse, Items<Mutation>>>>,
    ) -> Result<Vec<KvPair>>
        ensures { UnlessMemory (IsCollected input.items) result }
    {
        let Parted { values, last_error } = part(alloc, input)?;
        all_or_error(alloc, values, last_error)
    }
}
