ghost use Rattle.std.specs.Prelude.{◌≡◌, ◌⊎◌, List, [], Some, Result, IfOk, IfErr};
ghost use Rattle.txn_kv.specs.declared.errors.Error.{Error};
ghost use Rattle.txn_kv.specs.declared.errors.Error.TheVariants.{OutOfMemory};
ghost use Rattle.txn_merge.specs.Gathered.{FirstErrorOr, UnlessMemory, errors_of, first, shape, single_of, values_of};

use std::alloc::Global;
use txn_kv::{Error, Internal, NoMemory, Result, TryClone};

/// Makes one answer of many.
pub trait Merge<In>: Sized {
    type Out;

    /// What the answer is, but for want of memory.
    ghost merges: { Self → List (Result In Error) → Result Self.Out Error → Type 0 };

    fn merge(&self, alloc: Global, input: Vec<Result<In>>) -> Result<Self::Out>
        ensures { UnlessMemory (merges self.now input.items) result };
}

/// Joins what the replies hold, in the order of the shards. The first error ends it.
#[derive(Clone, Copy, Debug)]
pub struct Collect;

/// Takes the answer of a request that has exactly one shard.
#[derive(Clone, Copy, Debug)]
pub struct CollectSingle;

/// Takes all answers, or the first error.
#[derive(Clone, Copy, Debug)]
pub struct CollectError;

/// Joins the values of pessimistic locks, each beside its key. Goes with shards that are preserved.
#[derive(Clone, Debug, Drop)]
pub struct CollectWithShard;

impl TryClone for Collect {
    fn try_clone(&self) -> std::result::Result<Collect, NoMemory> {
        Ok(Collect)
    }
}

impl TryClone for CollectSingle {
    fn try_clone(&self) -> std::result::Result<CollectSingle, NoMemory> {
        Ok(CollectSingle)
    }
}

impl TryClone for CollectError {
    fn try_clone(&self) -> std::result::Result<CollectError, NoMemory> {
        Ok(CollectError)
    }
}

impl TryClone for CollectWithShard {
    fn try_clone(&self) -> std::result::Result<CollectWithShard, NoMemory> {
        Ok(CollectWithShard)
    }
}

/// Two numbers differ that have to be one.
pub fn misshapen(expected: u64, given: u64) -> Error
    ensures { result ≡ shape expected given }
{
    Error::InternalError {
        what: Internal::Shape { expected, given },
    }
}

/// The values in their order, or the first error.
pub fn gather<T: Drop>(alloc: Global, input: Vec<Result<T>>) -> Result<Vec<T>>
    ensures ok { IfOk result (λ values. (errors_of input.items ≡ []) × (values.items ≡ values_of input.items)) }
    ensures err { IfErr result (λ error. (error ≡ OutOfMemory) ⊎ (first (errors_of input.items) ≡ Some error)) }
{
    let mut values = Vec::new(alloc);
    for result in input {
        let value = result?;
        if values.push(value).is_err() {
            return Err(Error::OutOfMemory);
        }
    }
    Ok(values)
}

/// More or fewer than one result is refused with `Shape`.
impl<T: Drop> Merge<T> for CollectSingle {
    type Out = T;

    ghost merges = { λ _ results result. result ≡ single_of results };

    fn merge(&self, _alloc: Global, mut input: Vec<Result<T>>) -> Result<T>
        ensures { UnlessMemory (λ out. out ≡ single_of input.items) result }
    {
        let given = input.len();
        match input.pop() {
            Some(only) if given == 1 => only,
            _ => Err(misshapen(1, given as u64)),
        }
    }
}

impl<T: Drop> Merge<T> for CollectError {
    type Out = Vec<T>;

    ghost merges = { λ _ results result. FirstErrorOr (λ values out. out.items ≡ values) results result };

    fn merge(&self, alloc: Global, input: Vec<Result<T>>) -> Result<Vec<T>>
        ensures { UnlessMemory (FirstErrorOr (λ values out. out.items ≡ values) input.items) result }
    {
        gather(alloc, input)
    }
}
