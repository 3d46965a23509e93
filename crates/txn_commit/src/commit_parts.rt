ghost use Rattle.std.specs.Prelude.{◌≡◌, IfOk, is_some, option_map, Option};
ghost use Rattle.txn_commit.specs.Parts.{locks, named_primary, parts_of, parts_under, secondary_keys};

use std::alloc::Global;
use txn_buffer::Buffer;
use txn_kv::{Items, Key, Mutation, NoMemory, Op};

/// What a commit or a rollback of a transaction works on, as its buffer has it.
#[derive(Debug, PartialEq, Eq)]
pub struct CommitParts {
    /// All that is to be prewritten, in the order of keys.
    pub mutations: Items<Mutation>,
    /// The key whose lock the locks of all others name.
    pub primary: Key,
    /// The other keys that are locked, in their order.
    pub secondaries: Items<Key>,
    /// Whether any key is locked; the primary is then.
    pub locks: bool,
}

impl Drop for CommitParts {
    fn drop(self) {
        let CommitParts {
            mutations,
            primary,
            secondaries,
            locks: _,
        } = self;
        drop(mutations);
        drop(primary);
        drop(secondaries);
    }
}

impl CommitParts {
    /// None where there is nothing to prewrite.
    pub fn of_buffer(alloc: Global, buffer: &Buffer) -> Result<Option<CommitParts>, NoMemory>
        ensures { IfOk result (λ parts. parts ≡ parts_of buffer.now) }
    {
        let mutations = Items::from_vec(buffer.to_proto_mutations()?);
        match named_primary(buffer, mutations.as_slice())? {
            None => Ok(None),
            Some(primary) => {
                let secondaries = secondary_keys(alloc, mutations.as_slice(), &primary)?;
                Ok(Some(CommitParts {
                    mutations,
                    primary,
                    secondaries,
                    locks: buffer.primary_for_commit().is_some(),
                }))
            }
        }
    }

    /// The other keys alone.
    pub fn into_secondaries(self) -> Items<Key>
        ensures { result ≡ self.secondaries }
    {
        let CommitParts {
            mutations,
            primary,
            secondaries,
            locks: _,
        } = self;
        drop(mutations);
        drop(primary);
        secondaries
    }
}

/// The key that the prewrites name as the primary, if there is anything to prewrite.
fn named_primary(buffer: &Buffer, mutations: &[Mutation]) -> Result<Option<Key>, NoMemory>
    ensures { IfOk result (λ key. key ≡ named_primary buffer.now mutations.now) }
{
    match mutations.first() {
        None => Ok(None),
        Some(first) => {
            let set = buffer.get_primary_key().unwrap_or(&first.key);
            let primary = buffer.primary_for_commit().unwrap_or(set);
            Ok(Some(primary.try_clone()?))
        }
    }
}

/// The keys that the mutations lock, but for the primary.
fn secondary_keys(
    alloc: Global,
    mutations: &[Mutation],
    primary: &Key,
) -> Result<Items<Key>, NoMemory>
    ensures { IfOk result (λ keys. keys ≡ secondary_keys primary.now mutations.now) }
{
    let mut keys = Items::new(alloc);
    for mutation in mutations {
        if locks(mutation) && mutation.key != *primary {
            keys.push(mutation.key.try_clone()?)?;
        }
    }
    Ok(keys)
}

/// Whether a mutation locks its key: all do but a check.
fn locks(mutation: &Mutation) -> bool
    ensures { result ≡ locks mutation.now }
{
    mutation.op != Op::CheckNotExists
}
