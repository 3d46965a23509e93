use txn_kv::{Items, Key, Mutation, Value};

/// What a line asks of a transaction.
#[derive(Debug, Drop)]
pub enum Act {
    Put(Key, Value),
    Insert(Key, Value),
    Delete(Key),
    Mutate(Items<Mutation>),
    Lock(Items<Key>),
    Commit,
    Rollback,
}
