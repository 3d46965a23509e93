use txn_commit::SecondaryJob;
use txn_kv::{Key, KvPair, Timestamp, Value};

/// What a call of a transaction answers.
#[derive(Drop)]
pub enum TxnAnswer<P> {
    Unit,
    Value(Option<Value>),
    Exists(bool),
    Pairs(Vec<KvPair>),
    Keys(Vec<Key>),
    /// The timestamp, None where nothing was to be committed; and the job that commits the other keys, if there are any.
    Committed(Option<Timestamp>, Option<SecondaryJob<P>>),
    /// The milliseconds that the primary's lock lives.
    Ttl(u64),
}
