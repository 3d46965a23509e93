use txn_core::Transaction;
use txn_kv::Timestamp;

/// What a call of a client answers.
#[derive(Drop)]
pub enum ClientAnswer<C, P> {
    /// A transaction that has just begun.
    Begun(Transaction<C, P>),
    Time(Timestamp),
}
