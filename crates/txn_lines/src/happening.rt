use txn_kv::{Key, Ticket};

/// What a line makes happen from outside: to a request or a sleep, to the cluster, or to a client.
#[derive(Debug, Drop)]
pub enum Happening {
    Serve(Ticket),
    Answer(Ticket),
    Deliver(Ticket),
    Lose(Ticket),
    Busy(Ticket),
    Wake(Ticket),
    Split(Key),
    /// A region is led by a store.
    Lead(u64, u64),
    Clock(u64),
    /// The client of a line is gone.
    Crash(u64),
}
