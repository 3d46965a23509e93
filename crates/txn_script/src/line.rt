use txn_kv::{Key, Ticket, Value};

/// One line of a script. Clients and transactions are named by the numbers of the lines that made them, counted from 1.
#[derive(Debug, PartialEq, Eq, Drop)]
pub enum Line {
    /// An empty line or a comment.
    Blank,
    Client,
    Begin {
        client: u64,
    },
    Put {
        transaction: u64,
        key: Key,
        value: Value,
    },
    Commit {
        transaction: u64,
    },
    Deliver {
        ticket: Ticket,
    },
}
