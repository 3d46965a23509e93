use crate::begin_options::BeginOptions;
use txn_kv::{Items, Key, Mutation, Ticket, Value};

/// One line of a script. Clients and transactions are named by the numbers of the lines that made them, counted from 1.
#[derive(Debug, PartialEq, Eq, Drop)]
pub enum Line {
    /// An empty line or a comment.
    Blank,
    Client,
    Begin {
        client: u64,
        options: BeginOptions,
    },
    Timestamp {
        client: u64,
    },
    Put {
        transaction: u64,
        key: Key,
        value: Value,
    },
    Insert {
        transaction: u64,
        key: Key,
        value: Value,
    },
    Delete {
        transaction: u64,
        key: Key,
    },
    /// One mutation or more.
    Mutate {
        transaction: u64,
        mutations: Items<Mutation>,
    },
    /// One key or more.
    Lock {
        transaction: u64,
        keys: Items<Key>,
    },
    Commit {
        transaction: u64,
    },
    Rollback {
        transaction: u64,
    },
    Serve {
        ticket: Ticket,
    },
    Answer {
        ticket: Ticket,
    },
    Deliver {
        ticket: Ticket,
    },
    Lose {
        ticket: Ticket,
    },
    Busy {
        ticket: Ticket,
    },
    Wake {
        ticket: Ticket,
    },
    Split {
        key: Key,
    },
    /// The store is one of 1 to 3.
    Lead {
        region: u64,
        store: u64,
    },
    Clock {
        ms: u64,
    },
    Crash {
        client: u64,
    },
}
