//! Lines by what they ask: many kinds of line ask the same of those who run them.
ghost use Rattle.std.specs.Prelude.{◌≡◌};
ghost use Rattle.txn_lines.specs.Deeds.{deed_of};

use crate::act::Act;
use crate::client_act::ClientAct;
use crate::happening::Happening;
use crate::line::Line;

/// What a line asks. Clients and transactions are named by the numbers of the lines that made them.
#[derive(Debug, Drop)]
pub enum Deed {
    /// Nothing: it is empty or a comment.
    Nothing,
    /// A client is made.
    Connect,
    /// Something is asked of a client.
    Ask(u64, ClientAct),
    /// Something is asked of a transaction.
    Use(u64, Act),
    /// Something happens that no client asked for.
    Happens(Happening),
}

impl Line {
    /// What the line asks.
    pub fn deed(self) -> Deed
        ensures { result ≡ deed_of self }
    {
        match self {
            Line::Blank => Deed::Nothing,
            Line::Client => Deed::Connect,
            Line::Begin { client, options } => Deed::Ask(client, ClientAct::Begin(options)),
            Line::Timestamp { client } => Deed::Ask(client, ClientAct::Timestamp),
            Line::Put {
                transaction,
                key,
                value,
            } => Deed::Use(transaction, Act::Put(key, value)),
            Line::Insert {
                transaction,
                key,
                value,
            } => Deed::Use(transaction, Act::Insert(key, value)),
            Line::Delete { transaction, key } => Deed::Use(transaction, Act::Delete(key)),
            Line::Mutate {
                transaction,
                mutations,
            } => Deed::Use(transaction, Act::Mutate(mutations)),
            Line::Lock { transaction, keys } => Deed::Use(transaction, Act::Lock(keys)),
            Line::Commit { transaction } => Deed::Use(transaction, Act::Commit),
            Line::Rollback { transaction } => Deed::Use(transaction, Act::Rollback),
            Line::Serve { ticket } => Deed::Happens(Happening::Serve(ticket)),
            Line::Answer { ticket } => Deed::Happens(Happening::Answer(ticket)),
            Line::Deliver { ticket } => Deed::Happens(Happening::Deliver(ticket)),
            Line::Lose { ticket } => Deed::Happens(Happening::Lose(ticket)),
            Line::Busy { ticket } => Deed::Happens(Happening::Busy(ticket)),
            Line::Wake { ticket } => Deed::Happens(Happening::Wake(ticket)),
            Line::Split { key } => Deed::Happens(Happening::Split(key)),
            Line::Lead { region, store } => Deed::Happens(Happening::Lead(region, store)),
            Line::Clock { ms } => Deed::Happens(Happening::Clock(ms)),
            Line::Crash { client } => Deed::Happens(Happening::Crash(client)),
        }
    }
}
