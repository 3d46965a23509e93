use crate::begin_options::BeginOptions;

/// What a line asks of a client.
#[derive(Debug, Drop)]
pub enum ClientAct {
    /// A transaction that begins.
    Begin(BeginOptions),
    Timestamp,
}
