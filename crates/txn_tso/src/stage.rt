/// Where a call to the placement driver stands.
#[derive(Clone, Copy, Debug, PartialEq, Eq)]
pub enum Stage {
    /// It was not started yet.
    Fresh,
    /// The query is out under this number.
    Sent(u64),
    /// A timestamp is asked for, by the ask of this number.
    Asked(u64),
    /// The members are asked for under this number. So many reconnects have failed since the last try.
    Reconnecting { number: u64, failed: u32 },
    /// It sleeps under this number, before it reconnects again.
    Resting { number: u64, failed: u32 },
    /// It has answered.
    Over,
    /// It gave up for want of memory.
    Stopped,
}
