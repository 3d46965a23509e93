use txn_kv::Backoff;

/// Where a task of a plan over all stores stands.
#[derive(Clone, Copy, Debug, PartialEq, Eq)]
pub enum Stage {
    /// It was not started.
    Fresh,
    /// Its plan is under way.
    Running,
    /// It sleeps under this number. A task with this backoff stands in its place then.
    Sleeping { number: u64, backoff: Backoff },
    /// It gave the task that stands in its place.
    Again,
    Over,
    /// It gave up for want of memory.
    Stopped,
}
