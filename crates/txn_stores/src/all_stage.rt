/// Where a plan over all stores stands.
#[derive(Clone, Copy, Debug, PartialEq, Eq)]
pub enum AllStage {
    /// It was not started.
    Fresh,
    /// The stores are looked up.
    Searching,
    /// The tasks run.
    Running,
    Over,
    /// It gave up for want of memory.
    Stopped,
}
