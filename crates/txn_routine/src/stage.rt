/// Where a routine stands.
#[derive(Drop)]
pub enum Stage<P> {
    /// It was not started.
    Fresh,
    /// This plan of it is under way.
    Running(P),
    /// It has answered.
    Over,
    /// It gave up for want of memory.
    Stopped,
}
