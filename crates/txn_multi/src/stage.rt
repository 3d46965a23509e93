use crate::cutting::Cutting;
use txn_plan::ShardPlan;

/// Where a task of a plan over many regions stands.
#[derive(Drop)]
pub enum Stage<P: ShardPlan> {
    /// It was not started.
    Fresh,
    /// A copy of its plan is under way.
    Running(P),
    /// It sleeps under this number, before its request is cut again.
    Sleeping(u64),
    /// Its request is cut into shards again.
    Cutting(Cutting<P>),
    /// It gave tasks for its parts.
    Cut,
    /// It has ended.
    Over,
    /// It gave up for want of memory.
    Stopped,
}
