use crate::cutting::Cutting;
use txn_plan::ShardPlan;

/// Where a plan over many regions stands.
#[derive(Drop)]
pub enum MultiStage<P: ShardPlan> {
    /// It was not started.
    Fresh,
    /// Its shards are looked up.
    Cutting(Cutting<P>),
    /// Its tasks run.
    Running,
    /// It has answered.
    Over,
    /// It gave up for want of memory.
    Stopped,
}
