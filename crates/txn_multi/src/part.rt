use txn_kv::RegionVerId;

/// A plan for one shard, which has not begun, and the region that the shard lies in.
#[derive(Drop)]
pub struct Part<P: Drop> {
    pub plan: P,
    pub region: RegionVerId,
}
