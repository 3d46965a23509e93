ghost use Rattle.std.specs.Prelude.{◌≡◌, false, true};
ghost use Rattle.txn_kv.specs.declared.query.PdQuery.TheVariants as query;
ghost use Rattle.txn_tso.specs.Placement.{fresh, may_connect};

use crate::cluster::Cluster;
use crate::pd_call::PdCall;
use txn_kv::{Key, PdQuery, RegionId, StoreId};

/// How many milliseconds have to pass between two reconnects, and how long a call sleeps after one that failed.
pub const RECONNECT_INTERVAL_MS: u64 = 1000;

/// A client's connection to the placement driver: when it was last made, in milliseconds, and whether a call of the client
/// has asked for the members and waits for them.
#[derive(Drop)]
pub struct RetryClient {
    cluster: Cluster,
    last_connected: u64,
    connecting: bool,
}

impl RetryClient {
    /// It was connected just now.
    pub fn new(cluster: Cluster, now: u64) -> RetryClient
        ensures { result ≡ record { cluster = cluster; last_connected = now; connecting = false } }
    {
        RetryClient {
            cluster,
            last_connected: now,
            connecting: false,
        }
    }

    pub fn cluster(&self) -> Cluster
        ensures { result ≡ self.now.cluster }
    {
        self.cluster
    }

    /// Whether the members are to be asked for: more than the interval has passed, and no call waits for them.
    pub fn may_connect(&self, now: u64) -> bool
        ensures { result ≡ may_connect self.now now }
    {
        !self.connecting && now.saturating_sub(self.last_connected) > RECONNECT_INTERVAL_MS
    }

    /// The members were asked for.
    pub fn begin(&mut self)
        ensures { self.new ≡ record self.old { connecting = true } }
    {
        self.connecting = true;
    }

    /// The members answered.
    pub fn connect(&mut self, now: u64)
        ensures { self.new ≡ record self.old { last_connected = now; connecting = false } }
    {
        self.last_connected = now;
        self.connecting = false;
    }

    /// The members will not answer.
    pub fn give_up(&mut self)
        ensures { self.new ≡ record self.old { connecting = false } }
    {
        self.connecting = false;
    }
}

/// Queries to the placement driver. Each gives a call that is not started yet.
pub trait RetryClientTrait {
    /// The key is encoded.
    fn get_region(&self, key: Key) -> PdCall
        ensures { result ≡ fresh (query.Region key) };

    fn get_region_by_id(&self, region_id: RegionId) -> PdCall
        ensures { result ≡ fresh (query.RegionId region_id) };

    fn get_store(&self, id: StoreId) -> PdCall
        ensures { result ≡ fresh (query.Store id) };

    fn get_all_stores(&self) -> PdCall
        ensures { result ≡ fresh query.Stores };

    fn get_timestamp(&self) -> PdCall
        ensures { result ≡ fresh query.Time };

    fn update_safepoint(&self, safe_point: u64) -> PdCall
        ensures { result ≡ fresh (query.Safepoint safe_point) };
}

impl RetryClientTrait for RetryClient {
    fn get_region(&self, key: Key) -> PdCall {
        PdCall::new(PdQuery::Region(key))
    }

    fn get_region_by_id(&self, region_id: RegionId) -> PdCall {
        PdCall::new(PdQuery::RegionId(region_id))
    }

    fn get_store(&self, id: StoreId) -> PdCall {
        PdCall::new(PdQuery::Store(id))
    }

    fn get_all_stores(&self) -> PdCall {
        PdCall::new(PdQuery::Stores)
    }

    fn get_timestamp(&self) -> PdCall {
        PdCall::new(PdQuery::Time)
    }

    fn update_safepoint(&self, safe_point: u64) -> PdCall {
        PdCall::new(PdQuery::Safepoint(safe_point))
    }
}
