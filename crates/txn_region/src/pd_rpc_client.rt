ghost use Rattle.std.specs.Prelude.{◌≡◌, Ok, false, refl};
ghost use Rattle.txn_kv.specs.Region.{store_id_of};
ghost use Rattle.txn_region.specs.Cache.{empty, with_leader, without_region};
ghost use Rattle.txn_region.specs.Placement.{IsText, IsUnknown, Learns};
ghost use Rattle.txn_region.specs.RpcClient.{looked_on, LookedUp};

use crate::codec::Codec;
use crate::pd_client::PdClient;
use crate::placement::Placement;
use crate::store::{RegionStore, Store};
use std::alloc::Global;
use txn_kv::{
    Key, Look, PdAnswer, PdQuery, Peer, RegionId, RegionVerId, RegionWithLeader, Result, Timestamp,
};
use txn_tso::{Cluster, PdCall, RetryClient};

/// A client of the placement driver of a cluster. Keys are encoded before they are looked up where `enable_mvcc_codec` says so,
/// and the keys of answered regions are decoded then.
///
/// A region is believed in only if it can be given out: an answered one whose keys do not decode, or that has no leader, is
/// refused when it is learnt, and is not kept. What it took the place of is gone.
pub struct PdRpcClient<Cod: Codec> {
    pd: RetryClient,
    placement: Placement,
    codec: Cod,
}

impl<Cod: Codec> Drop for PdRpcClient<Cod> {
    fn drop(self) {
        let PdRpcClient {
            pd,
            placement,
            codec,
        } = self;
        drop(pd);
        drop(placement);
        drop(codec);
    }
}

impl<Cod: Codec> PdRpcClient<Cod> {
    /// Connected just now, at `now` milliseconds, and without any belief. Takes no memory.
    pub fn new(
        alloc: Global,
        cluster_id: u64,
        now: u64,
        enable_mvcc_codec: bool,
        codec: Cod,
    ) -> PdRpcClient<Cod>
        ensures connection { result.pd ≡ record { cluster = record { id = cluster_id }; last_connected = now; connecting = false } }
        ensures placement { result.placement ≡ record { cache = empty; encodes = enable_mvcc_codec } }
        ensures codec { result.codec ≡ codec }
    {
        PdRpcClient {
            pd: RetryClient::new(Cluster { id: cluster_id }, now),
            placement: Placement::new(alloc, enable_mvcc_codec),
            codec,
        }
    }

    /// Another codec from now on.
    pub fn set_codec(&mut self, codec: Cod)
        ensures { self.new ≡ record self.old { codec = codec } }
    {
        self.codec = codec;
    }
}

impl<Cod: Codec> PdClient for PdRpcClient<Cod> {
    type Codec = Cod;

    ghost asks = { λ c. IsUnknown c.placement.cache };

    // A look-up by id gives up after five waits.
    ghost refuses = { λ _. IsText };

    ghost is_at = { λ _ region store. store_id_of region ≡ Ok store };

    ghost looked = { LookedUp };

    ghost learns = { λ q a old new. Learns old.placement.encodes q a old.placement.cache new.placement.cache × (new.placement.encodes ≡ old.placement.encodes) × (new.pd ≡ old.pd) × (new.codec ≡ old.codec) };

    ghost leads = { λ v leader old new. new ≡ record old { placement = record old.placement { cache = with_leader v leader old.placement.cache } } };

    ghost drops = { λ v old new. new ≡ record old { placement = record old.placement { cache = without_region v old.placement.cache } } };

    ghost connection = { λ c. c.pd };

    ghost with_connection = { λ c w. record c { pd = w } };

    ghost codec = { λ c. c.codec };

    fn region_for_key(&mut self, key: &Key) -> Result<Look<RegionWithLeader>> {
        self.placement.region_for_key(key)
    }

    fn region_for_id(&mut self, id: RegionId, waited: u32) -> Result<Look<RegionWithLeader>> {
        self.placement.region_for_id(id, waited)
    }

    fn map_region_to_store(&mut self, region: RegionWithLeader) -> Result<Look<RegionStore>> {
        self.placement.map_region_to_store(region)
    }

    fn all_stores(&mut self) -> Result<Look<Vec<Store>>> {
        Ok(Look::Query(PdQuery::Stores))
    }

    fn get_timestamp(&mut self) -> Look<Timestamp> {
        Look::Query(PdQuery::Time)
    }

    fn update_safepoint(&mut self, safepoint: u64) -> Look<bool> {
        Look::Query(PdQuery::Safepoint(safepoint))
    }

    fn call(&self, query: PdQuery) -> PdCall {
        PdCall::new(query)
    }

    fn retry_client(&mut self) -> &mut RetryClient {
        &mut self.pd
    }

    fn learn(&mut self, query: &PdQuery, answer: &Result<PdAnswer>) -> Result<()> {
        self.placement.learn(query, answer)
    }

    fn update_leader(&mut self, ver_id: &RegionVerId, leader: Peer) -> Result<()> {
        self.placement.update_leader(ver_id, leader);
        Ok(())
    }

    fn invalidate_region_cache(&mut self, ver_id: &RegionVerId) {
        self.placement.invalidate_region_cache(ver_id);
    }

    fn get_codec(&self) -> &Cod {
        &self.codec
    }

    ghost looked_same = { λ _. record { regions = refl; stores = refl; encodes = refl; codec = refl } };

    ghost looked_on = { λ a b c h k. looked_on a b c h k };

    ghost looked_lent = { λ _ _. record { regions = refl; stores = refl; encodes = refl; codec = refl } };

    ghost connection_lent = { λ _ _. refl };

    ghost connection_same = { λ _. refl };
}
