ghost use Rattle.std.specs.Prelude.{◌≡◌};

use txn_kv::{
    GetAllStoresRequest, GetRegionByIdRequest, GetRegionRequest, GetStoreRequest, Key,
    MembersRequest, Request, TsoRequest, UpdateGcSafePointRequest,
};

/// Builds the requests to the placement driver of a cluster. None of them takes memory.
#[derive(Clone, Copy, Debug)]
pub struct Cluster {
    pub id: u64,
}

impl Cluster {
    /// Asks for the region that holds an encoded key.
    pub fn get_region(&self, key: Key) -> Request
        ensures { result ≡ Request.GetRegion (record { region_key = key }) }
    {
        Request::GetRegion(GetRegionRequest { region_key: key })
    }

    pub fn get_region_by_id(&self, region_id: u64) -> Request
        ensures { result ≡ Request.GetRegionById (record { region_id = region_id }) }
    {
        Request::GetRegionById(GetRegionByIdRequest { region_id })
    }

    pub fn get_store(&self, store_id: u64) -> Request
        ensures { result ≡ Request.GetStore (record { store_id = store_id }) }
    {
        Request::GetStore(GetStoreRequest { store_id })
    }

    pub fn get_all_stores(&self) -> Request
        ensures { result ≡ Request.GetAllStores (record {}) }
    {
        Request::GetAllStores(GetAllStoresRequest)
    }

    /// Asks for so many timestamps.
    pub fn get_timestamp(&self, count: u32) -> Request
        ensures { result ≡ Request.Tso (record { count = count }) }
    {
        Request::Tso(TsoRequest { count })
    }

    pub fn update_safepoint(&self, safe_point: u64) -> Request
        ensures { result ≡ Request.UpdateGcSafePoint (record { safe_point = safe_point }) }
    {
        Request::UpdateGcSafePoint(UpdateGcSafePointRequest { safe_point })
    }

    /// Asks for the members of the placement driver, which is how a client reconnects.
    pub fn members(&self) -> Request
        ensures { result ≡ Request.Members (record {}) }
    {
        Request::Members(MembersRequest)
    }
}
