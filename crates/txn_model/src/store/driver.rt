//! The rows of the placement driver and of the oracle.
ghost use Rattle.std.specs.Prelude.{◌≡◌, IfOk};
ghost use Rattle.txn_model.specs.Table.{get_region_row, get_region_by_id_row, get_store_row, get_all_stores_row, tso_row, update_gc_safe_point_row, CanCount};

use crate::placement::{last_timestamp, told_region, told_region_with_id, told_store, told_stores};
use crate::store::ModelStore;
use txn_kv::{
    GetAllStoresRequest, GetAllStoresResponse, GetRegionByIdRequest, GetRegionRequest,
    GetStoreRequest, GetStoreResponse, NoMemory, Reply, Timestamp, TimestampExt, TsoRequest,
    TsoResponse, UpdateGcSafePointRequest, UpdateGcSafePointResponse,
};

impl ModelStore {
    /// The region that holds a key.
    pub(crate) fn get_region(&self, request: &GetRegionRequest) -> Result<Reply, NoMemory>
        ensures { IfOk result (λ reply. reply ≡ (get_region_row self.now request.now).reply) }
    {
        let region = told_region(self.regions.as_slice(), &request.region_key)?;
        Ok(Reply::GetRegion(region))
    }

    /// The region of an id.
    pub(crate) fn get_region_by_id(&self, request: GetRegionByIdRequest) -> Result<Reply, NoMemory>
        ensures { IfOk result (λ reply. reply ≡ (get_region_by_id_row self.now request).reply) }
    {
        let region = told_region_with_id(self.regions.as_slice(), request.region_id)?;
        Ok(Reply::GetRegionById(region))
    }

    /// The store of an id.
    pub(crate) fn get_store(&self, request: GetStoreRequest) -> Result<Reply, NoMemory>
        ensures { IfOk result (λ reply. reply ≡ (get_store_row self.now request).reply) }
    {
        let alloc = *self.cells.allocator();
        let store = told_store(alloc, self.stores.as_slice(), request.store_id)?;
        Ok(Reply::GetStore(GetStoreResponse { store }))
    }

    /// All of the stores.
    pub(crate) fn get_all_stores(&self, request: GetAllStoresRequest) -> Result<Reply, NoMemory>
        ensures { IfOk result (λ reply. reply ≡ (get_all_stores_row self.now request).reply) }
    {
        let alloc = *self.cells.allocator();
        let stores = told_stores(alloc, self.stores.as_slice())?;
        Ok(Reply::GetAllStores(GetAllStoresResponse { stores }))
    }

    /// The last of the next `count` timestamps.
    pub(crate) fn tso(&mut self, request: TsoRequest) -> Reply
        requires { CanCount self.old request }
        ensures reply { result ≡ (tso_row self.old request).reply }
        ensures store { self.new ≡ (tso_row self.old request).store }
    {
        self.last = last_timestamp(self.last, self.clock, request.count);
        Reply::Tso(TsoResponse {
            count: request.count,
            timestamp: Some(Timestamp::from_version(self.last)),
        })
    }

    /// The safe point becomes the greater.
    pub(crate) fn update_gc_safe_point(&mut self, request: UpdateGcSafePointRequest) -> Reply
        ensures reply { result ≡ (update_gc_safe_point_row self.old request).reply }
        ensures store { self.new ≡ (update_gc_safe_point_row self.old request).store }
    {
        self.safepoint = self.safepoint.max(request.safe_point);
        Reply::UpdateGcSafePoint(UpdateGcSafePointResponse {
            new_safe_point: self.safepoint,
        })
    }
}
