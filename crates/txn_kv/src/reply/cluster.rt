//! Replies about regions and stores, with timestamps, and about what is cleaned.
ghost use Rattle.std.specs.Prelude.{◌≡◌, IfOk};

use crate::items::Items;
use crate::memory::NoMemory;
use crate::message::{Peer, Region, RegionErr, StoreMeta};
use crate::text::Text;
use crate::timestamp::Timestamp;
use crate::try_clone::TryClone;

/// `error` is empty where the range is gone.
#[derive(Debug, PartialEq, Eq)]
pub struct UnsafeDestroyRangeResponse {
    pub region_error: Option<RegionErr>,
    pub error: Text,
}

impl Drop for UnsafeDestroyRangeResponse {
    fn drop(self) {
        let UnsafeDestroyRangeResponse {
            region_error,
            error,
        } = self;
        drop(region_error);
        drop(error);
    }
}

impl UnsafeDestroyRangeResponse {
    /// The same reply, in new memory.
    pub fn try_clone(&self) -> Result<UnsafeDestroyRangeResponse, NoMemory>
        ensures { IfOk result (λ copy. copy ≡ self.now) }
    {
        Ok(UnsafeDestroyRangeResponse {
            region_error: self.region_error.try_clone()?,
            error: self.error.try_clone()?,
        })
    }
}

/// The asked region, if there is one, with encoded keys.
#[derive(Debug, PartialEq, Eq)]
pub struct GetRegionResponse {
    pub region: Option<Region>,
    pub leader: Option<Peer>,
}

impl Drop for GetRegionResponse {
    fn drop(self) {
        let GetRegionResponse { region, leader: _ } = self;
        drop(region);
    }
}

impl GetRegionResponse {
    pub fn into_parts(self) -> (Option<Region>, Option<Peer>)
        ensures region { result.0 ≡ self.region }
        ensures leader { result.1 ≡ self.leader }
    {
        let GetRegionResponse { region, leader } = self;
        (region, leader)
    }

    /// The same reply, in new memory.
    pub fn try_clone(&self) -> Result<GetRegionResponse, NoMemory>
        ensures { IfOk result (λ copy. copy ≡ self.now) }
    {
        Ok(GetRegionResponse {
            region: self.region.try_clone()?,
            leader: self.leader,
        })
    }
}

#[derive(Debug, PartialEq, Eq)]
pub struct GetStoreResponse {
    pub store: StoreMeta,
}

impl Drop for GetStoreResponse {
    fn drop(self) {
        let GetStoreResponse { store } = self;
        drop(store);
    }
}

impl GetStoreResponse {
    pub fn into_store(self) -> StoreMeta
        ensures { result ≡ self.store }
    {
        let GetStoreResponse { store } = self;
        store
    }

    /// The same reply, in new memory.
    pub fn try_clone(&self) -> Result<GetStoreResponse, NoMemory>
        ensures { IfOk result (λ copy. copy ≡ self.now) }
    {
        Ok(GetStoreResponse {
            store: self.store.try_clone()?,
        })
    }
}

#[derive(Debug, PartialEq, Eq)]
pub struct GetAllStoresResponse {
    pub stores: Items<StoreMeta>,
}

impl Drop for GetAllStoresResponse {
    fn drop(self) {
        let GetAllStoresResponse { stores } = self;
        drop(stores);
    }
}

impl GetAllStoresResponse {
    pub fn into_stores(self) -> Items<StoreMeta>
        ensures { result ≡ self.stores }
    {
        let GetAllStoresResponse { stores } = self;
        stores
    }

    /// The same reply, in new memory.
    pub fn try_clone(&self) -> Result<GetAllStoresResponse, NoMemory>
        ensures { IfOk result (λ copy. copy ≡ self.now) }
    {
        Ok(GetAllStoresResponse {
            stores: self.stores.try_clone()?,
        })
    }
}

/// The greater of the asked safe point and the one that stood.
#[derive(Clone, Copy, Debug, PartialEq, Eq)]
pub struct UpdateGcSafePointResponse {
    pub new_safe_point: u64,
}

/// The last of `count` timestamps, which follow one another.
#[derive(Clone, Copy, Debug, PartialEq, Eq)]
pub struct TsoResponse {
    pub count: u32,
    pub timestamp: Option<Timestamp>,
}

#[derive(Clone, Copy, Debug, PartialEq, Eq)]
pub struct MembersResponse;
