//! Requests about regions and stores, for timestamps, and for what is cleaned.
ghost use Rattle.std.specs.Prelude.{◌≡◌, IfOk};

use crate::key::Key;
use crate::memory::NoMemory;
use crate::message::Context;
use crate::try_clone::TryClone;

/// Takes away all that the store keeps of a range.
#[derive(Debug, PartialEq, Eq)]
pub struct UnsafeDestroyRangeRequest {
    pub context: Option<Context>,
    pub start_key: Key,
    pub end_key: Key,
}

impl Drop for UnsafeDestroyRangeRequest {
    fn drop(self) {
        let UnsafeDestroyRangeRequest {
            context: _,
            start_key,
            end_key,
        } = self;
        drop(start_key);
        drop(end_key);
    }
}

impl UnsafeDestroyRangeRequest {
    /// The same request, in new memory.
    pub fn try_clone(&self) -> Result<UnsafeDestroyRangeRequest, NoMemory>
        ensures { IfOk result (λ copy. copy ≡ self.now) }
    {
        Ok(UnsafeDestroyRangeRequest {
            context: self.context,
            start_key: self.start_key.try_clone()?,
            end_key: self.end_key.try_clone()?,
        })
    }
}

/// Asks for the region that holds an encoded key.
#[derive(Debug, PartialEq, Eq)]
pub struct GetRegionRequest {
    pub region_key: Key,
}

impl Drop for GetRegionRequest {
    fn drop(self) {
        let GetRegionRequest { region_key } = self;
        drop(region_key);
    }
}

impl GetRegionRequest {
    /// The same request, in new memory.
    pub fn try_clone(&self) -> Result<GetRegionRequest, NoMemory>
        ensures { IfOk result (λ copy. copy ≡ self.now) }
    {
        Ok(GetRegionRequest {
            region_key: self.region_key.try_clone()?,
        })
    }
}

/// Asks for the region of this id.
#[derive(Clone, Copy, Debug, PartialEq, Eq)]
pub struct GetRegionByIdRequest {
    pub region_id: u64,
}

#[derive(Clone, Copy, Debug, PartialEq, Eq)]
pub struct GetStoreRequest {
    pub store_id: u64,
}

#[derive(Clone, Copy, Debug, PartialEq, Eq)]
pub struct GetAllStoresRequest;

/// Raises the safe point.
#[derive(Clone, Copy, Debug, PartialEq, Eq)]
pub struct UpdateGcSafePointRequest {
    pub safe_point: u64,
}

/// Asks for `count` timestamps.
#[derive(Clone, Copy, Debug, PartialEq, Eq)]
pub struct TsoRequest {
    pub count: u32,
}

/// Asks for the members of the placement driver.
#[derive(Clone, Copy, Debug, PartialEq, Eq)]
pub struct MembersRequest;
