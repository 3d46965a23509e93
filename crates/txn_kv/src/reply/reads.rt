//! Replies to requests that read.
ghost use Rattle.std.specs.Prelude.{◌≡◌, IfOk};

use crate::items::{Items, Value};
use crate::memory::NoMemory;
use crate::message::{KeyError, PbPair, RegionErr};
use crate::try_clone::TryClone;

#[derive(Debug, PartialEq, Eq)]
pub struct GetResponse {
    pub region_error: Option<RegionErr>,
    pub error: Option<KeyError>,
    pub value: Value,
    pub not_found: bool,
}

/// By one call, here and in the files beside this one: a derived drop is opened at each exit that holds such a value, in each crate above.
impl Drop for GetResponse {
    fn drop(self) {
        let GetResponse {
            region_error,
            error,
            value,
            not_found: _,
        } = self;
        drop(region_error);
        drop(error);
        drop(value);
    }
}

impl GetResponse {
    /// A reply is taken apart by its own methods alone, as those below.
    pub fn into_value(self) -> Value
        ensures { result ≡ self.value }
    {
        let GetResponse {
            region_error,
            error,
            value,
            not_found: _,
        } = self;
        drop(region_error);
        drop(error);
        value
    }

    /// The same reply, in new memory.
    pub fn try_clone(&self) -> Result<GetResponse, NoMemory>
        ensures { IfOk result (λ copy. copy ≡ self.now) }
    {
        Ok(GetResponse {
            region_error: self.region_error.try_clone()?,
            error: self.error.try_clone()?,
            value: self.value.try_clone()?,
            not_found: self.not_found,
        })
    }
}

/// A pair for each asked key that has a value, or whose lock stands in the way.
#[derive(Debug, PartialEq, Eq)]
pub struct BatchGetResponse {
    pub region_error: Option<RegionErr>,
    pub error: Option<KeyError>,
    pub pairs: Items<PbPair>,
}

impl Drop for BatchGetResponse {
    fn drop(self) {
        let BatchGetResponse {
            region_error,
            error,
            pairs,
        } = self;
        drop(region_error);
        drop(error);
        drop(pairs);
    }
}

impl BatchGetResponse {
    pub fn into_pairs(self) -> Items<PbPair>
        ensures { result ≡ self.pairs }
    {
        let BatchGetResponse {
            region_error,
            error,
            pairs,
        } = self;
        drop(region_error);
        drop(error);
        pairs
    }

    /// The same reply, in new memory.
    pub fn try_clone(&self) -> Result<BatchGetResponse, NoMemory>
        ensures { IfOk result (λ copy. copy ≡ self.now) }
    {
        Ok(BatchGetResponse {
            region_error: self.region_error.try_clone()?,
            error: self.error.try_clone()?,
            pairs: self.pairs.try_clone()?,
        })
    }
}

#[derive(Debug, PartialEq, Eq)]
pub struct ScanResponse {
    pub region_error: Option<RegionErr>,
    pub error: Option<KeyError>,
    pub pairs: Items<PbPair>,
}

impl Drop for ScanResponse {
    fn drop(self) {
        let ScanResponse {
            region_error,
            error,
            pairs,
        } = self;
        drop(region_error);
        drop(error);
        drop(pairs);
    }
}

impl ScanResponse {
    pub fn into_pairs(self) -> Items<PbPair>
        ensures { result ≡ self.pairs }
    {
        let ScanResponse {
            region_error,
            error,
            pairs,
        } = self;
        drop(region_error);
        drop(error);
        pairs
    }

    /// The same reply, in new memory.
    pub fn try_clone(&self) -> Result<ScanResponse, NoMemory>
        ensures { IfOk result (λ copy. copy ≡ self.now) }
    {
        Ok(ScanResponse {
            region_error: self.region_error.try_clone()?,
            error: self.error.try_clone()?,
            pairs: self.pairs.try_clone()?,
        })
    }
}
