//! Requests that read.
ghost use Rattle.std.specs.Prelude.{◌≡◌, IfOk};

use crate::items::Items;
use crate::key::Key;
use crate::memory::NoMemory;
use crate::message::Context;
use crate::try_clone::TryClone;

/// Asks for the value of a key at a version.
#[derive(Debug, PartialEq, Eq)]
pub struct GetRequest {
    pub context: Option<Context>,
    pub key: Key,
    pub version: u64,
}

/// By one call, here and in the files beside this one: a derived drop is opened at each exit that holds such a value, in each crate above.
impl Drop for GetRequest {
    fn drop(self) {
        let GetRequest {
            context: _,
            key,
            version: _,
        } = self;
        drop(key);
    }
}

impl GetRequest {
    /// The same request, in new memory.
    pub fn try_clone(&self) -> Result<GetRequest, NoMemory>
        ensures { IfOk result (λ copy. copy ≡ self.now) }
    {
        Ok(GetRequest {
            context: self.context,
            key: self.key.try_clone()?,
            version: self.version,
        })
    }
}

/// Asks for the values of keys at a version.
#[derive(Debug, PartialEq, Eq)]
pub struct BatchGetRequest {
    pub context: Option<Context>,
    pub keys: Items<Key>,
    pub version: u64,
}

impl Drop for BatchGetRequest {
    fn drop(self) {
        let BatchGetRequest {
            context: _,
            keys,
            version: _,
        } = self;
        drop(keys);
    }
}

impl BatchGetRequest {
    /// The same request, in new memory.
    pub fn try_clone(&self) -> Result<BatchGetRequest, NoMemory>
        ensures { IfOk result (λ copy. copy ≡ self.now) }
    {
        Ok(BatchGetRequest {
            context: self.context,
            keys: self.keys.try_clone()?,
            version: self.version,
        })
    }
}

/// Asks for the first `limit` pairs of a range at a version. Where `reverse`, the range is below `start_key` and from `end_key`
/// on, and the pairs descend.
#[derive(Debug, PartialEq, Eq)]
pub struct ScanRequest {
    pub context: Option<Context>,
    pub start_key: Key,
    pub end_key: Key,
    pub limit: u64,
    pub key_only: bool,
    pub version: u64,
    pub reverse: bool,
}

impl Drop for ScanRequest {
    fn drop(self) {
        let ScanRequest {
            context: _,
            start_key,
            end_key,
            limit: _,
            key_only: _,
            version: _,
            reverse: _,
        } = self;
        drop(start_key);
        drop(end_key);
    }
}

impl ScanRequest {
    /// The same request, in new memory.
    pub fn try_clone(&self) -> Result<ScanRequest, NoMemory>
        ensures { IfOk result (λ copy. copy ≡ self.now) }
    {
        Ok(ScanRequest {
            context: self.context,
            start_key: self.start_key.try_clone()?,
            end_key: self.end_key.try_clone()?,
            limit: self.limit,
            key_only: self.key_only,
            version: self.version,
            reverse: self.reverse,
        })
    }
}
