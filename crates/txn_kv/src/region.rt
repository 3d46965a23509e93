ghost use Rattle.std.specs.Prelude.{◌≡◌, IfOk};
ghost use Rattle.txn_kv.specs.Region.{contains_key, context_of, epoch_or_refused, leader_or_refused, store_id_of, ver_id_of};

use crate::errors::{Error, Internal, Result};
use crate::key::Key;
use crate::memory::NoMemory;
use crate::message::{ApiVersion, Context, Peer, Region, RegionEpoch};
use crate::ticket::StoreId;
use crate::try_clone::TryClone;

/// The id of a region.
pub type RegionId = u64;

/// A region's id with its epoch.
#[derive(Clone, Copy, Debug, Default, PartialEq, Eq, Hash)]
pub struct RegionVerId {
    pub id: RegionId,
    pub conf_ver: u64,
    pub ver: u64,
}

/// A region and its leader, with keys that are not encoded.
#[derive(Debug, PartialEq, Eq)]
pub struct RegionWithLeader {
    pub region: Region,
    pub leader: Option<Peer>,
}

/// By one call: a derived drop is opened at each exit that holds such a value, in each crate above.
impl Drop for RegionWithLeader {
    fn drop(self) {
        let RegionWithLeader { region, leader: _ } = self;
        drop(region);
    }
}

impl RegionWithLeader {
    pub fn new(region: Region, leader: Option<Peer>) -> RegionWithLeader
        ensures region { result.region ≡ region }
        ensures leader { result.leader ≡ leader }
    {
        RegionWithLeader { region, leader }
    }

    pub fn into_parts(self) -> (Region, Option<Peer>)
        ensures region { result.0 ≡ self.region }
        ensures leader { result.1 ≡ self.leader }
    {
        let RegionWithLeader { region, leader } = self;
        (region, leader)
    }

    /// Whether the key lies in the region. An empty end is unbounded.
    pub fn contains(&self, key: &Key) -> bool
        ensures { result ≡ contains_key self.now.region key.now }
    {
        self.region.start_key <= *key
            && (*key < self.region.end_key || self.region.end_key.is_empty())
    }

    /// The context of a request for the region.
    pub fn context(&self) -> Result<Context>
        ensures { result ≡ context_of self.now }
    {
        let leader = self.leader_or_refused()?;
        let epoch = self.epoch_or_refused()?;
        Ok(Context {
            region_id: self.region.id,
            region_epoch: Some(epoch),
            peer: Some(leader),
            api_version: ApiVersion::V1,
        })
    }

    fn leader_or_refused(&self) -> Result<Peer>
        ensures { result ≡ leader_or_refused self.now }
    {
        match self.leader {
            Some(leader) => Ok(leader),
            None => Err(Error::LeaderNotFound {
                region_id: self.region.id,
            }),
        }
    }

    fn epoch_or_refused(&self) -> Result<RegionEpoch>
        ensures { result ≡ epoch_or_refused self.now.region }
    {
        match self.region.region_epoch {
            Some(epoch) => Ok(epoch),
            None => Err(Error::InternalError {
                what: Internal::NoEpoch { id: self.region.id },
            }),
        }
    }

    pub fn start_key(&self) -> &Key
        ensures { result.now ≡ self.now.region.start_key }
    {
        &self.region.start_key
    }

    pub fn end_key(&self) -> &Key
        ensures { result.now ≡ self.now.region.end_key }
    {
        &self.region.end_key
    }

    pub fn range(&self) -> (&Key, &Key)
        ensures start { result.0.now ≡ self.now.region.start_key }
        ensures end { result.1.now ≡ self.now.region.end_key }
    {
        (&self.region.start_key, &self.region.end_key)
    }

    pub fn id(&self) -> RegionId
        ensures { result ≡ self.now.region.id }
    {
        self.region.id
    }

    pub fn ver_id(&self) -> Result<RegionVerId>
        ensures { result ≡ ver_id_of self.now }
    {
        let epoch = self.epoch_or_refused()?;
        Ok(RegionVerId {
            id: self.region.id,
            conf_ver: epoch.conf_ver,
            ver: epoch.version,
        })
    }

    /// The store of the leader.
    pub fn get_store_id(&self) -> Result<StoreId>
        ensures { result ≡ store_id_of self.now }
    {
        Ok(self.leader_or_refused()?.store_id)
    }

    /// The same region and leader, in new memory.
    pub fn try_clone(&self) -> std::result::Result<RegionWithLeader, NoMemory>
        ensures { IfOk result (λ copy. copy ≡ self.now) }
    {
        Ok(RegionWithLeader {
            region: self.region.try_clone()?,
            leader: self.leader,
        })
    }
}
