use crate::key::Key;
use crate::message::StoreMeta;
use crate::region::{RegionId, RegionWithLeader};
use crate::ticket::StoreId;
use crate::timestamp::Timestamp;

/// What the placement driver is asked. The key is encoded.
#[derive(Debug, PartialEq, Eq)]
pub enum PdQuery {
    Region(Key),
    RegionId(RegionId),
    Store(StoreId),
    Stores,
    Time,
    Safepoint(u64),
}

/// By one call, here and below: a derived drop is opened at each exit that holds such a value, in each crate above.
impl Drop for PdQuery {
    fn drop(self) {
        match self {
            PdQuery::Region(key) => drop(key),
            PdQuery::RegionId(_) => {}
            PdQuery::Store(_) => {}
            PdQuery::Stores => {}
            PdQuery::Time => {}
            PdQuery::Safepoint(_) => {}
        }
    }
}

/// What the placement driver answers, by the kind of the query.
#[derive(Debug, PartialEq, Eq)]
pub enum PdAnswer {
    Region(RegionWithLeader),
    Store(StoreMeta),
    Stores(Vec<StoreMeta>),
    Time(Timestamp),
    Safepoint(u64),
}

impl Drop for PdAnswer {
    fn drop(self) {
        match self {
            PdAnswer::Region(region) => drop(region),
            PdAnswer::Store(store) => drop(store),
            PdAnswer::Stores(stores) => drop(stores),
            PdAnswer::Time(_) => {}
            PdAnswer::Safepoint(_) => {}
        }
    }
}
