ghost use Rattle.std.specs.Prelude.{◌≡◌, ◌++◌, ◌∷◌, [], ◌<◌, ◌^◌, IfOk, OnOk, OnErr};
ghost use Rattle.txn_model.specs.Cells.{AreKept};
ghost use Rattle.txn_model.specs.Orderly.{AreOrderly};
ghost use Rattle.txn_model.specs.Regions.{at_clock, can_lead, can_split, lead, split};
ghost use Rattle.txn_model.specs.Store.{opening, store_up};
ghost use Rattle.txn_model.specs.Table.{table, commit_row, CanServe};

mod driver;
mod locks;
mod prewrites;
mod reads;
mod rollbacks;
mod statuses;

use crate::cell::Cell;
use crate::commit::{commit_all, first_error};
use crate::lead::{can_lead, lead_region};
use crate::placement::region_error;
use crate::region::StoredRegion;
use crate::split::{split_region, starts_at};
use std::alloc::Global;
use std::marker::Model;
use txn_kv::{
    CommitRequest, CommitResponse, Items, Key, MembersResponse, NoMemory, RegionEpoch, Reply,
    Request, StoreId, StoreMeta, StoreState, Text,
};

/// The store of a run: cells in the order of their keys, regions and stores, the clock in milliseconds, and the last
/// timestamp of the oracle.
#[derive(Debug)]
pub struct ModelStore {
    cells: Vec<Cell>,
    regions: Vec<StoredRegion>,
    stores: Vec<StoreMeta>,
    clock: u64,
    last: u64,
    max_read: u64,
    safepoint: u64,
}

/// By one call: a derived drop is opened at each exit that holds such a value, in each crate above.
impl Drop for ModelStore {
    fn drop(self) {
        let ModelStore {
            cells,
            regions,
            stores,
            clock: _,
            last: _,
            max_read: _,
            safepoint: _,
        } = self;
        drop(cells);
        drop(regions);
        drop(stores);
    }
}

impl Model for ModelStore {
    ghost use Rattle.txn_model.specs.Store.{Store};

    ghost Value = { Store };

    ghost use Rattle.txn_model.specs.InOrder.{IsInOrder};

    ghost view = { λ s. record {
      cells = s.cells.items;
      regions = s.regions.items;
      stores = s.stores.items;
      clock = s.clock;
      last = s.last;
      max_read = s.max_read;
      safepoint = s.safepoint;
    } };

    ghost invariant = { λ s. IsInOrder s.cells.items s.regions.items s.clock };
}

/// One store more, which is up.
fn add_store(stores: &mut Vec<StoreMeta>, id: u64, name: &str) -> Result<(), NoMemory>
    ensures { OnOk result (stores.new.items ≡ stores.old.items ++ store_up id name.now ∷ []) }
{
    let alloc = *stores.allocator();
    stores.push(StoreMeta {
        id,
        address: Text::from_string(String::from_str(alloc, name)?),
        state: StoreState::Up,
        labels: Items::new(alloc),
    })?;
    Ok(())
}

impl ModelStore {
    /// The opening store.
    pub fn new(alloc: Global) -> Result<ModelStore, NoMemory>
        ensures { IfOk result (λ store. store ≡ opening) }
    {
        let mut regions = Vec::new(alloc);
        regions.push(StoredRegion {
            id: 1,
            start_key: Key::empty(alloc),
            end_key: Key::empty(alloc),
            epoch: RegionEpoch {
                conf_ver: 1,
                version: 1,
            },
            leader: 1,
        })?;
        let mut stores = Vec::new(alloc);
        add_store(&mut stores, 1, "s1")?;
        add_store(&mut stores, 2, "s2")?;
        add_store(&mut stores, 3, "s3")?;
        Ok(ModelStore {
            cells: Vec::new(alloc),
            regions,
            stores,
            clock: 0,
            last: 0,
            max_read: 0,
            safepoint: 0,
        })
    }

    /// The cells, in the order of their keys.
    pub fn cells(&self) -> &[Cell]
        ensures all { result.now ≡ self.now.cells }
        ensures kept { AreKept self.now.cells }
        ensures ordered { AreOrderly self.now.cells }
    {
        self.cells.as_slice()
    }

    /// The clock, in milliseconds.
    pub fn clock(&self) -> u64
        ensures value { result ≡ self.now.clock }
        ensures bits { result < 2 ^ 44 }
    {
        self.clock
    }

    /// The last timestamp of the oracle.
    pub fn last(&self) -> u64
        ensures { result ≡ self.now.last }
    {
        self.last
    }

    /// The greatest timestamp at which was read.
    pub fn max_read(&self) -> u64
        ensures { result ≡ self.now.max_read }
    {
        self.max_read
    }

    pub fn safepoint(&self) -> u64
        ensures { result ≡ self.now.safepoint }
    {
        self.safepoint
    }

    /// Makes commits of the locks that a start holds.
    fn commit(&mut self, request: &CommitRequest) -> Result<Reply, NoMemory>
        ensures reply { IfOk result (λ reply. reply ≡ (commit_row self.old request.now).reply) }
        ensures store { OnOk result (self.new ≡ (commit_row self.old request.now).store) }
        ensures err { OnErr result (self.new ≡ self.old) }
    {
        let alloc = *self.cells.allocator();
        if let Some(error) = region_error(alloc, self.regions.as_slice(), request.context)? {
            return Ok(Reply::Commit(CommitResponse {
                region_error: Some(error),
                error: None,
                commit_version: 0,
            }));
        }
        if let Some(error) = first_error(alloc, self.cells.as_slice(), request)? {
            return Ok(Reply::Commit(CommitResponse {
                region_error: None,
                error: Some(error),
                commit_version: 0,
            }));
        }
        commit_all(&mut self.cells, request)?;
        Ok(Reply::Commit(CommitResponse {
            region_error: None,
            error: None,
            commit_version: request.commit_version,
        }))
    }

    /// Sets the clock, in milliseconds.
    pub fn set_clock(&mut self, milliseconds: u64)
        requires { milliseconds < 2 ^ 44 }
        ensures { self.new ≡ at_clock self.old milliseconds }
    {
        self.clock = milliseconds;
    }

    /// Splits the region that holds a key before it. False, and nothing changes, where a region begins at the key.
    pub fn split(&mut self, key: &Key) -> Result<bool, NoMemory>
        ensures can { IfOk result (λ did. did ≡ can_split self.old key.now) }
        ensures store { OnOk result (self.new ≡ split self.old key.now) }
        ensures err { OnErr result (self.new ≡ self.old) }
    {
        if starts_at(self.regions.as_slice(), key) {
            return Ok(false);
        }
        split_region(&mut self.regions, key)?;
        Ok(true)
    }

    /// The region is led by the store. False, and nothing changes, where the region is unknown or the store is none of
    /// the three. Takes no memory.
    pub fn lead(&mut self, region: u64, store: StoreId) -> bool
        ensures can { result ≡ can_lead self.old region store }
        ensures store { self.new ≡ lead self.old region store }
    {
        if !can_lead(self.regions.as_slice(), region, store) {
            return false;
        }
        lead_region(&mut self.regions, region, store);
        true
    }

    /// Does what a request to a store or to the placement driver asks and replies to it. Want of memory changes nothing.
    pub fn serve(&mut self, request: &Request) -> Result<Reply, NoMemory>
        requires { CanServe self.old request.now }
        ensures reply { IfOk result (λ reply. reply ≡ (table self.old request.now).reply) }
        ensures store { OnOk result (self.new ≡ (table self.old request.now).store) }
        ensures err { OnErr result (self.new ≡ self.old) }
    {
        match request {
            Request::Get(request) => self.get(request),
            Request::BatchGet(request) => self.batch_get(request),
            Request::Scan(request) => self.scan(request),
            Request::Prewrite(request) => self.prewrite(request),
            Request::Commit(request) => self.commit(request),
            Request::Cleanup(request) => self.cleanup(request),
            Request::BatchRollback(request) => self.batch_rollback(request),
            Request::PessimisticRollback(request) => self.pessimistic_rollback(request),
            Request::PessimisticLock(request) => self.pessimistic_lock(request),
            Request::ResolveLock(request) => self.resolve_lock(request),
            Request::ScanLock(request) => self.scan_lock(request),
            Request::TxnHeartBeat(request) => self.txn_heart_beat(request),
            Request::CheckTxnStatus(request) => self.check_txn_status(request),
            Request::CheckSecondaryLocks(request) => self.check_secondary_locks(request),
            Request::UnsafeDestroyRange(request) => Ok(self.unsafe_destroy_range(request)),
            Request::GetRegion(request) => self.get_region(request),
            Request::GetRegionById(request) => self.get_region_by_id(*request),
            Request::GetStore(request) => self.get_store(*request),
            Request::GetAllStores(request) => self.get_all_stores(*request),
            Request::UpdateGcSafePoint(request) => Ok(self.update_gc_safe_point(*request)),
            Request::Tso(request) => Ok(self.tso(*request)),
            Request::Members(_) => Ok(Reply::Members(MembersResponse)),
        }
    }
}
