//! The rows that read keys.
ghost use Rattle.std.specs.Prelude.{◌≡◌, IfOk, OnOk, OnErr};
ghost use Rattle.txn_kv.specs.declared.reply.Reply.TheVariants.{Get, BatchGet, Scan, ScanLock};
ghost use Rattle.txn_model.specs.Table.{get_row, batch_get_row, scan_row, scan_lock_row};

use crate::placement::region_error;
use crate::ranges::cells_in;
use crate::read::{pairs_at, read_key, told_value};
use crate::scan::{first_locks, scan_pairs};
use crate::store::ModelStore;
use txn_kv::{
    BatchGetRequest, BatchGetResponse, GetRequest, GetResponse, Items, NoMemory, Reply,
    ScanLockRequest, ScanLockResponse, ScanRequest, ScanResponse,
};

impl ModelStore {
    /// The newest value of a key at a timestamp.
    pub(crate) fn get(&mut self, request: &GetRequest) -> Result<Reply, NoMemory>
        ensures reply { IfOk result (λ reply. reply ≡ (get_row self.old request.now).reply) }
        ensures store { OnOk result (self.new ≡ (get_row self.old request.now).store) }
        ensures err { OnErr result (self.new ≡ self.old) }
    {
        let alloc = *self.cells.allocator();
        if let Some(error) = region_error(alloc, self.regions.as_slice(), request.context)? {
            return Ok(Reply::Get(GetResponse {
                region_error: Some(error),
                error: None,
                value: Items::new(alloc),
                not_found: false,
            }));
        }
        let pair = read_key(alloc, self.cells.as_slice(), &request.key, request.version)?;
        self.max_read = self.max_read.max(request.version);
        Ok(Reply::Get(told_value(alloc, pair)))
    }

    /// The newest values of keys at a timestamp.
    pub(crate) fn batch_get(&mut self, request: &BatchGetRequest) -> Result<Reply, NoMemory>
        ensures reply { IfOk result (λ reply. reply ≡ (batch_get_row self.old request.now).reply) }
        ensures store { OnOk result (self.new ≡ (batch_get_row self.old request.now).store) }
        ensures err { OnErr result (self.new ≡ self.old) }
    {
        let alloc = *self.cells.allocator();
        if let Some(error) = region_error(alloc, self.regions.as_slice(), request.context)? {
            return Ok(Reply::BatchGet(BatchGetResponse {
                region_error: Some(error),
                error: None,
                pairs: Items::new(alloc),
            }));
        }
        let keys = request.keys.as_slice();
        let pairs = pairs_at(alloc, self.cells.as_slice(), keys, request.version)?;
        self.max_read = self.max_read.max(request.version);
        Ok(Reply::BatchGet(BatchGetResponse {
            region_error: None,
            error: None,
            pairs,
        }))
    }

    /// The first pairs of a range at a timestamp.
    pub(crate) fn scan(&mut self, request: &ScanRequest) -> Result<Reply, NoMemory>
        ensures reply { IfOk result (λ reply. reply ≡ (scan_row self.old request.now).reply) }
        ensures store { OnOk result (self.new ≡ (scan_row self.old request.now).store) }
        ensures err { OnErr result (self.new ≡ self.old) }
    {
        let alloc = *self.cells.allocator();
        if let Some(error) = region_error(alloc, self.regions.as_slice(), request.context)? {
            return Ok(Reply::Scan(ScanResponse {
                region_error: Some(error),
                error: None,
                pairs: Items::new(alloc),
            }));
        }
        let pairs = scan_pairs(alloc, self.cells.as_slice(), request)?;
        self.max_read = self.max_read.max(request.version);
        Ok(Reply::Scan(ScanResponse {
            region_error: None,
            error: None,
            pairs,
        }))
    }

    /// The first locks of a range with a start of at most a timestamp.
    pub(crate) fn scan_lock(&mut self, request: &ScanLockRequest) -> Result<Reply, NoMemory>
        ensures reply { IfOk result (λ reply. reply ≡ (scan_lock_row self.old request.now).reply) }
        ensures store { OnOk result (self.new ≡ (scan_lock_row self.old request.now).store) }
        ensures err { OnErr result (self.new ≡ self.old) }
    {
        let alloc = *self.cells.allocator();
        if let Some(error) = region_error(alloc, self.regions.as_slice(), request.context)? {
            return Ok(Reply::ScanLock(ScanLockResponse {
                region_error: Some(error),
                error: None,
                locks: Items::new(alloc),
            }));
        }
        let cells = cells_in(self.cells.as_slice(), &request.start_key, &request.end_key);
        let locks = first_locks(alloc, cells, request.max_version, request.limit)?;
        Ok(Reply::ScanLock(ScanLockResponse {
            region_error: None,
            error: None,
            locks,
        }))
    }
}
