//! The rows that set locks for an update, settle them, or take away all that is kept of a range.
ghost use Rattle.std.specs.Prelude.{◌≡◌, IfOk, OnOk, OnErr};
ghost use Rattle.txn_kv.specs.declared.reply.Reply.TheVariants.{PessimisticLock, ResolveLock, UnsafeDestroyRange};
ghost use Rattle.txn_model.specs.Table.{pessimistic_lock_row, resolve_lock_row, unsafe_destroy_range_row};

use crate::destroy::destroy_range;
use crate::pessimistic::{lock_for_update, not_founds, pessimistic_errors, values_for_update};
use crate::placement::region_error;
use crate::settle::settle_all;
use crate::store::ModelStore;
use txn_kv::{
    Items, NoMemory, PessimisticLockRequest, PessimisticLockResponse, Reply, ResolveLockRequest,
    ResolveLockResponse, Text, UnsafeDestroyRangeRequest, UnsafeDestroyRangeResponse,
};

impl ModelStore {
    /// Locks keys before they are written, if none conflicts.
    pub(crate) fn pessimistic_lock(
        &mut self,
        request: &PessimisticLockRequest,
    ) -> Result<Reply, NoMemory>
        ensures reply { IfOk result (λ reply. reply ≡ (pessimistic_lock_row self.old request.now).reply) }
        ensures store { OnOk result (self.new ≡ (pessimistic_lock_row self.old request.now).store) }
        ensures err { OnErr result (self.new ≡ self.old) }
    {
        let alloc = *self.cells.allocator();
        if let Some(error) = region_error(alloc, self.regions.as_slice(), request.context)? {
            return Ok(Reply::PessimisticLock(PessimisticLockResponse {
                region_error: Some(error),
                errors: Items::new(alloc),
                values: Items::new(alloc),
                not_founds: Items::new(alloc),
            }));
        }
        let errors = pessimistic_errors(alloc, self.cells.as_slice(), request)?;
        if errors.len() > 0 {
            self.max_read = self.max_read.max(request.for_update_ts);
            return Ok(Reply::PessimisticLock(PessimisticLockResponse {
                region_error: None,
                errors,
                values: Items::new(alloc),
                not_founds: Items::new(alloc),
            }));
        }
        drop(errors);
        let values = values_for_update(alloc, self.cells.as_slice(), request)?;
        let not_founds = not_founds(alloc, self.cells.as_slice(), request)?;
        lock_for_update(&mut self.cells, request)?;
        self.max_read = self.max_read.max(request.for_update_ts);
        Ok(Reply::PessimisticLock(PessimisticLockResponse {
            region_error: None,
            errors: Items::new(alloc),
            values,
            not_founds,
        }))
    }

    /// Settles the locks of starts in a region.
    pub(crate) fn resolve_lock(&mut self, request: &ResolveLockRequest) -> Result<Reply, NoMemory>
        ensures reply { IfOk result (λ reply. reply ≡ (resolve_lock_row self.old request.now).reply) }
        ensures store { OnOk result (self.new ≡ (resolve_lock_row self.old request.now).store) }
        ensures err { OnErr result (self.new ≡ self.old) }
    {
        let alloc = *self.cells.allocator();
        if let Some(error) = region_error(alloc, self.regions.as_slice(), request.context)? {
            return Ok(Reply::ResolveLock(ResolveLockResponse {
                region_error: Some(error),
                error: None,
            }));
        }
        settle_all(&mut self.cells, self.regions.as_slice(), request)?;
        Ok(Reply::ResolveLock(ResolveLockResponse {
            region_error: None,
            error: None,
        }))
    }

    /// Takes away all that is kept of a range.
    pub(crate) fn unsafe_destroy_range(&mut self, request: &UnsafeDestroyRangeRequest) -> Reply
        ensures reply { result ≡ (unsafe_destroy_range_row self.old request.now).reply }
        ensures store { self.new ≡ (unsafe_destroy_range_row self.old request.now).store }
    {
        let alloc = *self.cells.allocator();
        destroy_range(&mut self.cells, &request.start_key, &request.end_key);
        Reply::UnsafeDestroyRange(UnsafeDestroyRangeResponse {
            region_error: None,
            error: Text::from_string(String::new(alloc)),
        })
    }
}
