//! The rows that roll starts back.
ghost use Rattle.std.specs.Prelude.{◌≡◌, IfOk, OnOk, OnErr};
ghost use Rattle.txn_kv.specs.declared.reply.Reply.TheVariants.{BatchRollback, Cleanup, PessimisticRollback};
ghost use Rattle.txn_model.specs.Table.{batch_rollback_row, cleanup_row, pessimistic_rollback_row};

use crate::cells::commit_at;
use crate::placement::region_error;
use crate::rollback::{first_rollback_error, refusal_at};
use crate::rule::{Rule, change_all, change_one};
use crate::store::ModelStore;
use txn_kv::{
    BatchRollbackRequest, BatchRollbackResponse, CleanupRequest, CleanupResponse, Items, NoMemory,
    PessimisticRollbackRequest, PessimisticRollbackResponse, Reply,
};

impl ModelStore {
    /// Rolls a start back on keys, unless it is committed on one.
    pub(crate) fn batch_rollback(
        &mut self,
        request: &BatchRollbackRequest,
    ) -> Result<Reply, NoMemory>
        ensures reply { IfOk result (λ reply. reply ≡ (batch_rollback_row self.old request.now).reply) }
        ensures store { OnOk result (self.new ≡ (batch_rollback_row self.old request.now).store) }
        ensures err { OnErr result (self.new ≡ self.old) }
    {
        let alloc = *self.cells.allocator();
        if let Some(error) = region_error(alloc, self.regions.as_slice(), request.context)? {
            return Ok(Reply::BatchRollback(BatchRollbackResponse {
                region_error: Some(error),
                error: None,
            }));
        }
        let start = request.start_version;
        let keys = request.keys.as_slice();
        if let Some(error) = first_rollback_error(self.cells.as_slice(), start, keys)? {
            return Ok(Reply::BatchRollback(BatchRollbackResponse {
                region_error: None,
                error: Some(error),
            }));
        }
        change_all(&mut self.cells, Rule::RollBack(start), keys)?;
        Ok(Reply::BatchRollback(BatchRollbackResponse {
            region_error: None,
            error: None,
        }))
    }

    /// Rolls a start back at its primary, unless it is committed or has an async lock there.
    pub(crate) fn cleanup(&mut self, request: &CleanupRequest) -> Result<Reply, NoMemory>
        ensures reply { IfOk result (λ reply. reply ≡ (cleanup_row self.old request.now).reply) }
        ensures store { OnOk result (self.new ≡ (cleanup_row self.old request.now).store) }
        ensures err { OnErr result (self.new ≡ self.old) }
    {
        let alloc = *self.cells.allocator();
        if let Some(error) = region_error(alloc, self.regions.as_slice(), request.context)? {
            return Ok(Reply::Cleanup(CleanupResponse {
                region_error: Some(error),
                error: None,
                commit_version: 0,
            }));
        }
        let key = &request.key;
        let start = request.start_version;
        if let Some(error) = refusal_at(alloc, self.cells.as_slice(), key, start)? {
            return Ok(Reply::Cleanup(CleanupResponse {
                region_error: None,
                error: Some(error),
                commit_version: 0,
            }));
        }
        if let Some(write) = commit_at(self.cells.as_slice(), key, start) {
            return Ok(Reply::Cleanup(CleanupResponse {
                region_error: None,
                error: None,
                commit_version: write.commit,
            }));
        }
        change_one(&mut self.cells, Rule::RollBack(start), key)?;
        Ok(Reply::Cleanup(CleanupResponse {
            region_error: None,
            error: None,
            commit_version: 0,
        }))
    }

    /// Takes away the pessimistic locks of a start on keys.
    pub(crate) fn pessimistic_rollback(
        &mut self,
        request: &PessimisticRollbackRequest,
    ) -> Result<Reply, NoMemory>
        ensures reply { IfOk result (λ reply. reply ≡ (pessimistic_rollback_row self.old request.now).reply) }
        ensures store { OnOk result (self.new ≡ (pessimistic_rollback_row self.old request.now).store) }
        ensures err { OnErr result (self.new ≡ self.old) }
    {
        let alloc = *self.cells.allocator();
        if let Some(error) = region_error(alloc, self.regions.as_slice(), request.context)? {
            return Ok(Reply::PessimisticRollback(PessimisticRollbackResponse {
                region_error: Some(error),
                errors: Items::new(alloc),
            }));
        }
        let rule = Rule::ReleaseUpTo(request.start_version, request.for_update_ts);
        change_all(&mut self.cells, rule, request.keys.as_slice())?;
        Ok(Reply::PessimisticRollback(PessimisticRollbackResponse {
            region_error: None,
            errors: Items::new(alloc),
        }))
    }
}
