//! The rows that ask what became of a start, and the one that lengthens its life.
ghost use Rattle.std.specs.Prelude.{◌≡◌, None, IfOk, OnOk, OnErr};
ghost use Rattle.txn_kv.specs.declared.reply.Reply.TheVariants.{CheckTxnStatus, CheckSecondaryLocks, TxnHeartBeat};
ghost use Rattle.txn_model.specs.Cells.{cell_at};
ghost use Rattle.txn_model.specs.Status.{finding, status_reply, check_txn_status_by};
ghost use Rattle.txn_model.specs.Table.{check_txn_status_row, check_secondary_locks_row, txn_heart_beat_row};

use crate::heart_beat::lengthen;
use crate::placement::region_error;
use crate::rule::{Rule, change_all};
use crate::secondaries::{any_missing, first_commit, own_locks};
use crate::status::{settle_status, status_reply};
use crate::store::ModelStore;
use txn_kv::{
    Action, CheckSecondaryLocksRequest, CheckSecondaryLocksResponse, CheckTxnStatusRequest,
    CheckTxnStatusResponse, Items, KeyError, NoMemory, Reply, TxnHeartBeatRequest,
    TxnHeartBeatResponse,
};

impl ModelStore {
    /// What became of a start at its primary. Where its lock is expired, it is rolled back.
    pub(crate) fn check_txn_status(
        &mut self,
        request: &CheckTxnStatusRequest,
    ) -> Result<Reply, NoMemory>
        ensures reply { IfOk result (λ reply. reply ≡ (check_txn_status_row self.old request.now).reply) }
        ensures store { OnOk result (self.new ≡ (check_txn_status_row self.old request.now).store) }
        ensures err { OnErr result (self.new ≡ self.old) }
    {
        let alloc = *self.cells.allocator();
        if let Some(error) = region_error(alloc, self.regions.as_slice(), request.context)? {
            return Ok(Reply::CheckTxnStatus(CheckTxnStatusResponse {
                region_error: Some(error),
                error: None,
                lock_ttl: 0,
                commit_version: 0,
                action: Action::NoAction,
                lock_info: None,
            }));
        }
        self.check_status(request)
    }

    /// The same, where the region is in order.
    fn check_status(&mut self, request: &CheckTxnStatusRequest) -> Result<Reply, NoMemory>
        ensures reply { IfOk result (λ reply. reply ≡ CheckTxnStatus (status_reply request.now (finding request.now (cell_at self.old.cells request.now.primary_key)))) }
        ensures store { OnOk result (self.new ≡ (check_txn_status_by None (finding request.now (cell_at self.old.cells request.now.primary_key)) self.old request.now).store) }
        ensures err { OnErr result (self.new ≡ self.old) }
    {
        let alloc = *self.cells.allocator();
        let reply = status_reply(alloc, self.cells.as_slice(), request)?;
        settle_status(&mut self.cells, request)?;
        Ok(Reply::CheckTxnStatus(reply))
    }

    /// What became of a start at its secondaries. Where it is missing, it is rolled back.
    pub(crate) fn check_secondary_locks(
        &mut self,
        request: &CheckSecondaryLocksRequest,
    ) -> Result<Reply, NoMemory>
        ensures reply { IfOk result (λ reply. reply ≡ (check_secondary_locks_row self.old request.now).reply) }
        ensures store { OnOk result (self.new ≡ (check_secondary_locks_row self.old request.now).store) }
        ensures err { OnErr result (self.new ≡ self.old) }
    {
        let alloc = *self.cells.allocator();
        if let Some(error) = region_error(alloc, self.regions.as_slice(), request.context)? {
            return Ok(Reply::CheckSecondaryLocks(CheckSecondaryLocksResponse {
                region_error: Some(error),
                error: None,
                locks: Items::new(alloc),
                commit_ts: 0,
                missing: false,
            }));
        }
        let start = request.start_version;
        let keys = request.keys.as_slice();
        let locks = own_locks(alloc, self.cells.as_slice(), start, keys)?;
        let commit_ts = first_commit(self.cells.as_slice(), start, keys);
        let missing = any_missing(self.cells.as_slice(), start, keys);
        change_all(&mut self.cells, Rule::RollBackMissing(start), keys)?;
        Ok(Reply::CheckSecondaryLocks(CheckSecondaryLocksResponse {
            region_error: None,
            error: None,
            locks,
            commit_ts,
            missing,
        }))
    }

    /// Lengthens the life of the lock that a start holds at its primary.
    pub(crate) fn txn_heart_beat(
        &mut self,
        request: &TxnHeartBeatRequest,
    ) -> Result<Reply, NoMemory>
        ensures reply { IfOk result (λ reply. reply ≡ (txn_heart_beat_row self.old request.now).reply) }
        ensures store { OnOk result (self.new ≡ (txn_heart_beat_row self.old request.now).store) }
        ensures err { OnErr result (self.new ≡ self.old) }
    {
        let alloc = *self.cells.allocator();
        if let Some(error) = region_error(alloc, self.regions.as_slice(), request.context)? {
            return Ok(Reply::TxnHeartBeat(TxnHeartBeatResponse {
                region_error: Some(error),
                error: None,
                lock_ttl: 0,
            }));
        }
        let key = &request.primary_lock;
        let start = request.start_version;
        match lengthen(&mut self.cells, key, start, request.advise_lock_ttl) {
            Some(lock_ttl) => Ok(Reply::TxnHeartBeat(TxnHeartBeatResponse {
                region_error: None,
                error: None,
                lock_ttl,
            })),
            None => Ok(Reply::TxnHeartBeat(TxnHeartBeatResponse {
                region_error: None,
                error: Some(KeyError::TxnNotFound {
                    key: key.try_clone()?,
                    start,
                }),
                lock_ttl: 0,
            })),
        }
    }
}
