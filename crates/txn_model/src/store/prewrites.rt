//! The row that prewrites: it sets locks, or makes commits at once.
ghost use Rattle.std.specs.Prelude.{◌≡◌, [], None, true, false, IfOk, OnOk, OnErr};
ghost use Rattle.txn_kv.specs.declared.reply.Reply.TheVariants.{Prewrite};
ghost use Rattle.txn_model.specs.Prewrite.{least_bound, prewrite_errors, passed_commit, one_phase_by, locking_by};
ghost use Rattle.txn_model.specs.Table.{prewrite_row};

use crate::bounds::{passed_commit, told_bound};
use crate::landing::land_all;
use crate::placement::region_error;
use crate::prewrite::{lock_all, prewrite_errors};
use crate::store::ModelStore;
use std::alloc::Global;
use txn_kv::{Items, KeyError, NoMemory, PrewriteRequest, PrewriteResponse, Reply};

/// A reply without a region error.
fn told(errors: Items<KeyError>, min_commit_ts: u64, one_pc_commit_ts: u64) -> Reply
    ensures { result ≡ Prewrite (record { region_error = None; errors = errors; min_commit_ts = min_commit_ts; one_pc_commit_ts = one_pc_commit_ts }) }
{
    Reply::Prewrite(PrewriteResponse {
        region_error: None,
        errors,
        min_commit_ts,
        one_pc_commit_ts,
    })
}

impl ModelStore {
    /// Sets a lock on each mutated key, or makes commits of all at once, if none conflicts.
    pub(crate) fn prewrite(&mut self, request: &PrewriteRequest) -> Result<Reply, NoMemory>
        ensures reply { IfOk result (λ reply. reply ≡ (prewrite_row self.old request.now).reply) }
        ensures store { OnOk result (self.new ≡ (prewrite_row self.old request.now).store) }
        ensures err { OnErr result (self.new ≡ self.old) }
    {
        let alloc = *self.cells.allocator();
        if let Some(error) = region_error(alloc, self.regions.as_slice(), request.context)? {
            return Ok(Reply::Prewrite(PrewriteResponse {
                region_error: Some(error),
                errors: Items::new(alloc),
                min_commit_ts: 0,
                one_pc_commit_ts: 0,
            }));
        }
        let errors = prewrite_errors(alloc, self.cells.as_slice(), request)?;
        if errors.len() > 0 {
            return Ok(told(errors, 0, 0));
        }
        drop(errors);
        if request.try_one_pc {
            self.prewrite_at_once(alloc, request)
        } else {
            self.prewrite_locks(alloc, request)
        }
    }

    /// The bound of the locks that a prewrite sets: above each read, its start and its for-update timestamp.
    fn least_bound(&self, request: &PrewriteRequest) -> u64
        ensures { result ≡ least_bound self.now request.now }
    {
        let least = request.start_version.max(request.for_update_ts);
        self.max_read.max(least).saturating_add(1)
    }

    /// The same, where nothing stands in the way and the request wants its commits at once.
    fn prewrite_at_once(
        &mut self,
        alloc: Global,
        request: &PrewriteRequest,
    ) -> Result<Reply, NoMemory>
        requires at_once { request.now.try_one_pc ≡ true }
        requires free { prewrite_errors self.old.cells request.now request.now.mutations request.now.is_pessimistic_lock ≡ [] }
        ensures reply { IfOk result (λ reply. reply ≡ (one_phase_by (passed_commit self.old.cells request.now.start_version request.now.mutations) self.old request.now).reply) }
        ensures store { OnOk result (self.new ≡ (one_phase_by (passed_commit self.old.cells request.now.start_version request.now.mutations) self.old request.now).store) }
        ensures err { OnErr result (self.new ≡ self.old) }
    {
        let mutations = request.mutations.as_slice();
        if let Some(write) = passed_commit(
            self.cells.as_slice(),
            request.start_version,
            mutations,
        ) {
            return Ok(told(Items::new(alloc), 0, write.commit));
        }
        let bound = self.least_bound(request);
        land_all(&mut self.cells, request, bound)?;
        Ok(told(Items::new(alloc), 0, bound))
    }

    /// The same, where nothing stands in the way and the request wants locks.
    fn prewrite_locks(
        &mut self,
        alloc: Global,
        request: &PrewriteRequest,
    ) -> Result<Reply, NoMemory>
        requires locks { request.now.try_one_pc ≡ false }
        requires free { prewrite_errors self.old.cells request.now request.now.mutations request.now.is_pessimistic_lock ≡ [] }
        ensures reply { IfOk result (λ reply. reply ≡ (locking_by self.old request.now).reply) }
        ensures store { OnOk result (self.new ≡ (locking_by self.old request.now).store) }
        ensures err { OnErr result (self.new ≡ self.old) }
    {
        let bound = self.least_bound(request);
        lock_all(&mut self.cells, request, bound)?;
        let told_bound = told_bound(self.cells.as_slice(), request);
        Ok(told(Items::new(alloc), told_bound, 0))
    }
}
