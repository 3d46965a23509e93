ghost use Rattle.std.proofs.Common.{ap};
ghost use Rattle.std.specs.Prelude.{◌≡◌, ◌+◌, None, Some, length, refl, true};
ghost use Rattle.txn_history.specs.Faults.{has_region_error};
ghost use Rattle.txn_kv.specs.declared.message.RegionErr.{RegionErr};
ghost use Rattle.txn_multi.specs.Few.{as_cut, by_items, few_alone, few_as_cut, few_by_items, AreFew};
ghost use Rattle.txn_multi.specs.Shown.{shown_at};
ghost use Rattle.txn_shard.specs.declared.batchable.TheConstants.{TXN_COMMIT_BATCH_SIZE};

use txn_kv::{
    BatchGetRequest, BatchRollbackRequest, CheckSecondaryLocksRequest, CheckTxnStatusRequest,
    CleanupRequest, CommitRequest, GetRequest, PessimisticLockRequest, PessimisticRollbackRequest,
    PrewriteRequest, ScanLockRequest, ScanRequest, TxnHeartBeatRequest,
};
use txn_merge::HasRegionError;
use txn_plan::copy_request::CopyRequest;
use txn_request::KvRequest;
use txn_shard::Shardable;

/// A request that goes to a region, whose reply shows where it was refused for that.
pub trait RegionRequest: CopyRequest + Shardable
where
    Self::Response: HasRegionError,
{
    ghost use Rattle.std.specs.Prelude.{ℕ};
    ghost use Rattle.txn_shard.specs.declared.shard_list.ShardList.{ShardList};

    // The most parts that it is cut into, where nothing is cut into more than so many.
    ghost most: { Self → ℕ → ℕ };

    // No more shards are found than that.
    ghost few: { (request : Self) (found : ShardList Self.Shard) → Self.IsFound request found → AreFew most Self.Applies request found.shards.items };

    ghost shown: { (reply : Self.Response) (error : RegionErr) → Self.Response.region_error_in reply ≡ Some error → has_region_error (Self.KvRequest.reply_of reply) ≡ true };
}

impl RegionRequest for GetRequest {
    ghost most = { λ request n. 1 };

    ghost few = { λ request found is. few_alone Self.Shardable.Applies request request.key found is };

    ghost shown = { λ reply error is. shown_at is };
}

impl RegionRequest for BatchGetRequest {
    ghost most = { λ request. by_items (length request.keys) };

    ghost few = { λ request found is. few_by_items (λ (r : Self). length r.keys) Self.Shardable.Applies (λ whole part shard store applied. ap (λ (r : Self). length r.keys) applied.1) (λ key. key) (λ key. length key) None request request.keys refl found is };

    ghost shown = { λ reply error is. shown_at is };
}

impl RegionRequest for ScanRequest {
    ghost most = { λ request. as_cut };

    ghost few = { λ request found is. few_as_cut Self.Shardable.Applies request found.shards.items };

    ghost shown = { λ reply error is. shown_at is };
}

impl RegionRequest for PrewriteRequest {
    ghost most = { λ request. by_items (length request.mutations) };

    ghost few = { λ request found is. few_by_items (λ (r : Self). length r.mutations) Self.Shardable.Applies (λ whole part shard store applied. ap (λ (r : Self). length r.mutations) applied.1) (λ mutation. mutation.key) (λ mutation. length mutation.key + length mutation.value) (Some TXN_COMMIT_BATCH_SIZE) request request.mutations refl found is };

    ghost shown = { λ reply error is. shown_at is };
}

impl RegionRequest for CommitRequest {
    ghost most = { λ request. by_items (length request.keys) };

    ghost few = { λ request found is. few_by_items (λ (r : Self). length r.keys) Self.Shardable.Applies (λ whole part shard store applied. ap (λ (r : Self). length r.keys) applied.1) (λ key. key) (λ key. length key) (Some TXN_COMMIT_BATCH_SIZE) request request.keys refl found is };

    ghost shown = { λ reply error is. shown_at is };
}

impl RegionRequest for CleanupRequest {
    ghost most = { λ request n. 1 };

    ghost few = { λ request found is. few_alone Self.Shardable.Applies request request.key found is };

    ghost shown = { λ reply error is. shown_at is };
}

impl RegionRequest for BatchRollbackRequest {
    ghost most = { λ request. by_items (length request.keys) };

    ghost few = { λ request found is. few_by_items (λ (r : Self). length r.keys) Self.Shardable.Applies (λ whole part shard store applied. ap (λ (r : Self). length r.keys) applied.1) (λ key. key) (λ key. length key) None request request.keys refl found is };

    ghost shown = { λ reply error is. shown_at is };
}

impl RegionRequest for PessimisticRollbackRequest {
    ghost most = { λ request. by_items (length request.keys) };

    ghost few = { λ request found is. few_by_items (λ (r : Self). length r.keys) Self.Shardable.Applies (λ whole part shard store applied. ap (λ (r : Self). length r.keys) applied.1) (λ key. key) (λ key. length key) None request request.keys refl found is };

    ghost shown = { λ reply error is. shown_at is };
}

impl RegionRequest for PessimisticLockRequest {
    ghost most = { λ request. by_items (length request.mutations) };

    ghost few = { λ request found is. few_by_items (λ (r : Self). length r.mutations) Self.Shardable.Applies (λ whole part shard store applied. ap (λ (r : Self). length r.mutations) applied.1) (λ mutation. mutation.key) (λ mutation. length mutation.key + length mutation.value) None request request.mutations refl found is };

    ghost shown = { λ reply error is. shown_at is };
}

impl RegionRequest for ScanLockRequest {
    ghost most = { λ request. as_cut };

    ghost few = { λ request found is. few_as_cut Self.Shardable.Applies request found.shards.items };

    ghost shown = { λ reply error is. shown_at is };
}

impl RegionRequest for TxnHeartBeatRequest {
    ghost most = { λ request n. 1 };

    ghost few = { λ request found is. few_alone Self.Shardable.Applies request request.primary_lock found is };

    ghost shown = { λ reply error is. shown_at is };
}

impl RegionRequest for CheckTxnStatusRequest {
    ghost most = { λ request n. 1 };

    ghost few = { λ request found is. few_alone Self.Shardable.Applies request request.primary_key found is };

    ghost shown = { λ reply error is. shown_at is };
}

impl RegionRequest for CheckSecondaryLocksRequest {
    ghost most = { λ request. by_items (length request.keys) };

    ghost few = { λ request found is. few_by_items (λ (r : Self). length r.keys) Self.Shardable.Applies (λ whole part shard store applied. ap (λ (r : Self). length r.keys) applied.1) (λ key. key) (λ key. length key) None request request.keys refl found is };

    ghost shown = { λ reply error is. shown_at is };
}
