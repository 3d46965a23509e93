//! Requests for a range of keys, cut by region from the lower to the upper bound.
ghost use Rattle.std.specs.Prelude.{◌≡◌, ◌++◌, ◌+◌, ◌^◌, ◌<◌, List, Ok, Some, None, IfErr, IfOk, IfSome, OnOk, length, refl};
ghost use Rattle.std.proofs.Common.{ap};
ghost use Rattle.txn_kv.specs.declared.errors.Error.TheVariants.{OutOfMemory};
ghost use Rattle.txn_region.specs.Clients.{IsPlaceQuery, IsUsable};
ghost use Rattle.txn_region.specs.Groups.{IsRangePiece};
ghost use Rattle.txn_region.specs.Regions.{is_below};
ghost use Rattle.txn_shard.specs.Cutting.{IsPartition-whole, IsPartition-again};
ghost use Rattle.txn_shard.specs.Parting.{RangeIsFound-none, ScanPart-applied, ScanPart-part, ScanLockPart-applied, ScanLockPart-part, scan_range-applied};
ghost use Rattle.txn_shard.specs.Parts.{lock_range, range_by, scan_range, IsPlaced, ScanLockPart, ScanPart};
ghost use Rattle.txn_shard.specs.Shards.{shards_of, IsPartition, Range, RangeIsFound, RangeLiesIn, NextOf};

use crate::shard_list::ShardList;
use crate::shardable::Shardable;
use std::alloc::Global;
use txn_kv::request::keep_version;
use txn_kv::{Key, Look, NoMemory, PdQuery, Result, ScanLockRequest, ScanRequest, TryClone};
use txn_region::store::store_stream_for_range;
use txn_region::{PdClient, RegionStore};

/// Goes on finding the pieces of a range that lie in one region each.
fn shards_by_range<C: PdClient>(
    range: &(Key, Key),
    pd: &mut C,
    found: &mut ShardList<(Key, Key)>,
) -> Result<Option<PdQuery>>
    requires { RangeIsFound range.now found.old }
    ensures kept { RangeIsFound range.now found.new }
    ensures stays { (more : List (Range × RegionStore)) × (found.new.shards.items ≡ found.old.shards.items ++ more) }
    ensures all { result ≡ Ok None → IsPartition range.now (shards_of found.new) }
    ensures left { IfOk result (λ query. IfSome query (λ q. IsPlaceQuery q × C.asks pd.new q × (IsPartition range.now (shards_of found.new) → ⊥))) }
    ensures why { IfErr result (λ error. error ≡ OutOfMemory) }
    ensures changed { C.looked pd.old pd.new }
{
    let next = next_start(range, found)?;
    find_pieces(range, next, pd, found)
}

/// Where the next piece starts, if one is left.
fn next_start(
    range: &(Key, Key),
    found: &ShardList<(Key, Key)>,
) -> std::result::Result<Option<Key>, NoMemory>
    ensures { IfOk result (NextOf range.now found.now) }
{
    if let Some(at) = &found.at {
        return Ok(Some(at.try_clone()?));
    }
    if !found.shards.is_empty() || !begins_below(&range.0, &range.1) {
        return Ok(None);
    }
    Ok(Some(range.0.try_clone()?))
}

/// Whether a range holds any key.
pub(crate) fn begins_below(start: &Key, end: &Key) -> bool
    ensures { result ≡ is_below start.now end.now }
{
    *start < *end || end.is_empty()
}

/// Finds pieces until the whole range is in shards or a query has to be asked.
fn find_pieces<C: PdClient>(
    range: &(Key, Key),
    next: Option<Key>,
    pd: &mut C,
    found: &mut ShardList<(Key, Key)>,
) -> Result<Option<PdQuery>>
    requires found { RangeIsFound range.now found.old }
    requires next { NextOf range.now found.old next }
    ensures kept { RangeIsFound range.now found.new }
    ensures stays { (more : List (Range × RegionStore)) × (found.new.shards.items ≡ found.old.shards.items ++ more) }
    ensures all { result ≡ Ok None → IsPartition range.now (shards_of found.new) }
    ensures left { IfOk result (λ query. IfSome query (λ q. IsPlaceQuery q × C.asks pd.new q × (IsPartition range.now (shards_of found.new) → ⊥))) }
    ensures why { IfErr result (λ error. error ≡ OutOfMemory) }
    ensures changed { C.looked pd.old pd.new }
{
    let mut next = next;
    while let Some(first) = next {
        match store_stream_for_range(range, &first, pd)? {
            Look::Found((piece, store, behind)) => {
                add_piece(range, &first, piece, store, &behind, found)?;
                next = behind;
            }
            Look::Query(query) => return Ok(Some(query)),
            Look::Wait => unreachable!(),
        }
    }
    Ok(None)
}

/// Puts the piece that starts at a key into a shard.
fn add_piece(
    range: &(Key, Key),
    first: &Key,
    piece: (Key, Key),
    store: RegionStore,
    behind: &Option<Key>,
    found: &mut ShardList<(Key, Key)>,
) -> std::result::Result<(), NoMemory>
    requires found { RangeIsFound range.now found.old }
    requires next { NextOf range.now found.old (Some first.now) }
    requires usable { IsUsable store.region_with_leader }
    requires piece { IsRangePiece store.region_with_leader.region first.now range.now.1 (piece.0, piece.1) behind.now }
    ensures kept { RangeIsFound range.now found.new }
    ensures next { OnOk result (NextOf range.now found.new behind.now) }
    ensures stays { (more : List (Range × RegionStore)) × (found.new.shards.items ≡ found.old.shards.items ++ more) }
    ensures longer { OnOk result (length found.new.shards.items ≡ length found.old.shards.items + 1) }
    ensures small { length found.new.shards.items < 2 ^ 63 }
{
    let at = behind.try_clone()?;
    found.put(piece, store)?;
    found.at = at;
    Ok(())
}

/// The lower and the upper bound of a scan.
fn bounds(request: &ScanRequest) -> std::result::Result<(Key, Key), NoMemory>
    ensures { IfOk result (λ range. range ≡ scan_range request.now) }
{
    if request.reverse {
        return Ok((request.end_key.try_clone()?, request.start_key.try_clone()?));
    }
    Ok((request.start_key.try_clone()?, request.end_key.try_clone()?))
}

impl Shardable for ScanRequest {
    type Shard = (Key, Key);

    ghost Load = { Range };

    ghost load = { scan_range };

    ghost load_of = { λ shard. shard };

    ghost AreCut = { IsPartition };

    ghost LiesIn = { RangeLiesIn };

    ghost IsFound = { λ request found. RangeIsFound (scan_range request) found };

    ghost Applies = { λ old shard store new. IsPlaced store old.context new.context × (new ≡ record old { context = new.context; start_key = (range_by old.reverse shard.0 shard.1).0; end_key = (range_by old.reverse shard.0 shard.1).1 }) };

    ghost IsPart = { ScanPart };

    fn shards<C: PdClient>(
        &self,
        _alloc: Global,
        pd: &mut C,
        found: &mut ShardList<(Key, Key)>,
    ) -> Result<Option<PdQuery>> {
        let range = bounds(self)?;
        shards_by_range(&range, pd, found)
    }

    fn apply_shard(&mut self, shard: (Key, Key), store: &RegionStore) -> Result<()> {
        let context = store.region_with_leader.context()?;
        keep_version(&mut self.context, context);
        let (lower, upper) = shard;
        if self.reverse {
            self.start_key = upper;
            self.end_key = lower;
        } else {
            self.start_key = lower;
            self.end_key = upper;
        }
        Ok(())
    }

    ghost none_found = { λ request found fresh. RangeIsFound-none (scan_range request) found fresh };

    ghost cut_whole = { IsPartition-whole };

    ghost cut_again = { IsPartition-again };

    ghost applied_load = { λ old new shard store before behind cut applied. scan_range-applied old new shard applied.1 };

    ghost applied_part = { λ old new shard store before behind cut applied. ScanPart-applied old new shard before behind cut applied.1 };

    ghost part_itself = { λ request. (refl, λ key held. held) };

    ghost part_of_part = { ScanPart-part };
}

impl Shardable for ScanLockRequest {
    type Shard = (Key, Key);

    ghost Load = { Range };

    ghost load = { lock_range };

    ghost load_of = { λ shard. shard };

    ghost AreCut = { IsPartition };

    ghost LiesIn = { RangeLiesIn };

    ghost IsFound = { λ request found. RangeIsFound (lock_range request) found };

    ghost Applies = { λ old shard store new. IsPlaced store old.context new.context × (new ≡ record old { context = new.context; start_key = shard.0; end_key = shard.1 }) };

    ghost IsPart = { ScanLockPart };

    fn shards<C: PdClient>(
        &self,
        _alloc: Global,
        pd: &mut C,
        found: &mut ShardList<(Key, Key)>,
    ) -> Result<Option<PdQuery>> {
        let range = (self.start_key.try_clone()?, self.end_key.try_clone()?);
        shards_by_range(&range, pd, found)
    }

    fn apply_shard(&mut self, shard: (Key, Key), store: &RegionStore) -> Result<()> {
        let context = store.region_with_leader.context()?;
        keep_version(&mut self.context, context);
        let (start, end) = shard;
        self.start_key = start;
        self.end_key = end;
        Ok(())
    }

    ghost none_found = { λ request found fresh. RangeIsFound-none (lock_range request) found fresh };

    ghost cut_whole = { IsPartition-whole };

    ghost cut_again = { IsPartition-again };

    ghost applied_load = { λ old new shard store before behind cut applied. ap lock_range applied.1 };

    ghost applied_part = { λ old new shard store before behind cut applied. ScanLockPart-applied old new shard before behind cut applied.1 };

    ghost part_itself = { λ request. (refl, λ key held. held) };

    ghost part_of_part = { ScanLockPart-part };
}
