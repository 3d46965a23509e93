//! What `Collect` makes of each kind of reply.

ghost use Rattle.std.specs.Prelude.{◌≡◌, ◌++◌, [], Some, IfOk, IfErr, OnOk, map};
ghost use Rattle.txn_merge.specs.Gathered.{FirstErrorOr, UnlessMemory, errors_of, first};
ghost use Rattle.txn_merge.specs.Joined.{locks_of_scans, pair_of, pairs_of_gets, pairs_of_scans};

use crate::merge::{Collect, Merge, gather};
use std::alloc::Global;
use txn_kv::{
    BatchGetResponse, Items, KvPair, LockInfo, NoMemory, PbPair, Result, ScanLockResponse,
    ScanResponse, UnsafeDestroyRangeResponse,
};

/// The key and the value of a pair.
fn paired(pair: PbPair) -> KvPair
    ensures { result ≡ pair_of pair }
{
    let (_error, key, value) = pair.into_parts();
    KvPair(key, value)
}

/// Adds pairs, without what a store says of an error at their keys.
fn add_pairs(pairs: &mut Vec<KvPair>, more: Items<PbPair>) -> std::result::Result<(), NoMemory>
    ensures { OnOk result (pairs.new.items ≡ pairs.old.items ++ map pair_of more) }
{
    for pair in more.into_vec() {
        pairs.push(paired(pair))?;
    }
    Ok(())
}

fn join_gets(
    alloc: Global,
    replies: Vec<BatchGetResponse>,
) -> std::result::Result<Vec<KvPair>, NoMemory>
    ensures { IfOk result (λ pairs. pairs.items ≡ pairs_of_gets replies.items) }
{
    let mut pairs = Vec::new(alloc);
    for reply in replies {
        add_pairs(&mut pairs, reply.into_pairs())?;
    }
    Ok(pairs)
}

fn join_scans(
    alloc: Global,
    replies: Vec<ScanResponse>,
) -> std::result::Result<Vec<KvPair>, NoMemory>
    ensures { IfOk result (λ pairs. pairs.items ≡ pairs_of_scans replies.items) }
{
    let mut pairs = Vec::new(alloc);
    for reply in replies {
        add_pairs(&mut pairs, reply.into_pairs())?;
    }
    Ok(pairs)
}

fn join_locks(
    alloc: Global,
    replies: Vec<ScanLockResponse>,
) -> std::result::Result<Vec<LockInfo>, NoMemory>
    ensures { IfOk result (λ locks. locks.items ≡ locks_of_scans replies.items) }
{
    let mut locks = Vec::new(alloc);
    for reply in replies {
        locks.append(&mut reply.into_locks().into_vec())?;
    }
    Ok(locks)
}

impl Merge<BatchGetResponse> for Collect {
    type Out = Vec<KvPair>;

    ghost merges = { λ _ results result. FirstErrorOr (λ replies out. out.items ≡ pairs_of_gets replies) results result };

    fn merge(&self, alloc: Global, input: Vec<Result<BatchGetResponse>>) -> Result<Vec<KvPair>>
        ensures { UnlessMemory (FirstErrorOr (λ replies out. out.items ≡ pairs_of_gets replies) input.items) result }
    {
        let replies = gather(alloc, input)?;
        Ok(join_gets(alloc, replies)?)
    }
}

impl Merge<ScanResponse> for Collect {
    type Out = Vec<KvPair>;

    ghost merges = { λ _ results result. FirstErrorOr (λ replies out. out.items ≡ pairs_of_scans replies) results result };

    fn merge(&self, alloc: Global, input: Vec<Result<ScanResponse>>) -> Result<Vec<KvPair>>
        ensures { UnlessMemory (FirstErrorOr (λ replies out. out.items ≡ pairs_of_scans replies) input.items) result }
    {
        let replies = gather(alloc, input)?;
        Ok(join_scans(alloc, replies)?)
    }
}

impl Merge<ScanLockResponse> for Collect {
    type Out = Vec<LockInfo>;

    ghost merges = { λ _ results result. FirstErrorOr (λ replies out. out.items ≡ locks_of_scans replies) results result };

    fn merge(&self, alloc: Global, input: Vec<Result<ScanLockResponse>>) -> Result<Vec<LockInfo>>
        ensures { UnlessMemory (FirstErrorOr (λ replies out. out.items ≡ locks_of_scans replies) input.items) result }
    {
        let replies = gather(alloc, input)?;
        Ok(join_locks(alloc, replies)?)
    }
}

impl Merge<UnsafeDestroyRangeResponse> for Collect {
    type Out = ();

    ghost use Rattle.std.specs.Prelude.{⊤};

    ghost merges = { λ _ results result. FirstErrorOr (λ _ _. ⊤) results result };

    fn merge(&self, _alloc: Global, input: Vec<Result<UnsafeDestroyRangeResponse>>) -> Result<()>
        ensures { UnlessMemory (FirstErrorOr (λ _ _. ⊤) input.items) result }
    {
        no_error(input)
    }
}

fn no_error(input: Vec<Result<UnsafeDestroyRangeResponse>>) -> Result<()>
    ensures ok { OnOk result (errors_of input.items ≡ []) }
    ensures err { IfErr result (λ error. first (errors_of input.items) ≡ Some error) }
{
    for result in input {
        let _reply = result?;
    }
    Ok(())
}
