//! One answer of many replies.

use crate::replies::{FromWord, outcomes};
use case_words::{rest, show, word};
use std::fmt::Debug;
use txn_kv::{
    BatchGetResponse, CheckSecondaryLocksResponse, CommitResponse, Items, Mutation,
    PessimisticLockResponse, ScanLockResponse, ScanResponse, UnsafeDestroyRangeResponse,
};
use txn_merge::{
    CleanupLocksResult, Collect, CollectError, CollectSingle, CollectWithShard, Merge,
    ResponseWithShard,
};

type Locked = ResponseWithShard<PessimisticLockResponse, Items<Mutation>>;

/// Shows what the replies of the words become.
fn merged<T: FromWord, M: Merge<T>>(rt: &HostRuntime, way: &M, words: &[&str])
where
    M::Out: Debug + Drop,
{
    show(
        rt,
        &way.merge(rt.alloc(), outcomes(rt.alloc(), rest(words, 2))),
    );
}

pub fn serve(rt: &HostRuntime, words: &[&str]) {
    match word(words, 1) {
        "locked" => merged::<Locked, CollectWithShard>(rt, &CollectWithShard, words),
        "secondaries" => merged::<CheckSecondaryLocksResponse, Collect>(rt, &Collect, words),
        "single" => merged::<CommitResponse, CollectSingle>(rt, &CollectSingle, words),
        "all" => merged::<CommitResponse, CollectError>(rt, &CollectError, words),
        "gets" => merged::<BatchGetResponse, Collect>(rt, &Collect, words),
        "scans" => merged::<ScanResponse, Collect>(rt, &Collect, words),
        "locks" => merged::<ScanLockResponse, Collect>(rt, &Collect, words),
        "destroyed" => merged::<UnsafeDestroyRangeResponse, Collect>(rt, &Collect, words),
        "cleaned" => merged::<CleanupLocksResult, Collect>(rt, &Collect, words),
        _ => show(
            rt,
            &(Collect, CollectSingle, CollectError, CollectWithShard),
        ),
    }
}
