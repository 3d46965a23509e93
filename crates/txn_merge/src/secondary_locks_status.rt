ghost use Rattle.std.specs.Prelude.{◌≡◌, ◌==◌, true, false, None, Some, IfOk, IfErr, OnOk, max, if◌then◌else◌};
ghost use Rattle.txn_merge.specs.Gathered.{UnlessMemory, shape, values_of};
ghost use Rattle.txn_merge.specs.Secondary.{IsJoined, after_reply, any_plain, bounds, finished, first_fault, greatest, is_unlike, nothing_seen, status_of};

use crate::merge::{Collect, Merge, misshapen};
use std::alloc::Global;
use txn_kv::{CheckSecondaryLocksResponse, LockInfo, Result, Timestamp, TimestampExt};

/// What the stores say of the secondary locks of a transaction, taken together.
#[derive(Clone, Copy, Debug, PartialEq, Eq)]
pub struct SecondaryLocksStatus {
    /// The commit that some store names.
    pub commit_ts: Option<Timestamp>,
    /// The greatest of the locks' bounds.
    pub min_commit_ts: u64,
    /// True where some lock is not one of an asynchronous commit.
    pub fallback_2pc: bool,
    /// True where the start is rolled back on some key.
    pub missing: bool,
}

/// The status that all replies together tell. Two unlike commits are refused with `Shape`, which holds both.
impl Merge<CheckSecondaryLocksResponse> for Collect {
    type Out = SecondaryLocksStatus;

    ghost merges = { λ _ results result. IsJoined results result };

    fn merge(
        &self,
        _alloc: Global,
        input: Vec<Result<CheckSecondaryLocksResponse>>,
    ) -> Result<SecondaryLocksStatus>
        ensures { UnlessMemory (IsJoined input.items) result }
    {
        join_states(input)
    }
}

fn join_states(input: Vec<Result<CheckSecondaryLocksResponse>>) -> Result<SecondaryLocksStatus>
    ensures ok { IfOk result (λ status. (first_fault 0 input.items ≡ None) × (status ≡ status_of (values_of input.items))) }
    ensures err { IfErr result (λ error. first_fault 0 input.items ≡ Some error) }
{
    let mut seen = Seen {
        commit: 0,
        min_commit_ts: 0,
        fallback_2pc: false,
        missing: false,
    };
    for result in input {
        let reply = result?;
        seen.take_in(&reply)?;
    }
    Ok(seen.finish())
}

/// What the replies told so far. A commit of 0 is none.
#[derive(Clone, Copy)]
struct Seen {
    commit: u64,
    min_commit_ts: u64,
    fallback_2pc: bool,
    missing: bool,
}

impl Seen {
    fn take_in(&mut self, reply: &CheckSecondaryLocksResponse) -> Result<()>
        ensures ok { OnOk result ((is_unlike self.old.commit reply.now.commit_ts ≡ false) × (self.new ≡ after_reply self.old reply.now)) }
        ensures err { IfErr result (λ error. (is_unlike self.old.commit reply.now.commit_ts ≡ true) × (error ≡ shape self.old.commit reply.now.commit_ts)) }
    {
        let commit = named(self.commit, reply.commit_ts)?;
        self.commit = commit;
        self.min_commit_ts = greatest_bound(self.min_commit_ts, reply.locks.as_slice());
        self.fallback_2pc = self.fallback_2pc || any_plain(reply.locks.as_slice());
        self.missing = self.missing || reply.missing;
        Ok(())
    }

    fn finish(self) -> SecondaryLocksStatus
        ensures { result ≡ finished self }
    {
        SecondaryLocksStatus {
            commit_ts: Timestamp::try_from_version(self.commit),
            min_commit_ts: self.min_commit_ts,
            fallback_2pc: self.fallback_2pc,
            missing: self.missing,
        }
    }
}

/// The commit that is named, where another one was named before or 0 says that none was. Two unlike ones are refused.
fn named(kept: u64, given: u64) -> Result<u64>
    ensures ok { IfOk result (λ commit. (is_unlike kept given ≡ false) × (commit ≡ (if kept == 0 then given else kept))) }
    ensures err { IfErr result (λ error. (is_unlike kept given ≡ true) × (error ≡ shape kept given)) }
{
    if kept == 0 {
        Ok(given)
    } else if given == 0 || kept == given {
        Ok(kept)
    } else {
        Err(misshapen(kept, given))
    }
}

/// The greatest bound of locks, where one was found before.
fn greatest_bound(before: u64, locks: &[LockInfo]) -> u64
    ensures { result ≡ max before (greatest (bounds locks.now)) }
{
    let mut bound = before;
    for lock in locks {
        bound = bound.max(lock.min_commit_ts);
    }
    bound
}

/// Whether some lock is not one of an asynchronous commit.
fn any_plain(locks: &[LockInfo]) -> bool
    ensures { result ≡ any_plain locks.now }
{
    locks.iter().any(|lock| !lock.use_async_commit)
}
