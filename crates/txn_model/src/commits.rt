//! The commits of a key, in the order of `commit`.
ghost use Rattle.std.specs.Prelude.{◌≡◌, ℕ, ◌<◌, ◌≤◌, true, false, is_some, length, nat_le, slice_index_or};
ghost use Rattle.std.specs.Option.{option_copied};
ghost use Rattle.txn_model.specs.declared.cell.Write.{Write};
ghost use Rattle.txn_model.specs.Locks.{commit_of, newest_commit, last_written, value_at};
ghost use Rattle.txn_model.specs.Orderly.{CommitsAscend};

use crate::cell::{Kind, Write};

/// The commit of a start.
pub fn commit_of(commits: &[Write], start: u64) -> Option<&Write>
    ensures { option_copied result ≡ commit_of commits.now start }
{
    commits.iter().find(|write| write.start == start)
}

/// The newest commit timestamp, and 0 where there is none.
pub fn newest_commit(commits: &[Write]) -> u64
    ensures { result ≡ newest_commit commits.now }
{
    match commits.last() {
        Some(write) => write.commit,
        None => 0,
    }
}

/// How many commits are at a timestamp or before.
fn count_until(commits: &[Write], at: u64) -> usize
    requires { CommitsAscend commits.now }
    ensures bound { result ≤ length commits.now }
    ensures until { (i : ℕ) (d : Write) → i < result → nat_le (slice_index_or commits.now i d).commit at ≡ true }
    ensures later { (i : ℕ) (d : Write) → result ≤ i → i < length commits.now → nat_le (slice_index_or commits.now i d).commit at ≡ false }
{
    commits.partition_point(
        |write: &Write| -> bool
            ensures { result ≡ nat_le write.now.commit at }
        { write.commit <= at },
    )
}

/// The last put or delete with a commit of at most `at`: a search by timestamp, and then past locks alone.
pub fn last_written(commits: &[Write], at: u64) -> Option<&Write>
    requires { CommitsAscend commits.now }
    ensures { option_copied result ≡ last_written commits.now at }
{
    let mut left = count_until(commits, at);
    while left > 0 {
        left -= 1;
        let write = &commits[left];
        if write.kind.is_written() {
            return Some(write);
        }
    }
    None
}

/// A value stands at this timestamp.
pub fn has_value(commits: &[Write], at: u64) -> bool
    requires { CommitsAscend commits.now }
    ensures { result ≡ is_some (value_at commits.now at) }
{
    match last_written(commits, at) {
        Some(write) => matches!(write.kind, Kind::Put),
        None => false,
    }
}
