ghost use Rattle.std.specs.Prelude.{◌≡◌, ◌-◌};
ghost use Rattle.txn_core.specs.Ttl.{IsBaseTtl, IsRoot, IsTtl};

use crate::options::MAX_TTL;

/// How long a lock lives at least beyond the time that its transaction has run, in milliseconds.
pub(crate) const DEFAULT_LOCK_TTL: u64 = 3000;

/// The size from which on a lock lives longer the more is written, in bytes.
const TXN_COMMIT_BATCH_SIZE: u64 = 16384;

/// The square of the milliseconds that stand for one MiB of writes.
const TTL_FACTOR_SQUARED: u128 = 36_000_000;

const BYTES_OF_A_MEBIBYTE: u128 = 1 << 20;

/// The milliseconds from `started` to `now`, none where the clock stands before.
pub(crate) fn elapsed(started: u64, now: u64) -> u64
    ensures { result ≡ now - started }
{
    now.saturating_sub(started)
}

/// The greatest number whose square is at most this one.
fn integer_root(square: u128) -> u64
    ensures { IsRoot square result }
{
    let mut root: u128 = 0;
    let mut above: u128 = 1 << 64;
    while above - root > 1 {
        let middle = root + (above - root) / 2;
        if middle * middle <= square {
            root = middle;
        } else {
            above = middle;
        }
    }
    root as u64
}

/// How long the locks of a commit live that writes so many bytes, beyond the time that the transaction has run.
fn base_ttl(write_size: u64) -> u64
    ensures { IsBaseTtl write_size result }
{
    if write_size <= TXN_COMMIT_BATCH_SIZE {
        return DEFAULT_LOCK_TTL;
    }
    let square = TTL_FACTOR_SQUARED * write_size as u128 / BYTES_OF_A_MEBIBYTE;
    integer_root(square).max(DEFAULT_LOCK_TTL).min(MAX_TTL)
}

/// How long the locks of a commit live, in milliseconds.
pub fn txn_lock_ttl(write_size: u64, started: u64, now: u64) -> u64
    ensures { IsTtl write_size started now result }
{
    base_ttl(write_size).saturating_add(elapsed(started, now))
}
