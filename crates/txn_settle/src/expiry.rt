//! Which locks have outlived their time.
ghost use Rattle.std.specs.List.{filter};
ghost use Rattle.std.specs.Prelude.{◌≡◌, IfOk, OnOk, not};
ghost use Rattle.txn_settle.specs.Expiry.{is_expired, IsPut};

use std::alloc::Global;
use txn_kv::{LockInfo, NoMemory, Timestamp, TimestampExt};

/// Locks by whether their time is up.
pub struct PartedLocks {
    pub expired: Vec<LockInfo>,
    pub live: Vec<LockInfo>,
}

impl Drop for PartedLocks {
    fn drop(self) {
        let PartedLocks { expired, live } = self;
        drop(expired);
        drop(live);
    }
}

/// Whether the lock's time to live has passed since its start.
pub fn is_expired(lock: &LockInfo, now: Timestamp) -> bool
    ensures { result ≡ is_expired now lock.now }
{
    let start = Timestamp::from_version(lock.lock_version).physical;
    now.physical >= start && (now.physical - start) as u64 >= lock.lock_ttl
}

/// The locks that have expired, and those that live, each in the order in which they came.
pub fn part_locks(
    alloc: Global,
    locks: Vec<LockInfo>,
    now: Timestamp,
) -> Result<PartedLocks, NoMemory>
    ensures expired { IfOk result (λ parted. parted.expired.items ≡ filter (is_expired now) locks.items) }
    ensures live { IfOk result (λ parted. parted.live.items ≡ filter (λ lock. not (is_expired now lock)) locks.items) }
{
    let mut parted = PartedLocks {
        expired: Vec::new(alloc),
        live: Vec::new(alloc),
    };
    for lock in locks {
        put(&mut parted, lock, now)?;
    }
    Ok(parted)
}

fn put(parted: &mut PartedLocks, lock: LockInfo, now: Timestamp) -> Result<(), NoMemory>
    ensures ok { OnOk result (IsPut now lock parted.old parted.new) }
{
    if is_expired(&lock, now) {
        parted.expired.push(lock)?;
    } else {
        parted.live.push(lock)?;
    }
    Ok(())
}
