ghost use Rattle.std.specs.Prelude.{◌≡◌, ◌-◌, ◌+◌, ◌<◌, ◌^◌};
ghost use Rattle.std.specs.Duration.{as_nanos};
ghost use Rattle.txn_core.specs.Heartbeats.{in_millis};

use crate::options::MAX_TTL;
use crate::ttl::elapsed;
use std::time::Duration;
use txn_kv::{Backoff, Key, Timestamp};

/// What the heartbeat of a transaction needs to know of it. All times are in milliseconds.
#[derive(Drop)]
pub struct Heartbeat {
    /// Where the transaction began.
    pub start: Timestamp,
    /// The primary of the commit that starts the heartbeat.
    pub primary: Key,
    /// The clock as the start timestamp came.
    pub began: u64,
    /// How long it sleeps before it beats, and between two beats.
    pub interval: u64,
    /// How often a beat is tried again after an error of its region or a loss.
    pub backoff: Backoff,
}

impl Heartbeat {
    /// How long a beat at this time asks the primary's lock to live: beyond the time that the transaction has run, as long as a lock
    /// lives at most.
    pub fn ttl(&self, now: u64) -> u64
        requires { now < 2 ^ 44 }
        ensures { result ≡ 20_000 + (now - self.now.began) }
    {
        MAX_TTL + elapsed(self.began, now)
    }
}

/// An interval in whole milliseconds. One that is longer than the greatest number counts as that many.
pub(crate) fn in_millis(interval: Duration) -> u64
    ensures { result ≡ in_millis (as_nanos interval) }
{
    interval.as_millis().min(u128::from(u64::MAX)) as u64
}
