ghost use Rattle.std.specs.Prelude.{◌≡◌};
ghost use Rattle.txn_kv.specs.Backoff.{fresh};
ghost use Rattle.txn_kv.specs.declared.backoff.BackoffKind.TheVariants as Kind;

use txn_kv::{Backoff, DEFAULT_REGION_BACKOFF, OPTIMISTIC_BACKOFF, PESSIMISTIC_BACKOFF};

/// How often, and after what delays, a request is sent again: for errors of regions and losses, and for locks.
#[derive(Clone, Debug, PartialEq, Eq, Drop)]
pub struct RetryOptions {
    pub region_backoff: Backoff,
    pub lock_backoff: Backoff,
}

impl RetryOptions {
    pub const fn new(region_backoff: Backoff, lock_backoff: Backoff) -> RetryOptions
        ensures { result ≡ record { region_backoff = region_backoff; lock_backoff = lock_backoff } }
    {
        RetryOptions {
            region_backoff,
            lock_backoff,
        }
    }

    /// Ten attempts each, with delays that double from 2 to 500 ms.
    pub const fn default_optimistic() -> RetryOptions
        ensures { result ≡ record { region_backoff = fresh Kind.NoJitter 2 500 10; lock_backoff = fresh Kind.NoJitter 2 500 10 } }
    {
        RetryOptions {
            region_backoff: DEFAULT_REGION_BACKOFF,
            lock_backoff: OPTIMISTIC_BACKOFF,
        }
    }

    /// Ten attempts each, with delays that double from 2 to 500 ms.
    pub const fn default_pessimistic() -> RetryOptions
        ensures { result ≡ record { region_backoff = fresh Kind.NoJitter 2 500 10; lock_backoff = fresh Kind.NoJitter 2 500 10 } }
    {
        RetryOptions {
            region_backoff: DEFAULT_REGION_BACKOFF,
            lock_backoff: PESSIMISTIC_BACKOFF,
        }
    }

    /// No second attempt.
    pub fn none() -> RetryOptions
        ensures { result ≡ record { region_backoff = fresh Kind.None 0 0 0; lock_backoff = fresh Kind.None 0 0 0 } }
    {
        RetryOptions {
            region_backoff: Backoff::no_backoff(),
            lock_backoff: Backoff::no_backoff(),
        }
    }
}
