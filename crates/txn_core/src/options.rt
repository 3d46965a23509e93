ghost use Rattle.std.specs.Prelude.{◌≡◌, true};
ghost use Rattle.txn_kv.specs.Timestamp.{timestamp_of};
ghost use Rattle.txn_core.specs.Options.{AreDefault, beats, is_auto, is_pessimistic, no_backoff, usual_retries};
ghost use Rattle.txn_core.specs.declared.options.TransactionKind.TheVariants as kinds;
ghost use Rattle.txn_core.specs.declared.options.CheckLevel.TheVariants as levels;

use std::time::Duration;
use txn_kv::{Backoff, Timestamp, TimestampExt};
use txn_merge::RetryOptions;

/// How long a lock lives at most beyond the time that its transaction has run, in milliseconds.
pub(crate) const MAX_TTL: u64 = 20000;

/// Whether a transaction takes locks as it goes, and the greatest timestamp at which it did.
#[derive(Clone, Copy, Debug, PartialEq, Eq)]
pub enum TransactionKind {
    Optimistic,
    Pessimistic(Timestamp),
}

/// What happens where a transaction is let go that was neither committed nor rolled back.
#[derive(Clone, Copy, Debug, PartialEq, Eq)]
pub enum CheckLevel {
    Panic,
    Warn,
    None,
}

/// Whether the primary lock is kept alive, and how often.
#[derive(Clone, Copy, Debug, PartialEq, Eq)]
pub enum HeartbeatOption {
    NoHeartbeat,
    FixedTime(Duration),
}

impl HeartbeatOption {
    /// Every half of the time that a lock lives.
    fn every_ten_seconds() -> HeartbeatOption
        ensures { beats 10_000 result }
    {
        HeartbeatOption::FixedTime(Duration::from_millis(MAX_TTL / 2))
    }

    pub fn is_auto_heartbeat(&self) -> bool
        ensures { result ≡ is_auto self.now }
    {
        !matches!(self, HeartbeatOption::NoHeartbeat)
    }
}

/// How a transaction begins, and how it goes about its requests. By default it is pessimistic.
#[derive(Clone, Debug, PartialEq, Eq, Drop)]
pub struct TransactionOptions {
    pub kind: TransactionKind,
    pub try_one_pc: bool,
    pub async_commit: bool,
    pub read_only: bool,
    pub retry_options: RetryOptions,
    pub check_level: CheckLevel,
    pub heartbeat_option: HeartbeatOption,
}

impl TransactionOptions {
    pub fn new_optimistic() -> TransactionOptions
        ensures { AreDefault kinds.Optimistic usual_retries result }
    {
        TransactionOptions::of_kind(
            TransactionKind::Optimistic,
            RetryOptions::default_optimistic(),
        )
    }

    pub fn new_pessimistic() -> TransactionOptions
        ensures { AreDefault (kinds.Pessimistic (timestamp_of 0)) usual_retries result }
    {
        TransactionOptions::of_kind(
            TransactionKind::Pessimistic(Timestamp::from_version(0)),
            RetryOptions::default_pessimistic(),
        )
    }

    fn of_kind(kind: TransactionKind, retry_options: RetryOptions) -> TransactionOptions
        ensures { AreDefault kind retry_options result }
    {
        TransactionOptions {
            kind,
            try_one_pc: false,
            async_commit: false,
            read_only: false,
            retry_options,
            check_level: CheckLevel::Panic,
            heartbeat_option: HeartbeatOption::every_ten_seconds(),
        }
    }

    pub fn use_async_commit(self) -> TransactionOptions
        ensures { result ≡ record self { async_commit = true } }
    {
        TransactionOptions {
            async_commit: true,
            ..self
        }
    }

    pub fn try_one_pc(self) -> TransactionOptions
        ensures { result ≡ record self { try_one_pc = true } }
    {
        TransactionOptions {
            try_one_pc: true,
            ..self
        }
    }

    pub fn read_only(self) -> TransactionOptions
        ensures { result ≡ record self { read_only = true } }
    {
        TransactionOptions {
            read_only: true,
            ..self
        }
    }

    /// A lock that is met ends the call.
    pub fn no_resolve_locks(self) -> TransactionOptions
        ensures { result ≡ record self { retry_options = record self.retry_options { lock_backoff = no_backoff } } }
    {
        TransactionOptions {
            retry_options: RetryOptions {
                lock_backoff: Backoff::no_backoff(),
                ..self.retry_options
            },
            ..self
        }
    }

    /// A region error or a loss ends the call.
    pub fn no_resolve_regions(self) -> TransactionOptions
        ensures { result ≡ record self { retry_options = record self.retry_options { region_backoff = no_backoff } } }
    {
        TransactionOptions {
            retry_options: RetryOptions {
                region_backoff: Backoff::no_backoff(),
                ..self.retry_options
            },
            ..self
        }
    }

    pub fn retry_options(self, options: RetryOptions) -> TransactionOptions
        ensures { result ≡ record self { retry_options = options } }
    {
        TransactionOptions {
            retry_options: options,
            ..self
        }
    }

    pub fn drop_check(self, level: CheckLevel) -> TransactionOptions
        ensures { result ≡ record self { check_level = level } }
    {
        TransactionOptions {
            check_level: level,
            ..self
        }
    }

    pub fn heartbeat_option(self, heartbeat_option: HeartbeatOption) -> TransactionOptions
        ensures { result ≡ record self { heartbeat_option = heartbeat_option } }
    {
        TransactionOptions {
            heartbeat_option,
            ..self
        }
    }

    pub fn is_pessimistic(&self) -> bool
        ensures { result ≡ is_pessimistic self.now.kind }
    {
        matches!(self.kind, TransactionKind::Pessimistic(_))
    }
}

impl Default for TransactionOptions {
    ghost is_default = { AreDefault (kinds.Pessimistic (timestamp_of 0)) usual_retries };

    fn default() -> TransactionOptions {
        TransactionOptions::new_pessimistic()
    }
}

impl Default for CheckLevel {
    ghost is_default = { λ level. level ≡ levels.Panic };

    fn default() -> CheckLevel {
        CheckLevel::Panic
    }
}

impl Default for HeartbeatOption {
    ghost is_default = { beats 10_000 };

    fn default() -> HeartbeatOption {
        HeartbeatOption::every_ten_seconds()
    }
}
