ghost use Rattle.std.specs.Prelude.{◌<◌, ◌^◌};

use txn_kv::{NoMemory, Reply, Request, Target};

/// What a call answers that has run to its end. Out of memory there is no answer.
pub type Answer<T> = std::result::Result<txn_kv::Result<T>, NoMemory>;

/// Carries the requests of a client to the cluster, brings the replies, and tells the time.
pub trait Transport {
    /// The reply to a request. None where the request or its reply was lost: whether it was handled is not known then.
    fn send(&mut self, to: Target, request: &Request) -> Option<Reply>;

    /// Waits so many milliseconds.
    fn sleep(&mut self, ms: u64);

    /// The time, in milliseconds.
    fn now(&self) -> u64
        ensures { result < 2 ^ 44 };
}
