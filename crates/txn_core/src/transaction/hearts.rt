//! What keeps a transaction's primary alive.
ghost use Rattle.std.specs.Prelude.{◌≡◌, IfOk, IfSome, is_some};
ghost use Rattle.txn_core.specs.Heartbeats.{IsHeartbeatOf, has_heartbeat};

use crate::heartbeat::{Heartbeat, in_millis};
use crate::options::HeartbeatOption;
use crate::status::Status;
use crate::transaction::Transaction;
use txn_commit::Plans;
use txn_kv::NoMemory;
use txn_region::PdClient;

impl<C, P> Transaction<C, P>
where
    C: PdClient,
    P: Plans,
{
    /// What its heartbeat needs, where a commit of it is open that locks some key, unless it was begun without heartbeats.
    pub fn heartbeat(&self) -> Result<Option<Heartbeat>, NoMemory>
        ensures there { IfOk result (λ beat. is_some beat ≡ has_heartbeat self.now) }
        ensures beat { IfOk result (λ beat. IfSome beat (IsHeartbeatOf self.now)) }
    {
        if !self.is_busy() || !matches!(self.status, Status::StartedCommit) {
            return Ok(None);
        }
        let HeartbeatOption::FixedTime(interval) = self.options.heartbeat_option else {
            return Ok(None);
        };
        match self.buffer.primary_for_commit() {
            None => Ok(None),
            Some(primary) => Ok(Some(Heartbeat {
                start: self.timestamp,
                primary: primary.try_clone()?,
                began: self.started,
                interval: in_millis(interval),
                backoff: self.options.retry_options.region_backoff,
            })),
        }
    }
}
