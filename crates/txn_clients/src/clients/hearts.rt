//! What clients lend heartbeats.
use crate::clients::Clients;
use crate::row::Row;
use txn_commit::Plans;
use txn_core::{Heartbeat, Status};
use txn_heartbeat::{HeartHost, HeartbeatJob, PlanForHeartbeats};
use txn_kv::{Arrival, NoMemory, Outbox, Progress};

impl<P> HeartHost for Clients<P>
where
    P: Plans,
{
    ghost use Rattle.std.specs.Prelude.{refl};
    ghost use Rattle.txn_clients.specs.Beating.{arises_when_beating};
    ghost use Rattle.txn_clients.specs.Clients.{rows_of};
    ghost use Rattle.txn_clients.specs.Hearts.{HeartOf, status_of};

    ghost heart = { λ s. HeartOf (rows_of s) };

    ghost status_at = { λ s. status_of (rows_of s) };

    ghost unbeaten = { λ s. refl };

    ghost arises_beating = { arises_when_beating P.ways };

    fn heartbeat(&self, transaction: u64) -> Result<Option<Heartbeat>, NoMemory> {
        if transaction == 0 || transaction > self.newest() {
            return Ok(None);
        }
        match self.row(transaction) {
            Row::Begun { transaction, .. } => transaction.heartbeat(),
            _ => Ok(None),
        }
    }

    fn status(&self, transaction: u64) -> Status {
        if transaction == 0 || transaction > self.newest() {
            return Status::Dropped;
        }
        match self.row(transaction) {
            Row::Begun { transaction, .. } => transaction.status(),
            _ => Status::Dropped,
        }
    }

    fn beat<H: PlanForHeartbeats>(
        &mut self,
        line: u64,
        job: &mut HeartbeatJob<H>,
        arrival: Arrival,
        status: Status,
        now: u64,
        out: &mut Outbox,
    ) -> Result<Progress<()>, NoMemory> {
        match self.live_client(line) {
            None => {
                drop(arrival);
                Ok(Progress::Waiting)
            }
            Some(client) => {
                let pd = self.clients[client].client.pd();
                job.tell(arrival, status, pd, now, out)
            }
        }
    }
}
