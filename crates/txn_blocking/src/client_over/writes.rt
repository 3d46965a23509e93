//! Writes: they stay in the transaction until it is committed, and nothing is sent.
ghost use Rattle.std.specs.Prelude.{◌≡◌, IfOk, Ok};
ghost use Rattle.txn_blocking.specs.Blocking.{Reads, Wrote};
ghost use Rattle.txn_buffer.specs.Contents.{with_write, write_at};
ghost use Rattle.txn_buffer.specs.Writes.{after_delete, after_put};
ghost use Rattle.txn_core.specs.Transaction.{write_refusal};
ghost use Rattle.txn_history.specs.Turn.{turn_of};

use crate::client_over::{ClientOver, TransactionOver};
use crate::transport::{Answer, Transport};
use txn_commit::Plans;
use txn_core::TxnAnswer;
use txn_kv::{Key, NoMemory, Progress, Value};

/// What a write answers.
fn written<P: Drop>(progress: Progress<TxnAnswer<P>>) -> Answer<()>
    ensures { IfOk result (Reads (turn_of (Ok progress))) }
{
    match progress {
        Progress::Done(Ok(_)) => Ok(Ok(())),
        Progress::Done(Err(error)) => Ok(Err(error)),
        Progress::Waiting => Err(NoMemory),
    }
}

impl<T, P> ClientOver<T, P>
where
    T: Transport,
    P: Plans,
{
    pub fn put(
        &mut self,
        transaction: &mut TransactionOver<P>,
        key: Key,
        value: Value,
    ) -> Answer<()>
        ensures wrote { IfOk result (Wrote (write_refusal transaction.old.status) (with_write transaction.old.contents key (after_put (write_at transaction.old.contents key) value)) transaction.old transaction.new) }
        ensures sends { self.new.transport ≡ self.old.transport }
    {
        if transaction.inner.is_busy() {
            return Err(NoMemory);
        }
        let now = self.transport.now();
        let mut out = self.outbox()?;
        let progress = transaction
            .inner
            .put(self.client.pd(), key, value, now, &mut out)?;
        written(progress)
    }

    pub fn delete(&mut self, transaction: &mut TransactionOver<P>, key: Key) -> Answer<()>
        ensures wrote { IfOk result (Wrote (write_refusal transaction.old.status) (with_write transaction.old.contents key (after_delete transaction.old.contents.is_pessimistic (write_at transaction.old.contents key))) transaction.old transaction.new) }
        ensures sends { self.new.transport ≡ self.old.transport }
    {
        if transaction.inner.is_busy() {
            return Err(NoMemory);
        }
        let now = self.transport.now();
        let mut out = self.outbox()?;
        let progress = transaction
            .inner
            .delete(self.client.pd(), key, now, &mut out)?;
        written(progress)
    }
}
