//! What a transaction writes and locks, in its buffer alone.
ghost use Rattle.std.specs.Prelude.{◌≡◌, Err, Ok, OnOk, None, Some, false, true};
ghost use Rattle.txn_buffer.specs.Contents.{mutated, with_write, write_at};
ghost use Rattle.txn_buffer.specs.Reads.{writes};
ghost use Rattle.txn_buffer.specs.Writes.{after_call, after_delete, after_insert, after_put, delete_call, insert_call, put_call};
ghost use Rattle.txn_history.specs.Turn.{turn_of};
ghost use Rattle.txn_history.specs.Turn.Turn.{Ends};
ghost use Rattle.txn_core.specs.Transaction.{AreLocked, AreSteps, GivesUp, IsStep, WriteEnds, all_put_or_delete, call_by, insert_refusal, is_open, is_put_or_delete, mutate_refusal, write_refusal};
ghost use Rattle.txn_core.specs.declared.txn_answer.TxnAnswer.TheVariants as answers;

use crate::transaction::{Transaction, Turn};
use crate::txn_answer::TxnAnswer;
use txn_buffer::Buffer;
use txn_commit::Plans;
use txn_kv::{Error, Key, Mutation, NoMemory, Op, Outbox, Progress, Value};
use txn_region::PdClient;

impl<C, P> Transaction<C, P>
where
    C: PdClient,
    P: Plans,
{
    pub fn put(
        &mut self,
        _pd: &mut C,
        key: Key,
        value: Value,
        _now: u64,
        _out: &mut Outbox,
    ) -> Turn<P>
        requires idle { is_open self.old.work ≡ false }
        ensures ends { WriteEnds (write_refusal self.old.status) (λ c d. IsStep (with_write c key (after_put (write_at c key) value)) (put_call key value) c d) self.old self.new (turn_of result) }
        ensures gives_up { GivesUp self.old self.new (turn_of result) }
        ensures quiet { (_out.new ≡ _out.old) × (_pd.new ≡ _pd.old) }
    {
        if self.has_given_up() {
            return Err(NoMemory);
        }
        if !self.status.allows_data() {
            return Ok(refused(Error::OperationAfterCommitError));
        }
        match self.buffer.put(key, value) {
            Ok(()) => Ok(done()),
            Err(_) => self.give_up(),
        }
    }

    /// A key of which a value is known is refused.
    pub fn insert(
        &mut self,
        _pd: &mut C,
        key: Key,
        value: Value,
        _now: u64,
        _out: &mut Outbox,
    ) -> Turn<P>
        requires idle { is_open self.old.work ≡ false }
        ensures ends { WriteEnds (insert_refusal self.old.status self.old.contents key) (λ c d. IsStep (with_write c key (after_insert (write_at c key) value)) (insert_call key value) c d) self.old self.new (turn_of result) }
        ensures gives_up { GivesUp self.old self.new (turn_of result) }
        ensures quiet { (_out.new ≡ _out.old) × (_pd.new ≡ _pd.old) }
    {
        if self.has_given_up() {
            return Err(NoMemory);
        }
        if !self.status.allows_data() {
            return Ok(refused(Error::OperationAfterCommitError));
        }
        match self.buffer.get(&key) {
            Ok(None) => self.insert_new(key, value),
            Ok(Some(_)) => Ok(refused(Error::DuplicateKeyInsertion)),
            Err(_) => self.give_up(),
        }
    }

    pub fn delete(&mut self, _pd: &mut C, key: Key, _now: u64, _out: &mut Outbox) -> Turn<P>
        requires idle { is_open self.old.work ≡ false }
        ensures ends { WriteEnds (write_refusal self.old.status) (λ c d. IsStep (with_write c key (after_delete c.is_pessimistic (write_at c key))) (delete_call key) c d) self.old self.new (turn_of result) }
        ensures gives_up { GivesUp self.old self.new (turn_of result) }
        ensures quiet { (_out.new ≡ _out.old) × (_pd.new ≡ _pd.old) }
    {
        if self.has_given_up() {
            return Err(NoMemory);
        }
        if !self.status.allows_data() {
            return Ok(refused(Error::OperationAfterCommitError));
        }
        match self.buffer.delete(key) {
            Ok(()) => Ok(done()),
            Err(_) => self.give_up(),
        }
    }

    /// Puts and deletes, in their order. Others are refused before anything is done.
    pub fn batch_mutate(
        &mut self,
        _pd: &mut C,
        mutations: Vec<Mutation>,
        _now: u64,
        _out: &mut Outbox,
    ) -> Turn<P>
        requires idle { is_open self.old.work ≡ false }
        ensures ends { WriteEnds (mutate_refusal self.old.status mutations.items) (AreSteps mutations.items) self.old self.new (turn_of result) }
        ensures gives_up { GivesUp self.old self.new (turn_of result) }
        ensures quiet { (_out.new ≡ _out.old) × (_pd.new ≡ _pd.old) }
    {
        if self.has_given_up() {
            return Err(NoMemory);
        }
        if !self.status.allows_data() {
            return Ok(refused(Error::OperationAfterCommitError));
        }
        if !all_put_or_delete(mutations.as_slice()) {
            return Ok(refused(Error::Unimplemented));
        }
        match mutate_all(&mut self.buffer, mutations) {
            Ok(()) => Ok(done()),
            Err(_) => self.give_up(),
        }
    }

    pub fn lock_keys(
        &mut self,
        _pd: &mut C,
        keys: Vec<Key>,
        _now: u64,
        _out: &mut Outbox,
    ) -> Turn<P>
        requires idle { is_open self.old.work ≡ false }
        ensures ends { WriteEnds (write_refusal self.old.status) (AreLocked keys.items) self.old self.new (turn_of result) }
        ensures gives_up { GivesUp self.old self.new (turn_of result) }
        ensures quiet { (_out.new ≡ _out.old) × (_pd.new ≡ _pd.old) }
    {
        if self.has_given_up() {
            return Err(NoMemory);
        }
        if !self.status.allows_data() {
            return Ok(refused(Error::OperationAfterCommitError));
        }
        match lock_all(&mut self.buffer, keys) {
            Ok(()) => Ok(done()),
            Err(_) => self.give_up(),
        }
    }

    fn insert_new(&mut self, key: Key, value: Value) -> Turn<P>
        ensures { WriteEnds None (λ c d. IsStep (with_write c key (after_insert (write_at c key) value)) (insert_call key value) c d) self.old self.new (turn_of result) }
    {
        match self.buffer.insert(key, value) {
            Ok(()) => Ok(done()),
            Err(_) => self.give_up(),
        }
    }
}

fn is_put_or_delete(op: Op) -> bool
    ensures { result ≡ is_put_or_delete op }
{
    matches!(op, Op::Put | Op::Del)
}

fn all_put_or_delete(mutations: &[Mutation]) -> bool
    ensures { result ≡ all_put_or_delete mutations.now }
{
    for mutation in mutations {
        if !is_put_or_delete(mutation.op) {
            return false;
        }
    }
    true
}

fn mutate_all(buffer: &mut Buffer, mutations: Vec<Mutation>) -> Result<(), NoMemory>
    requires { all_put_or_delete mutations.items ≡ true }
    ensures { OnOk result (AreSteps mutations.items buffer.old buffer.new) }
{
    for mutation in mutations {
        mutate(buffer, mutation)?;
    }
    Ok(())
}

/// A put or a delete.
fn mutate(buffer: &mut Buffer, mutation: Mutation) -> Result<(), NoMemory>
    requires { is_put_or_delete mutation.op ≡ true }
    ensures ok { OnOk result (mutated buffer.old mutation ≡ Some buffer.new) }
    ensures step { OnOk result (writes buffer.new ≡ after_call buffer.old.is_pessimistic (writes buffer.old) (call_by mutation.op mutation.key mutation.value)) }
{
    match mutation.op {
        Op::Put => {
            let (key, value) = mutation.into_parts();
            buffer.put(key, value)
        }
        _ => buffer.delete(mutation.into_key()),
    }
}

fn lock_all(buffer: &mut Buffer, keys: Vec<Key>) -> Result<(), NoMemory>
    ensures { OnOk result (AreLocked keys.items buffer.old buffer.new) }
{
    for key in keys {
        buffer.lock(key)?;
    }
    Ok(())
}

pub(super) fn done<P>() -> Progress<TxnAnswer<P>>
    ensures { turn_of (Ok result) ≡ Ends (Ok answers.Unit) }
{
    Progress::Done(Ok(TxnAnswer::Unit))
}

pub(super) fn refused<P>(error: Error) -> Progress<TxnAnswer<P>>
    ensures { turn_of (Ok result) ≡ Ends (Err error) }
{
    Progress::Done(Err(error))
}
