//! What a transaction writes. No write is made while a call is open.
ghost use Rattle.std.specs.Prelude.{◌≡◌, false};
ghost use Rattle.txn_core.specs.Transaction.{is_open};

use crate::transacting::{Transacting, Turn};
use case_words::{bytes, word};
use std::alloc::Global;
use txn_commit::Plans;
use txn_kv::{Assertion, Key, Mutation, Op, Value};

impl<P> Transacting<P>
where
    P: Plans,
{
    pub(crate) fn write(&mut self, words: &[&str]) -> Option<Turn<P>>
        requires { is_open self.old.work ≡ false }
    {
        let name = word(words, 1);
        match word(words, 0) {
            "put" => Some(self.put(key(self.alloc, name))),
            "insert" => Some(self.insert(key(self.alloc, name))),
            "delete" => Some(self.delete(key(self.alloc, name))),
            "lock" => Some(self.lock(keys(self.alloc, name))),
            "mutate" => Some(self.mutate(mutations(self.alloc, name))),
            _ => None,
        }
    }

    fn put(&mut self, key: Key) -> Turn<P>
        requires { is_open self.old.work ≡ false }
    {
        let value = Value::new(self.alloc);
        let turn = self.txn.put(&mut self.pd, key, value, 350, &mut self.out);
        turn
    }

    fn insert(&mut self, key: Key) -> Turn<P>
        requires { is_open self.old.work ≡ false }
    {
        let value = Value::new(self.alloc);
        let turn = self
            .txn
            .insert(&mut self.pd, key, value, 350, &mut self.out);
        turn
    }

    fn delete(&mut self, key: Key) -> Turn<P>
        requires { is_open self.old.work ≡ false }
    {
        let turn = self.txn.delete(&mut self.pd, key, 350, &mut self.out);
        turn
    }

    fn mutate(&mut self, mutations: Vec<Mutation>) -> Turn<P>
        requires { is_open self.old.work ≡ false }
    {
        let turn = self
            .txn
            .batch_mutate(&mut self.pd, mutations, 350, &mut self.out);
        turn
    }

    fn lock(&mut self, keys: Vec<Key>) -> Turn<P>
        requires { is_open self.old.work ≡ false }
    {
        let turn = self.txn.lock_keys(&mut self.pd, keys, 350, &mut self.out);
        turn
    }
}

fn key(alloc: Global, name: &str) -> Key {
    Key::from(bytes(alloc, name))
}

fn keys(alloc: Global, name: &str) -> Vec<Key> {
    let mut keys = Vec::new(alloc);
    let _ = keys.push(key(alloc, name));
    keys
}

fn op(name: &str) -> Op {
    match name {
        "Del" => Op::Del,
        "Lock" => Op::Lock,
        "Insert" => Op::Insert,
        "CheckNotExists" => Op::CheckNotExists,
        "Rollback" => Op::Rollback,
        "PessimisticLock" => Op::PessimisticLock,
        _ => Op::Put,
    }
}

fn mutation(alloc: Global, op: Op, name: &str) -> Mutation {
    Mutation {
        op,
        key: key(alloc, name),
        value: Value::new(alloc),
        assertion: Assertion::None,
    }
}

/// A put of a, and this of b.
fn mutations(alloc: Global, kind: &str) -> Vec<Mutation> {
    let mut mutations = Vec::new(alloc);
    let _ = mutations.push(mutation(alloc, Op::Put, "a"));
    let _ = mutations.push(mutation(alloc, op(kind), "b"));
    mutations
}
