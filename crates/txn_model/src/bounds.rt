//! What a prewrite tells of its keys: the bound of its locks, or a commit of its start that it passed over.
ghost use Rattle.std.specs.Prelude.{◌≡◌, is_none};
ghost use Rattle.std.specs.List.{list_any, list_all};
ghost use Rattle.std.specs.Option.{option_copied};
ghost use Rattle.txn_model.specs.Cells.{AreInOrder, cell_at};
ghost use Rattle.txn_model.specs.Locks.{commit_of};
ghost use Rattle.txn_model.specs.Placings.{bound_by};
ghost use Rattle.txn_model.specs.Prewrite.{kind_of, passed_commit, bound_at, greatest_bound, is_plain_lock, told_bound};
ghost use Rattle.txn_model.specs.Status.{timestamp_or_0};

use crate::cell::{Cell, Lock, Write};
use crate::cells::{commit_at, find};
use crate::commits::commit_of;
use crate::prewrite::kind_of;
use txn_kv::{Key, Mutation, PrewriteRequest};

/// The first commit of a start on the keys of mutations.
pub fn passed_commit<'a>(cells: &'a [Cell], start: u64, mutations: &[Mutation]) -> Option<&'a Write>
    requires { AreInOrder cells.now }
    ensures { option_copied result ≡ passed_commit cells.now start mutations.now }
{
    for mutation in mutations {
        if let Some(write) = commit_at(cells, &mutation.key, start) {
            return Some(write);
        }
    }
    None
}

fn timestamp_or_0(commit: Option<&Write>) -> u64
    ensures { result ≡ timestamp_or_0 (option_copied commit.entry) }
{
    match commit {
        Some(write) => write.commit,
        None => 0,
    }
}

/// The bound of a start's prewrite lock, or else when it was committed.
fn bound_at(start: u64, lock: &Option<Lock>, commit: Option<&Write>) -> u64
    ensures { result ≡ bound_at start lock.now (option_copied commit.entry) }
{
    match lock {
        Some(lock) => {
            if lock.start == start && lock.kind.is_prewrite() {
                lock.min_commit
            } else {
                timestamp_or_0(commit)
            }
        }
        None => timestamp_or_0(commit),
    }
}

fn bound_of(cells: &[Cell], start: u64, key: &Key) -> u64
    requires { AreInOrder cells.now }
    ensures { result ≡ bound_at start (cell_at cells.now key.now).lock (commit_of (cell_at cells.now key.now).commits start) }
{
    match find(cells, key) {
        Some(cell) => bound_at(start, &cell.lock, commit_of(cell.commits.as_slice(), start)),
        None => 0,
    }
}

/// The bound at a mutation's key, and 0 where it sets no lock.
fn bound_by(cells: &[Cell], start: u64, mutation: &Mutation) -> u64
    requires { AreInOrder cells.now }
    ensures { result ≡ bound_by cells.now start mutation.now }
{
    match kind_of(mutation.op) {
        Some(_) => bound_of(cells, start, &mutation.key),
        None => 0,
    }
}

fn greatest_bound(cells: &[Cell], start: u64, mutations: &[Mutation]) -> u64
    requires { AreInOrder cells.now }
    ensures { result ≡ greatest_bound cells.now start mutations.now }
{
    let mut greatest = 0;
    for mutation in mutations {
        greatest = greatest.max(bound_by(cells, start, mutation));
    }
    greatest
}

fn is_plain_lock(start: u64, lock: &Option<Lock>) -> bool
    ensures { result ≡ is_plain_lock start lock.now }
{
    match lock {
        Some(lock) => lock.start == start && lock.kind.is_prewrite() && !lock.use_async,
        None => false,
    }
}

fn has_plain_lock(cells: &[Cell], start: u64, key: &Key) -> bool
    requires { AreInOrder cells.now }
    ensures { result ≡ is_plain_lock start (cell_at cells.now key.now).lock }
{
    match find(cells, key) {
        Some(cell) => is_plain_lock(start, &cell.lock),
        None => false,
    }
}

/// Some key has a prewrite lock of the start that is not async.
fn any_plain_lock(cells: &[Cell], start: u64, mutations: &[Mutation]) -> bool
    requires { AreInOrder cells.now }
    ensures { result ≡ list_any (λ m. is_plain_lock start (cell_at cells.now m.key).lock) mutations.now }
{
    for mutation in mutations {
        if has_plain_lock(cells, start, &mutation.key) {
            return true;
        }
    }
    false
}

fn are_checks(mutations: &[Mutation]) -> bool
    ensures { result ≡ list_all (λ m. is_none (kind_of m.op)) mutations.now }
{
    for mutation in mutations {
        if kind_of(mutation.op).is_some() {
            return false;
        }
    }
    true
}

/// The bound that the reply tells, over the cells as they are then.
pub fn told_bound(cells: &[Cell], request: &PrewriteRequest) -> u64
    requires { AreInOrder cells.now }
    ensures { result ≡ told_bound cells.now request.now }
{
    let start = request.start_version;
    let mutations = request.mutations.as_slice();
    if !request.use_async_commit || any_plain_lock(cells, start, mutations) {
        return 0;
    }
    if are_checks(mutations) {
        return 1;
    }
    greatest_bound(cells, start, mutations)
}
