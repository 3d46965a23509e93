//! How requests change the cells of their keys, all or none.
ghost use Rattle.std.specs.Prelude.{◌≡◌, ◌∷◌, [], map, IfOk, OnOk, OnErr};
ghost use Rattle.txn_model.specs.Cells.{AreInOrder, AreKept, cell_at, changed_at};
ghost use Rattle.txn_model.specs.Orderly.{AreOrderly};
ghost use Rattle.txn_model.specs.Rollback.{is_for_update_by};
ghost use Rattle.txn_model.specs.Rules.{changed_by, goes_if, rolling_back, unlocking, holds_pessimistic, change_of};
ghost use Rattle.txn_model.specs.Settle.{with_start};
ghost use Rattle.txn_model.specs.Status.{is_missing};

use crate::cell::{Cell, Lock};
use crate::cells::{find, holds, owns};
use crate::change::{Change, LockChange, make_change, make_changes};
use crate::commits::commit_of;
use std::alloc::Global;
use txn_kv::{Items, Key, NoMemory};

/// What becomes of the cell of a key. Each but the last is of a start, the first of the numbers.
#[derive(Clone, Copy)]
pub enum Rule {
    /// It is rolled back.
    RollBack(u64),
    /// It is rolled back where it has neither a prewrite lock nor a commit.
    RollBackMissing(u64),
    /// Its pessimistic lock goes.
    Release(u64),
    /// Its pessimistic lock goes, where the for-update timestamp is at most this.
    ReleaseUpTo(u64, u64),
    Stay,
}

/// The starts with one more, ascending and each once.
fn with_start(alloc: Global, rolled: &[u64], start: u64) -> Result<Items<u64>, NoMemory>
    ensures { IfOk result (λ starts. starts ≡ with_start start rolled.now) }
{
    let mut starts = Items::new(alloc);
    let mut is_in = false;
    for other in rolled {
        if !is_in && start < *other {
            starts.push(start)?;
        }
        is_in = is_in || start <= *other;
        starts.push(*other)?;
    }
    if !is_in {
        starts.push(start)?;
    }
    Ok(starts)
}

fn goes_if(goes: bool) -> LockChange
    ensures { result ≡ goes_if goes }
{
    if goes {
        LockChange::Goes
    } else {
        LockChange::Stays
    }
}

pub fn rolling_back(alloc: Global, start: u64, key: &Key, cell: &Cell) -> Result<Change, NoMemory>
    ensures { IfOk result (λ change. change ≡ rolling_back start key.now cell.now) }
{
    Ok(Change {
        key: key.try_clone()?,
        lock: goes_if(holds(&cell.lock, start)),
        rolled: Some(with_start(alloc, cell.rolled.as_slice(), start)?),
    })
}

pub fn unlocking(goes: bool, key: &Key) -> Result<Change, NoMemory>
    ensures { IfOk result (λ change. change ≡ unlocking goes key.now) }
{
    Ok(Change {
        key: key.try_clone()?,
        lock: goes_if(goes),
        rolled: None,
    })
}

pub fn holds_pessimistic(start: u64, cell: &Cell) -> bool
    ensures { result ≡ holds_pessimistic start cell.now }
{
    holds(&cell.lock, start) && !owns(&cell.lock, start)
}

fn is_for_update_by(for_update: u64, lock: &Option<Lock>) -> bool
    ensures { result ≡ is_for_update_by for_update lock.now }
{
    match lock {
        Some(lock) => lock.for_update <= for_update,
        None => false,
    }
}

/// The start has neither a prewrite lock nor a commit.
pub fn is_missing(start: u64, cell: &Cell) -> bool
    ensures { result ≡ is_missing start cell.now }
{
    !owns(&cell.lock, start) && commit_of(cell.commits.as_slice(), start).is_none()
}

/// What is made ready for a rule at a key and its cell.
fn change_of(alloc: Global, rule: Rule, key: &Key, cell: &Cell) -> Result<Change, NoMemory>
    ensures { IfOk result (λ change. change ≡ change_of rule key.now cell.now) }
{
    match rule {
        Rule::RollBack(start) => rolling_back(alloc, start, key, cell),
        Rule::RollBackMissing(start) => {
            if is_missing(start, cell) {
                rolling_back(alloc, start, key, cell)
            } else {
                unlocking(false, key)
            }
        }
        Rule::Release(start) => unlocking(holds_pessimistic(start, cell), key),
        Rule::ReleaseUpTo(start, for_update) => {
            let goes = holds_pessimistic(start, cell) && is_for_update_by(for_update, &cell.lock);
            unlocking(goes, key)
        }
        Rule::Stay => unlocking(false, key),
    }
}

fn change_at(alloc: Global, cells: &[Cell], rule: Rule, key: &Key) -> Result<Change, NoMemory>
    requires { AreInOrder cells.now }
    ensures { IfOk result (λ change. change ≡ change_of rule key.now (cell_at cells.now key.now)) }
{
    match find(cells, key) {
        Some(cell) => change_of(alloc, rule, key, cell),
        None => {
            let empty = Cell::empty(alloc, Key::empty(alloc));
            change_of(alloc, rule, key, &empty)
        }
    }
}

fn changes_at(
    alloc: Global,
    cells: &[Cell],
    rule: Rule,
    keys: &[Key],
) -> Result<Vec<Change>, NoMemory>
    requires { AreInOrder cells.now }
    ensures { IfOk result (λ changes. changes.items ≡ map (λ k. change_of rule k (cell_at cells.now k)) keys.now) }
{
    let mut changes = Vec::new(alloc);
    for key in keys {
        changes.push(change_at(alloc, cells, rule, key)?)?;
    }
    Ok(changes)
}

/// Changes the cells of keys by a rule.
pub fn change_all(cells: &mut Vec<Cell>, rule: Rule, keys: &[Key]) -> Result<(), NoMemory>
    requires kept { AreKept cells.old.items }
    requires ordered { AreOrderly cells.old.items }
    ensures ok { OnOk result (cells.new.items ≡ changed_at keys.now (changed_by rule) cells.old.items) }
    ensures kept { AreKept cells.new.items }
    ensures ordered { AreOrderly cells.new.items }
    ensures err { OnErr result (cells.new.items ≡ cells.old.items) }
{
    let changes = changes_at(*cells.allocator(), cells.as_slice(), rule, keys)?;
    cells.reserve(changes.len())?;
    make_changes(cells, changes);
    Ok(())
}

/// Changes the cell of one key by a rule.
pub fn change_one(cells: &mut Vec<Cell>, rule: Rule, key: &Key) -> Result<(), NoMemory>
    requires kept { AreKept cells.old.items }
    requires ordered { AreOrderly cells.old.items }
    ensures ok { OnOk result (cells.new.items ≡ changed_at (key.now ∷ []) (changed_by rule) cells.old.items) }
    ensures kept { AreKept cells.new.items }
    ensures ordered { AreOrderly cells.new.items }
    ensures err { OnErr result (cells.new.items ≡ cells.old.items) }
{
    let change = change_at(*cells.allocator(), cells.as_slice(), rule, key)?;
    cells.reserve(1)?;
    make_change(cells, change);
    Ok(())
}
