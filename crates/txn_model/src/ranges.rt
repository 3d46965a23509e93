//! Ranges of keys. The end is left out; an empty end is no bound.
ghost use Rattle.std.specs.Prelude.{◌≡◌, ℕ, ◌<◌, ◌≤◌, ◌||◌, true, false, length, slice_index_or};
ghost use Rattle.std.specs.Ordering.{is_lt};
ghost use Rattle.txn_model.specs.declared.cell.Cell.{Cell};
ghost use Rattle.txn_model.specs.Cells.{AreInOrder, key_cmp, has_none};
ghost use Rattle.txn_model.specs.Orderly.{AreOrderly};
ghost use Rattle.txn_model.specs.Ranges.{in_range, cells_in};

use crate::cell::Cell;
use crate::cells::search;
use txn_kv::Key;

/// A key is in a range.
pub fn is_in_range(low: &Key, high: &Key, key: &Key) -> bool
    ensures { result ≡ in_range low.now high.now key.now }
{
    !(*key < *low) && (high.is_empty() || *key < *high)
}

/// How many cells are below a key.
fn count_below(cells: &[Cell], key: &Key) -> usize
    requires { AreInOrder cells.now }
    ensures bound { result ≤ length cells.now }
    ensures below { (i : ℕ) (d : Cell) → i < result → is_lt (key_cmp (slice_index_or cells.now i d).key key.now) ≡ true }
    ensures rest { (i : ℕ) (d : Cell) → result ≤ i → i < length cells.now → is_lt (key_cmp (slice_index_or cells.now i d).key key.now) ≡ false }
{
    match search(cells, key) {
        Ok(at) => at,
        Err(at) => at,
    }
}

/// How many cells are below the end of a range.
fn count_until(cells: &[Cell], high: &Key) -> usize
    requires { AreInOrder cells.now }
    ensures bound { result ≤ length cells.now }
    ensures below { (i : ℕ) (d : Cell) → i < result → (has_none high.now || is_lt (key_cmp (slice_index_or cells.now i d).key high.now)) ≡ true }
    ensures rest { (i : ℕ) (d : Cell) → result ≤ i → i < length cells.now → (has_none high.now || is_lt (key_cmp (slice_index_or cells.now i d).key high.now)) ≡ false }
{
    if high.is_empty() {
        return cells.len();
    }
    count_below(cells, high)
}

/// The cells of a range, in the order of their keys.
pub fn cells_in<'a>(cells: &'a [Cell], low: &Key, high: &Key) -> &'a [Cell]
    requires in_order { AreInOrder cells.now }
    requires ordered { AreOrderly cells.now }
    ensures value { result.now ≡ cells_in low.now high.now cells.now }
    ensures in_order { AreInOrder result.now }
    ensures ordered { AreOrderly result.now }
{
    let from = count_below(cells, low);
    let to = count_until(cells, high).max(from);
    &cells[from..to]
}
