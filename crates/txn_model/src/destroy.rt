//! All that is kept of a range goes.
ghost use Rattle.std.specs.Prelude.{◌≡◌, not};
ghost use Rattle.txn_model.specs.Cells.{AreKept};
ghost use Rattle.txn_model.specs.Destroy.{cells_outside};
ghost use Rattle.txn_model.specs.Orderly.{AreOrderly};
ghost use Rattle.txn_model.specs.Ranges.{in_range};

use crate::cell::Cell;
use crate::ranges::is_in_range;
use txn_kv::Key;

fn is_outside(low: &Key, high: &Key, cell: &Cell) -> bool
    ensures { result ≡ not (in_range low.now high.now cell.now.key) }
{
    !is_in_range(low, high, &cell.key)
}

/// Takes the cells of a range away.
pub fn destroy_range(cells: &mut Vec<Cell>, low: &Key, high: &Key)
    requires kept { AreKept cells.old.items }
    requires ordered { AreOrderly cells.old.items }
    ensures cells { cells.new.items ≡ cells_outside low.now high.now cells.old.items }
    ensures kept { AreKept cells.new.items }
    ensures ordered { AreOrderly cells.new.items }
{
    cells.retain(|cell| is_outside(low, high, cell));
}
