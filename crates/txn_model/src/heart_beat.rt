//! Heartbeats: a lock lives longer.
ghost use Rattle.std.specs.Prelude.{◌≡◌};
ghost use Rattle.txn_model.specs.Cells.{AreKept, cell_at};
ghost use Rattle.txn_model.specs.HeartBeats.{ttl_told, lengthened, lengthened_at};
ghost use Rattle.txn_model.specs.Orderly.{AreOrderly};
ghost use Rattle.txn_model.specs.Settle.{lock_of_start};

use crate::cell::{Cell, Lock};
use crate::cells::search;
use txn_kv::Key;

/// Lengthens the life of the lock of a start: what its time to live is then, if it has one.
fn lengthen_lock(lock: &mut Option<Lock>, start: u64, ttl: u64) -> Option<u64>
    ensures lock { lock.new ≡ lengthened start ttl lock.old }
    ensures told { result ≡ ttl_told ttl (lock_of_start start lock.old) }
{
    let Some(lock) = lock else {
        return None;
    };
    if lock.start != start {
        return None;
    }
    lock.ttl = lock.ttl.max(ttl);
    Some(lock.ttl)
}

/// The same of the lock at a key. Takes no memory.
pub fn lengthen(cells: &mut Vec<Cell>, key: &Key, start: u64, ttl: u64) -> Option<u64>
    requires kept { AreKept cells.old.items }
    requires ordered { AreOrderly cells.old.items }
    ensures cells { cells.new.items ≡ lengthened_at key.now ttl (lock_of_start start (cell_at cells.old.items key.now).lock) cells.old.items }
    ensures told { result ≡ ttl_told ttl (lock_of_start start (cell_at cells.old.items key.now).lock) }
    ensures kept { AreKept cells.new.items }
    ensures ordered { AreOrderly cells.new.items }
{
    match search(cells.as_slice(), key) {
        Ok(at) => lengthen_lock(&mut cells[at].lock, start, ttl),
        Err(_) => None,
    }
}
