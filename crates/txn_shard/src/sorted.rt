ghost use Rattle.std.specs.Prelude.{◌≡◌, IfOk};
ghost use Rattle.txn_shard.specs.Order.{in_order};

use std::alloc::Global;
use txn_kv::{Items, NoMemory, TryClone};
use txn_region::AsKey;

/// Copies of items in ascending order of their keys. Those of one key keep their order.
pub fn sorted<K: AsKey + TryClone>(alloc: Global, items: &[K]) -> Result<Items<K>, NoMemory>
    ensures { IfOk result (λ sorted. sorted ≡ in_order K.key items.now) }
{
    let mut sorted = K::try_clone_all(items, alloc)?;
    sorted.sort_by(|a, b| a.as_key().cmp(b.as_key()))?;
    Ok(Items::from_vec(sorted))
}
