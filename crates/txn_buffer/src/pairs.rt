//! Lists of pairs, in key order or in the direction of a scan.
ghost use Rattle.std.specs.Prelude.{◌≡◌, IfOk};
ghost use Rattle.std.specs.Bool.{Decides};
ghost use Rattle.txn_buffer.specs.Overlay.{directed, first_pairs, in_key_order};
ghost use Rattle.txn_buffer.specs.Passing.{IsAscending};
ghost use Rattle.txn_buffer.specs.Reads.{pairs_of};

use std::alloc::Global;
use std::collections::BTreeMap;
use txn_kv::{Key, KvPair, NoMemory, Value};

/// The pairs in key order, of two of one key the later. Where they come in the direction of the scan,
/// and each key once, this only turns them round; else it sorts them.
#[tactic(auto, using(crate::proofs::Ordered::in_order_of, crate::proofs::Ordered::directed_back))]
pub(crate) fn in_key_order(
    alloc: Global,
    fetched: Vec<KvPair>,
    reverse: bool,
) -> Result<Vec<KvPair>, NoMemory>
    ensures same { IfOk result (λ pairs. pairs_of pairs.items ≡ in_key_order (pairs_of fetched.items)) }
    ensures ascending { IfOk result (λ pairs. IsAscending (pairs_of pairs.items)) }
{
    let pairs = directed(fetched, reverse);
    if ascends(&pairs) {
        Ok(pairs)
    } else {
        sorted(alloc, directed(pairs, reverse))
    }
}

/// Whether each key is below the next.
fn ascends(pairs: &[KvPair]) -> bool
    ensures { Decides result (IsAscending (pairs_of pairs.now)) }
{
    pairs.is_sorted_by(|pair, next| pair.0 < next.0)
}

/// The same whatever the order in which they come.
fn sorted(alloc: Global, pairs: Vec<KvPair>) -> Result<Vec<KvPair>, NoMemory>
    ensures same { IfOk result (λ sorted. pairs_of sorted.items ≡ in_key_order (pairs_of pairs.items)) }
    ensures ascending { IfOk result (λ sorted. IsAscending (pairs_of sorted.items)) }
{
    all_pairs(alloc, by_key(alloc, pairs)?)
}

fn by_key(alloc: Global, pairs: Vec<KvPair>) -> Result<BTreeMap<Key, Value>, NoMemory>
    ensures { IfOk result (λ map. map.entries ≡ in_key_order (pairs_of pairs.items)) }
{
    let mut map = BTreeMap::new(alloc);
    for pair in pairs {
        let (key, value) = pair.into_parts();
        map.insert(key, value)?;
    }
    Ok(map)
}

fn all_pairs(alloc: Global, map: BTreeMap<Key, Value>) -> Result<Vec<KvPair>, NoMemory>
    ensures same { IfOk result (λ all. pairs_of all.items ≡ map.entries) }
    ensures ascending { IfOk result (λ all. IsAscending (pairs_of all.items)) }
{
    let mut all = Vec::new(alloc);
    for (key, value) in map {
        all.push(KvPair(key, value))?;
    }
    Ok(all)
}

/// The first of the pairs, from their low end or, where `reverse`, from their high end.
#[tactic(auto, using(crate::proofs::Scans::firsts_of))]
pub(crate) fn first_pairs(pairs: Vec<KvPair>, limit: usize, reverse: bool) -> Vec<KvPair>
    ensures { pairs_of result.items ≡ first_pairs limit reverse (pairs_of pairs.items) }
{
    let mut firsts = directed(pairs, reverse);
    firsts.truncate(limit);
    firsts
}

fn directed(mut pairs: Vec<KvPair>, reverse: bool) -> Vec<KvPair>
    ensures { result.items ≡ directed reverse pairs.items }
{
    if reverse {
        pairs.reverse();
    }
    pairs
}
