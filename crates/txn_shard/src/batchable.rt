ghost use Rattle.std.specs.Prelude.{◌≡◌, ◌+◌, ◌<◌, ◌≤◌, ◌∷◌, [], ℕ, true, false, IfOk, length, map};
ghost use Rattle.txn_shard.specs.Batches.{AreBatches};

use crate::in_bytes::InBytes;
use std::alloc::Global;
use txn_kv::{CommitRequest, Key, Mutation, NoMemory, PrewriteRequest};

/// The size at which a batch of a Prewrite or of a Commit is closed, in bytes.
pub const TXN_COMMIT_BATCH_SIZE: u64 = 16384;

/// A request whose items are sent in batches.
pub trait Batchable {
    type Item: Drop;

    // The bytes that an item counts for.
    ghost size: { Self.Item → ℕ };

    /// Cuts items into batches. A batch is closed where the next item would make it reach the size, so that an item of that
    /// size or more is a batch of its own.
    fn batches(
        alloc: Global,
        items: Vec<Self::Item>,
        batch_size: u64,
    ) -> Result<Vec<Vec<Self::Item>>, NoMemory>
        ensures { IfOk result (λ batches. AreBatches size batch_size items.items (map (λ batch. batch.items) batches.items)) };

    /// The bytes that an item counts for.
    fn item_size(item: &Self::Item) -> u64
        ensures { result ≡ size item.now };
}

impl Batchable for PrewriteRequest {
    type Item = Mutation;

    ghost size = { λ mutation. length mutation.key + length mutation.value };

    fn batches(
        alloc: Global,
        items: Vec<Mutation>,
        batch_size: u64,
    ) -> Result<Vec<Vec<Mutation>>, NoMemory>
        ensures { IfOk result (λ batches. AreBatches ⟦<PrewriteRequest as Batchable>⟧.size batch_size items.items (map (λ batch. batch.items) batches.items)) }
    {
        in_batches(alloc, items, batch_size)
    }

    fn item_size(item: &Mutation) -> u64 {
        item.bytes()
    }
}

impl Batchable for CommitRequest {
    type Item = Key;

    ghost size = { λ key. length key };

    fn batches(alloc: Global, items: Vec<Key>, batch_size: u64) -> Result<Vec<Vec<Key>>, NoMemory>
        ensures { IfOk result (λ batches. AreBatches ⟦<CommitRequest as Batchable>⟧.size batch_size items.items (map (λ batch. batch.items) batches.items)) }
    {
        in_batches(alloc, items, batch_size)
    }

    fn item_size(item: &Key) -> u64 {
        item.bytes()
    }
}

pub(crate) fn in_batches<T: InBytes>(
    alloc: Global,
    items: Vec<T>,
    batch_size: u64,
) -> Result<Vec<Vec<T>>, NoMemory>
    ensures { IfOk result (λ batches. AreBatches T.count batch_size items.items (map (λ batch. batch.items) batches.items)) }
{
    let mut batches = Vec::new(alloc);
    let mut batch = Vec::new(alloc);
    let mut size: u64 = 0;
    for item in items {
        let added = item.bytes();
        let grown = size.saturating_add(added);
        if is_full(&batch, grown, batch_size) {
            batches.push(batch)?;
            batch = batch_of(alloc, item)?;
            size = added;
        } else {
            batch.push(item)?;
            size = grown;
        }
    }
    if batch.is_empty() {
        return Ok(batches);
    }
    batches.push(batch)?;
    Ok(batches)
}

/// Whether a batch that would grow to this size is closed instead.
fn is_full<T>(batch: &Vec<T>, grown: u64, batch_size: u64) -> bool
    ensures full { result ≡ true → (0 < length batch.now.items) × (batch_size ≤ grown) }
    ensures room { result ≡ false → 0 < length batch.now.items → grown < batch_size }
{
    !batch.is_empty() && grown >= batch_size
}

pub(crate) fn batch_of<T: Drop>(alloc: Global, item: T) -> Result<Vec<T>, NoMemory>
    ensures { IfOk result (λ batch. batch.items ≡ item ∷ []) }
{
    let mut batch = Vec::new(alloc);
    batch.push(item)?;
    Ok(batch)
}
