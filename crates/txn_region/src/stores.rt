//! Stores that are known, and which of all stores a client sends to.
ghost use Rattle.std.specs.Prelude.{◌≡◌, ◌+◌, ◌++◌, ◌≤◌, OnOk, OnErr, IfOk, map, not, vec_len, vec_capacity};
ghost use Rattle.std.specs.List.{filter, find, list_any};
ghost use Rattle.std.specs.Option.{option_copied};
ghost use Rattle.txn_region.specs.Stores.{has_store_id, is_columnar, is_replaced, is_tombstone, is_valid_store, valid_stores, with_stores};

use crate::known_store::KnownStore;
use std::alloc::Global;
use txn_kv::{NoMemory, StoreId, StoreLabel, StoreMeta, StoreState, TryClone};

const ENGINE_LABEL_KEY: &str = "engine";

const ENGINE_LABEL_TIFLASH: &str = "tiflash";

const ENGINE_LABEL_TIFLASH_COMPUTE: &str = "tiflash_compute";

fn is_columnar(label: &StoreLabel) -> bool
    ensures { result ≡ is_columnar label.now }
{
    label.key.as_str() == ENGINE_LABEL_KEY
        && (label.value.as_str() == ENGINE_LABEL_TIFLASH
            || label.value.as_str() == ENGINE_LABEL_TIFLASH_COMPUTE)
}

fn is_tombstone(state: StoreState) -> bool
    ensures { result ≡ is_tombstone state }
{
    matches!(state, StoreState::Tombstone)
}

fn has_columnar(labels: &[StoreLabel]) -> bool
    ensures { result ≡ list_any is_columnar labels.now }
{
    for label in labels {
        if is_columnar(label) {
            return true;
        }
    }
    false
}

/// Whether transactions are sent to a store: it is no tombstone, and keeps rows and not columns.
pub fn is_valid_tikv_store(store: &StoreMeta) -> bool
    ensures { result ≡ is_valid_store store.now }
{
    !is_tombstone(store.state) && !has_columnar(store.labels.as_slice())
}

/// The store that is known under an id.
pub(crate) fn find_store(known: &[KnownStore], id: StoreId) -> Option<&KnownStore>
    ensures { option_copied result ≡ find (has_store_id id) known.now }
{
    known.iter().find(|known| known.id == id)
}

/// Copies of those of all stores that transactions are sent to.
pub(crate) fn copy_valid_stores(
    alloc: Global,
    stores: &[StoreMeta],
) -> Result<Vec<KnownStore>, NoMemory>
    ensures { IfOk result (λ copies. copies.items ≡ valid_stores stores.now) }
{
    let mut copies = Vec::new(alloc);
    for store in stores {
        if is_valid_tikv_store(store) {
            copies.push(KnownStore {
                id: store.id,
                store: store.try_clone()?,
            })?;
        }
    }
    Ok(copies)
}

fn is_replaced(new: &[KnownStore], known: &KnownStore) -> bool
    ensures { result ≡ is_replaced new.now known.now }
{
    for store in new {
        if store.id == known.id {
            return true;
        }
    }
    false
}

fn drop_replaced(known: &mut Vec<KnownStore>, new: &[KnownStore])
    ensures items { known.new.items ≡ filter (λ k. not (is_replaced new.now k)) known.old.items }
    ensures len { vec_len known.new ≤ vec_len known.old }
    ensures capacity { vec_capacity known.new ≡ vec_capacity known.old }
{
    known.retain(|store| !is_replaced(new, store));
}

/// Appends stores. There is room for them.
fn append_within(known: &mut Vec<KnownStore>, new: Vec<KnownStore>)
    requires { vec_len known.old + vec_len new ≤ vec_capacity known.old }
    ensures { known.new.items ≡ known.old.items ++ new.items }
{
    let mut new = new;
    let _ = known.append(&mut new);
}

/// Makes stores known in place of what was known under their ids. A refusal changes nothing.
pub(crate) fn put_stores(known: &mut Vec<KnownStore>, new: Vec<KnownStore>) -> Result<(), NoMemory>
    ensures ok { OnOk result (known.new.items ≡ with_stores new.items known.old.items) }
    ensures err { OnErr result (known.new.items ≡ known.old.items) }
{
    known.reserve(new.len())?;
    drop_replaced(known, new.as_slice());
    append_within(known, new);
    Ok(())
}
