use txn_kv::{StoreId, StoreMeta};

/// What the placement driver answered when it was asked for the store of an id.
#[derive(Debug, PartialEq, Eq)]
pub struct KnownStore {
    pub id: StoreId,
    pub store: StoreMeta,
}

impl Drop for KnownStore {
    fn drop(self) {
        let KnownStore { id: _, store } = self;
        drop(store);
    }
}
