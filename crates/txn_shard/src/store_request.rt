ghost use Rattle.std.specs.Prelude.{◌≡◌};

use txn_kv::UnsafeDestroyRangeRequest;
use txn_region::Store;

/// A request that goes to every store, whatever its regions.
pub trait StoreRequest {
    ghost use Rattle.txn_region.specs.declared.store.Store.{Store};

    // The request, as it is sent to a store.
    ghost at_store: { Store → Self → Self };

    fn apply_store(&mut self, store: &Store)
        ensures { self.new ≡ at_store store.now self.old };
}

impl StoreRequest for UnsafeDestroyRangeRequest {
    ghost at_store = { λ store request. request };

    fn apply_store(&mut self, _store: &Store) {}
}
