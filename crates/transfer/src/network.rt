//! How the requests of the program reach the model store, and which of them are lost.
ghost use Rattle.std.specs.Prelude.{IsTrue};
ghost use Rattle.txn_model.specs.Table.{CanServe};

use std::alloc::Global;
use tikv_client::{NoMemory, Reply, Request, Target, Transport};
use txn_model::ModelStore;

/// The clock of the store stays below 2^44 milliseconds, and its timestamps below 2^63.
const CLOCK_END: u64 = 17_592_186_044_416;

const TIMESTAMPS_END: u64 = 9_223_372_036_854_775_808;

const MOST_TIMESTAMPS: u32 = 64;

/// The next requests of this label are lost, or their replies are.
#[derive(Drop)]
struct Loss {
    label: String,
    count: u64,
    handled: bool,
}

/// The model store, and the losses on the way to it.
#[derive(Drop)]
pub struct Network {
    store: ModelStore,
    losses: Vec<Loss>,
}

impl Network {
    /// The opening store. Nothing is lost.
    pub fn new(alloc: Global) -> Result<Network, NoMemory> {
        Ok(Network {
            store: ModelStore::new(alloc)?,
            losses: Vec::new(alloc),
        })
    }

    pub fn store(&self) -> &ModelStore {
        &self.store
    }

    /// So many requests of a label are lost from here on. Those that are `handled` lose their replies alone.
    pub fn lose(&mut self, label: String, count: u64, handled: bool) -> Result<(), NoMemory> {
        self.losses.push(Loss {
            label,
            count,
            handled,
        })?;
        Ok(())
    }

    /// Whether this request is lost; and if it is, whether it is handled.
    fn take_loss(&mut self, request: &Request) -> Option<bool> {
        for loss in self.losses.iter_mut() {
            if loss.count > 0 && loss.label.as_str() == request.label() {
                loss.count -= 1;
                return Some(loss.handled);
            }
        }
        None
    }

    /// The reply of the store. Out of memory there is none.
    fn serve(&mut self, request: &Request) -> Option<Reply> {
        if !can_serve(&self.store, request) {
            return None;
        }
        self.store.serve(request).ok()
    }
}

/// Whether the store can handle the request. Of requests for timestamps that is a matter of its numbers.
fn can_serve(store: &ModelStore, request: &Request) -> bool
    ensures { IsTrue result → CanServe store.now request.now }
{
    match request {
        Request::Tso(asked) => {
            asked.count >= 1
                && asked.count <= MOST_TIMESTAMPS
                && store.last() < TIMESTAMPS_END
                && store.clock() < CLOCK_END
        }
        _ => true,
    }
}

impl Transport for Network {
    fn send(&mut self, _to: Target, request: &Request) -> Option<Reply> {
        match self.take_loss(request) {
            None => self.serve(request),
            Some(false) => None,
            Some(true) => {
                let _ = self.serve(request);
                None
            }
        }
    }

    fn sleep(&mut self, ms: u64) {
        let clock = self.store.clock();
        if ms < CLOCK_END && clock + ms < CLOCK_END {
            self.store.set_clock(clock + ms);
        }
    }

    fn now(&self) -> u64 {
        self.store.clock()
    }
}
