ghost use Rattle.std.specs.Prelude.{ℕ, Result};
ghost use Rattle.txn_kv.specs.declared.errors.Error.{Error};
ghost use Rattle.txn_kv.specs.declared.reply.Reply.{Reply};
ghost use Rattle.txn_kv.specs.declared.request.Request.{Request};

use txn_kv::{Error, Reply, Request, Result, StoreId};

/// Answers requests in the place of a store.
pub trait KvClient: Sized {
    /// The requests that it may be given.
    ghost can_dispatch: { Self → Request → Type 0 };

    ghost answers: { Self → Request → Result Reply Error → Type 0 };

    fn dispatch(&self, request: &Request) -> Result<Reply>
        requires { can_dispatch self.now request.now }
        ensures { answers self.now request.now result };
}

/// Gives the client of a store.
pub trait KvConnect: Sized {
    type KvClient: KvClient;

    ghost connects: { Self → ℕ → Result Self.KvClient Error → Type 0 };

    fn connect(&self, store: StoreId) -> Result<Self::KvClient>
        ensures { connects self.now store result };
}
