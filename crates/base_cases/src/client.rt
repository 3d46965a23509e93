//! A client of a store that answers every request with no members.

use case_words::show;
use txn_kv::{MembersRequest, MembersResponse, Reply, Request, Result, StoreId};
use txn_merge::{KvClient, KvConnect};

#[derive(Clone, Copy)]
struct Silent;

impl KvClient for Silent {
    ghost can_dispatch = { λ _ _. Unit {0} };

    ghost answers = { λ _ _ _. Unit {0} };

    fn dispatch(&self, _request: &Request) -> Result<Reply> {
        Ok(Reply::Members(MembersResponse))
    }
}

impl KvConnect for Silent {
    type KvClient = Silent;

    ghost connects = { λ _ _ _. Unit {0} };

    fn connect(&self, _store: StoreId) -> Result<Silent> {
        Ok(Silent)
    }
}

pub fn serve(rt: &HostRuntime) {
    if let Ok(client) = Silent.connect(1) {
        show(rt, &client.dispatch(&Request::Members(MembersRequest)));
    }
}
