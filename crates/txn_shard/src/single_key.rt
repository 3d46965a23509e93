ghost use Rattle.std.specs.Prelude.{◌≡◌};
ghost use Rattle.txn_shard.specs.Next.{Key};

use txn_kv::{CheckTxnStatusRequest, CleanupRequest, GetRequest, Key, TxnHeartBeatRequest};

/// A request for one key.
pub trait SingleKey {
    ghost only_key: { Self → Key };

    fn key(&self) -> &Key
        ensures { result.now ≡ only_key self.now };
}

impl SingleKey for GetRequest {
    ghost only_key = { λ request. request.key };

    fn key(&self) -> &Key {
        &self.key
    }
}

impl SingleKey for CleanupRequest {
    ghost only_key = { λ request. request.key };

    fn key(&self) -> &Key {
        &self.key
    }
}

impl SingleKey for TxnHeartBeatRequest {
    ghost only_key = { λ request. request.primary_lock };

    fn key(&self) -> &Key {
        &self.primary_lock
    }
}

impl SingleKey for CheckTxnStatusRequest {
    ghost only_key = { λ request. request.primary_key };

    fn key(&self) -> &Key {
        &self.primary_key
    }
}
