ghost use Rattle.std.specs.Prelude.{◌≡◌};

use txn_kv::{Key, KvPair, Mutation};

/// What has a key. A call that groups items by their keys takes this in place of `AsRef<Key>`, which does not say that it
/// lends the same key each time.
pub trait AsKey {
    ghost use Rattle.std.specs.Prelude.{List, ℕ};

    ghost key: { Self → List ℕ };

    fn as_key(&self) -> &Key
        ensures { result.now ≡ key self.now };
}

impl AsKey for Key {
    ghost key = { λ k. k };

    fn as_key(&self) -> &Key {
        self
    }
}

impl AsKey for Mutation {
    ghost key = { λ m. m.key };

    fn as_key(&self) -> &Key {
        &self.key
    }
}

impl AsKey for KvPair {
    ghost key = { λ p. p.0 };

    fn as_key(&self) -> &Key {
        self.key()
    }
}

impl<K: AsKey> AsKey for &K {
    ghost key = { λ k. K.key k.now };

    fn as_key(&self) -> &Key {
        K::as_key(*self)
    }
}
