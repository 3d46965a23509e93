ghost use Rattle.std.specs.Prelude.{◌≡◌, ◌+◌, ℕ, length};

use txn_kv::{Key, Mutation};

/// What takes bytes in a request.
pub(crate) trait InBytes: Drop {
    ghost count: { Self → ℕ };

    fn bytes(&self) -> u64
        ensures { result ≡ count self.now };
}

impl InBytes for Mutation {
    ghost count = { λ mutation. length mutation.key + length mutation.value };

    fn bytes(&self) -> u64 {
        self.key.as_slice().len() as u64 + self.value.as_slice().len() as u64
    }
}

impl InBytes for Key {
    ghost count = { λ key. length key };

    fn bytes(&self) -> u64 {
        self.as_slice().len() as u64
    }
}
