ghost use Rattle.std.specs.Prelude.{◌≡◌};
ghost use Rattle.txn_kv.specs.declared.message.Assertion.TheVariants as Assertion;

use crate::key::Key;
use crate::message::Assertion;

/// A key to lock pessimistically, with what is asserted of it.
pub trait PessimisticLock: Sized {
    ghost use Rattle.std.specs.Prelude.{List, ℕ};
    ghost use Rattle.txn_kv.specs.declared.message.Assertion as message;

    ghost key_of: { Self → List ℕ };

    ghost assertion_of: { Self → message.Assertion };

    fn key(self) -> Key
        ensures { result ≡ key_of self };

    fn assertion(&self) -> Assertion
        ensures { result ≡ assertion_of self.now };
}

/// A bare key, of which nothing is asserted.
impl PessimisticLock for Key {
    ghost key_of = { λ key. key };

    ghost assertion_of = { λ _. Assertion.None };

    fn key(self) -> Key {
        self
    }

    fn assertion(&self) -> Assertion {
        Assertion::None
    }
}

impl PessimisticLock for (Key, Assertion) {
    ghost key_of = { λ pair. pair.0 };

    ghost assertion_of = { λ pair. pair.1 };

    fn key(self) -> Key {
        self.0
    }

    fn assertion(&self) -> Assertion {
        self.1
    }
}
