ghost use Rattle.std.specs.Prelude.{◌≡◌, IsTrue};

use txn_kv::{Items, Key, Target, Ticket};

/// Values that are compared whole.
pub trait Alike {
    /// Whether both are the same. It may be denied of what no machine of the first path tells.
    fn is_like(&self, other: &Self) -> bool
        ensures { IsTrue result → self.now ≡ other.now };
}

/// Whether both lists have as many values, and each is like the other of its place.
pub fn all_alike<T: Alike>(some: &[T], others: &[T]) -> bool
    ensures { IsTrue result → some.now ≡ others.now }
{
    if some.len() != others.len() {
        return false;
    }
    for i in 0..some.len() {
        if !some[i].is_like(&others[i]) {
            return false;
        }
    }
    true
}

impl Alike for u8 {
    fn is_like(&self, other: &u8) -> bool {
        *self == *other
    }
}

impl Alike for u64 {
    fn is_like(&self, other: &u64) -> bool {
        *self == *other
    }
}

impl Alike for Ticket {
    fn is_like(&self, other: &Ticket) -> bool {
        self.line == other.line && self.beat == other.beat && self.number == other.number
    }
}

impl Alike for bool {
    fn is_like(&self, other: &bool) -> bool {
        *self == *other
    }
}

impl Alike for Key {
    fn is_like(&self, other: &Key) -> bool {
        all_alike(self.as_slice(), other.as_slice())
    }
}

impl<T: Alike> Alike for Items<T> {
    fn is_like(&self, other: &Items<T>) -> bool {
        all_alike(self.as_slice(), other.as_slice())
    }
}

impl<T: Alike> Alike for Option<T> {
    fn is_like(&self, other: &Option<T>) -> bool {
        match (self, other) {
            (Some(one), Some(another)) => one.is_like(another),
            (None, None) => true,
            _ => false,
        }
    }
}

impl Alike for Target {
    fn is_like(&self, other: &Target) -> bool {
        match (self, other) {
            (Target::Store(one), Target::Store(another)) => *one == *another,
            (Target::Placement, Target::Placement) => true,
            _ => false,
        }
    }
}
