ghost use Rattle.std.specs.Prelude.{◌≡◌, ◌==◌, [], nat_eq, length, string_bytes, IfOk, Some, refl};
ghost use Rattle.std.specs.Ordering.{nat_cmp, as_partial_cmp};
ghost use Rattle.std.specs.Cmp.{partial_equiv_from_equiv};
ghost use Rattle.std.specs.Cmp.Rules.{hashing};
ghost use Rattle.std.specs.Cmp.Lexicographic.{pointwise, slice_cmp, nat_list_eq_equiv, nat_list_cmp_total, texts_po, texts_ties};
ghost use Rattle.std.specs.Hash as fed;
ghost use Rattle.std.proofs.Common.{rules};
ghost use Rattle.txn_kv.specs.Codec.{encoded};
ghost use Rattle.txn_kv.specs.Ranges.{end_of, lower_bound, next_key, start_of, upper_bound};

use crate::codec::BytesEncoder;
use crate::hex_repr::HexRepr;
use crate::memory::NoMemory;
use std::alloc::Global;
use std::cmp::Ordering;
use std::fmt;
use std::hash::{Hash, Hasher};
use std::marker::Model;
use std::ops::Bound;

/// A key of the store: a list of bytes, ordered as such lists are.
pub struct Key {
    bytes: Vec<u8>,
}

/// By one call: a derived drop is opened at each exit that holds such a value, in each crate above.
impl Drop for Key {
    fn drop(self) {
        let Key { bytes } = self;
        drop(bytes);
    }
}

impl Model for Key {
    ghost use Rattle.std.specs.Prelude.{List, ℕ};

    ghost Value = { List ℕ };

    ghost view = { λ k. k.bytes.items };
}

impl Key {
    /// The key of no bytes. Takes no memory.
    pub fn empty(alloc: Global) -> Key
        ensures { result ≡ [] }
    {
        Key {
            bytes: Vec::new(alloc),
        }
    }

    pub fn is_empty(&self) -> bool
        ensures { result ≡ (length self.now == 0) }
    {
        self.bytes.is_empty()
    }

    pub fn len(&self) -> usize
        ensures { result ≡ length self.now }
    {
        self.bytes.len()
    }

    pub fn as_slice(&self) -> &[u8]
        ensures { result.now ≡ self.now }
    {
        self.bytes.as_slice()
    }

    /// The ascending encoding.
    pub fn to_encoded(&self) -> Result<Key, NoMemory>
        ensures { IfOk result (λ encoding. encoding ≡ encoded self.now) }
    {
        let mut bytes = Vec::new(*self.bytes.allocator());
        bytes.encode_bytes(self.as_slice(), false)?;
        Ok(Key { bytes })
    }

    /// The least key above this one.
    pub(crate) fn into_next(self) -> Result<Key, NoMemory>
        ensures { IfOk result (λ key. key ≡ next_key self) }
    {
        let Key { mut bytes } = self;
        bytes.push(0)?;
        Ok(Key { bytes })
    }

    /// The start that this first key stands for.
    pub(crate) fn into_lower_bound(self) -> Bound<Key>
        ensures bound { result ≡ lower_bound self }
        ensures key { start_of result ≡ self }
    {
        let Key { mut bytes } = self;
        if bytes.as_slice().last() == Some(&0) {
            bytes.pop();
            Bound::Excluded(Key { bytes })
        } else {
            Bound::Included(Key { bytes })
        }
    }

    /// The end that this first key beyond it stands for.
    pub(crate) fn into_upper_bound(self) -> Bound<Key>
        ensures bound { result ≡ upper_bound self }
        ensures key { end_of result ≡ Some self }
    {
        let Key { mut bytes } = self;
        if bytes.as_slice().last() == Some(&0) {
            bytes.pop();
            Bound::Included(Key { bytes })
        } else {
            Bound::Excluded(Key { bytes })
        }
    }

    fn into_bytes(self) -> Vec<u8>
        ensures { result.items ≡ self }
    {
        let Key { bytes } = self;
        bytes
    }

    /// The same key, in new memory.
    pub fn try_clone(&self) -> Result<Key, NoMemory>
        ensures { IfOk result (λ copy. copy ≡ self.now) }
    {
        Ok(Key {
            bytes: self.bytes.as_slice().to_vec(*self.bytes.allocator())?,
        })
    }
}

impl From<Vec<u8>> for Key {
    ghost from_gives = { λ vec key. key ≡ vec.items };

    fn from(bytes: Vec<u8>) -> Key {
        Key { bytes }
    }
}

impl From<Key> for Vec<u8> {
    ghost from_gives = { λ key vec. vec.items ≡ key };

    fn from(key: Key) -> Vec<u8> {
        key.into_bytes()
    }
}

impl From<String> for Key {
    ghost from_gives = { λ string key. key ≡ string_bytes string };

    fn from(string: String) -> Key {
        Key {
            bytes: string.into_bytes(),
        }
    }
}

impl AsRef<Key> for Key {
    fn as_ref(&self) -> &Key
        ensures { result.now ≡ self.now }
    {
        self
    }
}

impl fmt::Debug for Key {
    fn fmt<W: fmt::Write>(&self, f: &mut fmt::Formatter<W>) -> fmt::Result {
        let hex = HexRepr(self.as_slice());
        write!(f, "Key({hex})")
    }
}

impl PartialEq for Key {
    ghost eq = { pointwise nat_eq };

    ghost laws = { partial_equiv_from_equiv nat_list_eq_equiv };

    fn eq(&self, other: &Self) -> bool {
        self.as_slice() == other.as_slice()
    }
}

impl Eq for Key {
    ghost laws = { nat_list_eq_equiv };
}

impl PartialOrd for Key {
    ghost partial_cmp = { as_partial_cmp (slice_cmp nat_cmp) };

    ghost laws = { texts_po };

    fn partial_cmp(&self, other: &Self) -> Option<Ordering> {
        Some(self.cmp(other))
    }
}

impl Ord for Key {
    ghost cmp = { slice_cmp nat_cmp };

    ghost total = { nat_list_cmp_total };

    ghost matches_partial_cmp = { λ x y. refl };

    ghost matches_eq = { texts_ties };

    fn cmp(&self, other: &Self) -> Ordering {
        self.as_slice().cmp(other.as_slice())
    }
}

impl Hash for Key {
    ghost hash_input = { λ key. fed.slice fed.u8 key };

    ghost respects_eq = { Prim.search (hashing, rules) };

    fn hash<H: Hasher>(&self, state: &mut H) {
        self.as_slice().hash(state);
    }
}
