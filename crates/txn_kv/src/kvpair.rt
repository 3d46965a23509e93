ghost use Rattle.std.specs.Prelude.{◌≡◌, IfOk};
ghost use Rattle.std.specs.Borrow.{sem};
ghost use Rattle.txn_kv.specs.Pairs.{lends_key, lends_value};
ghost use Rattle.txn_kv.specs.declared.kvpair.KvPair.{KvPair};

use crate::hex_repr::HexRepr;
use crate::items::Value;
use crate::key::Key;
use crate::memory::NoMemory;
use crate::message::PbPair;
use crate::try_clone::TryClone;
use std::fmt;

/// A key and its value.
#[derive(PartialEq, Eq)]
pub struct KvPair(pub Key, pub Value);

/// By one call: a derived drop is opened at each exit that holds such a value, in each crate above.
impl Drop for KvPair {
    fn drop(self) {
        let KvPair(key, value) = self;
        drop(key);
        drop(value);
    }
}

impl KvPair {
    pub fn new(key: Key, value: Value) -> KvPair
        ensures key { result.0 ≡ key }
        ensures value { result.1 ≡ value }
    {
        KvPair(key, value)
    }

    pub fn key(&self) -> &Key
        ensures { result.now ≡ self.now.0 }
    {
        &self.0
    }

    pub fn value(&self) -> &Value
        ensures { result.now ≡ self.now.1 }
    {
        &self.1
    }

    pub fn into_key(self) -> Key
        ensures { result ≡ self.0 }
    {
        let KvPair(key, _value) = self;
        key
    }

    pub fn into_value(self) -> Value
        ensures { result ≡ self.1 }
    {
        let KvPair(_key, value) = self;
        value
    }

    /// A pair is taken apart by its own methods alone.
    pub fn into_parts(self) -> (Key, Value)
        ensures key { result.0 ≡ self.0 }
        ensures value { result.1 ≡ self.1 }
    {
        let KvPair(key, value) = self;
        (key, value)
    }

    /// The key, for writing.
    pub fn key_mut(&mut self) -> &mut Key
        ensures* writes_back { sem 𝓛 (lends_key self.entry result) }
        ensures key { result.now ≡ self.old.0 }
    {
        &mut self.0
    }

    /// The value, for writing.
    pub fn value_mut(&mut self) -> &mut Value
        ensures* writes_back { sem 𝓛 (lends_value self.entry result) }
        ensures value { result.now ≡ self.old.1 }
    {
        &mut self.1
    }

    pub fn set_key(&mut self, key: Key)
        ensures key { self.new.0 ≡ key }
        ensures value { self.new.1 ≡ self.old.1 }
    {
        self.0 = key;
    }

    pub fn set_value(&mut self, value: Value)
        ensures key { self.new.0 ≡ self.old.0 }
        ensures value { self.new.1 ≡ value }
    {
        self.1 = value;
    }
}

impl TryClone for KvPair {
    fn try_clone(&self) -> Result<KvPair, NoMemory> {
        Ok(KvPair(self.0.try_clone()?, self.1.try_clone()?))
    }
}

impl From<(Key, Value)> for KvPair {
    ghost from_gives = { λ parts pair. (pair.0 ≡ parts.0) × (pair.1 ≡ parts.1) };

    fn from(parts: (Key, Value)) -> KvPair {
        KvPair(parts.0, parts.1)
    }
}

impl From<KvPair> for (Key, Value) {
    ghost from_gives = { λ pair parts. (parts.0 ≡ pair.0) × (parts.1 ≡ pair.1) };

    fn from(pair: KvPair) -> (Key, Value) {
        pair.into_parts()
    }
}

impl From<KvPair> for Key {
    ghost from_gives = { λ pair key. key ≡ pair.0 };

    fn from(pair: KvPair) -> Key {
        pair.into_key()
    }
}

/// What a store says of an error at the key is left out.
impl From<PbPair> for KvPair {
    ghost from_gives = { λ message pair. (pair.0 ≡ message.key) × (pair.1 ≡ message.value) };

    fn from(message: PbPair) -> KvPair {
        let (_error, key, value) = message.into_parts();
        KvPair(key, value)
    }
}

impl From<KvPair> for PbPair {
    ghost use Rattle.std.specs.Prelude.{None};

    ghost from_gives = { λ pair message. (message.error ≡ None) × (message.key ≡ pair.0) × (message.value ≡ pair.1) };

    fn from(pair: KvPair) -> PbPair {
        let (key, value) = pair.into_parts();
        PbPair {
            error: None,
            key,
            value,
        }
    }
}

impl AsRef<Key> for KvPair {
    fn as_ref(&self) -> &Key
        ensures { result.now ≡ self.now.0 }
    {
        &self.0
    }
}

impl AsRef<Value> for KvPair {
    fn as_ref(&self) -> &Value
        ensures { result.now ≡ self.now.1 }
    {
        &self.1
    }
}

/// The value is quoted where it is UTF-8, and in hexadecimal otherwise.
impl fmt::Debug for KvPair {
    fn fmt<W: fmt::Write>(&self, f: &mut fmt::Formatter<W>) -> fmt::Result {
        let key = HexRepr(self.0.as_slice());
        match str::from_utf8(self.1.as_slice()) {
            Ok(text) => write!(f, "KvPair({key}, {text:?})"),
            Err(_) => {
                let value = HexRepr(self.1.as_slice());
                write!(f, "KvPair({key}, {value})")
            }
        }
    }
}
