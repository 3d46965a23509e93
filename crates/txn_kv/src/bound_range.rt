ghost use Rattle.std.specs.Prelude.{◌≡◌, ◌↔◌, [], IfOk, IsTrue, Some, None};
ghost use Rattle.std.specs.Range.{range_inclusive_start, range_inclusive_end};
ghost use Rattle.std.specs.Range.Bound.{bound_map};
ghost use Rattle.std.specs.declared.ops.Bound.TheVariants.{Included, Excluded, Unbounded};
ghost use Rattle.txn_kv.specs.Ranges.{effective_end, end_of, lower_bound, or_empty, start_of, upper_bound, upper_bound_of};

use crate::key::Key;
use crate::memory::NoMemory;
use crate::message::KeyRange;
use std::alloc::Global;
use std::ops::{Bound, Range, RangeFrom, RangeFull, RangeInclusive, RangeTo, RangeToInclusive};

/// A range of keys by its two bounds.
#[derive(Debug, PartialEq, Eq)]
pub struct BoundRange {
    pub from: Bound<Key>,
    pub to: Bound<Key>,
}

/// By one call: a derived drop is opened at each exit that holds such a value, in each crate above.
impl Drop for BoundRange {
    fn drop(self) {
        let BoundRange { from, to } = self;
        drop(from);
        drop(to);
    }
}

impl BoundRange {
    pub fn new(from: Bound<Key>, to: Bound<Key>) -> BoundRange
        ensures from { result.from ≡ from }
        ensures to { result.to ≡ to }
    {
        BoundRange { from, to }
    }

    /// From a key on.
    pub fn range_from(from: Key) -> BoundRange
        ensures from { result.from ≡ Included from }
        ensures to { result.to ≡ Unbounded }
    {
        BoundRange::new(Bound::Included(from), Bound::Unbounded)
    }

    /// The first key of the range, and the first key beyond it if there is one.
    pub fn into_keys(self, alloc: Global) -> Result<(Key, Option<Key>), NoMemory>
        ensures start { IfOk result (λ keys. keys.0 ≡ start_of self.from) }
        ensures end { IfOk result (λ keys. keys.1 ≡ end_of self.to) }
    {
        let BoundRange { from, to } = self;
        let start = match from {
            Bound::Included(key) => key,
            Bound::Excluded(key) => key.into_next()?,
            Bound::Unbounded => Key::empty(alloc),
        };
        let end = match to {
            Bound::Included(key) => Some(key.into_next()?),
            Bound::Excluded(key) => Some(key),
            Bound::Unbounded => None,
        };
        Ok((start, end))
    }

    /// The same two keys. An empty end stands for none.
    pub fn into_key_range(self, alloc: Global) -> Result<KeyRange, NoMemory>
        ensures start { IfOk result (λ range. range.start_key ≡ start_of self.from) }
        ensures end { IfOk result (λ range. range.end_key ≡ or_empty (end_of self.to)) }
    {
        let (start_key, end) = self.into_keys(alloc)?;
        let end_key = match end {
            Some(key) => key,
            None => Key::empty(alloc),
        };
        Ok(KeyRange { start_key, end_key })
    }

    pub fn start_bound(&self) -> Bound<&Key>
        ensures { bound_map (λ key. key.now) result ≡ self.now.from }
    {
        match &self.from {
            Bound::Included(key) => Bound::Included(key),
            Bound::Excluded(key) => Bound::Excluded(key),
            Bound::Unbounded => Bound::Unbounded,
        }
    }

    /// The end, unbounded where an empty key is excluded.
    pub fn end_bound(&self) -> Bound<&Key>
        ensures { bound_map (λ key. key.now) result ≡ effective_end self.now.to }
    {
        match &self.to {
            Bound::Included(key) => Bound::Included(key),
            Bound::Excluded(key) => {
                if key.is_empty() {
                    Bound::Unbounded
                } else {
                    Bound::Excluded(key)
                }
            }
            Bound::Unbounded => Bound::Unbounded,
        }
    }

    /// The same range, in new memory.
    pub fn try_clone(&self) -> Result<BoundRange, NoMemory>
        ensures { IfOk result (λ copy. copy ≡ self.now) }
    {
        Ok(BoundRange {
            from: copied(&self.from)?,
            to: copied(&self.to)?,
        })
    }

    pub fn same_bounds(&self, bounds: &(Bound<Key>, Bound<Key>)) -> bool
        ensures { IsTrue result ↔ (self.now.from ≡ bounds.now.0) × (self.now.to ≡ bounds.now.1) }
    {
        self.from == bounds.0 && self.to == bounds.1
    }
}

fn copied(bound: &Bound<Key>) -> Result<Bound<Key>, NoMemory>
    ensures { IfOk result (λ copy. copy ≡ bound.now) }
{
    match bound {
        Bound::Included(key) => Ok(Bound::Included(key.try_clone()?)),
        Bound::Excluded(key) => Ok(Bound::Excluded(key.try_clone()?)),
        Bound::Unbounded => Ok(Bound::Unbounded),
    }
}

impl From<(Bound<Key>, Bound<Key>)> for BoundRange {
    ghost from_gives = { λ bounds range. (range.from ≡ bounds.0) × (range.to ≡ bounds.1) };

    fn from(bounds: (Bound<Key>, Bound<Key>)) -> BoundRange {
        BoundRange::new(bounds.0, bounds.1)
    }
}

impl From<Range<Key>> for BoundRange {
    ghost from_gives = { λ keys range. (range.from ≡ Included keys.start) × (range.to ≡ Excluded keys.end) };

    fn from(keys: Range<Key>) -> BoundRange {
        BoundRange::new(Bound::Included(keys.start), Bound::Excluded(keys.end))
    }
}

impl From<RangeFrom<Key>> for BoundRange {
    ghost from_gives = { λ keys range. (range.from ≡ Included keys.start) × (range.to ≡ Unbounded) };

    fn from(keys: RangeFrom<Key>) -> BoundRange {
        BoundRange::range_from(keys.start)
    }
}

impl From<RangeTo<Key>> for BoundRange {
    ghost from_gives = { λ keys range. (range.from ≡ Unbounded) × (range.to ≡ Excluded keys.end) };

    fn from(keys: RangeTo<Key>) -> BoundRange {
        BoundRange::new(Bound::Unbounded, Bound::Excluded(keys.end))
    }
}

impl From<RangeInclusive<Key>> for BoundRange {
    ghost from_gives = { λ keys range. (range.from ≡ Included (range_inclusive_start keys)) × (range.to ≡ Included (range_inclusive_end keys)) };

    fn from(keys: RangeInclusive<Key>) -> BoundRange {
        let (start, end) = keys.into_inner();
        BoundRange::new(Bound::Included(start), Bound::Included(end))
    }
}

impl From<RangeToInclusive<Key>> for BoundRange {
    ghost from_gives = { λ keys range. (range.from ≡ Unbounded) × (range.to ≡ Included keys.end) };

    fn from(keys: RangeToInclusive<Key>) -> BoundRange {
        BoundRange::new(Bound::Unbounded, Bound::Included(keys.end))
    }
}

impl From<RangeFull> for BoundRange {
    ghost from_gives = { λ _ range. (range.from ≡ Unbounded) × (range.to ≡ Unbounded) };

    fn from(_keys: RangeFull) -> BoundRange {
        BoundRange::new(Bound::Unbounded, Bound::Unbounded)
    }
}

/// A key that ends in 0 bounds as the key before it, the other way.
impl From<(Key, Key)> for BoundRange {
    ghost from_gives = { λ keys range. (range.from ≡ lower_bound keys.0) × (range.to ≡ upper_bound keys.1) × (start_of range.from ≡ keys.0) × (end_of range.to ≡ Some keys.1) };

    fn from(keys: (Key, Key)) -> BoundRange {
        BoundRange::new(keys.0.into_lower_bound(), keys.1.into_upper_bound())
    }
}

impl From<(Key, Option<Key>)> for BoundRange {
    ghost from_gives = { λ keys range. (range.from ≡ lower_bound keys.0) × (range.to ≡ upper_bound_of keys.1) × (start_of range.from ≡ keys.0) × (end_of range.to ≡ keys.1) };

    fn from(keys: (Key, Option<Key>)) -> BoundRange {
        let (first, beyond) = keys;
        let to = match beyond {
            Some(key) => key.into_upper_bound(),
            None => Bound::Unbounded,
        };
        BoundRange::new(first.into_lower_bound(), to)
    }
}

impl From<KeyRange> for BoundRange {
    ghost from_gives = { λ keys range. (range.from ≡ lower_bound keys.start_key) × (range.to ≡ upper_bound keys.end_key) × (start_of range.from ≡ keys.start_key) × (end_of range.to ≡ Some keys.end_key) };

    fn from(keys: KeyRange) -> BoundRange {
        BoundRange::from(keys.into_keys())
    }
}
