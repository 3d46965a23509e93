ghost use Rattle.std.specs.Prelude.{◌≡◌, ◌==◌, ℕ, ◌<◌, ◌^◌, None, Some, if◌then◌else◌};
ghost use Rattle.txn_kv.specs.Timestamp.{HasVersion, version_of, timestamp_of};
ghost use Rattle.txn_kv.specs.Versions.{HasVersion-timestamp_of, timestamp_of-version_of, version_of-timestamp_of};

/// A timestamp of the oracle: milliseconds in `physical`, and a count within the millisecond in `logical`.
#[derive(Clone, Copy, Debug, Default, PartialEq, Eq)]
pub struct Timestamp {
    pub physical: i64,
    pub logical: i64,
    pub suffix_bits: u32,
}

/// How many bits of a version are the logical part.
const PHYSICAL_SHIFT: u64 = 262144;

/// Timestamps as numbers.
pub trait TimestampExt: Sized {
    ghost has_version: { Self → Type 0 };

    ghost version_of: { Self → ℕ };

    ghost timestamp_of: { ℕ → Self };

    ghost is_plain: { Self → Type 0 };

    /// The one number: the physical part times 2^18, and the logical part.
    fn version(&self) -> u64
        requires { has_version self.now }
        ensures { result ≡ version_of self.now };

    /// The timestamp of a number.
    fn from_version(version: u64) -> Self
        ensures { result ≡ timestamp_of version };

    /// The timestamp of a number other than 0.
    fn try_from_version(version: u64) -> Option<Self>
        ensures { result ≡ (if version == 0 then None else Some (timestamp_of version)) };

    /// The number of a number's timestamp is that number.
    ghost gives_back: { (n : ℕ) → version_of (timestamp_of n) ≡ n };

    /// The timestamp of a number of 64 bits has a number.
    ghost in_range: { (n : ℕ) → n < 2 ^ 64 → has_version (timestamp_of n) };

    /// The timestamp of a plain timestamp's number is that timestamp.
    ghost takes_back: { (t : Self) → has_version t → is_plain t → timestamp_of (version_of t) ≡ t };
}

impl TimestampExt for Timestamp {
    ghost has_version = { HasVersion };

    ghost version_of = { version_of };

    ghost timestamp_of = { timestamp_of };

    ghost is_plain = { λ t. t.suffix_bits ≡ 0 };

    ghost gives_back = { version_of-timestamp_of };

    ghost in_range = { HasVersion-timestamp_of };

    ghost takes_back = { timestamp_of-version_of };

    fn version(&self) -> u64 {
        self.physical as u64 * PHYSICAL_SHIFT + self.logical as u64
    }

    fn from_version(version: u64) -> Timestamp {
        Timestamp {
            physical: (version / PHYSICAL_SHIFT) as i64,
            logical: (version % PHYSICAL_SHIFT) as i64,
            suffix_bits: 0,
        }
    }

    fn try_from_version(version: u64) -> Option<Timestamp> {
        if version == 0 {
            None
        } else {
            Some(Self::from_version(version))
        }
    }
}
