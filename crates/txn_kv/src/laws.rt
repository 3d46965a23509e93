//! What holds of the encoding of keys, as contracts of functions that do nothing.

ghost use Rattle.std.specs.Prelude.{◌≡◌, ◌++◌, Bool, List, ℕ, false, true};
ghost use Rattle.std.specs.Cmp.Lexicographic.{slice_cmp};
ghost use Rattle.std.specs.Ordering.{nat_cmp, ordering_then};
ghost use Rattle.txn_kv.specs.Codec.{encoding, AreBytes};

/// Two keys of one encoding, whatever follows it, are one key, and so is what follows.
pub fn encoding_is_injective()
    ensures { (descending : Bool) (a b rest other : List ℕ) → AreBytes a → AreBytes b → encoding descending a ++ rest ≡ encoding descending b ++ other → (a ≡ b) × (rest ≡ other) }
{}

/// Ascending encodings are ordered as their keys are, and where the keys are equal, as what follows them.
pub fn ascending_keeps_order()
    ensures keys { (a b : List ℕ) → slice_cmp nat_cmp (encoding false a) (encoding false b) ≡ slice_cmp nat_cmp a b }
    ensures followed { (a b rest other : List ℕ) → slice_cmp nat_cmp (encoding false a ++ rest) (encoding false b ++ other) ≡ ordering_then (slice_cmp nat_cmp a b) (slice_cmp nat_cmp rest other) }
{}

/// Descending encodings are ordered the other way, and where the keys are equal, as what follows them.
pub fn descending_reverses_order()
    ensures keys { (a b : List ℕ) → AreBytes a → AreBytes b → slice_cmp nat_cmp (encoding true a) (encoding true b) ≡ slice_cmp nat_cmp b a }
    ensures followed { (a b rest other : List ℕ) → AreBytes a → AreBytes b → slice_cmp nat_cmp (encoding true a ++ rest) (encoding true b ++ other) ≡ ordering_then (slice_cmp nat_cmp b a) (slice_cmp nat_cmp rest other) }
{}
