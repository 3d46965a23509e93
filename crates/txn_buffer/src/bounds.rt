ghost use Rattle.std.specs.Prelude.{◌≡◌, true, false};
ghost use Rattle.std.specs.BTreeMap.Range.{IsLeBy, IsLtBy, range_contains};
ghost use Rattle.std.specs.Range.Bound.{IsForward, bound_map};

use std::ops::Bound;

/// Whether a start is not behind an end. Behind it there is no key.
pub(crate) fn runs_forward<'a, K: Ord>(start: Bound<&'a K>, end: Bound<&'a K>) -> bool
    ensures forward { result ≡ true → IsForward (IsLeBy K.cmp) (IsLtBy K.cmp) (bound_map (λ x. x.now) start.entry) (bound_map (λ x. x.now) end.entry) }
    ensures empty { result ≡ false → (key : K) → range_contains K.cmp (bound_map (λ x. x.now) start.entry) (bound_map (λ x. x.now) end.entry) key ≡ false }
{
    match (start, end) {
        (Bound::Excluded(a), Bound::Excluded(b)) => a.cmp(b).is_lt(),
        (Bound::Excluded(a), Bound::Included(b)) => a.cmp(b).is_le(),
        (Bound::Included(a), Bound::Excluded(b)) => a.cmp(b).is_le(),
        (Bound::Included(a), Bound::Included(b)) => a.cmp(b).is_le(),
        _ => true,
    }
}
