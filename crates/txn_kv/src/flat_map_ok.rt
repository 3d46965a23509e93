ghost use Rattle.std.specs.Prelude.{◌≡◌, IfSome, None, false};
ghost use Rattle.std.specs.Iterator.Adapters.{flatten_back, flatten_done, flatten_front, flatten_source, flatten_steps};
ghost use Rattle.std.specs.Iterator.Runs.{EachRunFrom, IsFlattenRun, SomeRun};
ghost use Rattle.txn_kv.specs.FlatMapOk.{ok_items_left, ok_items_steps, ok_source_steps, CallableOnOk};

use std::iter::Flatten;

/// What one result becomes: the items of its Ok, each in an Ok, or its Err.
#[derive(Drop)]
pub struct OkItems<J, E> {
    items: Option<J>,
    fault: Option<E>,
}

impl<J: Iterator, E: Drop> Iterator for OkItems<J, E>
where
    J::Item: Drop,
{
    type Item = std::result::Result<J::Item, E>;

    ghost can_next = { λ s. IfSome s.items J.can_next };

    ghost next_gives = { ok_items_steps J.next_gives };

    ghost remaining = { ok_items_left J.remaining };

    fn next(&mut self) -> Option<std::result::Result<J::Item, E>> {
        if let Some(error) = self.fault.take() {
            return Some(Err(error));
        }
        match &mut self.items {
            Some(items) => match items.next() {
                Some(item) => Some(Ok(item)),
                None => None,
            },
            None => None,
        }
    }
}

/// The results of a source, each turned to what it becomes.
#[derive(Drop)]
pub struct OkSource<I, F> {
    results: I,
    f: F,
}

impl<
    T,
    U: IntoIterator,
    E: Drop,
    I: Iterator<Item = std::result::Result<T, E>>,
    F: FnMut(T) -> U + Drop,
> Iterator for OkSource<I, F>
where
    U::Item: Drop,
{
    type Item = OkItems<U::IntoIter, E>;

    ghost can_next = { λ s. I.can_next s.results × CallableOnOk I.next_gives F.FnMut s.results s.f };

    ghost next_gives = { ok_source_steps I.next_gives F.FnMut U.into_iter_gives };

    ghost remaining = { λ s. I.remaining s.results };

    fn next(&mut self) -> Option<OkItems<U::IntoIter, E>> {
        match self.results.next()? {
            Ok(value) => Some(OkItems {
                items: Some((self.f)(value).into_iter()),
                fault: None,
            }),
            Err(error) => Some(OkItems {
                items: None,
                fault: Some(error),
            }),
        }
    }
}

/// The items that the Oks of a source become, each in an Ok, and the Errs of the source between them.
pub type FlatMapOk<I, F, J, E> = Flatten<OkSource<I, F>, OkItems<J, E>>;

/// Adds `flat_map_ok` to the iterators over results.
pub trait FlatMapOkIterExt: Iterator {
    /// Each Ok becomes the items that `f` makes of it, each in an Ok, and each Err stays in its place.
    final fn flat_map_ok<T, U: IntoIterator, E: Drop, F: FnMut(T) -> U + Drop>(
        self,
        f: F,
    ) -> FlatMapOk<Self, F, U::IntoIter, E>
    where
        Self: Iterator<Item = std::result::Result<T, E>> + Sized,
        U::Item: Drop,
        ensures source { (flatten_source result).results ≡ self }
        ensures closure { (flatten_source result).f ≡ f }
        ensures front { flatten_front result ≡ None }
        ensures back { flatten_back result ≡ None }
        ensures done { flatten_done result ≡ false }
        ensures runs { EachRunFrom (flatten_steps (ok_source_steps Self.next_gives F.FnMut U.into_iter_gives) (λ opened items. items ≡ opened) (ok_items_steps U.IntoIter.next_gives)) result (λ given. SomeRun (ok_source_steps Self.next_gives F.FnMut U.into_iter_gives) (flatten_source result) (λ results. IsFlattenRun given results (ok_items_steps U.IntoIter.next_gives) (λ opened items. items ≡ opened))) }
    {
        OkSource { results: self, f }.flatten()
    }
}

impl<I: Iterator> FlatMapOkIterExt for I {}
