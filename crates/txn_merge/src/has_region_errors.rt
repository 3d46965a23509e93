ghost use Rattle.std.specs.Prelude.{◌≡◌, List, [], IfOk, OnOk, map};
ghost use Rattle.std.specs.List.{filter_map};
ghost use Rattle.std.proofs.Common.{◌∙◌};
ghost use Rattle.txn_kv.specs.declared.message.RegionErr.{RegionErr};
ghost use Rattle.txn_merge.specs.Found.{AreFound};
ghost use Rattle.txn_merge.specs.RegionErrors.{listed, no_listed};

use crate::has_region_error::HasRegionError;
use std::alloc::Global;
use txn_kv::{NoMemory, RegionErr};

/// What one reply or many say of errors of their regions.
pub trait HasRegionErrors: Sized {
    ghost region_errors_in: { Self → List RegionErr };

    /// What is left of a value whose errors were taken out.
    ghost region_errors_left: { Self → Self → Type 0 };

    /// Takes the errors out. There are some where it answers Some. At want of memory some of them may be gone.
    fn region_errors(&mut self, alloc: Global) -> Result<Option<Vec<RegionErr>>, NoMemory>
        ensures found { IfOk result (AreFound (region_errors_in self.old)) }
        ensures left { OnOk result (region_errors_left self.old self.new) };

    /// Where there is no error, all is left.
    ghost no_region_errors: { (old new : Self) → region_errors_left old new → region_errors_in old ≡ [] → new ≡ old };
}

/// Those that have at most one.
impl<T: HasRegionError> HasRegionErrors for T {
    ghost region_errors_in = { λ s. listed (T.region_error_in s) };

    ghost region_errors_left = { λ old new. new ≡ T.without_region_error old };

    ghost no_region_errors = { λ old new left none. left ∙ T.no_region_error old (no_listed (T.region_error_in old) none) };

    fn region_errors(&mut self, alloc: Global) -> Result<Option<Vec<RegionErr>>, NoMemory> {
        one_error(alloc, self.region_error())
    }
}

fn one_error(alloc: Global, error: Option<RegionErr>) -> Result<Option<Vec<RegionErr>>, NoMemory>
    ensures { IfOk result (AreFound (listed error)) }
{
    let Some(error) = error else {
        return Ok(None);
    };
    let mut errors = Vec::new(alloc);
    errors.push(error)?;
    Ok(Some(errors))
}

/// The errors of the items, in their order.
impl<T: HasRegionError> HasRegionErrors for Vec<T> {
    ghost region_errors_in = { λ s. filter_map T.region_error_in s.items };

    ghost region_errors_left = { λ old new. filter_map T.region_error_in old.items ≡ [] → new ≡ old };

    ghost no_region_errors = { λ _ _ left none. left none };

    fn region_errors(&mut self, alloc: Global) -> Result<Option<Vec<RegionErr>>, NoMemory> {
        all_errors(alloc, self.as_mut_slice())
    }
}

fn all_errors<T: HasRegionError>(
    alloc: Global,
    items: &mut [T],
) -> Result<Option<Vec<RegionErr>>, NoMemory>
    ensures found { IfOk result (AreFound (filter_map T.region_error_in items.old)) }
    ensures left { OnOk result (filter_map T.region_error_in items.old ≡ [] → items.new ≡ items.old) }
{
    let mut errors = Vec::new(alloc);
    for item in items.iter_mut() {
        if let Some(error) = item.region_error() {
            errors.push(error)?;
        }
    }
    Ok(unless_empty(errors))
}

/// The errors that are there, in a vector that is not empty.
fn unless_empty(errors: Vec<RegionErr>) -> Option<Vec<RegionErr>>
    ensures { AreFound errors.items result }
{
    if errors.is_empty() {
        None
    } else {
        Some(errors)
    }
}
