ghost use Rattle.std.specs.Prelude.{◌≡◌, [], IfOk, map};
ghost use Rattle.txn_kv.specs.ErrorView.{region, view_of};
ghost use Rattle.txn_merge.specs.Extracted.{ErrorsOr, IsExtracted, views_in};

use crate::has_key_errors::HasKeyErrors;
use crate::has_region_errors::HasRegionErrors;
use std::alloc::Global;
use txn_kv::{Error, NoMemory, RegionErr, Result};

/// An error in place of a value that holds errors: `ExtractedErrors` of its errors at keys, or else of its region errors.
/// Every other result stays as it is.
pub fn extract_error<T: HasKeyErrors + HasRegionErrors + Drop>(
    alloc: Global,
    result_in: Result<T>,
) -> std::result::Result<Result<T>, NoMemory>
    ensures { IfOk result (IsExtracted T.key_errors_in T.region_errors_in result_in) }
{
    match result_in {
        Ok(value) => extract_keys(alloc, value),
        Err(error) => Ok(Err(error)),
    }
}

fn extract_keys<T: HasKeyErrors + HasRegionErrors + Drop>(
    alloc: Global,
    mut value: T,
) -> std::result::Result<Result<T>, NoMemory>
    ensures { IfOk result (ErrorsOr (views_in (T.key_errors_in value) (T.region_errors_in value)) value) }
{
    match value.key_errors(alloc)? {
        Some(errors) => Ok(Err(Error::ExtractedErrors(errors))),
        None => extract_regions(alloc, value),
    }
}

fn extract_regions<T: HasRegionErrors + Drop>(
    alloc: Global,
    mut value: T,
) -> std::result::Result<Result<T>, NoMemory>
    ensures { IfOk result (ErrorsOr (map region (T.region_errors_in value)) value) }
{
    match value.region_errors(alloc)? {
        Some(errors) => Ok(Err(Error::ExtractedErrors(as_errors(alloc, errors)?))),
        None => Ok(Ok(value)),
    }
}

/// Errors of regions as errors of the client's.
fn as_errors(alloc: Global, errors: Vec<RegionErr>) -> std::result::Result<Vec<Error>, NoMemory>
    ensures { IfOk result (λ all. map view_of all.items ≡ map region errors.items) }
{
    let mut all = Vec::new(alloc);
    for error in errors {
        all.push(Error::region(alloc, error)?)?;
    }
    Ok(all)
}
