ghost use Rattle.std.specs.Prelude.{◌≡◌, ◌^◌, ◌-◌, [], None, IfOk, IfErr, OnOk, Some, min};
ghost use Rattle.std.proofs.Common.{ap, sym, ◌∙◌};
ghost use Rattle.txn_merge.specs.Cleanup.{resolved_of, total_of, views_held};
ghost use Rattle.txn_merge.specs.Found.{AreSeen};
ghost use Rattle.txn_merge.specs.Gathered.{FirstErrorOr, UnlessMemory, errors_of, first, values_of};

use crate::has_key_errors::HasKeyErrors;
use crate::has_region_error::HasRegionError;
use crate::merge::{Collect, Merge};
use std::alloc::Global;
use txn_kv::{Error, NoMemory, RegionErr, Result};

/// What became of the locks of a region, or of many, that were cleaned up.
#[derive(Debug, Drop)]
pub struct CleanupLocksResult {
    pub region_error: Option<RegionErr>,
    pub key_error: Option<Vec<Error>>,
    /// How many locks were settled.
    pub resolved_locks: u64,
}

impl HasRegionError for CleanupLocksResult {
    ghost region_error_in = { λ s. s.region_error };

    ghost without_region_error = { λ s. record s { region_error = None } };

    ghost no_region_error = { λ s none. ap (λ error. record s { region_error = error }) (sym none) };

    fn region_error(&mut self) -> Option<RegionErr> {
        self.region_error.take()
    }
}

impl HasKeyErrors for CleanupLocksResult {
    ghost key_errors_in = { λ s. views_held s.key_error };

    ghost key_errors_left = { λ old new. views_held old.key_error ≡ [] → new ≡ old };

    ghost no_key_errors = { λ _ _ left none. left none };

    fn key_errors(&mut self, _alloc: Global) -> std::result::Result<Option<Vec<Error>>, NoMemory> {
        Ok(take_held(&mut self.key_error))
    }
}

/// The errors that are held, if there are some.
fn take_held(held: &mut Option<Vec<Error>>) -> Option<Vec<Error>>
    ensures found { AreSeen (views_held held.old) result }
    ensures left { views_held held.old ≡ [] → held.new ≡ held.old }
{
    match held {
        None => None,
        Some(errors) if errors.is_empty() => None,
        Some(_) => held.take(),
    }
}

/// The sum of the locks that were settled, at most 2^64 - 1.
impl Merge<CleanupLocksResult> for Collect {
    type Out = CleanupLocksResult;

    ghost merges = { λ _ results result. FirstErrorOr (λ values out. out ≡ total_of values) results result };

    fn merge(
        &self,
        _alloc: Global,
        input: Vec<Result<CleanupLocksResult>>,
    ) -> Result<CleanupLocksResult>
        ensures { UnlessMemory (FirstErrorOr (λ values out. out ≡ total_of values) input.items) result }
    {
        let resolved_locks = sum_resolved(input)?;
        Ok(CleanupLocksResult {
            region_error: None,
            key_error: None,
            resolved_locks,
        })
    }
}

fn sum_resolved(input: Vec<Result<CleanupLocksResult>>) -> Result<u64>
    ensures ok { IfOk result (λ sum. (errors_of input.items ≡ []) × (sum ≡ min (2 ^ 64 - 1) (resolved_of (values_of input.items)))) }
    ensures err { IfErr result (λ error. first (errors_of input.items) ≡ Some error) }
{
    let mut sum: u64 = 0;
    for result in input {
        let cleaned = result?;
        sum = sum.saturating_add(cleaned.resolved_locks);
    }
    Ok(sum)
}
