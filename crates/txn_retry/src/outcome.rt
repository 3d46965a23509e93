//! The results of a plan's tasks as the plan's answer.
ghost use Rattle.std.specs.Prelude.{◌≡◌, ◌++◌, ◌∷◌, [], Ok, Err, IfOk, MatchResult, OnOk, map};
ghost use Rattle.txn_retry.specs.Outcome.{all_or_first, in_place};

use std::alloc::Global;
use txn_kv::{NoMemory, Result};

/// A task's error in place of its result.
fn in_place<T: Drop>(outcome: Result<Result<T>>) -> Result<T>
    ensures { result ≡ in_place outcome }
{
    match outcome {
        Ok(result) => result,
        Err(error) => Err(error),
    }
}

/// Each result, with the errors of tasks in their places.
pub fn keep_all<T: Drop>(
    alloc: Global,
    outcomes: Vec<Result<Result<T>>>,
) -> std::result::Result<Vec<Result<T>>, NoMemory>
    ensures { IfOk result (λ v. v.items ≡ map in_place outcomes.items) }
{
    let mut results = Vec::new(alloc);
    for outcome in outcomes {
        results.push(in_place(outcome))?;
    }
    Ok(results)
}

/// Each result, or the first error of a task.
pub fn all_or_first<X: Drop>(
    alloc: Global,
    outcomes: Vec<Result<X>>,
) -> std::result::Result<Result<Vec<X>>, NoMemory>
    ensures { IfOk result (λ r. MatchResult r (λ v. all_or_first outcomes.items ≡ Ok v.items) (λ error. all_or_first outcomes.items ≡ Err error)) }
{
    let mut results = Vec::new(alloc);
    for outcome in outcomes {
        match outcome {
            Ok(result) => results.push(result)?,
            Err(error) => return Ok(Err(error)),
        }
    }
    Ok(Ok(results))
}
