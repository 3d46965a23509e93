//! A walk through the tasks of a queue in the order of their results.
ghost use Rattle.std.specs.Prelude.{◌≡◌, ◌++◌, ◌<◌, IfOk, OnOk, map, length};
ghost use Rattle.std.specs.List.{All};
ghost use Rattle.txn_retry.specs.Place.{order_of, parts_of, result_of, results, AreDistinct, AreLater};
ghost use Rattle.txn_retry.specs.Walk.{IsMade, Walks};

use crate::place::{Parts, Place};
use std::alloc::Global;
use std::mem;
use txn_kv::NoMemory;

/// What stands in the place of a task.
fn parts_of<R: Drop>(place: &Place<R>) -> Option<Parts>
    ensures { result ≡ parts_of place.now }
{
    match place {
        Place::Cut(parts) => Some(*parts),
        Place::Waiting => None,
        Place::Running => None,
        Place::Resting => None,
        Place::Ended(_) => None,
    }
}

/// Takes up a run of tasks: its first task, or its parts, and then the rest.
fn step<R: Drop>(
    places: &[Place<R>],
    run: Parts,
    runs: &mut Vec<Parts>,
    order: &mut Vec<usize>,
) -> Result<(), NoMemory>
    requires later { AreLater (map parts_of places.now) }
    requires made { IsMade (map parts_of places.now) run }
    ensures { OnOk result (Walks (map parts_of places.now) run runs.old.items runs.new.items order.old.items order.new.items) }
{
    if run.count == 0 {
        return Ok(());
    }
    runs.push(Parts {
        first: run.first + 1,
        count: run.count - 1,
    })?;
    match parts_of(&places[run.first]) {
        Some(parts) => Ok(runs.push(parts)?),
        None => Ok(order.push(run.first)?),
    }
}

/// The tasks that were not cut, in the order of their results.
pub fn in_order<R: Drop>(
    alloc: Global,
    places: &[Place<R>],
    roots: usize,
) -> Result<Vec<usize>, NoMemory>
    requires later { AreLater (map parts_of places.now) }
    requires made { IsMade (map parts_of places.now) (record { first = 0; count = roots }) }
    ensures { IfOk result (λ order. order.items ≡ order_of roots (map parts_of places.now)) }
{
    let mut order = Vec::new(alloc);
    let mut runs = Vec::new(alloc);
    runs.push(Parts {
        first: 0,
        count: roots,
    })?;
    while let Some(run) = runs.pop() {
        step(places, run, &mut runs, &mut order)?;
    }
    Ok(order)
}

/// Takes the result of a task that has ended.
fn take_result<R: Drop>(place: &mut Place<R>, results: &mut Vec<R>) -> Result<(), NoMemory>
    ensures { OnOk result (results.new.items ≡ results.old.items ++ result_of place.old) }
{
    match mem::replace(place, Place::Resting) {
        Place::Ended(answer) => Ok(results.push(answer)?),
        Place::Waiting => Ok(()),
        Place::Running => Ok(()),
        Place::Resting => Ok(()),
        Place::Cut(_) => Ok(()),
    }
}

/// The results of these tasks, in this order. No two of them are the same.
pub fn take_results<R: Drop>(
    alloc: Global,
    places: Vec<Place<R>>,
    order: Vec<usize>,
) -> Result<Vec<R>, NoMemory>
    requires distinct { AreDistinct order.items }
    requires made { All (λ i. i < length places.items) order.items }
    ensures { IfOk result (λ v. v.items ≡ results places.items order.items) }
{
    let mut places = places;
    let mut results = Vec::new(alloc);
    for at in order {
        take_result(&mut places[at], &mut results)?;
    }
    Ok(results)
}
