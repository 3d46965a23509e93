//! The tasks of a plan, in the order in which they were made and in the order of their results.
ghost use Rattle.std.specs.Prelude.{◌≡◌, ◌++◌, ◌+◌, ◌<◌, ◌≤◌, ◌==◌, [], true, false, IfOk, OnOk, OnErr, IfSome, length, map, replicate, slice_index_or};
ghost use Rattle.std.proofs.Math.ListN.{get_or};
ghost use Rattle.txn_retry.specs.Place.{begun, cut_at, is_open, is_resting, is_running, is_waiting, next_task, open_ones, parts_of, placed, results, result_of, running, started, AreWhole, StandsAt};
ghost use Rattle.txn_retry.specs.declared.place.Place.TheVariants.{Waiting, Running, Resting, Ended};

use crate::place::{Parts, Place};
use crate::walk;
use std::alloc::Global;
use std::marker::Model;
use txn_kv::NoMemory;

/// How many tasks of a plan run at once.
pub const MAX_RUNNING: usize = 16;

/// Tasks are numbered from 0 in the order in which they are made, and start in that order. One that is cut gives its place to
/// its parts, which are made later.
pub struct Queue<R: Drop> {
    roots: usize,
    places: Vec<Place<R>>,
    started: usize,
    running: usize,
    unended: usize,
    alloc: Global,
}

impl<R: Drop> Drop for Queue<R> {
    fn drop(self) {
        let Queue {
            roots: _,
            places,
            started: _,
            running: _,
            unended: _,
            alloc: _,
        } = self;
        drop(places);
    }
}

impl<R: Drop> Model for Queue<R> {
    ghost use Rattle.std.specs.Prelude.{map};
    ghost use Rattle.txn_retry.specs.Place.{order_of, parts_of, IsQueue, Queued};

    ghost Value = { Queued R };

    ghost view = { λ q. record { places = q.places.items; order = order_of q.roots (map parts_of q.places.items) } };

    ghost invariant = { λ q. IsQueue q.roots q.started q.running q.unended q.places.items };
}

/// So many places of tasks that wait.
fn waiting<R: Drop>(alloc: Global, count: usize) -> Result<Vec<Place<R>>, NoMemory>
    ensures { IfOk result (λ v. v.items ≡ replicate count Waiting) }
{
    let mut places = Vec::new(alloc);
    for _ in 0..count {
        places.push(Place::Waiting)?;
    }
    Ok(places)
}

fn add_waiting<R: Drop>(
    alloc: Global,
    places: &mut Vec<Place<R>>,
    count: usize,
) -> Result<(), NoMemory>
    ensures ok { OnOk result (places.new.items ≡ places.old.items ++ replicate count Waiting) }
    ensures err { OnErr result (places.new.items ≡ places.old.items) }
{
    let mut more = waiting(alloc, count)?;
    places.append(&mut more)?;
    Ok(())
}

impl<R: Drop> Queue<R> {
    /// Takes no memory.
    pub fn new(alloc: Global) -> Queue<R>
        ensures { result ≡ begun 0 }
    {
        Queue {
            roots: 0,
            places: Vec::new(alloc),
            started: 0,
            running: 0,
            unended: 0,
            alloc,
        }
    }

    /// Makes the first tasks.
    pub fn begin(&mut self, count: usize) -> Result<(), NoMemory>
        requires { self.old ≡ begun 0 }
        ensures ok { OnOk result (self.new ≡ begun count) }
        ensures err { OnErr result (self.new ≡ self.old) }
    {
        add_waiting(self.alloc, &mut self.places, count)?;
        self.roots = count;
        self.unended = count;
        Ok(())
    }

    /// The next task that runs, which does from now on.
    pub fn start_next(&mut self) -> Option<usize>
        ensures next { result ≡ next_task self.old.places }
        ensures after { self.new ≡ started result self.old }
    {
        if self.running == MAX_RUNNING {
            return None;
        }
        if self.started == self.places.len() {
            return None;
        }
        let at = self.started;
        self.places[at] = Place::Running;
        self.started += 1;
        self.running += 1;
        Some(at)
    }

    pub fn is_running(&self, at: usize) -> bool
        ensures value { result ≡ is_running (get_or self.now.places at Waiting) }
        ensures stands { result ≡ true → StandsAt is_running self.now.places at }
    {
        at < self.places.len() && matches!(self.places[at], Place::Running)
    }

    pub fn is_resting(&self, at: usize) -> bool
        ensures value { result ≡ is_resting (get_or self.now.places at Waiting) }
        ensures stands { result ≡ true → StandsAt is_resting self.now.places at }
    {
        at < self.places.len() && matches!(self.places[at], Place::Resting)
    }

    /// A task that ran does not any more.
    pub fn rest(&mut self, at: usize)
        requires { StandsAt is_running self.old.places at }
        ensures { self.new ≡ placed at Resting self.old }
    {
        self.places[at] = Place::Resting;
        self.running -= 1;
    }

    /// A task that rests has ended.
    pub fn end(&mut self, at: usize, answer: R)
        requires { StandsAt is_resting self.old.places at }
        ensures { self.new ≡ placed at (Ended answer) self.old }
    {
        self.places[at] = Place::Ended(answer);
        self.unended -= 1;
    }

    /// A task that rests gives its place to so many.
    pub fn cut(&mut self, at: usize, count: usize) -> Result<(), NoMemory>
        requires { StandsAt is_resting self.old.places at }
        ensures whole { AreWhole (map parts_of self.old.places) self.old.order }
        ensures ok { OnOk result (self.new ≡ cut_at at count self.old) }
        ensures err { OnErr result (self.new ≡ self.old) }
    {
        let first = self.places.len();
        add_waiting(self.alloc, &mut self.places, count)?;
        self.places[at] = Place::Cut(Parts { first, count });
        self.unended = self.unended - 1 + count;
        Ok(())
    }

    /// Whether each task has ended or was cut.
    pub fn is_over(&self) -> bool
        ensures { result ≡ (open_ones self.now.places == 0) }
    {
        self.unended == 0
    }

    /// The results of the tasks that have ended, in their order.
    pub fn into_results(self) -> Result<Vec<R>, NoMemory>
        ensures whole { AreWhole (map parts_of self.places) self.order }
        ensures results { IfOk result (λ v. v.items ≡ results self.places self.order) }
    {
        let order = walk::in_order(self.alloc, self.places.as_slice(), self.roots)?;
        let Queue {
            roots: _,
            places,
            started: _,
            running: _,
            unended: _,
            alloc,
        } = self;
        walk::take_results(alloc, places, order)
    }
}
