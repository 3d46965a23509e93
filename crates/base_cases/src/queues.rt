//! The queue of the tasks of a plan.

use case_words::{cut, number, rest, say, show, word};
use txn_retry::Queue;

/// The place of a step, counted from 0.
fn place(words: &[&str], at: usize) -> usize {
    number(words, at).min(1000) as usize
}

fn rested(rt: &HostRuntime, queue: &mut Queue<u64>, at: usize) {
    if queue.is_running(at) {
        queue.rest(at);
        show(rt, &queue.is_resting(at));
    } else {
        say(rt, &"not running");
    }
}

/// Ends a task that rests, with its place as its answer.
fn ended(rt: &HostRuntime, queue: &mut Queue<u64>, at: usize) {
    if queue.is_resting(at) {
        queue.end(at, at as u64);
    } else {
        say(rt, &"not resting");
    }
}

fn divided(rt: &HostRuntime, queue: &mut Queue<u64>, at: usize, count: usize) {
    if queue.is_resting(at) {
        show(rt, &queue.cut(at, count));
    } else {
        say(rt, &"not resting");
    }
}

fn step(rt: &HostRuntime, queue: &mut Queue<u64>, words: &[&str]) {
    let at = place(words, 1);
    match word(words, 0) {
        "start" => show(rt, &queue.start_next()),
        "rest" => rested(rt, queue, at),
        "end" => ended(rt, queue, at),
        "cut" => divided(rt, queue, at, place(words, 2)),
        _ => show(rt, &queue.is_over()),
    }
}

pub fn serve(rt: &HostRuntime, words: &[&str]) {
    let mut queue = Queue::new(rt.alloc());
    let _ = queue.begin(place(words, 1));
    for word in rest(words, 2) {
        step(rt, &mut queue, cut(rt.alloc(), word, ':').as_slice());
    }
    show(rt, &queue.into_results());
}
