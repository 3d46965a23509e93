//! The plans of transactions, and what is told of a plan that was done.
ghost use Rattle.std.specs.Prelude.{IsSome};

use case_words::{rest, say, show, word};
use std::alloc::Global;
use std::fmt::Debug;
use std::marker::Model;
use txn_commit::Plans;
use txn_commit_plans::{Done, TransactionPlan, send};
use txn_fakes::NoClient;
use txn_kv::{
    Backoff, Errand, Error, GetRequest, GetResponse, Items, Key, NoMemory, Outbox, Progress, Reply,
    Value,
};
use txn_merge::RetryOptions;
use txn_plan::{Dispatch, Plan};
use txn_request::requests::{new_batch_rollback_request, new_commit_request, new_prewrite_request};

/// A plan with its client and its outbox. What comes is of number 1.
#[derive(Drop)]
struct Planning<P: Plan> {
    plan: P,
    pd: NoClient,
    out: Outbox,
    alloc: Global,
}

impl<P: Plan> Model for Planning<P> {
    ghost use Rattle.txn_history.specs.Posted.{HasNumbers};

    ghost Value = { P };

    ghost view = { λ l. l.plan };

    ghost invariant = { λ l. P.meaning.ready l.plan × HasNumbers l.out };
}

impl<P: Plan> Planning<P>
where
    P::Result: Debug,
{
    fn new(alloc: Global, plan: P) -> Planning<P>
        requires { P.meaning.ready plan }
    {
        Planning {
            plan,
            pd: NoClient::new(),
            out: Outbox::new(alloc, 7, false),
            alloc,
        }
    }

    /// What the plan answers to each event, and what it posts.
    fn play(&mut self, rt: &HostRuntime, events: &[&str]) {
        for event in events {
            let posted = self.out.sends.len();
            match self.tell(event) {
                Ok(progress) => show(rt, &progress),
                Err(error) => show(rt, &error),
            }
            show_errands(rt, self.out.sends.as_slice(), posted);
        }
    }

    fn tell(&mut self, event: &str) -> Result<Progress<P::Result>, NoMemory> {
        let (pd, out) = (&mut self.pd, &mut self.out);
        match event {
            "copied" => self.copy(),
            "started" => self.plan.start(pd, 0, out),
            "replied" => self
                .plan
                .take_reply(pd, 0, 1, found_nothing(self.alloc), out),
            "lost" => self.plan.lost(pd, 0, 1, out),
            "slept" => self.plan.slept(pd, 0, 1, out),
            _ => self
                .plan
                .take_time(pd, 0, 1, Err(Error::Unimplemented), out),
        }
    }

    /// A copy stands in its place from now on.
    fn copy(&mut self) -> Result<Progress<P::Result>, NoMemory> {
        self.plan = self.plan.try_clone()?;
        Ok(Progress::Waiting)
    }
}

fn found_nothing(alloc: Global) -> Reply {
    Reply::Get(GetResponse {
        region_error: None,
        error: None,
        value: Value::new(alloc),
        not_found: true,
    })
}

fn show_errands(rt: &HostRuntime, errands: &[Errand], from: usize) {
    for errand in errands.iter().skip(from) {
        match errand {
            Errand::Send { to, request, .. } => {
                let _ = print!(rt; "; to {to:?}: {request:?}");
            }
            _ => say(rt, &"; no request"),
        }
    }
}

/// A plan that sends a Get to store 3, of which only that it was done is told.
fn getting(alloc: Global) -> Done<Dispatch<GetRequest>>
    ensures { IsSome result.store }
{
    let get = GetRequest {
        context: None,
        key: Key::empty(alloc),
        version: 5,
    };
    Done::new(Dispatch::new(get, Some(3)))
}

fn play(rt: &HostRuntime, words: &[&str]) {
    let mut planning = Planning::new(rt.alloc(), getting(rt.alloc()));
    planning.play(rt, rest(words, 1));
}

fn stored(rt: &HostRuntime) {
    let plan = getting(rt.alloc());
    show(rt, &plan.plan().store);
}

fn options() -> RetryOptions {
    RetryOptions::new(
        Backoff::no_jitter_backoff(1, 1, 3),
        Backoff::no_jitter_backoff(2, 2, 5),
    )
}

fn prewrite_width<P: Plans>(alloc: Global) -> Result<u64, NoMemory> {
    let request = new_prewrite_request(alloc, Items::new(alloc), Key::empty(alloc), 5, 3000);
    let plan = P::prewrite(alloc, &NoClient::new(), request, options())?;
    Ok(plan.width())
}

fn commit_width<P: Plans>(alloc: Global) -> Result<u64, NoMemory> {
    let request = new_commit_request(Items::new(alloc), 5, 6);
    let plan = P::commit(alloc, &NoClient::new(), request, options())?;
    Ok(plan.width())
}

fn rollback_width<P: Plans>(alloc: Global) -> Result<u64, NoMemory> {
    let request = new_batch_rollback_request(Items::new(alloc), 5);
    let plan = P::roll_back(alloc, &NoClient::new(), request, options())?;
    Ok(plan.width())
}

fn widths<P: Plans>(rt: &HostRuntime) {
    show(rt, &prewrite_width::<P>(rt.alloc()));
    show(rt, &commit_width::<P>(rt.alloc()));
    show(rt, &rollback_width::<P>(rt.alloc()));
}

/// Nothing is done: that each can move is checked as this is compiled.
fn moves() {
    send::can_move::<u8>();
    send::plans_can_move::<u8>();
}

pub fn serve(rt: &HostRuntime, words: &[&str]) {
    match word(words, 0) {
        "plan" => play(rt, words),
        "stored" => stored(rt),
        "widths" => widths::<TransactionPlan>(rt),
        _ => moves(),
    }
}
