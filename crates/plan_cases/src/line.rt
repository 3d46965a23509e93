//! A plan with its outbox.

use crate::client::Client;
use crate::posted::{show_errands, show_whole};
use crate::replies::reply;
use case_words::{number, rest, say, show, word};
use std::alloc::Global;
use std::fmt::Debug;
use std::marker::Model;
use txn_kv::{Error, NoMemory, Outbox, Progress};
use txn_plan::Plan;

/// Requests and sleeps are numbered from 1, in the order in which they are posted.
pub struct Line<P: Plan> {
    plan: P,
    out: Outbox,
}

impl<P: Plan> Model for Line<P> {
    ghost use Rattle.txn_history.specs.Posted.{HasNumbers};

    ghost Value = { P };

    ghost view = { λ l. l.plan };

    ghost invariant = { λ l. P.meaning.ready l.plan × HasNumbers l.out };
}

impl<P: Plan> Drop for Line<P> {
    fn drop(self) {
        let Line { plan, out } = self;
        drop(plan);
        drop(out);
    }
}

impl<P: Plan> Line<P> {
    pub fn new(alloc: Global, plan: P) -> Line<P>
        requires { P.meaning.ready plan }
    {
        Line {
            plan,
            out: Outbox::new(alloc, 7, false),
        }
    }

    fn copy(&mut self) -> Result<Progress<P::Result>, NoMemory> {
        self.plan = self.plan.try_clone()?;
        Ok(Progress::Waiting)
    }

    fn take(
        &mut self,
        rt: &HostRuntime,
        pd: &mut Client,
        words: &[&str],
    ) -> Result<Progress<P::Result>, NoMemory> {
        let number = number(words, 1);
        match word(words, 0) {
            "start" => self.plan.start(pd, 0, &mut self.out),
            "reply" => {
                let reply = reply(rt.alloc(), rest(words, 2));
                self.plan.take_reply(pd, 0, number, reply, &mut self.out)
            }
            "lost" => self.plan.lost(pd, 0, number, &mut self.out),
            "slept" => self.plan.slept(pd, 0, number, &mut self.out),
            "time" => {
                let refused = Err(Error::Unimplemented);
                self.plan.take_time(pd, 0, number, refused, &mut self.out)
            }
            _ => self.copy(),
        }
    }

    /// Tells the plan what comes, and shows what it answers and what it posts then.
    pub fn tell(&mut self, rt: &HostRuntime, pd: &mut Client, words: &[&str])
    where
        P::Result: Debug,
    {
        let before = self.out.sends.len();
        match self.take(rt, pd, words) {
            Ok(progress) => show(rt, &progress),
            Err(NoMemory) => say(rt, &"out of memory"),
        }
        let after = self.out.sends.as_slice();
        if before < after.len() {
            show_errands(rt, &after[before..]);
        }
    }

    pub fn posted(&self, rt: &HostRuntime) {
        show_whole(rt, self.out.sends.as_slice());
    }
}
