//! Shards, plans and what builds plans, by rows of words (`case_words` tells how a row is read and shown). A case begins with no
//! plan, and with a client that knows nothing. The clock stays at 0.
//!
//! | row | what is called |
//! |---|---|
//! | `region ID START END STORE` | the client learns the region, whose epoch is 2 and 2 and whose leader is replica 7 on the store, and that store |
//! | `divide KEY..` | the client learns the regions that these keys divide, with ids from 1 on, each led by the store of its own id |
//! | `known KEY..` | the region that the client knows at each key, and the store of its leader |
//! | `later ID START END STORE` | another client, which `shards` asks second, learns the region |
//! | `shards get KEY`, `shards batch_get KEY..`, `shards scan up|down START END`, `shards scan_lock START END` | the shards of a request: what has to be asked, what is left to be asked of the other client, and each shard with its store |
//! | `apply REGION get KEY SHARD`, `apply REGION scan START END up|down FROM TO`, `apply REGION scan_lock START END FROM TO NEXT` | a shard that is set into a request; a REGION is `whole`, or `unled`, `bare` or `neither` where its leader, its epoch or both are left out |
//! | `apply_store`, `next KEY..`, `batches SIZE KEY..`, `sizes KEY VALUE`, `only KEY` | what else requests do: for every store, behind these locks, in batches, in bytes, the only key |
//! | `dispatch STORE KEY`, `extract STORE KEY`, `resolve STORE KEY`, `resolve_prewrite STORE` | the plan from here on: a request to a store, alone or in a plan around it |
//! | `first STORE KEY`, `second STORE KEY` | a plan that is one of two: as `dispatch` or as `extract` |
//! | `get KEY`, `commit ATTEMPTS first|keep KEY..`, `destroy ATTEMPTS` | the same over regions, and to all stores. A Commit answers the first error, or keeps each in its place. A sleep between two attempts is a millisecond |
//! | `build_one ID STORE KEY`, `build_multi KEY`, `build_merged KEY` | the same by `PlanBuilder` |
//! | `start`, `copy`, `reply NUMBER REPLY`, `lost NUMBER`, `slept NUMBER`, `time NUMBER` | what the plan is told, what it answers, and what it posts then. `copy` puts a copy into its place, and `time` refuses an ask |
//! | `posted` | each request that was posted, whole |
//!
//! A REPLY is `get REGION_ERROR KEY_ERROR VALUE`, `prewrite KEY_ERROR..`, `commit REGION_ERROR KEY_ERROR VERSION`, `cleanup`,
//! `destroy REGION_ERROR TEXT`, `region ID START END STORE`, `store ID` or `stores ID..`, where `gone:ID` is a tombstone. A
//! REGION_ERROR is `-`, `stale`, `busy`, `unknown`, `leader:ID:STORE`, `epoch`, `epoch:none` or `epoch:CONF:VERSION`, the last two
//! with a region that has none or this one. A KEY_ERROR is `-`, `unlocked`, `exists`, `missing` or `locked:KEY:START`.
#![tactic(auto)]

mod client;
mod line;
mod parts;
mod posted;
mod refusals;
mod replies;
mod requests;
mod shards;
mod story;

use case_words::{Rows, rest, run, word};
use client::Client;
use std::alloc::Global;
use std::process::ExitCode;
use story::Story;

/// The clients of a case, and its plan.
struct Case {
    alloc: Global,
    pd: Client,
    later: Client,
    story: Story,
}

impl Case {
    fn other(&mut self, rt: &HostRuntime, words: &[&str]) {
        match word(words, 0) {
            "apply" => parts::apply(rt, words),
            "apply_store" => parts::apply_store(rt),
            "next" => parts::next(rt, words),
            "batches" => parts::batches(rt, words),
            "sizes" => parts::sizes(rt, words),
            "only" => parts::only(rt, words),
            _ => self.story = Story::new(self.alloc, words),
        }
    }
}

impl Rows for Case {
    fn begin(&mut self) {
        self.pd = client::new(self.alloc);
        self.later = client::new(self.alloc);
        self.story = Story::None;
    }

    fn serve(&mut self, rt: &HostRuntime, words: &[&str]) {
        match word(words, 0) {
            "region" => client::learn(rt, &mut self.pd, rest(words, 1)),
            "later" => client::learn(rt, &mut self.later, rest(words, 1)),
            "divide" => client::divide(rt, &mut self.pd, words),
            "known" => client::known(rt, &mut self.pd, words),
            "shards" => shards::serve(rt, &mut self.pd, &mut self.later, words),
            "start" | "copy" | "reply" | "lost" | "slept" | "time" => {
                self.story.tell(rt, &mut self.pd, words)
            }
            "posted" => self.story.posted(rt),
            _ => self.other(rt, words),
        }
    }
}

fn main(rt: HostRuntime) -> ExitCode {
    let mut case = Case {
        alloc: rt.alloc(),
        pd: client::new(rt.alloc()),
        later: client::new(rt.alloc()),
        story: Story::None,
    };
    let code = run(&rt, &mut case);
    let Case {
        alloc: _,
        pd,
        later,
        story,
    } = case;
    drop(pd);
    drop(later);
    drop(story);
    code
}
