//! Calls of the region cache, of a client of the placement driver, of its queries and of the oracle of timestamps, by rows of
//! words (`case_words` tells how a row is read and shown). A case begins with nothing known, and nobody who asks.
//!
//! A QUERY is `region:KEY`, `id:ID`, `store:ID`, `stores`, `time` or `safepoint:VERSION`. An ANSWER is `region ID START END
//! STORE`, with `-` for no leader and `bare` behind it for no epoch, `store ID STATE ENGINE`, `stores STATE..`, `time`,
//! `safepoint VERSION` or `failed`.
//!
//! | row | what is called |
//! |---|---|
//! | `add ID START END`, `ids`, `at KEY..`, `by_id ID WAITED`, `store_by_id ID` | the cache: adds a region, shows the ids, finds regions and stores |
//! | `learn QUERY ANSWER..`, `lead ID CONF STORE`, `drop ID CONF`, `ask KEY`, `valid STATE ENGINE` | the cache: what changes it, the queries that are made, and which stores are valid |
//! | `encoding`, `plain` | a client whose regions have encoded keys, or plain ones |
//! | `pd CALL WORD..` | a call of the client; `at` shows the store of each key's leader |
//! | `group_keys KEY..`, `group_range START END`, `group_piece START END FIRST`, `group_ranges START..END`, `group_stores ..` | what a client's regions cut keys and ranges into |
//! | `decode encoding|plain START END` | the keys of a region that is shown |
//! | `codec CALL` | codecs, and what has a key |
//! | `asks FIRST LAST`, `group`, `reply COUNT PHYSICAL LOGICAL`, `askers`, `lost` | the oracle |
//! | `play QUERY NOW:EVENT..` | a query that is told events, each about what was posted last; and what was posted: a query, the members, a sleep, an ask |
//! | `both`, `queries`, `requests` | two queries of a client; what a client and a cluster ask |
#![tactic(auto)]

mod cache;
mod client;
mod codecs;
mod grouping;
mod oracle;
mod playing;
mod told;

use case_words::{Rows, run, word};
use client::Client;
use std::alloc::Global;
use std::process::ExitCode;
use txn_region::RegionCache;
use txn_tso::TimestampOracle;

/// What the calls of a case have told.
struct Case {
    alloc: Global,
    cache: RegionCache,
    pd: Client,
    oracle: TimestampOracle,
}

impl Case {
    fn other(&mut self, rt: &HostRuntime, words: &[&str]) {
        match word(words, 0) {
            "asks" | "group" | "reply" | "askers" | "lost" => {
                oracle::serve(rt, &mut self.oracle, words)
            }
            "play" => playing::serve(rt, words),
            "both" => playing::both(rt),
            "queries" => playing::queries(rt),
            "requests" => playing::requests(rt),
            "decode" => client::decode(rt, words),
            "codec" => codecs::serve(rt, words),
            _ => cache::serve(rt, &mut self.cache, words),
        }
    }
}

impl Rows for Case {
    fn begin(&mut self) {
        self.cache = RegionCache::new(self.alloc);
        self.pd = client::new(self.alloc, true);
        self.oracle = TimestampOracle::new(self.alloc);
    }

    fn serve(&mut self, rt: &HostRuntime, words: &[&str]) {
        match word(words, 0) {
            "encoding" => self.pd = client::new(self.alloc, true),
            "plain" => self.pd = client::new(self.alloc, false),
            "pd" => client::serve(rt, &mut self.pd, words),
            "group_keys" => grouping::keys_of(rt, &mut self.pd, words),
            "group_range" => grouping::range(rt, &mut self.pd, words),
            "group_piece" => grouping::piece(rt, &mut self.pd, words),
            "group_ranges" => grouping::ranges(rt, &mut self.pd, words),
            "group_stores" => grouping::stores(rt, &mut self.pd, words),
            _ => self.other(rt, words),
        }
    }
}

fn main(rt: HostRuntime) -> ExitCode {
    let mut case = Case {
        alloc: rt.alloc(),
        cache: RegionCache::new(rt.alloc()),
        pd: client::new(rt.alloc(), true),
        oracle: TimestampOracle::new(rt.alloc()),
    };
    let code = run(&rt, &mut case);
    let Case {
        alloc: _,
        cache,
        pd,
        oracle,
    } = case;
    drop(cache);
    drop(pd);
    drop(oracle);
    code
}
