//! The cases, one after another.
ghost use Rattle.std.specs.Prelude.{IfOk};
ghost use Rattle.store_cases.specs.Serving.{IsServable};

use crate::locking::locking;
use crate::placing::{moving, placing, timing};
use crate::reading::reading;
use crate::settling::settling;
use crate::shown::{ShownCell, ShownReply};
use crate::words::{number, number_or_none, word};
use crate::writing::writing;
use case_words::Fault;
use std::alloc::Global;
use txn_kv::{ApiVersion, Context, Peer, RegionEpoch, Reply, Request};
use txn_model::ModelStore;

/// The store of a case, and the context of its requests.
#[derive(Debug, Drop)]
pub struct Session {
    alloc: Global,
    store: ModelStore,
    here: Option<Context>,
    has_begun: bool,
}

/// The opening store's only region.
fn first_region() -> Context {
    Context {
        region_id: 1,
        region_epoch: Some(RegionEpoch {
            conf_ver: 1,
            version: 1,
        }),
        peer: Some(Peer { id: 1, store_id: 1 }),
        api_version: ApiVersion::V1,
    }
}

fn epoch(words: &[&str]) -> Result<Option<RegionEpoch>, Fault> {
    match number_or_none(words, 3)? {
        Some(conf_ver) => Ok(Some(RegionEpoch {
            conf_ver,
            version: number(words, 4)?,
        })),
        None => Ok(None),
    }
}

fn context(words: &[&str]) -> Result<Option<Context>, Fault> {
    if word(words, 1)? == "nothing" {
        return Ok(None);
    }
    let peer = match number_or_none(words, 2)? {
        Some(store) => Some(Peer {
            id: store,
            store_id: store,
        }),
        None => None,
    };
    Ok(Some(Context {
        region_id: number(words, 1)?,
        region_epoch: epoch(words)?,
        peer,
        api_version: ApiVersion::V1,
    }))
}

impl Session {
    pub fn new(alloc: Global) -> Result<Session, Fault> {
        Ok(Session {
            alloc,
            store: ModelStore::new(alloc)?,
            here: Some(first_region()),
            has_begun: false,
        })
    }

    /// Prints what the case left.
    pub fn leave(&self, rt: &HostRuntime) -> Result<(), Fault> {
        if !self.has_begun {
            return Ok(());
        }
        for cell in self.store.cells() {
            print!(rt; "{}", ShownCell(cell))?;
        }
        let (last, read, safe) = (
            self.store.last(),
            self.store.max_read(),
            self.store.safepoint(),
        );
        println!(rt; "  last {last} read {read} safe {safe}")?;
        Ok(())
    }

    fn begin(&mut self, rt: &HostRuntime, line: &str) -> Result<(), Fault> {
        self.leave(rt)?;
        println!(rt; "{line}")?;
        *self = Session::new(self.alloc)?;
        self.has_begun = true;
        Ok(())
    }

    /// The request of a line, if it has one.
    fn request(&self, words: &[&str]) -> Result<Option<Request>, Fault>
        ensures { IfOk result IsServable }
    {
        let (alloc, here) = (self.alloc, self.here);
        if let Some(request) = reading(alloc, here, words)? {
            return Ok(Some(request));
        }
        if let Some(request) = writing(alloc, here, words)? {
            return Ok(Some(request));
        }
        if let Some(request) = locking(alloc, here, words)? {
            return Ok(Some(request));
        }
        if let Some(request) = settling(alloc, here, words)? {
            return Ok(Some(request));
        }
        placing(alloc, words)
    }

    fn reply(&mut self, words: &[&str]) -> Result<Option<Reply>, Fault> {
        match self.request(words)? {
            Some(request) => Ok(Some(self.store.serve(&request)?)),
            None => timing(&mut self.store, words),
        }
    }

    /// Serves a line.
    pub fn serve(&mut self, rt: &HostRuntime, line: &str, words: &[&str]) -> Result<(), Fault> {
        let Some(first) = words.first() else {
            return Ok(());
        };
        if *first == "case" {
            return self.begin(rt, line);
        }
        if *first == "via" {
            self.here = context(words)?;
            return Ok(());
        }
        if first.starts_with('#') {
            return Ok(());
        }
        if let Some(reply) = self.reply(words)? {
            println!(rt; "{first}{}", ShownReply(&reply))?;
            return Ok(());
        }
        match moving(self.alloc, &mut self.store, words)? {
            Some(did) => println!(rt; "{first} {did}")?,
            None => return Err(Fault::Words),
        }
        Ok(())
    }
}
