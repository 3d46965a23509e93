//! What became of each request.
#![tactic(auto)]

use std::alloc::Global;
use txn_kv::NoMemory;

/// A part of the words of a run.
#[derive(Clone, Copy)]
pub struct Span {
    pub from: usize,
    pub to: usize,
}

pub const NOWHERE: Span = Span { from: 0, to: 0 };

/// What the client of a request was told.
#[derive(Clone, Copy, PartialEq, Eq)]
pub enum Told {
    Nothing,
    Reply,
    Lost,
    Busy,
}

/// What became of a request.
#[derive(Clone, Copy)]
pub struct Fate {
    /// The line that had it handled, and 0 where none did.
    pub served: u64,
    /// The line at which its client was told of it, and 0 where it was not.
    pub told: u64,
    pub what: Told,
    /// Whether the reply has an error.
    pub is_refused: bool,
    /// Its ticket, its name and its keys.
    pub label: Span,
    /// The reply in short.
    pub said: Span,
    /// What it locked, committed and rolled back.
    pub locked: Span,
    pub committed: Span,
    pub rolled: Span,
}

/// A request that was just sent.
pub const SENT: Fate = Fate {
    served: 0,
    told: 0,
    what: Told::Nothing,
    is_refused: false,
    label: NOWHERE,
    said: NOWHERE,
    locked: NOWHERE,
    committed: NOWHERE,
    rolled: NOWHERE,
};

/// What became of the requests of a run, in the order in which they were sent, and the words for it.
pub struct Fates {
    fates: Vec<Fate>,
    pub(crate) words: Vec<u8>,
}

impl Drop for Fates {
    fn drop(self) {
        let Fates { fates, words } = self;
        drop(fates);
        drop(words);
    }
}

impl Fates {
    /// So many requests were sent.
    pub fn new(alloc: Global, count: usize) -> Result<Fates, NoMemory> {
        let fates = vec![in alloc; SENT; count]?;
        Ok(Fates {
            fates,
            words: Vec::new(alloc),
        })
    }

    pub fn get(&self, at: usize) -> Fate {
        match self.fates.get(at) {
            Some(fate) => *fate,
            None => SENT,
        }
    }

    pub fn set(&mut self, at: usize, fate: Fate) {
        if at < self.fates.len() {
            self.fates[at] = fate;
        }
    }

    pub fn said(&self, span: Span) -> &[u8] {
        let words = self.words.as_slice();
        if span.from <= span.to && span.to <= words.len() {
            &words[span.from..span.to]
        } else {
            &[]
        }
    }

    /// The words from here to their end.
    pub fn since(&self, from: usize) -> Span {
        Span {
            from,
            to: self.words.len(),
        }
    }
}
