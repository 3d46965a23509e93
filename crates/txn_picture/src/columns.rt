//! The columns of a picture: the texts of the lines, the lifelines, the outcomes.
#![tactic(auto)]

use crate::labels::MOST_SIGNS;
use crate::text::{signs_in, width_of};
use txn_fates::{Cast, Fates, Span};
use txn_kv::Target;
use txn_lines::Line;
use txn_report::Report;
use txn_words::first_line;

/// Where the texts of the lines begin.
pub const LINES: u64 = 42;

/// How many signs of a line's text are shown, of its outcome, and of a comment.
pub const MOST_OF_LINE: u64 = 36;

pub const MOST_OF_OUTCOME: u64 = 48;

pub const MOST_OF_COMMENT: u64 = 150;

/// How many lines that end at once are named.
pub const MOST_ASKERS: u64 = 8;

/// How many signs the number of a line has, at most, with a space before it.
const SIGNS_OF_NUMBER: u64 = 6;

/// How far clients stand from each other.
const CLIENT_LANE: u64 = 104;

/// The least way from the clients to the placement driver, and from there to a store.
const LEAST_LANE: u64 = 180;

/// How many stores a cluster has.
pub const STORES: u64 = 3;

/// Where each column is.
#[derive(Clone, Copy)]
pub struct Columns {
    /// The first client.
    pub first: u64,
    pub driver: u64,
    /// The stores, by their ids; 0 where a store does not appear.
    pub stores: [u64; 4],
    pub outcomes: u64,
    pub width: u64,
}

/// The most signs of what a run has for its requests and marks.
#[derive(Clone, Copy)]
struct Widest {
    to_driver: u64,
    to_store: u64,
    marks: u64,
    ends: u64,
}

fn signs_of(fates: &Fates, span: Span) -> u64 {
    signs_in(fates.said(span), MOST_SIGNS)
}

/// The most signs among the requests of a run.
fn widest_of(fates: &Fates, report: &Report) -> Widest {
    let mut widest = Widest {
        to_driver: 0,
        to_store: 0,
        marks: 0,
        ends: 0,
    };
    for (at, note) in report.sent.as_slice().iter().enumerate() {
        let fate = fates.get(at);
        let signs = signs_of(fates, fate.label).max(signs_of(fates, fate.said));
        match note.to {
            Target::Placement => widest.to_driver = widest.to_driver.max(signs),
            Target::Store(_) => widest.to_store = widest.to_store.max(signs),
        }
        let marks = signs_of(fates, fate.locked)
            .max(signs_of(fates, fate.committed))
            .max(signs_of(fates, fate.rolled));
        widest.marks = widest.marks.max(marks);
        let askers = (note.askers.len() as u64).min(MOST_ASKERS);
        let ends = askers.wrapping_mul(SIGNS_OF_NUMBER).wrapping_add(20);
        widest.ends = widest.ends.max(ends);
    }
    widest
}

/// The most signs of the texts of lines, or of comments.
fn widest_line(script: &[u8], lines: &[Line], of_comments: bool, most: u64) -> u64 {
    let mut rest = script;
    let mut widest: u64 = 0;
    for line in lines {
        let (text, after) = first_line(rest);
        if matches!(line, Line::Blank) == of_comments {
            widest = widest.max(signs_in(text, most));
        }
        rest = after;
    }
    widest
}

/// The most signs of outcomes, which have their numbers before them.
fn widest_outcome(outcomes: &[u8], count: usize) -> u64 {
    let mut rest = outcomes;
    let mut widest: u64 = 0;
    for _ in 0..count {
        let (text, after) = first_line(rest);
        widest = widest.max(signs_in(text, MOST_OF_OUTCOME));
        rest = after;
    }
    widest
}

/// Whether a request goes to a store, or a region is led by it.
fn appears(store: u64, lines: &[Line], report: &Report) -> bool {
    for note in report.sent.as_slice() {
        if note.to == Target::Store(store) {
            return true;
        }
    }
    for line in lines {
        if let Line::Lead { store: leader, .. } = line {
            if *leader == store {
                return true;
            }
        }
    }
    false
}

fn lane(signs: u64) -> u64 {
    width_of(signs).wrapping_add(36).max(LEAST_LANE)
}

impl Columns {
    pub fn of(
        script: &[u8],
        lines: &[Line],
        report: &Report,
        outcomes: &[u8],
        cast: &Cast,
        fates: &Fates,
    ) -> Columns {
        let widest = widest_of(fates, report);
        let texts = width_of(widest_line(script, lines, false, MOST_OF_LINE));
        let first = texts.max(90).wrapping_add(LINES).wrapping_add(76);
        let clients = (cast.lives().len() as u64).max(1).wrapping_sub(1);
        let driver = first
            .wrapping_add(clients.wrapping_mul(CLIENT_LANE))
            .wrapping_add(lane(widest.to_driver));
        let mut columns = Columns {
            first,
            driver,
            stores: [0; 4],
            outcomes: 0,
            width: 0,
        };
        let store_lane = lane(widest.to_store).max(width_of(widest.marks).wrapping_add(40));
        let last = columns.place_stores(lines, report, store_lane);
        let marks = width_of(widest.marks).max(60);
        columns.outcomes = last.wrapping_add(marks).wrapping_add(44);
        let signs = widest_outcome(outcomes, lines.len()).max(widest.ends);
        let comments = width_of(widest_line(script, lines, true, MOST_OF_COMMENT));
        columns.width = columns
            .outcomes
            .wrapping_add(width_of(signs))
            .wrapping_add(12)
            .max(comments.wrapping_add(LINES).wrapping_add(16));
        columns
    }

    /// Gives each store that appears its place, and answers the last place.
    fn place_stores(&mut self, lines: &[Line], report: &Report, lane: u64) -> u64 {
        let mut last = self.driver;
        for store in 1..STORES + 1 {
            if appears(store, lines, report) {
                last = last.wrapping_add(lane);
                self.stores[store as usize] = last;
            }
        }
        last
    }

    /// The lifeline of a client, by its number.
    pub fn client(&self, number: u64) -> u64 {
        self.first
            .wrapping_add(number.max(1).wrapping_sub(1).wrapping_mul(CLIENT_LANE))
    }

    pub fn store(&self, store: u64) -> u64 {
        if store <= STORES {
            self.stores[store as usize]
        } else {
            0
        }
    }

    /// The lifeline to which a request goes.
    pub fn server(&self, to: Target) -> u64 {
        match to {
            Target::Placement => self.driver,
            Target::Store(store) => self.store(store),
        }
    }
}
