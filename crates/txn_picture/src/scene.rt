//! What a picture is drawn from.
#![tactic(auto)]

use crate::columns::Columns;
use crate::rows::Rows;
use crate::shapes::Point;
use txn_fates::{Cast, Fate, Fates, Told};
use txn_lines::Line;
use txn_report::SentNote;
use txn_words::Run;

/// A run, and where its rows and columns are.
#[derive(Clone, Copy)]
pub struct Scene<'a> {
    pub script: &'a [u8],
    pub lines: &'a [Line],
    pub run: &'a Run<'a>,
    /// The text of the report.
    pub outcomes: &'a [u8],
    pub cast: &'a Cast,
    pub fates: &'a Fates,
    pub columns: &'a Columns,
    pub rows: &'a Rows,
}

impl Scene<'_> {
    /// The lifeline of the client whose line this is.
    pub fn client_of(&self, line: u64) -> u64 {
        self.columns.client(self.cast.owner(line))
    }

    /// Where a request leaves its client.
    pub fn departure(&self, note: &SentNote) -> Point {
        Point {
            x: self.client_of(note.ticket.line),
            y: self.rows.leaving(note.at),
        }
    }

    /// Where the line that has a request handled has it reach its store.
    pub fn arrival(&self, note: &SentNote, line: u64) -> Point {
        Point {
            x: self.columns.server(note.to),
            y: self.rows.reaching(line),
        }
    }

    /// Where a reply that is given in this row leaves the store.
    pub fn return_from(&self, note: &SentNote, line: u64) -> Point {
        Point {
            x: self.columns.server(note.to),
            y: self.rows.replying(line),
        }
    }

    /// Between the lifeline of a store and the one before it, in the row of a line.
    pub fn midway(&self, note: &SentNote, line: u64) -> Point {
        Point {
            x: self.columns.server(note.to).wrapping_sub(90),
            y: self.rows.reaching(line),
        }
    }

    /// Whether a request is handled once its client has crashed.
    pub fn is_orphan(&self, note: &SentNote, fate: Fate) -> bool {
        let crash = self.cast.crash_of(note.ticket.line);
        crash > 0 && crash < fate.served
    }

    /// Whether a request is handled once its client was told of its loss, or has crashed.
    pub fn is_late(&self, note: &SentNote, fate: Fate) -> bool {
        let is_given_up = fate.what == Told::Lost && fate.told < fate.served;
        is_given_up || self.is_orphan(note, fate)
    }
}
