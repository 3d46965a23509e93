//! The clients of a run: whose each line is, and from where to where each client lives.
#![tactic(auto)]

use std::alloc::Global;
use txn_kv::NoMemory;
use txn_lines::Line;
use txn_report::{Outcome, Report};

/// A client's life.
#[derive(Clone, Copy)]
pub struct Life {
    /// The line that makes it, which is its name.
    pub line: u64,
    /// The line at which it crashes, and 0 where it does not.
    pub crash: u64,
}

/// The clients of a run, in the order of their lines.
pub struct Cast {
    /// For each line the number of its client, counted from 1, and 0 for what is no client's.
    owners: Vec<u64>,
    lives: Vec<Life>,
}

impl Drop for Cast {
    fn drop(self) {
        let Cast { owners, lives } = self;
        drop(owners);
        drop(lives);
    }
}

/// The line that a call names.
fn named_by(line: &Line) -> u64 {
    match line {
        Line::Begin { client, .. } | Line::Timestamp { client } => *client,
        Line::Put { transaction, .. }
        | Line::Insert { transaction, .. }
        | Line::Delete { transaction, .. }
        | Line::Mutate { transaction, .. }
        | Line::Lock { transaction, .. }
        | Line::Commit { transaction }
        | Line::Rollback { transaction } => *transaction,
        _ => 0,
    }
}

/// Whether a line could do nothing.
pub fn is_skipped(report: &Report, number: u64) -> bool {
    let at = (number as usize).wrapping_sub(1);
    matches!(report.outcomes.as_slice().get(at), Some(Outcome::Skipped))
}

impl Cast {
    pub fn of(alloc: Global, lines: &[Line], report: &Report) -> Result<Cast, NoMemory> {
        let mut cast = Cast {
            owners: Vec::new(alloc),
            lives: Vec::new(alloc),
        };
        match cast.add_all(lines, report) {
            Ok(()) => Ok(cast),
            Err(error) => {
                drop(cast);
                Err(error)
            }
        }
    }

    fn add_all(&mut self, lines: &[Line], report: &Report) -> Result<(), NoMemory> {
        let mut number: u64 = 0;
        for line in lines {
            number = number.wrapping_add(1);
            self.add(number, line, is_skipped(report, number))?;
        }
        Ok(())
    }

    fn add(&mut self, number: u64, line: &Line, is_skipped: bool) -> Result<(), NoMemory> {
        let owner = match line {
            Line::Client => {
                self.lives.push(Life {
                    line: number,
                    crash: 0,
                })?;
                self.lives.len() as u64
            }
            Line::Crash { client } => {
                if !is_skipped {
                    self.end(self.owner(*client), number);
                }
                0
            }
            other => self.owner(named_by(other)),
        };
        self.owners.push(owner)?;
        Ok(())
    }

    fn end(&mut self, client: u64, number: u64) {
        let at = (client as usize).wrapping_sub(1);
        if at < self.lives.len() {
            self.lives[at].crash = number;
        }
    }

    /// The number of the client whose line this is, counted from 1, and 0 where there is none.
    pub fn owner(&self, line: u64) -> u64 {
        let at = (line as usize).wrapping_sub(1);
        match self.owners.get(at) {
            Some(owner) => *owner,
            None => 0,
        }
    }

    pub fn lives(&self) -> &[Life] {
        self.lives.as_slice()
    }

    /// The line at which the client of a line crashes, and 0 where it does not.
    pub fn crash_of(&self, line: u64) -> u64 {
        let at = (self.owner(line) as usize).wrapping_sub(1);
        match self.lives.get(at) {
            Some(life) => life.crash,
            None => 0,
        }
    }
}
