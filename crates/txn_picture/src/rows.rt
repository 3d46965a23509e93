//! The rows of a picture, one for each line: from where to where each goes.
#![tactic(auto)]

use std::alloc::Global;
use txn_fates::is_skipped;
use txn_kv::NoMemory;
use txn_lines::Line;
use txn_report::Report;

/// Where the first row begins.
const FIRST_ROW: u64 = 56;

/// The upper end of each row, and the lower end of the last.
pub struct Rows {
    tops: Vec<u64>,
}

impl Drop for Rows {
    fn drop(self) {
        let Rows { tops } = self;
        drop(tops);
    }
}

/// How high the row of a line is: one with a request and its reply has two arrows.
fn height_of(line: &Line, is_skipped: bool) -> u64 {
    match line {
        Line::Blank => 18,
        _ if is_skipped => 26,
        Line::Serve { .. } | Line::Deliver { .. } | Line::Busy { .. } => 56,
        Line::Answer { .. } | Line::Lose { .. } => 38,
        _ => 26,
    }
}

fn add_all(tops: &mut Vec<u64>, lines: &[Line], report: &Report) -> Result<(), NoMemory> {
    let mut top = FIRST_ROW;
    let mut number: u64 = 0;
    tops.push(top)?;
    for line in lines {
        number = number.wrapping_add(1);
        top = top.wrapping_add(height_of(line, is_skipped(report, number)));
        tops.push(top)?;
    }
    Ok(())
}

impl Rows {
    pub fn of(alloc: Global, lines: &[Line], report: &Report) -> Result<Rows, NoMemory> {
        let mut tops = Vec::new(alloc);
        match add_all(&mut tops, lines, report) {
            Ok(()) => Ok(Rows { tops }),
            Err(error) => {
                drop(tops);
                Err(error)
            }
        }
    }

    /// The upper end of a line's row.
    pub fn top(&self, line: u64) -> u64 {
        let at = (line as usize).wrapping_sub(1);
        match self.tops.get(at) {
            Some(top) => *top,
            None => FIRST_ROW,
        }
    }

    /// The lower end of a line's row.
    pub fn bottom(&self, line: u64) -> u64 {
        self.top(line.wrapping_add(1))
    }

    /// The lower end of the last row.
    pub fn end(&self) -> u64 {
        self.top(self.tops.len() as u64)
    }

    /// Where what is sent in the step of a line begins.
    pub fn leaving(&self, line: u64) -> u64 {
        self.bottom(line).wrapping_sub(6)
    }

    /// Where what a line has delivered ends.
    pub fn reaching(&self, line: u64) -> u64 {
        self.top(line).wrapping_add(11)
    }

    /// Where the reply to what a line has delivered goes back.
    pub fn replying(&self, line: u64) -> u64 {
        self.top(line).wrapping_add(40)
    }
}
