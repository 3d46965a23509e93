ghost use Rattle.std.specs.List.{All};
ghost use Rattle.std.specs.Prelude.{◌≡◌, IfOk, IsTrue, true};
ghost use Rattle.txn_alike.specs.Alike.{AreAlike};
ghost use Rattle.txn_report.specs.Text.{text_of_report};
ghost use Rattle.txn_report.specs.declared.report.SleepNote.{SleepNote as Slept};

use crate::alike::all_alike;
use std::alloc::Global;
use txn_kv::NoMemory;
use txn_report::{Report, SleepNote, report_text};

/// Whether no call sleeps: each sleep is of a heartbeat.
pub fn are_beats(sleeps: &[SleepNote]) -> bool
    ensures { IsTrue result → All (λ (s : Slept). s.ticket.beat ≡ true) sleeps.now }
{
    for sleep in sleeps {
        if !sleep.ticket.beat {
            return false;
        }
    }
    true
}

/// Whether two reports have the same text.
fn have_same_text(alloc: Global, one: &Report, another: &Report) -> Result<bool, NoMemory>
    ensures { IfOk result (λ yes. IsTrue yes → text_of_report one.now ≡ text_of_report another.now) }
{
    let text = report_text(alloc, one)?;
    let other = report_text(alloc, another)?;
    Ok(all_alike(text.as_slice(), other.as_slice()))
}

/// Whether two reports tell the same: of outcomes, of what was sent, of what was served, and of the store what is printed. It may be
/// denied of reports with errors other than that of a call after a commit, or with requests that no script of the first path sends.
pub fn are_alike(alloc: Global, one: &Report, another: &Report) -> Result<bool, NoMemory>
    ensures { IfOk result (λ yes. IsTrue yes → AreAlike one.now another.now) }
{
    Ok(
        all_alike(one.outcomes.as_slice(), another.outcomes.as_slice())
            && all_alike(one.ended.as_slice(), another.ended.as_slice())
            && all_alike(one.sent.as_slice(), another.sent.as_slice())
            && all_alike(one.served.as_slice(), another.served.as_slice())
            && have_same_text(alloc, one, another)?,
    )
}
