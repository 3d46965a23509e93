//! A decision that is known.
ghost use Rattle.std.specs.Prelude.{◌≡◌, false};
ghost use Rattle.txn_lock.specs.Deciding.{kept_plan, kept_plan-lawful};

use crate::verdict::Verdict;
use txn_kv::{Arrival, NoMemory, Outbox, Progress};
use txn_plan::Plan;
use txn_region::PdClient;

/// A commit version that is known: it is the answer at once, and nothing is asked.
pub struct Kept {
    commit_version: u64,
    begun: bool,
}

impl Drop for Kept {
    fn drop(self) {
        let Kept {
            commit_version: _,
            begun: _,
        } = self;
    }
}

impl Kept {
    pub fn new(commit_version: u64) -> Kept
        ensures { result ≡ record { commit_version = commit_version; begun = false } }
    {
        Kept {
            commit_version,
            begun: false,
        }
    }
}

impl Plan for Kept {
    type Result = Verdict;

    ghost meaning = { kept_plan };

    ghost touches = { λ touch told from old new pd pd'. pd' ≡ pd };

    fn try_clone(&self) -> Result<Self, NoMemory> {
        Ok(Kept {
            commit_version: self.commit_version,
            begun: self.begun,
        })
    }

    fn start<C: PdClient>(
        &mut self,
        _pd: &mut C,
        _now: u64,
        _out: &mut Outbox,
    ) -> Result<Progress<Verdict>, NoMemory> {
        if self.begun {
            Ok(Progress::Waiting)
        } else {
            self.begun = true;
            Ok(Progress::Done(Ok(Verdict::Version {
                commit_version: self.commit_version,
            })))
        }
    }

    fn tell<C: PdClient>(
        &mut self,
        _pd: &mut C,
        _now: u64,
        arrival: Arrival,
        _out: &mut Outbox,
    ) -> Result<Progress<Verdict>, NoMemory> {
        drop(arrival);
        Ok(Progress::Waiting)
    }

    ghost lawful = { kept_plan-lawful };
}
