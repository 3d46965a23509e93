//! The regions in which no lock of a start is left.
ghost use Rattle.std.specs.Prelude.{◌≡◌, ◌≢◌, ◌++◌, ◌∷◌, [], ℕ, OnErr, OnOk};
ghost use Rattle.std.specs.Bool.{MatchBool};
ghost use Rattle.txn_history.specs.Among.{IsAmong};
ghost use Rattle.txn_settle.specs.Known.{cleaned_of};

use std::alloc::Global;
use std::collections::BTreeMap;
use txn_kv::{NoMemory, RegionVerId};

/// The regions of each start that were cleaned, at the epochs at which they were.
pub struct CleanedRegions {
    starts: BTreeMap<u64, Vec<RegionVerId>>,
    alloc: Global,
}

impl Drop for CleanedRegions {
    fn drop(self) {
        let CleanedRegions { starts, alloc: _ } = self;
        drop(starts);
    }
}

impl CleanedRegions {
    /// No region is cleaned. Takes no memory.
    pub fn new(alloc: Global) -> CleanedRegions
        ensures { (start : ℕ) → cleaned_of result.starts start ≡ [] }
    {
        CleanedRegions {
            starts: BTreeMap::new(alloc),
            alloc,
        }
    }

    pub fn contains(&self, start: u64, region: &RegionVerId) -> bool
        ensures { MatchBool result (IsAmong (cleaned_of self.now.starts start) region.now) (IsAmong (cleaned_of self.now.starts start) region.now → ⊥) }
    {
        match self.starts.get(&start) {
            Some(regions) => stands_in(regions.as_slice(), region),
            None => false,
        }
    }

    /// Notes that the region is cleaned. A refusal changes nothing.
    pub fn insert(&mut self, start: u64, region: RegionVerId) -> Result<(), NoMemory>
        ensures noted { OnOk result (cleaned_of self.new.starts start ≡ cleaned_of self.old.starts start ++ region ∷ []) }
        ensures others { OnOk result ((s : ℕ) → s ≢ start → cleaned_of self.new.starts s ≡ cleaned_of self.old.starts s) }
        ensures err { OnErr result ((s : ℕ) → cleaned_of self.new.starts s ≡ cleaned_of self.old.starts s) }
    {
        match self.starts.get_mut(&start) {
            Some(regions) => regions.push(region)?,
            None => {
                let mut regions = Vec::new(self.alloc);
                regions.push(region)?;
                self.starts.insert(start, regions)?;
            }
        }
        Ok(())
    }
}

fn stands_in(regions: &[RegionVerId], region: &RegionVerId) -> bool
    ensures { MatchBool result (IsAmong regions.now region.now) (IsAmong regions.now region.now → ⊥) }
{
    regions.contains(region)
}
