ghost use Rattle.std.specs.Bool.{MatchBool};
ghost use Rattle.std.specs.Option.{option_copied};
ghost use Rattle.std.specs.Prelude.{◌≡◌, ◌≢◌, ◌++◌, ◌∷◌, [], ℕ, List, None, OnErr, OnOk, Some};
ghost use Rattle.txn_history.specs.Among.{IsAmong};
ghost use Rattle.txn_settle.specs.Known.{cleaned_of, known_of};

use crate::by_primary::ByPrimary;
use crate::cleaned_regions::CleanedRegions;
use std::alloc::Global;
use txn_kv::{Key, NoMemory, RegionVerId};
use txn_merge::TransactionStatus;

/// What became of transactions whose locks are cleaned up, and the regions that are cleaned of them.
pub struct ResolveLocksContext {
    resolved: ByPrimary<TransactionStatus>,
    clean_regions: CleanedRegions,
}

impl Drop for ResolveLocksContext {
    fn drop(self) {
        let ResolveLocksContext {
            resolved,
            clean_regions,
        } = self;
        drop(resolved);
        drop(clean_regions);
    }
}

impl ResolveLocksContext {
    /// Nothing is known. Takes no memory.
    pub fn new(alloc: Global) -> ResolveLocksContext
        ensures unknown { (start : ℕ) (primary : List ℕ) → known_of result.resolved.starts start primary ≡ None }
        ensures uncleaned { (start : ℕ) → cleaned_of result.clean_regions.starts start ≡ [] }
    {
        ResolveLocksContext {
            resolved: ByPrimary::new(alloc),
            clean_regions: CleanedRegions::new(alloc),
        }
    }

    /// The status of the transaction of this start and primary key.
    pub fn get_resolved(&self, txn_id: u64, primary: &Key) -> Option<&TransactionStatus>
        ensures { option_copied result ≡ known_of self.now.resolved.starts txn_id primary.now }
    {
        self.resolved.get(txn_id, primary)
    }

    /// Keeps a status. A refusal changes nothing.
    pub fn save_resolved(
        &mut self,
        txn_id: u64,
        primary: Key,
        txn_status: TransactionStatus,
    ) -> Result<(), NoMemory>
        ensures saved { OnOk result (known_of self.new.resolved.starts txn_id primary ≡ Some txn_status) }
        ensures primaries { OnOk result ((p : List ℕ) → p ≢ primary → known_of self.new.resolved.starts txn_id p ≡ known_of self.old.resolved.starts txn_id p) }
        ensures starts { OnOk result ((s : ℕ) (p : List ℕ) → s ≢ txn_id → known_of self.new.resolved.starts s p ≡ known_of self.old.resolved.starts s p) }
        ensures err { OnErr result ((s : ℕ) (p : List ℕ) → known_of self.new.resolved.starts s p ≡ known_of self.old.resolved.starts s p) }
        ensures regions { self.new.clean_regions ≡ self.old.clean_regions }
    {
        self.resolved.insert(txn_id, primary, txn_status)
    }

    /// Whether no lock of the start is left in the region.
    pub fn is_region_cleaned(&self, txn_id: u64, region: &RegionVerId) -> bool
        ensures { MatchBool result (IsAmong (cleaned_of self.now.clean_regions.starts txn_id) region.now) (IsAmong (cleaned_of self.now.clean_regions.starts txn_id) region.now → ⊥) }
    {
        self.clean_regions.contains(txn_id, region)
    }

    /// Notes that no lock of the start is left in the region. A refusal changes nothing.
    pub fn save_cleaned_region(&mut self, txn_id: u64, region: RegionVerId) -> Result<(), NoMemory>
        ensures saved { OnOk result (cleaned_of self.new.clean_regions.starts txn_id ≡ cleaned_of self.old.clean_regions.starts txn_id ++ region ∷ []) }
        ensures others { OnOk result ((s : ℕ) → s ≢ txn_id → cleaned_of self.new.clean_regions.starts s ≡ cleaned_of self.old.clean_regions.starts s) }
        ensures err { OnErr result ((s : ℕ) → cleaned_of self.new.clean_regions.starts s ≡ cleaned_of self.old.clean_regions.starts s) }
        ensures statuses { self.new.resolved ≡ self.old.resolved }
    {
        self.clean_regions.insert(txn_id, region)
    }
}
