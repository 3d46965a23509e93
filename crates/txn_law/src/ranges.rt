ghost use Rattle.std.specs.Prelude.{◌≡◌, ℕ, List, Some};
ghost use Rattle.txn_history.specs.Event.{Event};
ghost use Rattle.txn_model.specs.declared.region.StoredRegion.{StoredRegion};
ghost use Rattle.txn_model.specs.Placement.{region_with_id};
ghost use Rattle.txn_law.specs.Part.{IsPart};
ghost use Rattle.txn_law.specs.Run.{store_after};

/// A region's id and the version of its epoch tell its range, whenever it had them. So a request that a region did not refuse
/// met the range that its client knew for the epoch.
pub fn epochs_tell_ranges()
    ensures { (events first second : List Event) → IsPart events first → IsPart events second →
        (n : ℕ) (g h : StoredRegion) → region_with_id (store_after first).regions n ≡ Some g → region_with_id (store_after second).regions n ≡ Some h →
        g.epoch.version ≡ h.epoch.version → (g.start_key ≡ h.start_key) × (g.end_key ≡ h.end_key) }
{}
