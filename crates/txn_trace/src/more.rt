ghost use Rattle.std.specs.Prelude.{ℕ, List, ◌∷◌};
ghost use Rattle.txn_history.specs.Event.{Event};
ghost use Rattle.txn_history.specs.Plan.{Plan};
ghost use Rattle.txn_law.specs.Run.{IsPossible, IsRun};
ghost use Rattle.txn_trace.specs.Posting.{SendsNothing};

/// A run is still one after an event that may happen and sends nothing.
pub fn events_keep_runs()
    ensures { (plans : ℕ → Plan) (h : List Event) → IsRun plans h →
        (e : Event) → SendsNothing e → IsPossible h e → IsRun plans (e ∷ h) }
{}
