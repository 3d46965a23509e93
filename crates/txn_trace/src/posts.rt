ghost use Rattle.std.specs.Prelude.{◌≡◌, ◌≤◌, ℕ, Bool, List, [], ◌∷◌};
ghost use Rattle.txn_history.specs.Event.{Event};
ghost use Rattle.txn_history.specs.Licence.{IsLicensed};
ghost use Rattle.txn_history.specs.Plan.{Plan};
ghost use Rattle.txn_history.specs.Posted.{AreNumbered, Errand, Licensed, after};
ghost use Rattle.txn_law.specs.Run.{IsCovered, IsRun};
ghost use Rattle.txn_trace.specs.Posting.{IsFreshFor, PostsNothing};

/// A run is still one after a line, or its heartbeat, posted under numbers that are free for it.
pub fn posting_keeps_runs()
    // Each request is licensed, where what was before it is a run.
    ensures runs { (plans : ℕ → Plan) (line : ℕ) (beat : Bool) (h : List Event) (sends : List Errand) (next next_ask next' next_ask' : ℕ) →
        IsRun plans h → Licensed (λ k r. IsRun plans k → IsCovered r × IsLicensed plans k r) line beat h sends →
        AreNumbered next next_ask sends next' next_ask' → IsFreshFor line beat next next_ask h → IsRun plans (after line beat h sends) }
    // The numbers after those that were used are free then.
    ensures fresh { (line : ℕ) (beat : Bool) (h : List Event) (sends : List Errand) (next next_ask next' next_ask' : ℕ) →
        AreNumbered next next_ask sends next' next_ask' → IsFreshFor line beat next next_ask h →
        IsFreshFor line beat next' next_ask' (after line beat h sends) }
    // What is free for another line stays so,
    ensures others { (line other : ℕ) (beat other_beat : Bool) (h : List Event) (sends : List Errand) (next next_ask : ℕ) →
        ((line ≡ other) × (beat ≡ other_beat) → ⊥) → IsFreshFor other other_beat next next_ask h →
        IsFreshFor other other_beat next next_ask (after line beat h sends) }
    // and after an event that no line posts, for every line.
    ensures quiet { (line : ℕ) (beat : Bool) (h : List Event) (next next_ask : ℕ) (e : Event) → PostsNothing e →
        IsFreshFor line beat next next_ask h → IsFreshFor line beat next next_ask (e ∷ h) }
    // Greater numbers are free as well, and at first all are.
    ensures higher { (line : ℕ) (beat : Bool) (h : List Event) (next next_ask more more_ask : ℕ) → next ≤ more → next_ask ≤ more_ask →
        IsFreshFor line beat next next_ask h → IsFreshFor line beat more more_ask h }
    ensures begins { (line : ℕ) (beat : Bool) (next next_ask : ℕ) → IsFreshFor line beat next next_ask [] }
{}
