//! What causes come to, as contracts of functions that do nothing.
ghost use Rattle.std.specs.Prelude.{⊤, ℕ, List};
ghost use Rattle.txn_causes.specs.Causes.{HasCause, IsStarved};
ghost use Rattle.txn_causes.specs.Heard.{heard_in};
ghost use Rattle.txn_causes.specs.Spent.{IsSpent};
ghost use Rattle.txn_history.specs.Event.{Event};
ghost use Rattle.txn_history.specs.Posted.{Within};
ghost use Rattle.txn_kv.specs.ErrorView.{ErrorView};

/// An error that has its cause in a history has it in each longer one, and a backoff that is spent stays so.
pub fn causes_stay()
    ensures { (h longer : List Event) (attempts : ℕ) (error : ErrorView) → Within h longer → HasCause (heard_in h) (IsSpent (heard_in h) attempts) error → HasCause (heard_in longer) (IsSpent (heard_in longer) attempts) error }
{}

/// Where nothing was heard, an error is want of memory, or lists of errors that are.
pub fn nothing_causes_nothing()
    ensures { (error : ErrorView) → HasCause (λ heard. ⊥) ⊤ error → IsStarved error }
{}
