ghost use Rattle.std.specs.Prelude.{ℕ, Bool, List};
ghost use Rattle.txn_commit.specs.Sending.{MaySend};
ghost use Rattle.txn_history.specs.Event.{Event};
ghost use Rattle.txn_history.specs.Plan.{Plan};
ghost use Rattle.txn_history.specs.Posted.{AreNumbered, Errand, Licensed, after};
ghost use Rattle.txn_law.specs.Run.{IsCovered, IsRun};
ghost use Rattle.txn_trace.specs.Posting.{IsFreshFor};

/// A run is still one after a line posted what the transaction with a start may send, under numbers that are free for it.
pub fn transactions_keep_runs()
    ensures { (plans : ℕ → Plan) (s line : ℕ) (beat : Bool) (h : List Event) (sends : List Errand) (next next_ask next' next_ask' : ℕ) →
        IsRun plans h → Licensed (λ k r. MaySend (plans s) s k r × IsCovered r) line beat h sends →
        AreNumbered next next_ask sends next' next_ask' → IsFreshFor line beat next next_ask h → IsRun plans (after line beat h sends) }
{}
