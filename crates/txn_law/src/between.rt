ghost use Rattle.std.specs.Prelude.{◌≡◌, ◌≢◌, ◌⊎◌, ◌<◌, ◌≤◌, ℕ, List, Some};
ghost use Rattle.txn_history.specs.Among.{IsAmong};
ghost use Rattle.txn_history.specs.Event.{Event};
ghost use Rattle.txn_history.specs.Plan.{Key, Content, Plan};
ghost use Rattle.txn_model.specs.declared.cell.Write.{Write};
ghost use Rattle.txn_model.specs.Cells.{cell_at};
ghost use Rattle.txn_law.specs.Run.{IsOptimistic, IsRun, store_after};
ghost use Rattle.txn_law.specs.Whole.{IsWholeAt};

/// Where an optimistic transaction is whole at c, no key that it writes has a commit of another between its start and c.
pub fn none_between()
    ensures { (plans : ℕ → Plan) (events : List Event) → IsRun plans events →
        (s c : ℕ) → IsOptimistic events s → IsWholeAt (plans s) (store_after events).cells s c →
        (k : Key) (x : Content) → (plans s).writes k ≡ Some x →
        (w : Write) → IsAmong (cell_at (store_after events).cells k).commits w → w.start ≢ s → (w.commit ≤ s) ⊎ (c < w.commit) }
{}
