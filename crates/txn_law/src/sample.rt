ghost use Rattle.std.specs.Prelude.{[], ◌∷◌};
ghost use Rattle.txn_history.specs.Licence.{WasOnePhase};
ghost use Rattle.txn_model.specs.Cells.{cell_at};
ghost use Rattle.txn_law.specs.OnePhaseSample.{one_phase_plans, one_phase_sample};
ghost use Rattle.txn_law.specs.Run.{IsRun, store_after};
ghost use Rattle.txn_law.specs.Sample.{first_key, second_key, put_of, sample_plans, sample};
ghost use Rattle.txn_law.specs.SpreadSample.{spread_plans, spread_sample};
ghost use Rattle.txn_law.specs.Whole.{HasCommit};

/// A run that meets what the other laws ask of one, so that they are not empty: a transaction commits two keys, its second
/// Commit comes late, and a reader resolves the lock that it found.
pub fn sample_run()
    ensures runs { IsRun sample_plans sample }
    ensures first { HasCommit (cell_at (store_after sample).cells first_key) 1 2 (put_of (7 ∷ [])) }
    ensures second { HasCommit (cell_at (store_after sample).cells second_key) 1 2 (put_of (8 ∷ [])) }
{}

/// One of a spread transaction: both replies to its Prewrites are lost, and a reader of one of its keys comes to the decision
/// by the bounds that it is shown.
pub fn spread_sample_run()
    ensures runs { IsRun spread_plans spread_sample }
    ensures first { HasCommit (cell_at (store_after spread_sample).cells first_key) 1 2 (put_of (7 ∷ [])) }
    ensures second { HasCommit (cell_at (store_after spread_sample).cells second_key) 1 2 (put_of (8 ∷ [])) }
{}

/// And one of a transaction in one phase: its Prewrite commits both keys at once.
pub fn one_phase_sample_run()
    ensures runs { IsRun one_phase_plans one_phase_sample }
    ensures answered { WasOnePhase one_phase_sample 1 2 }
    ensures first { HasCommit (cell_at (store_after one_phase_sample).cells first_key) 1 2 (put_of (7 ∷ [])) }
    ensures second { HasCommit (cell_at (store_after one_phase_sample).cells second_key) 1 2 (put_of (8 ∷ [])) }
{}
