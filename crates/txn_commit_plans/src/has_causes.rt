use txn_commit::Plans;

/// Plans of which each error has its cause in what was heard: in replies that were taken, and requests that were lost.
pub trait Caused: Plans {
    ghost use Rattle.txn_commit_plans.specs.Failing.{AreCaused};

    ghost caused: { AreCaused Self.Plans.ways };
}
