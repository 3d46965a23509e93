use txn_commit::Plans;

/// Plans that post no more than one request for each key of their request, whatever that is cut into, as long as no error and no
/// lock comes.
pub trait OneEach: Plans {
    ghost use Rattle.txn_commit.specs.Ways.{IsOneEach};

    ghost one_each: { IsOneEach Self.Plans.ways.costs };
}
