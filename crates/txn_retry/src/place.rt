ghost use Rattle.std.specs.Prelude.{◌≡◌, ◌+◌, ◌<◌, ◌-◌};
ghost use Rattle.txn_retry.specs.Place.{is_running, is_open, is_waiting};

/// Tasks that were made one after the other: so many, from the first on.
#[derive(Clone, Copy, Debug, PartialEq, Eq)]
pub struct Parts {
    pub first: usize,
    pub count: usize,
}

/// Where a task stands. One that ran and does not, while it sleeps or its request is cut into shards again, rests.
#[derive(Debug, Drop)]
pub enum Place<R> {
    Waiting,
    Running,
    Resting,
    /// These stand in its place.
    Cut(Parts),
    Ended(R),
}
