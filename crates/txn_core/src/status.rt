ghost use Rattle.std.specs.Prelude.{◌≡◌, IfSome, IsNone, ◌≤◌, ◌↔◌};
ghost use Rattle.txn_core.specs.Status.{allows_commit, allows_data, allows_rollback, closing, is_end, may_move, number_of, opening};

use crate::close_answer::CloseAnswer;
use crate::options::CheckLevel;

/// How far a transaction has come.
#[derive(Clone, Copy, Debug, PartialEq, Eq)]
pub enum Status {
    /// It reads and writes, and is neither committed nor rolled back.
    ReadOnly,
    Active,
    Committed,
    /// A commit was begun. It may be begun again, or be followed by a rollback.
    StartedCommit,
    Rolledback,
    /// A rollback was begun. It may be begun again.
    StartedRollback,
    /// It was let go.
    Dropped,
}

impl Status {
    /// Where a transaction begins.
    pub fn opening(read_only: bool) -> Status
        ensures { result ≡ opening read_only }
    {
        if read_only {
            Status::ReadOnly
        } else {
            Status::Active
        }
    }

    /// The number that stands for it in a word that threads share.
    pub fn number(self) -> u8
        ensures { result ≡ number_of self }
    {
        self as u8
    }

    /// The status of a number, if it is one's.
    pub fn from_number(number: u8) -> Option<Status>
        ensures some { IfSome result (λ status. number_of status ≡ number) }
        ensures none { IsNone result ↔ (7 ≤ number) }
    {
        match number {
            0 => Some(Status::ReadOnly),
            1 => Some(Status::Active),
            2 => Some(Status::Committed),
            3 => Some(Status::StartedCommit),
            4 => Some(Status::Rolledback),
            5 => Some(Status::StartedRollback),
            6 => Some(Status::Dropped),
            _ => None,
        }
    }

    /// Whether it may become this one next.
    pub fn may_move_to(self, next: Status) -> bool
        ensures { result ≡ may_move self next }
    {
        match next {
            Status::Dropped => true,
            Status::ReadOnly => matches!(self, Status::ReadOnly),
            Status::Active => matches!(self, Status::Active),
            Status::StartedCommit => self.allows_commit(),
            Status::Committed => matches!(self, Status::StartedCommit | Status::Committed),
            Status::StartedRollback => self.allows_rollback(),
            Status::Rolledback => matches!(self, Status::StartedRollback | Status::Rolledback),
        }
    }

    /// Whether a read, a write or a lock may be made.
    pub fn allows_data(self) -> bool
        ensures { result ≡ allows_data self }
    {
        matches!(self, Status::ReadOnly | Status::Active)
    }

    pub fn allows_commit(self) -> bool
        ensures { result ≡ allows_commit self }
    {
        matches!(self, Status::Active | Status::StartedCommit)
    }

    pub fn allows_rollback(self) -> bool
        ensures { result ≡ allows_rollback self }
    {
        matches!(
            self,
            Status::Active | Status::StartedCommit | Status::StartedRollback
        )
    }

    /// Whether nothing comes after it but that the transaction is let go.
    pub fn is_end(self) -> bool
        ensures { result ≡ is_end self }
    {
        matches!(
            self,
            Status::Committed | Status::Rolledback | Status::Dropped
        )
    }

    /// What a user is told who lets a transaction go that has come so far.
    pub fn closing(self, level: CheckLevel) -> CloseAnswer
        ensures { result ≡ closing self level }
    {
        if !matches!(self, Status::Active) {
            return CloseAnswer::Clean;
        }
        match level {
            CheckLevel::Panic => CloseAnswer::WouldPanic,
            CheckLevel::Warn => CloseAnswer::Warned,
            CheckLevel::None => CloseAnswer::Clean,
        }
    }
}
