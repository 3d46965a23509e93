ghost use Rattle.std.specs.Prelude.{◌≡◌, ◌||◌};
ghost use Rattle.txn_merge.specs.Status.{is_certain, is_decided, is_past, kind_of, status_in};

use txn_kv::{
    Action, CheckTxnStatusResponse, Error, Internal, LockInfo, NoMemory, Result, Timestamp,
    TimestampExt, TryClone,
};

/// What became of a transaction, as the store of its primary key told it.
#[derive(Debug, Drop)]
pub struct TransactionStatus {
    pub kind: TransactionStatusKind,
    pub action: Action,
    /// Says something only where the kind is `Locked`.
    pub is_expired: bool,
}

#[derive(Debug, Drop)]
pub enum TransactionStatusKind {
    Committed(Timestamp),
    RolledBack,
    /// The lock of the primary key, and how many milliseconds it lives after the start.
    Locked(u64, LockInfo),
}

impl TransactionStatus {
    /// The status that a reply tells. One of none of the three forms is refused with `OddStatus`.
    pub fn from_response(response: CheckTxnStatusResponse) -> Result<TransactionStatus>
        ensures { result ≡ status_in response }
    {
        let commit_version = response.commit_version;
        let lock_ttl = response.lock_ttl;
        let action = response.action;
        let lock_info = response.into_lock_info();
        let kind = TransactionStatusKind::from_parts(commit_version, lock_ttl, lock_info)?;
        Ok(TransactionStatus {
            kind,
            action,
            is_expired: false,
        })
    }

    /// Notes that the lock's time to live is past, if it is. A status that was expired stays so.
    pub fn check_ttl(&mut self, current: Timestamp)
        ensures { self.new ≡ record self.old { is_expired = self.old.is_expired || is_past current self.old.kind } }
    {
        if self.kind.is_past(current) {
            self.is_expired = true;
        }
    }

    /// Whether the status stays what it is, so that it may be kept.
    pub fn is_cacheable(&self) -> bool
        ensures { result ≡ is_certain self.now.kind self.now.action self.now.is_expired }
    {
        match &self.kind {
            TransactionStatusKind::RolledBack => true,
            TransactionStatusKind::Committed(_) => true,
            TransactionStatusKind::Locked(_, _) => self.is_expired && is_decided(self.action),
        }
    }
}

/// Whether a store that did this leaves no lock of the transaction that could change the answer.
fn is_decided(action: Action) -> bool
    ensures { result ≡ is_decided action }
{
    match action {
        Action::NoAction | Action::LockNotExistRollback | Action::TtlExpireRollback => true,
        Action::MinCommitTsPushed
        | Action::TtlExpirePessimisticRollback
        | Action::LockNotExistDoNothing => false,
    }
}

impl TransactionStatusKind {
    /// The kind that a commit version, a time to live and a lock say. Each is 0 or None where there is none.
    pub fn from_parts(
        commit_version: u64,
        lock_ttl: u64,
        lock_info: Option<LockInfo>,
    ) -> Result<TransactionStatusKind>
        ensures { result ≡ kind_of commit_version lock_ttl lock_info }
    {
        match lock_info {
            Some(lock) if commit_version == 0 => Ok(TransactionStatusKind::Locked(lock_ttl, lock)),
            None if lock_ttl == 0 && commit_version == 0 => Ok(TransactionStatusKind::RolledBack),
            None if lock_ttl == 0 => Ok(TransactionStatusKind::Committed(Timestamp::from_version(
                commit_version,
            ))),
            _ => Err(Error::InternalError {
                what: Internal::OddStatus,
            }),
        }
    }

    fn is_past(&self, current: Timestamp) -> bool
        ensures { result ≡ is_past current self.now }
    {
        match self {
            TransactionStatusKind::Locked(ttl, lock) => {
                let start = Timestamp::from_version(lock.lock_version).physical;
                current.physical >= start && (current.physical - start) as u64 >= *ttl
            }
            TransactionStatusKind::Committed(_) => false,
            TransactionStatusKind::RolledBack => false,
        }
    }
}

impl TryClone for TransactionStatus {
    fn try_clone(&self) -> std::result::Result<TransactionStatus, NoMemory> {
        Ok(TransactionStatus {
            kind: self.kind.try_clone()?,
            action: self.action,
            is_expired: self.is_expired,
        })
    }
}

impl TryClone for TransactionStatusKind {
    fn try_clone(&self) -> std::result::Result<TransactionStatusKind, NoMemory> {
        match self {
            TransactionStatusKind::Committed(timestamp) => {
                Ok(TransactionStatusKind::Committed(*timestamp))
            }
            TransactionStatusKind::RolledBack => Ok(TransactionStatusKind::RolledBack),
            TransactionStatusKind::Locked(ttl, lock) => {
                Ok(TransactionStatusKind::Locked(*ttl, lock.try_clone()?))
            }
        }
    }
}
