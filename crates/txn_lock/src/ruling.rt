//! What the answer to a Cleanup tells of a lock.
ghost use Rattle.std.specs.Prelude.{◌≡◌, map, Err};
ghost use Rattle.txn_kv.specs.ErrorView.{listed, view_of};
ghost use Rattle.txn_lock.specs.Deciding.{is_key_mismatch, is_mismatch, is_one_mismatch, tells_mismatch, IsRuled};

use crate::verdict::Verdict;
use txn_kv::{Error, KeyError, NoMemory, Result, TryClone};
use txn_merge::Process;

/// Reads a commit version. Of a pessimistic lock it reads `PrimaryMismatch` too, which is an error of every other.
#[derive(Clone, Copy)]
pub struct Ruling {
    pub pessimistic: bool,
}

impl TryClone for Ruling {
    fn try_clone(&self) -> std::result::Result<Ruling, NoMemory> {
        Ok(*self)
    }
}

impl Process<u64> for Ruling {
    type Out = Verdict;

    ghost processes = { λ ruling input result. IsRuled ruling.pessimistic input result };

    fn process(&self, input: Result<u64>) -> Result<Verdict>
        ensures { IsRuled self.now.pessimistic input result }
    {
        match input {
            Ok(commit_version) => Ok(Verdict::Version { commit_version }),
            Err(error) => rule(self.pessimistic, error),
        }
    }
}

fn rule(pessimistic: bool, error: Error) -> Result<Verdict>
    ensures { IsRuled pessimistic (Err error) result }
{
    if pessimistic && is_mismatch(&error) {
        drop(error);
        Ok(Verdict::Mismatch)
    } else {
        Err(error)
    }
}

/// Whether it is one error at a key, which says that the primary is another.
fn is_mismatch(error: &Error) -> bool
    ensures { result ≡ is_mismatch (view_of error.now) }
{
    match error {
        Error::MultipleKeyErrors(found) => is_one_mismatch(found),
        _ => false,
    }
}

fn is_one_mismatch(found: &[Error]) -> bool
    ensures { result ≡ is_one_mismatch (listed (map view_of found.now)) }
{
    if found.len() == 1 {
        is_key_mismatch(&found[0])
    } else {
        false
    }
}

fn is_key_mismatch(error: &Error) -> bool
    ensures { result ≡ is_key_mismatch (view_of error.now) }
{
    match error {
        Error::KeyError(held) => tells_mismatch(held),
        _ => false,
    }
}

fn tells_mismatch(error: &KeyError) -> bool
    ensures { result ≡ tells_mismatch error.now }
{
    matches!(error, KeyError::PrimaryMismatch(_))
}
