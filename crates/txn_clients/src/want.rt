//! Errors that hold want of memory.
ghost use Rattle.std.specs.Prelude.{◌≡◌, map};
ghost use Rattle.txn_clients.specs.Want.{some_want_memory, wants_memory};
ghost use Rattle.txn_kv.specs.ErrorView.{listed, view_of};

use txn_kv::Error;

/// Whether an error is want of memory, or holds it.
#[cycle(wants_memory)]
pub fn wants_memory(error: &Error) -> bool
    ensures { result ≡ wants_memory (view_of error.now) }
{
    match error {
        Error::OutOfMemory => true,
        Error::UndeterminedError(inner) => wants_memory(inner),
        Error::PessimisticLockError { inner, .. } => wants_memory(inner),
        Error::ExtractedErrors(errors) => some_want_memory(errors),
        Error::MultipleKeyErrors(errors) => some_want_memory(errors),
        _ => false,
    }
}

#[cycle(wants_memory)]
fn some_want_memory(errors: &[Error]) -> bool
    ensures { result ≡ some_want_memory (listed (map view_of errors.now)) }
{
    for error in errors {
        if wants_memory(error) {
            return true;
        }
    }
    false
}
