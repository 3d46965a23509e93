//! Errors that say why there is no timestamp.
ghost use Rattle.std.specs.Bool.{MatchBool};
ghost use Rattle.std.specs.Prelude.{◌≡◌, None, OnErr, OnOk, Some};
ghost use Rattle.txn_clients.specs.Failing.{IfFails, IsToldLast};
ghost use Rattle.txn_kv.specs.ErrorView.{view_of};
ghost use Rattle.txn_side.specs.Trace.{untimed, untimed_alone, untimed_by, untimed_of};

use txn_kv::{Error, Internal, NoMemory};

fn untimed(what: &Internal) -> Option<Internal>
    ensures { result ≡ untimed what.now }
{
    match what {
        Internal::OracleLost => Some(Internal::OracleLost),
        Internal::OracleCount { asked, given } => Some(Internal::OracleCount {
            asked: *asked,
            given: *given,
        }),
        Internal::OracleEmpty => Some(Internal::OracleEmpty),
        _ => None,
    }
}

/// Why there is no timestamp, where the error says so.
pub fn untimed_by(error: &Error) -> Option<Internal>
    ensures { result ≡ untimed_by error.now }
{
    match error {
        Error::InternalError { what } => untimed(what),
        _ => None,
    }
}

fn untimed_alone(error: &Error) -> Option<Internal>
    ensures { result ≡ untimed_alone (view_of error.now) }
{
    match error {
        Error::InternalError { what } => untimed(what),
        _ => None,
    }
}

/// The same, where it may hold the error as the end of a call that is not known.
fn untimed_of(error: &Error) -> Option<Internal>
    ensures { result ≡ untimed_of error.now }
{
    match error {
        Error::InternalError { what } => untimed(what),
        Error::UndeterminedError(inner) => untimed_alone(inner),
        _ => None,
    }
}

fn is_same(a: &Internal, b: &Internal) -> bool
    ensures { MatchBool result (a.now ≡ b.now) (a.now ≡ b.now → untimed b.now ≡ None) }
{
    match (a, b) {
        (Internal::OracleLost, Internal::OracleLost) => true,
        (
            Internal::OracleCount { asked, given },
            Internal::OracleCount {
                asked: told,
                given: granted,
            },
        ) => *asked == *told && *given == *granted,
        (Internal::OracleEmpty, Internal::OracleEmpty) => true,
        _ => false,
    }
}

fn is_told(what: &Internal, told: &Option<Internal>) -> bool
    ensures { MatchBool result (told.now ≡ Some what.now) (told.now ≡ Some what.now → untimed what.now ≡ None) }
{
    match told {
        Some(now) => is_same(now, what),
        None => false,
    }
}

/// An answer that says why there is no timestamp says what is told now: the last ask that is refused ends its call.
pub fn is_told_last<X>(answer: &txn_kv::Result<X>, told: &Option<Internal>) -> Result<(), NoMemory>
    ensures ok { OnOk result (IfFails (IsToldLast told.now) answer.now) }
    ensures err { OnErr result (IfFails (IsToldLast told.now) answer.now → ⊥) }
{
    match answer {
        Ok(_) => Ok(()),
        Err(error) => match untimed_of(error) {
            None => Ok(()),
            Some(what) => {
                if is_told(&what, told) {
                    Ok(())
                } else {
                    Err(NoMemory)
                }
            }
        },
    }
}
