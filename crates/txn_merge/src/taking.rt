//! Takes locks and errors out of the parts of replies.

ghost use Rattle.std.specs.Prelude.{◌≡◌, ◌∷◌, [], false, IfOk, OnOk, MatchResult, None, Some, map};
ghost use Rattle.txn_kv.specs.ErrorView.{key, view_of};
ghost use Rattle.txn_kv.specs.declared.errors.Error.TheVariants.{Unimplemented};
ghost use Rattle.txn_merge.specs.Found.{AreSeen};
ghost use Rattle.txn_merge.specs.KeyErrors.{views_of_error, views_of_pairs, views_of_text, without_pair_error};
ghost use Rattle.txn_merge.specs.Locks.{error_beside, listed, lock_in, locks_of_error, locks_of_errors, locks_of_pairs, locks_of_pairs_or, without_lock, without_locks, without_pair_lock};

use std::alloc::Global;
use std::mem;
use txn_kv::{Error, Items, KeyError, LockInfo, NoMemory, PbPair, Text};

/// The lock that an error is for, or the error.
fn into_lock(error: KeyError) -> Result<LockInfo, KeyError>
    ensures { MatchResult result (λ lock. lock_in error ≡ Some lock) (λ other. (other ≡ error) × (lock_in error ≡ None)) }
{
    error.into_locked()
}

/// Takes an error out where it is that of a lock.
fn take_lock(error: &mut Option<KeyError>) -> Option<LockInfo>
    ensures lock { listed result ≡ locks_of_error error.old }
    ensures left { error.new ≡ without_lock error.old }
{
    match error.take() {
        None => None,
        Some(held) => match into_lock(held) {
            Ok(lock) => Some(lock),
            Err(other) => {
                *error = Some(other);
                None
            }
        },
    }
}

/// The lock of an error, if it is that of one.
pub fn take_error_lock(
    alloc: Global,
    error: &mut Option<KeyError>,
) -> Result<Vec<LockInfo>, NoMemory>
    ensures taken { IfOk result (λ found. found.items ≡ locks_of_error error.old) }
    ensures left { OnOk result (error.new ≡ without_lock error.old) }
{
    let mut locks = Vec::new(alloc);
    if let Some(lock) = take_lock(error) {
        locks.push(lock)?;
    }
    Ok(locks)
}

/// The locks of errors. The other errors stay, in their order.
pub fn take_error_locks(
    alloc: Global,
    errors: &mut Items<KeyError>,
) -> Result<Vec<LockInfo>, NoMemory>
    ensures taken { IfOk result (λ found. found.items ≡ locks_of_errors errors.old) }
    ensures left { OnOk result (errors.new ≡ without_locks errors.old) }
{
    let mut locks = Vec::new(alloc);
    let mut others = Vec::new(alloc);
    for error in mem::replace(errors, Items::new(alloc)).into_vec() {
        match into_lock(error) {
            Ok(lock) => locks.push(lock)?,
            Err(other) => others.push(other)?,
        }
    }
    *errors = Items::from_vec(others);
    Ok(locks)
}

fn is_locked(error: &Option<KeyError>) -> bool
    ensures { result ≡ false → locks_of_error error.now ≡ [] }
{
    match error {
        None => false,
        Some(held) => matches!(held, KeyError::Locked(_)),
    }
}

/// Whether a lock stands in the way of some pair.
fn has_lock(pairs: &[PbPair]) -> bool
    ensures { result ≡ false → locks_of_pairs pairs.now ≡ [] }
{
    for pair in pairs {
        if is_locked(&pair.error) {
            return true;
        }
    }
    false
}

/// The locks of pairs. The pairs stay.
pub fn take_pair_locks(alloc: Global, pairs: &mut Items<PbPair>) -> Result<Vec<LockInfo>, NoMemory>
    ensures taken { IfOk result (λ found. found.items ≡ locks_of_pairs pairs.old) }
    ensures left { OnOk result (pairs.new ≡ map without_pair_lock pairs.old) }
{
    if !has_lock(pairs.as_slice()) {
        return Ok(Vec::new(alloc));
    }
    part_locks(alloc, pairs)
}

fn part_locks(alloc: Global, pairs: &mut Items<PbPair>) -> Result<Vec<LockInfo>, NoMemory>
    ensures taken { IfOk result (λ found. found.items ≡ locks_of_pairs pairs.old) }
    ensures left { OnOk result (pairs.new ≡ map without_pair_lock pairs.old) }
{
    let mut locks = Vec::new(alloc);
    let mut others = Vec::new(alloc);
    for mut pair in mem::replace(pairs, Items::new(alloc)).into_vec() {
        if let Some(lock) = take_lock(&mut pair.error) {
            locks.push(lock)?;
        }
        others.push(pair)?;
    }
    *pairs = Items::from_vec(others);
    Ok(locks)
}

/// The locks of pairs, or of the error beside them where there is no pair.
pub fn take_pair_locks_or(
    alloc: Global,
    pairs: &mut Items<PbPair>,
    error: &mut Option<KeyError>,
) -> Result<Vec<LockInfo>, NoMemory>
    ensures taken { IfOk result (λ found. found.items ≡ locks_of_pairs_or pairs.old error.old) }
    ensures pairs { OnOk result (pairs.new ≡ map without_pair_lock pairs.old) }
    ensures error { OnOk result (error.new ≡ error_beside pairs.old error.old) }
{
    if pairs.as_slice().is_empty() {
        take_error_lock(alloc, error)
    } else {
        take_pair_locks(alloc, pairs)
    }
}

/// One error of the client's, for an error at a key.
fn one_error(alloc: Global, error: KeyError) -> Result<Option<Vec<Error>>, NoMemory>
    ensures { IfOk result (AreSeen (key error ∷ [])) }
{
    let mut errors = Vec::new(alloc);
    errors.push(Error::key(alloc, error)?)?;
    Ok(Some(errors))
}

/// The error, if there is one.
pub fn take_error(
    alloc: Global,
    error: &mut Option<KeyError>,
) -> Result<Option<Vec<Error>>, NoMemory>
    ensures found { IfOk result (AreSeen (views_of_error error.old)) }
    ensures left { error.new ≡ None }
{
    match error.take() {
        None => Ok(None),
        Some(held) => one_error(alloc, held),
    }
}

/// The errors that are there, in a vector that is not empty.
fn unless_empty(errors: Vec<Error>) -> Option<Vec<Error>>
    ensures { AreSeen (map view_of errors.items) result }
{
    if errors.is_empty() {
        None
    } else {
        Some(errors)
    }
}

/// The errors of a list.
pub fn take_errors(
    alloc: Global,
    errors: &mut Items<KeyError>,
) -> Result<Option<Vec<Error>>, NoMemory>
    ensures found { IfOk result (AreSeen (map key errors.old)) }
    ensures left { errors.new ≡ [] }
{
    let mut found = Vec::new(alloc);
    for error in mem::replace(errors, Items::new(alloc)).into_vec() {
        found.push(Error::key(alloc, error)?)?;
    }
    Ok(unless_empty(found))
}

/// The errors of pairs. The pairs stay.
pub fn take_pair_errors(
    alloc: Global,
    pairs: &mut Items<PbPair>,
) -> Result<Option<Vec<Error>>, NoMemory>
    ensures found { IfOk result (AreSeen (views_of_pairs pairs.old)) }
    ensures left { OnOk result (pairs.new ≡ map without_pair_error pairs.old) }
{
    if !has_error(pairs.as_slice()) {
        return Ok(None);
    }
    part_errors(alloc, pairs)
}

/// Whether some pair has an error.
fn has_error(pairs: &[PbPair]) -> bool
    ensures { result ≡ false → views_of_pairs pairs.now ≡ [] }
{
    for pair in pairs {
        if pair.error.is_some() {
            return true;
        }
    }
    false
}

fn part_errors(alloc: Global, pairs: &mut Items<PbPair>) -> Result<Option<Vec<Error>>, NoMemory>
    ensures found { IfOk result (AreSeen (views_of_pairs pairs.old)) }
    ensures left { OnOk result (pairs.new ≡ map without_pair_error pairs.old) }
{
    let mut found = Vec::new(alloc);
    let mut others = Vec::new(alloc);
    for mut pair in mem::replace(pairs, Items::new(alloc)).into_vec() {
        if let Some(error) = pair.error.take() {
            found.push(Error::key(alloc, error)?)?;
        }
        others.push(pair)?;
    }
    *pairs = Items::from_vec(others);
    Ok(unless_empty(found))
}

/// The text of an error, if it is not empty.
pub fn take_text(alloc: Global, text: &mut Text) -> Result<Option<Vec<Error>>, NoMemory>
    ensures found { IfOk result (AreSeen (views_of_text text.old)) }
    ensures left { OnOk result (text.new ≡ []) }
{
    if text.as_str().is_empty() {
        return Ok(None);
    }
    let mut errors = Vec::new(alloc);
    let message = mem::replace(text, Text::from_string(String::new(alloc))).into_string();
    errors.push(Error::KvError { message })?;
    Ok(Some(errors))
}

/// An error itself. `Unimplemented` stays in its place.
pub fn take_whole(alloc: Global, error: &mut Error) -> Result<Option<Vec<Error>>, NoMemory>
    ensures found { IfOk result (AreSeen (view_of error.old ∷ [])) }
    ensures left { error.new ≡ Unimplemented }
{
    let mut errors = Vec::new(alloc);
    errors.push(mem::replace(error, Error::Unimplemented))?;
    Ok(Some(errors))
}
