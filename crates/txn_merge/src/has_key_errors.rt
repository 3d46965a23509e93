ghost use Rattle.std.specs.Prelude.{◌≡◌, List, [], ◌∷◌, IfOk, OnOk, None, map};
ghost use Rattle.std.proofs.Common.{ap, ◌∙◌};
ghost use Rattle.txn_kv.specs.ErrorView.{ErrorView, key, view_of};
ghost use Rattle.txn_merge.specs.Firsts.{LeftIn, first_seen, none_in, seen_in};
ghost use Rattle.txn_merge.specs.Found.{AreSeen};
ghost use Rattle.txn_merge.specs.KeyErrors.{no_error, no_errors, no_pair_errors, no_text, views_of_error, views_of_pairs, views_of_text, without_pair_error};

use crate::response_with_shard::ResponseWithShard;
use crate::taking::{take_error, take_errors, take_pair_errors, take_text, take_whole};
use std::alloc::Global;
use txn_kv::{
    BatchGetResponse, BatchRollbackResponse, CheckSecondaryLocksResponse, CheckTxnStatusResponse,
    CleanupResponse, CommitResponse, Error, GetResponse, NoMemory, PessimisticLockResponse,
    PessimisticRollbackResponse, PrewriteResponse, ResolveLockResponse, ScanLockResponse,
    ScanResponse, TxnHeartBeatResponse, UnsafeDestroyRangeResponse,
};

/// What a reply, or an answer, says of errors at keys.
pub trait HasKeyErrors: Sized {
    /// The errors as they are seen, in their order.
    ghost key_errors_in: { Self → List ErrorView };

    /// What is left of a value whose errors were taken out.
    ghost key_errors_left: { Self → Self → Type 0 };

    /// Takes the errors out. There are some where it answers Some. At want of memory some of them may be gone.
    fn key_errors(&mut self, alloc: Global) -> Result<Option<Vec<Error>>, NoMemory>
        ensures found { IfOk result (AreSeen (key_errors_in self.old)) }
        ensures left { OnOk result (key_errors_left self.old self.new) };

    /// Where there is no error, all is left.
    ghost no_key_errors: { (old new : Self) → key_errors_left old new → key_errors_in old ≡ [] → new ≡ old };
}

impl HasKeyErrors for GetResponse {
    ghost key_errors_in = { λ s. views_of_error s.error };

    ghost key_errors_left = { λ old new. new ≡ record old { error = None } };

    ghost no_key_errors = { λ old new left none. left ∙ ap (λ error. record old { error = error }) (no_error old.error none) };

    fn key_errors(&mut self, alloc: Global) -> Result<Option<Vec<Error>>, NoMemory> {
        take_error(alloc, &mut self.error)
    }
}

/// The errors of the pairs alone.
impl HasKeyErrors for BatchGetResponse {
    ghost key_errors_in = { λ s. views_of_pairs s.pairs };

    ghost key_errors_left = { λ old new. new ≡ record old { pairs = map without_pair_error old.pairs } };

    ghost no_key_errors = { λ old new left none. left ∙ ap (λ pairs. record old { pairs = pairs }) (no_pair_errors old.pairs none) };

    fn key_errors(&mut self, alloc: Global) -> Result<Option<Vec<Error>>, NoMemory> {
        take_pair_errors(alloc, &mut self.pairs)
    }
}

/// The errors of the pairs alone.
impl HasKeyErrors for ScanResponse {
    ghost key_errors_in = { λ s. views_of_pairs s.pairs };

    ghost key_errors_left = { λ old new. new ≡ record old { pairs = map without_pair_error old.pairs } };

    ghost no_key_errors = { λ old new left none. left ∙ ap (λ pairs. record old { pairs = pairs }) (no_pair_errors old.pairs none) };

    fn key_errors(&mut self, alloc: Global) -> Result<Option<Vec<Error>>, NoMemory> {
        take_pair_errors(alloc, &mut self.pairs)
    }
}

impl HasKeyErrors for PrewriteResponse {
    ghost key_errors_in = { λ s. map key s.errors };

    ghost key_errors_left = { λ old new. new ≡ record old { errors = [] } };

    ghost no_key_errors = { λ old new left none. left ∙ ap (λ errors. record old { errors = errors }) (no_errors old.errors none) };

    fn key_errors(&mut self, alloc: Global) -> Result<Option<Vec<Error>>, NoMemory> {
        take_errors(alloc, &mut self.errors)
    }
}

impl HasKeyErrors for CommitResponse {
    ghost key_errors_in = { λ s. views_of_error s.error };

    ghost key_errors_left = { λ old new. new ≡ record old { error = None } };

    ghost no_key_errors = { λ old new left none. left ∙ ap (λ error. record old { error = error }) (no_error old.error none) };

    fn key_errors(&mut self, alloc: Global) -> Result<Option<Vec<Error>>, NoMemory> {
        take_error(alloc, &mut self.error)
    }
}

impl HasKeyErrors for CleanupResponse {
    ghost key_errors_in = { λ s. views_of_error s.error };

    ghost key_errors_left = { λ old new. new ≡ record old { error = None } };

    ghost no_key_errors = { λ old new left none. left ∙ ap (λ error. record old { error = error }) (no_error old.error none) };

    fn key_errors(&mut self, alloc: Global) -> Result<Option<Vec<Error>>, NoMemory> {
        take_error(alloc, &mut self.error)
    }
}

impl HasKeyErrors for BatchRollbackResponse {
    ghost key_errors_in = { λ s. views_of_error s.error };

    ghost key_errors_left = { λ old new. new ≡ record old { error = None } };

    ghost no_key_errors = { λ old new left none. left ∙ ap (λ error. record old { error = error }) (no_error old.error none) };

    fn key_errors(&mut self, alloc: Global) -> Result<Option<Vec<Error>>, NoMemory> {
        take_error(alloc, &mut self.error)
    }
}

impl HasKeyErrors for PessimisticRollbackResponse {
    ghost key_errors_in = { λ s. map key s.errors };

    ghost key_errors_left = { λ old new. new ≡ record old { errors = [] } };

    ghost no_key_errors = { λ old new left none. left ∙ ap (λ errors. record old { errors = errors }) (no_errors old.errors none) };

    fn key_errors(&mut self, alloc: Global) -> Result<Option<Vec<Error>>, NoMemory> {
        take_errors(alloc, &mut self.errors)
    }
}

impl HasKeyErrors for PessimisticLockResponse {
    ghost key_errors_in = { λ s. map key s.errors };

    ghost key_errors_left = { λ old new. new ≡ record old { errors = [] } };

    ghost no_key_errors = { λ old new left none. left ∙ ap (λ errors. record old { errors = errors }) (no_errors old.errors none) };

    fn key_errors(&mut self, alloc: Global) -> Result<Option<Vec<Error>>, NoMemory> {
        take_errors(alloc, &mut self.errors)
    }
}

impl HasKeyErrors for ResolveLockResponse {
    ghost key_errors_in = { λ s. views_of_error s.error };

    ghost key_errors_left = { λ old new. new ≡ record old { error = None } };

    ghost no_key_errors = { λ old new left none. left ∙ ap (λ error. record old { error = error }) (no_error old.error none) };

    fn key_errors(&mut self, alloc: Global) -> Result<Option<Vec<Error>>, NoMemory> {
        take_error(alloc, &mut self.error)
    }
}

impl HasKeyErrors for ScanLockResponse {
    ghost key_errors_in = { λ s. views_of_error s.error };

    ghost key_errors_left = { λ old new. new ≡ record old { error = None } };

    ghost no_key_errors = { λ old new left none. left ∙ ap (λ error. record old { error = error }) (no_error old.error none) };

    fn key_errors(&mut self, alloc: Global) -> Result<Option<Vec<Error>>, NoMemory> {
        take_error(alloc, &mut self.error)
    }
}

impl HasKeyErrors for TxnHeartBeatResponse {
    ghost key_errors_in = { λ s. views_of_error s.error };

    ghost key_errors_left = { λ old new. new ≡ record old { error = None } };

    ghost no_key_errors = { λ old new left none. left ∙ ap (λ error. record old { error = error }) (no_error old.error none) };

    fn key_errors(&mut self, alloc: Global) -> Result<Option<Vec<Error>>, NoMemory> {
        take_error(alloc, &mut self.error)
    }
}

impl HasKeyErrors for CheckTxnStatusResponse {
    ghost key_errors_in = { λ s. views_of_error s.error };

    ghost key_errors_left = { λ old new. new ≡ record old { error = None } };

    ghost no_key_errors = { λ old new left none. left ∙ ap (λ error. record old { error = error }) (no_error old.error none) };

    fn key_errors(&mut self, alloc: Global) -> Result<Option<Vec<Error>>, NoMemory> {
        take_error(alloc, &mut self.error)
    }
}

impl HasKeyErrors for CheckSecondaryLocksResponse {
    ghost key_errors_in = { λ s. views_of_error s.error };

    ghost key_errors_left = { λ old new. new ≡ record old { error = None } };

    ghost no_key_errors = { λ old new left none. left ∙ ap (λ error. record old { error = error }) (no_error old.error none) };

    fn key_errors(&mut self, alloc: Global) -> Result<Option<Vec<Error>>, NoMemory> {
        take_error(alloc, &mut self.error)
    }
}

impl HasKeyErrors for UnsafeDestroyRangeResponse {
    ghost key_errors_in = { λ s. views_of_text s.error };

    ghost key_errors_left = { λ old new. new ≡ record old { error = [] } };

    ghost no_key_errors = { λ old new left none. left ∙ ap (λ error. record old { error = error }) (no_text old.error none) };

    fn key_errors(&mut self, alloc: Global) -> Result<Option<Vec<Error>>, NoMemory> {
        take_text(alloc, &mut self.error)
    }
}

impl<Resp: HasKeyErrors, Shard> HasKeyErrors for ResponseWithShard<Resp, Shard> {
    ghost key_errors_in = { λ s. Resp.key_errors_in s.0 };

    ghost key_errors_left = { λ old new. Resp.key_errors_left old.0 new.0 × (new.1 ≡ old.1) };

    ghost no_key_errors = { λ old new left none. ap (λ response. record new { 0 = response }) (Resp.no_key_errors old.0 new.0 left.0 none) ∙ ap (λ shard. record old { 1 = shard }) left.1 };

    fn key_errors(&mut self, alloc: Global) -> Result<Option<Vec<Error>>, NoMemory> {
        self.0.key_errors(alloc)
    }
}

/// An Err is its own error.
impl<T: HasKeyErrors> HasKeyErrors for Result<T, Error> {
    ghost key_errors_in = { seen_in T.key_errors_in };

    ghost key_errors_left = { LeftIn T.key_errors_left };

    ghost no_key_errors = { none_in T.key_errors_in T.key_errors_left T.no_key_errors };

    fn key_errors(&mut self, alloc: Global) -> Result<Option<Vec<Error>>, NoMemory> {
        match self {
            Ok(value) => value.key_errors(alloc),
            Err(error) => take_whole(alloc, error),
        }
    }
}

/// The errors of the first item that has some.
impl<T: HasKeyErrors> HasKeyErrors for Vec<T> {
    ghost key_errors_in = { λ s. first_seen T.key_errors_in s.items };

    ghost key_errors_left = { λ old new. first_seen T.key_errors_in old.items ≡ [] → new ≡ old };

    ghost no_key_errors = { λ _ _ left none. left none };

    fn key_errors(&mut self, alloc: Global) -> Result<Option<Vec<Error>>, NoMemory> {
        first_errors(alloc, self.as_mut_slice())
    }
}

fn first_errors<T: HasKeyErrors>(
    alloc: Global,
    items: &mut [T],
) -> Result<Option<Vec<Error>>, NoMemory>
    ensures found { IfOk result (AreSeen (first_seen T.key_errors_in items.old)) }
    ensures left { OnOk result (first_seen T.key_errors_in items.old ≡ [] → items.new ≡ items.old) }
{
    for item in items.iter_mut() {
        if let Some(errors) = item.key_errors(alloc)? {
            return Ok(Some(errors));
        }
    }
    Ok(None)
}
