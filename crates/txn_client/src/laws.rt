//! Laws of the definitions, as contracts of functions that do nothing.
ghost use Rattle.std.specs.Prelude.{ℕ, List, Ok};
ghost use Rattle.txn_client.specs.Calls.{AnswersAreGiven, CallGives};
ghost use Rattle.txn_client.specs.declared.client_answer.ClientAnswer.TheVariants.{Begun, Time};
ghost use Rattle.txn_client.specs.declared.client_call.Wanted.{Wanted};
ghost use Rattle.txn_core.specs.Going.{IsUncommitted, TransactionFits};
ghost use Rattle.txn_core.specs.Transaction.{Standing};
ghost use Rattle.txn_history.specs.Event.{Event};
ghost use Rattle.txn_history.specs.Licence.{WasGiven};
ghost use Rattle.txn_history.specs.Posted.{Posted};
ghost use Rattle.txn_kv.specs.Timestamp.{version_of};
ghost use Rattle.txn_kv.specs.declared.timestamp.Timestamp.{Timestamp};

use txn_commit::Plans;
use txn_region::PdClient;

/// Where each timestamp that an ask was answered with was given after the ask, so was what a call of a client answers; and a
/// transaction that it begins can have arisen so, where no Commit of its start was sent.
pub fn answers_were_given<C, P>()
where
    C: PdClient,
    P: Plans,
    ensures time { (w : Wanted) (h : List Event) (t : Timestamp) → AnswersAreGiven h → CallGives {C = C} {P = P} w h (Ok (Time t)) → WasGiven h (version_of t) }
    ensures begun { (w : Wanted) (o : Posted) (h : List Event) (b : Standing P) → AnswersAreGiven h → CallGives {C = C} {P = P} w h (Ok (Begun b)) → IsUncommitted (version_of b.start) h
        → TransactionFits P.ways b o h }
{}
