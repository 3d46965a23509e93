ghost use Rattle.std.specs.Prelude.{ℕ, List, Ok};
ghost use Rattle.txn_kv.specs.Timestamp.{version_of};
ghost use Rattle.txn_kv.specs.declared.ticket.Ticket.{Ticket};
ghost use Rattle.txn_kv.specs.declared.timestamp.Timestamp.{Timestamp};
ghost use Rattle.txn_history.specs.Event.{Event, Has};
ghost use Rattle.txn_history.specs.Event.Event.{Answered};
ghost use Rattle.txn_history.specs.Licence.{WantedAfter, WasAskedFor, WasGiven};
ghost use Rattle.txn_history.specs.Plan.{Plan};
ghost use Rattle.txn_law.specs.Run.{IsRun};

/// What the answer to an ask for a timestamp is good for.
pub fn asks_are_answered_later()
    // A timestamp that an ask was answered was given by the oracle.
    ensures given { (plans : ℕ → Plan) (events : List Event) → IsRun plans events →
        (a : Ticket) (time : Timestamp) → Has events (Answered a (Ok time)) → WasGiven events (version_of time) }
    // An ask that was made once all keys were acknowledged is answered a timestamp that was asked for then: one at which the
    // primary may be committed.
    ensures asked { (plans : ℕ → Plan) (events : List Event) → IsRun plans events →
        (s : ℕ) (a : Ticket) (time : Timestamp) → WantedAfter (plans s) events s a → Has events (Answered a (Ok time)) →
        WasAskedFor (plans s) events s (version_of time) }
{}
