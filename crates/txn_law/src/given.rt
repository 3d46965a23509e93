ghost use Rattle.std.specs.Prelude.{◌≡◌, ◌≢◌, ◌<◌, ◌≤◌, ℕ, List};
ghost use Rattle.txn_kv.specs.declared.ticket.Ticket.{Ticket};
ghost use Rattle.txn_kv.specs.declared.request.Request.TheVariants.{Tso};
ghost use Rattle.txn_kv.specs.declared.request.cluster.TsoRequest.{TsoRequest};
ghost use Rattle.txn_kv.specs.declared.reply.Reply.TheVariants as reply;
ghost use Rattle.txn_kv.specs.declared.reply.cluster.TsoResponse.{TsoResponse};
ghost use Rattle.txn_history.specs.Event.{Event, Has};
ghost use Rattle.txn_history.specs.Event.Event.{Took};
ghost use Rattle.txn_history.specs.Licence.{GivesTimestamp, WasGiven};
ghost use Rattle.txn_history.specs.Plan.{Plan};
ghost use Rattle.txn_law.specs.Part.{IsPart};
ghost use Rattle.txn_law.specs.Run.{IsRun, IsUnused, store_after};

/// The oracle gives each timestamp once, and later ones are greater.
pub fn timestamps_are_given_once()
    // The replies to two requests share no timestamp.
    ensures once { (plans : ℕ → Plan) (events : List Event) → IsRun plans events →
        (t u : Ticket) (r q : TsoRequest) (o p : TsoResponse) → Has events (Took t (Tso r) (reply.Tso o)) → Has events (Took u (Tso q) (reply.Tso p)) → t ≢ u →
        (c : ℕ) → GivesTimestamp o c → GivesTimestamp p c → ⊥ }
    // None is above the last one of the store.
    ensures at_most { (plans : ℕ → Plan) (events : List Event) → IsRun plans events →
        (t : Ticket) (r : TsoRequest) (o : TsoResponse) → Has events (Took t (Tso r) (reply.Tso o)) → (c : ℕ) → GivesTimestamp o c → c ≤ (store_after events).last }
    // Those of a request that was sent since are above all that were given at first.
    ensures later { (plans : ℕ → Plan) (events first : List Event) → IsRun plans events → IsPart events first →
        (t : Ticket) (r : TsoRequest) (o : TsoResponse) → IsUnused first t → Has events (Took t (Tso r) (reply.Tso o)) →
        (c d : ℕ) → GivesTimestamp o c → WasGiven first d → d < c }
{}
