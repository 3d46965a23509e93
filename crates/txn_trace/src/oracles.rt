ghost use Rattle.std.specs.Prelude.{◌≡◌, ◌++◌, ℕ, Bool, List, [], ◌∷◌, None, Some};
ghost use Rattle.txn_history.specs.Among.{IsAmong};
ghost use Rattle.txn_history.specs.Event.{Event, Has};
ghost use Rattle.txn_history.specs.Event.Event.{Asked, Sent};
ghost use Rattle.txn_history.specs.Posted.{Errand, after};
ghost use Rattle.txn_kv.specs.declared.request.Request.TheVariants.{Tso};
ghost use Rattle.txn_kv.specs.declared.request.cluster.TsoRequest.{TsoRequest};
ghost use Rattle.txn_kv.specs.declared.ticket.Ticket.{Ticket};
ghost use Rattle.txn_law.specs.Part.{IsPart};
ghost use Rattle.txn_tso.specs.Oracle.{Oracle, askers_out, idle, next_request, with_next_group};
ghost use Rattle.txn_tso.specs.declared.asker.Asker.{Asker};
ghost use Rattle.txn_trace.specs.Answering.{OracleFits, ask_of};

/// What a client's oracle holds fits the history.
pub fn oracles_fit()
    ensures begins { (t : Ticket) (h : List Event) → OracleFits idle t h }
    // It still does as the history grows.
    ensures more { (o : Oracle) (t : Ticket) (h : List Event) (e : Event) → OracleFits o t h → OracleFits o t (e ∷ h) }
    ensures grows { (o : Oracle) (t : Ticket) (h longer : List Event) → IsPart longer h → OracleFits o t h → OracleFits o t longer }
    ensures posted { (o : Oracle) (t : Ticket) (h : List Event) (line : ℕ) (beat : Bool) (sends : List Errand) → OracleFits o t h → OracleFits o t (after line beat h sends) }
    // An ask goes to the end of the queue, when it is made or later.
    ensures asked { (o : Oracle) (t : Ticket) (h : List Event) (a : Asker) → OracleFits o t h →
        OracleFits (record o { queue = o.queue ++ a ∷ [] }) t (Asked (ask_of a) ∷ h) }
    ensures queued { (o : Oracle) (t : Ticket) (h : List Event) (a : Asker) → Has h (Asked (ask_of a)) → OracleFits o t h →
        OracleFits (record o { queue = o.queue ++ a ∷ [] }) t h }
    // The next group goes out with the ticket of its request, or none does.
    ensures sent { (o : Oracle) (t u : Ticket) (h : List Event) (r : TsoRequest) → next_request o ≡ Some r → OracleFits o t h →
        OracleFits (with_next_group o) u (Sent u (Tso r) ∷ h) }
    ensures waits { (o : Oracle) (t : Ticket) (h : List Event) → next_request o ≡ None → OracleFits o t h → OracleFits (with_next_group o) t h }
    // A group is not out any more when its reply is taken, or it is lost.
    ensures ended { (o : Oracle) (t u : Ticket) (h : List Event) → OracleFits o t h → OracleFits (record o { out = None }) u h }
    // Each of a group that is out has asked.
    ensures each { (o : Oracle) (t : Ticket) (h : List Event) → OracleFits o t h → (a : Asker) → IsAmong (askers_out o) a → Has h (Asked (ask_of a)) }
{}
