ghost use Rattle.std.specs.Prelude.{ℕ, List};
ghost use Rattle.txn_kv.specs.declared.ticket.Ticket.{Ticket};
ghost use Rattle.txn_kv.specs.declared.request.Request.{Request};
ghost use Rattle.txn_kv.specs.declared.reply.Reply.{Reply};
ghost use Rattle.txn_history.specs.Event.{Event, Has};
ghost use Rattle.txn_history.specs.Event.Event.{Took};
ghost use Rattle.txn_history.specs.Plan.{Key, Plan};
ghost use Rattle.txn_model.specs.Cells.{cell_at};
ghost use Rattle.txn_model.specs.Locks.{value_at};
ghost use Rattle.txn_law.specs.Reads.{Reads, Says};
ghost use Rattle.txn_law.specs.Run.{IsRun, store_after};

/// What a reply told of a key at a timestamp is what the last store shows there, whatever came later: of a Get, a BatchGet
/// or a Scan at its timestamp, and of a pessimistic lock that returns values at its for-update timestamp.
pub fn reads_repeat()
    ensures { (plans : ℕ → Plan) (events : List Event) → IsRun plans events →
        (ticket : Ticket) (request : Request) (reply : Reply) → Has events (Took ticket request reply) →
        (k : Key) (t : ℕ) → Reads request reply k t →
        Says request reply k (value_at (cell_at (store_after events).cells k).commits t) }
{}
