ghost use Rattle.std.specs.Prelude.{◌≡◌, ◌↔◌, ◌-◌, ◌+◌, ℕ, List, length, map, slice_get, Ok, Some};
ghost use Rattle.txn_history.specs.Among.{IsAmong};
ghost use Rattle.txn_history.specs.Event.{Event, Has};
ghost use Rattle.txn_history.specs.Event.Event.{Took};
ghost use Rattle.txn_history.specs.Licence.{GivesTimestamp, WasGiven};
ghost use Rattle.txn_history.specs.Plan.{Plan};
ghost use Rattle.txn_history.specs.Posted.{Within};
ghost use Rattle.txn_kv.specs.Timestamp.{version_of};
ghost use Rattle.txn_kv.specs.declared.reply.Reply.{Reply};
ghost use Rattle.txn_kv.specs.declared.reply.Reply.TheVariants as reply;
ghost use Rattle.txn_kv.specs.declared.reply.cluster.TsoResponse.{TsoResponse};
ghost use Rattle.txn_kv.specs.declared.request.Request.TheVariants.{Tso};
ghost use Rattle.txn_kv.specs.declared.request.cluster.TsoRequest.{TsoRequest};
ghost use Rattle.txn_kv.specs.declared.ticket.Ticket.{Ticket};
ghost use Rattle.txn_kv.specs.declared.timestamp.Timestamp.{Timestamp};
ghost use Rattle.txn_law.specs.Run.{IsRun};
ghost use Rattle.txn_tso.specs.Oracle.{Oracle, answer, answered, askers_out};
ghost use Rattle.txn_tso.specs.declared.asker.Asker.{Asker};
ghost use Rattle.txn_trace.specs.Drawing.{IsDrawn};
ghost use Rattle.txn_trace.specs.Seeing.{seen};

/// No timestamp is drawn twice: by one line alone, of one request, in one place of its askers.
pub fn draws_are_apart()
    ensures line { (plans : ℕ → Plan) (h : List Event) → IsRun plans h → (askers : Ticket → List ℕ) (n m c : ℕ) →
        IsDrawn askers h n c → IsDrawn askers h m c → n ≡ m }
    ensures place { (plans : ℕ → Plan) (h : List Event) → IsRun plans h → (askers : Ticket → List ℕ) (n m c : ℕ) →
        (d : IsDrawn askers h n c) (e : IsDrawn askers h m c) → (d.ticket ≡ e.ticket) × (d.response ≡ e.response) × (length d.behind ≡ length e.behind) }
    // What is drawn was given by the oracle.
    ensures gives { (askers : Ticket → List ℕ) (h : List Event) (n c : ℕ) → (d : IsDrawn askers h n c) → GivesTimestamp d.response c }
    ensures given { (askers : Ticket → List ℕ) (h : List Event) (n c : ℕ) → IsDrawn askers h n c → WasGiven h c }
    // What an oracle answers is drawn, where the lines of its group are those that are noted,
    ensures answered { (askers : Ticket → List ℕ) (h : List Event) (o : Oracle) (t : Ticket) (r : TsoRequest) (x : TsoResponse) →
        Has h (Took t (Tso r) (reply.Tso x)) → askers t ≡ map (λ (a : Asker). a.line) (askers_out o) →
        (a : Asker) (time : Timestamp) → IsAmong (answered x o) (a, Ok time) → IsDrawn askers h a.line (version_of time) }
    // and so is what the reply answers the ask in a place.
    ensures placed { (askers : Ticket → List ℕ) (h : List Event) (t : Ticket) (r : TsoRequest) (x : TsoResponse) (i n : ℕ) (time : Timestamp) →
        Has h (Took t (Tso r) (reply.Tso x)) → slice_get (askers t) i ≡ Some n → answer x (length (askers t)) (length (askers t) - (i + 1)) ≡ Ok time →
        IsDrawn askers h n (version_of time) }
    // It stays drawn, and is so of what a report shows.
    ensures grows { (askers more : Ticket → List ℕ) (h longer : List Event) (n c : ℕ) → Within h longer →
        ((t : Ticket) (r : TsoRequest) (o : Reply) → Has h (Took t (Tso r) o) → more t ≡ askers t) → IsDrawn askers h n c → IsDrawn more longer n c }
    ensures seen { (askers : Ticket → List ℕ) (h : List Event) (n c : ℕ) → IsDrawn askers h n c ↔ IsDrawn askers (seen h) n c }
{}
