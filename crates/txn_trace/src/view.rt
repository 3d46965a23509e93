ghost use Rattle.std.specs.Prelude.{◌≡◌, ◌↔◌, ℕ, List};
ghost use Rattle.txn_history.specs.Event.{Event, Has, is_awaited, is_lost, is_out, is_refused, is_served, kept_reply, sent_request, taken_reply};
ghost use Rattle.txn_history.specs.Licence.{AllAcknowledged, IsLicensed, PrimaryCommitted, PrimaryRolledBack, WasAskedFor, WasDecided, WasGiven, WasNamed, WasOnePhase, WasSettled};
ghost use Rattle.txn_history.specs.Plan.{Key, Plan};
ghost use Rattle.txn_kv.specs.declared.request.Request.{Request};
ghost use Rattle.txn_kv.specs.declared.ticket.Ticket.{Ticket};
ghost use Rattle.txn_law.specs.Run.{IsRun, store_after};
ghost use Rattle.txn_law.specs.Whole.{KeyCommitted};
ghost use Rattle.txn_trace.specs.Seeing.{IsVisible, seen};

/// What a report shows of a run is a run, and the same is true of it.
pub fn what_is_seen_is_a_run()
    ensures runs { (plans : ℕ → Plan) (h : List Event) → IsRun plans h → IsRun plans (seen h) }
    ensures store { (h : List Event) → store_after (seen h) ≡ store_after h }
    // Its events are those of the run that are visible.
    ensures shows { (h : List Event) (e : Event) → Has (seen h) e → Has h e × IsVisible e }
    ensures shown { (h : List Event) (e : Event) → IsVisible e → Has h e → Has (seen h) e }
    // What became of each request is the same.
    ensures sent { (h : List Event) (t : Ticket) → sent_request (seen h) t ≡ sent_request h t }
    ensures kept { (h : List Event) (t : Ticket) → kept_reply (seen h) t ≡ kept_reply h t }
    ensures taken { (h : List Event) (t : Ticket) → taken_reply (seen h) t ≡ taken_reply h t }
    ensures refused { (h : List Event) (t : Ticket) → is_refused (seen h) t ≡ is_refused h t }
    ensures lost { (h : List Event) (t : Ticket) → is_lost (seen h) t ≡ is_lost h t }
    ensures served { (h : List Event) (t : Ticket) → is_served (seen h) t ≡ is_served h t }
    ensures out { (h : List Event) (t : Ticket) → is_out (seen h) t ≡ is_out h t }
    ensures awaited { (h : List Event) (t : Ticket) → is_awaited (seen h) t ≡ is_awaited h t }
    // So is what the licences and the other laws speak of.
    ensures given { (h : List Event) (c : ℕ) → WasGiven h c ↔ WasGiven (seen h) c }
    ensures acknowledged { (plan : Plan) (h : List Event) (s : ℕ) → AllAcknowledged plan h s ↔ AllAcknowledged plan (seen h) s }
    ensures asked_for { (plan : Plan) (h : List Event) (s c : ℕ) → WasAskedFor plan h s c ↔ WasAskedFor plan (seen h) s c }
    ensures named { (plan : Plan) (h : List Event) (s c : ℕ) → WasNamed plan h s c ↔ WasNamed plan (seen h) s c }
    ensures committed { (plan : Plan) (h : List Event) (s c : ℕ) → PrimaryCommitted plan h s c ↔ PrimaryCommitted plan (seen h) s c }
    ensures key_committed { (h : List Event) (s : ℕ) (k : Key) → KeyCommitted h s k ↔ KeyCommitted (seen h) s k }
    ensures settled { (plan : Plan) (h : List Event) (s c : ℕ) → WasSettled plan h s c ↔ WasSettled plan (seen h) s c }
    ensures one_phase { (h : List Event) (s c : ℕ) → WasOnePhase h s c ↔ WasOnePhase (seen h) s c }
    ensures rolled_back { (plan : Plan) (h : List Event) (s : ℕ) → PrimaryRolledBack plan h s ↔ PrimaryRolledBack plan (seen h) s }
    ensures decided { (h : List Event) (s c : ℕ) → WasDecided h s c ↔ WasDecided (seen h) s c }
    ensures licensed { (plans : ℕ → Plan) (h : List Event) (r : Request) → IsLicensed plans h r ↔ IsLicensed plans (seen h) r }
{}
