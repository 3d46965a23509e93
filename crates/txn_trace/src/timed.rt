ghost use Rattle.std.specs.Prelude.{ℕ, Bool, List, ◌∷◌, map, Err, Ok};
ghost use Rattle.txn_history.specs.Among.{IsAmong};
ghost use Rattle.txn_history.specs.Event.{Event, Has};
ghost use Rattle.txn_history.specs.Event.Event.{Took};
ghost use Rattle.txn_history.specs.Licence.{WasTimed};
ghost use Rattle.txn_history.specs.Plan.{Plan};
ghost use Rattle.txn_history.specs.Posted.{Errand, after};
ghost use Rattle.txn_kv.specs.Timestamp.{version_of};
ghost use Rattle.txn_kv.specs.declared.errors.Error.{Error};
ghost use Rattle.txn_kv.specs.declared.reply.Reply.TheVariants as reply;
ghost use Rattle.txn_kv.specs.declared.reply.cluster.TsoResponse.{TsoResponse};
ghost use Rattle.txn_kv.specs.declared.request.Request.TheVariants.{Tso};
ghost use Rattle.txn_kv.specs.declared.request.cluster.TsoRequest.{TsoRequest};
ghost use Rattle.txn_kv.specs.declared.ticket.Ticket.{Ticket};
ghost use Rattle.txn_kv.specs.declared.timestamp.Timestamp.{Timestamp};
ghost use Rattle.txn_law.specs.Part.{IsPart};
ghost use Rattle.txn_law.specs.Run.{IsRun};
ghost use Rattle.txn_tso.specs.Oracle.{Answer, Oracle, answered, askers_out};
ghost use Rattle.txn_tso.specs.declared.asker.Asker.{Asker};
ghost use Rattle.txn_trace.specs.Answering.{AreAnswerable, OracleFits, answering, ask_of};

/// What an oracle answers to the asks of the group that is out may be answered to them.
pub fn answers_are_timed()
    // A timestamp came of a request that was sent after the ask.
    ensures timed { (o : Oracle) (t : Ticket) (h : List Event) (r : TsoRequest) (x : TsoResponse) → OracleFits o t h →
        Has h (Took t (Tso r) (reply.Tso x)) → (a : Asker) (time : Timestamp) → IsAmong (answered x o) (a, Ok time) →
        WasTimed h (ask_of a) (version_of time) }
    // So each of the group may be answered when the reply was taken, and when the request was lost each may be told so,
    ensures taken { (o : Oracle) (t : Ticket) (h : List Event) (r : TsoRequest) (x : TsoResponse) → OracleFits o t h →
        Has h (Took t (Tso r) (reply.Tso x)) → AreAnswerable (answered x o) h }
    ensures lost { (o : Oracle) (t : Ticket) (h : List Event) (why : Asker → Error) → OracleFits o t h →
        AreAnswerable (map (λ (a : Asker). (a, Err (why a))) (askers_out o)) h }
    // one after another, whatever comes between.
    ensures next { (plans : ℕ → Plan) (h : List Event) (a : Answer) (rest : List Answer) → IsRun plans h → AreAnswerable (a ∷ rest) h →
        IsRun plans (answering a ∷ h) × AreAnswerable rest (answering a ∷ h) }
    ensures grows { (answers : List Answer) (h longer : List Event) → IsPart longer h → AreAnswerable answers h → AreAnswerable answers longer }
    ensures posted { (answers : List Answer) (h : List Event) (line : ℕ) (beat : Bool) (sends : List Errand) → AreAnswerable answers h →
        AreAnswerable answers (after line beat h sends) }
{}
