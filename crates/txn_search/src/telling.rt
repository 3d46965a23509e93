ghost use Rattle.std.specs.Prelude.{◌≡◌, ℕ};
ghost use Rattle.txn_history.specs.Arrivals.{awaited_as, told_by};
ghost use Rattle.txn_history.specs.Meaning.{Tells};
ghost use Rattle.txn_history.specs.Phase.Awaited.{TimeOf};
ghost use Rattle.txn_history.specs.Posted.{HasNumbers};
ghost use Rattle.txn_history.specs.Turn.{turn_of};
ghost use Rattle.txn_history.specs.Turn.Turn.{Waits};
ghost use Rattle.txn_kv.specs.declared.request.Request.{Request as Asked};
ghost use Rattle.txn_plan.specs.LookUp.{call_waits, looked_up, AwaitsLast};
ghost use Rattle.txn_search.specs.Search.{tells_loss};
ghost use Rattle.txn_tso.specs.Counting.{asks_of, CallSpends};

use txn_kv::{Arrival, NoMemory, Outbox, PdAnswer, Progress};
use txn_tso::{PdCall, RetryClient};

/// A query that asks for no timestamp takes what it waits for.
pub fn tell_query(
    call: &mut PdCall,
    client: &mut RetryClient,
    now: u64,
    arrival: Arrival,
    out: &mut Outbox,
) -> Result<Progress<PdAnswer>, NoMemory>
    requires timeless { asks_of call.old.query ≡ 0 }
    requires waits { call_waits call.old.stage (awaited_as arrival) }
    requires untimed { (ask : ℕ) → awaited_as arrival ≡ TimeOf ask → ⊥ }
    requires numbers { HasNumbers out.old }
    ensures tells { (r : Asked) → Tells looked_up (told_by arrival out.old r) call.old call.new out.old out.new (turn_of result) }
    ensures spends { CallSpends call.old call.new (tells_loss arrival) out.old out.new (turn_of result) }
    ensures waits { turn_of result ≡ Waits → AwaitsLast call.new out.new }
    ensures job { call.new.query ≡ call.old.query }
    ensures numbers { HasNumbers out.new }
{
    match arrival {
        Arrival::Reply { number, reply } => call.take_reply(client, now, number, reply, out),
        Arrival::Lost { number } => call.lost(client, now, number, out),
        Arrival::Slept { number } => call.slept(client, now, number, out),
        Arrival::Time { ask: _, answer } => {
            drop(answer);
            unreachable!()
        }
    }
}

/// A query that was begun has no answer yet.
pub fn pass_over(_progress: Progress<PdAnswer>) {}
