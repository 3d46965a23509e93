//! What comes to a transaction: replies and losses of its requests, the ends of its sleeps, and timestamps.
ghost use Rattle.std.specs.Prelude.{◌≡◌, ◌<◌, ◌^◌, List, false, true};
ghost use Rattle.txn_history.specs.Event.{Event};
ghost use Rattle.txn_history.specs.Meaning.{Expects};
ghost use Rattle.txn_history.specs.Phase.Phase.{Running};
ghost use Rattle.txn_history.specs.Posted.{HasNumbers};
ghost use Rattle.txn_history.specs.Turn.{IfEnds, IfKept, turn_of};
ghost use Rattle.txn_history.specs.Turn.Turn.{Stopped, Waits};
ghost use Rattle.txn_kv.specs.Timestamp.{HasVersion};
ghost use Rattle.txn_kv.specs.declared.request.Request.{Request as Asked};
ghost use Rattle.txn_commit.specs.Committing.{CommitterFits, CommitterMoves, IsInRange, StageReady};
ghost use Rattle.txn_commit.specs.Counting.{CommitterCounts};
ghost use Rattle.txn_commit.specs.Following.{IsFollowed, awaits, heard};
ghost use Rattle.txn_commit.specs.Going.{CommitterExpects, CommitterGoes, may_commit, stage_phase, stage_waits};
ghost use Rattle.txn_core.specs.Counting.{OpenCounts, TransactionCounts};
ghost use Rattle.txn_core.specs.Going.{CallFits, CallMoves, IsSameCall, TransactionFits, TransactionMoves, TransactionReady};
ghost use Rattle.txn_core.specs.Transaction.{GivesUp, is_open, is_waiting, moved_by};
ghost use Rattle.txn_core.specs.Waiting.{HandsOut, TransactionGoes, work_waits};
ghost use Rattle.txn_core.specs.declared.transaction.Work.TheVariants as works;
ghost use Rattle.txn_history.specs.Arrivals.{MayArrive, awaited_as, locked_told, tells_error, tells_failure, told_by, weight_told};

use crate::transaction::{Transaction, Turn, Work};
use txn_commit::{CommitterAnswer, CommitterCall, Plans};
use txn_kv::{Arrival, NoMemory, Outbox, Progress};
use txn_region::PdClient;

impl<C, P> Transaction<C, P>
where
    C: PdClient,
    P: Plans,
{
    /// It is told of something.
    pub fn tell(&mut self, arrival: Arrival, pd: &mut C, now: u64, out: &mut Outbox) -> Turn<P>
        requires ready { TransactionReady P.ways self.old }
        requires arrives { MayArrive arrival }
        requires numbers { HasNumbers out.old }
        requires clock { now < 2 ^ 44 }
        ensures tells { (r : Asked) → TransactionMoves P.ways (told_by arrival out.old r).known (told_by arrival out.old r).hear self.old self.new out.old out.new (turn_of result) }
        ensures counts { TransactionCounts P.ways P.ways.costs (tells_error arrival) (tells_failure arrival) (weight_told arrival) (locked_told arrival) self.old self.new out.old out.new (turn_of result) }
        ensures status { self.new.status ≡ moved_by self.old.status (turn_of result) }
        ensures kept { self.new ≡ record self.old { status = self.new.status; commits = self.new.commits; work = self.new.work; width = self.new.width } }
        ensures gives_up { GivesUp self.old self.new (turn_of result) }
        ensures deaf { self.old.work ≡ works.Idle → (turn_of result ≡ Waits) × (self.new ≡ self.old) × (out.new ≡ out.old) }
        ensures goes { TransactionGoes P.ways (work_waits P.ways self.old.work (awaited_as arrival)) (record self.old { commits = self.new.commits }) self.new out.old out.new pd.old pd.new (turn_of result) }
        ensures expects { Expects (work_waits P.ways self.old.work) (work_waits P.ways self.new.work) (λ a. a ≡ awaited_as arrival) out.old out.new }
        ensures commits { (work_waits P.ways self.old.work (awaited_as arrival) → ⊥) → awaits arrival out.old self.old.commits ≡ false → self.new.commits ≡ self.old.commits }
        ensures follows { (h : List Event) → is_open self.old.work ≡ true → TransactionFits P.ways self.old out.old h → IfKept (turn_of result) (IsFollowed out.old (heard arrival out.old self.old.commits) self.new.commits) }
        ensures job { IfEnds (turn_of result) (HandsOut P.ways.plan) }
        ensures ready { TransactionReady P.ways self.new }
        ensures numbers { HasNumbers out.new }
    {
        match self.take_work() {
            Work::Idle => {
                drop(arrival);
                Ok(self.wait())
            }
            Work::Open(call) => self.tell_call(call, arrival, pd, now, out),
            Work::GaveUp => {
                drop(arrival);
                Err(NoMemory)
            }
        }
    }

    fn tell_call(
        &mut self,
        call: CommitterCall<P>,
        arrival: Arrival,
        pd: &mut C,
        now: u64,
        out: &mut Outbox,
    ) -> Turn<P>
        requires aside { self.old.work ≡ works.GaveUp }
        requires start { HasVersion self.old.start }
        requires call { (call.start ≡ self.old.start) × StageReady P.ways call.stage }
        requires runs { stage_phase P.ways call.stage ≡ Running }
        requires arrives { MayArrive arrival }
        requires numbers { HasNumbers out.old }
        requires clock { now < 2 ^ 44 }
        ensures moves { (r : Asked) → CallMoves P.ways (told_by arrival out.old r).known (told_by arrival out.old r).hear call self.old self.new out.old out.new (turn_of result) }
        ensures counts { OpenCounts P.ways P.ways.costs call (tells_error arrival) (tells_failure arrival) (weight_told arrival) (locked_told arrival) self.old self.new out.old out.new (turn_of result) }
        ensures status { self.new.status ≡ moved_by self.old.status (turn_of result) }
        ensures kept { self.new ≡ record self.old { status = self.new.status; commits = self.new.commits; work = self.new.work; width = self.new.width } }
        ensures stops { turn_of result ≡ Stopped → self.new.work ≡ works.GaveUp }
        ensures busy { is_open self.new.work ≡ is_waiting (turn_of result) }
        ensures goes { TransactionGoes P.ways (stage_waits P.ways call.stage (awaited_as arrival)) (record self.old { work = works.Open call; commits = self.new.commits }) self.new out.old out.new pd.old pd.new (turn_of result) }
        ensures expects { Expects (stage_waits P.ways call.stage) (work_waits P.ways self.new.work) (λ a. a ≡ awaited_as arrival) out.old out.new }
        ensures commits { (stage_waits P.ways call.stage (awaited_as arrival) → ⊥) → awaits arrival out.old self.old.commits ≡ false → self.new.commits ≡ self.old.commits }
        ensures follows { (h : List Event) → CallFits P.ways self.old call out.old h → IfKept (turn_of result) (IsFollowed out.old (heard arrival out.old self.old.commits) self.new.commits) }
        ensures job { IfEnds (turn_of result) (HandsOut P.ways.plan) }
        ensures ready { TransactionReady P.ways self.new }
        ensures numbers { HasNumbers out.new }
    {
        let mut call = call;
        match self.tell_open(&mut call, arrival, pd, now, out) {
            Ok(progress) => self.go_on(call, progress),
            Err(_) => self.stop(call),
        }
    }

    fn tell_open(
        &mut self,
        call: &mut CommitterCall<P>,
        arrival: Arrival,
        pd: &mut C,
        now: u64,
        out: &mut Outbox,
    ) -> Result<Progress<CommitterAnswer>, NoMemory>
        requires start { HasVersion call.old.start }
        requires ready { StageReady P.ways call.old.stage }
        requires arrives { MayArrive arrival }
        requires numbers { HasNumbers out.old }
        requires clock { now < 2 ^ 44 }
        ensures moves { (r : Asked) → CommitterMoves P.ways (told_by arrival out.old r).known (told_by arrival out.old r).hear call.old call.new self.old.commits self.new.commits out.old out.new (turn_of result) }
        ensures counts { CommitterCounts P.ways P.ways.costs (tells_error arrival) (tells_failure arrival) (weight_told arrival) (locked_told arrival) call.old call.new out.old out.new (turn_of result) }
        ensures job { IsSameCall call.old call.new }
        ensures kept { self.new ≡ record self.old { commits = self.new.commits } }
        ensures goes { CommitterGoes P.ways (stage_waits P.ways call.old.stage (awaited_as arrival)) call.old call.new out.old out.new pd.old pd.new (turn_of result) }
        ensures expects { CommitterExpects P.ways (λ a. a ≡ awaited_as arrival) call.old call.new out.old out.new }
        ensures commits { (stage_waits P.ways call.old.stage (awaited_as arrival) → ⊥) → awaits arrival out.old self.old.commits ≡ false → self.new.commits ≡ self.old.commits }
        ensures follows { (h : List Event) → stage_phase P.ways call.old.stage ≡ Running → CommitterFits P.ways call.old self.old.commits out.old h → IfKept (turn_of result) (IsFollowed out.old (heard arrival out.old self.old.commits) self.new.commits) }
        ensures back { may_commit call.old.stage ≡ false → (self.new.commits ≡ self.old.commits) × (may_commit call.new.stage ≡ false) }
        ensures version { IfEnds (turn_of result) IsInRange }
        ensures ready { StageReady P.ways call.new.stage }
        ensures numbers { HasNumbers out.new }
    {
        call.tell(&mut self.commits, arrival, pd, now, out)
    }
}
