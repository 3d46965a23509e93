ghost use Rattle.std.specs.Prelude.{◌≡◌, ◌<◌, ◌^◌, IfOk, IfSome, OnOk, true};
ghost use Rattle.txn_heartbeat.specs.Beats.{Beats, HasHeard, IsAlive};
ghost use Rattle.txn_heartbeat.specs.Hosting.{StaysSo};
ghost use Rattle.txn_history.specs.Posted.{HasNumbers};
ghost use Rattle.txn_history.specs.Turn.{turn_of};
ghost use Rattle.txn_kv.specs.Timestamp.{HasVersion};
ghost use Rattle.txn_history.specs.Arrivals.{MayArrive};
ghost use Rattle.txn_side.specs.Sight.{is_live};

use crate::heartbeat_job::HeartbeatJob;
use crate::plan_for_heartbeats::PlanForHeartbeats;
use txn_core::{Heartbeat, Status};
use txn_kv::{Arrival, NoMemory, Outbox, Progress};
use txn_side::ClientSide;

/// Clients that post nothing of heartbeats themselves, and lend them what they need.
pub trait HeartHost: ClientSide {
    ghost use Rattle.std.specs.Prelude.{◌≡◌, ◌∷◌, [], ℕ, List, Option, map, true};
    ghost use Rattle.txn_core.specs.declared.heartbeat.Heartbeat.{Heartbeat};
    ghost use Rattle.txn_core.specs.declared.status.Status.{Status};
    ghost use Rattle.txn_history.specs.Event.{Event};
    ghost use Rattle.txn_history.specs.Event.Event.{Sent};
    ghost use Rattle.txn_kv.specs.declared.request.Request.{Request};
    ghost use Rattle.txn_kv.specs.declared.ticket.Ticket.{Ticket};
    ghost use Rattle.txn_law.specs.Run.{IsPossible};
    ghost use Rattle.txn_side.specs.Arising.{Arises, IsBeat};
    ghost use Rattle.txn_side.specs.Doubt.{itself};

    // This is what the heartbeat of the transaction of a line needs, or it is none, where it needs nothing.
    ghost heart: { Self → ℕ → Option Heartbeat → Type 0 };

    // How far the transaction of a line has come.
    ghost status_at: { Self → ℕ → Status };

    /// What the heartbeat of the transaction of a line needs, where a commit of it is open that locks some key.
    fn heartbeat(&self, transaction: u64) -> Result<Option<Heartbeat>, NoMemory>
        requires ready { Self.ClientSide.ready self.now }
        ensures version { IfOk result (λ beat. IfSome beat (λ b. HasVersion b.start)) }
        ensures heart { IfOk result (heart self.now transaction) };

    /// How far the transaction of a line has come: where there is none, it was let go.
    fn status(&self, transaction: u64) -> Status
        ensures { result ≡ status_at self.now transaction };

    /// The heartbeat's job of a line is told of something, and lent the placement client of the line's client.
    fn beat<H: PlanForHeartbeats>(
        &mut self,
        line: u64,
        job: &mut HeartbeatJob<H>,
        arrival: Arrival,
        status: Status,
        now: u64,
        out: &mut Outbox,
    ) -> Result<Progress<()>, NoMemory>
        requires live { is_live (Self.ClientSide.sight self.old) line ≡ true }
        requires ready { Self.ClientSide.ready self.old }
        requires alive { IsAlive H.meaning job.old out.old }
        requires arrives { MayArrive arrival }
        requires numbers { HasNumbers out.old }
        requires clock { now < 2 ^ 44 }
        ensures heard { OnOk result (HasHeard H.meaning arrival status now job.old job.new out.old out.new (turn_of result)) }
        ensures stays { OnOk result (StaysSo Self.ClientSide.sight Self.ClientSide.waits Self.ClientSide.account Self.ClientSide.rests Self.ClientSide.arises Self.ClientSide.holds self.old self.new) }
        ensures ready { OnOk result (Self.ClientSide.ready self.new) }
        ensures beats { OnOk result (Beats job.old.heartbeat out.old out.new) }
        ensures kept { OnOk result (job.new.heartbeat ≡ job.old.heartbeat) }
        ensures alive { OnOk result (IsAlive H.meaning job.new out.new) }
        ensures numbers { OnOk result (HasNumbers out.new) };

    // No number of a heartbeat was used: the next of each line is 1 still.
    ghost unbeaten: { (s : Self) → (Self.ClientSide.sight s).nexts.beats ≡ map (λ (n : ℕ). 1) (Self.ClientSide.sight s).nexts.calls };

    // What a heartbeat sends changes nothing of them.
    ghost arises_beating: { (s : Self) (h : List Event) (t : Ticket) (r : Request) → t.beat ≡ true → IsBeat r → IsPossible h (Sent t r) → Self.ClientSide.arises s h → Arises (Self.ClientSide.arises s) (Self.ClientSide.holds s) (Self.ClientSide.holds s h) itself (Sent t r ∷ h) [] };
}
