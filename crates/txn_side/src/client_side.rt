ghost use Rattle.std.specs.Prelude.{◌≡◌, ◌<◌, ◌≤◌, ◌^◌, ℕ, [], IfOk, OnOk};
ghost use Rattle.txn_side.specs.Doubt.{itself};
ghost use Rattle.txn_side.specs.Sight.{connected, crash, is_live, line_count, opened};
ghost use Rattle.txn_side.specs.Steps.{StaysStill, StepsAsked, StepsTold, StepsUsed};

use crate::coming::Coming;
use crate::turn::Turn;
use txn_kv::{NoMemory, Ticket};
use txn_lines::{Act, ClientAct};

/// The clients of a run, whatever they are made of. Lines are counted from 1. The clock is in milliseconds.
///
/// After a call has answered `NoMemory` nothing more is said of them.
pub trait ClientSide: Sized + Drop {
    ghost use Rattle.std.specs.Prelude.{◌≡◌, ℕ};
    ghost use Rattle.txn_side.specs.Sight.{Sight, nobody};
    ghost use Rattle.txn_side.specs.Waiting.{Awaited, IsDue, NoneWaits};
    ghost use Rattle.txn_side.specs.Account.{Account};
    ghost use Rattle.std.specs.Prelude.{List};
    ghost use Rattle.txn_history.specs.Event.{Event};
    ghost use Rattle.txn_side.specs.Trace.{HowCallsFail, IsLonger, Trace};
    ghost use Rattle.std.specs.Prelude.{[], ◌∷◌};
    ghost use Rattle.txn_law.specs.Run.{IsPossible};
    ghost use Rattle.txn_report.specs.declared.outcome.Outcome.{Outcome};
    ghost use Rattle.txn_side.specs.Arising.{Arises, IsOutside};
    ghost use Rattle.txn_side.specs.Doubt.{itself};

    // What stands at each line, which clients have crashed, and how far the numbers of each line have come.
    ghost sight: { Self → Sight };

    // They may be called: what their code rests on.
    ghost ready: { Self → Type 0 };

    // What the call of a line waits for.
    ghost waits: { Self → ℕ → Awaited → Type 0 };

    // Clients of no line wait for nothing.
    ghost nobody_waits: { (s : Self) → sight s ≡ nobody → NoneWaits (waits s) };

    // Something is out for each call that waits.
    ghost due: { (s : Self) → ready s → IsDue (waits s) (sight s) };

    // How far the transaction of a line has come, and what it has taken in: nothing, where none has begun there.
    ghost account: { Self → ℕ → Account };

    // With which errors a call of a kind may fail after what it has heard, where the transaction was to begin with these options.
    ghost fails: { HowCallsFail };

    // What the calls have heard has happened.
    ghost rests: { Self → Trace → Type 0 };

    // It has, whatever happens later.
    ghost rests_longer: { (s : Self) (t longer : Trace) → IsLonger t longer → rests s t → rests s longer };

    // Calls of no line have heard nothing, where nobody is still to be told something.
    ghost nobody_rests: { (s : Self) → sight s ≡ nobody → (t : Trace) → t.owed ≡ [] → rests s t };

    // They can have arisen from this history of a run, in which each request that they posted is licensed.
    ghost arises: { Self → List Event → Type 0 };

    // After it this may be answered of what stands at a line.
    ghost holds: { Self → List Event → ℕ → Outcome → Type 0 };

    // Of no line nothing has happened.
    ghost nobody_arises: { (s : Self) → ready s → sight s ≡ nobody → arises s [] };

    // What comes from outside changes nothing of them.
    ghost arises_longer: { (s : Self) (h : List Event) (e : Event) → IsOutside e → IsPossible h e → arises s h → Arises (arises s) (holds s) (holds s h) itself (e ∷ h) [] };

    /// One line more, at which nothing stands.
    fn open(&mut self) -> Result<(), NoMemory>
        requires ready { ready self.old }
        ensures { OnOk result (StaysStill sight ready waits account rests arises holds (opened (sight self.old)) self.old self.new) };

    /// Whether a line has a client that has not crashed.
    fn is_live(&self, line: u64) -> bool
        ensures { result ≡ is_live (sight self.now) line };

    /// The newest line makes a client.
    fn connect(&mut self, now: u64) -> Result<(), NoMemory>
        requires ready { ready self.old }
        requires line { 1 ≤ line_count (sight self.old) }
        requires clock { now < 2 ^ 44 }
        ensures { OnOk result (StaysStill sight ready waits account rests arises holds (connected (sight self.old)) self.old self.new) };

    /// The client of a line is gone, and its open calls and jobs with it. Whether it was there.
    fn crash(&mut self, line: u64) -> bool
        requires ready { ready self.old }
        ensures there { result ≡ is_live (sight self.old) line }
        ensures gone { StaysStill sight ready waits account rests arises holds (crash line (sight self.old)) self.old self.new };

    /// The newest line asks something of a line's client; nothing where that has crashed.
    fn call(&mut self, client: u64, act: ClientAct, now: u64) -> Result<Option<Turn>, NoMemory>
        requires ready { ready self.old }
        requires line { 1 ≤ line_count (sight self.old) }
        requires clock { now < 2 ^ 44 }
        ensures { IfOk result (StepsAsked sight ready waits account fails rests arises holds client act self.old self.new) };

    /// The newest line asks something of a transaction; none where its client has crashed, it has not begun, or a call of it is
    /// open.
    fn act(&mut self, transaction: u64, act: Act, now: u64) -> Result<Option<Turn>, NoMemory>
        requires ready { ready self.old }
        requires line { 1 ≤ line_count (sight self.old) }
        requires clock { now < 2 ^ 44 }
        ensures { IfOk result (StepsUsed sight ready waits account fails rests arises holds transaction act self.old self.new) };

    /// This comes for a ticket: to the call of its line, or from the oracle to those who asked, none of whom gets a timestamp but
    /// that of its place. Nothing is done where the line's client has crashed.
    fn tell(&mut self, ticket: Ticket, what: Coming, now: u64) -> Result<Turn, NoMemory>
        requires ready { ready self.old }
        requires clock { now < 2 ^ 44 }
        ensures { IfOk result (StepsTold sight ready waits account fails rests arises holds ticket what self.old self.new) };
}
