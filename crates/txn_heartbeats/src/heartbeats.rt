ghost use Rattle.std.specs.Prelude.{◌≡◌};
ghost use Rattle.txn_heartbeats.specs.Hearts.{IsReady, sight_of};
ghost use Rattle.txn_side.specs.Sight.{nobody};

mod beats;
mod pulses;
mod side;

use crate::pulse::Pulse;
use std::alloc::Global;
use txn_heartbeat::{HeartHost, PlanForHeartbeats};

/// Clients, and the heartbeats of their transactions. What comes for a heartbeat's ticket is told to its job, all else to the clients.
pub struct Heartbeats<S, H> {
    side: S,
    /// One for each line.
    pulses: Vec<Pulse<H>>,
    alloc: Global,
}

impl<S: Drop, H: Drop> Drop for Heartbeats<S, H> {
    fn drop(self) {
        let Heartbeats {
            side,
            pulses,
            alloc: _,
        } = self;
        drop(side);
        drop(pulses);
    }
}

impl<S: HeartHost, H: PlanForHeartbeats> Heartbeats<S, H> {
    /// Around clients of no line, so that there is no heartbeat. Takes no memory.
    pub fn new(alloc: Global, side: S) -> Heartbeats<S, H>
        requires nobody { S.sight side ≡ nobody }
        requires ready { S.ready side }
        ensures sight { sight_of S.sight result ≡ nobody }
        ensures ready { IsReady S.ready S.sight H.meaning result }
        ensures side { result.side ≡ side }
    {
        Heartbeats {
            side,
            pulses: Vec::new(alloc),
            alloc,
        }
    }
}
