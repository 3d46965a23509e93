ghost use Rattle.std.specs.Prelude.{◌≡◌};
ghost use Rattle.txn_clients.specs.Accounts.{is_heard};
ghost use Rattle.txn_clients.specs.Failing.{untimed_told};
ghost use Rattle.txn_clients.specs.declared.told.Told.TheVariants.{Heard};

use crate::untimed::untimed_by;
use txn_kv::{Arrival, Internal};
use txn_lines::Act;

/// What is told to what stands at a line.
#[derive(Drop)]
pub enum Told {
    /// It begins.
    Start,
    /// A line asks something of a transaction.
    Act(Act),
    Heard(Arrival),
}

impl Told {
    /// Whether it is something that came.
    pub fn is_heard(&self) -> bool
        ensures { result ≡ is_heard self.now }
    {
        matches!(self, Told::Heard(_))
    }

    /// Why no timestamp comes, where that is what is told.
    pub fn untimed(&self) -> Option<Internal>
        ensures { result ≡ untimed_told self.now }
    {
        match self {
            Told::Heard(arrival) => untimed_in(arrival),
            Told::Start => None,
            Told::Act(_) => None,
        }
    }
}

fn untimed_in(arrival: &Arrival) -> Option<Internal>
    ensures { result ≡ untimed_told (Heard arrival.now) }
{
    match arrival {
        Arrival::Time { answer, .. } => match answer {
            Ok(_) => None,
            Err(error) => untimed_by(error),
        },
        Arrival::Reply { .. } => None,
        Arrival::Lost { .. } => None,
        Arrival::Slept { .. } => None,
    }
}
