ghost use Rattle.std.specs.Bool.{MatchBool};
ghost use Rattle.std.specs.Prelude.{◌≡◌, ◌≢◌};

use crate::errors;
use crate::reply::Reply;
use crate::timestamp::Timestamp;

/// What a state is told of: what became of a request, of a sleep or of an ask for a timestamp, by its number.
#[derive(Drop)]
pub enum Arrival {
    Reply {
        number: u64,
        reply: Reply,
    },
    Lost {
        number: u64,
    },
    Slept {
        number: u64,
    },
    Time {
        ask: u64,
        answer: errors::Result<Timestamp>,
    },
}

impl Arrival {
    /// Whether it is the end of this sleep.
    pub fn is_end_of(&self, sleep: u64) -> bool
        ensures { MatchBool result (self.now ≡ Arrival.Slept sleep) (self.now ≢ Arrival.Slept sleep) }
    {
        match self {
            Arrival::Slept { number } => *number == sleep,
            _ => false,
        }
    }
}
