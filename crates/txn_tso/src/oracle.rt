ghost use Rattle.std.specs.Prelude.{◌≡◌, ◌≤◌, ◌++◌, ◌∷◌, [], drop, map, take, vec_len, None, OnErr, OnOk, IfOk};
ghost use Rattle.std.specs.List.{All};
ghost use Rattle.txn_tso.specs.Oracle.{answered, askers_out, idle, is_ready, most, next_request, with_next_group, AreRising, HasVersionIfOk, IsGroup};

use crate::asker::Asker;
use crate::granting::answer_all;
use std::alloc::Global;
use std::marker::Model;
use std::mem;
use txn_kv::{Items, NoMemory, Result, Timestamp, TsoRequest, TsoResponse};

/// How many asks go out together at most.
const MAX_GROUP: usize = 64;

/// A client's asks for timestamps: those that wait, in the order in which they came, and the group that was sent. There is
/// one group out at most.
pub struct TimestampOracle {
    queue: Vec<Asker>,
    group: Option<Items<Asker>>,
    alloc: Global,
}

impl Drop for TimestampOracle {
    fn drop(self) {
        let TimestampOracle {
            queue,
            group,
            alloc: _,
        } = self;
        drop(queue);
        drop(group);
    }
}

impl Model for TimestampOracle {
    ghost use Rattle.txn_tso.specs.Oracle.{IsGroup, Oracle};

    ghost Value = { Oracle };

    ghost view = { λ o. record { queue = o.queue.items; out = o.group } };

    ghost invariant = { λ o. IsGroup o.group };
}

impl TimestampOracle {
    /// Nobody waits, and no group is out. Takes no memory.
    pub fn new(alloc: Global) -> TimestampOracle
        ensures { result ≡ idle }
    {
        TimestampOracle {
            queue: Vec::new(alloc),
            group: None,
            alloc,
        }
    }

    /// Puts an ask at the end of the queue.
    pub fn ask(&mut self, who: Asker) -> std::result::Result<(), NoMemory>
        ensures ok { OnOk result (self.new ≡ record self.old { queue = self.old.queue ++ who ∷ [] }) }
        ensures err { OnErr result (self.new ≡ self.old) }
    {
        self.queue.push(who)?;
        Ok(())
    }

    /// Sends the first 64 asks out, or all where there are fewer, unless a group is out already. The request has to be sent.
    pub fn next_group(&mut self) -> std::result::Result<Option<TsoRequest>, NoMemory>
        ensures request { IfOk result (λ request. request ≡ next_request self.old) }
        ensures ok { OnOk result (self.new ≡ with_next_group self.old) }
        ensures err { OnErr result (self.new ≡ self.old) }
    {
        if !self.is_ready() {
            return Ok(None);
        }
        let rest = cut_group(self.alloc, &mut self.queue)?;
        let group = mem::replace(&mut self.queue, rest);
        let count = group.len() as u32;
        self.group = Some(Items::from_vec(group));
        Ok(Some(TsoRequest { count }))
    }

    /// Whether a group may be sent: none is out, and somebody waits.
    fn is_ready(&self) -> bool
        ensures { result ≡ is_ready self.now }
    {
        self.group.is_none() && !self.queue.is_empty()
    }

    /// Those whose asks are out, in their order. Takes no memory.
    pub fn askers(&self) -> &[Asker]
        ensures { result.now ≡ askers_out self.now }
    {
        match &self.group {
            Some(group) => group.as_slice(),
            None => &[],
        }
    }

    /// Takes the reply to the group that is out, and gives each of its askers the answer, in their order. The group is not
    /// out any more. Where none is out there is nobody to answer.
    pub fn take_reply(
        &mut self,
        reply: &TsoResponse,
    ) -> std::result::Result<Vec<(Asker, Result<Timestamp>)>, NoMemory>
        ensures answers { IfOk result (λ given. given.items ≡ answered reply.now self.old) }
        ensures order { IfOk result (λ given. map (λ a. a.0) given.items ≡ askers_out self.old) }
        ensures rising { IfOk result (λ given. AreRising given.items) }
        ensures in_range { IfOk result (λ given. All HasVersionIfOk given.items) }
        ensures ok { OnOk result (self.new ≡ record self.old { out = None }) }
        ensures err { OnErr result (self.new ≡ self.old) }
    {
        let given = self.answers(reply)?;
        self.group = None;
        Ok(given)
    }

    fn answers(
        &self,
        reply: &TsoResponse,
    ) -> std::result::Result<Vec<(Asker, Result<Timestamp>)>, NoMemory>
        ensures { IfOk result (λ given. given.items ≡ answered reply.now self.now) }
    {
        match &self.group {
            Some(group) => answer_all(self.alloc, reply, group.as_slice(), group.len() as u32),
            None => Ok(Vec::new(self.alloc)),
        }
    }

    /// Ends the group that is out without an answer, and gives its askers. They may ask again. Takes no memory.
    pub fn lost(&mut self) -> Vec<Asker>
        ensures askers { result.items ≡ askers_out self.old }
        ensures ended { self.new ≡ record self.old { out = None } }
    {
        match self.group.take() {
            Some(group) => group.into_vec(),
            None => Vec::new(self.alloc),
        }
    }
}

/// Leaves the first group in a queue, and gives those behind it.
fn cut_group(alloc: Global, queue: &mut Vec<Asker>) -> std::result::Result<Vec<Asker>, NoMemory>
    ensures first { OnOk result (queue.new.items ≡ take most queue.old.items) }
    ensures small { OnOk result (vec_len queue.new ≤ most) }
    ensures rest { IfOk result (λ rest. rest.items ≡ drop most queue.old.items) }
    ensures err { OnErr result (queue.new ≡ queue.old) }
{
    if queue.len() <= MAX_GROUP {
        return Ok(Vec::new(alloc));
    }
    Ok(queue.split_off(MAX_GROUP)?)
}
