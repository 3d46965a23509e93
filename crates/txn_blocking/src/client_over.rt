ghost use Rattle.std.specs.Prelude.{◌≡◌, IfOk, IfSome, false};
ghost use Rattle.txn_history.specs.Arrivals.{IsTimeAnswer, MayArrive};
ghost use Rattle.txn_kv.specs.Posted.{opened};
ghost use Rattle.txn_kv.specs.Timestamp.{HasVersion};

mod calls;
mod writes;

use crate::transport::Transport;
use std::alloc::Global;
use std::marker::{Model, PhantomData};
use txn_client::Client;
use txn_commit::Plans;
use txn_core::{CloseAnswer, Status, Transaction};
use txn_kv::{
    Arrival, Errand, Error, Internal, NoMemory, Outbox, Reply, Request, Target, Timestamp,
    TsoResponse,
};
use txn_region::{ApiV1TxnCodec, PdRpcClient};
use txn_tso::{Asker, TimestampOracle};

/// Where a client looks regions and stores up. It is lent to each call.
pub type PlacementClient = PdRpcClient<ApiV1TxnCodec>;

/// A client that sends its requests by a transport. One call runs at a time, and returns once it has ended. It sends one request
/// after another, in the order in which they are posted.
pub struct ClientOver<T, P> {
    pub transport: T,
    client: Client<ApiV1TxnCodec>,
    /// How many calls were made. Each is a line of its own, so that no two requests have one ticket.
    calls: u64,
    alloc: Global,
    begins: PhantomData<Transaction<PlacementClient, P>>,
}

impl<T: Drop, P: Drop> Drop for ClientOver<T, P> {
    fn drop(self) {
        let ClientOver {
            transport,
            client,
            calls: _,
            alloc: _,
            begins: _,
        } = self;
        drop(transport);
        drop(client);
    }
}

/// A transaction. One whose call ran out of memory stays so: each later call does, too.
pub struct TransactionOver<P> {
    inner: Transaction<PlacementClient, P>,
}

impl<P: Drop> Drop for TransactionOver<P> {
    fn drop(self) {
        let TransactionOver { inner } = self;
        drop(inner);
    }
}

impl<P> Model for TransactionOver<P> {
    ghost use Rattle.txn_core.specs.Transaction.{Standing};
    ghost use Rattle.txn_kv.specs.Timestamp.{HasVersion};

    ghost Value = { Standing P };

    ghost view = { λ t. t.inner };

    ghost invariant = { λ t. HasVersion t.inner.start };
}

impl<P> TransactionOver<P>
where
    P: Plans,
{
    pub fn start_timestamp(&self) -> Timestamp
        ensures is { result ≡ self.now.start }
        ensures version { HasVersion result }
    {
        self.inner.start_timestamp()
    }

    /// How far it has come.
    pub fn status(&self) -> Status
        ensures { result ≡ self.now.status }
    {
        self.inner.status()
    }
}

impl<T, P> ClientOver<T, P>
where
    T: Transport,
    P: Plans,
{
    /// A client that knows no region and has made no call. Takes no memory.
    pub fn new(alloc: Global, transport: T) -> Self
        ensures { result.transport ≡ transport }
    {
        let now = transport.now();
        ClientOver {
            transport,
            client: Client::new(alloc, now),
            calls: 0,
            alloc,
            begins: PhantomData,
        }
    }

    /// An empty outbox for a new call. There is none once their numbers have run out.
    fn outbox(&mut self) -> std::result::Result<Outbox, NoMemory>
        ensures out { IfOk result (λ out. out ≡ opened self.new.calls false) }
        ensures sends { self.new.transport ≡ self.old.transport }
    {
        match self.calls.checked_add(1) {
            None => Err(NoMemory),
            Some(call) => {
                self.calls = call;
                Ok(Outbox::new(self.alloc, call, false))
            }
        }
    }

    /// Does what was posted at a place, and gives what comes of it. None where nothing was.
    fn carry_out(&mut self, out: &Outbox, at: usize) -> Option<Arrival>
        ensures { IfSome result MayArrive }
    {
        match out.sends.get(at)? {
            Errand::Send {
                number,
                to,
                request,
            } => Some(self.send(*number, *to, request)),
            Errand::Sleep { number, ms } => {
                self.transport.sleep(*ms);
                Some(Arrival::Slept { number: *number })
            }
            Errand::Ask { ask } => Some(Arrival::Time {
                ask: *ask,
                answer: self.time(*ask),
            }),
        }
    }

    fn send(&mut self, number: u64, to: Target, request: &Request) -> Arrival
        ensures { MayArrive result }
    {
        match self.transport.send(to, request) {
            Some(reply) => Arrival::Reply { number, reply },
            None => Arrival::Lost { number },
        }
    }

    /// What the placement driver answers to an ask for a timestamp. No other ask is out, so it is a group of its own.
    fn time(&mut self, ask: u64) -> txn_kv::Result<Timestamp>
        ensures { IsTimeAnswer result }
    {
        let mut oracle = TimestampOracle::new(self.alloc);
        oracle.ask(Asker {
            line: self.calls,
            beat: false,
            ask,
        })?;
        self.draw(&mut oracle)
    }

    /// Sends the group of asks, and gives what its one asker is answered.
    fn draw(&mut self, oracle: &mut TimestampOracle) -> txn_kv::Result<Timestamp>
        ensures { IsTimeAnswer result }
    {
        let Some(group) = oracle.next_group()? else {
            return untimed(Internal::OracleEmpty);
        };
        match self.transport.send(Target::Placement, &Request::Tso(group)) {
            Some(reply) => granted(oracle, reply),
            None => untimed(Internal::OracleLost),
        }
    }
}

/// There is no timestamp.
fn untimed(what: Internal) -> txn_kv::Result<Timestamp>
    ensures { IsTimeAnswer result }
{
    Err(Error::InternalError { what })
}

/// What a reply gives the one asker.
fn granted(oracle: &mut TimestampOracle, reply: Reply) -> txn_kv::Result<Timestamp>
    ensures { IsTimeAnswer result }
{
    match &reply {
        Reply::Tso(times) => first(oracle, times),
        _ => untimed(Internal::WrongReply),
    }
}

/// What the first asker of the group that is out gets of these times.
fn first(oracle: &mut TimestampOracle, times: &TsoResponse) -> txn_kv::Result<Timestamp>
    ensures { IsTimeAnswer result }
{
    match oracle.take_reply(times)?.pop() {
        Some((_, answer)) => answer,
        None => untimed(Internal::OracleEmpty),
    }
}
