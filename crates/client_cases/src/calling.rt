//! A call of a client, which is lent what knows nothing, and its outbox.
ghost use Rattle.std.specs.Prelude.{IfOk};
ghost use Rattle.txn_client.specs.Calls.{CallReady};
ghost use Rattle.txn_kv.specs.Timestamp.{HasVersion};
ghost use Rattle.txn_history.specs.Arrivals.{IsTimeAnswer};

use crate::shown::show_errands;
use case_words::{flag, number, say, show, word};
use std::alloc::Global;
use std::marker::Model;
use txn_client::{Client, ClientAnswer, ClientCall};
use txn_commit::Plans;
use txn_core::{CheckLevel, Transaction, TransactionOptions};
use txn_fakes::NoClient;
use txn_kv::{Arrival, Error, Internal, NoMemory, Outbox, Progress, Timestamp};
use txn_region::{ApiV1TxnCodec, PdRpcClient};

type Pd = PdRpcClient<ApiV1TxnCodec>;

/// All that comes does at 5 ms.
pub struct Calling<P>
where
    P: Plans,
{
    call: ClientCall<Pd, P>,
    pd: NoClient,
    out: Outbox,
}

/// By one call: a derived drop is opened at each exit that holds such a value.
impl<P> Drop for Calling<P>
where
    P: Plans,
{
    fn drop(self) {
        let Calling { call, pd, out } = self;
        drop(call);
        drop(pd);
        drop(out);
    }
}

impl<P> Model for Calling<P>
where
    P: Plans,
{
    ghost use Rattle.txn_client.specs.Calls.{CallReady};
    ghost use Rattle.txn_client.specs.declared.client_call.Stage.{Stage};
    ghost use Rattle.txn_history.specs.Posted.{HasNumbers};

    ghost Value = { Stage };

    ghost view = { λ l. l.call.stage };

    ghost invariant = { λ l. CallReady l.call.stage × HasNumbers l.out };
}

impl<P> Calling<P>
where
    P: Plans,
{
    /// A new call of a new client, if there is memory.
    pub fn begin(alloc: Global, words: &[&str]) -> Option<Self> {
        match new_call(alloc, words) {
            Ok(call) => Some(Calling {
                call,
                pd: NoClient::new(),
                out: Outbox::new(alloc, 3, false),
            }),
            Err(_) => None,
        }
    }

    pub fn serve(&mut self, rt: &HostRuntime, words: &[&str]) {
        let posted = self.out.sends.len();
        match self.turn(words) {
            Ok(answer) => show_answer(rt, answer),
            Err(error) => show(rt, &error),
        }
        show_errands(rt, self.out.sends.as_slice(), posted);
    }

    fn turn(&mut self, words: &[&str]) -> Result<Progress<ClientAnswer<Pd, P>>, NoMemory> {
        if flag(words, 0, "start") {
            return self.call.start(&mut self.pd, 5, &mut self.out);
        }
        let arrival = Arrival::Time {
            ask: number(words, 1),
            answer: time(flag(words, 0, "given")),
        };
        self.call.tell(arrival, &mut self.pd, 5, &mut self.out)
    }
}

fn new_call<P>(alloc: Global, words: &[&str]) -> Result<ClientCall<Pd, P>, NoMemory>
where
    P: Plans,
    ensures { IfOk result (λ call. CallReady call.stage) }
{
    let client = Client::new(alloc, 0);
    if flag(words, 0, "timestamp") {
        return client.current_timestamp();
    }
    if flag(words, 1, "warns") {
        let options = TransactionOptions::new_optimistic();
        return client.begin_with_options(options.drop_check(CheckLevel::Warn));
    }
    client.begin_optimistic()
}

fn seven() -> Timestamp
    ensures { HasVersion result }
{
    Timestamp {
        physical: 0,
        logical: 7,
        suffix_bits: 0,
    }
}

/// What the oracle gives, if it does.
fn time(is_given: bool) -> txn_kv::Result<Timestamp>
    ensures { IsTimeAnswer result }
{
    if is_given {
        return Ok(seven());
    }
    Err(Error::InternalError {
        what: Internal::OracleLost,
    })
}

fn show_answer<P>(rt: &HostRuntime, answer: Progress<ClientAnswer<Pd, P>>)
where
    P: Plans,
{
    match answer {
        Progress::Waiting => say(rt, &"waits"),
        Progress::Done(Ok(ClientAnswer::Time(time))) => {
            let _ = print!(rt; " {}.{}", time.physical, time.logical);
        }
        Progress::Done(Ok(ClientAnswer::Begun(transaction))) => show_transaction(rt, transaction),
        Progress::Done(Err(error)) => show(rt, &error),
    }
}

/// When it starts, whether a call of it is open, and what its user is told who lets it go.
fn show_transaction<P>(rt: &HostRuntime, transaction: Transaction<Pd, P>)
where
    P: Plans,
{
    let mut transaction = transaction;
    let start = transaction.start_timestamp().logical;
    let busy = transaction.is_busy();
    let closed = transaction.close();
    let _ = print!(rt; " begun at {start}, busy: {busy}, closed: {closed:?}");
}
