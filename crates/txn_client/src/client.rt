ghost use Rattle.std.specs.Prelude.{◌≡◌, IfOk};
ghost use Rattle.std.specs.Borrow.{sem};
ghost use Rattle.txn_core.specs.Options.{AreDefault, usual_retries};
ghost use Rattle.txn_core.specs.declared.options.TransactionKind.TheVariants as kinds;
ghost use Rattle.txn_core.specs.declared.options.TransactionOptions.{TransactionOptions as Options};
ghost use Rattle.txn_history.specs.Meaning.{IsUnbegun};
ghost use Rattle.txn_client.specs.Calls.{called, IsNewCall};
ghost use Rattle.txn_client.specs.Clients.{lends_pd, IsNewPd};
ghost use Rattle.txn_client.specs.declared.client_call.Wanted.TheVariants as wants;

use crate::client_call::ClientCall;
use std::alloc::Global;
use txn_commit::Plans;
use txn_core::TransactionOptions;
use txn_kv::NoMemory;
use txn_region::{ApiV1TxnCodec, ApiV2TxnCodec, Codec, PdRpcClient};

/// A client of the cluster of id 0. It lends its `pd` to the calls that it makes.
pub struct Client<Cod: Codec> {
    pd: PdRpcClient<Cod>,
    alloc: Global,
}

impl<Cod: Codec> Drop for Client<Cod> {
    fn drop(self) {
        let Client { pd, alloc: _ } = self;
        drop(pd);
    }
}

impl Client<ApiV1TxnCodec> {
    /// A client of the first version of the api, connected just now, at `now` milliseconds. Takes no memory.
    pub fn new(alloc: Global, now: u64) -> Client<ApiV1TxnCodec>
        ensures { IsNewPd (record {}) now result.pd }
    {
        Client::new_with_codec(alloc, ApiV1TxnCodec {}, now)
    }
}

impl Client<ApiV2TxnCodec> {
    /// A client of the second version of the api, in keyspace 0, connected just now. Takes no memory.
    pub fn new_with_config_v2(alloc: Global, now: u64) -> Client<ApiV2TxnCodec>
        ensures { IsNewPd (record { _keyspace_id = 0 }) now result.pd }
    {
        Client::new_with_codec(alloc, ApiV2TxnCodec::new(0), now)
    }
}

impl<Cod: Codec> Client<Cod> {
    /// A client whose requests this codec encodes, connected just now. Takes no memory.
    pub fn new_with_codec(alloc: Global, codec: Cod, now: u64) -> Client<Cod>
        ensures { IsNewPd codec now result.pd }
    {
        Client {
            pd: PdRpcClient::new(alloc, 0, now, true, codec),
            alloc,
        }
    }

    /// What its calls, and those of its transactions, are lent.
    pub fn pd(&mut self) -> &mut PdRpcClient<Cod>
        ensures* lent { sem 𝓛 (lends_pd Cod.row self.entry result) }
        ensures value { result.now ≡ self.old.pd }
    {
        &mut self.pd
    }

    /// A call that begins an optimistic transaction with the usual options.
    pub fn begin_optimistic<P>(&self) -> Result<ClientCall<PdRpcClient<Cod>, P>, NoMemory>
    where
        P: Plans,
        ensures new { IfOk result (λ call. (options : Options) × AreDefault kinds.Optimistic usual_retries options × IsNewCall (wants.Transaction options) call) }
        ensures unbegun { IfOk result (λ call. IsUnbegun called call) }
    {
        self.begin_with_options(TransactionOptions::new_optimistic())
    }

    /// A call that begins a transaction with these options.
    pub fn begin_with_options<P>(
        &self,
        options: TransactionOptions,
    ) -> Result<ClientCall<PdRpcClient<Cod>, P>, NoMemory>
    where
        P: Plans,
        ensures new { IfOk result (λ call. IsNewCall (wants.Transaction options) call) }
        ensures unbegun { IfOk result (λ call. IsUnbegun called call) }
    {
        Ok(ClientCall::begin(self.alloc, options))
    }

    /// A call for a timestamp of now.
    pub fn current_timestamp<P>(&self) -> Result<ClientCall<PdRpcClient<Cod>, P>, NoMemory>
    where
        P: Plans,
        ensures new { IfOk result (λ call. IsNewCall wants.Timestamp call) }
        ensures unbegun { IfOk result (λ call. IsUnbegun called call) }
    {
        Ok(ClientCall::timestamp(self.alloc))
    }
}
