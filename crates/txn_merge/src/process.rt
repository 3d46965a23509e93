ghost use Rattle.std.specs.Prelude.{◌≡◌, Result, Ok};
ghost use Rattle.txn_kv.specs.declared.errors.Error.{Error};
ghost use Rattle.txn_merge.specs.Processed.{at_ok, value_in};
ghost use Rattle.txn_merge.specs.Status.{status_in};

use crate::transaction_status::TransactionStatus;
use txn_kv::{
    CheckTxnStatusResponse, CleanupResponse, Error, GetResponse, NoMemory, Result, TryClone,
    TxnHeartBeatResponse, Value,
};

/// Makes one answer into another.
pub trait Process<In>: Sized {
    type Out;

    ghost processes: { Self → Result In Error → Result Self.Out Error → Type 0 };

    fn process(&self, input: Result<In>) -> Result<Self::Out>
        ensures { processes self.now input result };
}

/// Takes what its caller asked for out of a reply. An error stays as it is.
#[derive(Clone, Copy, Debug)]
pub struct DefaultProcessor;

impl TryClone for DefaultProcessor {
    fn try_clone(&self) -> std::result::Result<DefaultProcessor, NoMemory> {
        Ok(DefaultProcessor)
    }
}

/// The value, or none where the reply says that there is none.
impl Process<GetResponse> for DefaultProcessor {
    type Out = Option<Value>;

    ghost processes = { λ _ input result. result ≡ at_ok (λ reply. Ok (value_in reply)) input };

    fn process(&self, input: Result<GetResponse>) -> Result<Option<Value>>
        ensures { result ≡ at_ok (λ reply. Ok (value_in reply)) input }
    {
        let reply = input?;
        if reply.not_found {
            Ok(None)
        } else {
            Ok(Some(reply.into_value()))
        }
    }
}

/// The commit version, 0 where the start is rolled back.
impl Process<CleanupResponse> for DefaultProcessor {
    type Out = u64;

    ghost processes = { λ _ input result. result ≡ at_ok (λ reply. Ok reply.commit_version) input };

    fn process(&self, input: Result<CleanupResponse>) -> Result<u64>
        ensures { result ≡ at_ok (λ reply. Ok reply.commit_version) input }
    {
        Ok(input?.commit_version)
    }
}

/// The time to live, in milliseconds.
impl Process<TxnHeartBeatResponse> for DefaultProcessor {
    type Out = u64;

    ghost processes = { λ _ input result. result ≡ at_ok (λ reply. Ok reply.lock_ttl) input };

    fn process(&self, input: Result<TxnHeartBeatResponse>) -> Result<u64>
        ensures { result ≡ at_ok (λ reply. Ok reply.lock_ttl) input }
    {
        Ok(input?.lock_ttl)
    }
}

/// The status, or `OddStatus`.
impl Process<CheckTxnStatusResponse> for DefaultProcessor {
    type Out = TransactionStatus;

    ghost processes = { λ _ input result. result ≡ at_ok status_in input };

    fn process(&self, input: Result<CheckTxnStatusResponse>) -> Result<TransactionStatus>
        ensures { result ≡ at_ok status_in input }
    {
        TransactionStatus::from_response(input?)
    }
}
