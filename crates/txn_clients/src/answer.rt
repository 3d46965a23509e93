ghost use Rattle.std.specs.Prelude.{◌≡◌, Ok};
ghost use Rattle.txn_clients.specs.Rows.{answer_in};
ghost use Rattle.txn_clients.specs.declared.answer.Answer.TheVariants as answers;
ghost use Rattle.txn_history.specs.Turn.{turn_of};

use txn_client::ClientAnswer;
use txn_core::TxnAnswer;
use txn_kv::Progress;
use txn_region::{ApiV1TxnCodec, PdRpcClient};

/// What the calls of a run look regions and stores up in.
pub type Pd = PdRpcClient<ApiV1TxnCodec>;

/// What the call of a line answers.
#[derive(Drop)]
pub enum Answer<P> {
    /// A timestamp, or a transaction that begins at one.
    Asked(txn_kv::Result<ClientAnswer<Pd, P>>),
    /// What came of what a line asked of a transaction.
    Called(txn_kv::Result<TxnAnswer<P>>),
}

impl<P> Answer<P> {
    /// The answer to a call of a client, once there is one.
    pub fn asked(progress: Progress<ClientAnswer<Pd, P>>) -> Option<Answer<P>>
        ensures { result ≡ answer_in answers.Asked (turn_of (Ok progress)) }
    {
        match progress {
            Progress::Waiting => None,
            Progress::Done(answer) => Some(Answer::Asked(answer)),
        }
    }

    /// The answer to a call of a transaction, once there is one.
    pub fn called(progress: Progress<TxnAnswer<P>>) -> Option<Answer<P>>
        ensures { result ≡ answer_in answers.Called (turn_of (Ok progress)) }
    {
        match progress {
            Progress::Waiting => None,
            Progress::Done(answer) => Some(Answer::Called(answer)),
        }
    }
}
