ghost use Rattle.std.specs.Prelude.{◌≡◌, IfOk};
ghost use Rattle.txn_kv.specs.Request.{with_api_version};
ghost use Rattle.txn_kv.specs.declared.message.ApiVersion.TheVariants as version;

use txn_kv::{ApiVersion, NoMemory, TryClone};
use txn_request::KvRequest;

/// How requests are encoded before they are sent to a store.
pub trait Codec: Drop {
    ghost use Rattle.txn_kv.specs.declared.request.Request.{Request};

    // the request as it is sent
    ghost encoded: { Self → Request → Request };

    fn encode_request<R: KvRequest>(&self, req: &mut R)
        ensures { R.request_of req.new ≡ encoded self.now (R.request_of req.old) };
}

/// The first version of the api, for transactions: requests stay as they are.
#[derive(Clone, Default, Drop)]
pub struct ApiV1TxnCodec {}

impl Codec for ApiV1TxnCodec {
    ghost encoded = { λ _ request. request };

    fn encode_request<R: KvRequest>(&self, _req: &mut R) {}
}

/// The first version of the api, for keys that no transaction writes: requests stay as they are.
#[derive(Clone, Default, Drop)]
pub struct ApiV1RawCodec {}

impl Codec for ApiV1RawCodec {
    ghost encoded = { λ _ request. request };

    fn encode_request<R: KvRequest>(&self, _req: &mut R) {}
}

/// The second version of the api, for transactions in a keyspace.
#[derive(Clone, Drop)]
pub struct ApiV2TxnCodec {
    _keyspace_id: u32,
}

impl ApiV2TxnCodec {
    pub fn new(keyspace_id: u32) -> ApiV2TxnCodec
        ensures { result ≡ record { _keyspace_id = keyspace_id } }
    {
        ApiV2TxnCodec {
            _keyspace_id: keyspace_id,
        }
    }
}

impl Codec for ApiV2TxnCodec {
    ghost encoded = { λ _ request. with_api_version version.V2 request };

    fn encode_request<R: KvRequest>(&self, req: &mut R) {
        req.set_api_version(ApiVersion::V2);
    }
}

/// A request that a codec has encoded, so that no other is sent by mistake.
#[derive(Drop)]
pub struct EncodedRequest<R> {
    pub inner: R,
}

impl<R: KvRequest> EncodedRequest<R> {
    /// Takes no memory.
    pub fn new<C: Codec>(req: R, codec: &C) -> EncodedRequest<R>
        ensures { R.request_of result.inner ≡ C.encoded codec.now (R.request_of req) }
    {
        let mut inner = req;
        codec.encode_request(&mut inner);
        EncodedRequest { inner }
    }
}

impl<R: TryClone> EncodedRequest<R> {
    /// The same request, in new memory.
    pub fn try_clone(&self) -> Result<EncodedRequest<R>, NoMemory>
        ensures { IfOk result (λ copy. copy ≡ self.now) }
    {
        Ok(EncodedRequest {
            inner: self.inner.try_clone()?,
        })
    }
}
