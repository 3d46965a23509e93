ghost use Rattle.std.specs.Prelude.{◌≡◌, ◌≢◌, MatchResult};
ghost use Rattle.txn_kv.specs.Request.{with_context, with_api_version};
ghost use Rattle.txn_kv.specs.declared.request.Request.{Request};
ghost use Rattle.txn_kv.specs.declared.reply.Reply.{Reply};
ghost use Rattle.txn_request.specs.Defaults.{wrong_reply};

use txn_kv::request::{keep_version, set_version};
use txn_kv::{
    ApiVersion, BatchGetRequest, BatchGetResponse, BatchRollbackRequest, BatchRollbackResponse,
    CheckSecondaryLocksRequest, CheckSecondaryLocksResponse, CheckTxnStatusRequest,
    CheckTxnStatusResponse, CleanupRequest, CleanupResponse, CommitRequest, CommitResponse,
    Context, Error, GetAllStoresRequest, GetAllStoresResponse, GetRegionByIdRequest,
    GetRegionRequest, GetRegionResponse, GetRequest, GetResponse, GetStoreRequest,
    GetStoreResponse, Internal, MembersRequest, MembersResponse, PessimisticLockRequest,
    PessimisticLockResponse, PessimisticRollbackRequest, PessimisticRollbackResponse,
    PrewriteRequest, PrewriteResponse, Reply, Request, ResolveLockRequest, ResolveLockResponse,
    ScanLockRequest, ScanLockResponse, ScanRequest, ScanResponse, TsoRequest, TsoResponse,
    TxnHeartBeatRequest, TxnHeartBeatResponse, UnsafeDestroyRangeRequest,
    UnsafeDestroyRangeResponse, UpdateGcSafePointRequest, UpdateGcSafePointResponse,
};

/// A request of one kind, and the kind of its reply.
pub trait KvRequest: Sized {
    type Response;

    ghost request_of: { Self → Request };

    ghost reply_of: { Self.Response → Reply };

    /// The request as one of many kinds.
    fn into_request(self) -> Request
        ensures { result ≡ request_of self };

    /// Sets the context of a request to a store, and keeps the api version that stood.
    fn set_context(&mut self, context: Context)
        ensures { request_of self.new ≡ with_context context (request_of self.old) };

    /// Sets the api version of a request to a store, in a default context where none stands.
    fn set_api_version(&mut self, api_version: ApiVersion)
        ensures { request_of self.new ≡ with_api_version api_version (request_of self.old) };

    /// The reply, if it is of this request's kind.
    fn response(reply: Reply) -> Result<Self::Response, Error>
        ensures { MatchResult result (λ response. reply ≡ reply_of response) (λ error. (error ≡ wrong_reply) × ((response : Self.Response) → reply ≢ reply_of response)) };
}

/// Why a reply of another kind is no answer.
fn refused(_reply: Reply) -> Error
    ensures { result ≡ wrong_reply }
{
    Error::InternalError {
        what: Internal::WrongReply,
    }
}

impl KvRequest for GetRequest {
    type Response = GetResponse;

    ghost request_of = { λ request. Request.Get request };

    ghost reply_of = { λ response. Reply.Get response };

    fn into_request(self) -> Request {
        Request::Get(self)
    }

    fn set_context(&mut self, context: Context) {
        keep_version(&mut self.context, context)
    }

    fn set_api_version(&mut self, api_version: ApiVersion) {
        set_version(&mut self.context, api_version)
    }

    fn response(reply: Reply) -> Result<GetResponse, Error> {
        match reply.into_get() {
            Ok(response) => Ok(response),
            Err(other) => Err(refused(other)),
        }
    }
}

impl KvRequest for BatchGetRequest {
    type Response = BatchGetResponse;

    ghost request_of = { λ request. Request.BatchGet request };

    ghost reply_of = { λ response. Reply.BatchGet response };

    fn into_request(self) -> Request {
        Request::BatchGet(self)
    }

    fn set_context(&mut self, context: Context) {
        keep_version(&mut self.context, context)
    }

    fn set_api_version(&mut self, api_version: ApiVersion) {
        set_version(&mut self.context, api_version)
    }

    fn response(reply: Reply) -> Result<BatchGetResponse, Error> {
        match reply.into_batch_get() {
            Ok(response) => Ok(response),
            Err(other) => Err(refused(other)),
        }
    }
}

impl KvRequest for ScanRequest {
    type Response = ScanResponse;

    ghost request_of = { λ request. Request.Scan request };

    ghost reply_of = { λ response. Reply.Scan response };

    fn into_request(self) -> Request {
        Request::Scan(self)
    }

    fn set_context(&mut self, context: Context) {
        keep_version(&mut self.context, context)
    }

    fn set_api_version(&mut self, api_version: ApiVersion) {
        set_version(&mut self.context, api_version)
    }

    fn response(reply: Reply) -> Result<ScanResponse, Error> {
        match reply.into_scan() {
            Ok(response) => Ok(response),
            Err(other) => Err(refused(other)),
        }
    }
}

impl KvRequest for PrewriteRequest {
    type Response = PrewriteResponse;

    ghost request_of = { λ request. Request.Prewrite request };

    ghost reply_of = { λ response. Reply.Prewrite response };

    fn into_request(self) -> Request {
        Request::Prewrite(self)
    }

    fn set_context(&mut self, context: Context) {
        keep_version(&mut self.context, context)
    }

    fn set_api_version(&mut self, api_version: ApiVersion) {
        set_version(&mut self.context, api_version)
    }

    fn response(reply: Reply) -> Result<PrewriteResponse, Error> {
        match reply.into_prewrite() {
            Ok(response) => Ok(response),
            Err(other) => Err(refused(other)),
        }
    }
}

impl KvRequest for CommitRequest {
    type Response = CommitResponse;

    ghost request_of = { λ request. Request.Commit request };

    ghost reply_of = { λ response. Reply.Commit response };

    fn into_request(self) -> Request {
        Request::Commit(self)
    }

    fn set_context(&mut self, context: Context) {
        keep_version(&mut self.context, context)
    }

    fn set_api_version(&mut self, api_version: ApiVersion) {
        set_version(&mut self.context, api_version)
    }

    fn response(reply: Reply) -> Result<CommitResponse, Error> {
        match reply.into_commit() {
            Ok(response) => Ok(response),
            Err(other) => Err(refused(other)),
        }
    }
}

impl KvRequest for CleanupRequest {
    type Response = CleanupResponse;

    ghost request_of = { λ request. Request.Cleanup request };

    ghost reply_of = { λ response. Reply.Cleanup response };

    fn into_request(self) -> Request {
        Request::Cleanup(self)
    }

    fn set_context(&mut self, context: Context) {
        keep_version(&mut self.context, context)
    }

    fn set_api_version(&mut self, api_version: ApiVersion) {
        set_version(&mut self.context, api_version)
    }

    fn response(reply: Reply) -> Result<CleanupResponse, Error> {
        match reply.into_cleanup() {
            Ok(response) => Ok(response),
            Err(other) => Err(refused(other)),
        }
    }
}

impl KvRequest for BatchRollbackRequest {
    type Response = BatchRollbackResponse;

    ghost request_of = { λ request. Request.BatchRollback request };

    ghost reply_of = { λ response. Reply.BatchRollback response };

    fn into_request(self) -> Request {
        Request::BatchRollback(self)
    }

    fn set_context(&mut self, context: Context) {
        keep_version(&mut self.context, context)
    }

    fn set_api_version(&mut self, api_version: ApiVersion) {
        set_version(&mut self.context, api_version)
    }

    fn response(reply: Reply) -> Result<BatchRollbackResponse, Error> {
        match reply.into_batch_rollback() {
            Ok(response) => Ok(response),
            Err(other) => Err(refused(other)),
        }
    }
}

impl KvRequest for PessimisticRollbackRequest {
    type Response = PessimisticRollbackResponse;

    ghost request_of = { λ request. Request.PessimisticRollback request };

    ghost reply_of = { λ response. Reply.PessimisticRollback response };

    fn into_request(self) -> Request {
        Request::PessimisticRollback(self)
    }

    fn set_context(&mut self, context: Context) {
        keep_version(&mut self.context, context)
    }

    fn set_api_version(&mut self, api_version: ApiVersion) {
        set_version(&mut self.context, api_version)
    }

    fn response(reply: Reply) -> Result<PessimisticRollbackResponse, Error> {
        match reply.into_pessimistic_rollback() {
            Ok(response) => Ok(response),
            Err(other) => Err(refused(other)),
        }
    }
}

impl KvRequest for PessimisticLockRequest {
    type Response = PessimisticLockResponse;

    ghost request_of = { λ request. Request.PessimisticLock request };

    ghost reply_of = { λ response. Reply.PessimisticLock response };

    fn into_request(self) -> Request {
        Request::PessimisticLock(self)
    }

    fn set_context(&mut self, context: Context) {
        keep_version(&mut self.context, context)
    }

    fn set_api_version(&mut self, api_version: ApiVersion) {
        set_version(&mut self.context, api_version)
    }

    fn response(reply: Reply) -> Result<PessimisticLockResponse, Error> {
        match reply.into_pessimistic_lock() {
            Ok(response) => Ok(response),
            Err(other) => Err(refused(other)),
        }
    }
}

impl KvRequest for ResolveLockRequest {
    type Response = ResolveLockResponse;

    ghost request_of = { λ request. Request.ResolveLock request };

    ghost reply_of = { λ response. Reply.ResolveLock response };

    fn into_request(self) -> Request {
        Request::ResolveLock(self)
    }

    fn set_context(&mut self, context: Context) {
        keep_version(&mut self.context, context)
    }

    fn set_api_version(&mut self, api_version: ApiVersion) {
        set_version(&mut self.context, api_version)
    }

    fn response(reply: Reply) -> Result<ResolveLockResponse, Error> {
        match reply.into_resolve_lock() {
            Ok(response) => Ok(response),
            Err(other) => Err(refused(other)),
        }
    }
}

impl KvRequest for ScanLockRequest {
    type Response = ScanLockResponse;

    ghost request_of = { λ request. Request.ScanLock request };

    ghost reply_of = { λ response. Reply.ScanLock response };

    fn into_request(self) -> Request {
        Request::ScanLock(self)
    }

    fn set_context(&mut self, context: Context) {
        keep_version(&mut self.context, context)
    }

    fn set_api_version(&mut self, api_version: ApiVersion) {
        set_version(&mut self.context, api_version)
    }

    fn response(reply: Reply) -> Result<ScanLockResponse, Error> {
        match reply.into_scan_lock() {
            Ok(response) => Ok(response),
            Err(other) => Err(refused(other)),
        }
    }
}

impl KvRequest for TxnHeartBeatRequest {
    type Response = TxnHeartBeatResponse;

    ghost request_of = { λ request. Request.TxnHeartBeat request };

    ghost reply_of = { λ response. Reply.TxnHeartBeat response };

    fn into_request(self) -> Request {
        Request::TxnHeartBeat(self)
    }

    fn set_context(&mut self, context: Context) {
        keep_version(&mut self.context, context)
    }

    fn set_api_version(&mut self, api_version: ApiVersion) {
        set_version(&mut self.context, api_version)
    }

    fn response(reply: Reply) -> Result<TxnHeartBeatResponse, Error> {
        match reply.into_txn_heart_beat() {
            Ok(response) => Ok(response),
            Err(other) => Err(refused(other)),
        }
    }
}

impl KvRequest for CheckTxnStatusRequest {
    type Response = CheckTxnStatusResponse;

    ghost request_of = { λ request. Request.CheckTxnStatus request };

    ghost reply_of = { λ response. Reply.CheckTxnStatus response };

    fn into_request(self) -> Request {
        Request::CheckTxnStatus(self)
    }

    fn set_context(&mut self, context: Context) {
        keep_version(&mut self.context, context)
    }

    fn set_api_version(&mut self, api_version: ApiVersion) {
        set_version(&mut self.context, api_version)
    }

    fn response(reply: Reply) -> Result<CheckTxnStatusResponse, Error> {
        match reply.into_check_txn_status() {
            Ok(response) => Ok(response),
            Err(other) => Err(refused(other)),
        }
    }
}

impl KvRequest for CheckSecondaryLocksRequest {
    type Response = CheckSecondaryLocksResponse;

    ghost request_of = { λ request. Request.CheckSecondaryLocks request };

    ghost reply_of = { λ response. Reply.CheckSecondaryLocks response };

    fn into_request(self) -> Request {
        Request::CheckSecondaryLocks(self)
    }

    fn set_context(&mut self, context: Context) {
        keep_version(&mut self.context, context)
    }

    fn set_api_version(&mut self, api_version: ApiVersion) {
        set_version(&mut self.context, api_version)
    }

    fn response(reply: Reply) -> Result<CheckSecondaryLocksResponse, Error> {
        match reply.into_check_secondary_locks() {
            Ok(response) => Ok(response),
            Err(other) => Err(refused(other)),
        }
    }
}

impl KvRequest for UnsafeDestroyRangeRequest {
    type Response = UnsafeDestroyRangeResponse;

    ghost request_of = { λ request. Request.UnsafeDestroyRange request };

    ghost reply_of = { λ response. Reply.UnsafeDestroyRange response };

    fn into_request(self) -> Request {
        Request::UnsafeDestroyRange(self)
    }

    fn set_context(&mut self, context: Context) {
        keep_version(&mut self.context, context)
    }

    fn set_api_version(&mut self, api_version: ApiVersion) {
        set_version(&mut self.context, api_version)
    }

    fn response(reply: Reply) -> Result<UnsafeDestroyRangeResponse, Error> {
        match reply.into_unsafe_destroy_range() {
            Ok(response) => Ok(response),
            Err(other) => Err(refused(other)),
        }
    }
}

impl KvRequest for GetRegionRequest {
    type Response = GetRegionResponse;

    ghost request_of = { λ request. Request.GetRegion request };

    ghost reply_of = { λ response. Reply.GetRegion response };

    fn into_request(self) -> Request {
        Request::GetRegion(self)
    }

    fn set_context(&mut self, _context: Context) {}

    fn set_api_version(&mut self, _api_version: ApiVersion) {}

    fn response(reply: Reply) -> Result<GetRegionResponse, Error> {
        match reply.into_get_region() {
            Ok(response) => Ok(response),
            Err(other) => Err(refused(other)),
        }
    }
}

impl KvRequest for GetRegionByIdRequest {
    type Response = GetRegionResponse;

    ghost request_of = { λ request. Request.GetRegionById request };

    ghost reply_of = { λ response. Reply.GetRegionById response };

    fn into_request(self) -> Request {
        Request::GetRegionById(self)
    }

    fn set_context(&mut self, _context: Context) {}

    fn set_api_version(&mut self, _api_version: ApiVersion) {}

    fn response(reply: Reply) -> Result<GetRegionResponse, Error> {
        match reply.into_get_region_by_id() {
            Ok(response) => Ok(response),
            Err(other) => Err(refused(other)),
        }
    }
}

impl KvRequest for GetStoreRequest {
    type Response = GetStoreResponse;

    ghost request_of = { λ request. Request.GetStore request };

    ghost reply_of = { λ response. Reply.GetStore response };

    fn into_request(self) -> Request {
        Request::GetStore(self)
    }

    fn set_context(&mut self, _context: Context) {}

    fn set_api_version(&mut self, _api_version: ApiVersion) {}

    fn response(reply: Reply) -> Result<GetStoreResponse, Error> {
        match reply.into_get_store() {
            Ok(response) => Ok(response),
            Err(other) => Err(refused(other)),
        }
    }
}

impl KvRequest for GetAllStoresRequest {
    type Response = GetAllStoresResponse;

    ghost request_of = { λ request. Request.GetAllStores request };

    ghost reply_of = { λ response. Reply.GetAllStores response };

    fn into_request(self) -> Request {
        Request::GetAllStores(self)
    }

    fn set_context(&mut self, _context: Context) {}

    fn set_api_version(&mut self, _api_version: ApiVersion) {}

    fn response(reply: Reply) -> Result<GetAllStoresResponse, Error> {
        match reply.into_get_all_stores() {
            Ok(response) => Ok(response),
            Err(other) => Err(refused(other)),
        }
    }
}

impl KvRequest for UpdateGcSafePointRequest {
    type Response = UpdateGcSafePointResponse;

    ghost request_of = { λ request. Request.UpdateGcSafePoint request };

    ghost reply_of = { λ response. Reply.UpdateGcSafePoint response };

    fn into_request(self) -> Request {
        Request::UpdateGcSafePoint(self)
    }

    fn set_context(&mut self, _context: Context) {}

    fn set_api_version(&mut self, _api_version: ApiVersion) {}

    fn response(reply: Reply) -> Result<UpdateGcSafePointResponse, Error> {
        match reply.into_update_gc_safe_point() {
            Ok(response) => Ok(response),
            Err(other) => Err(refused(other)),
        }
    }
}

impl KvRequest for TsoRequest {
    type Response = TsoResponse;

    ghost request_of = { λ request. Request.Tso request };

    ghost reply_of = { λ response. Reply.Tso response };

    fn into_request(self) -> Request {
        Request::Tso(self)
    }

    fn set_context(&mut self, _context: Context) {}

    fn set_api_version(&mut self, _api_version: ApiVersion) {}

    fn response(reply: Reply) -> Result<TsoResponse, Error> {
        match reply.into_tso() {
            Ok(response) => Ok(response),
            Err(other) => Err(refused(other)),
        }
    }
}

impl KvRequest for MembersRequest {
    type Response = MembersResponse;

    ghost request_of = { λ request. Request.Members request };

    ghost reply_of = { λ response. Reply.Members response };

    fn into_request(self) -> Request {
        Request::Members(self)
    }

    fn set_context(&mut self, _context: Context) {}

    fn set_api_version(&mut self, _api_version: ApiVersion) {}

    fn response(reply: Reply) -> Result<MembersResponse, Error> {
        match reply.into_members() {
            Ok(response) => Ok(response),
            Err(other) => Err(refused(other)),
        }
    }
}
