//! Requests that are compared: those that the first path sends. All others are denied to be alike.
use crate::alike::Alike;
use txn_kv::{
    ApiVersion, Assertion, CommitRequest, Context, GetRegionRequest, GetStoreRequest, Mutation, Op,
    Peer, PrewriteRequest, RegionEpoch, Request, TsoRequest,
};
use txn_report::SentNote;

impl Alike for RegionEpoch {
    fn is_like(&self, other: &RegionEpoch) -> bool {
        self.conf_ver == other.conf_ver && self.version == other.version
    }
}

impl Alike for Peer {
    fn is_like(&self, other: &Peer) -> bool {
        self.id == other.id && self.store_id == other.store_id
    }
}

/// Of the first version of the api.
impl Alike for ApiVersion {
    fn is_like(&self, other: &ApiVersion) -> bool {
        matches!((self, other), (ApiVersion::V1, ApiVersion::V1))
    }
}

impl Alike for Context {
    fn is_like(&self, other: &Context) -> bool {
        self.region_id == other.region_id
            && self.region_epoch.is_like(&other.region_epoch)
            && self.peer.is_like(&other.peer)
            && self.api_version.is_like(&other.api_version)
    }
}

/// Puts.
impl Alike for Op {
    fn is_like(&self, other: &Op) -> bool {
        matches!((self, other), (Op::Put, Op::Put))
    }
}

/// None.
impl Alike for Assertion {
    fn is_like(&self, other: &Assertion) -> bool {
        matches!((self, other), (Assertion::None, Assertion::None))
    }
}

impl Alike for Mutation {
    fn is_like(&self, other: &Mutation) -> bool {
        self.op.is_like(&other.op)
            && self.key.is_like(&other.key)
            && self.value.is_like(&other.value)
            && self.assertion.is_like(&other.assertion)
    }
}

impl Alike for PrewriteRequest {
    fn is_like(&self, other: &PrewriteRequest) -> bool {
        self.context.is_like(&other.context)
            && self.mutations.is_like(&other.mutations)
            && self.primary_lock.is_like(&other.primary_lock)
            && self.start_version == other.start_version
            && self.lock_ttl == other.lock_ttl
            && self.txn_size == other.txn_size
            && self.for_update_ts == other.for_update_ts
            && self.is_pessimistic_lock.is_like(&other.is_pessimistic_lock)
            && self.use_async_commit.is_like(&other.use_async_commit)
            && self.try_one_pc.is_like(&other.try_one_pc)
            && self.secondaries.is_like(&other.secondaries)
    }
}

impl Alike for CommitRequest {
    fn is_like(&self, other: &CommitRequest) -> bool {
        self.context.is_like(&other.context)
            && self.keys.is_like(&other.keys)
            && self.start_version == other.start_version
            && self.commit_version == other.commit_version
    }
}

impl Alike for GetRegionRequest {
    fn is_like(&self, other: &GetRegionRequest) -> bool {
        self.region_key.is_like(&other.region_key)
    }
}

impl Alike for GetStoreRequest {
    fn is_like(&self, other: &GetStoreRequest) -> bool {
        self.store_id == other.store_id
    }
}

impl Alike for TsoRequest {
    fn is_like(&self, other: &TsoRequest) -> bool {
        self.count == other.count
    }
}

impl Alike for Request {
    fn is_like(&self, other: &Request) -> bool {
        match self {
            Request::Prewrite(one) => match other {
                Request::Prewrite(another) => one.is_like(another),
                _ => false,
            },
            Request::Commit(one) => match other {
                Request::Commit(another) => one.is_like(another),
                _ => false,
            },
            Request::GetRegion(one) => match other {
                Request::GetRegion(another) => one.is_like(another),
                _ => false,
            },
            Request::GetStore(one) => match other {
                Request::GetStore(another) => one.is_like(another),
                _ => false,
            },
            Request::Tso(one) => match other {
                Request::Tso(another) => one.is_like(another),
                _ => false,
            },
            _ => false,
        }
    }
}

impl Alike for SentNote {
    fn is_like(&self, other: &SentNote) -> bool {
        self.ticket.is_like(&other.ticket)
            && self.at == other.at
            && self.to.is_like(&other.to)
            && self.request.is_like(&other.request)
            && self.askers.is_like(&other.askers)
    }
}
