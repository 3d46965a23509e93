//! Each type of this crate can move between threads.

use crate::arrival::Arrival;
use crate::backoff::Backoff;
use crate::bound_range::BoundRange;
use crate::errors::{Error, Internal};
use crate::items::{Items, Value};
use crate::key::Key;
use crate::kvpair::KvPair;
use crate::look::Look;
use crate::memory::NoMemory;
use crate::message::{KeyError, LockInfo, Mutation, PbPair, Region, RegionErr, StoreMeta};
use crate::outbox::{Errand, Outbox};
use crate::progress::Progress;
use crate::query::{PdAnswer, PdQuery};
use crate::region::{RegionVerId, RegionWithLeader};
use crate::reply::Reply;
use crate::request::Request;
use crate::text::Text;
use crate::ticket::{Target, Ticket};
use crate::timestamp::Timestamp;
use std::marker::Send;

/// Accepts the types that can move between threads, and no other.
pub fn can_move<T: Send>() {}

/// The types of this crate do.
pub fn values_can_move() {
    can_move::<Key>();
    can_move::<Value>();
    can_move::<Text>();
    can_move::<KvPair>();
    can_move::<BoundRange>();
    can_move::<Timestamp>();
    can_move::<Backoff>();
    can_move::<RegionVerId>();
    can_move::<RegionWithLeader>();
    can_move::<Target>();
    can_move::<Ticket>();
    can_move::<NoMemory>();
    can_move::<Internal>();
    can_move::<Error>();
}

/// The messages do.
pub fn messages_can_move() {
    can_move::<Mutation>();
    can_move::<Region>();
    can_move::<StoreMeta>();
    can_move::<LockInfo>();
    can_move::<KeyError>();
    can_move::<RegionErr>();
    can_move::<Items<LockInfo>>();
    can_move::<Items<PbPair>>();
    can_move::<Request>();
    can_move::<Reply>();
}

/// What a call hands out, and what it is answered, does.
pub fn progress_can_move() {
    can_move::<Arrival>();
    can_move::<Errand>();
    can_move::<Outbox>();
    can_move::<PdQuery>();
    can_move::<PdAnswer>();
    can_move::<Look<RegionWithLeader>>();
    can_move::<Progress<PdAnswer>>();
}
