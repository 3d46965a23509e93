//! The plan of a case.
ghost use Rattle.std.specs.Prelude.{IsSome};

use crate::client::{Client, everywhere};
use crate::line::Line;
use crate::requests::{commit, destroy, get, prewrite};
use case_words::{flag, number, small, word};
use std::alloc::Global;
use txn_builder::PlanBuilder;
use txn_either::Either;
use txn_kv::{
    Backoff, CommitRequest, GetRequest, GetResponse, OPTIMISTIC_BACKOFF, PrewriteRequest,
    UnsafeDestroyRangeRequest,
};
use txn_merge::CollectSingle;
use txn_multi::RetryableMultiRegion;
use txn_plan::{Dispatch, ExtractError, MergeResponse};
use txn_region::{ApiV1TxnCodec, EncodedRequest};
use txn_resolve::ResolveLock;
use txn_stores::RetryableAllStores;

type Sent = Dispatch<GetRequest>;

type Getting = RetryableMultiRegion<Sent>;

pub enum Story {
    None,
    Sent(Line<Sent>),
    Extracting(Line<ExtractError<Sent>>),
    Resolving(Line<ResolveLock<Sent>>),
    Either(Line<Either<Sent, ExtractError<Sent>>>),
    Prewriting(Line<ResolveLock<Dispatch<PrewriteRequest>>>),
    Getting(Line<Getting>),
    Committing(Line<RetryableMultiRegion<Dispatch<CommitRequest>>>),
    Destroying(Line<RetryableAllStores<Dispatch<UnsafeDestroyRangeRequest>>>),
    Merging(Line<MergeResponse<Getting, GetResponse, CollectSingle>>),
}

impl Drop for Story {
    fn drop(self) {
        match self {
            Story::None => {}
            Story::Sent(line) => drop(line),
            Story::Extracting(line) => drop(line),
            Story::Resolving(line) => drop(line),
            Story::Either(line) => drop(line),
            Story::Prewriting(line) => drop(line),
            Story::Getting(line) => drop(line),
            Story::Committing(line) => drop(line),
            Story::Destroying(line) => drop(line),
            Story::Merging(line) => drop(line),
        }
    }
}

/// A Get of a key, to a store: `STORE KEY`.
fn sent(alloc: Global, words: &[&str]) -> Sent
    ensures { IsSome result.store }
{
    Dispatch::new(get(alloc, words, 2), Some(number(words, 1)))
}

fn dispatch(alloc: Global, words: &[&str]) -> Story {
    Story::Sent(Line::new(alloc, sent(alloc, words)))
}

fn extract(alloc: Global, words: &[&str]) -> Story {
    let plan = ExtractError::new(alloc, sent(alloc, words));
    Story::Extracting(Line::new(alloc, plan))
}

fn resolve(alloc: Global, words: &[&str]) -> Story {
    let plan = ResolveLock::new(alloc, sent(alloc, words), Backoff::no_backoff());
    Story::Resolving(Line::new(alloc, plan))
}

fn resolve_prewrite(alloc: Global, words: &[&str]) -> Story {
    let inner = Dispatch::new(prewrite(alloc), Some(number(words, 1)));
    let plan = ResolveLock::new(alloc, inner, OPTIMISTIC_BACKOFF);
    Story::Prewriting(Line::new(alloc, plan))
}

fn first(alloc: Global, words: &[&str]) -> Story {
    let plan = Either::First(sent(alloc, words));
    Story::Either(Line::new(alloc, plan))
}

fn second(alloc: Global, words: &[&str]) -> Story {
    let plan = Either::Second(ExtractError::new(alloc, sent(alloc, words)));
    Story::Either(Line::new(alloc, plan))
}

fn getting(alloc: Global, words: &[&str]) -> Story {
    let inner = Dispatch::new(get(alloc, words, 1), None);
    let plan = RetryableMultiRegion::new(alloc, inner, Backoff::no_backoff(), false);
    Story::Getting(Line::new(alloc, plan))
}

/// A millisecond, so often.
fn backoff(words: &[&str]) -> Backoff {
    Backoff::no_jitter_backoff(1, 1, small(words, 1))
}

fn committing(alloc: Global, words: &[&str]) -> Story {
    let inner = Dispatch::new(commit(alloc, words, 3), None);
    let keep = flag(words, 2, "keep");
    let plan = RetryableMultiRegion::new(alloc, inner, backoff(words), keep);
    Story::Committing(Line::new(alloc, plan))
}

fn destroying(alloc: Global, words: &[&str]) -> Story {
    let inner = Dispatch::new(destroy(alloc), None);
    let plan = RetryableAllStores::new(alloc, inner, backoff(words));
    Story::Destroying(Line::new(alloc, plan))
}

fn encoded(alloc: Global, words: &[&str], at: usize) -> EncodedRequest<GetRequest> {
    EncodedRequest::new(get(alloc, words, at), &ApiV1TxnCodec {})
}

fn build_one(alloc: Global, words: &[&str]) -> Story {
    let builder = PlanBuilder::new(alloc, encoded(alloc, words, 3));
    let store = everywhere(alloc, number(words, 1), number(words, 2));
    match builder.single_region_with_store(store) {
        Ok(aimed) => Story::Sent(Line::new(alloc, aimed.plan())),
        Err(_) => Story::None,
    }
}

fn build_multi(alloc: Global, words: &[&str]) -> Story {
    let builder = PlanBuilder::new(alloc, encoded(alloc, words, 1));
    let plan = builder.retry_multi_region(Backoff::no_backoff()).plan();
    Story::Getting(Line::new(alloc, plan))
}

fn build_merged(alloc: Global, words: &[&str]) -> Story {
    let builder = PlanBuilder::new(alloc, encoded(alloc, words, 1));
    let builder = builder.retry_multi_region(Backoff::no_backoff());
    let plan = builder.merge(CollectSingle).plan();
    Story::Merging(Line::new(alloc, plan))
}

impl Story {
    /// The plan of a row.
    pub fn new(alloc: Global, words: &[&str]) -> Story {
        match word(words, 0) {
            "dispatch" => dispatch(alloc, words),
            "extract" => extract(alloc, words),
            "resolve" => resolve(alloc, words),
            "resolve_prewrite" => resolve_prewrite(alloc, words),
            "first" => first(alloc, words),
            "second" => second(alloc, words),
            "get" => getting(alloc, words),
            "commit" => committing(alloc, words),
            "destroy" => destroying(alloc, words),
            "build_one" => build_one(alloc, words),
            "build_multi" => build_multi(alloc, words),
            "build_merged" => build_merged(alloc, words),
            _ => Story::None,
        }
    }

    pub fn tell(&mut self, rt: &HostRuntime, pd: &mut Client, words: &[&str]) {
        match self {
            Story::None => {}
            Story::Sent(line) => line.tell(rt, pd, words),
            Story::Extracting(line) => line.tell(rt, pd, words),
            Story::Resolving(line) => line.tell(rt, pd, words),
            Story::Either(line) => line.tell(rt, pd, words),
            Story::Prewriting(line) => line.tell(rt, pd, words),
            Story::Getting(line) => line.tell(rt, pd, words),
            Story::Committing(line) => line.tell(rt, pd, words),
            Story::Destroying(line) => line.tell(rt, pd, words),
            Story::Merging(line) => line.tell(rt, pd, words),
        }
    }

    pub fn posted(&self, rt: &HostRuntime) {
        match self {
            Story::None => {}
            Story::Sent(line) => line.posted(rt),
            Story::Extracting(line) => line.posted(rt),
            Story::Resolving(line) => line.posted(rt),
            Story::Either(line) => line.posted(rt),
            Story::Prewriting(line) => line.posted(rt),
            Story::Getting(line) => line.posted(rt),
            Story::Committing(line) => line.posted(rt),
            Story::Destroying(line) => line.posted(rt),
            Story::Merging(line) => line.posted(rt),
        }
    }
}
