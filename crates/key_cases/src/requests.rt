//! Requests, as they are made of numbers, timestamps and ranges.
ghost use Rattle.txn_kv.specs.Timestamp.{HasVersion};

use case_words::{flag, key, keys, number, pairs, say, show, small, word};
use std::alloc::Global;
use std::ops::Bound;
use txn_kv::{
    ApiVersion, Assertion, BoundRange, Context, GetAllStoresRequest, GetRegionByIdRequest,
    GetRegionRequest, GetRequest, GetStoreRequest, Items, Key, MembersRequest, Mutation, NoMemory,
    Op, Request, Timestamp, TimestampExt, TsoRequest, TxnInfo, UpdateGcSafePointRequest,
};
use txn_request::{KvRequest, lowering, requests};

/// Shows the label, whether a copy is the same, and the copy.
fn made(rt: &HostRuntime, request: Request) {
    say(rt, &request.label());
    if let Ok(copy) = request.try_clone() {
        show(rt, &(copy == request));
        show(rt, &copy);
    }
}

/// Shows a request of one kind as one of many.
fn ask<R: KvRequest>(rt: &HostRuntime, request: R) {
    made(rt, request.into_request())
}

fn ask_made<R: KvRequest + Drop>(rt: &HostRuntime, request: Result<R, NoMemory>) {
    if let Ok(request) = request {
        ask(rt, request)
    }
}

fn time(words: &[&str], at: usize) -> Timestamp
    ensures { HasVersion result }
{
    Timestamp::from_version(number(words, at))
}

/// All behind the key at a place.
fn range(alloc: Global, words: &[&str], at: usize) -> BoundRange {
    BoundRange::new(Bound::Excluded(key(alloc, words, at)), Bound::Unbounded)
}

fn all_keys(alloc: Global, words: &[&str], from: usize) -> Items<Key> {
    Items::from_vec(keys(alloc, words, from))
}

/// Puts of the pairs from a place on.
fn puts(alloc: Global, words: &[&str], from: usize) -> Items<Mutation> {
    let mut mutations = Items::new(alloc);
    for pair in pairs(alloc, words, from) {
        let (key, value) = pair.into_parts();
        let _ = mutations.push(Mutation {
            op: Op::Put,
            key,
            value,
            assertion: Assertion::None,
        });
    }
    mutations
}

/// Keys that are asserted to be absent.
fn absent(alloc: Global, words: &[&str], from: usize) -> Vec<(Key, Assertion)> {
    let mut locks = Vec::new(alloc);
    for key in keys(alloc, words, from) {
        let _ = locks.push((key, Assertion::NotExist));
    }
    locks
}

/// `START COMMIT`.
fn infos(alloc: Global, words: &[&str]) -> Items<TxnInfo> {
    let mut infos = Items::new(alloc);
    let _ = infos.push(TxnInfo {
        txn: number(words, 2),
        status: number(words, 3),
    });
    infos
}

fn read(rt: &HostRuntime, words: &[&str]) {
    let alloc = rt.alloc();
    match word(words, 1) {
        "get" => ask(
            rt,
            lowering::new_get_request(key(alloc, words, 2), time(words, 3)),
        ),
        "batch_get" => {
            ask(
                rt,
                lowering::new_batch_get_request(all_keys(alloc, words, 3), time(words, 2)),
            )
        }
        "scan" => ask_made(
            rt,
            lowering::new_scan_request(
                alloc,
                range(alloc, words, 2),
                time(words, 3),
                number(words, 4),
                flag(words, 5, "keys"),
                flag(words, 6, "down"),
            ),
        ),
        "scan_lock" => ask_made(
            rt,
            lowering::new_scan_lock_request(
                alloc,
                range(alloc, words, 2),
                time(words, 3),
                small(words, 4),
            ),
        ),
        _ => write(rt, words),
    }
}

fn write(rt: &HostRuntime, words: &[&str]) {
    let alloc = rt.alloc();
    match word(words, 1) {
        "prewrite" => ask(
            rt,
            lowering::new_prewrite_request(
                alloc,
                puts(alloc, words, 5),
                key(alloc, words, 2),
                time(words, 3),
                number(words, 4),
            ),
        ),
        "prewrite_locked" => ask_made(
            rt,
            lowering::new_pessimistic_prewrite_request(
                alloc,
                puts(alloc, words, 6),
                key(alloc, words, 2),
                time(words, 3),
                number(words, 4),
                time(words, 5),
            ),
        ),
        "commit" => ask(
            rt,
            lowering::new_commit_request(all_keys(alloc, words, 4), time(words, 2), time(words, 3)),
        ),
        "cleanup" => ask(
            rt,
            requests::new_cleanup_request(key(alloc, words, 2), number(words, 3)),
        ),
        "destroy" => ask_made(
            rt,
            lowering::new_unsafe_destroy_range_request(alloc, range(alloc, words, 2)),
        ),
        _ => lock(rt, words),
    }
}

fn lock(rt: &HostRuntime, words: &[&str]) {
    let alloc = rt.alloc();
    match word(words, 1) {
        "lock" => ask_made(
            rt,
            lowering::new_pessimistic_lock_request(
                alloc,
                keys(alloc, words, 6),
                key(alloc, words, 2),
                time(words, 3),
                number(words, 4),
                time(words, 5),
                false,
            ),
        ),
        "lock_absent" => ask_made(
            rt,
            lowering::new_pessimistic_lock_request(
                alloc,
                absent(alloc, words, 6),
                key(alloc, words, 2),
                time(words, 3),
                number(words, 4),
                time(words, 5),
                true,
            ),
        ),
        "rollback" => ask(
            rt,
            lowering::new_batch_rollback_request(all_keys(alloc, words, 3), time(words, 2)),
        ),
        "unlock" => ask(
            rt,
            lowering::new_pessimistic_rollback_request(
                all_keys(alloc, words, 4),
                time(words, 2),
                time(words, 3),
            ),
        ),
        _ => settle(rt, words),
    }
}

fn settle(rt: &HostRuntime, words: &[&str]) {
    let alloc = rt.alloc();
    match word(words, 1) {
        "resolve" => ask(
            rt,
            requests::new_resolve_lock_request(alloc, number(words, 2), number(words, 3)),
        ),
        "resolves" => ask(
            rt,
            requests::new_batch_resolve_lock_request(infos(alloc, words)),
        ),
        "beat" => ask(
            rt,
            lowering::new_heart_beat_request(
                time(words, 2),
                key(alloc, words, 3),
                number(words, 4),
            ),
        ),
        "status" => ask(
            rt,
            requests::new_check_txn_status_request(
                key(alloc, words, 2),
                number(words, 3),
                number(words, 4),
                number(words, 5),
                flag(words, 6, "missing"),
                flag(words, 7, "forced"),
                flag(words, 8, "resolving"),
            ),
        ),
        "secondaries" => ask(
            rt,
            requests::new_check_secondary_locks_request(
                all_keys(alloc, words, 3),
                number(words, 2),
            ),
        ),
        _ => place(rt, words),
    }
}

fn place(rt: &HostRuntime, words: &[&str]) {
    match word(words, 1) {
        "region" => ask(
            rt,
            GetRegionRequest {
                region_key: key(rt.alloc(), words, 2),
            },
        ),
        "region_by_id" => ask(
            rt,
            GetRegionByIdRequest {
                region_id: number(words, 2),
            },
        ),
        "store" => ask(
            rt,
            GetStoreRequest {
                store_id: number(words, 2),
            },
        ),
        "stores" => ask(rt, GetAllStoresRequest),
        "safepoint" => ask(
            rt,
            UpdateGcSafePointRequest {
                safe_point: number(words, 2),
            },
        ),
        "tso" => ask(
            rt,
            TsoRequest {
                count: small(words, 2),
            },
        ),
        _ => ask(rt, MembersRequest),
    }
}

/// A region's context with the first version of the api.
fn in_region(region_id: u64) -> Context {
    Context {
        region_id,
        region_epoch: None,
        peer: None,
        api_version: ApiVersion::V1,
    }
}

/// Sets the second version of the api, and then a region's context, on one of many kinds.
fn addressed(rt: &HostRuntime, mut request: Request) {
    request.set_api_version(ApiVersion::V2);
    request.set_context(in_region(2));
    made(rt, request)
}

/// The same on a request of one kind.
fn address<R: KvRequest>(rt: &HostRuntime, mut request: R) {
    request.set_api_version(ApiVersion::V2);
    request.set_context(in_region(2));
    ask(rt, request)
}

fn get(alloc: Global, words: &[&str]) -> GetRequest {
    requests::new_get_request(key(alloc, words, 2), number(words, 3))
}

pub fn serve(rt: &HostRuntime, words: &[&str]) {
    match word(words, 1) {
        "addressed" => address(rt, get(rt.alloc(), words)),
        "addressed_of_many" => addressed(rt, Request::Get(get(rt.alloc(), words))),
        "addressed_tso" => addressed(
            rt,
            Request::Tso(TsoRequest {
                count: small(words, 2),
            }),
        ),
        _ => read(rt, words),
    }
}
