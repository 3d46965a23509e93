//! Queries to the placement driver that are told events, one after another.
ghost use Rattle.txn_history.specs.Posted.{HasNumbers};

use crate::told::query;
use case_words::{cut, number, rest, say, show, word};
use std::alloc::Global;
use txn_kv::{
    Errand, Error, GetAllStoresResponse, GetRegionResponse, GetStoreResponse, Internal, Items, Key,
    MembersResponse, Outbox, Region, Reply, Request, Result, StoreMeta, StoreState, Text,
    Timestamp, UpdateGcSafePointResponse,
};
use txn_tso::{Cluster, PdCall, RetryClient, RetryClientTrait};

fn region(alloc: Global, id: u64) -> Option<Region> {
    Some(Region {
        id,
        start_key: Key::empty(alloc),
        end_key: Key::empty(alloc),
        region_epoch: None,
    })
}

fn get_region(region: Option<Region>) -> GetRegionResponse {
    GetRegionResponse {
        region,
        leader: None,
    }
}

fn get_store(alloc: Global, id: u64) -> GetStoreResponse {
    GetStoreResponse {
        store: StoreMeta {
            id,
            address: Text::from_string(String::new(alloc)),
            state: StoreState::Up,
            labels: Items::new(alloc),
        },
    }
}

/// The reply of an event `NOW:KIND:NUMBER`.
fn reply(alloc: Global, words: &[&str]) -> Reply {
    let told = number(words, 2);
    match word(words, 1) {
        "region" => Reply::GetRegion(get_region(region(alloc, told))),
        "region_by_id" => Reply::GetRegionById(get_region(region(alloc, told))),
        "no_region" => Reply::GetRegion(get_region(None)),
        "no_region_by_id" => Reply::GetRegionById(get_region(None)),
        "store" => Reply::GetStore(get_store(alloc, told)),
        "stores" => Reply::GetAllStores(GetAllStoresResponse {
            stores: Items::new(alloc),
        }),
        "safepoint" => Reply::UpdateGcSafePoint(UpdateGcSafePointResponse {
            new_safe_point: told,
        }),
        _ => Reply::Members(MembersResponse),
    }
}

/// A timestamp with this logical part, or none where the oracle was lost.
fn time(words: &[&str]) -> Result<Timestamp> {
    match word(words, 2).parse::<u8>() {
        Ok(logical) => Ok(Timestamp {
            physical: 5,
            logical: i64::from(logical),
            suffix_bits: 0,
        }),
        Err(_) => Err(Error::InternalError {
            what: Internal::OracleLost,
        }),
    }
}

/// Tells a call one event about what was posted under a number, and shows what it answers.
fn tell(
    rt: &HostRuntime,
    call: &mut PdCall,
    client: &mut RetryClient,
    number: u64,
    words: &[&str],
    out: &mut Outbox,
)
    requires { HasNumbers out.old }
    ensures { HasNumbers out.new }
{
    let now = case_words::number(words, 0);
    let progress = match word(words, 1) {
        "lost" => call.lost(client, now, number, out),
        "slept" => call.slept(client, now, number, out),
        "time" => call.take_time(client, now, number, time(words), out),
        _ => call.take_reply(client, now, number, reply(rt.alloc(), words), out),
    };
    if let Ok(progress) = progress {
        show(rt, &progress);
    }
}

/// A query, the members, a sleep of a second or another, an ask.
fn letter(errand: &Errand) -> &'static str {
    match errand {
        Errand::Send { request, .. } => match request {
            Request::Members(_) => "members",
            _ => "query",
        },
        Errand::Sleep { ms, .. } => if *ms == 1000 { "sleep" } else { "other" },
        Errand::Ask { .. } => "ask",
    }
}

fn posted(rt: &HostRuntime, out: &Outbox) {
    for errand in out.sends.as_slice() {
        say(rt, &letter(errand));
    }
}

/// Nothing is posted in it yet.
fn outbox(alloc: Global) -> Outbox
    ensures { HasNumbers result }
{
    Outbox::new(alloc, 7, false)
}

/// A client that was connected at 0.
fn new_client() -> RetryClient {
    RetryClient::new(Cluster { id: 0 }, 0)
}

/// Tells a call events, each about what was posted last.
fn tell_all(
    rt: &HostRuntime,
    call: &mut PdCall,
    client: &mut RetryClient,
    events: &[&str],
    out: &mut Outbox,
)
    requires { HasNumbers out.old }
{
    for event in events {
        let words = cut(rt.alloc(), event, ':');
        let number = out.sends.len() as u64;
        tell(rt, call, client, number, words.as_slice(), out);
    }
}

pub fn serve(rt: &HostRuntime, words: &[&str]) {
    let mut client = new_client();
    let mut out = outbox(rt.alloc());
    let mut call = PdCall::new(query(rt.alloc(), word(words, 1)));
    let _ = call.start(&mut client, 0, &mut out);
    tell_all(rt, &mut call, &mut client, rest(words, 2), &mut out);
    posted(rt, &out);
}

/// Two queries of one client are lost when it may reconnect: what is posted.
pub fn both(rt: &HostRuntime) {
    let mut client = new_client();
    let mut out = outbox(rt.alloc());
    let mut first = client.get_store(1);
    let mut second = client.update_safepoint(9);
    let _ = first.start(&mut client, 5000, &mut out);
    let _ = second.start(&mut client, 5000, &mut out);
    let _ = first.lost(&mut client, 5000, 1, &mut out);
    let _ = second.lost(&mut client, 5000, 2, &mut out);
    posted(rt, &out);
}

pub fn queries(rt: &HostRuntime) {
    let client = new_client();
    show(rt, client.get_region(Key::empty(rt.alloc())).query());
    show(rt, client.get_region_by_id(4).query());
    show(rt, client.get_all_stores().query());
    show(rt, client.get_timestamp().query());
}

pub fn requests(rt: &HostRuntime) {
    let cluster = Cluster { id: 0 };
    show(rt, &cluster.get_store(3));
    show(rt, &cluster.get_timestamp(5));
    show(rt, &cluster.members());
}
