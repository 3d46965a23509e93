ghost use Rattle.std.specs.Prelude.{◌≡◌, ◌<◌, length, false, true};

use crate::fixtures::assert_text;
use std::alloc::Global;
use std::process::Abort;
use txn_kv::{Items, Reply, Request, Target, Ticket, TsoRequest, TsoResponse};
use txn_post::Post;
use txn_report::SentNote;

fn ticket(line: u64, number: u64) -> Ticket
    ensures { result ≡ record { line = line; beat = false; number = number } }
{
    Ticket {
        line,
        beat: false,
        number,
    }
}

fn heartbeat(line: u64, number: u64) -> Ticket
    ensures { result ≡ record { line = line; beat = true; number = number } }
{
    Ticket {
        line,
        beat: true,
        number,
    }
}

fn request() -> Request {
    Request::Tso(TsoRequest { count: 1 })
}

fn reply() -> Reply {
    Reply::Tso(TsoResponse {
        count: 1,
        timestamp: None,
    })
}

/// The first line sent 1.1, slept under 1.2 and sent 1.3 in the step of the second, which sent 2.1.
fn small_run(rt: &impl Abort, alloc: Global) -> Post
    ensures calls { length result.tickets.calls ≡ 2 }
    ensures beats { length result.tickets.beats ≡ 2 }
{
    let mut post = Post::new(alloc);
    post.open().expect(rt, "memory");
    let to = Target::Placement;
    post.send(ticket(1, 1), 1, to, request(), Items::new(alloc))
        .expect(rt, "memory");
    post.sleep(ticket(1, 2), 1).expect(rt, "memory");
    post.open().expect(rt, "memory");
    let to = Target::Store(4);
    post.send(ticket(1, 3), 2, to, request(), Items::new(alloc))
        .expect(rt, "memory");
    post.send(ticket(2, 1), 2, to, request(), Items::new(alloc))
        .expect(rt, "memory");
    post
}

/// The first line sent 1.1, and its heartbeat slept under 1.h1 and sent 1.h2; then its call slept under 1.2.
fn beating_run(rt: &impl Abort, alloc: Global) -> Post
    ensures calls { length result.tickets.calls ≡ 1 }
    ensures beats { length result.tickets.beats ≡ 1 }
{
    let mut post = Post::new(alloc);
    post.open().expect(rt, "memory");
    let to = Target::Store(4);
    post.send(ticket(1, 1), 1, to, request(), Items::new(alloc))
        .expect(rt, "memory");
    post.sleep(heartbeat(1, 1), 1).expect(rt, "memory");
    post.send(heartbeat(1, 2), 1, to, request(), Items::new(alloc))
        .expect(rt, "memory");
    post.sleep(ticket(1, 2), 1).expect(rt, "memory");
    post
}

// Events, each with whether it could be.

fn serve(post: &mut Post, ticket: Ticket) -> bool
    ensures { post.new.tickets ≡ post.old.tickets }
{
    match post.find_unserved(&ticket) {
        None => false,
        Some(place) => {
            post.keep(place, reply());
            true
        }
    }
}

fn answer(post: &mut Post, ticket: Ticket) -> bool
    ensures { post.new.tickets ≡ post.old.tickets }
{
    match post.find_awaited(&ticket) {
        None => false,
        Some(place) => post.take_kept(place).is_some(),
    }
}

fn deliver(post: &mut Post, ticket: Ticket) -> bool
    ensures { post.new.tickets ≡ post.old.tickets }
{
    match post.find_awaited(&ticket) {
        Some(place) if post.can_be_served(place) => {
            post.deliver(place);
            true
        }
        _ => false,
    }
}

fn busy(post: &mut Post, ticket: Ticket) -> bool
    ensures { post.new.tickets ≡ post.old.tickets }
{
    match post.find_awaited(&ticket) {
        Some(place) if post.can_be_served(place) => {
            post.refuse(place);
            true
        }
        _ => false,
    }
}

fn lose(post: &mut Post, ticket: Ticket) -> bool
    ensures { post.new.tickets ≡ post.old.tickets }
{
    match post.find_awaited(&ticket) {
        None => false,
        Some(place) => {
            post.lose(place);
            true
        }
    }
}

fn wake(post: &mut Post, ticket: Ticket) -> bool
    ensures { post.new.tickets ≡ post.old.tickets }
{
    match post.find_lasting(&ticket) {
        None => false,
        Some(place) => {
            post.wake(place);
            true
        }
    }
}

/// The tickets of the first line that are out.
fn outs_of_first(rt: &impl Abort, alloc: Global, post: &Post) -> Vec<Ticket>
    requires calls { 0 < length post.now.tickets.calls }
    requires beats { 0 < length post.now.tickets.beats }
{
    let mut outs = Vec::new(alloc);
    post.push_outs(0, &mut outs).expect(rt, "memory");
    outs
}

#[test]
fn tickets_name_what_was_sent(rt: HostRuntime) {
    let post = small_run(&rt, rt.alloc());
    let rows = [
        (ticket(1, 1), Some(0)),
        (ticket(1, 3), Some(1)),
        (ticket(2, 1), Some(2)),
        (ticket(1, 2), None),
        (ticket(0, 1), None),
        (ticket(1, 0), None),
        (ticket(2, 2), None),
        (ticket(3, 1), None),
        (heartbeat(1, 1), None),
    ];
    for (name, place) in rows {
        assert!(rt; post.find_awaited(&name) == place, "{name}");
        assert!(rt; post.find_unserved(&name) == place, "{name}");
    }
}

#[test]
fn what_was_sent(rt: HostRuntime) {
    let alloc = rt.alloc();
    let post = small_run(&rt, alloc);
    assert!(rt; post.sent().len() == 3);
    let (sent, sleeps) = post.into_notes();
    let mut text = String::new(alloc);
    for note in sent.as_slice() {
        let SentNote { ticket, at, .. } = note;
        write!(text, "{ticket} in {at}, ").expect(&rt, "memory");
    }
    let sleeps = sleeps.as_slice();
    write!(text, "{sleeps:?}").expect(&rt, "memory");
    let notes = "1.1 in 1, 1.3 in 2, 2.1 in 2, \
        [SleepNote { ticket: Ticket { line: 1, beat: false, number: 2 }, at: 1 }]";
    assert_text(&rt, &text, notes);
}

#[test]
fn a_request_is_served_and_answered_once(rt: HostRuntime) {
    let alloc = rt.alloc();
    let mut post = small_run(&rt, alloc);
    let seen = [
        answer(&mut post, ticket(1, 1)),
        serve(&mut post, ticket(1, 1)),
        serve(&mut post, ticket(1, 1)),
        answer(&mut post, ticket(1, 1)),
        answer(&mut post, ticket(1, 1)),
        deliver(&mut post, ticket(1, 3)),
        deliver(&mut post, ticket(1, 3)),
    ];
    assert_eq!(rt; seen, [false, true, false, true, false, true, false]);
    let outs = outs_of_first(&rt, alloc, &post);
    assert!(rt; outs.as_slice() == [ticket(1, 2)].as_slice());
}

#[test]
fn refused_and_lost(rt: HostRuntime) {
    let mut post = small_run(&rt, rt.alloc());
    let seen = [
        busy(&mut post, ticket(1, 1)),
        serve(&mut post, ticket(1, 1)),
        lose(&mut post, ticket(1, 3)),
        lose(&mut post, ticket(1, 3)),
        serve(&mut post, ticket(1, 3)),
        answer(&mut post, ticket(1, 3)),
        serve(&mut post, ticket(2, 1)),
        lose(&mut post, ticket(2, 1)),
        answer(&mut post, ticket(2, 1)),
    ];
    assert_eq!(rt;
        seen,
        [true, false, true, false, true, false, true, true, false]
    );
}

#[test]
fn a_sleep_ends(rt: HostRuntime) {
    let alloc = rt.alloc();
    let mut post = small_run(&rt, alloc);
    let outs = outs_of_first(&rt, alloc, &post);
    assert!(rt; outs.as_slice() == [ticket(1, 1), ticket(1, 2), ticket(1, 3)].as_slice());
    let seen = [wake(&mut post, ticket(1, 2)), wake(&mut post, ticket(1, 2))];
    assert_eq!(rt; seen, [true, false]);
    let outs = outs_of_first(&rt, alloc, &post);
    assert!(rt; outs.as_slice() == [ticket(1, 1), ticket(1, 3)].as_slice());
}

#[test]
fn heartbeats_have_numbers_of_their_own(rt: HostRuntime) {
    let alloc = rt.alloc();
    let mut post = beating_run(&rt, alloc);
    let outs = outs_of_first(&rt, alloc, &post);
    let all = [ticket(1, 1), ticket(1, 2), heartbeat(1, 1), heartbeat(1, 2)];
    assert!(rt; outs.as_slice() == all.as_slice());
    let seen = [
        wake(&mut post, heartbeat(1, 2)),
        wake(&mut post, heartbeat(1, 1)),
        deliver(&mut post, heartbeat(1, 2)),
    ];
    assert_eq!(rt; seen, [false, true, true]);
    let outs = outs_of_first(&rt, alloc, &post);
    assert!(rt; outs.as_slice() == [ticket(1, 1), ticket(1, 2)].as_slice());
}
