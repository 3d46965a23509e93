//! What is posted, in words.
use txn_kv::{Errand, Request};
use txn_side::{Ending, Posting};

/// The kind of a request.
fn kind(request: &Request) -> &'static str {
    match request {
        Request::Tso(_) => "Tso",
        Request::GetRegion(_) => "GetRegion",
        Request::GetStore(_) => "GetStore",
        Request::Prewrite(_) => "Prewrite",
        Request::Commit(_) => "Commit",
        Request::TxnHeartBeat(_) => "TxnHeartBeat",
        _ => "another request",
    }
}

/// A request, and of a heartbeat what it asks for.
fn show_request(rt: &HostRuntime, request: &Request) {
    let _ = print!(rt; " {}", kind(request));
    if let Request::TxnHeartBeat(beat) = request {
        let (start, ttl) = (beat.start_version, beat.advise_lock_ttl);
        let _ = print!(rt; " {:?} {start} {ttl}", beat.primary_lock);
    }
}

fn show_errand(rt: &HostRuntime, errand: &Errand) {
    match errand {
        Errand::Send {
            number,
            request,
            ..
        } => {
            let _ = print!(rt; "; {number}:");
            show_request(rt, request);
        }
        Errand::Sleep { number, ms } => {
            let _ = print!(rt; "; {number}: Sleep {ms}");
        }
        Errand::Ask { ask } => {
            let _ = print!(rt; "; Ask {ask}");
        }
    }
}

/// What is to be done, from this errand on.
pub fn show_errands(rt: &HostRuntime, errands: &[Errand], from: usize) {
    for errand in errands.iter().skip(from) {
        show_errand(rt, errand);
    }
}

pub fn show_posting(rt: &HostRuntime, posting: &Posting) {
    match posting {
        Posting::Send {
            ticket,
            request,
            ..
        } => {
            let _ = print!(rt; "; {ticket}");
            show_request(rt, request);
        }
        Posting::Sleep { ticket } => {
            let _ = print!(rt; "; {ticket} sleeps");
        }
    }
}

pub fn show_ending(rt: &HostRuntime, ending: &Ending) {
    let (line, outcome) = (ending.line, &ending.outcome);
    let _ = print!(rt; "; {line} ends {outcome:?}");
}
