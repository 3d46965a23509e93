//! What a plan has posted.

use case_words::{say, show};
use txn_kv::{Errand, Key, Request};

fn show_keys(rt: &HostRuntime, keys: &[Key]) {
    for key in keys {
        show(rt, key);
    }
}

/// Shows the kind of a request, and its keys.
fn show_request(rt: &HostRuntime, request: &Request) {
    say(rt, &request.label());
    match request {
        Request::Get(get) => show(rt, &get.key),
        Request::Commit(commit) => show_keys(rt, commit.keys.as_slice()),
        Request::GetRegion(look) => show(rt, &look.region_key),
        Request::GetStore(look) => show(rt, &look.store_id),
        _ => {}
    }
}

fn show_errand(rt: &HostRuntime, errand: &Errand) {
    match errand {
        Errand::Send {
            number,
            to,
            request,
        } => {
            show(rt, number);
            show(rt, to);
            show_request(rt, request);
        }
        Errand::Sleep { number, ms } => {
            show(rt, number);
            say(rt, &"sleep");
            show(rt, ms);
        }
        Errand::Ask { ask } => {
            show(rt, ask);
            say(rt, &"ask");
        }
    }
}

/// Shows the errands, each behind a bar.
pub fn show_errands(rt: &HostRuntime, errands: &[Errand]) {
    for errand in errands {
        say(rt, &"|");
        show_errand(rt, errand);
    }
}

/// Shows each request whole, behind its number and where it goes.
pub fn show_whole(rt: &HostRuntime, errands: &[Errand]) {
    for errand in errands {
        match errand {
            Errand::Send {
                number,
                to,
                request,
            } => show(rt, &(number, to, request)),
            _ => say(rt, &"no request"),
        }
    }
}
