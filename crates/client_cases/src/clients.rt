//! New clients.
use case_words::{number, number_in, rest, say, show, word};
use txn_client::Client;
use txn_region::{ApiV2TxnCodec, PdClient};

/// Shows the id of the cluster, and whether the client may connect at each time.
fn show_connection<C: PdClient>(rt: &HostRuntime, pd: &mut C, times: &[&str]) {
    let connection = pd.retry_client();
    show(rt, &connection.cluster().id);
    for time in times {
        show(rt, &connection.may_connect(number_in(time)));
    }
}

fn v1(rt: &HostRuntime, now: u64, times: &[&str]) {
    let mut client = Client::new(rt.alloc(), now);
    show_connection(rt, client.pd(), times);
}

fn v2(rt: &HostRuntime, now: u64, times: &[&str]) {
    let mut client = Client::new_with_config_v2(rt.alloc(), now);
    show_connection(rt, client.pd(), times);
}

fn with_codec(rt: &HostRuntime, now: u64, times: &[&str]) {
    let mut client = Client::new_with_codec(rt.alloc(), ApiV2TxnCodec::new(4), now);
    show_connection(rt, client.pd(), times);
}

pub fn serve(rt: &HostRuntime, words: &[&str]) {
    let (now, times) = (number(words, 2), rest(words, 3));
    match word(words, 1) {
        "v1" => v1(rt, now, times),
        "v2" => v2(rt, now, times),
        "codec" => with_codec(rt, now, times),
        _ => say(rt, &"?"),
    }
}
