use txn_kv::Reply;

/// What comes for a ticket: the reply to its request, that no reply will come, or that its sleep has ended.
#[derive(Drop)]
pub enum Coming {
    Reply(Reply),
    Lost,
    Slept,
}
