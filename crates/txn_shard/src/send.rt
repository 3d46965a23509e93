//! Each type of this crate can move between threads.

use crate::shard_list::ShardList;
use txn_kv::send::can_move;
use txn_kv::{Items, Key, Mutation};

/// The types of this crate do.
pub fn shards_can_move() {
    can_move::<ShardList<Key>>();
    can_move::<ShardList<Items<Key>>>();
    can_move::<ShardList<Items<Mutation>>>();
    can_move::<ShardList<(Key, Key)>>();
}
