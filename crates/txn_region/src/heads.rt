//! The first bytes of keys, which lie side by side, so that a search reads them and not the regions.
ghost use Rattle.std.specs.Prelude.{◌≡◌, slice_index_or};
ghost use Rattle.txn_region.specs.Heads.{end_head, key_head};

use txn_kv::{Key, RegionWithLeader};

/// The first bytes of a key. Zeros follow a shorter key.
pub type Head = [u8; 8];

fn byte_or_zero(key: &Key, place: usize) -> u8
    ensures { result ≡ slice_index_or key.now place 0 }
{
    match key.as_slice().get(place) {
        Some(byte) => *byte,
        None => 0,
    }
}

pub fn key_head(key: &Key) -> Head
    ensures { result ≡ key_head key.now }
{
    [
        byte_or_zero(key, 0),
        byte_or_zero(key, 1),
        byte_or_zero(key, 2),
        byte_or_zero(key, 3),
        byte_or_zero(key, 4),
        byte_or_zero(key, 5),
        byte_or_zero(key, 6),
        byte_or_zero(key, 7),
    ]
}

/// The head of a region's end, where it has one.
pub fn end_head(region: &RegionWithLeader) -> Option<Head>
    ensures { result ≡ end_head region.now }
{
    if region.region.end_key.is_empty() {
        None
    } else {
        Some(key_head(&region.region.end_key))
    }
}
