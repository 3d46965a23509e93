//! Regions whose keys are encoded.
ghost use Rattle.std.specs.Prelude.{◌≡◌, Ok, IfErr, IfOk, IsOk, true};
ghost use Rattle.txn_kv.specs.declared.errors.Error.TheVariants.{InternalError};
ghost use Rattle.txn_kv.specs.declared.errors.Internal.{Internal};
ghost use Rattle.txn_region.specs.Clients.{IsBadKey};
ghost use Rattle.txn_region.specs.Decoded.{CanBeShown, HasBadKey, IsDecoded, IsShown, IsShownAs};
ghost use Rattle.txn_region.specs.Regions.{Key as Bytes};

use txn_kv::{Error, Internal, Key, Region, RegionWithLeader, Result, decode_bytes_in_place};

/// How many bytes of a key are in a group of its encoding. A marker follows each.
const GROUP_SIZE: usize = 8;

/// Decodes a key of a region. Bytes behind the closing group are refused. Takes no memory.
fn decode_key(key: Key) -> Result<Key>
    ensures ok { IfOk result (λ decoded. IsDecoded key decoded) }
    ensures err { IfErr result (λ error. (what : Internal) × IsBadKey key what × (error ≡ InternalError what)) }
    ensures decodes { (decoded : Bytes) → IsDecoded key decoded → result ≡ Ok decoded }
{
    let mut bytes = Vec::from(key);
    if bytes.is_empty() {
        return Ok(Key::from(bytes));
    }
    let len = bytes.len();
    decode_bytes_in_place(&mut bytes, false)?;
    let at = (bytes.len() / GROUP_SIZE + 1) * (GROUP_SIZE + 1);
    if at < len {
        return Err(Error::InternalError {
            what: Internal::BadEnd { at },
        });
    }
    Ok(Key::from(bytes))
}

/// Decodes the keys of a region, where they are encoded. Takes no memory.
pub(crate) fn decode_region(
    region: RegionWithLeader,
    enable_mvcc_codec: bool,
) -> Result<RegionWithLeader>
    ensures ok { IfOk result (λ decoded. IsShownAs enable_mvcc_codec region decoded) }
    ensures err { IfErr result (λ error. (enable_mvcc_codec ≡ true) × HasBadKey region error) }
    ensures decodes { CanBeShown enable_mvcc_codec region.region.start_key → CanBeShown enable_mvcc_codec region.region.end_key → IsOk result }
{
    if !enable_mvcc_codec {
        return Ok(region);
    }
    let (region, leader) = region.into_parts();
    let id = region.id;
    let region_epoch = region.region_epoch;
    let (start_key, end_key) = region.into_keys();
    let region = Region {
        id,
        start_key: decode_key(start_key)?,
        end_key: decode_key(end_key)?,
        region_epoch,
    };
    Ok(RegionWithLeader { region, leader })
}
