ghost use Rattle.std.specs.Prelude.{◌≡◌, ◌==◌, ◌+◌, ◌*◌, ◌/◌, ◌^◌, ◌<◌, ◌≤◌, ◌++◌, ℕ, List, IfErr, IsOk, MatchResult, Ok, Err, true, false, OnOk, OnErr, slice_index, [], length, take, drop, vec_len};
ghost use Rattle.std.specs.List.{list_all};
ghost use Rattle.txn_kv.specs.declared.errors.Error.TheVariants.{InternalError};
ghost use Rattle.txn_kv.specs.Codec.{ascending, closed_length, complemented, encoded, encoding, key_length, last_group, BeginsWithKey, IsRefusal};

use crate::errors::{Error, Internal, Result};
use crate::memory::NoMemory;

/// How many bytes of a key are in a group.
const GROUP_SIZE: usize = 8;

/// What follows a group without padding. A padded group has this less its padding.
const MARKER: u8 = 255;

const PADDING: [u8; 8] = [0; 8];

/// The length of the longest encoding of a key of `n` bytes.
pub fn max_encoded_bytes_size(n: usize) -> usize
    requires { n < 2 ^ 60 }
    ensures { result ≡ (n / 8 + 1) * 9 }
{
    (n / GROUP_SIZE + 1) * (GROUP_SIZE + 1)
}

/// Bytes that grow by the encodings of keys.
pub trait BytesEncoder {
    ghost use Rattle.std.specs.Prelude.{List, ℕ};

    ghost bytes: { Self → List ℕ };

    /// Appends the encoding of the key, in ascending or descending order. A refusal changes nothing.
    fn encode_bytes(&mut self, key: &[u8], desc: bool) -> std::result::Result<(), NoMemory>
        ensures ok { OnOk result (bytes self.new ≡ bytes self.old ++ encoding desc key.now) }
        ensures err { OnErr result (bytes self.new ≡ bytes self.old) };
}

impl BytesEncoder for Vec<u8> {
    ghost bytes = { λ vec. vec.items };

    fn encode_bytes(&mut self, key: &[u8], desc: bool) -> std::result::Result<(), NoMemory> {
        let start = self.len();
        let appended = append_groups(self, key);
        if appended.is_err() {
            self.truncate(start);
        } else if desc {
            complement(&mut self[start..]);
        }
        appended
    }
}

/// Appends the ascending encoding of the key. A refusal may leave a part of it.
#[tactic(auto, using(crate::proofs::Encoding::groups))]
fn append_groups(bytes: &mut Vec<u8>, key: &[u8]) -> std::result::Result<(), NoMemory>
    ensures start { take (vec_len bytes.old) bytes.new.items ≡ bytes.old.items }
    ensures ok { OnOk result (bytes.new.items ≡ bytes.old.items ++ encoded key.now) }
{
    let mut rest = key;
    while GROUP_SIZE <= rest.len() {
        let (group, after) = rest.split_at(GROUP_SIZE);
        bytes.extend_from_slice(group)?;
        bytes.push(MARKER)?;
        rest = after;
    }
    append_last_group(bytes, rest)
}

/// Appends the last group of a key. A refusal may leave a part of it.
fn append_last_group(bytes: &mut Vec<u8>, group: &[u8]) -> std::result::Result<(), NoMemory>
    requires { length group.now < 8 }
    ensures start { take (vec_len bytes.old) bytes.new.items ≡ bytes.old.items }
    ensures ok { OnOk result (bytes.new.items ≡ bytes.old.items ++ last_group group.now) }
{
    let padding = GROUP_SIZE - group.len();
    bytes.extend_from_slice(group)?;
    bytes.extend_from_slice(&PADDING[..padding])?;
    bytes.push(MARKER - padding as u8)?;
    Ok(())
}

fn complement_all(bytes: &mut Vec<u8>)
    ensures { bytes.new.items ≡ complemented bytes.old.items }
{
    complement(&mut bytes[..]);
}

/// Complements each byte.
fn complement(bytes: &mut [u8])
    ensures { bytes.new ≡ complemented bytes.old }
{
    for byte in bytes.iter_mut() {
        *byte = MARKER - *byte;
    }
}

/// Turns bytes that begin with the encoding of a key into that key, and leaves no bytes as they are. A refusal names the
/// place of the refused group and changes nothing. Takes no memory.
pub fn decode_bytes_in_place(bytes: &mut Vec<u8>, desc: bool) -> Result<()>
    ensures ok { OnOk result (BeginsWithKey desc bytes.old.items bytes.new.items) }
    ensures err { IfErr result (IsRefusal (ascending desc bytes.old.items)) }
    ensures unchanged { OnErr result (bytes.new.items ≡ bytes.old.items) }
    ensures empty { bytes.old.items ≡ [] → IsOk result }
    ensures decodes { (key rest : List ℕ) → ascending desc bytes.old.items ≡ encoded key ++ rest → IsOk result × (bytes.new.items ≡ key) }
{
    if desc {
        refused(decode_descending(bytes))
    } else {
        refused(decode_ascending(bytes))
    }
}

fn refused(decoded: std::result::Result<(), Internal>) -> Result<()>
    ensures { MatchResult decoded (λ done. result ≡ Ok done) (λ what. result ≡ Err (InternalError what)) }
{
    match decoded {
        Ok(()) => Ok(()),
        Err(what) => Err(Error::InternalError { what }),
    }
}

#[tactic(auto, using(crate::proofs::Decoding::turns))]
fn decode_descending(bytes: &mut Vec<u8>) -> std::result::Result<(), Internal>
    ensures ok { OnOk result (BeginsWithKey true bytes.old.items bytes.new.items) }
    ensures err { IfErr result (λ what. key_length 0 (complemented bytes.old.items) ≡ Err what) }
    ensures unchanged { OnErr result (bytes.new.items ≡ bytes.old.items) }
    ensures empty { bytes.old.items ≡ [] → IsOk result }
    ensures decodes { (key rest : List ℕ) → complemented bytes.old.items ≡ encoded key ++ rest → IsOk result × (bytes.new.items ≡ key) }
{
    complement_all(bytes);
    let decoded = decode_ascending(bytes);
    if decoded.is_err() {
        complement_all(bytes);
    }
    decoded
}

fn decode_ascending(bytes: &mut Vec<u8>) -> std::result::Result<(), Internal>
    ensures ok { OnOk result (BeginsWithKey false bytes.old.items bytes.new.items) }
    ensures err { IfErr result (λ what. key_length 0 bytes.old.items ≡ Err what) }
    ensures unchanged { OnErr result (bytes.new.items ≡ bytes.old.items) }
    ensures empty { bytes.old.items ≡ [] → IsOk result }
    ensures decodes { (key rest : List ℕ) → bytes.old.items ≡ encoded key ++ rest → IsOk result × (bytes.new.items ≡ key) }
{
    if bytes.is_empty() {
        return Ok(());
    }
    match key_length(bytes.as_slice()) {
        Ok(length) => {
            drop_markers(bytes, length);
            Ok(())
        }
        Err(what) => Err(what),
    }
}

/// The length of the key whose ascending encoding comes first in the bytes.
#[tactic(auto, using(crate::proofs::Decoding::parts))]
fn key_length(bytes: &[u8]) -> std::result::Result<usize, Internal>
    ensures { result ≡ key_length 0 bytes.now }
{
    let mut at = 0;
    let mut rest = bytes;
    loop {
        if rest.len() <= GROUP_SIZE {
            return Err(Internal::BadEnd { at });
        }
        let marker = rest[GROUP_SIZE];
        if marker != MARKER {
            return closed_length(at, &rest[..GROUP_SIZE], marker);
        }
        let (_group, after) = rest.split_at(GROUP_SIZE + 1);
        at += GROUP_SIZE + 1;
        rest = after;
    }
}

/// The length of a key that the group at `at` closes.
fn closed_length(at: usize, group: &[u8], marker: u8) -> std::result::Result<usize, Internal>
    requires place { at < 2 ^ 63 }
    requires group { length group.now ≡ 8 }
    ensures { result ≡ closed_length at group.now marker }
{
    if marker < MARKER - 8 {
        return Err(Internal::BadPadding { at });
    }
    let kept = (marker - (MARKER - 8)) as usize;
    if are_zero(&group[kept..]) {
        Ok(at / (GROUP_SIZE + 1) * GROUP_SIZE + kept)
    } else {
        Err(Internal::BadPadding { at })
    }
}

fn are_zero(bytes: &[u8]) -> bool
    ensures { result ≡ list_all (λ byte. byte == 0) bytes.now }
{
    bytes.iter().all(|byte| *byte == 0)
}

/// Moves the bytes of the groups together, up to `length` of them.
fn drop_markers(bytes: &mut Vec<u8>, length: usize)
    requires { length + length / 8 < vec_len bytes.old }
    ensures length { vec_len bytes.new ≡ length }
    ensures bytes { (k : ℕ) → k < length → slice_index bytes.new.items k ≡ slice_index bytes.old.items (k + k / 8) }
{
    for k in 0..length {
        bytes[k] = bytes[k + k / GROUP_SIZE];
    }
    bytes.truncate(length);
}
