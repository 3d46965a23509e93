//! What a region error or a loss asks for.
ghost use Rattle.std.specs.Prelude.{◌≡◌, ◌/◌};
ghost use Rattle.std.specs.List.{list_any};
ghost use Rattle.std.specs.Duration.{as_nanos};
ghost use Rattle.txn_kv.specs.Backoff.{saturated};
ghost use Rattle.txn_retry.specs.Remedy.{after, delay_ms, first_without_epoch, is_older, older_epoch, on_epochs, on_leader, on_loss, on_region_error, remedy_of};

use std::time::Duration;
use txn_kv::{Backoff, Peer, Region, RegionEpoch, RegionErr, RegionId, RegionVerId};

/// What becomes of the cached region that a request was sent to.
#[derive(Clone, Copy, Debug, PartialEq, Eq)]
pub enum CacheChange {
    Keep,
    Invalidate,
    /// It has this leader.
    UpdateLeader(Peer),
}

/// How a task goes on. Its request is cut into shards again, unless the task ends.
#[derive(Clone, Copy, Debug, PartialEq, Eq)]
pub enum Next {
    AtOnce,
    /// After a sleep of so many milliseconds.
    Sleep(u64),
    /// The task ends with the region error or the loss.
    End,
    /// The task ends, since this region was listed without an epoch.
    EndWithoutEpoch(RegionId),
}

/// What is done about a failure of a task.
#[derive(Clone, Copy, Debug, PartialEq, Eq)]
pub struct Remedy {
    pub change: CacheChange,
    pub next: Next,
}

impl Remedy {
    fn new(change: CacheChange, next: Next) -> Remedy
        ensures { result ≡ record { change = change; next = next } }
    {
        Remedy { change, next }
    }
}

fn is_older_epoch(used: &RegionVerId, epoch: Option<RegionEpoch>) -> bool
    ensures { result ≡ older_epoch used.now epoch }
{
    match epoch {
        Some(epoch) => epoch.conf_ver < used.conf_ver || epoch.version < used.ver,
        None => false,
    }
}

/// Whether this is the region that was used, at an older epoch.
fn is_older(used: &RegionVerId, region: &Region) -> bool
    ensures { result ≡ is_older used.now region.now }
{
    region.id == used.id && is_older_epoch(used, region.region_epoch)
}

fn lists_older(used: &RegionVerId, listed: &[Region]) -> bool
    ensures { result ≡ list_any (is_older used.now) listed.now }
{
    listed.iter().any(|region| is_older(used, region))
}

fn first_without_epoch(listed: &[Region]) -> Option<RegionId>
    ensures { result ≡ first_without_epoch listed.now }
{
    listed
        .iter()
        .find(|region| region.region_epoch.is_none())
        .map(|region| region.id)
}

/// The epoch of a request did not match that of its region, and the store lists its regions there.
fn on_epochs(listed: &[Region], used: &RegionVerId, delay_ms: u64) -> Remedy
    ensures { result ≡ on_epochs listed.now used.now delay_ms }
{
    if listed.is_empty() {
        return Remedy::new(CacheChange::Invalidate, Next::AtOnce);
    }
    if let Some(id) = first_without_epoch(listed) {
        return Remedy::new(CacheChange::Keep, Next::EndWithoutEpoch(id));
    }
    if lists_older(used, listed) {
        return Remedy::new(CacheChange::Keep, Next::Sleep(delay_ms));
    }
    Remedy::new(CacheChange::Invalidate, Next::Sleep(delay_ms))
}

/// What a region error asks for, where the backoff has an attempt left. `used` is the region that the request was sent to.
pub fn remedy_of(error: &RegionErr, used: &RegionVerId, delay_ms: u64) -> Remedy
    ensures { result ≡ remedy_of error.now used.now delay_ms }
{
    match error {
        RegionErr::NotLeader { leader, .. } => on_leader(*leader, delay_ms),
        RegionErr::EpochNotMatch { current_regions } => {
            on_epochs(current_regions.as_slice(), used, delay_ms)
        }
        RegionErr::StoreNotMatch => Remedy::new(CacheChange::Invalidate, Next::Sleep(delay_ms)),
        RegionErr::StaleCommand => Remedy::new(CacheChange::Invalidate, Next::Sleep(delay_ms)),
        RegionErr::RegionNotFound { .. } => {
            Remedy::new(CacheChange::Invalidate, Next::Sleep(delay_ms))
        }
        RegionErr::Unknown => Remedy::new(CacheChange::Invalidate, Next::Sleep(delay_ms)),
        RegionErr::ServerIsBusy => Remedy::new(CacheChange::Keep, Next::End),
        RegionErr::RaftEntryTooLarge => Remedy::new(CacheChange::Keep, Next::End),
        RegionErr::MaxTimestampNotSynced => Remedy::new(CacheChange::Keep, Next::End),
    }
}

/// The store does not lead the region, and may know who does.
fn on_leader(leader: Option<Peer>, delay_ms: u64) -> Remedy
    ensures { result ≡ on_leader leader delay_ms }
{
    match leader {
        Some(leader) => Remedy::new(CacheChange::UpdateLeader(leader), Next::AtOnce),
        None => Remedy::new(CacheChange::Invalidate, Next::Sleep(delay_ms)),
    }
}

/// A delay in whole milliseconds.
fn millis(delay: Duration) -> u64
    ensures { result ≡ saturated (as_nanos delay / 1_000_000) }
{
    delay.as_millis().min(u128::from(u64::MAX)) as u64
}

fn take_attempt(backoff: &mut Backoff) -> Option<u64>
    ensures delay { result ≡ delay_ms backoff.old }
    ensures after { backoff.new ≡ after backoff.old }
{
    match backoff.next_delay_duration(0) {
        Some(delay) => Some(millis(delay)),
        None => None,
    }
}

/// A region error takes one attempt. Where none is left the task ends, and the cache stays as it is.
pub fn on_region_error(error: &RegionErr, used: &RegionVerId, backoff: &mut Backoff) -> Remedy
    ensures remedy { result ≡ on_region_error (delay_ms backoff.old) error.now used.now }
    ensures after { backoff.new ≡ after backoff.old }
{
    match take_attempt(backoff) {
        Some(delay) => remedy_of(error, used, delay),
        None => Remedy::new(CacheChange::Keep, Next::End),
    }
}

/// The region of a lost request is not trusted any more, whether an attempt is left or not.
pub fn on_loss(backoff: &mut Backoff) -> Remedy
    ensures remedy { result ≡ on_loss (delay_ms backoff.old) }
    ensures after { backoff.new ≡ after backoff.old }
{
    match take_attempt(backoff) {
        Some(delay) => Remedy::new(CacheChange::Invalidate, Next::Sleep(delay)),
        None => Remedy::new(CacheChange::Invalidate, Next::End),
    }
}
