//! How replies and cells are printed.

use std::fmt;
use txn_kv::{
    CheckSecondaryLocksResponse, CheckTxnStatusResponse, GetRegionResponse, HexRepr, Key, KeyError,
    LockInfo, PbPair, PessimisticLockResponse, PrewriteResponse, Region, RegionErr, Reply,
    StoreMeta, TsoResponse,
};
use txn_model::{Cell, Lock, Write};

fn are_letters(bytes: &[u8]) -> bool {
    for byte in bytes {
        if !byte.is_ascii_alphanumeric() {
            return false;
        }
    }
    true
}

/// Letters and digits as they are, `-` for none, and hexadecimal digits for all else.
#[derive(Clone, Copy)]
struct ShownBytes<'a>(&'a [u8]);

impl fmt::Display for ShownBytes<'_> {
    fn fmt<W: fmt::Write>(&self, f: &mut fmt::Formatter<W>) -> fmt::Result {
        if self.0.is_empty() {
            return write!(f, "-");
        }
        if !are_letters(self.0) {
            return write!(f, "x:{}", HexRepr(self.0));
        }
        for byte in self.0 {
            write!(f, "{}", *byte as char)?;
        }
        Ok(())
    }
}

/// The bound of an async lock.
fn bound<W: fmt::Write>(f: &mut fmt::Formatter<W>, is_async: bool, bound: u64) -> fmt::Result {
    if is_async {
        write!(f, " async {bound}")
    } else {
        Ok(())
    }
}

/// The secondaries that a lock names.
fn also<W: fmt::Write>(f: &mut fmt::Formatter<W>, keys: &[Key]) -> fmt::Result {
    for key in keys {
        write!(f, " also {}", ShownBytes(key.as_slice()))?;
    }
    Ok(())
}

#[derive(Clone, Copy)]
struct ShownInfo<'a>(&'a LockInfo);

impl fmt::Display for ShownInfo<'_> {
    fn fmt<W: fmt::Write>(&self, f: &mut fmt::Formatter<W>) -> fmt::Result {
        let info = self.0;
        let key = ShownBytes(info.key.as_slice());
        let primary = ShownBytes(info.primary_lock.as_slice());
        write!(
            f,
            "{key} {:?} {} {primary}",
            info.lock_type, info.lock_version
        )?;
        write!(f, " ttl {} for {}", info.lock_ttl, info.lock_for_update_ts)?;
        bound(f, info.use_async_commit, info.min_commit_ts)?;
        also(f, info.secondaries.as_slice())
    }
}

#[derive(Clone, Copy)]
struct ShownError<'a>(&'a KeyError);

impl fmt::Display for ShownError<'_> {
    fn fmt<W: fmt::Write>(&self, f: &mut fmt::Formatter<W>) -> fmt::Result {
        match self.0 {
            KeyError::Locked(info) => write!(f, "[Locked {}]", ShownInfo(info)),
            KeyError::Abort { key, start, commit } => {
                write!(f, "[Abort {} {start} {commit}]", ShownBytes(key.as_slice()))
            }
            KeyError::WriteConflict { key, start, commit } => {
                let key = ShownBytes(key.as_slice());
                write!(f, "[WriteConflict {key} {start} {commit}]")
            }
            KeyError::AlreadyExist { key } => {
                write!(f, "[AlreadyExist {}]", ShownBytes(key.as_slice()))
            }
            KeyError::PessimisticLockNotFound { key } => {
                write!(
                    f,
                    "[PessimisticLockNotFound {}]",
                    ShownBytes(key.as_slice())
                )
            }
            KeyError::TxnLockNotFound { key } => {
                write!(f, "[TxnLockNotFound {}]", ShownBytes(key.as_slice()))
            }
            KeyError::CommitTsExpired { key, bound } => {
                write!(
                    f,
                    "[CommitTsExpired {} {bound}]",
                    ShownBytes(key.as_slice())
                )
            }
            KeyError::TxnNotFound { key, start } => {
                write!(f, "[TxnNotFound {} {start}]", ShownBytes(key.as_slice()))
            }
            KeyError::PrimaryMismatch(info) => write!(f, "[PrimaryMismatch {}]", ShownInfo(info)),
        }
    }
}

#[derive(Clone, Copy)]
struct ShownRegion<'a>(&'a Region);

impl fmt::Display for ShownRegion<'_> {
    fn fmt<W: fmt::Write>(&self, f: &mut fmt::Formatter<W>) -> fmt::Result {
        let start = ShownBytes(self.0.start_key.as_slice());
        let end = ShownBytes(self.0.end_key.as_slice());
        write!(f, "{} {start} {end}", self.0.id)?;
        if let Some(epoch) = self.0.region_epoch {
            write!(f, " epoch {} {}", epoch.conf_ver, epoch.version)?;
        }
        Ok(())
    }
}

#[derive(Clone, Copy)]
struct ShownRegionError<'a>(&'a RegionErr);

impl fmt::Display for ShownRegionError<'_> {
    fn fmt<W: fmt::Write>(&self, f: &mut fmt::Formatter<W>) -> fmt::Result {
        match self.0 {
            RegionErr::NotLeader { region_id, leader } => {
                write!(f, "NotLeader {region_id}")?;
                if let Some(peer) = leader {
                    write!(f, " peer {} store {}", peer.id, peer.store_id)?;
                }
                Ok(())
            }
            RegionErr::RegionNotFound { region_id } => write!(f, "RegionNotFound {region_id}"),
            RegionErr::EpochNotMatch { current_regions } => {
                write!(f, "EpochNotMatch")?;
                for region in current_regions.as_slice() {
                    write!(f, " {}", ShownRegion(region))?;
                }
                Ok(())
            }
            _ => write!(f, "another"),
        }
    }
}

/// Writes the errors of a reply: whether there was one.
fn refused<W: fmt::Write>(
    f: &mut fmt::Formatter<W>,
    region_error: &Option<RegionErr>,
    errors: &[KeyError],
) -> Result<bool, fmt::Error> {
    if let Some(error) = region_error {
        write!(f, " {}", ShownRegionError(error))?;
        return Ok(true);
    }
    for error in errors {
        write!(f, " {}", ShownError(error))?;
    }
    Ok(!errors.is_empty())
}

fn refused_once<W: fmt::Write>(
    f: &mut fmt::Formatter<W>,
    region_error: &Option<RegionErr>,
    error: &Option<KeyError>,
) -> Result<bool, fmt::Error> {
    if refused(f, region_error, &[])? {
        return Ok(true);
    }
    if let Some(error) = error {
        write!(f, " {}", ShownError(error))?;
        return Ok(true);
    }
    Ok(false)
}

fn ok_unless<W: fmt::Write>(f: &mut fmt::Formatter<W>, is_refused: bool) -> fmt::Result {
    if is_refused { Ok(()) } else { write!(f, " ok") }
}

fn number_unless<W: fmt::Write>(
    f: &mut fmt::Formatter<W>,
    is_refused: bool,
    number: u64,
) -> fmt::Result {
    if is_refused {
        Ok(())
    } else {
        write!(f, " {number}")
    }
}

fn prewritten<W: fmt::Write>(f: &mut fmt::Formatter<W>, reply: &PrewriteResponse) -> fmt::Result {
    if refused(f, &reply.region_error, reply.errors.as_slice())? {
        return Ok(());
    }
    write!(f, " ok")?;
    if reply.min_commit_ts > 0 {
        write!(f, " bound {}", reply.min_commit_ts)?;
    }
    if reply.one_pc_commit_ts > 0 {
        write!(f, " once {}", reply.one_pc_commit_ts)?;
    }
    Ok(())
}

fn pairs<W: fmt::Write>(f: &mut fmt::Formatter<W>, pairs: &[PbPair]) -> fmt::Result {
    for pair in pairs {
        match &pair.error {
            Some(error) => write!(f, " {}", ShownError(error))?,
            None => {
                let key = ShownBytes(pair.key.as_slice());
                write!(f, " {key}={}", ShownBytes(pair.value.as_slice()))?;
            }
        }
    }
    Ok(())
}

fn locks<W: fmt::Write>(f: &mut fmt::Formatter<W>, infos: &[LockInfo]) -> fmt::Result {
    for info in infos {
        write!(f, " [{}]", ShownInfo(info))?;
    }
    Ok(())
}

fn pessimistic<W: fmt::Write>(
    f: &mut fmt::Formatter<W>,
    reply: &PessimisticLockResponse,
) -> fmt::Result {
    if refused(f, &reply.region_error, reply.errors.as_slice())? {
        return Ok(());
    }
    write!(f, " ok")?;
    for value in reply.values.as_slice() {
        write!(f, " {}", ShownBytes(value.as_slice()))?;
    }
    for not_found in reply.not_founds.as_slice() {
        write!(f, " {not_found}")?;
    }
    Ok(())
}

fn status<W: fmt::Write>(f: &mut fmt::Formatter<W>, reply: &CheckTxnStatusResponse) -> fmt::Result {
    if refused_once(f, &reply.region_error, &reply.error)? {
        return Ok(());
    }
    write!(
        f,
        " ttl {} commit {} {:?}",
        reply.lock_ttl, reply.commit_version, reply.action
    )?;
    if let Some(info) = &reply.lock_info {
        write!(f, " [{}]", ShownInfo(info))?;
    }
    Ok(())
}

fn secondaries<W: fmt::Write>(
    f: &mut fmt::Formatter<W>,
    reply: &CheckSecondaryLocksResponse,
) -> fmt::Result {
    if refused_once(f, &reply.region_error, &reply.error)? {
        return Ok(());
    }
    write!(f, " commit {} missing {}", reply.commit_ts, reply.missing)?;
    locks(f, reply.locks.as_slice())
}

fn region<W: fmt::Write>(f: &mut fmt::Formatter<W>, reply: &GetRegionResponse) -> fmt::Result {
    match &reply.region {
        Some(region) => write!(f, " {}", ShownRegion(region))?,
        None => write!(f, " none")?,
    }
    if let Some(peer) = reply.leader {
        write!(f, " peer {} store {}", peer.id, peer.store_id)?;
    }
    Ok(())
}

fn store<W: fmt::Write>(f: &mut fmt::Formatter<W>, store: &StoreMeta) -> fmt::Result {
    write!(
        f,
        " {} '{}' {:?}",
        store.id,
        store.address.as_str(),
        store.state
    )
}

fn timestamps<W: fmt::Write>(f: &mut fmt::Formatter<W>, reply: &TsoResponse) -> fmt::Result {
    write!(f, " {}", reply.count)?;
    if let Some(last) = reply.timestamp {
        write!(f, " to {} {}", last.physical, last.logical)?;
    }
    Ok(())
}

/// What a reply says, a blank before each word.
#[derive(Clone, Copy)]
pub struct ShownReply<'a>(pub &'a Reply);

impl fmt::Display for ShownReply<'_> {
    fn fmt<W: fmt::Write>(&self, f: &mut fmt::Formatter<W>) -> fmt::Result {
        match self.0 {
            Reply::Get(r) => {
                if refused_once(f, &r.region_error, &r.error)? {
                    return Ok(());
                }
                if r.not_found {
                    return write!(f, " none");
                }
                write!(f, " {}", ShownBytes(r.value.as_slice()))
            }
            Reply::BatchGet(r) => {
                refused_once(f, &r.region_error, &r.error)?;
                pairs(f, r.pairs.as_slice())
            }
            Reply::Scan(r) => {
                refused_once(f, &r.region_error, &r.error)?;
                pairs(f, r.pairs.as_slice())
            }
            Reply::ScanLock(r) => {
                refused_once(f, &r.region_error, &r.error)?;
                locks(f, r.locks.as_slice())
            }
            Reply::PessimisticLock(r) => pessimistic(f, r),
            Reply::CheckTxnStatus(r) => status(f, r),
            Reply::CheckSecondaryLocks(r) => secondaries(f, r),
            other => write!(f, "{}", ShownChange(other)),
        }
    }
}

/// The replies of requests that change a store and tell little.
#[derive(Clone, Copy)]
struct ShownChange<'a>(&'a Reply);

impl fmt::Display for ShownChange<'_> {
    fn fmt<W: fmt::Write>(&self, f: &mut fmt::Formatter<W>) -> fmt::Result {
        match self.0 {
            Reply::Prewrite(r) => prewritten(f, r),
            Reply::PessimisticRollback(r) => {
                let is_refused = refused(f, &r.region_error, r.errors.as_slice())?;
                ok_unless(f, is_refused)
            }
            Reply::BatchRollback(r) => {
                let is_refused = refused_once(f, &r.region_error, &r.error)?;
                ok_unless(f, is_refused)
            }
            Reply::ResolveLock(r) => {
                let is_refused = refused_once(f, &r.region_error, &r.error)?;
                ok_unless(f, is_refused)
            }
            Reply::Commit(r) => {
                let is_refused = refused_once(f, &r.region_error, &r.error)?;
                number_unless(f, is_refused, r.commit_version)
            }
            Reply::Cleanup(r) => {
                let is_refused = refused_once(f, &r.region_error, &r.error)?;
                number_unless(f, is_refused, r.commit_version)
            }
            Reply::TxnHeartBeat(r) => {
                let is_refused = refused_once(f, &r.region_error, &r.error)?;
                number_unless(f, is_refused, r.lock_ttl)
            }
            other => write!(f, "{}", ShownPlacement(other)),
        }
    }
}

/// The replies of the placement driver, and of a range that was destroyed.
#[derive(Clone, Copy)]
struct ShownPlacement<'a>(&'a Reply);

impl fmt::Display for ShownPlacement<'_> {
    fn fmt<W: fmt::Write>(&self, f: &mut fmt::Formatter<W>) -> fmt::Result {
        match self.0 {
            Reply::UnsafeDestroyRange(r) => write!(f, " '{}'", r.error.as_str()),
            Reply::GetRegion(r) => region(f, r),
            Reply::GetRegionById(r) => region(f, r),
            Reply::GetStore(r) => store(f, &r.store),
            Reply::GetAllStores(r) => {
                for one in r.stores.as_slice() {
                    store(f, one)?;
                }
                Ok(())
            }
            Reply::UpdateGcSafePoint(r) => write!(f, " {}", r.new_safe_point),
            Reply::Tso(r) => timestamps(f, r),
            _ => write!(f, " ok"),
        }
    }
}

fn lock_line<W: fmt::Write>(f: &mut fmt::Formatter<W>, key: &[u8], lock: &Lock) -> fmt::Result {
    let primary = ShownBytes(lock.primary.as_slice());
    let value = ShownBytes(lock.value.as_slice());
    write!(
        f,
        "  {} lock {:?} {}",
        ShownBytes(key),
        lock.kind,
        lock.start
    )?;
    write!(
        f,
        " {primary} {value} ttl {} for {}",
        lock.ttl, lock.for_update
    )?;
    bound(f, lock.use_async, lock.min_commit)?;
    also(f, lock.secondaries.as_slice())?;
    writeln!(f)
}

fn commit_line<W: fmt::Write>(f: &mut fmt::Formatter<W>, key: &[u8], write: &Write) -> fmt::Result {
    let value = ShownBytes(write.value.as_slice());
    let key = ShownBytes(key);
    writeln!(
        f,
        "  {key} commit {:?} {} {} {value}",
        write.kind, write.start, write.commit
    )
}

/// A line for the lock of a cell, for each commit and for each rolled start.
#[derive(Clone, Copy)]
pub struct ShownCell<'a>(pub &'a Cell);

impl fmt::Display for ShownCell<'_> {
    fn fmt<W: fmt::Write>(&self, f: &mut fmt::Formatter<W>) -> fmt::Result {
        let key = self.0.key.as_slice();
        if let Some(lock) = &self.0.lock {
            lock_line(f, key, lock)?;
        }
        for write in self.0.commits.as_slice() {
            commit_line(f, key, write)?;
        }
        for start in self.0.rolled.as_slice() {
            writeln!(f, "  {} rolled {start}", ShownBytes(key))?;
        }
        Ok(())
    }
}
