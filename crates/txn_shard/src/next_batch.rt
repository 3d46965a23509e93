ghost use Rattle.std.specs.Prelude.{◌≡◌, [], Option, IfOk};
ghost use Rattle.txn_kv.specs.Ranges.{next_key};
ghost use Rattle.txn_shard.specs.Next.{Key, next_range};

use txn_kv::{Key, LockInfo, NoMemory, ScanLockRequest, ScanLockResponse};

/// A reply after which the request may be sent again for what follows.
pub trait HasNextBatch {
    // Where the next batch starts and ends, if this one holds anything. An empty end is unbounded.
    ghost next: { Self → Option (Key × Key) };

    /// Where the next batch starts and ends, if this one holds anything. An empty end is unbounded.
    fn has_next_batch(&self) -> Result<Option<(Key, Key)>, NoMemory>
        ensures { IfOk result (λ range. range ≡ next self.now) };
}

/// A request that can go on with the next batch.
pub trait NextBatch {
    // The request from this key on.
    ghost from: { Key → Self → Self };

    /// Goes on at the start of the range. The end of the request stays.
    fn next_batch(&mut self, range: (Key, Key))
        ensures { self.new ≡ from range.0 self.old };
}

impl HasNextBatch for ScanLockResponse {
    ghost next = { λ response. next_range response.locks };

    fn has_next_batch(&self) -> Result<Option<(Key, Key)>, NoMemory> {
        match self.locks.as_slice().last() {
            None => Ok(None),
            Some(lock) => Ok(Some(after(lock)?)),
        }
    }
}

/// What follows the key of a lock.
fn after(lock: &LockInfo) -> Result<(Key, Key), NoMemory>
    ensures { IfOk result (λ range. range ≡ (next_key lock.now.key, [])) }
{
    let mut bytes: Vec<u8> = lock.key.try_clone()?.into();
    bytes.push(0)?;
    let end = Key::empty(*bytes.allocator());
    Ok((Key::from(bytes), end))
}

impl NextBatch for ScanLockRequest {
    ghost from = { λ start request. record request { start_key = start } };

    fn next_batch(&mut self, range: (Key, Key)) {
        let (start, _end) = range;
        self.start_key = start;
    }
}
