ghost use Rattle.std.specs.Prelude.{◌≡◌, ℕ, ◌<◌, ◌≤◌, List, Option, length, IfOk, OnErr};
ghost use Rattle.std.specs.Io.KnownBytes.{WriteAppends};
ghost use Rattle.txn_stream.specs.Bytes.{Rose};

use crate::source::Failed;

/// Where bytes go.
pub trait Sink {
    // The bytes that were taken, where they are told.
    ghost written: { Self → Option (List ℕ) };

    // How many writes went wrong. The count never falls, and stays at its last value.
    ghost faults: { Self → ℕ };

    /// Takes bytes from the front of `buf`, and says how many: at least one, where there is one.
    fn write(&mut self, buf: &[u8]) -> Result<usize, Failed>
        ensures within { IfOk result (λ n. n ≤ length buf.now) }
        ensures some { IfOk result (λ n. 0 < length buf.now → 0 < n) }
        ensures bytes { WriteAppends (written self.old) (written self.new) result buf.now }
        ensures counted { faults self.old ≤ faults self.new }
        ensures failed { OnErr result (Rose (faults self.old) (faults self.new)) };
}
