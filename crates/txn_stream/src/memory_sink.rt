ghost use Rattle.std.specs.Prelude.{◌≡◌, ◌<◌, ◌≤◌, Some, [], length, IfOk, OnErr, IsErr, IsTrue};
ghost use Rattle.std.specs.Io.KnownBytes.{WriteAppends};
ghost use Rattle.txn_stream.specs.Bytes.{Rose};
ghost use Rattle.txn_stream.specs.Memory.{fails};

use crate::sink::Sink;
use crate::source::Failed;
use std::alloc::Global;
use std::marker::Model;

/// A sink that keeps the bytes that it takes, and whose writes fail where it was told so or where memory is wanting.
#[derive(Debug, Drop)]
pub struct MemorySink {
    bytes: Vec<u8>,
    piece: usize,
    calls: u64,
    failing: Vec<u64>,
    faults: u64,
}

impl Model for MemorySink {
    ghost use Rattle.std.specs.Prelude.{◌<◌};
    ghost use Rattle.txn_stream.specs.Memory.{Writing};

    ghost Value = { Writing };

    ghost view = { λ s. record { written = s.bytes.items; piece = s.piece; calls = s.calls; failing = s.failing.items; faults = s.faults } };

    ghost invariant = { λ s. (0 < s.piece) × (s.faults < 18446744073709551616) };
}

impl MemorySink {
    /// Takes at most `piece` bytes in one write. The writes of these numbers, counted from 1, fail.
    pub fn new(alloc: Global, piece: usize, failing: Vec<u64>) -> MemorySink
        requires { 0 < piece }
        ensures { result ≡ record { written = []; piece = piece; calls = 0; failing = failing.items; faults = 0 } }
    {
        MemorySink {
            bytes: Vec::new(alloc),
            piece,
            calls: 0,
            failing,
            faults: 0,
        }
    }

    /// The bytes that were taken.
    pub fn written(&self) -> &[u8]
        ensures { result.now ≡ self.now.written }
    {
        self.bytes.as_slice()
    }

    /// How many writes failed.
    pub fn faults(&self) -> u64
        ensures { result ≡ self.now.faults }
    {
        self.faults
    }
}

impl Sink for MemorySink {
    ghost written = { λ s. Some s.written };

    ghost faults = { λ s. s.faults };

    fn write(&mut self, buf: &[u8]) -> Result<usize, Failed>
        ensures within { IfOk result (λ n. n ≤ length buf.now) }
        ensures some { IfOk result (λ n. 0 < length buf.now → 0 < n) }
        ensures bytes { WriteAppends (Some self.old.written) (Some self.new.written) result buf.now }
        ensures counted { self.old.faults ≤ self.new.faults }
        ensures failed { OnErr result (Rose self.old.faults self.new.faults) }
        ensures listed { IsTrue (fails self.old.calls self.old.failing) → IsErr result }
    {
        self.calls = self.calls.saturating_add(1);
        if self.failing.contains(&self.calls) {
            self.faults = self.faults.saturating_add(1);
            return Err(Failed);
        }
        let count = buf.len().min(self.piece);
        if self.bytes.extend_from_slice(&buf[..count]).is_err() {
            self.faults = self.faults.saturating_add(1);
            return Err(Failed);
        }
        Ok(count)
    }
}
