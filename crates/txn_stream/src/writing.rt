ghost use Rattle.std.specs.Prelude.{◌≡◌, ◌<◌, ◌≤◌, take, length, OnOk, IfErr, OnErr};
ghost use Rattle.std.specs.Io.KnownBytes.{Appends};
ghost use Rattle.txn_stream.specs.Bytes.{Rose};

use crate::sink::Sink;

/// Writes all of the bytes. An error says how many were taken before a write failed.
pub fn write_all<K: Sink>(sink: &mut K, bytes: &[u8]) -> Result<(), u64>
    ensures written { OnOk result (Appends (K.written sink.old) (K.written sink.new) bytes.now) }
    ensures front { IfErr result (λ n. (n < length bytes.now) × Appends (K.written sink.old) (K.written sink.new) (take n bytes.now)) }
    ensures counted { K.faults sink.old ≤ K.faults sink.new }
    ensures fault { OnErr result (Rose (K.faults sink.old) (K.faults sink.new)) }
{
    let mut at = 0;
    while at < bytes.len() {
        let Ok(count) = sink.write(&bytes[at..]) else {
            return Err(at as u64);
        };
        at += count;
    }
    Ok(())
}
