ghost use Rattle.std.specs.Prelude.{◌<◌, ◌≤◌, None, IfSome, length};

use crate::sink::Sink;
use crate::source::Failed;
use std::io::{ErrorKind, Write};
use std::rt::Stdout;

/// The standard output. What it takes is not told.
#[derive(Debug, Drop)]
pub struct StdoutSink {
    stdout: Stdout,
    faults: u64,
}

impl StdoutSink {
    pub fn new(stdout: Stdout) -> StdoutSink {
        StdoutSink { stdout, faults: 0 }
    }
}

/// One write, begun anew where it was interrupted. One that takes nothing is no write.
fn write_some(stdout: &mut Stdout, buf: &[u8]) -> Option<usize>
    ensures { IfSome result (λ n. (0 < n) × (n ≤ length buf.now)) }
{
    for _ in 0..u64::MAX {
        match stdout.write(buf) {
            Ok(0) => return None,
            Ok(count) => return Some(count),
            Err(error) => {
                if error.kind() != ErrorKind::Interrupted {
                    return None;
                }
            }
        }
    }
    None
}

impl Sink for StdoutSink {
    ghost written = { λ _. None };

    ghost faults = { λ s. s.faults };

    fn write(&mut self, buf: &[u8]) -> Result<usize, Failed> {
        if buf.is_empty() {
            return Ok(0);
        }
        let Some(count) = write_some(&mut self.stdout, buf) else {
            self.faults = self.faults.saturating_add(1);
            return Err(Failed);
        };
        Ok(count)
    }
}
