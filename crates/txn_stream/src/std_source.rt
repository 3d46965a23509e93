ghost use Rattle.std.specs.Prelude.{◌≡◌, ◌≤◌, None, IfSome, length};

use crate::source::{Failed, Source};
use std::io::{ErrorKind, Read};
use std::rt::Stdin;

/// The standard input. What it gives is not told.
#[derive(Debug, Drop)]
pub struct StdinSource {
    stdin: Stdin,
    faults: u64,
}

impl StdinSource {
    pub fn new(stdin: Stdin) -> StdinSource {
        StdinSource { stdin, faults: 0 }
    }
}

/// One read, begun anew where it was interrupted.
fn read_some(stdin: &mut Stdin, buf: &mut [u8]) -> Option<usize>
    ensures same_length { length buf.new ≡ length buf.old }
    ensures within { IfSome result (λ n. n ≤ length buf.new) }
{
    for _ in 0..u64::MAX {
        match stdin.read(buf) {
            Ok(count) => return Some(count),
            Err(error) => {
                if error.kind() != ErrorKind::Interrupted {
                    return None;
                }
            }
        }
    }
    None
}

impl Source for StdinSource {
    ghost left = { λ _. None };

    ghost faults = { λ s. s.faults };

    fn read(&mut self, buf: &mut [u8]) -> Result<usize, Failed> {
        let Some(count) = read_some(&mut self.stdin, buf) else {
            self.faults = self.faults.saturating_add(1);
            return Err(Failed);
        };
        Ok(count)
    }
}
