//! A sink over a real stream: the trusted edge. Nothing is told of what was written.

ghost use Rattle.std.specs.Prelude.{◌≡◌, ◌<◌, ◌≤◌, length, None, IfSome};

use crate::fault::SinkFault;
use crate::sink::Sink;
use std::io::{ErrorKind, Stderr, Stdout, Write};

/// How often a write that a signal interrupts is tried.
const TRIES: u32 = 1_000;

/// Hands bytes to a stream, and counts its faults; a write that takes nothing, or that signals interrupt each time that it
/// is tried, is one. It doesn't tell what was written.
#[derive(Drop)]
pub struct HostSink<W> {
    stream: W,
    faults: u64,
}

impl HostSink<Stdout> {
    /// The sink over the standard output.
    pub fn out(stream: Stdout) -> HostSink<Stdout>
        ensures { result.faults ≡ 0 }
    {
        HostSink { stream, faults: 0 }
    }
}

impl HostSink<Stderr> {
    /// The sink over the standard error.
    pub fn err(stream: Stderr) -> HostSink<Stderr>
        ensures { result.faults ≡ 0 }
    {
        HostSink { stream, faults: 0 }
    }
}

/// How many of the bytes a stream took, some at least; a write that is interrupted is tried again.
fn written<W: Write>(stream: &mut W, bytes: &[u8]) -> Option<usize>
    ensures some { IfSome result (λ count. 0 < count) }
    ensures bound { IfSome result (λ count. count ≤ length bytes.now) }
{
    for _ in 0..TRIES {
        match stream.write(bytes) {
            Ok(0) => return None,
            Ok(count) => return Some(count),
            Err(error) => {
                if error.kind() != ErrorKind::Interrupted {
                    return None;
                }
            }
        }
    }
    None
}

impl<W: Write + Drop> Sink for HostSink<W> {
    ghost seen = { λ sink. record { written = None; faults = sink.faults; shortages = 0 } };

    fn put(&mut self, bytes: &[u8]) -> Result<usize, SinkFault> {
        match written(&mut self.stream, bytes) {
            Some(count) => Ok(count),
            None => {
                self.faults = self.faults.saturating_add(1);
                Err(SinkFault::Failed)
            }
        }
    }
}
