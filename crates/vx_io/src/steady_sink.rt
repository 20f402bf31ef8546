//! A sink in memory that refuses for want of memory alone.

ghost use Rattle.std.specs.Prelude.{◌≡◌, ◌≤◌, ◌<◌, [], ◌++◌, length, take, IfOk, OnErr, Some};

use crate::fault::SinkFault;
use crate::sink::Sink;
use std::alloc::{AllocError, Global};

/// Keeps what is written, and refuses only for want of memory.
#[derive(Drop)]
pub struct SteadySink {
    written: Vec<u8>,
    shortages: u64,
}

impl SteadySink {
    ghost use Rattle.std.specs.Prelude.{◌≡◌, [], IfOk, Some};
    ghost use Rattle.vx_io.specs.SteadySink.{seen_of, written_of};

    /// A sink on which nothing is written yet.
    pub fn new(alloc: Global) -> Result<SteadySink, AllocError>
        ensures { IfOk result (λ sink. seen_of sink ≡ record { written = Some []; faults = 0; shortages = 0 }) }
    {
        Ok(SteadySink {
            written: Vec::new(alloc),
            shortages: 0,
        })
    }

    /// What was written.
    pub fn written(&self) -> &[u8]
        ensures { result.now ≡ written_of self.now }
    {
        self.written.as_slice()
    }
}

impl Sink for SteadySink {
    ghost use Rattle.std.specs.Prelude.{◌≡◌, ◌≤◌, ◌<◌, ◌++◌, length, take, IfOk, OnErr, Some, IsErrOf};
    ghost use Rattle.vx_io.specs.Sink.{Gains, IsCounted};
    ghost use Rattle.vx_io.specs.SteadySink.{seen_of};

    ghost seen = { seen_of };

    fn put(&mut self, bytes: &[u8]) -> Result<usize, SinkFault>
        requires { 0 < length bytes.now }
        ensures some { IfOk result (λ count. 0 < count) }
        ensures bound { IfOk result (λ count. count ≤ length bytes.now) }
        ensures taken { IfOk result (λ count. Gains (seen_of self.old) (seen_of self.new) (take count bytes.now)) }
        ensures err { OnErr result ((seen_of self.new).written ≡ (seen_of self.old).written) }
        ensures counted { IsCounted (seen_of self.old) (seen_of self.new) result }

        // Beyond the trait: all is taken.
        ensures all { IfOk result (λ count. count ≡ length bytes.now) }
    {
        match self.written.extend_from_slice(bytes) {
            Ok(()) => Ok(bytes.len()),
            Err(AllocError) => {
                self.shortages = self.shortages.saturating_add(1);
                Err(SinkFault::NoMemory)
            }
        }
    }
}
