//! A sink in memory that takes pieces and fails at given calls.

ghost use Rattle.std.specs.Prelude.{◌<◌};

use crate::fault::SinkFault;
use crate::sink::Sink;
use std::alloc::{AllocError, Global};

/// Takes at most `piece` bytes a call, and fails at the listed calls, counted from 1.
#[derive(Drop)]
pub struct MemorySink {
    written: Vec<u8>,
    piece: usize,
    fails: Vec<u64>,
    calls: u64,
    faults: u64,
    shortages: u64,
    ghost takes_some: { 0 < piece },
}

impl MemorySink {
    ghost use Rattle.std.specs.Prelude.{◌≡◌, ◌<◌, [], IfOk, Some};
    ghost use Rattle.vx_io.specs.MemorySink.{seen_of, written_of, piece_of, fails_of, calls_of};

    /// A sink on which nothing is written yet, that takes so many bytes a call and fails at these calls.
    pub fn new(alloc: Global, piece: usize, fails: Vec<u64>) -> Result<MemorySink, AllocError>
        requires { 0 < piece }
        ensures seen { IfOk result (λ sink. seen_of sink ≡ record { written = Some []; faults = 0; shortages = 0 }) }
        ensures piece { IfOk result (λ sink. piece_of sink ≡ piece) }
        ensures fails { IfOk result (λ sink. fails_of sink ≡ fails.items) }
        ensures calls { IfOk result (λ sink. calls_of sink ≡ 0) }
    {
        Ok(MemorySink {
            written: Vec::new(alloc),
            piece,
            fails,
            calls: 0,
            faults: 0,
            shortages: 0,
        })
    }

    /// What was written.
    pub fn written(&self) -> &[u8]
        ensures { result.now ≡ written_of self.now }
    {
        self.written.as_slice()
    }
}

impl Sink for MemorySink {
    ghost use Rattle.std.specs.Prelude.{◌≡◌, ◌≤◌, ◌<◌, ◌↔◌, ◌++◌, length, take, min, IfOk, OnErr, Some, IsErrOf, Contains};
    ghost use Rattle.vx_io.specs.Sink.{Gains, IsCounted};
    ghost use Rattle.vx_io.specs.MemorySink.{seen_of, piece_of, fails_of, calls_of};
    ghost use Rattle.vx_io.specs.Count.{next_call};

    ghost seen = { seen_of };

    fn put(&mut self, bytes: &[u8]) -> Result<usize, SinkFault>
        requires { 0 < length bytes.now }
        ensures some { IfOk result (λ count. 0 < count) }
        ensures bound { IfOk result (λ count. count ≤ length bytes.now) }
        ensures taken { IfOk result (λ count. Gains (seen_of self.old) (seen_of self.new) (take count bytes.now)) }
        ensures err { OnErr result ((seen_of self.new).written ≡ (seen_of self.old).written) }
        ensures counted { IsCounted (seen_of self.old) (seen_of self.new) result }

        // Beyond the trait: which calls fail, and how much each takes.
        ensures fails { IsErrOf result SinkFault.Failed ↔ Contains (fails_of self.old) (next_call (calls_of self.old)) }
        ensures piece { IfOk result (λ count. count ≡ min (piece_of self.old) (length bytes.now)) }
        ensures calls { calls_of self.new ≡ next_call (calls_of self.old) }
        ensures same_piece { piece_of self.new ≡ piece_of self.old }
        ensures same_fails { fails_of self.new ≡ fails_of self.old }
    {
        self.calls = self.calls.saturating_add(1);
        if self.fails.contains(&self.calls) {
            self.faults = self.faults.saturating_add(1);
            return Err(SinkFault::Failed);
        }
        let count = self.piece.min(bytes.len());
        match self.written.extend_from_slice(&bytes[..count]) {
            Ok(()) => Ok(count),
            Err(AllocError) => {
                self.shortages = self.shortages.saturating_add(1);
                Err(SinkFault::NoMemory)
            }
        }
    }
}
