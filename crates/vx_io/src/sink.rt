//! Sinks that are written: the trait, and the writing of a whole text.

ghost use Rattle.std.specs.Prelude.{◌≡◌, ◌≤◌, ◌<◌, length, take, IfOk, OnErr};
ghost use Rattle.vx_io.specs.Sink.{SinkState, Gains, IsCounted, IsPut};

use crate::fault::SinkFault;

/// Takes bytes. Each refusal is answered only where its own count rose; a count stops at 2^64 - 1, and neither falls.
pub trait Sink {
    /// What was written, where that is told, and the two counts of refusals.
    ghost seen: { Self → SinkState };

    /// Appends a prefix of the bytes that isn't empty, and gives its length. After a refusal nothing was appended.
    fn put(&mut self, bytes: &[u8]) -> Result<usize, SinkFault>
        requires { 0 < length bytes.now }
        ensures some { IfOk result (λ count. 0 < count) }
        ensures bound { IfOk result (λ count. count ≤ length bytes.now) }
        ensures taken { IfOk result (λ count. Gains (seen self.old) (seen self.new) (take count bytes.now)) }
        ensures err { OnErr result ((seen self.new).written ≡ (seen self.old).written) }
        ensures counted { IsCounted (seen self.old) (seen self.new) result };
}

/// Hands the whole rest of the bytes to `put` until nothing is left. After a refusal a proper prefix of the bytes
/// was appended.
pub fn put_all<K: Sink>(sink: &mut K, bytes: &[u8]) -> Result<(), SinkFault>
    ensures { IsPut (K.seen sink.old) (K.seen sink.new) bytes.now result }
{
    let mut done = 0;
    while done < bytes.len() {
        done += sink.put(&bytes[done..])?;
    }
    Ok(())
}
