//! Why a line of a source is refused.

ghost use Rattle.std.specs.Prelude.{◌≡◌};
ghost use Rattle.vx_source_words.specs.declared.fault.LineFault.TheVariants.{NoMemory};

use std::alloc::{AllocError, AllocFailed};

/// Want of memory, or the least reason for which a line is refused.
#[derive(Clone, Copy, Debug, PartialEq, Eq)]
pub enum LineFault {
    NoMemory,
    Refused(u8),
}

impl From<AllocError> for LineFault {
    ghost from_gives = { λ _ e. e ≡ NoMemory };

    fn from(_e: AllocError) -> LineFault {
        LineFault::NoMemory
    }
}

impl<T: Drop> From<AllocFailed<T>> for LineFault {
    ghost from_gives = { λ _ e. e ≡ NoMemory };

    fn from(_e: AllocFailed<T>) -> LineFault {
        LineFault::NoMemory
    }
}

/// A line that is refused.
pub fn refused<T>(reason: u8) -> Result<T, LineFault>
    ensures { result ≡ Err (LineFault.Refused reason) }
{
    Err(LineFault::Refused(reason))
}
