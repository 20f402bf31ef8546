//! Why a source is refused.

ghost use Rattle.std.specs.Prelude.{◌≡◌};
ghost use Rattle.vx_asm.specs.declared.fault.AsmFault.TheVariants.{NoMemory};

use std::alloc::{AllocError, AllocFailed};

/// Want of memory, or the least line at which a rule of the source language fails, from 1 on, with the least reason. A part
/// that is missing at the end is missed at the line behind the last one.
#[derive(Clone, Copy, Debug, PartialEq, Eq)]
pub enum AsmFault {
    NoMemory,
    Line { line: u64, reason: u8 },
}

impl From<AllocError> for AsmFault {
    ghost from_gives = { λ _ e. e ≡ NoMemory };

    fn from(_e: AllocError) -> AsmFault {
        AsmFault::NoMemory
    }
}

impl<T: Drop> From<AllocFailed<T>> for AsmFault {
    ghost from_gives = { λ _ e. e ≡ NoMemory };

    fn from(_e: AllocFailed<T>) -> AsmFault {
        AsmFault::NoMemory
    }
}
