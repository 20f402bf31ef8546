//! Why a class file cannot be read.

ghost use Rattle.std.specs.Prelude.{◌≡◌};
ghost use Rattle.vx_pool.specs.declared.fault.ClassFault.TheVariants.{NoMemory};

use std::alloc::{AllocError, AllocFailed};

/// Why a file cannot be read: want of memory, or the first check that fails, by its place (the number of bytes before it)
/// and its reason. The reasons of a class file are 1 the magic number, 2 the version, 3 a file cut short, 4 a tag, 5 an
/// index of the pool or a local, 6 the kind of an entry, 7 a text or a name, 8 a descriptor, 9 the length of code,
/// 10 an instruction, 11 a jump, 12 the structure of a member or of code, 13 bytes behind the end.
#[derive(Clone, Copy, Debug, PartialEq, Eq)]
pub enum ClassFault {
    NoMemory,
    Bad { at: u64, reason: u8 },
}

impl From<AllocError> for ClassFault {
    ghost from_gives = { λ _ e. e ≡ NoMemory };

    fn from(_e: AllocError) -> ClassFault {
        ClassFault::NoMemory
    }
}

impl<T: Drop> From<AllocFailed<T>> for ClassFault {
    ghost from_gives = { λ _ e. e ≡ NoMemory };

    fn from(_e: AllocFailed<T>) -> ClassFault {
        ClassFault::NoMemory
    }
}

/// The refusal of a check that failed.
pub fn refusal<T>(at: u64, reason: u8) -> Result<T, ClassFault>
    ensures { result ≡ Err (ClassFault.Bad at reason) }
{
    Err(ClassFault::Bad { at, reason })
}
