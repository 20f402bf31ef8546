//! Numbers of 32 bits for what stands in a list.

ghost use Rattle.std.specs.Prelude.{◌≡◌, IfOk};

use std::alloc::AllocError;

/// The number of what comes next in a list of so many, unless there are too many for 32 bits.
pub fn next_number(len: usize) -> Result<u32, AllocError>
    ensures { IfOk result (λ number. number ≡ len) }
{
    match u32::try_from(len) {
        Ok(number) => Ok(number),
        Err(_) => Err(AllocError),
    }
}
