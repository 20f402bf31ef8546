//! Ints as lengths and indices, of arrays and of texts.

ghost use Rattle.std.specs.Prelude.{◌≡◌, IfOk, IfSome, pos};
ghost use Rattle.vx_java.specs.Checks.{is_within};
ghost use Rattle.vx_value.specs.Arithmetic.{natural};

use std::alloc::AllocError;
use vx_plain::held;

/// A number that is not negative, and 0 for a negative one.
pub fn natural(n: i32) -> usize
    ensures { result ≡ natural n }
{
    n.max(0) as usize
}

/// Whether an index is within a length.
pub fn is_within(index: i32, length: usize) -> bool
    ensures { result ≡ is_within index length }
{
    index >= 0 && (index as usize) < length
}

/// A length as an int, if it fits.
fn int_if(length: usize) -> Option<i32>
    ensures { IfSome result (λ n. n ≡ pos length) }
{
    if length > 2_147_483_647 {
        return None;
    }
    Some(length as i32)
}

/// A length as an int. One from 2^31 on is not held.
pub fn int_of(length: usize) -> Result<i32, AllocError>
    ensures { IfOk result (λ n. n ≡ pos length) }
{
    held(int_if(length))
}
