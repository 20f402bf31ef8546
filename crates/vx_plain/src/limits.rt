//! What the types of the plain machine hold.

ghost use Rattle.std.specs.Prelude.{◌≡◌, IfOk, None, OnErr, Some};

use std::alloc::AllocError;

/// What was found. Where there is nothing, the types of the plain machine do not hold what the ordinary machine has there, and that is
/// refused as want of memory: its numbers have no bound, and the plain machine's rows are proved of every state. What comes to this is
/// named where it is called: a position from 2^32 on, a length from 2^31 on, a char above 65,535, a class number from 2^32 on, more
/// than five values of a native method, and a text where a value is asked for.
pub fn held<T>(found: Option<T>) -> Result<T, AllocError>
    ensures value { IfOk result (λ it. found ≡ Some it) }
    ensures refused { OnErr result (found ≡ None) }
{
    match found {
        Some(it) => Ok(it),
        None => Err(AllocError),
    }
}
