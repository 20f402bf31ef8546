//! Ints that instructions of arrays take as lengths (JVMS 6.5 newarray, anewarray, multianewarray).

ghost use Rattle.std.specs.Prelude.{◌≡◌};
ghost use Rattle.vx_plain.specs.Views.{state_of};
ghost use Rattle.vx_plain_arrays.specs.Elements.{int_in};
ghost use Rattle.vx_plain_arrays.specs.Grids.{int_below};
ghost use Rattle.vx_value.specs.Arithmetic.{negative};

use vx_plain::{State, Value};

/// The int that a value is, if it is one.
pub(crate) fn int_in(value: Value) -> Option<i32>
    ensures { result ≡ int_in value }
{
    match value {
        Value::Int(n) => Some(n),
        _ => None,
    }
}

/// The int that stands so many below the operand on top, if there is one.
pub(crate) fn int_at(state: &State, below: usize) -> Option<i32>
    ensures { result ≡ int_below below (state_of state.now).top.operands }
{
    match state.operand(below) {
        Some(value) => int_in(value),
        None => None,
    }
}

pub(crate) fn is_negative(length: i32) -> bool
    ensures { result ≡ negative length }
{
    length < 0
}
