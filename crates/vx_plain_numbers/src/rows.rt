//! The rows of numbers, comparisons and jumps: what each does at a state.

ghost use Rattle.std.specs.Prelude.{◌≡◌, IfOk, Some, slice_get, true};
ghost use Rattle.vx_java.specs.Jumps.{if_same};
ghost use Rattle.vx_java.specs.Row.{row_of};
ghost use Rattle.vx_plain.specs.Views.{state_of, value_of};
ghost use Rattle.vx_plain_here.specs.Rows.{ComesTo, here_in};
ghost use Rattle.vx_plain_numbers.specs.Family.{StandsInCode, takes_one, takes_two};

use crate::answer::carry_out;
use crate::numbers::{are_one, of_one, of_same, of_two};
use vx_java::Operation;
use vx_plain::{State, Value};
use vx_plain_here::{Here, Made};

/// The row of an instruction that takes the operand on top.
pub fn row_of_one(here: &Here<'_>, state: &mut State, operation: Operation) -> Made
    requires one { takes_one operation ≡ true }
    requires stands { StandsInCode (state_of state.old) }
    ensures { let s = state_of state.old in IfOk result (ComesTo (row_of (here_in here.now s) operation s.top.operands) s (state_of state.new)) }
{
    match state.operand(0) {
        Some(operand) => {
            let code = here.code.bytes.as_slice();
            carry_out(here, state, 1, of_one(code, operation, operand))
        }
        None => here.illegal(state),
    }
}

/// The row of an instruction that takes the two operands on top, of which the upper one is known.
fn on_second(here: &Here<'_>, state: &mut State, operation: Operation, upper: Value) -> Made
    requires two { takes_two operation ≡ true }
    requires upper { Some (value_of upper) ≡ slice_get (state_of state.old).top.operands 0 }
    requires stands { StandsInCode (state_of state.old) }
    ensures { let s = state_of state.old in IfOk result (ComesTo (row_of (here_in here.now s) operation s.top.operands) s (state_of state.new)) }
{
    match state.operand(1) {
        Some(lower) => carry_out(here, state, 2, of_two(operation, upper, lower)),
        None => here.illegal(state),
    }
}

/// The row of an instruction that takes the two operands on top.
pub fn row_of_two(here: &Here<'_>, state: &mut State, operation: Operation) -> Made
    requires two { takes_two operation ≡ true }
    requires stands { StandsInCode (state_of state.old) }
    ensures { let s = state_of state.old in IfOk result (ComesTo (row_of (here_in here.now s) operation s.top.operands) s (state_of state.new)) }
{
    match state.operand(0) {
        Some(upper) => on_second(here, state, operation, upper),
        None => here.illegal(state),
    }
}

/// The row of a jump by two references, of which the upper one is known.
fn on_reference(here: &Here<'_>, state: &mut State, wanted: bool, offset: i32, upper: Value) -> Made
    requires upper { Some (value_of upper) ≡ slice_get (state_of state.old).top.operands 0 }
    requires stands { StandsInCode (state_of state.old) }
    ensures { let s = state_of state.old in IfOk result (ComesTo (if_same (here_in here.now s) wanted offset s.top.operands) s (state_of state.new)) }
{
    match state.operand(1) {
        Some(lower) => {
            let answer = of_same(wanted, offset, are_one(upper, lower));
            carry_out(here, state, 2, answer)
        }
        None => here.illegal(state),
    }
}

/// The row of a jump where two references are one, or where they are not.
pub fn if_same(here: &Here<'_>, state: &mut State, wanted: bool, offset: i32) -> Made
    requires { StandsInCode (state_of state.old) }
    ensures { let s = state_of state.old in IfOk result (ComesTo (if_same (here_in here.now s) wanted offset s.top.operands) s (state_of state.new)) }
{
    match state.operand(0) {
        Some(upper) => on_reference(here, state, wanted, offset, upper),
        None => here.illegal(state),
    }
}
