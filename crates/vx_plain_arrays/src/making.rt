//! New arrays of one dimension (JVMS 6.5 newarray, anewarray).

ghost use Rattle.std.specs.Prelude.{◌∷◌, IfOk, drop, nat_lt};
ghost use Rattle.vx_java.specs.Arrays.{array_of, new_array, new_primitives, new_references};
ghost use Rattle.vx_java.specs.Machine.{Int, length_bound, push_new, raise, when};
ghost use Rattle.vx_link.specs.ClassNames.{array_over};
ghost use Rattle.vx_plain.specs.Views.{state_of, value_of};
ghost use Rattle.vx_plain_here.specs.Rows.{ComesTo, here_in};
ghost use Rattle.vx_value.specs.Arithmetic.{natural};

use crate::classes::{array_of, array_over};
use crate::lengths::{int_in, is_negative};
use vx_link::class_name;
use vx_plain::{State, Value};
use vx_plain_here::{Here, Made, natural};
use vx_plain_tables::Seen;
use vx_references::arrays::{array_of_primitives, element_of_number, is_float};
use vx_references::lengths::is_long;
use vx_value::ClassId;

/// The numbers of the words for what ends a run as unsupported.
const FLOAT_WORD: u8 = 1;

const CLASS_WORD: u8 = 6;

/// Puts a new array in the place of its length.
fn put_array(here: &Here<'_>, state: &mut State, class: ClassId, length: usize) -> Made
    ensures { let h = here_in here.now (state_of state.old) in IfOk result (ComesTo (push_new h (array_of h.program class.0 length) (drop 1 h.state.top.operands)) h.state (state_of state.new)) }
{
    let array = array_of(here.alloc, here.program, class, length)?;
    here.push_new(state, 1, array)
}

/// An array of a length that is not negative: too large a one raises.
fn new_bounded(here: &Here<'_>, state: &mut State, class: ClassId, length: i32) -> Made
    ensures { let h = here_in here.now (state_of state.old) in IfOk result (ComesTo (when (nat_lt length_bound (natural length)) (raise h "java/lang/OutOfMemoryError") (push_new h (array_of h.program class.0 (natural length)) (drop 1 h.state.top.operands))) h.state (state_of state.new)) }
{
    if is_long(length) {
        here.raise(state, b"java/lang/OutOfMemoryError")
    } else {
        put_array(here, state, class, natural(length))
    }
}

/// An array of a length: a negative one raises, then one that is too large.
fn new_of_length(here: &Here<'_>, state: &mut State, class: ClassId, length: i32) -> Made
    ensures { let h = here_in here.now (state_of state.old) in IfOk result (ComesTo (new_array h class.0 (Int length ∷ drop 1 h.state.top.operands)) h.state (state_of state.new)) }
{
    if is_negative(length) {
        here.raise(state, b"java/lang/NegativeArraySizeException")
    } else {
        new_bounded(here, state, class, length)
    }
}

/// An array of the length that a value is.
fn new_of_value(here: &Here<'_>, state: &mut State, class: ClassId, value: Value) -> Made
    ensures { let h = here_in here.now (state_of state.old) in IfOk result (ComesTo (new_array h class.0 (value_of value ∷ drop 1 h.state.top.operands)) h.state (state_of state.new)) }
{
    match int_in(value) {
        Some(length) => new_of_length(here, state, class, length),
        None => here.illegal(state),
    }
}

/// An array of the length on top.
fn new_array(here: &Here<'_>, state: &mut State, class: ClassId) -> Made
    ensures { let h = here_in here.now (state_of state.old) in IfOk result (ComesTo (new_array h class.0 h.state.top.operands) h.state (state_of state.new)) }
{
    match state.operand(0) {
        Some(value) => new_of_value(here, state, class, value),
        None => here.illegal(state),
    }
}

/// newarray. A float or a double ends the run.
pub fn new_primitives(here: &Here<'_>, state: &mut State, number: u32) -> Made
    ensures { let h = here_in here.now (state_of state.old) in IfOk result (ComesTo (new_primitives h number) h.state (state_of state.new)) }
{
    let element = element_of_number(number);
    if is_float(element) {
        here.unsupported(state, FLOAT_WORD, b"-")
    } else {
        new_array(here, state, array_of_primitives(here.program, element))
    }
}

/// anewarray, of a class that is there.
fn new_over(here: &Here<'_>, state: &mut State, component: ClassId) -> Made
    ensures { let h = here_in here.now (state_of state.old) in IfOk result (ComesTo (new_array h (array_over h.program component.0) h.state.top.operands) h.state (state_of state.new)) }
{
    let class = array_over(here.program, component)?;
    new_array(here, state, class)
}

/// anewarray.
pub fn new_references(seen: &Seen<'_>, state: &mut State, index: u16) -> Made
    ensures { let h = here_in seen.now.here (state_of state.old) in IfOk result (ComesTo (new_references h index) h.state (state_of state.new)) }
{
    match seen.class_named(index) {
        Some(component) => new_over(&seen.here, state, component),
        None => seen
            .here
            .unsupported(state, CLASS_WORD, class_name(seen.here.pool, index)),
    }
}
