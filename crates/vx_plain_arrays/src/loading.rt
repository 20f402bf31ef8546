//! Loads of elements, and lengths (JVMS 6.5 iaload, laload, aaload, baload, caload, saload, arraylength).

ghost use Rattle.std.specs.Prelude.{◌≡◌, ◌&&◌, ◌∷◌, IfOk, Some, drop, pos, slice_get};
ghost use Rattle.vx_java.specs.Arrays.{array_length, at_index, element_sort, is_array_of, load_element};
ghost use Rattle.vx_java.specs.Checks.{is_object, non_null, width_of_sort};
ghost use Rattle.vx_java.specs.Machine.{Int, cell_at, go, has_room, object_at};
ghost use Rattle.vx_link.specs.ClassNames.{is_array};
ghost use Rattle.vx_plain.specs.Views.{state_of, value_of};
ghost use Rattle.vx_plain_here.specs.Rows.{ComesTo, here_in};
ghost use Rattle.vx_value.specs.Arithmetic.{natural};

use crate::elements::{bad_index, is_wanted};
use crate::lengths::int_in;
use vx_java::Element;
use vx_plain::{State, Value};
use vx_plain_casts::object_in;
use vx_plain_here::{Here, Made, int_of, is_within, natural};
use vx_references::arrays::width_of;

// ---- elements

/// Puts an element in the place of its index and its array.
fn load_cell(here: &Here<'_>, state: &mut State, array: u64, index: usize) -> Made
    ensures { let h = here_in here.now (state_of state.old) in IfOk result (ComesTo (go h (cell_at h.state array index ∷ drop 2 h.state.top.operands)) h.state (state_of state.new)) }
{
    let value = state.cell(array, index)?;
    here.go_with(state, 2, value)
}

/// The element of an index, which may be outside.
fn load_within(here: &Here<'_>, state: &mut State, array: u64, index: i32) -> Made
    ensures { let h = here_in here.now (state_of state.old) in IfOk result (ComesTo (at_index h array index (go h (cell_at h.state array (natural index) ∷ drop 2 h.state.top.operands))) h.state (state_of state.new)) }
{
    if is_within(index, state.size_of(array)) {
        load_cell(here, state, array, natural(index))
    } else {
        bad_index(here, state, index)
    }
}

/// The element of an array; null raises.
fn load_in(here: &Here<'_>, state: &mut State, index: i32, array: Value) -> Made
    ensures { let h = here_in here.now (state_of state.old) in IfOk result (ComesTo (non_null h (value_of array) (λ r. at_index h r index (go h (cell_at h.state r (natural index) ∷ drop 2 h.state.top.operands)))) h.state (state_of state.new)) }
{
    match object_in(array) {
        Some(array) => load_within(here, state, array, index),
        None => here.raise(state, b"java/lang/NullPointerException"),
    }
}

/// Whether a load takes an array, in whose place the element has room.
fn may_load(here: &Here<'_>, state: &State, element: Element, array: Value) -> bool
    ensures { let h = here_in here.now (state_of state.now) in result ≡ (is_object h (is_array_of h.program element) (value_of array) && has_room h (width_of_sort (element_sort element)) (drop 2 h.state.top.operands)) }
{
    is_wanted(here, state, element, array) && here.has_room(state, width_of(element) as usize, 2)
}

/// A load of an index of an array.
fn load_of(here: &Here<'_>, state: &mut State, element: Element, index: i32, array: Value) -> Made
    ensures { let h = here_in here.now (state_of state.old) in IfOk result (ComesTo (load_element h element (Int index ∷ value_of array ∷ drop 2 h.state.top.operands)) h.state (state_of state.new)) }
{
    if may_load(here, state, element, array) {
        load_in(here, state, index, array)
    } else {
        here.illegal(state)
    }
}

/// A load of the index on top.
fn load_at(here: &Here<'_>, state: &mut State, element: Element, index: i32) -> Made
    requires { Some (Int index) ≡ slice_get (state_of state.old).top.operands 0 }
    ensures { let h = here_in here.now (state_of state.old) in IfOk result (ComesTo (load_element h element h.state.top.operands) h.state (state_of state.new)) }
{
    match state.operand(1) {
        Some(array) => load_of(here, state, element, index, array),
        None => here.illegal(state),
    }
}

/// A load by the value on top.
fn load_by(here: &Here<'_>, state: &mut State, element: Element, index: Value) -> Made
    requires { Some (value_of index) ≡ slice_get (state_of state.old).top.operands 0 }
    ensures { let h = here_in here.now (state_of state.old) in IfOk result (ComesTo (load_element h element h.state.top.operands) h.state (state_of state.new)) }
{
    match int_in(index) {
        Some(index) => load_at(here, state, element, index),
        None => here.illegal(state),
    }
}

/// iaload, laload, aaload, baload, caload, saload.
pub fn load_element(here: &Here<'_>, state: &mut State, element: Element) -> Made
    ensures { let h = here_in here.now (state_of state.old) in IfOk result (ComesTo (load_element h element h.state.top.operands) h.state (state_of state.new)) }
{
    match state.operand(0) {
        Some(index) => load_by(here, state, element, index),
        None => here.illegal(state),
    }
}

// ---- lengths

/// Puts the length of an array in its place.
fn put_length(here: &Here<'_>, state: &mut State, array: u64) -> Made
    ensures { let h = here_in here.now (state_of state.old) in IfOk result (ComesTo (go h (Int (pos (object_at h.state array).size) ∷ drop 1 h.state.top.operands)) h.state (state_of state.new)) }
{
    let length = int_of(state.size_of(array))?;
    here.go_with(state, 1, Value::Int(length))
}

/// The length of an array; null raises.
fn length_in(here: &Here<'_>, state: &mut State, array: Value) -> Made
    ensures { let h = here_in here.now (state_of state.old) in IfOk result (ComesTo (non_null h (value_of array) (λ r. go h (Int (pos (object_at h.state r).size) ∷ drop 1 h.state.top.operands))) h.state (state_of state.new)) }
{
    match object_in(array) {
        Some(array) => put_length(here, state, array),
        None => here.raise(state, b"java/lang/NullPointerException"),
    }
}

/// Whether a value is an array, in whose place an int has room.
fn may_measure(here: &Here<'_>, state: &State, array: Value) -> bool
    ensures { let h = here_in here.now (state_of state.now) in result ≡ (is_object h (is_array h.program) (value_of array) && has_room h 1 (drop 1 h.state.top.operands)) }
{
    here.is_any_array(state, array) && here.has_room(state, 1, 1)
}

/// The length of what stands on top.
fn length_of(here: &Here<'_>, state: &mut State, array: Value) -> Made
    ensures { let h = here_in here.now (state_of state.old) in IfOk result (ComesTo (array_length h (value_of array ∷ drop 1 h.state.top.operands)) h.state (state_of state.new)) }
{
    if may_measure(here, state, array) {
        length_in(here, state, array)
    } else {
        here.illegal(state)
    }
}

/// arraylength: of any array.
pub fn array_length(here: &Here<'_>, state: &mut State) -> Made
    ensures { let h = here_in here.now (state_of state.old) in IfOk result (ComesTo (array_length h h.state.top.operands) h.state (state_of state.new)) }
{
    match state.operand(0) {
        Some(array) => length_of(here, state, array),
        None => here.illegal(state),
    }
}
