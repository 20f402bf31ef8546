//! arraycopy of System.

ghost use Rattle.std.specs.List.{take_while};
ghost use Rattle.std.specs.Prelude.{◌≡◌, ◌≤◌, ◌&&◌, IfOk, drop, length, take};
ghost use Rattle.vx_java.specs.Library.{array_copy, copy_outcome, copy_within, fits_component, within_array};
ghost use Rattle.vx_java.specs.Machine.{object_at, raise};
ghost use Rattle.vx_plain.specs.Views.{state_of, value_of, values_of};
ghost use Rattle.vx_plain_here.specs.Rows.{here_in};
ghost use Rattle.vx_plain_strings.specs.Answers.{Answers, Does};
ghost use Rattle.vx_plain_natives.specs.Copying.{copied, copy_elements, fitting};
ghost use Rattle.vx_value.specs.Arithmetic.{natural};

use crate::cells::write_cells;
use std::alloc::{AllocError, Global};
use vx_java::arrays::{are_like, component_of, has_reference_components};
use vx_java::assignable;
use vx_plain::{State, Value};
use vx_plain_here::{Made, natural};
use vx_plain_strings::{Arguments, Call, illegal, nothing, null_pointer};
use vx_value::ClassId;

/// Throws an ArrayStoreException.
fn bad_store(call: &Call<'_>, state: &State) -> Made
    ensures { Answers call.now (λ h rest. raise h "java/lang/ArrayStoreException") state.now state.now result }
{
    call.here.raise(state, b"java/lang/ArrayStoreException")
}

/// Throws an ArrayIndexOutOfBoundsException.
fn out_of_bounds(call: &Call<'_>, state: &State) -> Made
    ensures { Answers call.now (λ h rest. raise h "java/lang/ArrayIndexOutOfBoundsException") state.now state.now result }
{
    call.here
        .raise(state, b"java/lang/ArrayIndexOutOfBoundsException")
}

/// Whether so many elements from an index on are within a length.
fn is_within_array(at: i32, count: i32, size: usize) -> bool
    ensures { result ≡ within_array at count size }
{
    at >= 0 && count >= 0 && at as usize + count as usize <= size
}

/// The values from a place on, up to a number of them.
#[tactic(auto, using(crate::proofs::Copies::part_values))]
fn elements_from(
    alloc: Global,
    cells: &[Value],
    from: usize,
    count: usize,
) -> Result<Vec<Value>, AllocError>
    ensures { IfOk result (λ made. values_of made.items ≡ take count (drop from (values_of cells.now))) }
{
    let (_, rest) = cells.split_at(from.min(cells.len()));
    let (part, _) = rest.split_at(count.min(rest.len()));
    Vec::from_slice(alloc, part)
}

/// Whether a value fits in an array of references to a class.
fn fits_component(call: &Call<'_>, state: &State, component: ClassId, value: Value) -> bool
    ensures { result ≡ fits_component (here_in call.now.here.now (state_of state.now)) component.0 (value_of value) }
{
    match value {
        Value::Ref(object) => { assignable(call.here.program, state.class_of(object), component) }
        _ => true,
    }
}

/// How many of the first values fit in an array of references to a class.
#[tactic(auto, using(crate::proofs::Copies::one_fits, crate::proofs::Copies::one_fails, crate::proofs::Copies::all_fit))]
fn fitting_references(call: &Call<'_>, state: &State, component: ClassId, values: &[Value]) -> usize
    ensures count { take result (values_of values.now) ≡ take_while (fits_component (here_in call.now.here.now (state_of state.now)) component.0) (values_of values.now) }
    ensures within { result ≤ length values.now }
{
    for place in 0..values.len() {
        if !fits_component(call, state, component, values[place]) {
            return place;
        }
    }
    values.len()
}

/// How many of the first values fit in an array of a class.
fn fitting(call: &Call<'_>, state: &State, class: ClassId, values: &[Value]) -> usize
    ensures count { take result (values_of values.now) ≡ fitting (here_in call.now.here.now (state_of state.now)) class.0 (values_of values.now) }
    ensures within { result ≤ length values.now }
{
    if !has_reference_components(call.here.program, class) {
        return values.len();
    }
    let component = component_of(call.here.program, class);
    fitting_references(call, state, component, values)
}

/// Goes on where all elements were copied; else the first that didn't fit is thrown for.
fn copied(call: &Call<'_>, state: &mut State, is_whole: bool) -> Made
    ensures { Answers call.now (λ h rest. copied h rest is_whole) state.old state.new result }
{
    if is_whole {
        nothing(call, state)
    } else {
        bad_store(call, state)
    }
}

/// Copies values over the elements of an array from a place on, up to the first that doesn't fit.
fn copy_values(call: &Call<'_>, state: &mut State, to: u64, j: usize, values: &[Value]) -> Made
    ensures { Answers call.now (λ h rest. copy_outcome h rest to j (values_of values.now) (fitting h (object_at h.state to).class (values_of values.now))) state.old state.new result }
{
    let count = fitting(call, state, state.class_of(to), values);
    write_cells(call.here.alloc, state, to, j, &values[..count])?;
    copied(call, state, count == values.len())
}

/// The elements of an array from a place on, up to a number of them.
fn values_from(
    call: &Call<'_>,
    state: &State,
    from: u64,
    i: i32,
    count: i32,
) -> Result<Vec<Value>, AllocError>
    ensures { IfOk result (λ made. values_of made.items ≡ take (natural count) (drop (natural i) (object_at (state_of state.now) from).cells)) }
{
    let cells = state.cells(from)?;
    elements_from(call.here.alloc, cells, natural(i), natural(count))
}

/// Copies elements that are within both arrays, up to the first that doesn't fit.
fn copy_within(
    call: &Call<'_>,
    state: &mut State,
    from: u64,
    i: i32,
    to: u64,
    j: i32,
    count: i32,
) -> Made
    ensures { Answers call.now (λ h rest. copy_within h rest from i to j count) state.old state.new result }
{
    let values = values_from(call, state, from, i, count)?;
    copy_values(call, state, to, natural(j), &values)
}

/// Whether so many elements are within two arrays.
fn are_within(state: &State, from: u64, i: i32, to: u64, j: i32, count: i32) -> bool
    ensures { let s = state_of state.now in result ≡ (within_array i count (object_at s from).size && within_array j count (object_at s to).size) }
{
    is_within_array(i, count, state.size_of(from)) && is_within_array(j, count, state.size_of(to))
}

/// Copies elements from one array to another, as through a copy.
fn copy_elements(
    call: &Call<'_>,
    state: &mut State,
    from: u64,
    i: i32,
    to: u64,
    j: i32,
    count: i32,
) -> Made
    ensures { Answers call.now (λ h rest. copy_elements h rest from i to j count) state.old state.new result }
{
    if !are_like(call.here.program, state.class_of(from), state.class_of(to)) {
        return bad_store(call, state);
    }
    if !are_within(state, from, i, to, j, count) {
        return out_of_bounds(call, state);
    }
    copy_within(call, state, from, i, to, j, count)
}

/// arraycopy.
pub(crate) fn array_copy(call: &Call<'_>, state: &mut State) -> Made
    ensures { Does call.now array_copy state.old state.new result }
{
    match call.values {
        Arguments::Five(
            Value::Ref(from),
            Value::Int(i),
            Value::Ref(to),
            Value::Int(j),
            Value::Int(count),
        ) => copy_elements(call, state, from, i, to, j, count),
        Arguments::Five(_, Value::Int(_), _, Value::Int(_), Value::Int(_)) => {
            null_pointer(call, state)
        }
        _ => illegal(call, state),
    }
}
