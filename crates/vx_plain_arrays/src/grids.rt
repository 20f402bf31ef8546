//! Arrays of arrays (JVMS 6.5 multianewarray).

ghost use Rattle.std.specs.Prelude.{◌≡◌, ◌≤◌, ◌<◌, ◌^◌, ◌+◌, ◌*◌, ◌∷◌, [], IfOk, OnOk, Some, drop, map, option_map};
ghost use Rattle.vx_java.specs.Arrays.{array_of, grid, grid_cells, grid_objects, lengths_off, new_grid, new_grid_of, push_grid, references_to};
ghost use Rattle.vx_java.specs.Machine.{length_bound, next_object, with_objects};
ghost use Rattle.vx_plain.specs.Views.{object_of, state_of, values_of};
ghost use Rattle.vx_plain_arrays.specs.Grids.{grid_of_lengths};
ghost use Rattle.vx_plain_here.specs.Rows.{ComesTo, here_in};
ghost use Rattle.vx_value.specs.Arithmetic.{natural};

use crate::classes::array_of;
use crate::lengths::int_at;
use std::alloc::{AllocError, Global};
use vx_java::arrays::component_of;
use vx_link::{Program, class_name};
use vx_list::GivenUp;
use vx_plain::{Object, State, Value};
use vx_plain_here::{Here, Made, natural};
use vx_plain_tables::Seen;
use vx_references::lengths::{has_negative, is_large};
use vx_value::ClassId;

/// The number of the word for a class that ends a run as unsupported.
const CLASS: u8 = 6;

/// How many objects an array of these lengths has with its parts. They are no more than its cells and one; a length of 0 has no parts,
/// whatever stands behind it.
fn grid_objects(lengths: &[usize]) -> u64
    requires { grid_cells lengths.now ≤ length_bound }
    ensures { result ≡ grid_objects lengths.now }
{
    let [length, deeper @ ..] = lengths else {
        return 0;
    };
    let parts = *length as u64;
    if parts == 0 {
        return 1;
    }
    1 + parts * grid_objects(deeper)
}

/// References to so many parts, each of so many objects, from one on.
fn references_to(
    alloc: Global,
    count: usize,
    each: u64,
    from: u64,
) -> Result<Vec<Value>, AllocError>
    requires { from + count * each < 2 ^ 64 }
    ensures { IfOk result (λ references. values_of references.items ≡ references_to count each from) }
{
    let mut references = Vec::new(alloc);
    for part in 0..count {
        references.push(Value::Ref(from + part as u64 * each))?;
    }
    Ok(references)
}

/// An array whose components are arrays of so many objects each, which will stand behind it.
fn array_of_parts(
    alloc: Global,
    state: &State,
    class: ClassId,
    length: usize,
    each: u64,
) -> Result<Object, AllocError>
    requires { length * each < 2 ^ 63 }
    ensures { IfOk result (λ object. object_of object ≡ record { class = class.0; size = length; cells = references_to length each (next_object (state_of state.now) + 1) }) }
{
    let from = state.next_object() + 1;
    let references = references_to(alloc, length, each, from)?;
    Ok(Object::array(class, references))
}

/// Puts an array of arrays at the end of the heap, without its parts.
fn add_outer(
    alloc: Global,
    state: &mut State,
    class: ClassId,
    length: usize,
    each: u64,
) -> Result<(), GivenUp>
    requires { length * each < 2 ^ 63 }
    ensures { OnOk result (state_of state.new ≡ with_objects (state_of state.old) (record { class = class.0; size = length; cells = references_to length each (next_object (state_of state.old) + 1) } ∷ [])) }
{
    let array = array_of_parts(alloc, state, class, length, each)?;
    state.add(array)?;
    Ok(())
}

/// Puts an array of arrays that has no parts at the end of the heap.
fn add_empty(alloc: Global, state: &mut State, class: ClassId) -> Result<(), GivenUp>
    ensures { OnOk result (state_of state.new ≡ with_objects (state_of state.old) (record { class = class.0; size = 0; cells = [] } ∷ [])) }
{
    state.add(Object::array(class, Vec::new(alloc)))?;
    Ok(())
}

/// Puts an array of one dimension at the end of the heap.
fn add_array(
    alloc: Global,
    program: &Program,
    state: &mut State,
    class: ClassId,
    length: usize,
) -> Result<(), GivenUp>
    ensures { OnOk result (state_of state.new ≡ with_objects (state_of state.old) (array_of program.now class.0 length ∷ [])) }
{
    let array = array_of(alloc, program, class, length)?;
    state.add(array)?;
    Ok(())
}

/// Puts an array and its parts at the end of the heap, the array before its parts, the parts by rising index, each with its own
/// parts before the next. There is no array without a length.
fn add_grid(
    alloc: Global,
    program: &Program,
    state: &mut State,
    class: ClassId,
    lengths: &[usize],
) -> Result<(), GivenUp>
    requires { grid_cells lengths.now ≤ length_bound }
    ensures { OnOk result (state_of state.new ≡ with_objects (state_of state.old) (grid program.now class.0 lengths.now (next_object (state_of state.old)))) }
{
    let [length, deeper @ ..] = lengths else {
        return Ok(());
    };
    let count = *length;
    if deeper.is_empty() {
        return add_array(alloc, program, state, class, count);
    }
    if count == 0 {
        return add_empty(alloc, state, class);
    }
    let each = grid_objects(deeper);
    add_outer(alloc, state, class, count, each)?;
    let component = component_of(program, class);
    for _part in 0..count {
        add_grid(alloc, program, state, component, deeper)?;
    }
    Ok(())
}

/// The lengths, the first dimension's deepest on the stack; `None` where one is no int.
fn lengths_on(
    alloc: Global,
    state: &State,
    dimensions: usize,
) -> Result<Option<Vec<i32>>, AllocError>
    ensures { IfOk result (λ found. option_map (λ lengths. (lengths.items, drop dimensions (state_of state.now).top.operands)) found ≡ lengths_off dimensions [] (state_of state.now).top.operands) }
{
    let mut lengths = Vec::new(alloc);
    for dimension in 0..dimensions {
        match int_at(state, dimensions - 1 - dimension) {
            Some(length) => lengths.push(length)?,
            None => return Ok(None),
        }
    }
    Ok(Some(lengths))
}

/// The lengths as natural numbers.
fn naturals(alloc: Global, lengths: &[i32]) -> Result<Vec<usize>, AllocError>
    ensures { IfOk result (λ numbers. numbers.items ≡ map natural lengths.now) }
{
    let mut numbers = Vec::new(alloc);
    for length in lengths {
        numbers.push(natural(*length))?;
    }
    Ok(numbers)
}

/// Puts a reference to an array and its parts in the place of so many operands.
fn push_grid(
    here: &Here<'_>,
    state: &mut State,
    class: ClassId,
    lengths: &[i32],
    taken: usize,
) -> Made
    requires { grid_cells (map natural lengths.now) ≤ length_bound }
    ensures { let h = here_in here.now (state_of state.old) in IfOk result (ComesTo (push_grid h class.0 (map natural lengths.now) (drop taken h.state.top.operands)) h.state (state_of state.new)) }
{
    let numbers = naturals(here.alloc, lengths)?;
    let place = state.next_object();
    add_grid(here.alloc, here.program, state, class, &numbers)?;
    here.go_with(state, taken, Value::Ref(place))
}

/// An array of these lengths: a negative length anywhere raises, then one above the bound, or more cells than the bound in all.
fn new_by_lengths(
    here: &Here<'_>,
    state: &mut State,
    class: ClassId,
    lengths: &[i32],
    taken: usize,
) -> Made
    ensures { let h = here_in here.now (state_of state.old) in IfOk result (ComesTo (grid_of_lengths h class.0 lengths.now (drop taken h.state.top.operands)) h.state (state_of state.new)) }
{
    if has_negative(lengths) {
        return here.raise(state, b"java/lang/NegativeArraySizeException");
    }
    if is_large(lengths) {
        return here.raise(state, b"java/lang/OutOfMemoryError");
    }
    push_grid(here, state, class, lengths, taken)
}

/// An array of the lengths that were taken off. Without one a rule is broken.
fn new_of_lengths(
    here: &Here<'_>,
    state: &mut State,
    class: ClassId,
    lengths: &[i32],
    taken: usize,
) -> Made
    ensures { let h = here_in here.now (state_of state.old) in IfOk result (ComesTo (new_grid_of h class.0 (Some (lengths.now, drop taken h.state.top.operands))) h.state (state_of state.new)) }
{
    if lengths.is_empty() {
        here.illegal(state)
    } else {
        new_by_lengths(here, state, class, lengths, taken)
    }
}

/// multianewarray, of a class that is there.
fn new_of_class(here: &Here<'_>, state: &mut State, class: ClassId, dimensions: usize) -> Made
    ensures { let h = here_in here.now (state_of state.old) in IfOk result (ComesTo (new_grid_of h class.0 (lengths_off dimensions [] h.state.top.operands)) h.state (state_of state.new)) }
{
    let found = lengths_on(here.alloc, state, dimensions)?;
    match found {
        Some(lengths) => new_of_lengths(here, state, class, &lengths, dimensions),
        None => here.illegal(state),
    }
}

/// multianewarray.
pub fn new_grid(seen: &Seen<'_>, state: &mut State, index: u16, dimensions: u8) -> Made
    ensures { let h = here_in seen.now.here (state_of state.old) in IfOk result (ComesTo (new_grid h index dimensions) h.state (state_of state.new)) }
{
    match seen.class_named(index) {
        Some(class) => new_of_class(&seen.here, state, class, dimensions as usize),
        None => seen
            .here
            .unsupported(state, CLASS, class_name(seen.here.pool, index)),
    }
}
