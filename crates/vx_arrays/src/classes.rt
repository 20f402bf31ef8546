//! The classes of arrays by their elements, and what elements begin with (JVMS 2.3, 2.4, 6.5).

ghost use Rattle.std.specs.Prelude.{◌≡◌, ◌<◌, ◌^◌, [], true};
ghost use Rattle.vx_arrays.specs.Elements.{is_array_at};
ghost use Rattle.vx_arrays.specs.Making.{slot_of_element};
ghost use Rattle.vx_initial_heap.specs.First.{is_among, value_in};
ghost use Rattle.vx_java.specs.Arrays.{element_default};
ghost use Rattle.vx_link.specs.ClassNames.{array_over};

use vx_heap::Heap;
use vx_java::Element;
use vx_java::arrays::{element_of, elements, has_reference_components};
use vx_link::Program;
use vx_references::arrays::{DOUBLE, FLOAT, LONG, is_array_of};
use vx_space::Space;
use vx_value::{ClassId, Slot};

/// What a primitive element begins with; a float or a double is never read.
fn primitive_default(element: u64) -> Slot
    ensures { result ≡ slot_of_element element }
{
    if element == u64::from(DOUBLE) || element == u64::from(FLOAT) {
        return Slot::Top;
    }
    if element == u64::from(LONG) {
        return Slot::Long(0);
    }
    Slot::Int(0)
}

/// What the elements of arrays of a class begin with.
pub(crate) fn element_default(program: &Program, class: ClassId) -> Slot
    ensures value { value_in [] result ≡ element_default program.now class.0 }
    ensures names { is_among 0 0 result ≡ true }
{
    if has_reference_components(program, class) {
        return Slot::Null;
    }
    primitive_default(element_of(program, class))
}

/// Whether a slot is an array that an instruction works on.
pub(crate) fn is_array_at<S: Space>(
    program: &Program,
    heap: &Heap<S>,
    element: Element,
    slot: Slot,
) -> bool
    ensures { result ≡ is_array_at program.now heap.now element slot }
{
    match heap.class_at(slot) {
        Some(class) => is_array_of(program, element, class),
        None => false,
    }
}

/// The class of arrays whose components are of a class: one dimension more is so many numbers further.
pub(crate) fn array_over(program: &Program, class: ClassId) -> ClassId
    requires { array_over program.now class.0 < 2 ^ 32 }
    ensures { result.0 ≡ array_over program.now class.0 }
{
    ClassId((u64::from(class.0) + elements(program)) as u32)
}
