//! The numbers of array classes: their dimensions, elements and components.

ghost use Rattle.std.specs.Prelude.{◌≡◌, ◌+◌};
ghost use Rattle.vx_java.specs.Library.{are_like};
ghost use Rattle.vx_link.specs.Parts.{class_count};
ghost use Rattle.vx_link.specs.ClassNames.{component_of, dimensions_of, element_of, has_reference_components};

use crate::parts::is_array;
use vx_link::Program;
use vx_value::ClassId;

/// The elements of arrays that are no classes: the primitive types.
const PRIMITIVE_ELEMENTS: u64 = 8;

/// How many numbers the array classes of one number of dimensions take.
pub fn elements(program: &Program) -> u64
    ensures { result ≡ class_count program.now + 8 }
{
    program.classes.as_slice().len() as u64 + PRIMITIVE_ELEMENTS
}

/// How many dimensions an array class has; a class that is no array has none.
pub fn dimensions_of(program: &Program, class: ClassId) -> u64
    ensures { result ≡ dimensions_of program.now class.0 }
{
    if !is_array(program, class) {
        return 0;
    }
    (u64::from(class.0) - program.classes.len() as u64) / elements(program) + 1
}

/// The number of an array class's element among the elements of arrays, and of a class that is no array its own number among them.
pub fn element_of(program: &Program, class: ClassId) -> u64
    ensures { result ≡ element_of program.now class.0 }
{
    if !is_array(program, class) {
        return PRIMITIVE_ELEMENTS + u64::from(class.0);
    }
    (u64::from(class.0) - program.classes.len() as u64) % elements(program)
}

/// Whether the components of a class are references; a class that is no array has none.
pub fn has_reference_components(program: &Program, class: ClassId) -> bool
    ensures { result ≡ has_reference_components program.now class.0 }
{
    is_array(program, class)
        && (dimensions_of(program, class) > 1 || element_of(program, class) >= PRIMITIVE_ELEMENTS)
}

/// The class of the components of an array of references.
pub fn component_of(program: &Program, class: ClassId) -> ClassId
    ensures { result.0 ≡ component_of program.now class.0 }
{
    let component = if dimensions_of(program, class) > 1 {
        u64::from(class.0).saturating_sub(elements(program))
    } else {
        element_of(program, class).saturating_sub(PRIMITIVE_ELEMENTS)
    };
    ClassId(component as u32)
}

/// Whether two classes are both of arrays of references, or both of arrays of one primitive type.
pub fn are_like(program: &Program, from: ClassId, to: ClassId) -> bool
    ensures { result ≡ are_like program.now from.0 to.0 }
{
    is_array(program, from)
        && (is_array(program, to)
            && (from.0 == to.0
                || (has_reference_components(program, from)
                    && has_reference_components(program, to))))
}
