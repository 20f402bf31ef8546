//! Assignability of classes (JVMS 6.5 checkcast, instanceof, aastore).

ghost use Rattle.std.specs.Prelude.{◌≡◌};
ghost use Rattle.vx_link.specs.Assignability.{above_arrays, assignable, assignable_within, class_assignable};
ghost use Rattle.vx_link.specs.Hierarchy.{is_among};

use crate::arrays::{component_of, has_reference_components};
use crate::hierarchy::{is_superclass, is_superinterface};
use crate::naming::{cloneable_class, object_class, serializable_class};
use crate::parts::is_array;
use vx_link::Program;
use vx_value::ClassId;

/// The most dimensions of an array.
const MOST_DIMENSIONS: u32 = 255;

fn class_assignable(program: &Program, from: ClassId, to: ClassId) -> bool
    ensures { result ≡ class_assignable program.now from.0 to.0 }
{
    is_superclass(program, to.0 as usize, from) || is_superinterface(program, to.0 as usize, from)
}

/// Whether a class is Object, Cloneable or Serializable, which all arrays are.
pub fn is_above_arrays(program: &Program, class: ClassId) -> bool
    ensures { result ≡ is_among class.0 (above_arrays program.now) }
{
    let wanted = class.0 as usize;
    wanted == object_class(program)
        || wanted == cloneable_class(program)
        || wanted == serializable_class(program)
}

fn assignable_within(program: &Program, dimensions: u32, from: ClassId, to: ClassId) -> bool
    ensures { result ≡ assignable_within program.now dimensions from.0 to.0 }
{
    if dimensions == 0 || !is_array(program, from) {
        return class_assignable(program, from, to);
    }
    if has_reference_components(program, from) && has_reference_components(program, to) {
        return assignable_within(
            program,
            dimensions - 1,
            component_of(program, from),
            component_of(program, to),
        );
    }
    from == to || is_above_arrays(program, to)
}

/// Whether a reference to an object of a class may stand where another class is wanted: a class of itself, of its superclasses and of
/// all their superinterfaces, an array of references where its components may, and an array of primitives of its own class alone.
pub fn assignable(program: &Program, from: ClassId, to: ClassId) -> bool
    ensures { result ≡ assignable program.now from.0 to.0 }
{
    assignable_within(program, MOST_DIMENSIONS, from, to)
}
