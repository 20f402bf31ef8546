//! Which type fits which (JVMS 4.10.1.2).

ghost use Rattle.std.specs.Prelude.{◌≡◌, IfOk};
ghost use Rattle.vx_java.specs.Ids.{HasClassNumbers};
ghost use Rattle.vx_link.specs.ClassNames.{primitive_element};
ghost use Rattle.vx_types.specs.Fits.{element_fits, fits, is_below, is_object, ref_fits};

use crate::hierarchy::object_class;
use crate::types::{ElementType, VerType};
use vx_desc::Base;
use vx_java::is_superclass;
use vx_link::Program;

/// The number of a primitive type among the elements of arrays.
fn number_of(base: Base) -> u32
    ensures { result ≡ primitive_element base }
{
    match base {
        Base::Bool => 0,
        Base::Byte => 1,
        Base::Char => 2,
        Base::Double => 3,
        Base::Float => 4,
        Base::Int => 5,
        Base::Long => 6,
        Base::Short => 7,
        Base::Class => 8,
    }
}

/// Whether an element is the class Object.
fn is_object(program: &Program, element: &ElementType) -> bool
    requires { HasClassNumbers program.now }
    ensures { result ≡ is_object program.now element.now }
{
    match element {
        ElementType::Class(class) => *class == object_class(program),
        _ => false,
    }
}

/// Whether an element is another, or a class below it.
pub fn is_below(program: &Program, one: &ElementType, other: &ElementType) -> bool
    ensures { result ≡ is_below program.now one.now other.now }
{
    match (one, other) {
        (ElementType::Class(class), ElementType::Class(above)) => {
            is_superclass(program, above.0 as usize, *class)
        }
        (ElementType::Missing(name), ElementType::Missing(other)) => name.bytes() == other.bytes(),
        (ElementType::Primitives(base), ElementType::Primitives(other)) => {
            number_of(*base) == number_of(*other)
        }
        _ => false,
    }
}

fn element_fits(program: &Program, one: &ElementType, other: &ElementType) -> bool
    requires { HasClassNumbers program.now }
    ensures { result ≡ element_fits program.now one.now other.now }
{
    if is_below(program, one, other) {
        return true;
    }
    is_object(program, other)
}

fn ref_fits(
    program: &Program,
    dimensions: u32,
    element: &ElementType,
    wanted: u32,
    other: &ElementType,
) -> bool
    requires { HasClassNumbers program.now }
    ensures { result ≡ ref_fits program.now dimensions element.now wanted other.now }
{
    if dimensions == wanted {
        return element_fits(program, element, other);
    }
    wanted < dimensions && is_object(program, other)
}

/// Whether a value of a type may stand where another is wanted: anything fits `Top`, null each reference type, a class its superclasses,
/// an array one whose components its components fit, and each reference Object. A class that isn't there fits itself and Object alone.
pub fn fits(program: &Program, one: &VerType, other: &VerType) -> bool
    requires { HasClassNumbers program.now }
    ensures { result ≡ fits program.now one.now other.now }
{
    match (one, other) {
        (_, VerType::Top)
        | (VerType::Int, VerType::Int)
        | (VerType::Long, VerType::Long)
        | (VerType::Null, VerType::Null)
        | (VerType::Null, VerType::Ref(_, _)) => true,
        (VerType::Ref(dimensions, element), VerType::Ref(wanted, other)) => {
            ref_fits(program, *dimensions, element, *wanted, other)
        }
        _ => false,
    }
}
