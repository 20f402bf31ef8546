//! The classes of arrays by their elements, and what elements begin with (JVMS 2.3, 2.4, 6.5).

ghost use Rattle.std.specs.Prelude.{◌≡◌, IfOk, IfSome};
ghost use Rattle.vx_java.specs.Arrays.{array_of, element_default};
ghost use Rattle.vx_java.specs.Ids.{HasClassNumbers};
ghost use Rattle.vx_link.specs.ClassNames.{array_over};
ghost use Rattle.vx_plain.specs.Views.{object_of, value_of};
ghost use Rattle.vx_plain_arrays.specs.Elements.{default_of_element};

use std::alloc::{AllocError, Global};
use vx_java::arrays::{element_of, elements, has_reference_components};
use vx_link::Program;
use vx_plain::{Object, Value, held};
use vx_references::arrays::{DOUBLE, FLOAT, LONG};
use vx_value::ClassId;

/// What a primitive element begins with; a float or a double is never read.
fn primitive_default(element: u64) -> Value
    ensures { result ≡ default_of_element element }
{
    if element == u64::from(DOUBLE) || element == u64::from(FLOAT) {
        return Value::Top;
    }
    if element == u64::from(LONG) {
        return Value::Long(0);
    }
    Value::Int(0)
}

/// What the elements of arrays of a class begin with.
fn element_default(program: &Program, class: ClassId) -> Value
    ensures { value_of result ≡ element_default program.now class.0 }
{
    if has_reference_components(program, class) {
        return Value::Null;
    }
    primitive_default(element_of(program, class))
}

/// The class of a number, if it fits.
fn class_if(number: u64) -> Option<ClassId>
    ensures { IfSome result (λ class. class.0 ≡ number) }
{
    if number > 0xFFFF_FFFF {
        return None;
    }
    Some(ClassId(number as u32))
}

/// The class of arrays whose components are of a class: one dimension more is so many numbers further. One whose number is from 2^32
/// on is not held.
pub(crate) fn array_over(program: &Program, class: ClassId) -> Result<ClassId, AllocError>
    requires { HasClassNumbers program.now }
    ensures { IfOk result (λ r. r.0 ≡ array_over program.now class.0) }
{
    held(class_if(u64::from(class.0) + elements(program)))
}

/// A new array of a class.
#[tactic(auto, using(crate::proofs::Laws::filled))]
pub(crate) fn array_of(
    alloc: Global,
    program: &Program,
    class: ClassId,
    length: usize,
) -> Result<Object, AllocError>
    ensures { IfOk result (λ object. object_of object ≡ array_of program.now class.0 length) }
{
    let value = element_default(program, class);
    let cells = Vec::from_elem(alloc, value, length)?;
    Ok(Object::array(class, cells))
}
