//! The classes of arrays by the elements that instructions name (JVMS 2.4, 6.5 newarray, and the loads and stores of elements).

ghost use Rattle.std.specs.Prelude.{◌≡◌, ◌==◌, ◌<◌, ◌||◌};
ghost use Rattle.vx_java.specs.Arrays.{element_of_number, element_sort, is_array_of};
ghost use Rattle.vx_java.specs.Checks.{width_of_sort};
ghost use Rattle.vx_java.specs.Ids.{HasClassNumbers};
ghost use Rattle.vx_link.specs.ClassNames.{array_class, double_element, float_element};

use vx_java::arrays::has_reference_components;
use vx_java::{Element, Sort};
use vx_link::Program;
use vx_value::ClassId;

/// The elements that are primitive types.
pub const BOOLEAN: u32 = 0;

pub const BYTE: u32 = 1;

pub const CHAR: u32 = 2;

pub const DOUBLE: u32 = 3;

pub const FLOAT: u32 = 4;

pub const INT: u32 = 5;

pub const LONG: u32 = 6;

pub const SHORT: u32 = 7;

/// The element of a type number of newarray, from 4 to 11: boolean, char, float, double, byte, short, int, long.
pub fn element_of_number(number: u32) -> u32
    ensures value { result ≡ element_of_number number }
    ensures few { result < 8 }
{
    match number {
        0..=4 => BOOLEAN,
        5 => CHAR,
        6 => FLOAT,
        7 => DOUBLE,
        8 => BYTE,
        9 => SHORT,
        11 => LONG,
        _ => INT,
    }
}

/// Whether an element is a float or a double.
pub fn is_float(element: u32) -> bool
    ensures { result ≡ ((element == float_element) || (element == double_element)) }
{
    element == FLOAT || element == DOUBLE
}

/// The class of arrays of one dimension with the primitive elements of a number.
pub fn array_of_primitives(program: &Program, element: u32) -> ClassId
    requires numbers { HasClassNumbers program.now }
    requires element { element < 8 }
    ensures { result.0 ≡ array_class program.now 1 element }
{
    ClassId(program.classes.len() as u32 + element)
}

/// Whether a class is that of arrays of one dimension with an element that is a primitive type.
fn has_primitives(program: &Program, class: ClassId, element: u32) -> bool
    ensures { result ≡ (class.0 == array_class program.now 1 element) }
{
    u64::from(class.0) == program.classes.as_slice().len() as u64 + u64::from(element)
}

/// Whether an instruction works on arrays of a class.
pub fn is_array_of(program: &Program, element: Element, class: ClassId) -> bool
    ensures { result ≡ is_array_of program.now element class.0 }
{
    match element {
        Element::References => has_reference_components(program, class),
        Element::Ints => has_primitives(program, class, INT),
        Element::Longs => has_primitives(program, class, LONG),
        Element::Bytes => {
            has_primitives(program, class, BYTE) || has_primitives(program, class, BOOLEAN)
        }
        Element::Chars => has_primitives(program, class, CHAR),
        Element::Shorts => has_primitives(program, class, SHORT),
    }
}

/// The sort of an element.
pub fn sort_of(element: Element) -> Sort
    ensures { result ≡ element_sort element }
{
    match element {
        Element::Longs => Sort::Long,
        Element::References => Sort::Reference,
        Element::Ints | Element::Bytes | Element::Chars | Element::Shorts => Sort::Int,
    }
}

/// How many words an element takes on the operand stack.
pub fn width_of(element: Element) -> u64
    ensures { result ≡ width_of_sort (element_sort element) }
{
    match element {
        Element::Longs => 2,
        _ => 1,
    }
}
