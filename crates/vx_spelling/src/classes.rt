//! The names of classes.

ghost use Rattle.std.specs.Prelude.{◌≡◌, ◌+◌, ◌++◌, ◌<◌, ◌^◌, true, IfOk, OnOk};
ghost use Rattle.vx_link.specs.ClassNames.{class_text, dimensions_of, element_of, is_array, spelled_element};
ghost use Rattle.vx_link.specs.Parts.{class_count};

use std::alloc::{AllocError, Global};
use vx_java::parts::{is_array, name_of_class};
use vx_link::Program;
use vx_value::{ClassId, Name};

/// The letters of the primitive types in descriptors, by the numbers of the elements (JVMS 4.3.2).
const LETTERS: &[u8] = b"ZBCDFIJS";

/// The dimensions and the element of an array class.
fn array_parts(program: &Program, class: ClassId) -> (usize, usize)
    requires { is_array program.now class.0 ≡ true }
    ensures dimensions { result.0 ≡ dimensions_of program.now class.0 }
    ensures element { result.1 ≡ element_of program.now class.0 }
    ensures within { result.1 < class_count program.now + 8 }
{
    let classes = program.classes.as_slice().len();
    let elements = classes + LETTERS.len();
    let number = class.0 as usize - classes;
    (number / elements + 1, number % elements)
}

/// Writes the descriptor of the element of an array.
fn put_element(program: &Program, element: usize, text: &mut Vec<u8>) -> Result<(), AllocError>
    requires { element < 2 ^ 32 }
    ensures { OnOk result (text.new.items ≡ text.old.items ++ spelled_element program.now element) }
{
    if element < LETTERS.len() {
        text.push(LETTERS[element])?;
        return Ok(());
    }
    let class = ClassId((element - LETTERS.len()) as u32);
    text.push(b'L')?;
    text.extend_from_slice(name_of_class(program, class))?;
    text.push(b';')?;
    Ok(())
}

/// The name of a class, and of an array class its descriptor (JVMS 4.3.2).
pub fn class_text(alloc: Global, program: &Program, class: ClassId) -> Result<Name, AllocError>
    ensures { IfOk result (λ text. text ≡ class_text program.now class.0) }
{
    if !is_array(program, class) {
        return Name::of(alloc, name_of_class(program, class));
    }
    let (dimensions, element) = array_parts(program, class);
    let mut text = Vec::from_elem(alloc, b'[', dimensions)?;
    put_element(program, element, &mut text)?;
    Ok(Name::from_vec(text))
}
