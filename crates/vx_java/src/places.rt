//! The place of an instruction, as reports name it.

ghost use Rattle.std.specs.Prelude.{◌≡◌, ◌++◌, IfOk, OnOk};
ghost use Rattle.vx_java.specs.Machine.{method_text, place_at};
ghost use Rattle.vx_link.specs.Parts.{method_at};

use crate::parts::{class_of_method, descriptor_of_method, name_of_class, name_of_method};
use itoa::Buffer;
use std::alloc::{AllocError, Global};
use vx_link::Program;
use vx_value::{MethodId, Name};

fn put_method(out: &mut Vec<u8>, program: &Program, method: MethodId) -> Result<(), AllocError>
    ensures { OnOk result (out.new.items ≡ out.old.items ++ method_text program.now (method_at program.now method.0)) }
{
    out.extend_from_slice(name_of_class(program, class_of_method(program, method)))?;
    out.extend_from_slice(b".")?;
    out.extend_from_slice(name_of_method(program, method))?;
    out.extend_from_slice(descriptor_of_method(program, method))
}

/// The class, the name and the descriptor of a method and a position in its code, as `CLASS.NAMEDESC@POSITION`.
pub fn place(
    alloc: Global,
    program: &Program,
    method: MethodId,
    position: u32,
) -> Result<Name, AllocError>
    ensures { IfOk result (λ place. place ≡ place_at program.now method.0 position) }
{
    let mut text = Vec::new(alloc);
    put_method(&mut text, program, method)?;
    text.extend_from_slice(b"@")?;
    let mut buffer = Buffer::new();
    text.extend_from_slice(buffer.format(position).as_bytes())?;
    Ok(Name::from_vec(text))
}
