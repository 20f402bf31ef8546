//! What the descriptors of methods say.

ghost use Rattle.std.specs.Prelude.{◌≡◌, ◌<◌, ◌^◌, [], IfOk, None, length};
ghost use Rattle.vx_link.specs.Parts.{method_at};
ghost use Rattle.vx_link.specs.Signature.{signature};

use std::alloc::{AllocError, Global};
use vx_desc::{DescFault, Descriptor, read_descriptor};
use vx_link::Program;
use vx_list::Items;
use vx_value::MethodId;

/// A descriptor without arguments and without a result.
fn nothing(alloc: Global) -> Descriptor
    ensures { result ≡ record { arguments = []; result = None } }
{
    Descriptor {
        arguments: Items::of(Vec::new(alloc)),
        result: None,
    }
}

/// The types of a method's arguments and of its result by its descriptor (JVMS 4.3.3). The byte before the arguments is not looked
/// at: it is `(` in each descriptor of a method, and read as that. What is no descriptor has no arguments and no result.
pub fn signature(alloc: Global, descriptor: &[u8]) -> Result<Descriptor, AllocError>
    requires { length descriptor.now < 2 ^ 32 }
    ensures { IfOk result (λ d. d ≡ signature descriptor.now) }
{
    if descriptor.is_empty() {
        return Ok(nothing(alloc));
    }
    let mut text = Vec::new(alloc);
    text.push(b'(')?;
    text.extend_from_slice(&descriptor[1..])?;
    match read_descriptor(alloc, text.as_slice()) {
        Ok(read) => Ok(read),
        Err(DescFault::Bad) => Ok(nothing(alloc)),
        Err(DescFault::NoMemory) => Err(AllocError),
    }
}

/// The types of a method's arguments and of its result. A method that isn't there has neither.
pub fn signature_of_method(
    alloc: Global,
    program: &Program,
    method: MethodId,
) -> Result<Descriptor, AllocError>
    ensures { IfOk result (λ d. d ≡ signature (method_at program.now method.0).descriptor) }
{
    match program.method(method) {
        Some(method) => signature(alloc, method.descriptor.bytes()),
        None => signature(alloc, &[]),
    }
}
