//! Reading descriptors (JVMS 4.3): a field's type, or a method's arguments in `(` and `)` and its result.

ghost use Rattle.std.specs.Prelude.{◌≡◌, ◌+◌, ◌<◌, ◌≤◌, ◌^◌, ◌==◌, IfSome, IfOk, length, slice_index, sum_by};
ghost use Rattle.vx_desc.specs.Descriptors.{base_of, element_at, type_at, types_at, result_at, slots_of, method_of, field_of, descriptor_of, HasFewSlots, is_field_descriptor, is_method_descriptor, field_type, method_slots, returns_nothing, Gives};

use crate::java_type::{Base, DescFault, Descriptor, JavaType};
use crate::names::{brackets, is_class_name, semicolon};
use std::alloc::{AllocError, Global};
use vx_list::Items;

/// The byte at a place, or 0 past the end.
fn byte_at(bytes: &[u8], at: usize) -> u8
    ensures { result ≡ slice_index bytes.now at }
{
    if at < bytes.len() { bytes[at] } else { 0 }
}

fn base(letter: u8) -> Option<Base>
    ensures { result ≡ base_of letter }
{
    match letter {
        b'Z' => Some(Base::Bool),
        b'B' => Some(Base::Byte),
        b'C' => Some(Base::Char),
        b'D' => Some(Base::Double),
        b'F' => Some(Base::Float),
        b'I' => Some(Base::Int),
        b'J' => Some(Base::Long),
        b'S' => Some(Base::Short),
        _ => None,
    }
}

#[tactic(auto, unfolding(crate::specs::Descriptors::element_at))]
fn element(dimensions: u8, bytes: &[u8], at: usize) -> Option<(JavaType, usize)>
    requires place { at ≤ length bytes.now }
    requires size { length bytes.now < 2 ^ 32 }
    ensures value { result ≡ element_at dimensions bytes.now at }
    ensures bounds { IfSome result (λ t. (at < t.1) × (t.1 ≤ length bytes.now)) }
{
    if byte_at(bytes, at) == b'L' {
        let rest = &bytes[at + 1..];
        let len = semicolon(rest)?;
        if !is_class_name(&rest[..len]) {
            return None;
        }
        let from = (at + 1) as u32;
        let end = (at + 1 + len) as u32;
        Some((
            JavaType {
                base: Base::Class,
                dimensions,
                from,
                end,
            },
            at + len + 2,
        ))
    } else {
        let base = base(byte_at(bytes, at))?;
        Some((
            JavaType {
                base,
                dimensions,
                from: 0,
                end: 0,
            },
            at + 1,
        ))
    }
}

#[tactic(auto, unfolding(crate::specs::Descriptors::type_at))]
fn type_from(bytes: &[u8], at: usize) -> Option<(JavaType, usize)>
    requires place { at ≤ length bytes.now }
    requires size { length bytes.now < 2 ^ 32 }
    ensures value { result ≡ type_at bytes.now at }
    ensures bounds { IfSome result (λ t. (at < t.1) × (t.1 ≤ length bytes.now)) }
{
    let dimensions = brackets(&bytes[at..]);
    if dimensions <= 255 {
        element(dimensions as u8, bytes, at + dimensions)
    } else {
        None
    }
}

/// The types from a place to the `)`.
fn types_from(alloc: Global, bytes: &[u8], at: usize) -> Result<(Items<JavaType>, usize), DescFault>
    requires place { at ≤ length bytes.now }
    requires size { length bytes.now < 2 ^ 32 }
    ensures value { Gives result (types_at (length bytes.now) bytes.now at) }
    ensures bounds { IfOk result (λ t. t.1 ≤ length bytes.now) }
    ensures few { IfOk result (λ t. length t.0 ≤ length bytes.now) }
{
    let mut items = Vec::new(alloc);
    let mut next = at;
    for _ in 0..bytes.len() {
        if byte_at(bytes, next) == b')' {
            return Ok((Items::of(items), next + 1));
        }
        let Some((item, after)) = type_from(bytes, next) else {
            return Err(DescFault::Bad);
        };
        items.push(item)?;
        next = after;
    }
    Err(DescFault::Bad)
}

#[tactic(auto, unfolding(crate::specs::Descriptors::result_at))]
fn result_from(bytes: &[u8], at: usize) -> Option<(Option<JavaType>, usize)>
    requires place { at ≤ length bytes.now }
    requires size { length bytes.now < 2 ^ 32 }
    ensures { result ≡ result_at bytes.now at }
{
    if byte_at(bytes, at) == b'V' {
        return Some((None, at + 1));
    }
    let (item, after) = type_from(bytes, at)?;
    Some((Some(item), after))
}

/// The argument slots of a type.
fn slots(item: JavaType) -> u64
    ensures value { result ≡ slots_of item }
    ensures small { result ≤ 2 }
{
    match item.base {
        Base::Long | Base::Double if item.dimensions == 0 => 2,
        _ => 1,
    }
}

/// The argument slots of types in a row.
fn slots_of_all(items: &[JavaType]) -> u64
    requires { length items.now < 2 ^ 32 }
    ensures { result ≡ sum_by slots_of items.now }
{
    items.iter().map(|item| slots(*item)).sum()
}

#[tactic(auto, unfolding(crate::specs::Descriptors::method_of))]
fn method(alloc: Global, bytes: &[u8]) -> Result<Descriptor, DescFault>
    requires begins { 1 ≤ length bytes.now }
    requires size { length bytes.now < 2 ^ 32 }
    ensures value { Gives result (method_of bytes.now) }
    ensures few { IfOk result HasFewSlots }
{
    let (arguments, after) = types_from(alloc, bytes, 1)?;
    let Some((result, end)) = result_from(bytes, after) else {
        return Err(DescFault::Bad);
    };
    if slots_of_all(arguments.as_slice()) <= 255 && end == bytes.len() {
        Ok(Descriptor { arguments, result })
    } else {
        Err(DescFault::Bad)
    }
}

#[tactic(auto, unfolding(crate::specs::Descriptors::field_of))]
fn field(alloc: Global, bytes: &[u8]) -> Result<Descriptor, DescFault>
    requires { length bytes.now < 2 ^ 32 }
    ensures value { Gives result (field_of bytes.now) }
    ensures few { IfOk result HasFewSlots }
{
    match type_from(bytes, 0) {
        Some((item, end)) if end == bytes.len() => {
            let arguments = Items::of(Vec::new(alloc));
            Ok(Descriptor {
                arguments,
                result: Some(item),
            })
        }
        _ => Err(DescFault::Bad),
    }
}

/// What a descriptor of a field or a method says. It is `Bad` where the bytes are none: a type has at most 255
/// dimensions, and a method at most 255 argument slots, the receiver not counted.
#[tactic(auto, unfolding(crate::specs::Descriptors::descriptor_of))]
pub fn read_descriptor(alloc: Global, bytes: &[u8]) -> Result<Descriptor, DescFault>
    requires { length bytes.now < 2 ^ 32 }
    ensures value { Gives result (descriptor_of bytes.now) }
    // A method has at most 255 argument slots.
    ensures few { IfOk result HasFewSlots }
{
    if byte_at(bytes, 0) == b'(' {
        method(alloc, bytes)
    } else {
        field(alloc, bytes)
    }
}

/// The argument slots of a method, without a receiver: two for a long or a double, and one for any other type.
pub fn argument_slots(descriptor: &Descriptor) -> u16
    requires { HasFewSlots descriptor.now }
    ensures { result ≡ sum_by slots_of descriptor.now.arguments }
{
    slots_of_all(descriptor.arguments.as_slice()) as u16
}

/// Whether a text is the descriptor of a field.
#[tactic(auto, unfolding(crate::specs::Descriptors::field_of))]
pub fn is_field_descriptor(bytes: &[u8]) -> bool
    requires { length bytes.now < 2 ^ 32 }
    ensures { result ≡ is_field_descriptor bytes.now }
{
    matches!(type_from(bytes, 0), Some((_, end)) if end == bytes.len())
}

/// The type that the descriptor of a field says.
#[tactic(auto, unfolding(crate::specs::Descriptors::field_of))]
pub fn field_type(bytes: &[u8]) -> Option<JavaType>
    requires { length bytes.now < 2 ^ 32 }
    ensures { result ≡ field_type bytes.now }
{
    match type_from(bytes, 0) {
        Some((item, end)) if end == bytes.len() => Some(item),
        _ => None,
    }
}

/// The argument slots that the descriptor of a method says, without a receiver; `None` where it is none.
#[tactic(auto, unfolding(crate::specs::Descriptors::method_slots))]
pub fn method_slots(alloc: Global, bytes: &[u8]) -> Result<Option<u16>, AllocError>
    requires { length bytes.now < 2 ^ 32 }
    ensures value { IfOk result (λ slots. slots ≡ method_slots bytes.now) }
    ensures few { IfOk result (λ slots. IfSome slots (λ n. n ≤ 255)) }
{
    if byte_at(bytes, 0) != b'(' {
        return Ok(None);
    }
    match method(alloc, bytes) {
        Ok(descriptor) => Ok(Some(argument_slots(&descriptor))),
        Err(DescFault::Bad) => Ok(None),
        Err(DescFault::NoMemory) => Err(AllocError),
    }
}

/// Whether a text is the descriptor of a method.
pub fn is_method_descriptor(alloc: Global, bytes: &[u8]) -> Result<bool, AllocError>
    requires { length bytes.now < 2 ^ 32 }
    ensures { IfOk result (λ b. b ≡ is_method_descriptor bytes.now) }
{
    Ok(method_slots(alloc, bytes)?.is_some())
}

/// Whether a text is the descriptor of a method without a result.
pub fn returns_nothing(alloc: Global, bytes: &[u8]) -> Result<bool, AllocError>
    requires { length bytes.now < 2 ^ 32 }
    ensures { IfOk result (λ b. b ≡ returns_nothing bytes.now) }
{
    if byte_at(bytes, 0) != b'(' {
        return Ok(false);
    }
    match method(alloc, bytes) {
        Ok(descriptor) => Ok(descriptor.result.is_none()),
        Err(DescFault::Bad) => Ok(false),
        Err(DescFault::NoMemory) => Err(AllocError),
    }
}
