//! The rules that names, descriptors and flags of a source meet (JVMS 4.2, 4.3, 4.6, 4.9.1).

ghost use Rattle.std.specs.Prelude.{◌≡◌, ◌+◌, ◌<◌, ◌≤◌, ◌^◌, length, IfOk, ◌==◌};
ghost use Rattle.vx_desc.specs.Descriptors.{is_method_descriptor};
ghost use Rattle.vx_pool.specs.Lookups.{is_class_text};
ghost use Rattle.vx_class.specs.Members.{takes_code, slots_of, is_lawful_initialiser};
ghost use Rattle.vx_class_parts.specs.Rules.{is_short, is_lawful_class, is_plain_class, is_lawful_field, is_lawful_method, is_int_base, is_value_of_type, is_number_for, is_value_for, is_nothing, may_have_value, receiver, is_lawful_code, interface_slots, has_dimensions};

use std::alloc::{AllocError, Global};
use vx_class::{ABSTRACT, INTERFACE, NATIVE, STATIC, has};
use vx_desc::{
    Base, JavaType, field_type, is_class_name, is_clinit, is_field_descriptor, is_field_name,
    is_init, is_method_name, method_slots, returns_nothing,
};
use vx_pool::{dimensions, is_array};
use vx_source::Value;

fn is_short(name: &[u8]) -> bool
    ensures { result ≡ is_short name.now }
{
    name.len() < 65_536
}

fn is_class_text(name: &[u8]) -> bool
    requires { length name.now < 2 ^ 16 }
    ensures { result ≡ is_class_text name.now }
{
    if is_array(name) {
        is_field_descriptor(name)
    } else {
        is_class_name(name)
    }
}

/// Whether a text is the name of a class or the descriptor of an array, and short enough for the pool.
#[tactic(auto, unfolding(crate::specs::Rules::is_lawful_class))]
pub fn is_lawful_class(name: &[u8]) -> bool
    ensures { result ≡ is_lawful_class name.now }
{
    is_short(name) && is_class_text(name)
}

/// Whether a text is the name of a class that is no array.
#[tactic(auto, unfolding(crate::specs::Rules::is_plain_class))]
pub fn is_plain_class(name: &[u8]) -> bool
    ensures { result ≡ is_plain_class name.now }
{
    !is_array(name) && is_lawful_class(name)
}

#[tactic(auto, unfolding(crate::specs::Rules::is_lawful_field))]
pub fn is_lawful_field(name: &[u8], descriptor: &[u8]) -> bool
    ensures { result ≡ is_lawful_field name.now descriptor.now }
{
    is_short(name) && is_short(descriptor) && is_field_name(name) && is_field_descriptor(descriptor)
}

fn is_method_descriptor(alloc: Global, descriptor: &[u8]) -> Result<bool, AllocError>
    requires { length descriptor.now < 2 ^ 16 }
    ensures { IfOk result (λ b. b ≡ is_method_descriptor descriptor.now) }
{
    Ok(method_slots(alloc, descriptor)?.is_some())
}

#[tactic(auto, unfolding(crate::specs::Rules::is_lawful_method))]
pub fn is_lawful_method(alloc: Global, name: &[u8], descriptor: &[u8]) -> Result<bool, AllocError>
    ensures { IfOk result (λ b. b ≡ is_lawful_method name.now descriptor.now) }
{
    if !is_short(name) || !is_short(descriptor) || !is_method_name(name) {
        return Ok(false);
    }
    is_method_descriptor(alloc, descriptor)
}

fn is_int_base(base: Base) -> bool
    ensures { result ≡ is_int_base base }
{
    matches!(
        base,
        Base::Int | Base::Short | Base::Char | Base::Byte | Base::Bool
    )
}

fn is_value_of_type(value: &Value, item: JavaType) -> bool
    ensures { result ≡ is_value_of_type value.now item }
{
    match value {
        Value::Int(_) => item.dimensions == 0 && is_int_base(item.base),
        Value::Long(_) => item.dimensions == 0 && matches!(item.base, Base::Long),
        _ => false,
    }
}

fn is_number_for(descriptor: &[u8], value: &Value) -> bool
    requires { length descriptor.now < 2 ^ 16 }
    ensures { result ≡ is_number_for descriptor.now value.now }
{
    match field_type(descriptor) {
        None => false,
        Some(item) => is_value_of_type(value, item),
    }
}

/// Whether a value has the kind that its descriptor says.
fn is_value_for(descriptor: &[u8], value: &Value) -> bool
    requires { length descriptor.now < 2 ^ 16 }
    ensures { result ≡ is_value_for descriptor.now value.now }
{
    match value {
        Value::Nothing => true,
        Value::Text(_) => descriptor == b"Ljava/lang/String;".as_slice(),
        _ => is_number_for(descriptor, value),
    }
}

fn is_nothing(value: &Value) -> bool
    ensures { result ≡ is_nothing value.now }
{
    matches!(value, Value::Nothing)
}

/// Whether a field may have a value.
#[tactic(auto, unfolding(crate::specs::Rules::may_have_value))]
pub fn may_have_value(class_flags: u16, flags: u16, descriptor: &[u8], value: &Value) -> bool
    requires { length descriptor.now < 2 ^ 16 }
    ensures { result ≡ may_have_value class_flags flags descriptor.now value.now }
{
    (is_nothing(value) || has(class_flags, INTERFACE) || has(flags, STATIC))
        && is_value_for(descriptor, value)
}

/// Whether <clinit> has no arguments, and neither it nor <init> a result.
pub fn is_lawful_initialiser(
    alloc: Global,
    name: &[u8],
    descriptor: &[u8],
) -> Result<bool, AllocError>
    requires { length descriptor.now < 2 ^ 16 }
    ensures { IfOk result (λ b. b ≡ is_lawful_initialiser name.now descriptor.now) }
{
    if is_clinit(name) && descriptor != b"()V".as_slice() {
        return Ok(false);
    }
    if is_init(name) {
        return returns_nothing(alloc, descriptor);
    }
    Ok(true)
}

fn takes_code(flags: u16, name: &[u8]) -> bool
    ensures { result ≡ takes_code flags name.now }
{
    is_clinit(name) || !(has(flags, ABSTRACT) || has(flags, NATIVE))
}

fn receiver(flags: u16, name: &[u8]) -> u16
    ensures value { result ≡ receiver flags name.now }
    ensures few { result ≤ 1 }
{
    if is_clinit(name) || has(flags, STATIC) {
        0
    } else {
        1
    }
}

/// The argument slots of a method with the receiver.
fn slots_of(alloc: Global, flags: u16, name: &[u8], descriptor: &[u8]) -> Result<u16, AllocError>
    requires { length descriptor.now < 2 ^ 16 }
    ensures { IfOk result (λ n. n ≡ slots_of flags name.now descriptor.now) }
{
    let slots = method_slots(alloc, descriptor)?;
    Ok(slots.unwrap_or(0) + receiver(flags, name))
}

/// Whether code stands exactly where the flags ask for it, and its locals have room for the arguments.
#[tactic(auto, unfolding(crate::specs::Rules::is_lawful_code))]
pub fn is_lawful_code(
    alloc: Global,
    flags: u16,
    name: &[u8],
    descriptor: &[u8],
    max_locals: Option<u16>,
) -> Result<bool, AllocError>
    requires { length descriptor.now < 2 ^ 16 }
    ensures { IfOk result (λ b. b ≡ is_lawful_code flags name.now descriptor.now max_locals) }
{
    match max_locals {
        None => Ok(!takes_code(flags, name)),
        Some(locals) => {
            let slots = slots_of(alloc, flags, name, descriptor)?;
            Ok(takes_code(flags, name) && slots <= locals)
        }
    }
}

/// The argument slots of a method of an interface with the receiver.
pub fn interface_slots(alloc: Global, descriptor: &[u8]) -> Result<u16, AllocError>
    ensures { IfOk result (λ n. n ≡ interface_slots descriptor.now) }
{
    if !is_short(descriptor) {
        return Ok(0);
    }
    Ok(method_slots(alloc, descriptor)?.unwrap_or(0) + 1)
}

/// Whether a class has dimensions, so many at least.
pub fn has_dimensions(count: u8, name: &[u8]) -> bool
    ensures { result ≡ has_dimensions count name.now }
{
    count >= 1 && usize::from(count) <= dimensions(name)
}
