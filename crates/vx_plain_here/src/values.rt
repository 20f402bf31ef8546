//! Values by the types of descriptors: their sorts, and what a store to a field keeps of them (JVMS 6.5 putstatic, putfield).

ghost use Rattle.std.specs.Prelude.{◌≡◌, Some};
ghost use Rattle.vx_java.specs.Checks.{fits_type};
ghost use Rattle.vx_java.specs.FirstObjects.{narrowed_value, narrowed_value_to};
ghost use Rattle.vx_plain.specs.Views.{value_of};

use vx_desc::JavaType;
use vx_numbers::narrow;
use vx_plain::Value;
use vx_references::fields::narrow_of;
use vx_references::sort_of;
use vx_value::Narrow;

/// Whether a value is of the sort of a type.
pub fn fits(java_type: JavaType, value: Value) -> bool
    ensures { result ≡ fits_type java_type (value_of value) }
{
    match sort_of(java_type) {
        Some(sort) => value.is_of(sort),
        None => false,
    }
}

/// A value that is narrowed, if it is an int.
fn narrowed_to(to: Narrow, value: Value) -> Value
    ensures { value_of result ≡ narrowed_value_to (Some to) (value_of value) }
{
    match value {
        Value::Int(n) => Value::Int(narrow(to, n)),
        _ => value,
    }
}

/// What a store to a field of a type keeps of a value.
pub fn narrowed(java_type: JavaType, value: Value) -> Value
    ensures { value_of result ≡ narrowed_value java_type (value_of value) }
{
    match narrow_of(java_type) {
        Some(to) => narrowed_to(to, value),
        None => value,
    }
}
