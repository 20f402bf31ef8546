//! Where types that name a class are looked for, and whether two types are the same.

ghost use Rattle.std.specs.Bool.{OnTrue};
ghost use Rattle.std.specs.Prelude.{◌≡◌};

use std::hash::{FoldHasher, Hasher};
use vx_types::{ElementType, VerType};
use vx_value::Name;

/// Where a type is looked for: the dimensions, the kind of the element, and a number of the element. One type has one key; types with one
/// key may differ.
pub type TypeKey = (u32, u8, u64);

fn hash_of(name: &Name) -> u64 {
    let mut hasher = FoldHasher::default();
    hasher.write(name.bytes());
    hasher.finish()
}

/// The key of an array of so many dimensions over an element, or of the element itself.
pub(crate) fn key_of(dimensions: u32, element: &ElementType) -> TypeKey {
    match element {
        ElementType::Class(class) => (dimensions, 0, u64::from(class.0)),
        ElementType::Missing(name) => (dimensions, 1, hash_of(name)),
        ElementType::Primitives(base) => (dimensions, 2, *base as u64),
    }
}

fn is_same_element(one: &ElementType, other: &ElementType) -> bool
    ensures { OnTrue result (one.now ≡ other.now) }
{
    match (one, other) {
        (ElementType::Class(class), ElementType::Class(another)) => *class == *another,
        (ElementType::Missing(name), ElementType::Missing(another)) => {
            name.bytes() == another.bytes()
        }
        (ElementType::Primitives(base), ElementType::Primitives(another)) => *base == *another,
        _ => false,
    }
}

/// Whether two types that name a class are one.
pub fn is_same_type(one: &VerType, other: &VerType) -> bool
    ensures { OnTrue result (one.now ≡ other.now) }
{
    match (one, other) {
        (VerType::Ref(dimensions, element), VerType::Ref(wanted, another)) => {
            *dimensions == *wanted && is_same_element(element, another)
        }
        _ => false,
    }
}
