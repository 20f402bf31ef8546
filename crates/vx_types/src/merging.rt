//! What two types have in common (JVMS 4.10.2.2).

ghost use Rattle.std.specs.Prelude.{◌≡◌, IfOk};
ghost use Rattle.vx_java.specs.Ids.{HasClassNumbers};
ghost use Rattle.vx_types.specs.Common.{IsCommon, common_apart, common_element, common_ref, first_above, or_object};
ghost use Rattle.vx_types.specs.Ranked.{IsRanked};

use crate::fitting::fits;
use crate::hierarchy::{first_above, object_class};
use crate::types::{ElementType, VerType};
use std::alloc::{AllocError, Global};
use vx_link::Program;
use vx_value::{ClassId, Name};

/// The same element once more.
pub fn element_copy(alloc: Global, element: &ElementType) -> Result<ElementType, AllocError>
    ensures { IfOk result (λ e. e ≡ element.now) }
{
    match element {
        ElementType::Class(class) => Ok(ElementType::Class(*class)),
        ElementType::Missing(name) => Ok(ElementType::Missing(Name::of(alloc, name.bytes())?)),
        ElementType::Primitives(base) => Ok(ElementType::Primitives(*base)),
    }
}

/// The same type once more.
pub fn type_copy(alloc: Global, one: &VerType) -> Result<VerType, AllocError>
    ensures { IfOk result (λ t. t ≡ one.now) }
{
    match one {
        VerType::Top => Ok(VerType::Top),
        VerType::Int => Ok(VerType::Int),
        VerType::Long => Ok(VerType::Long),
        VerType::Null => Ok(VerType::Null),
        VerType::Ref(dimensions, element) => {
            Ok(VerType::Ref(*dimensions, element_copy(alloc, element)?))
        }
    }
}

/// The first class above two classes, else Object.
fn common_class(program: &Program, one: ClassId, other: ClassId) -> ElementType
    requires { HasClassNumbers program.now }
    ensures { result ≡ or_object program.now (first_above program.now one.0 other.0) }
{
    match first_above(program, one, other) {
        Some(above) => ElementType::Class(above),
        None => ElementType::Class(object_class(program)),
    }
}

/// What two elements have in common of which neither fits the other: of two classes the first above both, else Object.
fn common_element(program: &Program, one: &ElementType, other: &ElementType) -> ElementType
    requires { HasClassNumbers program.now }
    ensures { result ≡ common_element program.now one.now other.now }
{
    match (one, other) {
        (ElementType::Class(class), ElementType::Class(another)) => {
            common_class(program, *class, *another)
        }
        _ => ElementType::Class(object_class(program)),
    }
}

/// What two references have in common of which neither fits the other.
fn common_ref(
    program: &Program,
    dimensions: u32,
    element: &ElementType,
    others: u32,
    another: &ElementType,
) -> VerType
    requires { HasClassNumbers program.now }
    ensures { result ≡ common_ref program.now dimensions element.now others another.now }
{
    if dimensions == others {
        return VerType::Ref(dimensions, common_element(program, element, another));
    }
    VerType::Ref(
        dimensions.min(others),
        ElementType::Class(object_class(program)),
    )
}

/// What two types have in common of which neither fits the other.
fn common_apart(program: &Program, one: &VerType, other: &VerType) -> VerType
    requires { HasClassNumbers program.now }
    ensures { result ≡ common_apart program.now one.now other.now }
{
    match (one, other) {
        (VerType::Ref(dimensions, element), VerType::Ref(others, another)) => {
            common_ref(program, *dimensions, element, *others, another)
        }
        _ => VerType::Top,
    }
}

/// The least type that two types fit: the other one where the one fits it; else of two classes the first superclass of both, of two
/// arrays that of their components, of any other two references Object, and `Top` of all else.
pub fn common(
    alloc: Global,
    program: &Program,
    one: &VerType,
    other: &VerType,
) -> Result<VerType, AllocError>
    requires classes { HasClassNumbers program.now }
    requires ranked { IsRanked program.now }
    ensures { IfOk result (IsCommon program.now one.now other.now) }
{
    if fits(program, one, other) {
        return type_copy(alloc, other);
    }
    if fits(program, other, one) {
        return type_copy(alloc, one);
    }
    Ok(common_apart(program, one, other))
}
