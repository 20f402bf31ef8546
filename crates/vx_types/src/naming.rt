//! The types that names and descriptors say (JVMS 4.2.1, 4.3.2).

ghost use Rattle.std.specs.Prelude.{◌≡◌, ◌<◌, ◌^◌, IfOk, length};
ghost use Rattle.vx_java.specs.Ids.{HasClassNumbers};
ghost use Rattle.vx_types.specs.Types.{arrays_over, class_type, element_named, element_of_class, object_type, ref_of, ref_of_base, type_of, type_of_sort};

use crate::hierarchy::object_class;
use crate::types::{ElementType, VerType};
use std::alloc::{AllocError, Global};
use vx_desc::{Base, JavaType, field_type};
use vx_java::parts::is_interface;
use vx_java::{Sort, class_in, class_of_name};
use vx_link::Program;
use vx_pool::is_array;
use vx_references::sort_of;
use vx_value::{ClassId, Name};

/// A class of the program as an element; an interface counts as Object.
fn element_of_class(program: &Program, class: ClassId) -> ElementType
    requires { HasClassNumbers program.now }
    ensures { result ≡ element_of_class program.now class.0 }
{
    if is_interface(program, class) {
        return ElementType::Class(object_class(program));
    }
    ElementType::Class(class)
}

/// The class of a name as an element.
fn element_named(alloc: Global, program: &Program, name: &[u8]) -> Result<ElementType, AllocError>
    requires { HasClassNumbers program.now }
    ensures { IfOk result (λ e. e ≡ element_named program.now name.now) }
{
    match class_of_name(program, name) {
        Some(class) => Ok(element_of_class(program, class)),
        None => Ok(ElementType::Missing(Name::of(alloc, name)?)),
    }
}

/// The type of objects of a class of the program.
pub fn class_type(program: &Program, class: ClassId) -> VerType
    requires { HasClassNumbers program.now }
    ensures { result ≡ class_type program.now class.0 }
{
    VerType::Ref(0, element_of_class(program, class))
}

/// The type of all references.
pub fn object_type(program: &Program) -> VerType
    requires { HasClassNumbers program.now }
    ensures { result ≡ object_type program.now }
{
    VerType::Ref(0, ElementType::Class(object_class(program)))
}

/// The reference type of a type in a descriptor, with so many more dimensions.
fn ref_of_type(
    alloc: Global,
    program: &Program,
    more: u8,
    descriptor: &[u8],
    item: &JavaType,
) -> Result<VerType, AllocError>
    requires { HasClassNumbers program.now }
    ensures { IfOk result (λ t. t ≡ ref_of_base program.now more descriptor.now item.now item.now.base) }
{
    let dimensions = u32::from(item.dimensions);
    let more = u32::from(more);
    if item.base != Base::Class {
        return Ok(VerType::Ref(
            dimensions.saturating_sub(1) + more,
            ElementType::Primitives(item.base),
        ));
    }
    let element = element_named(alloc, program, class_in(descriptor, item))?;
    Ok(VerType::Ref(dimensions + more, element))
}

/// The type of an array of so many dimensions over a class name or the descriptor of an array, and of these themselves for none.
pub fn arrays_over(
    alloc: Global,
    program: &Program,
    more: u8,
    name: &[u8],
) -> Result<VerType, AllocError>
    requires classes { HasClassNumbers program.now }
    requires text { length name.now < 2 ^ 32 }
    ensures { IfOk result (λ t. t ≡ arrays_over program.now more name.now) }
{
    if !is_array(name) {
        let element = element_named(alloc, program, name)?;
        return Ok(VerType::Ref(u32::from(more), element));
    }
    match field_type(name) {
        Some(item) => ref_of_type(alloc, program, more, name, &item),
        None => Ok(VerType::Ref(
            u32::from(more),
            ElementType::Missing(Name::of(alloc, name)?),
        )),
    }
}

/// The type of a class name or of the descriptor of an array. A class that isn't there keeps its name.
pub fn ref_of(alloc: Global, program: &Program, name: &[u8]) -> Result<VerType, AllocError>
    requires classes { HasClassNumbers program.now }
    requires text { length name.now < 2 ^ 32 }
    ensures { IfOk result (λ t. t ≡ ref_of program.now name.now) }
{
    arrays_over(alloc, program, 0, name)
}

/// The type of a value of a sort that a type of a descriptor has.
fn type_of_sort(
    alloc: Global,
    program: &Program,
    descriptor: &[u8],
    item: &JavaType,
    sort: Sort,
) -> Result<VerType, AllocError>
    requires { HasClassNumbers program.now }
    ensures { IfOk result (λ t. t ≡ type_of_sort program.now descriptor.now item.now sort) }
{
    match sort {
        Sort::Int => Ok(VerType::Int),
        Sort::Long => Ok(VerType::Long),
        Sort::Reference => ref_of_type(alloc, program, 0, descriptor, item),
    }
}

/// The type of a type in a descriptor, or `None` for a float or a double.
pub fn type_of(
    alloc: Global,
    program: &Program,
    descriptor: &[u8],
    item: &JavaType,
) -> Result<Option<VerType>, AllocError>
    requires { HasClassNumbers program.now }
    ensures { IfOk result (λ t. t ≡ type_of program.now descriptor.now item.now) }
{
    match sort_of(*item) {
        Some(sort) => Ok(Some(type_of_sort(alloc, program, descriptor, item, sort)?)),
        None => Ok(None),
    }
}
