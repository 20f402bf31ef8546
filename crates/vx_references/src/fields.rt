//! What an instruction of a field and its program decide alone, the same at each configuration.

ghost use Rattle.std.specs.Prelude.{◌≡◌, ◌<◌, ◌^◌, IfOk, length, option_map};
ghost use Rattle.vx_java.specs.Checks.{same_bool, sort_of, width_of_type};
ghost use Rattle.vx_java.specs.Fields.{field_text};
ghost use Rattle.vx_java.specs.FirstObjects.{narrow_of_type};
ghost use Rattle.vx_java.specs.Ids.{as_class};
ghost use Rattle.vx_java.specs.Named.{in_bytes};
ghost use Rattle.vx_link.specs.ClassNames.{class_named};
ghost use Rattle.vx_link.specs.Names.{member};
ghost use Rattle.vx_link.specs.Parts.{is_static_field};
ghost use Rattle.vx_references.specs.Fields.{IsFieldReference};

use bitflags::Flags;
use std::alloc::{AllocError, Global};
use vx_desc::{Base, JavaType, field_type};
use vx_java::{MemberReference, Sort, member, resolve_field};
use vx_link::{AccessFlags, Program};
use vx_pool::Pool;
use vx_value::{ClassId, FieldId, Name, Narrow};

/// What an instruction of a field and its program decide alone (JVMS 5.4.3.2, 6.5).
#[derive(Clone, Copy)]
pub enum FieldReference {
    /// The class that the instruction names, its field, and the type of the field.
    Found {
        named: ClassId,
        field: FieldId,
        field_type: JavaType,
    },
    /// The descriptor is that of no field: a rule of the instruction is broken.
    NoType,
    /// The field is a float or a double, which is outside the accepted language.
    Floating,
    /// The program has no class of the name.
    NoClass,
    /// The class has no such field.
    NoField,
    /// The field is static where one of an object is wanted, or the other way round.
    Disagrees,
}

/// The sort of a value of a type; a float or a double has none.
pub fn sort_of(field_type: JavaType) -> Option<Sort>
    ensures { result ≡ sort_of field_type }
{
    if field_type.dimensions != 0 {
        return Some(Sort::Reference);
    }
    match field_type.base {
        Base::Double | Base::Float => None,
        Base::Long => Some(Sort::Long),
        Base::Class => Some(Sort::Reference),
        Base::Bool | Base::Byte | Base::Char | Base::Int | Base::Short => Some(Sort::Int),
    }
}

/// How many words a value of a type takes on the operand stack; a float or a double is never one.
pub fn width_of(field_type: JavaType) -> u64
    ensures { result ≡ width_of_type field_type }
{
    match sort_of(field_type) {
        Some(Sort::Long) => 2,
        Some(Sort::Int | Sort::Reference) => 1,
        None => 0,
    }
}

/// What a store to a field of a type narrows an int to (JVMS 6.5 putstatic, putfield).
pub fn narrow_of(field_type: JavaType) -> Option<Narrow>
    ensures { result ≡ narrow_of_type field_type }
{
    if field_type.dimensions != 0 {
        return None;
    }
    match field_type.base {
        Base::Byte => Some(Narrow::Byte),
        Base::Char => Some(Narrow::Char),
        Base::Short => Some(Narrow::Short),
        Base::Bool => Some(Narrow::Bool),
        Base::Double | Base::Float | Base::Long | Base::Class | Base::Int => None,
    }
}

/// Whether a field is static; one that isn't there is not.
pub fn is_static_field(program: &Program, field: FieldId) -> bool
    ensures { result ≡ is_static_field program.now field.0 }
{
    match program.field(field) {
        Some(field) => field.flags.contains(AccessFlags::STATIC),
        None => false,
    }
}

/// Whether a field is static where a static one is wanted, and isn't where one of an object is.
pub fn agrees(program: &Program, field: FieldId, is_static: bool) -> bool
    ensures { result ≡ same_bool is_static (is_static_field program.now field.0) }
{
    if is_static {
        is_static_field(program, field)
    } else {
        !is_static_field(program, field)
    }
}

/// The field that an instruction names by an entry of a pool, where `owner` is the class that the entry names, and the instruction
/// wants a static field or one of an object.
pub fn field_reference(
    program: &Program,
    pool: &Pool,
    index: u16,
    owner: Option<ClassId>,
    is_static: bool,
) -> FieldReference
    requires owner { owner ≡ option_map as_class (class_named program.now (member pool.now index).class) }
    requires descriptor { length (member pool.now index).descriptor < 2 ^ 32 }
    ensures { IsFieldReference program.now pool.now index is_static result }
{
    let reference = member(pool, index);
    let Some(field_type) = field_type(reference.descriptor) else {
        return FieldReference::NoType;
    };
    let Some(_sort) = sort_of(field_type) else {
        return FieldReference::Floating;
    };
    let Some(named) = owner else {
        return FieldReference::NoClass;
    };
    let Some(field) = resolve_field(program, named, reference.name, reference.descriptor) else {
        return FieldReference::NoField;
    };
    if !agrees(program, field, is_static) {
        return FieldReference::Disagrees;
    }
    FieldReference::Found {
        named,
        field,
        field_type,
    }
}

/// The class, the name and the descriptor of a field that an instruction names, as `CLASS.NAME:DESC`.
pub fn field_text(alloc: Global, named: &MemberReference<'_>) -> Result<Name, AllocError>
    ensures { IfOk result (λ text. text ≡ field_text (in_bytes named.now)) }
{
    let mut text = Vec::from_slice(alloc, named.class)?;
    text.extend_from_slice(b".")?;
    text.extend_from_slice(named.name)?;
    text.extend_from_slice(b":")?;
    text.extend_from_slice(named.descriptor)?;
    Ok(Name::from_vec(text))
}
