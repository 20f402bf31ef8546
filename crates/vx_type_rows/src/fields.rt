//! Instructions of fields (JVMS 6.5 getstatic, putstatic, getfield, putfield).

ghost use Rattle.std.specs.Prelude.{◌≡◌, ◌<◌, ◌^◌, IfOk, Some, length};
ghost use Rattle.vx_java.specs.Ids.{HasClassNumbers};
ghost use Rattle.vx_java.specs.Named.{in_bytes};
ghost use Rattle.vx_type_rows.specs.Members.{accepted_row, access_row, class_has_field, field_row, is_accessed, is_static, typed_row};
ghost use Rattle.vx_types.specs.Rows.{holder};

use crate::pool::member_at;
use crate::wants::computes_of;
use std::alloc::{AllocError, Global};
use vx_desc::{JavaType, field_type};
use vx_java::{MemberReference, class_named, resolve_field};
use vx_link::Program;
use vx_list::Items;
use vx_references::fields::agrees;
use vx_types::{Row, VerType, Want, ref_of, type_of};
use vx_value::{ClassId, MethodId};

/// What an instruction does with a field.
#[derive(Clone, Copy)]
pub enum Access {
    GetStatic,
    PutStatic,
    GetField,
    PutField,
}

/// Whether the instruction is of static fields.
fn is_static(access: Access) -> bool
    ensures { result ≡ is_static access }
{
    match access {
        Access::GetStatic | Access::PutStatic => true,
        Access::GetField | Access::PutField => false,
    }
}

/// Whether a class has the field that an instruction names, static or not as it wants it.
fn has_field(program: &Program, access: Access, named: ClassId, member: &MemberReference) -> bool
    ensures { result ≡ class_has_field program.now (is_static access) (in_bytes member.now) (Some named.0) }
{
    match resolve_field(program, named, member.name, member.descriptor) {
        Some(field) => agrees(program, field, is_static(access)),
        None => false,
    }
}

/// Whether the field that an instruction names is there, and is static or not as the instruction wants it.
fn is_accessed(program: &Program, access: Access, member: &MemberReference) -> bool
    requires classes { HasClassNumbers program.now }
    requires class { length member.now.class.now < 2 ^ 16 }
    ensures { result ≡ is_accessed program.now (is_static access) (in_bytes member.now) }
{
    match class_named(program, member.class) {
        Some(named) => has_field(program, access, named, member),
        None => false,
    }
}

/// An object of the class that an instruction names.
pub fn holder(
    alloc: Global,
    program: &Program,
    member: &MemberReference,
) -> Result<Want, AllocError>
    requires classes { HasClassNumbers program.now }
    requires class { length member.now.class.now < 2 ^ 16 }
    ensures { IfOk result (λ w. w ≡ holder program.now (in_bytes member.now)) }
{
    Ok(Want::Fits(ref_of(alloc, program, member.class)?))
}

/// What an instruction with a field of a type needs and gives.
fn access_row(
    alloc: Global,
    program: &Program,
    access: Access,
    member: &MemberReference,
    item: VerType,
) -> Result<Row, AllocError>
    requires classes { HasClassNumbers program.now }
    requires class { length member.now.class.now < 2 ^ 16 }
    ensures { IfOk result (λ row. row ≡ access_row program.now access (in_bytes member.now) item) }
{
    let mut wants = Vec::new(alloc);
    match access {
        Access::GetStatic => Ok(computes_of(wants, item)),
        Access::PutStatic => {
            wants.push(Want::Fits(item))?;
            Ok(Row::Takes(Items::of(wants), None))
        }
        Access::GetField => {
            wants.push(holder(alloc, program, member)?)?;
            Ok(computes_of(wants, item))
        }
        Access::PutField => {
            wants.push(Want::Fits(item))?;
            wants.push(holder(alloc, program, member)?)?;
            Ok(Row::Takes(Items::of(wants), None))
        }
    }
}

/// What an instruction with a field of an accepted type needs and gives, where the field is there and agrees.
fn accepted_row(
    alloc: Global,
    program: &Program,
    access: Access,
    member: &MemberReference,
    item: VerType,
) -> Result<Row, AllocError>
    requires classes { HasClassNumbers program.now }
    requires class { length member.now.class.now < 2 ^ 16 }
    ensures { IfOk result (λ row. row ≡ accepted_row program.now access (in_bytes member.now) item) }
{
    if is_accessed(program, access, member) {
        return access_row(alloc, program, access, member, item);
    }
    Ok(Row::Ends)
}

/// What an instruction with a field of a type of a descriptor needs and gives; a float or a double leaves nothing to need.
fn typed_row(
    alloc: Global,
    program: &Program,
    access: Access,
    member: &MemberReference,
    item: &JavaType,
) -> Result<Row, AllocError>
    requires classes { HasClassNumbers program.now }
    requires class { length member.now.class.now < 2 ^ 16 }
    ensures { IfOk result (λ row. row ≡ typed_row program.now access (in_bytes member.now) item.now) }
{
    let found = type_of(alloc, program, member.descriptor, item)?;
    match found {
        Some(accepted) => accepted_row(alloc, program, access, member, accepted),
        None => Ok(Row::Ends),
    }
}

/// What an instruction with a field needs and gives. A float or a double, a class or a field that isn't there, and a static field where
/// one of an object is wanted, or the other way round, leave nothing to need.
pub fn field_row(
    alloc: Global,
    program: &Program,
    method: MethodId,
    access: Access,
    index: u16,
) -> Result<Row, AllocError>
    requires { HasClassNumbers program.now }
    ensures { IfOk result (λ row. row ≡ field_row program.now method.0 access index) }
{
    let member = member_at(program, method, index);
    match field_type(member.descriptor) {
        Some(item) => typed_row(alloc, program, access, &member, &item),
        None => Ok(Row::Refused),
    }
}
