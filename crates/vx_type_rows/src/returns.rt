//! Returns (JVMS 6.5 ireturn, lreturn, areturn, return).

ghost use Rattle.std.specs.Prelude.{◌≡◌, ◌<◌, ◌^◌, IfOk, length};
ghost use Rattle.vx_java.specs.Ids.{HasClassNumbers};
ghost use Rattle.vx_java.specs.Returns.{agrees, same_sort};
ghost use Rattle.vx_link.specs.Parts.{method_at};
ghost use Rattle.vx_types.specs.Rows.{return_from, return_wants};

use crate::calls::wanted_of;
use std::alloc::{AllocError, Global};
use vx_desc::JavaType;
use vx_java::Sort;
use vx_java::parts::descriptor_of_method;
use vx_link::Program;
use vx_list::Items;
use vx_references::{signature_of_method, sort_of};
use vx_types::{Row, Want};
use vx_value::MethodId;

/// Whether a sort is the one that is wanted.
fn same_sort(sort: Sort, wanted: Option<Sort>) -> bool
    ensures { result ≡ same_sort sort wanted }
{
    match (sort, wanted) {
        (Sort::Int, Some(Sort::Int))
        | (Sort::Long, Some(Sort::Long))
        | (Sort::Reference, Some(Sort::Reference)) => true,
        _ => false,
    }
}

/// Whether a return is the one for a result.
fn agrees(sort: Option<Sort>, item: Option<JavaType>) -> bool
    ensures { result ≡ agrees sort item }
{
    match (sort, item) {
        (None, None) => true,
        (Some(sort), Some(item)) => same_sort(sort, sort_of(item)),
        _ => false,
    }
}

/// What a result is, or nothing where there is none.
fn return_wants(
    alloc: Global,
    program: &Program,
    descriptor: &[u8],
    item: Option<JavaType>,
) -> Result<Vec<Want>, AllocError>
    requires { HasClassNumbers program.now }
    ensures { IfOk result (λ wants. wants.items ≡ return_wants program.now descriptor.now item) }
{
    let mut wants = Vec::new(alloc);
    match item {
        Some(item) => {
            wants.push(wanted_of(alloc, program, descriptor, &item)?)?;
            Ok(wants)
        }
        None => Ok(wants),
    }
}

/// What a return needs: it is the one for the result of the method, and takes what fits that.
pub fn return_from(
    alloc: Global,
    program: &Program,
    method: MethodId,
    sort: Option<Sort>,
) -> Result<Row, AllocError>
    requires { HasClassNumbers program.now }
    ensures { IfOk result (λ row. row ≡ return_from program.now (method_at program.now method.0).descriptor sort) }
{
    let descriptor = descriptor_of_method(program, method);
    let given = signature_of_method(alloc, program, method)?.result;
    if !agrees(sort, given) {
        return Ok(Row::Refused);
    }
    let wants = return_wants(alloc, program, descriptor, given)?;
    Ok(Row::Leaves(Items::of(wants)))
}
