//! What each operation needs and gives (JVMS 4.10.1.9).

ghost use Rattle.std.specs.Prelude.{◌≡◌, ◌<◌, ◌^◌, ◌∷◌, [], IfOk, length};
ghost use Rattle.vx_java.specs.Ids.{HasClassNumbers};
ghost use Rattle.vx_types.specs.Plain.{computes, plain_row, reference};
ghost use Rattle.vx_types.specs.Rows.{new_instance, new_of_class, row_of};
ghost use Rattle.vx_types.specs.Types.{core_type, ref_of};

use crate::arrays::{
    array_length, load_element, new_grid, new_primitives, new_references, store_element,
};
use crate::calls::invoke;
use crate::constants::push_entry;
use crate::fields::{Access, field_row};
use crate::pool::class_name_at;
use crate::returns::return_from;
use crate::wants::{computes, gives, takes};
use std::alloc::{AllocError, Global};
use vx_java::parts::is_without_objects;
use vx_java::{Operation, Sort, class_named};
use vx_link::Program;
use vx_list::Items;
use vx_types::{Row, VerType, Want, ref_of};
use vx_value::{ClassId, MethodId};

/// `new` of a class that is there, where it has objects.
fn new_of_class(
    alloc: Global,
    program: &Program,
    name: &[u8],
    class: ClassId,
) -> Result<Row, AllocError>
    requires classes { HasClassNumbers program.now }
    requires text { length name.now < 2 ^ 32 }
    ensures { IfOk result (λ row. row ≡ new_of_class program.now name.now class.0) }
{
    if is_without_objects(program, class) {
        return Ok(Row::Ends);
    }
    Ok(gives(alloc, ref_of(alloc, program, name)?))
}

/// `new`, of a class that is there and has objects.
fn new_instance(alloc: Global, program: &Program, name: &[u8]) -> Result<Row, AllocError>
    requires classes { HasClassNumbers program.now }
    requires text { length name.now < 2 ^ 32 }
    ensures { IfOk result (λ row. row ≡ new_instance program.now name.now) }
{
    match class_named(program, name) {
        Some(class) => new_of_class(alloc, program, name, class),
        None => Ok(Row::Ends),
    }
}

/// `athrow`.
fn throw(alloc: Global, program: &Program) -> Result<Row, AllocError>
    requires { HasClassNumbers program.now }
    ensures { IfOk result (λ row. row ≡ Row.Leaves (Want.Fits (core_type program.now "java/lang/Throwable") ∷ [])) }
{
    let mut wants = Vec::new(alloc);
    wants.push(Want::Fits(ref_of(alloc, program, b"java/lang/Throwable")?))?;
    Ok(Row::Leaves(Items::of(wants)))
}

/// `checkcast`, also of a class that isn't there: null passes.
fn check_cast(alloc: Global, program: &Program, name: &[u8]) -> Result<Row, AllocError>
    requires classes { HasClassNumbers program.now }
    requires text { length name.now < 2 ^ 32 }
    ensures { IfOk result (λ row. row ≡ computes (reference ∷ []) (ref_of program.now name.now)) }
{
    let given = ref_of(alloc, program, name)?;
    computes(alloc, &[Sort::Reference], given)
}

/// What an operation of numbers, jumps and constants needs and gives; any other one ends the run.
fn plain_row(alloc: Global, operation: Operation) -> Result<Row, AllocError>
    ensures { IfOk result (λ row. row ≡ plain_row operation) }
{
    match operation {
        Operation::Nop | Operation::Goto(_) => takes(alloc, &[]),
        Operation::PushNull => Ok(gives(alloc, VerType::Null)),
        Operation::PushInt(_) => Ok(gives(alloc, VerType::Int)),
        Operation::PushLong(_) => Ok(gives(alloc, VerType::Long)),
        Operation::IntArithmetic(_) | Operation::IntShift(_) => {
            computes(alloc, &[Sort::Int, Sort::Int], VerType::Int)
        }
        Operation::LongArithmetic(_) => computes(alloc, &[Sort::Long, Sort::Long], VerType::Long),
        Operation::LongShift(_) => computes(alloc, &[Sort::Int, Sort::Long], VerType::Long),
        Operation::LongCompare => computes(alloc, &[Sort::Long, Sort::Long], VerType::Int),
        Operation::IntNegate | Operation::IntNarrow(_) => {
            computes(alloc, &[Sort::Int], VerType::Int)
        }
        Operation::LongNegate => computes(alloc, &[Sort::Long], VerType::Long),
        Operation::IntToLong => computes(alloc, &[Sort::Int], VerType::Long),
        Operation::LongToInt => computes(alloc, &[Sort::Long], VerType::Int),
        Operation::IfInt(_, _) | Operation::SwitchTable { .. } | Operation::SwitchLookup { .. } =>
            takes(alloc, &[Sort::Int]),
        Operation::IfInts(_, _) => takes(alloc, &[Sort::Int, Sort::Int]),
        Operation::IfSame(_, _) => takes(alloc, &[Sort::Reference, Sort::Reference]),
        Operation::IfNull(_, _) | Operation::Monitor => takes(alloc, &[Sort::Reference]),
        Operation::InstanceOf(_) => computes(alloc, &[Sort::Reference], VerType::Int),
        Operation::PushEntry(_)
        | Operation::Load(_, _)
        | Operation::Store(_, _)
        | Operation::LoadElement(_)
        | Operation::StoreElement(_)
        | Operation::Stack(_)
        | Operation::Increase(_, _)
        | Operation::Return(_)
        | Operation::GetStatic(_)
        | Operation::PutStatic(_)
        | Operation::GetField(_)
        | Operation::PutField(_)
        | Operation::Invoke(_, _)
        | Operation::New(_)
        | Operation::NewPrimitives(_)
        | Operation::NewReferences(_)
        | Operation::NewGrid(_, _)
        | Operation::Length
        | Operation::Throw
        | Operation::CheckCast(_)
        | Operation::Refuse(_) => Ok(Row::Ends),
    }
}

/// What an operation of a method's code needs and gives. Where program and instruction alone end the run or raise, before an operand is
/// looked at, nothing is needed and nothing follows.
pub fn row_of(
    alloc: Global,
    program: &Program,
    method: MethodId,
    operation: Operation,
) -> Result<Row, AllocError>
    requires { HasClassNumbers program.now }
    ensures { IfOk result (λ row. row ≡ row_of program.now method.0 operation) }
{
    match operation {
        Operation::PushEntry(index) => push_entry(alloc, program, method, index),
        Operation::Load(sort, place) => Ok(Row::Load(sort, place)),
        Operation::Store(sort, place) => Ok(Row::Store(sort, place)),
        Operation::Increase(place, _) => Ok(Row::Increase(place)),
        Operation::Stack(form) => Ok(Row::Move(form)),
        Operation::LoadElement(element) => load_element(alloc, program, element),
        Operation::StoreElement(element) => store_element(alloc, program, element),
        Operation::Length => array_length(alloc, program),
        Operation::Return(sort) => return_from(alloc, program, method, sort),
        Operation::GetStatic(index) => field_row(alloc, program, method, Access::GetStatic, index),
        Operation::PutStatic(index) => field_row(alloc, program, method, Access::PutStatic, index),
        Operation::GetField(index) => field_row(alloc, program, method, Access::GetField, index),
        Operation::PutField(index) => field_row(alloc, program, method, Access::PutField, index),
        Operation::Invoke(mode, index) => invoke(alloc, program, method, mode, index),
        Operation::New(index) => {
            new_instance(alloc, program, class_name_at(program, method, index))
        }
        Operation::NewPrimitives(number) => new_primitives(alloc, number),
        Operation::NewReferences(index) => {
            new_references(alloc, program, class_name_at(program, method, index))
        }
        Operation::NewGrid(index, dimensions) => new_grid(
            alloc,
            program,
            class_name_at(program, method, index),
            dimensions,
        ),
        Operation::Throw => throw(alloc, program),
        Operation::CheckCast(index) => {
            check_cast(alloc, program, class_name_at(program, method, index))
        }
        Operation::Nop
        | Operation::PushNull
        | Operation::PushInt(_)
        | Operation::PushLong(_)
        | Operation::IntArithmetic(_)
        | Operation::LongArithmetic(_)
        | Operation::IntNegate
        | Operation::LongNegate
        | Operation::IntShift(_)
        | Operation::LongShift(_)
        | Operation::IntToLong
        | Operation::LongToInt
        | Operation::IntNarrow(_)
        | Operation::LongCompare
        | Operation::IfInt(_, _)
        | Operation::IfInts(_, _)
        | Operation::IfSame(_, _)
        | Operation::IfNull(_, _)
        | Operation::Goto(_)
        | Operation::SwitchTable { .. }
        | Operation::SwitchLookup { .. }
        | Operation::Monitor
        | Operation::InstanceOf(_)
        | Operation::Refuse(_) => plain_row(alloc, operation),
    }
}
