//! The types with which a method and a handler begin (JVMS 4.10.1.6).

ghost use Rattle.std.specs.Prelude.{◌≡◌, ◌≤◌, ◌<◌, ◌^◌, ◌++◌, ◌∷◌, [], IfOk, None, OnOk, flat_map, length, replicate, take};
ghost use Rattle.vx_class.specs.Members.{STATIC};
ghost use Rattle.vx_desc.specs.Descriptors.{slots_of};
ghost use Rattle.vx_java.specs.Checks.{sort_of};
ghost use Rattle.vx_java.specs.Ids.{HasClassNumbers};
ghost use Rattle.vx_link.specs.Parts.{has, method_at};
ghost use Rattle.vx_types.specs.Types.{type_of};
ghost use Rattle.vx_types.specs.declared.types.VerType.TheVariants as kind;
ghost use Rattle.vx_verify.specs.States.{AreTypes, HasMade, HasNumbers, HasStack, HasLocals, IsStore, types_at};
ghost use Rattle.vx_verify.specs.Typing.{caught, caught_name, locals_of, receiver_locals, start_locals, value_locals, values_given};

use crate::rows::{Frame, State, with_local};
use crate::store::{Store, TOP};
use std::alloc::Global;
use vx_class::Catch;
use vx_desc::{Base, JavaType};
use vx_java::Sort;
use vx_java::parts::descriptor_of_method;
use vx_link::Program;
use vx_list::GivenUp;
use vx_numbered::EMPTY;
use vx_references::{is_static, signature_of_method};
use vx_type_rows::{class_name_at, current_class, is_of};
use vx_types::{VerType, class_type, ref_of, type_of};
use vx_value::MethodId;

/// How many levels a tree of so many leaves has.
pub fn levels_of(leaves: u16) -> u32
    ensures few { result ≤ 16 }
    ensures room { leaves ≤ 2 ^ result }
{
    for levels in 0..16 {
        if u32::from(leaves) <= 1 << levels {
            return levels;
        }
    }
    16
}

/// The local variables of a float or a double, which cannot be read, behind those that are there.
fn put_unread(numbers: &mut Vec<u32>, item: &JavaType) -> Result<(), GivenUp>
    requires { sort_of item.now ≡ None }
    ensures { OnOk result (numbers.new.items ≡ numbers.old.items ++ replicate (slots_of item.now) 0) }
{
    numbers.push(TOP)?;
    match item.base {
        Base::Double => {
            numbers.push(TOP)?;
            Ok(())
        }
        _ => Ok(()),
    }
}

/// A value in the local variables behind those that are there: a long takes two.
fn put_value(
    alloc: Global,
    store: &mut Store,
    item: VerType,
    numbers: &mut Vec<u32>,
) -> Result<(), GivenUp>
    requires store { IsStore store.old }
    requires numbers { AreTypes store.old numbers.old.items }
    ensures { OnOk result (HasNumbers store.old store.new numbers.new.items (types_at store.old numbers.old.items ++ value_locals item)) }
{
    let is_long = is_of(Sort::Long, &item);
    let number = store.put_type(alloc, &item)?;
    numbers.push(number)?;
    if !is_long {
        return Ok(());
    }
    numbers.push(TOP)?;
    Ok(())
}

/// The local variables of an argument, behind those that are there.
fn put_argument(
    alloc: Global,
    store: &mut Store,
    program: &Program,
    descriptor: &[u8],
    item: &JavaType,
    numbers: &mut Vec<u32>,
) -> Result<(), GivenUp>
    requires classes { HasClassNumbers program.now }
    requires store { IsStore store.old }
    requires numbers { AreTypes store.old numbers.old.items }
    ensures { OnOk result (HasNumbers store.old store.new numbers.new.items (types_at store.old numbers.old.items ++ locals_of item.now (type_of program.now descriptor.now item.now))) }
{
    let found = type_of(alloc, program, descriptor, item)?;
    match found {
        Some(value) => put_value(alloc, store, value, numbers),
        None => put_unread(numbers, item),
    }
}

/// The object whose method is called, where there is one.
fn receiver(
    alloc: Global,
    store: &mut Store,
    program: &Program,
    method: MethodId,
) -> Result<Vec<u32>, GivenUp>
    requires classes { HasClassNumbers program.now }
    requires store { IsStore store.old }
    ensures { IfOk result (λ numbers. HasNumbers store.old store.new numbers.items (receiver_locals program.now method.0 (has STATIC (method_at program.now method.0).flags))) }
{
    let mut numbers = Vec::new(alloc);
    if is_static(program, method) {
        return Ok(numbers);
    }
    let item = class_type(program, current_class(program, method));
    put_value(alloc, store, item, &mut numbers)?;
    Ok(numbers)
}

/// The local variables of arguments, behind those that are there.
fn put_arguments(
    alloc: Global,
    store: &mut Store,
    program: &Program,
    descriptor: &[u8],
    items: &[JavaType],
    numbers: &mut Vec<u32>,
) -> Result<(), GivenUp>
    requires classes { HasClassNumbers program.now }
    requires store { IsStore store.old }
    requires numbers { AreTypes store.old numbers.old.items }
    ensures { OnOk result (HasNumbers store.old store.new numbers.new.items (types_at store.old numbers.old.items ++ flat_map (λ t. locals_of t (type_of program.now descriptor.now t)) items.now)) }
{
    for item in items {
        put_argument(alloc, store, program, descriptor, item, numbers)?;
    }
    Ok(())
}

/// The receiver and the arguments, one after the other.
fn given(
    alloc: Global,
    store: &mut Store,
    program: &Program,
    method: MethodId,
) -> Result<Vec<u32>, GivenUp>
    requires classes { HasClassNumbers program.now }
    requires store { IsStore store.old }
    ensures { IfOk result (λ numbers. HasNumbers store.old store.new numbers.items (values_given program.now method.0)) }
{
    let mut numbers = receiver(alloc, store, program, method)?;
    let descriptor = descriptor_of_method(program, method);
    let signature = signature_of_method(alloc, program, method)?;
    let items = signature.arguments.as_slice();
    put_arguments(alloc, store, program, descriptor, items, &mut numbers)?;
    Ok(numbers)
}

/// These in the first local variables, as far as the method has them, and nothing in the others.
pub fn filled(store: &mut Store, frame: Frame, numbers: &[u32]) -> Result<u32, GivenUp>
    requires store { IsStore store.old }
    requires few { frame.levels ≤ 16 }
    requires locals { frame.locals ≤ 2 ^ frame.levels }
    requires numbers { AreTypes store.old numbers.now }
    ensures { IfOk result (λ tree. HasLocals store.old store.new frame tree (take frame.locals (types_at store.old numbers.now ++ replicate frame.locals kind.Top))) }
{
    let mut tree = store.trees.row_of(TOP, frame.levels)?;
    let mut place: u32 = 0;
    for number in numbers {
        tree = with_local(store, frame, tree, place, *number)?;
        place = place.saturating_add(1);
    }
    Ok(tree)
}

/// The receiver and the arguments in the first local variables, nothing in the others, and no operands.
pub fn start_state(
    alloc: Global,
    store: &mut Store,
    program: &Program,
    method: MethodId,
    frame: Frame,
) -> Result<State, GivenUp>
    requires classes { HasClassNumbers program.now }
    requires store { IsStore store.old }
    requires few { frame.levels ≤ 16 }
    requires locals { frame.locals ≤ 2 ^ frame.levels }
    ensures { IfOk result (λ state. HasMade store.old store.new frame state (record { locals = start_locals program.now method.0 frame.locals; operands = [] })) }
{
    let numbers = given(alloc, store, program, method)?;
    let locals = filled(store, frame, &numbers)?;
    Ok(State {
        locals,
        operands: EMPTY,
    })
}

/// The name of the class that a catch row takes.
fn caught_name(program: &Program, method: MethodId, row: Catch) -> &[u8]
    ensures value { result.now ≡ caught_name program.now method.0 row }
    ensures few { length result.now < 2 ^ 16 }
{
    if row.class == 0 {
        return b"java/lang/Throwable";
    }
    class_name_at(program, method, row.class)
}

/// What a catch row takes, as the one operand with which its handler begins.
pub fn caught_by(
    alloc: Global,
    store: &mut Store,
    program: &Program,
    method: MethodId,
    row: Catch,
) -> Result<u32, GivenUp>
    requires classes { HasClassNumbers program.now }
    requires store { IsStore store.old }
    ensures { IfOk result (λ stack. HasStack store.old store.new stack (caught program.now method.0 row ∷ [])) }
{
    let name = caught_name(program, method, row);
    let item = ref_of(alloc, program, name)?;
    store.pushed_type(alloc, &item, EMPTY)
}
