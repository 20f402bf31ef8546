//! The rows of fields, methods, objects and arrays.

ghost use Rattle.std.specs.Prelude.{◌≡◌, IfOk, true};
ghost use Rattle.vx_java.specs.Row.{row_of};
ghost use Rattle.vx_link.specs.Names.{class_name};
ghost use Rattle.vx_java.specs.Objects.{check_cast, instance_of};
ghost use Rattle.vx_plain.specs.Views.{state_of};
ghost use Rattle.vx_plain_here.specs.Rows.{ComesTo, here_in};
ghost use Rattle.vx_plain_rows.specs.Families.{is_of_members, is_of_objects};

use vx_java::Operation;
use vx_link::class_name;
use vx_plain::State;
use vx_plain_arrays::{
    array_length, load_element, new_grid, new_primitives, new_references, store_element,
};
use vx_plain_calls::{invoke, return_from};
use vx_plain_casts::{check_cast, instance_of, monitor, throw_top};
use vx_plain_fields::{Use, new_instance, row_of_field};
use vx_plain_here::Made;
use vx_plain_tables::Seen;

/// checkcast.
fn cast(seen: &Seen<'_>, state: &mut State, index: u16) -> Made
    ensures { let h = here_in seen.now.here (state_of state.old) in IfOk result (ComesTo (check_cast h (class_name h.pool index) h.state.top.operands) h.state (state_of state.new)) }
{
    let name = class_name(seen.here.pool, index);
    let named = seen.class_named(index);
    check_cast(&seen.here, state, name, named)
}

/// instanceof.
fn compare(seen: &Seen<'_>, state: &mut State, index: u16) -> Made
    ensures { let h = here_in seen.now.here (state_of state.old) in IfOk result (ComesTo (instance_of h (class_name h.pool index) h.state.top.operands) h.state (state_of state.new)) }
{
    let name = class_name(seen.here.pool, index);
    let named = seen.class_named(index);
    instance_of(&seen.here, state, name, named)
}

/// The row of an instruction of a field or a method.
pub(crate) fn row_of_member(seen: &Seen<'_>, state: &mut State, operation: Operation) -> Made
    requires { is_of_members operation ≡ true }
    ensures { let h = here_in seen.now.here (state_of state.old) in IfOk result (ComesTo (row_of h operation h.state.top.operands) h.state (state_of state.new)) }
{
    match operation {
        Operation::Return(sort) => return_from(seen, state, sort),
        Operation::GetStatic(index) => row_of_field(seen, state, Use::GetStatic, index),
        Operation::PutStatic(index) => row_of_field(seen, state, Use::PutStatic, index),
        Operation::GetField(index) => row_of_field(seen, state, Use::GetField, index),
        Operation::PutField(index) => row_of_field(seen, state, Use::PutField, index),
        Operation::Invoke(mode, index) => invoke(seen, state, mode, index),
        _ => unreachable!(),
    }
}

/// The row of an instruction of an object or an array.
pub(crate) fn row_of_object(seen: &Seen<'_>, state: &mut State, operation: Operation) -> Made
    requires { is_of_objects operation ≡ true }
    ensures { let h = here_in seen.now.here (state_of state.old) in IfOk result (ComesTo (row_of h operation h.state.top.operands) h.state (state_of state.new)) }
{
    match operation {
        Operation::LoadElement(element) => load_element(&seen.here, state, element),
        Operation::StoreElement(element) => store_element(&seen.here, state, element),
        Operation::New(index) => new_instance(seen, state, index),
        Operation::NewPrimitives(number) => new_primitives(&seen.here, state, number),
        Operation::NewReferences(index) => new_references(seen, state, index),
        Operation::NewGrid(index, dimensions) => new_grid(seen, state, index, dimensions),
        Operation::Length => array_length(&seen.here, state),
        Operation::Throw => throw_top(&seen.here, state),
        Operation::Monitor => monitor(&seen.here, state),
        Operation::CheckCast(index) => cast(seen, state, index),
        Operation::InstanceOf(index) => compare(seen, state, index),
        _ => unreachable!(),
    }
}
