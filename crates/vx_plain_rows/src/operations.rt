//! The row of each operation.

ghost use Rattle.std.specs.Prelude.{IfOk};
ghost use Rattle.vx_java.specs.Row.{row_of};
ghost use Rattle.vx_plain.specs.Views.{state_of};
ghost use Rattle.vx_plain_here.specs.Rows.{ComesTo, here_in};
ghost use Rattle.vx_plain_numbers.specs.Family.{StandsInCode};

use crate::objects::{row_of_member, row_of_object};
use vx_java::Operation;
use vx_plain::{State, Value};
use vx_plain_fields::push_entry;
use vx_plain_here::Made;
use vx_plain_numbers::{if_same, jump, row_of_one, row_of_two};
use vx_plain_tables::Seen;
use vx_plain_words::{increase, load, stack, store};

/// What an operation does.
pub(crate) fn row_of(seen: &Seen<'_>, state: &mut State, operation: Operation) -> Made
    requires { StandsInCode (state_of state.old) }
    ensures { let h = here_in seen.now.here (state_of state.old) in IfOk result (ComesTo (row_of h operation h.state.top.operands) h.state (state_of state.new)) }
{
    match operation {
        Operation::Nop => seen.here.go(state, 0),
        Operation::PushNull => seen.here.push(state, 0, Value::Null),
        Operation::PushInt(n) => seen.here.push(state, 0, Value::Int(n)),
        Operation::PushLong(n) => seen.here.push(state, 0, Value::Long(n)),
        Operation::PushEntry(index) => push_entry(seen, state, index),
        Operation::Load(sort, place) => load(&seen.here, state, sort, place),
        Operation::Store(sort, place) => store(&seen.here, state, sort, place),
        Operation::Increase(place, by) => increase(&seen.here, state, place, by),
        Operation::Stack(form) => stack(&seen.here, state, form),
        Operation::IntNegate => row_of_one(&seen.here, state, operation),
        Operation::LongNegate => row_of_one(&seen.here, state, operation),
        Operation::IntToLong => row_of_one(&seen.here, state, operation),
        Operation::LongToInt => row_of_one(&seen.here, state, operation),
        Operation::IntNarrow(_) => row_of_one(&seen.here, state, operation),
        Operation::IfInt(_, _) => row_of_one(&seen.here, state, operation),
        Operation::IfNull(_, _) => row_of_one(&seen.here, state, operation),
        Operation::SwitchTable { .. } => row_of_one(&seen.here, state, operation),
        Operation::SwitchLookup { .. } => row_of_one(&seen.here, state, operation),
        Operation::IntArithmetic(_) => row_of_two(&seen.here, state, operation),
        Operation::LongArithmetic(_) => row_of_two(&seen.here, state, operation),
        Operation::IntShift(_) => row_of_two(&seen.here, state, operation),
        Operation::LongShift(_) => row_of_two(&seen.here, state, operation),
        Operation::LongCompare => row_of_two(&seen.here, state, operation),
        Operation::IfInts(_, _) => row_of_two(&seen.here, state, operation),
        Operation::IfSame(wanted, offset) => if_same(&seen.here, state, wanted, offset),
        Operation::Goto(offset) => jump(&seen.here, state, 0, offset),
        Operation::Return(_) => row_of_member(seen, state, operation),
        Operation::GetStatic(_) => row_of_member(seen, state, operation),
        Operation::PutStatic(_) => row_of_member(seen, state, operation),
        Operation::GetField(_) => row_of_member(seen, state, operation),
        Operation::PutField(_) => row_of_member(seen, state, operation),
        Operation::Invoke(_, _) => row_of_member(seen, state, operation),
        Operation::LoadElement(_) => row_of_object(seen, state, operation),
        Operation::StoreElement(_) => row_of_object(seen, state, operation),
        Operation::New(_) => row_of_object(seen, state, operation),
        Operation::NewPrimitives(_) => row_of_object(seen, state, operation),
        Operation::NewReferences(_) => row_of_object(seen, state, operation),
        Operation::NewGrid(_, _) => row_of_object(seen, state, operation),
        Operation::Length => row_of_object(seen, state, operation),
        Operation::Throw => row_of_object(seen, state, operation),
        Operation::Monitor => row_of_object(seen, state, operation),
        Operation::CheckCast(_) => row_of_object(seen, state, operation),
        Operation::InstanceOf(_) => row_of_object(seen, state, operation),
        Operation::Refuse(word) => seen.here.unsupported(state, word, b"-"),
    }
}
