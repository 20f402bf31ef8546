//! Local variables (JVMS 2.6.1, 6.5 iload, lload, aload, istore, lstore, astore, iinc).

ghost use Rattle.std.specs.Prelude.{◌≡◌, IfOk, Some, slice_get};
ghost use Rattle.vx_java.specs.Locals.{increase, load, locals_with, store, unless_long, with_locals, without_half};
ghost use Rattle.vx_java.specs.Machine.{Top};
ghost use Rattle.vx_list.specs.Places.{item_or};
ghost use Rattle.vx_plain.specs.Views.{state_of, value_of};
ghost use Rattle.vx_plain_here.specs.Rows.{ComesTo, here_in};
ghost use Rattle.vx_plain_words.specs.Writing.{closed, increased};

use vx_java::Sort;
use vx_plain::{State, Value};
use vx_plain_here::{Here, Made};

/// A value, but the first half of a long can't be read once its second half is written over.
fn unless_long(value: Value) -> Value
    ensures { value_of result ≡ unless_long (value_of value) }
{
    match value {
        Value::Long(_) => Value::Top,
        Value::Int(n) => Value::Int(n),
        Value::Null => Value::Null,
        Value::Ref(object) => Value::Ref(object),
        Value::Top => Value::Top,
    }
}

/// Writes over a local: a long whose second half it is can't be read any more.
#[tactic(auto, using(crate::proofs::LocalLaws::no_half, crate::proofs::LocalLaws::half))]
fn without_half(state: &mut State, place: u16)
    ensures { state_of state.new ≡ with_locals (state_of state.old) (without_half (state_of state.old).top.locals place) }
{
    if place == 0 {
        return;
    }
    let kept = unless_long(state.local(place - 1));
    state.set_local(place as usize - 1, kept);
}

/// What stands behind a long can't be read.
fn close(state: &mut State, place: u16, value: Value)
    ensures { state_of state.new ≡ closed (state_of state.old) place (value_of value) }
{
    match value {
        Value::Long(_) => state.set_local(place as usize + 1, Value::Top),
        Value::Int(_) => {}
        Value::Null => {}
        Value::Ref(_) => {}
        Value::Top => {}
    }
}

/// Puts a value into a local. A long takes the next local too.
fn put(state: &mut State, place: u16, value: Value)
    ensures { state_of state.new ≡ with_locals (state_of state.old) (locals_with (state_of state.old).top.locals place (value_of value)) }
{
    without_half(state, place);
    state.set_local(place as usize, value);
    close(state, place, value);
}

/// iload, lload, aload.
pub fn load(here: &Here<'_>, state: &mut State, sort: Sort, place: u16) -> Made
    ensures { let s = state_of state.old in IfOk result (ComesTo (load (here_in here.now s) sort place) s (state_of state.new)) }
{
    let value = state.local(place);
    if value.is_of(sort) {
        here.push(state, 0, value)
    } else {
        here.illegal(state)
    }
}

/// The row of a store, where the operand on top is known.
fn store_value(here: &Here<'_>, state: &mut State, sort: Sort, place: u16, value: Value) -> Made
    requires { Some (value_of value) ≡ slice_get (state_of state.old).top.operands 0 }
    ensures { let s = state_of state.old in IfOk result (ComesTo (store (here_in here.now s) sort place s.top.operands) s (state_of state.new)) }
{
    if value.is_of(sort) {
        put(state, place, value);
        here.go(state, 1)
    } else {
        here.illegal(state)
    }
}

/// istore, lstore, astore.
pub fn store(here: &Here<'_>, state: &mut State, sort: Sort, place: u16) -> Made
    ensures { let s = state_of state.old in IfOk result (ComesTo (store (here_in here.now s) sort place s.top.operands) s (state_of state.new)) }
{
    match state.operand(0) {
        Some(value) => store_value(here, state, sort, place, value),
        None => here.illegal(state),
    }
}

/// The sum of an int and a number.
fn increased(value: Value, by: i32) -> Option<Value>
    ensures { result ≡ increased by value }
{
    match value {
        Value::Int(a) => Some(Value::Int(a.wrapping_add(by))),
        _ => None,
    }
}

/// iinc.
pub fn increase(here: &Here<'_>, state: &mut State, place: u16, by: i32) -> Made
    ensures { let s = state_of state.old in IfOk result (ComesTo (increase (here_in here.now s) place by (item_or s.top.locals place Top)) s (state_of state.new)) }
{
    match increased(state.local(place), by) {
        Some(sum) => {
            state.set_local(place as usize, sum);
            here.go(state, 0)
        }
        None => here.illegal(state),
    }
}
