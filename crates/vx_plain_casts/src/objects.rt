//! Thrown objects and monitors (JVMS 6.5 athrow, monitorenter, monitorexit).

ghost use Rattle.std.specs.Prelude.{◌≡◌, IfOk, drop};
ghost use Rattle.vx_java.specs.Checks.{non_null};
ghost use Rattle.vx_java.specs.Machine.{Throw as ThrowOutcome, go};
ghost use Rattle.vx_java.specs.Objects.{monitor, throw_top};
ghost use Rattle.vx_plain.specs.Views.{state_of, value_of};
ghost use Rattle.vx_plain_casts.specs.Objects.{locked, object_in, thrown};
ghost use Rattle.vx_plain_here.specs.Rows.{ComesTo, here_in};

use vx_java::Sort;
use vx_plain::{State, Value};
use vx_plain_here::{Here, Made, Outcome};

/// The object that a value is, if it is one and not null.
pub fn object_in(value: Value) -> Option<u64>
    ensures { result ≡ object_in value }
{
    match value {
        Value::Ref(object) => Some(object),
        _ => None,
    }
}

/// An object is thrown; null raises.
fn throw_object(here: &Here<'_>, state: &State, value: Value) -> Made
    ensures { let s = state_of state.now in IfOk result (ComesTo (non_null (here_in here.now s) (value_of value) (λ r. ThrowOutcome r s)) s s) }
{
    match object_in(value) {
        Some(object) => Ok(Outcome::Throw(object)),
        None => here.raise(state, b"java/lang/NullPointerException"),
    }
}

/// A value is thrown, which has to be null or a Throwable.
fn throw_value(here: &Here<'_>, state: &State, value: Value) -> Made
    ensures { let s = state_of state.now in IfOk result (ComesTo (thrown (here_in here.now s) (value_of value)) s s) }
{
    let throwable = here.core(b"java/lang/Throwable");
    if here.is_instance(state, throwable, value) {
        throw_object(here, state, value)
    } else {
        here.illegal(state)
    }
}

/// athrow.
pub fn throw_top(here: &Here<'_>, state: &State) -> Made
    ensures { let s = state_of state.now in IfOk result (ComesTo (throw_top (here_in here.now s) s.top.operands) s s) }
{
    match state.operand(0) {
        Some(value) => throw_value(here, state, value),
        None => here.illegal(state),
    }
}

/// The object of a monitor is popped; null raises.
fn pass_object(here: &Here<'_>, state: &mut State, value: Value) -> Made
    ensures { let s = state_of state.old in IfOk result (ComesTo (non_null (here_in here.now s) (value_of value) (λ r. go (here_in here.now s) (drop 1 s.top.operands))) s (state_of state.new)) }
{
    match object_in(value) {
        Some(_) => here.go(state, 1),
        None => here.raise(state, b"java/lang/NullPointerException"),
    }
}

/// The operand of a monitor is popped, which has to be a reference.
fn pass_value(here: &Here<'_>, state: &mut State, value: Value) -> Made
    ensures { let s = state_of state.old in IfOk result (ComesTo (locked (here_in here.now s) (value_of value) (drop 1 s.top.operands)) s (state_of state.new)) }
{
    if value.is_of(Sort::Reference) {
        pass_object(here, state, value)
    } else {
        here.illegal(state)
    }
}

/// monitorenter, monitorexit: the object is popped, and nothing else happens.
pub fn monitor(here: &Here<'_>, state: &mut State) -> Made
    ensures { let s = state_of state.old in IfOk result (ComesTo (monitor (here_in here.now s) s.top.operands) s (state_of state.new)) }
{
    match state.operand(0) {
        Some(value) => pass_value(here, state, value),
        None => here.illegal(state),
    }
}
