//! Casts (JVMS 6.5 checkcast, instanceof).

ghost use Rattle.std.specs.Prelude.{◌≡◌, IfOk, option_map};
ghost use Rattle.vx_java.specs.Objects.{check_cast, instance_of};
ghost use Rattle.vx_link.specs.ClassNames.{class_named};
ghost use Rattle.vx_plain.specs.Views.{state_of, value_of};
ghost use Rattle.vx_plain_casts.specs.Casts.{cast_by, instance_by, missing, tested, tested_value};
ghost use Rattle.vx_plain_here.specs.Rows.{ComesTo, here_in};

use vx_java::assignable;
use vx_plain::{State, Value};
use vx_plain_here::{Here, Made};
use vx_value::ClassId;

/// The number of the word for a class that ends a run as unsupported.
const CLASS: u8 = 6;

/// What comes of the operand on top and a class.
#[derive(Clone, Copy)]
pub enum Cast {
    /// It is null, which passes before the class is looked for.
    Null,
    /// The class isn't there.
    NoClass,
    /// It is no reference, or there is none.
    Illegal,
    /// It is an object, of the class or not.
    Object(bool),
}

fn missing(named: Option<ClassId>) -> Cast
    ensures { result ≡ missing (option_map (λ c. c.0) named) }
{
    match named {
        Some(_) => Cast::Illegal,
        None => Cast::NoClass,
    }
}

/// What comes of a value and the class that is named.
fn tested_value(here: &Here<'_>, state: &State, named: Option<ClassId>, value: Value) -> Cast
    ensures { result ≡ tested_value here.now.program.now (state_of state.now) (option_map (λ c. c.0) named) (value_of value) }
{
    match value {
        Value::Null => Cast::Null,
        Value::Ref(object) => match named {
            Some(class) => { Cast::Object(assignable(here.program, state.class_of(object), class)) }
            None => Cast::NoClass,
        },
        Value::Top => missing(named),
        Value::Int(_) => missing(named),
        Value::Long(_) => missing(named),
    }
}

/// What comes of the operand on top and the class that is named.
fn tested(here: &Here<'_>, state: &State, named: Option<ClassId>) -> Cast
    ensures { let s = state_of state.now in result ≡ tested here.now.program.now s (option_map (λ c. c.0) named) s.top.operands }
{
    match state.operand(0) {
        Some(value) => tested_value(here, state, named, value),
        None => missing(named),
    }
}

/// Carries out a cast: the operands stay.
fn cast_by(here: &Here<'_>, state: &mut State, name: &[u8], tested: Cast) -> Made
    ensures { let s = state_of state.old in IfOk result (ComesTo (cast_by (here_in here.now s) name.now s.top.operands tested) s (state_of state.new)) }
{
    match tested {
        Cast::Null => here.go(state, 0),
        Cast::NoClass => here.unsupported(state, CLASS, name),
        Cast::Illegal => here.illegal(state),
        Cast::Object(true) => here.go(state, 0),
        Cast::Object(false) => here.raise(state, b"java/lang/ClassCastException"),
    }
}

/// Puts whether an object is of a class in its place.
fn instance_by(here: &Here<'_>, state: &mut State, name: &[u8], tested: Cast) -> Made
    ensures { let s = state_of state.old in IfOk result (ComesTo (instance_by (here_in here.now s) name.now s.top.operands tested) s (state_of state.new)) }
{
    match tested {
        Cast::Null => here.push(state, 1, Value::of_bool(false)),
        Cast::NoClass => here.unsupported(state, CLASS, name),
        Cast::Illegal => here.illegal(state),
        Cast::Object(is) => here.push(state, 1, Value::of_bool(is)),
    }
}

/// checkcast, where `named` is the class of the name.
pub fn check_cast(here: &Here<'_>, state: &mut State, name: &[u8], named: Option<ClassId>) -> Made
    requires { option_map (λ c. c.0) named ≡ class_named here.now.program.now name.now }
    ensures { let s = state_of state.old in IfOk result (ComesTo (check_cast (here_in here.now s) name.now s.top.operands) s (state_of state.new)) }
{
    let answer = tested(here, state, named);
    cast_by(here, state, name, answer)
}

/// instanceof, where `named` is the class of the name.
pub fn instance_of(here: &Here<'_>, state: &mut State, name: &[u8], named: Option<ClassId>) -> Made
    requires { option_map (λ c. c.0) named ≡ class_named here.now.program.now name.now }
    ensures { let s = state_of state.old in IfOk result (ComesTo (instance_of (here_in here.now s) name.now s.top.operands) s (state_of state.new)) }
{
    let answer = tested(here, state, named);
    instance_by(here, state, name, answer)
}
