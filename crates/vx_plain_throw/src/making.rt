//! Exceptions and their messages.

ghost use Rattle.std.specs.Prelude.{◌≡◌, ◌+◌, ◌-◌, IfOk, None, OnOk, Some, length, option_map};
ghost use Rattle.vx_java.specs.Ids.{HasClassNumbers};
ghost use Rattle.vx_java.specs.Machine.{next_object, with_objects};
ghost use Rattle.vx_java.specs.FirstObjects.{string_object};
ghost use Rattle.vx_java.specs.Throwing.{exception_objects, throwable};
ghost use Rattle.vx_plain.specs.Views.{object_of, state_of, value_of};

use std::alloc::{AllocError, Global};
use vx_java::core_class;
use vx_link::Program;
use vx_list::GivenUp;
use vx_plain::{Object, State, Value};
use vx_plain_tables::new_object;
use vx_value::ClassId;

/// A new throwable of a class with its message and its cause.
pub(crate) fn throwable(
    alloc: Global,
    program: &Program,
    class: ClassId,
    message: Value,
    cause: Value,
) -> Result<Object, AllocError>
    ensures { IfOk result (λ object. object_of object ≡ throwable program.now class.0 (value_of message) (value_of cause)) }
{
    let mut object = new_object(alloc, program, class)?;
    object.write(0, message)?;
    object.write(1, cause)?;
    Ok(object)
}

/// A new String.
fn string(program: &Program, units: Vec<u16>) -> Object
    requires { HasClassNumbers program.now }
    ensures { object_of result ≡ string_object program.now units.items }
{
    Object::of_text(core_class(program, b"java/lang/String"), units)
}

/// An exception with a message, behind the text of the message.
fn with_message(
    alloc: Global,
    program: &Program,
    state: &mut State,
    class: ClassId,
    message: Vec<u16>,
) -> Result<u64, GivenUp>
    requires { HasClassNumbers program.now }
    ensures place { IfOk result (λ place. place ≡ next_object (state_of state.old) + 1) }
    ensures added { OnOk result (state_of state.new ≡ with_objects (state_of state.old) (exception_objects program.now (state_of state.old) class.0 (Some message.items))) }
{
    let text = state.add(string(program, message))?;
    let made = throwable(alloc, program, class, Value::Ref(text), Value::Null)?;
    Ok(state.add(made)?)
}

/// An exception without a message.
fn without_message(
    alloc: Global,
    program: &Program,
    state: &mut State,
    class: ClassId,
) -> Result<u64, GivenUp>
    ensures place { IfOk result (λ place. place ≡ next_object (state_of state.old)) }
    ensures added { OnOk result (state_of state.new ≡ with_objects (state_of state.old) (exception_objects program.now (state_of state.old) class.0 None)) }
{
    let made = throwable(alloc, program, class, Value::Null, Value::Null)?;
    Ok(state.add(made)?)
}

/// Makes an exception of a class, with its message's text before it.
pub fn exception(
    alloc: Global,
    program: &Program,
    state: &mut State,
    class: ClassId,
    message: Option<Vec<u16>>,
) -> Result<u64, GivenUp>
    requires { HasClassNumbers program.now }
    ensures place { IfOk result (λ place. place ≡ next_object (state_of state.old) + length (exception_objects program.now (state_of state.old) class.0 (option_map (λ units. units.items) message)) - 1) }
    ensures added { OnOk result (state_of state.new ≡ with_objects (state_of state.old) (exception_objects program.now (state_of state.old) class.0 (option_map (λ units. units.items) message))) }
{
    match message {
        Some(units) => with_message(alloc, program, state, class, units),
        None => without_message(alloc, program, state, class),
    }
}
