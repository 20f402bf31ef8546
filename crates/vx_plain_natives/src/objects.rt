//! The native methods of Enum and Throwable, which read and write cells of their objects, and those of System that change no array.

ghost use Rattle.std.specs.Prelude.{◌≡◌, IfOk};
ghost use Rattle.vx_java.specs.FirstObjects.{units_of};
ghost use Rattle.vx_java.specs.Library.{add_suppressed, dotted, enum_compare, enum_init, exit, first_cell, line_separator, second_cell, throwable_class_name, throwable_init, with_message_and_cause};
ghost use Rattle.vx_java.specs.Machine.{cell_at, go, object_at};
ghost use Rattle.vx_java.specs.Texts.{answer};
ghost use Rattle.vx_link.specs.ClassNames.{class_text};
ghost use Rattle.vx_plain.specs.Views.{state_of, value_of};
ghost use Rattle.vx_plain_strings.specs.Answers.{Answers, Does};

use std::alloc::AllocError;
use vx_initial_heap::units_of;
use vx_plain::{State, Value};
use vx_plain_here::{Made, Outcome};
use vx_plain_strings::{
    Arguments, Call, answer, answer_int, answer_text, illegal, nothing, null_pointer,
};
use vx_spelling::class_text;
use vx_units::dotted;
use vx_value::End;

// ---- System

/// exit.
pub(crate) fn exit(call: &Call<'_>, state: &mut State) -> Made
    ensures { Does call.now exit state.old state.new result }
{
    match call.values {
        Arguments::One(Value::Int(code)) => Ok(Outcome::Ended(End::Exit(code))),
        _ => illegal(call, state),
    }
}

/// lineSeparator.
pub(crate) fn line_separator(call: &Call<'_>, state: &mut State) -> Made
    ensures { Does call.now line_separator state.old state.new result }
{
    let units = Vec::from_slice(call.here.alloc, &[10])?;
    answer_text(call, state, units)
}

// ---- cells

/// Goes on with the first two cells of an object written.
fn begin_with(call: &Call<'_>, state: &mut State, object: u64, first: Value, second: Value) -> Made
    ensures { Answers call.now (λ h rest. go (with_message_and_cause h object (value_of first) (value_of second)) rest) state.old state.new result }
{
    state.write_cell(object, 0, first)?;
    state.write_cell(object, 1, second)?;
    nothing(call, state)
}

/// Answers the value of a cell.
fn answer_cell(call: &Call<'_>, state: &mut State, object: u64, place: usize) -> Made
    ensures { Answers call.now (λ h rest. answer h rest (cell_at h.state object place)) state.old state.new result }
{
    let value = state.cell(object, place)?;
    answer(call, state, value)
}

/// The value of the first cell: name and toString of Enum, getMessage.
pub(crate) fn first_cell(call: &Call<'_>, state: &mut State) -> Made
    ensures { Does call.now first_cell state.old state.new result }
{
    match call.values {
        Arguments::One(Value::Ref(object)) => answer_cell(call, state, object, 0),
        _ => illegal(call, state),
    }
}

/// The value of the second cell: ordinal, getCause.
pub(crate) fn second_cell(call: &Call<'_>, state: &mut State) -> Made
    ensures { Does call.now second_cell state.old state.new result }
{
    match call.values {
        Arguments::One(Value::Ref(object)) => answer_cell(call, state, object, 1),
        _ => illegal(call, state),
    }
}

// ---- Enum, whose cells are the name and the ordinal

/// The constructor of Enum.
pub(crate) fn enum_init(call: &Call<'_>, state: &mut State) -> Made
    ensures { Does call.now enum_init state.old state.new result }
{
    match call.values {
        Arguments::Three(Value::Ref(object), Value::Ref(name), Value::Int(ordinal)) => {
            begin_with(call, state, object, Value::Ref(name), Value::Int(ordinal))
        }
        Arguments::Three(Value::Ref(_), Value::Null, Value::Int(_)) => null_pointer(call, state),
        _ => illegal(call, state),
    }
}

/// compareTo of Enum: the difference of the ordinals.
pub(crate) fn enum_compare(call: &Call<'_>, state: &mut State) -> Made
    ensures { Does call.now enum_compare state.old state.new result }
{
    match call.values {
        Arguments::Two(Value::Ref(object), Value::Ref(other)) => {
            let a = state.number(object, 1);
            let b = state.number(other, 1);
            answer_int(call, state, a.wrapping_sub(b))
        }
        Arguments::Two(Value::Ref(_), Value::Null) => null_pointer(call, state),
        _ => illegal(call, state),
    }
}

// ---- Throwable, whose cells are the message and the cause, which may be null

/// The constructors of Throwable.
pub(crate) fn throwable_init(call: &Call<'_>, state: &mut State) -> Made
    ensures { Does call.now throwable_init state.old state.new result }
{
    match call.values {
        Arguments::One(Value::Ref(object)) => {
            begin_with(call, state, object, Value::Null, Value::Null)
        }
        Arguments::Two(Value::Ref(object), message) => {
            begin_with(call, state, object, message, Value::Null)
        }
        Arguments::Three(Value::Ref(object), message, cause) => {
            begin_with(call, state, object, message, cause)
        }
        _ => illegal(call, state),
    }
}

/// The name of the class of an object, with a dot for each slash.
fn class_units(call: &Call<'_>, state: &State, object: u64) -> Result<Vec<u16>, AllocError>
    ensures { IfOk result (λ units. units.items ≡ dotted (units_of (class_text call.now.here.now.program.now (object_at (state_of state.now) object).class))) }
{
    let name = class_text(call.here.alloc, call.here.program, state.class_of(object))?;
    let units = units_of(call.here.alloc, name.bytes())?;
    dotted(call.here.alloc, &units)
}

/// className0.
pub(crate) fn throwable_class_name(call: &Call<'_>, state: &mut State) -> Made
    ensures { Does call.now throwable_class_name state.old state.new result }
{
    match call.values {
        Arguments::One(Value::Ref(object)) => {
            let units = class_units(call, state, object)?;
            answer_text(call, state, units)
        }
        _ => illegal(call, state),
    }
}

/// addSuppressed, which keeps nothing.
pub(crate) fn add_suppressed(call: &Call<'_>, state: &mut State) -> Made
    ensures { Does call.now add_suppressed state.old state.new result }
{
    match call.values {
        Arguments::Two(Value::Ref(_), Value::Ref(_)) => nothing(call, state),
        Arguments::Two(Value::Ref(_), Value::Null) => null_pointer(call, state),
        _ => illegal(call, state),
    }
}
