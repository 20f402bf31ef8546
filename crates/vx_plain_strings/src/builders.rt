//! The native methods of StringBuilder.

ghost use Rattle.vx_java.specs.Texts.{builder_append, builder_delete, builder_init_capacity, builder_reverse, builder_set_length};
ghost use Rattle.vx_plain_strings.specs.Answers.{Answers, Does};
ghost use Rattle.vx_plain_strings.specs.Texts.{deleted, spell, with_length};

use crate::answers::{
    LENGTH_BOUND, answer_written, bad_index, illegal, negative_size, null_pointer, rewrite,
    too_long, write_text,
};
use crate::call::{Arguments, Call};
use crate::spelling::{Spelling, spelled};
use vx_plain::{State, Value};
use vx_plain_here::{Made, is_within};
use vx_units::{joined, of_length, reversed, without_unit};

/// The constructor of a capacity, which is not negative: the text is empty whatever it is.
pub fn builder_init_capacity(call: &Call<'_>, state: &mut State) -> Made
    ensures { Does call.now builder_init_capacity state.old state.new result }
{
    match call.values {
        Arguments::Two(Value::Ref(object), Value::Int(capacity)) => {
            if capacity < 0 {
                negative_size(call, state)
            } else {
                write_text(call, state, object, Vec::new(call.here.alloc))
            }
        }
        _ => illegal(call, state),
    }
}

/// append of a value.
pub fn builder_append(call: &Call<'_>, state: &mut State, spelling: Spelling) -> Made
    ensures { Does call.now (builder_append (spell spelling)) state.old state.new result }
{
    match call.values {
        Arguments::Two(Value::Ref(object), value) => {
            let Some(units) = spelled(call, state, spelling, value)? else {
                return null_pointer(call, state);
            };
            let made = joined(call.here.alloc, state.text(object), &units)?;
            rewrite(call, state, object, made)
        }
        _ => illegal(call, state),
    }
}

/// A text is cut to a length, or filled up with units 0.
fn with_length(call: &Call<'_>, state: &mut State, object: u64, length: i32) -> Made
    ensures { Answers call.now (λ h rest. with_length h rest object length) state.old state.new result }
{
    if length < 0 {
        return bad_index(call, state);
    }
    let length = length as usize;
    if length > LENGTH_BOUND {
        return too_long(call, state);
    }
    let made = of_length(call.here.alloc, state.text(object), length)?;
    write_text(call, state, object, made)
}

/// setLength.
pub fn builder_set_length(call: &Call<'_>, state: &mut State) -> Made
    ensures { Does call.now builder_set_length state.old state.new result }
{
    match call.values {
        Arguments::Two(Value::Ref(object), Value::Int(length)) => {
            with_length(call, state, object, length)
        }
        _ => illegal(call, state),
    }
}

/// The unit of a place is taken out of a text.
fn deleted(call: &Call<'_>, state: &mut State, object: u64, index: i32) -> Made
    ensures { Answers call.now (λ h rest. deleted h rest object index) state.old state.new result }
{
    let units = state.text(object);
    if !is_within(index, units.len()) {
        return bad_index(call, state);
    }
    let made = without_unit(call.here.alloc, units, index as usize)?;
    answer_written(call, state, object, made)
}

/// deleteCharAt.
pub fn builder_delete(call: &Call<'_>, state: &mut State) -> Made
    ensures { Does call.now builder_delete state.old state.new result }
{
    match call.values {
        Arguments::Two(Value::Ref(object), Value::Int(index)) => {
            deleted(call, state, object, index)
        }
        _ => illegal(call, state),
    }
}

/// reverse.
pub fn builder_reverse(call: &Call<'_>, state: &mut State) -> Made
    ensures { Does call.now builder_reverse state.old state.new result }
{
    match call.values {
        Arguments::One(Value::Ref(object)) => {
            let made = reversed(call.here.alloc, state.text(object))?;
            answer_written(call, state, object, made)
        }
        _ => illegal(call, state),
    }
}
