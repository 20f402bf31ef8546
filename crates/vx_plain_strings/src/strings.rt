//! The native methods of Object and String.

ghost use Rattle.std.specs.Prelude.{◌≡◌, ◌==◌, ◌&&◌, bytes_eq};
ghost use Rattle.vx_java.specs.Checks.{same_reference};
ghost use Rattle.vx_java.specs.Machine.{object_at, push_new};
ghost use Rattle.vx_java.specs.Texts.{answer_false, answer_receiver, char_array, part, same_object, string_compare, string_concat, string_ends_with, string_equals, string_hash, string_index_of, string_index_of_point, string_init, string_init_chars, string_init_string, string_starts_with, string_substring, string_to_chars, text_char_at, text_is_empty, text_length, text_of_object, text_to_string};
ghost use Rattle.vx_link.specs.ClassNames.{core_class};
ghost use Rattle.vx_plain.specs.Views.{state_of, value_of};
ghost use Rattle.vx_plain_here.specs.Rows.{here_in};
ghost use Rattle.vx_plain_strings.specs.Answers.{Answers, Does};

use crate::answers::{
    answer, answer_bool, answer_int, answer_new, answer_text, bad_index, illegal, null_pointer,
    write_text,
};
use crate::call::{Arguments, Call};
use crate::texts::{as_int, chars_of, elements_of, place_as_int, text_of};
use vx_plain::{Object, State, Value};
use vx_plain_here::{Made, int_of, is_within};
use vx_references::arrays::{CHAR, array_of_primitives};
use vx_units::{difference, ends_with, hash, joined, place_of, place_of_point};

// ---- Object and Class

/// Whether two references are one.
fn same_reference(a: Value, b: Value) -> bool
    ensures { result ≡ same_reference (value_of a) (value_of b) }
{
    match (a, b) {
        (Value::Null, Value::Null) => true,
        (Value::Ref(a), Value::Ref(b)) => a == b,
        _ => false,
    }
}

/// equals of Object and Enum.
pub fn same_object(call: &Call<'_>, state: &mut State) -> Made
    ensures { Does call.now same_object state.old state.new result }
{
    match call.values {
        Arguments::Two(a, b) => answer_bool(call, state, same_reference(a, b)),
        _ => illegal(call, state),
    }
}

/// desiredAssertionStatus.
pub fn answer_false(call: &Call<'_>, state: &mut State) -> Made
    ensures { Does call.now answer_false state.old state.new result }
{
    answer_bool(call, state, false)
}

// ---- constructors

/// The constructor without arguments.
pub fn string_init(call: &Call<'_>, state: &mut State) -> Made
    ensures { Does call.now string_init state.old state.new result }
{
    match call.values {
        Arguments::One(Value::Ref(object)) => {
            write_text(call, state, object, Vec::new(call.here.alloc))
        }
        _ => illegal(call, state),
    }
}

/// The constructor from a String.
pub fn string_init_string(call: &Call<'_>, state: &mut State) -> Made
    ensures { Does call.now string_init_string state.old state.new result }
{
    match call.values {
        Arguments::Two(Value::Ref(object), Value::Ref(other)) => {
            let units = text_of(call, state, other)?;
            write_text(call, state, object, units)
        }
        Arguments::Two(Value::Ref(_), Value::Null) => null_pointer(call, state),
        _ => illegal(call, state),
    }
}

/// The constructor from chars.
pub fn string_init_chars(call: &Call<'_>, state: &mut State) -> Made
    ensures { Does call.now string_init_chars state.old state.new result }
{
    match call.values {
        Arguments::Two(Value::Ref(object), Value::Ref(array)) => {
            let units = chars_of(call, state, array)?;
            write_text(call, state, object, units)
        }
        Arguments::Two(Value::Ref(_), Value::Null) => null_pointer(call, state),
        _ => illegal(call, state),
    }
}

// ---- questions to texts

/// length.
pub fn text_length(call: &Call<'_>, state: &mut State) -> Made
    ensures { Does call.now text_length state.old state.new result }
{
    match call.values {
        Arguments::One(Value::Ref(object)) => {
            let length = int_of(state.text(object).len())?;
            answer_int(call, state, length)
        }
        _ => illegal(call, state),
    }
}

/// isEmpty.
pub fn text_is_empty(call: &Call<'_>, state: &mut State) -> Made
    ensures { Does call.now text_is_empty state.old state.new result }
{
    match call.values {
        Arguments::One(Value::Ref(object)) => {
            let is_empty = state.text(object).is_empty();
            answer_bool(call, state, is_empty)
        }
        _ => illegal(call, state),
    }
}

/// charAt.
pub fn text_char_at(call: &Call<'_>, state: &mut State) -> Made
    ensures { Does call.now text_char_at state.old state.new result }
{
    match call.values {
        Arguments::Two(Value::Ref(object), Value::Int(index)) => {
            if is_within(index, state.text(object).len()) {
                let unit = i32::from(state.text(object)[index as usize]);
                answer_int(call, state, unit)
            } else {
                bad_index(call, state)
            }
        }
        _ => illegal(call, state),
    }
}

/// hashCode.
pub fn string_hash(call: &Call<'_>, state: &mut State) -> Made
    ensures { Does call.now string_hash state.old state.new result }
{
    match call.values {
        Arguments::One(Value::Ref(object)) => {
            let code = hash(state.text(object));
            answer_int(call, state, code)
        }
        _ => illegal(call, state),
    }
}

/// Whether an object is a String with the text of another one.
fn is_same_text(call: &Call<'_>, state: &State, object: u64, other: u64) -> bool
    ensures { let h = here_in call.now.here.now (state_of state.now) in result ≡ (((object_at h.state other).class == core_class h.program "java/lang/String") && bytes_eq (text_of_object h object) (text_of_object h other)) }
{
    state.class_of(other) == call.here.core(b"java/lang/String")
        && state.text(object) == state.text(other)
}

/// equals.
pub fn string_equals(call: &Call<'_>, state: &mut State) -> Made
    ensures { Does call.now string_equals state.old state.new result }
{
    match call.values {
        Arguments::Two(Value::Ref(object), Value::Ref(other)) => {
            let same = is_same_text(call, state, object, other);
            answer_bool(call, state, same)
        }
        Arguments::Two(Value::Ref(_), Value::Null) => answer_bool(call, state, false),
        _ => illegal(call, state),
    }
}

/// compareTo.
pub fn string_compare(call: &Call<'_>, state: &mut State) -> Made
    ensures { Does call.now string_compare state.old state.new result }
{
    match call.values {
        Arguments::Two(Value::Ref(object), Value::Ref(other)) => {
            let n = as_int(difference(state.text(object), state.text(other)))?;
            answer_int(call, state, n)
        }
        Arguments::Two(Value::Ref(_), Value::Null) => null_pointer(call, state),
        _ => illegal(call, state),
    }
}

/// concat.
pub fn string_concat(call: &Call<'_>, state: &mut State) -> Made
    ensures { Does call.now string_concat state.old state.new result }
{
    match call.values {
        Arguments::Two(Value::Ref(object), Value::Ref(other)) => {
            let units = joined(call.here.alloc, state.text(object), state.text(other))?;
            answer_text(call, state, units)
        }
        Arguments::Two(Value::Ref(_), Value::Null) => null_pointer(call, state),
        _ => illegal(call, state),
    }
}

// ---- parts of texts, and places in them

/// The units from a place up to another, if the first is not after the second and the second not past the end.
fn part(call: &Call<'_>, state: &mut State, object: u64, begin: i32, end: i64) -> Made
    ensures { Answers call.now (λ h rest. part h rest (text_of_object h object) begin end) state.old state.new result }
{
    let units = state.text(object);
    if begin < 0 || end < i64::from(begin) || end > units.len() as i64 {
        return bad_index(call, state);
    }
    let made = Vec::from_slice(call.here.alloc, &units[begin as usize..end as usize])?;
    answer_text(call, state, made)
}

/// substring.
pub fn string_substring(call: &Call<'_>, state: &mut State) -> Made
    ensures { Does call.now string_substring state.old state.new result }
{
    match call.values {
        Arguments::Two(Value::Ref(object), Value::Int(begin)) => {
            let end = state.text(object).len() as i64;
            part(call, state, object, begin, end)
        }
        Arguments::Three(Value::Ref(object), Value::Int(begin), Value::Int(end)) => {
            part(call, state, object, begin, i64::from(end))
        }
        _ => illegal(call, state),
    }
}

/// indexOf of a code point.
pub fn string_index_of_point(call: &Call<'_>, state: &mut State) -> Made
    ensures { Does call.now string_index_of_point state.old state.new result }
{
    match call.values {
        Arguments::Two(Value::Ref(object), Value::Int(point)) => {
            let place = place_as_int(place_of_point(state.text(object), point))?;
            answer_int(call, state, place)
        }
        _ => illegal(call, state),
    }
}

/// indexOf of a text.
pub fn string_index_of(call: &Call<'_>, state: &mut State) -> Made
    ensures { Does call.now string_index_of state.old state.new result }
{
    match call.values {
        Arguments::Two(Value::Ref(object), Value::Ref(text)) => {
            let place = place_as_int(place_of(state.text(text), state.text(object)))?;
            answer_int(call, state, place)
        }
        Arguments::Two(Value::Ref(_), Value::Null) => null_pointer(call, state),
        _ => illegal(call, state),
    }
}

/// startsWith.
pub fn string_starts_with(call: &Call<'_>, state: &mut State) -> Made
    ensures { Does call.now string_starts_with state.old state.new result }
{
    match call.values {
        Arguments::Two(Value::Ref(object), Value::Ref(text)) => {
            let starts = state.text(object).starts_with(state.text(text));
            answer_bool(call, state, starts)
        }
        Arguments::Two(Value::Ref(_), Value::Null) => null_pointer(call, state),
        _ => illegal(call, state),
    }
}

/// endsWith.
pub fn string_ends_with(call: &Call<'_>, state: &mut State) -> Made
    ensures { Does call.now string_ends_with state.old state.new result }
{
    match call.values {
        Arguments::Two(Value::Ref(object), Value::Ref(text)) => {
            let ends = ends_with(state.text(object), state.text(text));
            answer_bool(call, state, ends)
        }
        Arguments::Two(Value::Ref(_), Value::Null) => null_pointer(call, state),
        _ => illegal(call, state),
    }
}

// ---- what is made of a text

/// Answers a new array of the units of a text.
fn push_chars(call: &Call<'_>, state: &mut State, object: u64) -> Made
    ensures { Answers call.now (λ h rest. push_new h (char_array h (text_of_object h object)) rest) state.old state.new result }
{
    let cells = elements_of(call.here.alloc, state.text(object))?;
    let array = Object::array(array_of_primitives(call.here.program, CHAR), cells);
    answer_new(call, state, array)
}

/// toCharArray.
pub fn string_to_chars(call: &Call<'_>, state: &mut State) -> Made
    ensures { Does call.now string_to_chars state.old state.new result }
{
    match call.values {
        Arguments::One(Value::Ref(object)) => push_chars(call, state, object),
        _ => illegal(call, state),
    }
}

/// toString of a String, which is itself.
pub fn answer_receiver(call: &Call<'_>, state: &mut State) -> Made
    ensures { Does call.now answer_receiver state.old state.new result }
{
    match call.values {
        Arguments::One(Value::Ref(object))
        | Arguments::Two(Value::Ref(object), _)
        | Arguments::Three(Value::Ref(object), _, _)
        | Arguments::Four(Value::Ref(object), _, _, _)
        | Arguments::Five(Value::Ref(object), _, _, _, _) => {
            answer(call, state, Value::Ref(object))
        }
        _ => illegal(call, state),
    }
}

/// toString of a StringBuilder.
pub fn text_to_string(call: &Call<'_>, state: &mut State) -> Made
    ensures { Does call.now text_to_string state.old state.new result }
{
    match call.values {
        Arguments::One(Value::Ref(object)) => {
            let units = text_of(call, state, object)?;
            answer_text(call, state, units)
        }
        _ => illegal(call, state),
    }
}
