//! The native methods of Integer, Boolean and Math.

ghost use Rattle.std.specs.Prelude.{◌≡◌, ◌==◌, ◌&&◌, int_le, negsuc, pos};
ghost use Rattle.std.specs.Int.{int_max, int_min};
ghost use Rattle.vx_java.specs.FirstObjects.{first_boolean, first_integer};
ghost use Rattle.vx_java.specs.Library.{absolute_int, absolute_long, boolean_to_string, boolean_value_of, compare_numbers, integer_compare, integer_int_value, integer_long_value, integer_parse, integer_to_string, integer_to_string_of, integer_value_of, number_of_object, of_ints, of_longs, same_number};
ghost use Rattle.vx_java.specs.Machine.{object_at};
ghost use Rattle.vx_plain.specs.Views.{state_of};
ghost use Rattle.vx_plain_here.specs.Rows.{here_in};
ghost use Rattle.vx_plain_strings.specs.Answers.{Answers, Does};
ghost use Rattle.vx_plain_natives.specs.Numbers.{integer_object, parsed};
ghost use Rattle.vx_value.specs.Arithmetic.{natural, same_int};

use vx_numbers::{absolute_of_int, absolute_of_long, compare_long};
use vx_plain::{Object, State, Value};
use vx_plain_here::Made;
use vx_plain_strings::{
    Arguments, Call, answer, answer_bool, answer_int, answer_new, answer_text, illegal,
    not_a_number, null_pointer,
};
use vx_units::{bool_units, decimal, int_in};

// ---- Integer

/// Whether an int has a first object.
fn has_first(n: i32) -> bool
    ensures { result ≡ (int_le (negsuc 127) n && int_le n (pos 127)) }
{
    -128 <= n && n <= 127
}

/// The first object of an int from -128 to 127.
fn first_integer(n: i32) -> u64
    ensures { result ≡ first_integer n }
{
    2 + (i64::from(n) + 128).max(0) as u64
}

/// The Integer object of an int: a first one, or a new one.
fn integer_object(call: &Call<'_>, state: &mut State, n: i32) -> Made
    ensures { Answers call.now (λ h rest. integer_object h rest n) state.old state.new result }
{
    if has_first(n) {
        return answer(call, state, Value::Ref(first_integer(n)));
    }
    let class = call.here.core(b"java/lang/Integer");
    let cells = Vec::from_slice(call.here.alloc, &[Value::Int(n)])?;
    answer_new(call, state, Object::of_cells(class, cells))
}

/// valueOf of Integer.
pub(crate) fn integer_value_of(call: &Call<'_>, state: &mut State) -> Made
    ensures { Does call.now integer_value_of state.old state.new result }
{
    match call.values {
        Arguments::One(Value::Int(n)) => integer_object(call, state, n),
        _ => illegal(call, state),
    }
}

/// The int that a text spells, or the exception where it spells none.
#[tactic(auto, using(crate::proofs::Readings::parsed_in))]
fn parsed(call: &Call<'_>, state: &mut State, found: Option<i32>) -> Made
    ensures { Answers call.now (λ h rest. parsed h rest found) state.old state.new result }
{
    match found {
        Some(n) => answer_int(call, state, n),
        None => not_a_number(call, state),
    }
}

/// parseInt.
#[tactic(auto, using(crate::proofs::Readings::parsed_in))]
pub(crate) fn integer_parse(call: &Call<'_>, state: &mut State) -> Made
    ensures { Does call.now integer_parse state.old state.new result }
{
    match call.values {
        Arguments::One(Value::Ref(object)) => {
            let found = int_in(state.text(object));
            parsed(call, state, found)
        }
        _ => not_a_number(call, state),
    }
}

/// toString of an int.
pub(crate) fn integer_to_string_of(call: &Call<'_>, state: &mut State) -> Made
    ensures { Does call.now integer_to_string_of state.old state.new result }
{
    match call.values {
        Arguments::One(Value::Int(n)) => {
            let units = decimal(call.here.alloc, n)?;
            answer_text(call, state, units)
        }
        _ => illegal(call, state),
    }
}

/// compare.
pub(crate) fn integer_compare(call: &Call<'_>, state: &mut State) -> Made
    ensures { Does call.now integer_compare state.old state.new result }
{
    match call.values {
        Arguments::Two(Value::Int(a), Value::Int(b)) => {
            answer_int(call, state, compare_long(i64::from(a), i64::from(b)))
        }
        _ => illegal(call, state),
    }
}

/// intValue and hashCode of Integer, booleanValue.
pub(crate) fn integer_int_value(call: &Call<'_>, state: &mut State) -> Made
    ensures { Does call.now integer_int_value state.old state.new result }
{
    match call.values {
        Arguments::One(Value::Ref(object)) => {
            let n = state.number(object, 0);
            answer_int(call, state, n)
        }
        _ => illegal(call, state),
    }
}

/// longValue.
pub(crate) fn integer_long_value(call: &Call<'_>, state: &mut State) -> Made
    ensures { Does call.now integer_long_value state.old state.new result }
{
    match call.values {
        Arguments::One(Value::Ref(object)) => {
            let n = state.number(object, 0);
            answer(call, state, Value::Long(i64::from(n)))
        }
        _ => illegal(call, state),
    }
}

/// toString of Integer.
pub(crate) fn integer_to_string(call: &Call<'_>, state: &mut State) -> Made
    ensures { Does call.now integer_to_string state.old state.new result }
{
    match call.values {
        Arguments::One(Value::Ref(object)) => {
            let units = decimal(call.here.alloc, state.number(object, 0))?;
            answer_text(call, state, units)
        }
        _ => illegal(call, state),
    }
}

/// Whether two objects are of one class and hold one number. A text holds the number 0.
fn is_same_number(call: &Call<'_>, state: &State, object: u64, other: u64) -> bool
    ensures { let h = here_in call.now.here.now (state_of state.now) in result ≡ (((object_at h.state other).class == (object_at h.state object).class) && same_int (number_of_object h object) (number_of_object h other)) }
{
    let (a, b) = (state.number(object, 0), state.number(other, 0));
    state.class_of(other).0 == state.class_of(object).0 && a == b
}

/// equals of Integer and Boolean: null is not the same.
pub(crate) fn same_number(call: &Call<'_>, state: &mut State) -> Made
    ensures { Does call.now same_number state.old state.new result }
{
    match call.values {
        Arguments::Two(Value::Ref(object), Value::Ref(other)) => {
            let same = is_same_number(call, state, object, other);
            answer_bool(call, state, same)
        }
        Arguments::Two(Value::Ref(_), Value::Null) => answer_bool(call, state, false),
        _ => illegal(call, state),
    }
}

/// compareTo of Integer and Boolean.
pub(crate) fn compare_numbers(call: &Call<'_>, state: &mut State) -> Made
    ensures { Does call.now compare_numbers state.old state.new result }
{
    match call.values {
        Arguments::Two(Value::Ref(object), Value::Ref(other)) => {
            let a = state.number(object, 0);
            let b = state.number(other, 0);
            answer_int(call, state, compare_long(i64::from(a), i64::from(b)))
        }
        Arguments::Two(Value::Ref(_), Value::Null) => null_pointer(call, state),
        _ => illegal(call, state),
    }
}

// ---- Boolean

/// The Boolean object of a boolean.
fn first_boolean(n: i32) -> u64
    ensures { result ≡ first_boolean (natural n) }
{
    258 + n.max(0) as u64
}

/// valueOf of Boolean.
pub(crate) fn boolean_value_of(call: &Call<'_>, state: &mut State) -> Made
    ensures { Does call.now boolean_value_of state.old state.new result }
{
    match call.values {
        Arguments::One(Value::Int(n)) => answer(call, state, Value::Ref(first_boolean(n))),
        _ => illegal(call, state),
    }
}

/// toString of Boolean.
pub(crate) fn boolean_to_string(call: &Call<'_>, state: &mut State) -> Made
    ensures { Does call.now boolean_to_string state.old state.new result }
{
    match call.values {
        Arguments::One(Value::Ref(object)) => {
            let units = bool_units(call.here.alloc, state.number(object, 0))?;
            answer_text(call, state, units)
        }
        _ => illegal(call, state),
    }
}

// ---- Math

/// abs of an int.
pub(crate) fn absolute_int(call: &Call<'_>, state: &mut State) -> Made
    ensures { Does call.now absolute_int state.old state.new result }
{
    match call.values {
        Arguments::One(Value::Int(a)) => answer_int(call, state, absolute_of_int(a)),
        _ => illegal(call, state),
    }
}

/// abs of a long.
pub(crate) fn absolute_long(call: &Call<'_>, state: &mut State) -> Made
    ensures { Does call.now absolute_long state.old state.new result }
{
    match call.values {
        Arguments::One(Value::Long(a)) => answer(call, state, Value::Long(absolute_of_long(a))),
        _ => illegal(call, state),
    }
}

/// max of ints.
pub(crate) fn greater_int(call: &Call<'_>, state: &mut State) -> Made
    ensures { Does call.now (of_ints int_max) state.old state.new result }
{
    match call.values {
        Arguments::Two(Value::Int(a), Value::Int(b)) => answer_int(call, state, a.max(b)),
        _ => illegal(call, state),
    }
}

/// max of longs.
pub(crate) fn greater_long(call: &Call<'_>, state: &mut State) -> Made
    ensures { Does call.now (of_longs int_max) state.old state.new result }
{
    match call.values {
        Arguments::Two(Value::Long(a), Value::Long(b)) => {
            answer(call, state, Value::Long(a.max(b)))
        }
        _ => illegal(call, state),
    }
}

/// min of ints.
pub(crate) fn lesser_int(call: &Call<'_>, state: &mut State) -> Made
    ensures { Does call.now (of_ints int_min) state.old state.new result }
{
    match call.values {
        Arguments::Two(Value::Int(a), Value::Int(b)) => answer_int(call, state, a.min(b)),
        _ => illegal(call, state),
    }
}

/// min of longs.
pub(crate) fn lesser_long(call: &Call<'_>, state: &mut State) -> Made
    ensures { Does call.now (of_longs int_min) state.old state.new result }
{
    match call.values {
        Arguments::Two(Value::Long(a), Value::Long(b)) => {
            answer(call, state, Value::Long(a.min(b)))
        }
        _ => illegal(call, state),
    }
}
