//! How a native method goes on: with an answer or without one, with an exception, or with another text.

ghost use Rattle.std.specs.Prelude.{◌∷◌};
ghost use Rattle.vx_java.specs.Library.{not_a_number};
ghost use Rattle.vx_java.specs.Machine.{go, illegal, push_new, raise};
ghost use Rattle.vx_java.specs.Texts.{answer, answer_bool, answer_int, answer_text, bad_index, null_pointer, rewrite, with_text};
ghost use Rattle.vx_plain.specs.Views.{object_of, value_of};
ghost use Rattle.vx_plain.specs.declared.value.Value.TheVariants.{Ref};
ghost use Rattle.vx_plain_strings.specs.Answers.{Answers};

use crate::call::Call;
use vx_plain::{Object, State, Value};
use vx_plain_here::Made;

/// The greatest length of a text.
pub(crate) const LENGTH_BOUND: usize = 1_048_576;

/// A rule of the call is broken.
pub fn illegal(call: &Call<'_>, state: &State) -> Made
    ensures { Answers call.now (λ h rest. illegal h) state.now state.now result }
{
    call.here.illegal(state)
}

/// Goes on without an answer.
pub fn nothing(call: &Call<'_>, state: &mut State) -> Made
    ensures { Answers call.now go state.old state.new result }
{
    call.here.go(state, call.taken)
}

/// Answers a value.
pub fn answer(call: &Call<'_>, state: &mut State, value: Value) -> Made
    ensures { Answers call.now (λ h rest. answer h rest (value_of value)) state.old state.new result }
{
    call.here.go_with(state, call.taken, value)
}

/// Answers an int.
pub fn answer_int(call: &Call<'_>, state: &mut State, n: i32) -> Made
    ensures { Answers call.now (λ h rest. answer_int h rest n) state.old state.new result }
{
    answer(call, state, Value::Int(n))
}

/// Answers a truth.
pub fn answer_bool(call: &Call<'_>, state: &mut State, truth: bool) -> Made
    ensures { Answers call.now (λ h rest. answer_bool h rest truth) state.old state.new result }
{
    answer(call, state, Value::of_bool(truth))
}

/// Answers a new object.
pub fn answer_new(call: &Call<'_>, state: &mut State, object: Object) -> Made
    ensures { Answers call.now (λ h rest. push_new h (object_of object) rest) state.old state.new result }
{
    call.here.push_new(state, call.taken, object)
}

/// Throws a NullPointerException.
pub fn null_pointer(call: &Call<'_>, state: &State) -> Made
    ensures { Answers call.now (λ h rest. null_pointer h) state.now state.now result }
{
    call.here.raise(state, b"java/lang/NullPointerException")
}

/// Throws a StringIndexOutOfBoundsException.
pub(crate) fn bad_index(call: &Call<'_>, state: &State) -> Made
    ensures { Answers call.now (λ h rest. bad_index h) state.now state.now result }
{
    call.here
        .raise(state, b"java/lang/StringIndexOutOfBoundsException")
}

/// Throws an OutOfMemoryError: a text is too long.
pub(crate) fn too_long(call: &Call<'_>, state: &State) -> Made
    ensures { Answers call.now (λ h rest. raise h "java/lang/OutOfMemoryError") state.now state.now result }
{
    call.here.raise(state, b"java/lang/OutOfMemoryError")
}

/// Throws a NegativeArraySizeException.
pub(crate) fn negative_size(call: &Call<'_>, state: &State) -> Made
    ensures { Answers call.now (λ h rest. raise h "java/lang/NegativeArraySizeException") state.now state.now result }
{
    call.here
        .raise(state, b"java/lang/NegativeArraySizeException")
}

/// Throws a NumberFormatException.
pub fn not_a_number(call: &Call<'_>, state: &State) -> Made
    ensures { Answers call.now (λ h rest. not_a_number h) state.now state.now result }
{
    call.here.raise(state, b"java/lang/NumberFormatException")
}

/// Answers a new String, whose text is not too long.
pub fn answer_text(call: &Call<'_>, state: &mut State, units: Vec<u16>) -> Made
    ensures { Answers call.now (λ h rest. answer_text h rest units.items) state.old state.new result }
{
    if units.len() > LENGTH_BOUND {
        return too_long(call, state);
    }
    let string = call.here.core(b"java/lang/String");
    answer_new(call, state, Object::of_text(string, units))
}

/// Goes on with another text of an object.
pub(crate) fn write_text(call: &Call<'_>, state: &mut State, object: u64, units: Vec<u16>) -> Made
    ensures { Answers call.now (λ h rest. go (with_text h object units.items) rest) state.old state.new result }
{
    state.write_text(object, units);
    nothing(call, state)
}

/// Answers the object itself, which has another text.
pub(crate) fn answer_written(
    call: &Call<'_>,
    state: &mut State,
    object: u64,
    units: Vec<u16>,
) -> Made
    ensures { Answers call.now (λ h rest. go (with_text h object units.items) (value_of (Ref object) ∷ rest)) state.old state.new result }
{
    state.write_text(object, units);
    answer(call, state, Value::Ref(object))
}

/// Answers the object itself, which has another text that is not too long.
pub(crate) fn rewrite(call: &Call<'_>, state: &mut State, object: u64, units: Vec<u16>) -> Made
    ensures { Answers call.now (λ h rest. rewrite h (value_of (Ref object) ∷ rest) object units.items) state.old state.new result }
{
    if units.len() > LENGTH_BOUND {
        return too_long(call, state);
    }
    answer_written(call, state, object, units)
}
