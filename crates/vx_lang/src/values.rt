//! What native methods answer by the values of a call alone, at one configuration.

ghost use Rattle.std.specs.Prelude.{◌≡◌};
ghost use Rattle.vx_lang.specs.Values.{computed, computed_one, computed_two, first_boolean_of, gives, of_two_ints, of_two_longs, of_two_numbers, suppressed};
ghost use Rattle.vx_natives.specs.Deeds.{deed_of};

use vx_group_states::Answer;
use vx_heap::Heap;
use vx_natives::{Call, Computation, Effect, Exception};
use vx_numbers::{absolute_of_int, absolute_of_long, compare_long};
use vx_objects::same_slots;
use vx_space::Space;
use vx_strings::{give_bool, give_int, refuse};
use vx_value::Slot;

/// A slot is given.
pub(crate) fn give(slot: Slot) -> Effect
    ensures { deed_of result ≡ gives slot }
{
    Effect::Answer(Answer::Give(slot))
}

/// The number of the Boolean object of a boolean.
fn boolean_object<S: Space>(heap: &Heap<S>, n: i32) -> u64
    ensures { result ≡ first_boolean_of n }
{
    heap.first_boolean(n != 0)
}

/// What a method of one value answers.
fn computed_one<S: Space>(heap: &Heap<S>, computation: Computation, a: Slot) -> Effect
    ensures { deed_of result ≡ computed_one computation a }
{
    match (computation, a) {
        (Computation::Pass, _) => Effect::Answer(Answer::Pass),
        (Computation::False, _) => give_bool(false),
        (Computation::Receiver, Slot::Ref(_)) => give(a),
        (Computation::Exit, Slot::Int(code)) => Effect::Answer(Answer::Exit(code)),
        (Computation::BooleanOf, Slot::Int(n)) => give(Slot::Ref(boolean_object(heap, n))),
        (Computation::AbsoluteInt, Slot::Int(n)) => give_int(absolute_of_int(n)),
        (Computation::AbsoluteLong, Slot::Long(n)) => give(Slot::Long(absolute_of_long(n))),
        _ => refuse(),
    }
}

/// What a method of two ints answers.
fn of_two_ints(computation: Computation, a: i32, b: i32) -> Effect
    ensures { deed_of result ≡ of_two_ints computation a b }
{
    match computation {
        Computation::CompareInts => give_int(compare_long(i64::from(a), i64::from(b))),
        Computation::GreaterInt => give_int(a.max(b)),
        Computation::LesserInt => give_int(a.min(b)),
        _ => refuse(),
    }
}

/// What a method of two longs answers.
fn of_two_longs(computation: Computation, a: i64, b: i64) -> Effect
    ensures { deed_of result ≡ of_two_longs computation a b }
{
    match computation {
        Computation::GreaterLong => give(Slot::Long(a.max(b))),
        Computation::LesserLong => give(Slot::Long(a.min(b))),
        _ => refuse(),
    }
}

/// What is answered where an exception is suppressed by another one, which keeps nothing of it.
fn suppressed(a: Slot, b: Slot) -> Effect
    ensures { deed_of result ≡ suppressed a b }
{
    match (a, b) {
        (Slot::Ref(_), Slot::Ref(_)) => Effect::Answer(Answer::Pass),
        (Slot::Ref(_), Slot::Null) => Effect::Raise(Exception::Null),
        _ => refuse(),
    }
}

/// What a method of two numbers answers.
fn of_two_numbers(computation: Computation, a: Slot, b: Slot) -> Effect
    ensures { deed_of result ≡ of_two_numbers computation a b }
{
    match (a, b) {
        (Slot::Int(m), Slot::Int(n)) => of_two_ints(computation, m, n),
        (Slot::Long(m), Slot::Long(n)) => of_two_longs(computation, m, n),
        _ => refuse(),
    }
}

/// What a method of two values answers.
fn computed_two(computation: Computation, a: Slot, b: Slot) -> Effect
    ensures { deed_of result ≡ computed_two computation a b }
{
    match computation {
        Computation::SameObject => give_bool(same_slots(a, b)),
        Computation::AddSuppressed => suppressed(a, b),
        _ => of_two_numbers(computation, a, b),
    }
}

/// What a method answers to a call.
pub(crate) fn computed<S: Space>(heap: &Heap<S>, computation: Computation, call: Call) -> Effect
    ensures { deed_of result ≡ computed computation call }
{
    match call {
        Call::One(a) => computed_one(heap, computation, a),
        Call::Two(a, b) => computed_two(computation, a, b),
        _ => refuse(),
    }
}
