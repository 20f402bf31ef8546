//! What native methods answer by cells of objects that hold numbers and references, at one configuration.

ghost use Rattle.std.specs.Prelude.{◌≡◌};
ghost use Rattle.vx_lang.specs.Questions.{asked_cells, asked_one, asked_two, number_in, same_class};
ghost use Rattle.vx_natives.specs.Deeds.{deed_of};

use crate::values::give;
use vx_heap::Heap;
use vx_natives::{Call, CellQuestion, Effect, Exception};
use vx_numbers::compare_long;
use vx_space::Space;
use vx_strings::{give_bool, give_int, refuse};
use vx_value::Slot;

/// The number in a cell, and 0 where it holds none.
pub(crate) fn number_in(cell: Slot) -> i32
    ensures { result ≡ number_in cell }
{
    match cell {
        Slot::Int(n) => n,
        _ => 0,
    }
}

/// Whether two slots are objects of one class.
fn same_class<S: Space>(heap: &Heap<S>, a: Slot, b: Slot) -> bool
    ensures { result ≡ same_class heap.now a b }
{
    match heap.class_at(a) {
        Some(first) => match heap.class_at(b) {
            Some(second) => second.0 == first.0,
            None => false,
        },
        None => false,
    }
}

/// What is answered by a cell of one object.
fn asked_one(question: CellQuestion, object: Slot, cell: Slot) -> Effect
    ensures { deed_of result ≡ asked_one question object cell }
{
    match (question, object) {
        (CellQuestion::IntValue, Slot::Ref(_)) => give_int(number_in(cell)),
        (CellQuestion::LongValue, Slot::Ref(_)) => give(Slot::Long(i64::from(number_in(cell)))),
        (CellQuestion::FirstCell, Slot::Ref(_)) => give(cell),
        (CellQuestion::SecondCell, Slot::Ref(_)) => give(cell),
        _ => refuse(),
    }
}

/// What is answered by cells of two objects, by whether these are of one class.
fn asked_two(
    question: CellQuestion,
    alike: bool,
    a: Slot,
    b: Slot,
    first: Slot,
    second: Slot,
) -> Effect
    ensures { deed_of result ≡ asked_two question alike a b first second }
{
    let (m, n) = (number_in(first), number_in(second));
    match (question, a, b) {
        (CellQuestion::SameNumber, Slot::Ref(_), Slot::Ref(_)) => give_bool(alike && m == n),
        (CellQuestion::SameNumber, Slot::Ref(_), Slot::Null) => give_bool(false),
        (CellQuestion::CompareNumbers, Slot::Ref(_), Slot::Ref(_)) => {
            give_int(compare_long(i64::from(m), i64::from(n)))
        }
        (CellQuestion::CompareNumbers, Slot::Ref(_), Slot::Null) => Effect::Raise(Exception::Null),
        (CellQuestion::CompareOrdinals, Slot::Ref(_), Slot::Ref(_)) => {
            give_int(m.wrapping_sub(n))
        }
        (CellQuestion::CompareOrdinals, Slot::Ref(_), Slot::Null) => Effect::Raise(Exception::Null),
        _ => refuse(),
    }
}

/// What is answered to a call with its cells behind its values.
pub(crate) fn asked_cells<S: Space>(heap: &Heap<S>, question: CellQuestion, call: Call) -> Effect
    ensures { deed_of result ≡ asked_cells heap.now question call }
{
    match call {
        Call::Two(object, cell) => asked_one(question, object, cell),
        Call::Four(a, b, first, second) => {
            let alike = same_class(heap, a, b);
            asked_two(question, alike, a, b, first, second)
        }
        _ => refuse(),
    }
}
