//! What native methods answer by texts, at one configuration.

ghost use Rattle.std.specs.Prelude.{◌≡◌, ◌<◌, ◌^◌, bytes_eq, length, pos};
ghost use Rattle.vx_java.specs.Ids.{HasClassNumbers};
ghost use Rattle.vx_java.specs.Texts.{place_of, place_of_point, text_difference, units_of_point};
ghost use Rattle.vx_natives.specs.Deeds.{deed_of};
ghost use Rattle.vx_natives.specs.Texts.{units_of};
ghost use Rattle.vx_units.specs.Numbers.{int_in};
ghost use Rattle.vx_value.specs.Texts.{text_at};
ghost use Rattle.vx_strings.specs.Questions.{asked, asked_both, asked_int, asked_null, asked_one, char_at, gives_bool, gives_int, is_string, parsed, refused};

use vx_group_states::Answer;
use vx_heap::Heap;
use vx_java::core_class;
use vx_link::Program;
use vx_natives::{Call, Effect, Exception, TextQuestion, units_in};
use vx_space::Space;
use vx_units::{difference, ends_with, hash, int_in, place_of, place_of_point};
use vx_value::{Slot, TextTable};

/// The greatest length that is an int.
const MOST_UNITS: usize = 2_147_483_647;

/// An int is given.
pub fn give_int(n: i32) -> Effect
    ensures { deed_of result ≡ gives_int n }
{
    Effect::Answer(Answer::Give(Slot::Int(n)))
}

/// A boolean is given.
pub fn give_bool(value: bool) -> Effect
    ensures { deed_of result ≡ gives_bool value }
{
    give_int(i32::from(value))
}

/// A rule of the call is broken.
pub fn refuse() -> Effect
    ensures { deed_of result ≡ refused }
{
    Effect::Answer(Answer::Illegal)
}

/// A length as an int.
fn length_value(units: &[u16]) -> i32
    requires { length units.now < 2 ^ 31 }
    ensures { result ≡ pos (length units.now) }
{
    units.len() as i32
}

/// The first place at which a text begins in another one, or -1.
#[tactic(auto, using(crate::proofs::Places::place_kept))]
fn first_place(text: &[u16], units: &[u16]) -> i32
    requires { length units.now < 2 ^ 31 }
    ensures { result ≡ place_of 0 text.now units.now }
{
    match place_of(text, units) {
        Some(place) => place.min(MOST_UNITS) as i32,
        None => -1,
    }
}

/// The first place of a code point, or -1.
#[tactic(auto, using(crate::proofs::Places::point_kept))]
fn first_point(units: &[u16], point: i32) -> i32
    requires { length units.now < 2 ^ 31 }
    ensures { result ≡ place_of_point units.now (units_of_point point) }
{
    match place_of_point(units, point) {
        Some(place) => place.min(MOST_UNITS) as i32,
        None => -1,
    }
}

/// The difference of two texts.
fn compared(first: &[u16], second: &[u16]) -> i32
    requires first { length first.now < 2 ^ 31 }
    requires second { length second.now < 2 ^ 31 }
    ensures { result ≡ text_difference first.now second.now }
{
    difference(first, second) as i32
}

/// The int that a text spells.
fn parsed(units: &[u16]) -> Effect
    ensures { deed_of result ≡ parsed (int_in units.now) }
{
    match int_in(units) {
        Some(n) => give_int(n),
        None => Effect::Raise(Exception::BadNumber),
    }
}

/// What is answered by the text of one object.
fn asked_one(question: TextQuestion, object: Slot, units: &[u16]) -> Effect
    requires { length units.now < 2 ^ 31 }
    ensures { deed_of result ≡ asked_one question object units.now }
{
    match (question, object) {
        (TextQuestion::Length, Slot::Ref(_)) => give_int(length_value(units)),
        (TextQuestion::IsEmpty, Slot::Ref(_)) => give_bool(units.is_empty()),
        (TextQuestion::Hash, Slot::Ref(_)) => give_int(hash(units)),
        (TextQuestion::Parse, Slot::Ref(_)) => parsed(units),
        (TextQuestion::Parse, _) => Effect::Raise(Exception::BadNumber),
        _ => refuse(),
    }
}

/// The unit of a place.
fn char_at(units: &[u16], place: i32) -> Effect
    ensures { deed_of result ≡ char_at units.now place }
{
    if place < 0 || place as usize >= units.len() {
        return Effect::Raise(Exception::BadIndex);
    }
    give_int(i32::from(units[place as usize]))
}

/// What is answered by the text of an object and an int.
fn asked_int(question: TextQuestion, object: Slot, number: Slot, units: &[u16]) -> Effect
    requires { length units.now < 2 ^ 31 }
    ensures { deed_of result ≡ asked_int question object number units.now }
{
    match (question, object, number) {
        (TextQuestion::CharAt, Slot::Ref(_), Slot::Int(place)) => char_at(units, place),
        (TextQuestion::PlaceOfPoint, Slot::Ref(_), Slot::Int(point)) => {
            give_int(first_point(units, point))
        }
        _ => refuse(),
    }
}

/// Whether the texts of two numbers are one: exactly where the numbers are.
fn same_numbers(texts: &TextTable, a: u64, b: u64) -> bool
    requires first { a < length texts.now.texts }
    requires second { b < length texts.now.texts }
    ensures { result ≡ bytes_eq (text_at texts.now.texts a) (text_at texts.now.texts b) }
{
    a == b
}

/// Whether the texts of two numbers are one, where a number has no text an empty one.
fn same_texts<S: Space>(heap: &Heap<S>, a: u64, b: u64) -> bool
    ensures { result ≡ bytes_eq (text_at heap.now.texts a) (text_at heap.now.texts b) }
{
    let texts = heap.texts();
    let count = texts.len();
    if a < count && b < count {
        return same_numbers(texts, a, b);
    }
    units_in(heap, Slot::Text(a)) == units_in(heap, Slot::Text(b))
}

/// Whether two cells hold one text.
fn same_text<S: Space>(heap: &Heap<S>, first: Slot, second: Slot) -> bool
    ensures { result ≡ bytes_eq (units_of heap.now.texts first) (units_of heap.now.texts second) }
{
    match (first, second) {
        (Slot::Text(a), Slot::Text(b)) => same_texts(heap, a, b),
        _ => units_in(heap, first) == units_in(heap, second),
    }
}

/// Whether an object is a string.
fn is_string<S: Space>(program: &Program, heap: &Heap<S>, slot: Slot) -> bool
    requires { HasClassNumbers program.now }
    ensures { result ≡ is_string program.now heap.now slot }
{
    match heap.class_at(slot) {
        Some(class) => class.0 == core_class(program, b"java/lang/String").0,
        None => false,
    }
}

/// What is answered by the texts of two objects, of which the second is a string or not.
fn asked_both<S: Space>(
    heap: &Heap<S>,
    question: TextQuestion,
    is_string: bool,
    first: Slot,
    second: Slot,
) -> Effect
    ensures { deed_of result ≡ asked_both question is_string (units_of heap.now.texts first) (units_of heap.now.texts second) }
{
    let (a, b) = (units_in(heap, first), units_in(heap, second));
    match question {
        TextQuestion::Equals => give_bool(is_string && same_text(heap, first, second)),
        TextQuestion::Compare => give_int(compared(a, b)),
        TextQuestion::PlaceOf => give_int(first_place(b, a)),
        TextQuestion::StartsWith => give_bool(a.starts_with(b)),
        TextQuestion::EndsWith => give_bool(ends_with(a, b)),
        _ => refuse(),
    }
}

/// What is answered of null.
fn asked_null(question: TextQuestion) -> Effect
    ensures { deed_of result ≡ asked_null question }
{
    match question {
        TextQuestion::Equals => give_bool(false),
        _ => Effect::Raise(Exception::Null),
    }
}

/// What is answered to a call with its texts behind its values.
pub fn asked<S: Space>(
    program: &Program,
    heap: &Heap<S>,
    question: TextQuestion,
    call: Call,
) -> Effect
    requires { HasClassNumbers program.now }
    ensures { deed_of result ≡ asked program.now heap.now question call }
{
    match call {
        Call::Two(object, text) => asked_one(question, object, units_in(heap, text)),
        Call::Three(object, number, text) => {
            asked_int(question, object, number, units_in(heap, text))
        }
        Call::Four(Slot::Ref(_), Slot::Ref(other), first, second) => {
            let is_string = is_string(program, heap, Slot::Ref(other));
            asked_both(heap, question, is_string, first, second)
        }
        Call::Four(Slot::Ref(_), Slot::Null, _, _) => asked_null(question),
        _ => refuse(),
    }
}
