//! What native methods make of numbers, of classes and of objects that begin, and arrays that they copy, at one configuration.

ghost use Rattle.std.specs.Prelude.{◌≡◌, IfOk, option_map};
ghost use Rattle.vx_java.specs.Library.{within_array};
ghost use Rattle.vx_lang.specs.Numbers.{begun, class_named, class_units, copied, copied_between, integer_of, like_slots, made_number};
ghost use Rattle.vx_natives.specs.Deeds.{deed_of};
ghost use Rattle.vx_strings.specs.Lengths.{gives_short};
ghost use Rattle.vx_strings.specs.Spelled.{of_units};
ghost use Rattle.vx_value.specs.Arithmetic.{natural};

use crate::questions::number_in;
use crate::values::give;
use std::alloc::{AllocError, Global};
use vx_heap::Heap;
use vx_initial_heap::units_of;
use vx_java::arrays::are_like;
use vx_link::Program;
use vx_natives::{Call, Effect, Exception, Initialiser, Maker};
use vx_space::Space;
use vx_spelling::class_text;
use vx_strings::{SpelledText, give_short, refuse};
use vx_units::{bool_units, decimal, dotted};
use vx_value::Slot;

/// The Integer object of a number: a first one, or a new one.
fn integer_of<S: Space>(heap: &Heap<S>, n: i32) -> Effect
    ensures { deed_of result ≡ integer_of n }
{
    if -128 <= n && n <= 127 {
        give(Slot::Ref(heap.first_integer(n)))
    } else {
        Effect::GiveInteger(n)
    }
}

/// A new string of units.
fn give_units<S: Space>(heap: &Heap<S>, units: Vec<u16>) -> Effect
    ensures { deed_of result ≡ gives_short heap.now.texts (of_units units.items) }
{
    give_short(
        heap,
        SpelledText {
            start: Slot::Top,
            units,
        },
    )
}

/// The name of an object's class, with a dot for each slash.
fn class_units<S: Space>(
    alloc: Global,
    program: &Program,
    heap: &Heap<S>,
    object: u64,
) -> Result<Option<Vec<u16>>, AllocError>
    ensures { IfOk result (λ made. option_map (λ units. units.items) made ≡ class_units program.now heap.now object) }
{
    match heap.class_at(Slot::Ref(object)) {
        Some(class) => {
            let name = class_text(alloc, program, class)?;
            let units = units_of(alloc, name.bytes())?;
            Ok(Some(dotted(alloc, &units)?))
        }
        None => Ok(None),
    }
}

/// A new string of the name of a class, where there is one.
fn class_named<S: Space>(heap: &Heap<S>, units: Option<Vec<u16>>) -> Effect
    ensures { deed_of result ≡ class_named heap.now.texts (option_map (λ v. v.items) units) }
{
    match units {
        Some(units) => give_units(heap, units),
        None => refuse(),
    }
}

/// What is made of a call with the cell of its object behind its values.
pub(crate) fn made_number<S: Space>(
    alloc: Global,
    program: &Program,
    heap: &Heap<S>,
    maker: Maker,
    call: Call,
) -> Result<Effect, AllocError>
    ensures { IfOk result (λ effect. deed_of effect ≡ made_number program.now heap.now maker call) }
{
    match (maker, call) {
        (_, Call::Illegal) => Ok(refuse()),
        (Maker::LineSeparator, _) => {
            let end = Vec::from_slice(alloc, &[10])?;
            Ok(give_units(heap, end))
        }
        (Maker::IntegerOf, Call::One(Slot::Int(n))) => Ok(integer_of(heap, n)),
        (Maker::SpellInt, Call::One(Slot::Int(n))) => {
            let units = decimal(alloc, n)?;
            Ok(give_units(heap, units))
        }
        (Maker::SpellInteger, Call::Two(Slot::Ref(_), cell)) => {
            let units = decimal(alloc, number_in(cell))?;
            Ok(give_units(heap, units))
        }
        (Maker::SpellBoolean, Call::Two(Slot::Ref(_), cell)) => {
            let units = bool_units(alloc, number_in(cell))?;
            Ok(give_units(heap, units))
        }
        (Maker::ClassName, Call::One(Slot::Ref(object))) => {
            let units = class_units(alloc, program, heap, object)?;
            Ok(class_named(heap, units))
        }
        _ => Ok(refuse()),
    }
}

/// What an enum or a throwable begins with.
pub(crate) fn begun(initialiser: Initialiser, call: Call) -> Effect
    ensures { deed_of result ≡ begun initialiser call }
{
    match (initialiser, call) {
        (Initialiser::Enum, Call::Three(Slot::Ref(object), Slot::Ref(name), Slot::Int(n))) => {
            Effect::SetCells(object, Slot::Ref(name), Slot::Int(n))
        }
        (Initialiser::Enum, Call::Three(Slot::Ref(_), Slot::Null, Slot::Int(_))) => {
            Effect::Raise(Exception::Null)
        }
        (Initialiser::Throwable, Call::One(Slot::Ref(object))) => {
            Effect::SetCells(object, Slot::Null, Slot::Null)
        }
        (Initialiser::Throwable, Call::Two(Slot::Ref(object), message)) => {
            Effect::SetCells(object, message, Slot::Null)
        }
        (Initialiser::Throwable, Call::Three(Slot::Ref(object), message, cause)) => {
            Effect::SetCells(object, message, cause)
        }
        _ => refuse(),
    }
}

/// Whether two slots are such arrays.
fn like_slots<S: Space>(program: &Program, heap: &Heap<S>, from: Slot, to: Slot) -> bool
    ensures { result ≡ like_slots program.now heap.now from to }
{
    match heap.class_at(from) {
        Some(first) => match heap.class_at(to) {
            Some(second) => are_like(program, first, second),
            None => false,
        },
        None => false,
    }
}

/// Whether so many elements from a place on are within a length.
fn within_array(place: i32, count: i32, length: u32) -> bool
    ensures { result ≡ within_array place count length }
{
    if place < 0 || count < 0 {
        return false;
    }
    place as u64 + count as u64 <= u64::from(length)
}

/// A number, and 0 where it is negative.
fn natural(n: i32) -> u32
    ensures { result ≡ natural n }
{
    if n < 0 { 0 } else { n as u32 }
}

/// Elements of an array that are copied to another one.
fn copied_between<S: Space>(
    program: &Program,
    heap: &Heap<S>,
    array: u64,
    from: i32,
    other: u64,
    to: i32,
    count: i32,
) -> Effect
    ensures { deed_of result ≡ copied_between program.now heap.now array from other to count }
{
    if !like_slots(program, heap, Slot::Ref(array), Slot::Ref(other)) {
        return Effect::Raise(Exception::Store);
    }
    if within_array(from, count, heap.length_of(array))
        && within_array(to, count, heap.length_of(other))
    {
        Effect::Copy(array, natural(from), other, natural(to), natural(count))
    } else {
        Effect::Raise(Exception::Outside)
    }
}

/// What `System.arraycopy` does.
pub(crate) fn copied<S: Space>(program: &Program, heap: &Heap<S>, call: Call) -> Effect
    ensures { deed_of result ≡ copied program.now heap.now call }
{
    match call {
        Call::Five(
            Slot::Ref(array),
            Slot::Int(from),
            Slot::Ref(other),
            Slot::Int(to),
            Slot::Int(count),
        ) => copied_between(program, heap, array, from, other, to, count),
        Call::Five(_, Slot::Int(_), _, Slot::Int(_), Slot::Int(_)) => {
            Effect::Raise(Exception::Null)
        }
        _ => refuse(),
    }
}
