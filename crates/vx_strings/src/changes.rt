//! What native methods do with the texts of strings and builders, at one configuration.

ghost use Rattle.std.specs.Prelude.{◌≡◌, IfOk, option_map};
ghost use Rattle.vx_natives.specs.Deeds.{deed_of};
ghost use Rattle.vx_strings.specs.Changes.{appended, changed, initialised, tail_of, with_length, with_tail, without};
ghost use Rattle.vx_strings.specs.Spelled.{spelled_of};

use crate::questions::refuse;
use crate::spelling::{SpelledText, spelled};
use std::alloc::{AllocError, Global};
use vx_heap::Heap;
use vx_natives::{BuilderChange, Call, Effect, Exception, Initialiser, units_in};
use vx_space::Space;
use vx_units::{joined, of_length, reversed, without_unit};
use vx_value::Slot;

/// The greatest length of a text.
pub(crate) const MOST_UNITS: usize = 1_048_576;

/// What a string or a builder begins with.
pub fn initialised(alloc: Global, initialiser: Initialiser, call: Call) -> Effect
    ensures { deed_of result ≡ initialised initialiser call }
{
    let none = Vec::new(alloc);
    match (initialiser, call) {
        (Initialiser::Empty, Call::One(Slot::Ref(object))) => {
            Effect::SetText(object, Slot::Top, none)
        }
        (Initialiser::OfText, Call::Three(Slot::Ref(object), Slot::Ref(_), text)) => {
            Effect::SetText(object, text, none)
        }
        (Initialiser::OfChars, Call::Three(Slot::Ref(object), Slot::Ref(_), text)) => {
            Effect::SetText(object, text, none)
        }
        (Initialiser::OfText, Call::Three(Slot::Ref(_), Slot::Null, _)) => {
            Effect::Raise(Exception::Null)
        }
        (Initialiser::OfChars, Call::Three(Slot::Ref(_), Slot::Null, _)) => {
            Effect::Raise(Exception::Null)
        }
        (Initialiser::OfCapacity, Call::Two(Slot::Ref(object), Slot::Int(n))) => {
            if n < 0 {
                Effect::Raise(Exception::NegativeSize)
            } else {
                Effect::SetText(object, Slot::Top, none)
            }
        }
        _ => refuse(),
    }
}

/// The units of a text that is spelled.
fn tail_of<S: Space>(
    alloc: Global,
    heap: &Heap<S>,
    text: SpelledText,
) -> Result<Vec<u16>, AllocError>
    ensures { IfOk result (λ tail. tail.items ≡ tail_of heap.now.texts (spelled_of text)) }
{
    joined(alloc, units_in(heap, text.start), &text.units)
}

/// Units behind the text of a builder.
fn with_tail<S: Space>(heap: &Heap<S>, object: u64, text: Slot, tail: Vec<u16>) -> Effect
    ensures { deed_of result ≡ with_tail heap.now.texts object text tail.items }
{
    if units_in(heap, text).len() + tail.len() > MOST_UNITS {
        return Effect::Raise(Exception::Memory);
    }
    Effect::ChangeText(object, text, tail)
}

/// What is spelled behind the text of a builder.
fn appended<S: Space>(
    alloc: Global,
    heap: &Heap<S>,
    object: u64,
    text: Slot,
    more: Option<SpelledText>,
) -> Result<Effect, AllocError>
    ensures { IfOk result (λ effect. deed_of effect ≡ appended heap.now.texts object text (option_map spelled_of more)) }
{
    match more {
        Some(more) => {
            let tail = tail_of(alloc, heap, more)?;
            Ok(with_tail(heap, object, text, tail))
        }
        None => Ok(Effect::Raise(Exception::Null)),
    }
}

/// A builder's text cut to a length, or filled up to it with units 0.
fn with_length(alloc: Global, object: u64, units: &[u16], n: i32) -> Result<Effect, AllocError>
    ensures { IfOk result (λ effect. deed_of effect ≡ with_length object units.now n) }
{
    if n < 0 {
        return Ok(Effect::Raise(Exception::BadIndex));
    }
    let len = n as usize;
    if len > MOST_UNITS {
        return Ok(Effect::Raise(Exception::Memory));
    }
    let made = of_length(alloc, units, len)?;
    Ok(Effect::SetText(object, Slot::Top, made))
}

/// A builder's text without the unit of a place.
fn without(alloc: Global, object: u64, units: &[u16], place: i32) -> Result<Effect, AllocError>
    ensures { IfOk result (λ effect. deed_of effect ≡ without object units.now place) }
{
    if place < 0 || place as usize >= units.len() {
        return Ok(Effect::Raise(Exception::BadIndex));
    }
    let made = without_unit(alloc, units, place as usize)?;
    Ok(Effect::ChangeText(object, Slot::Top, made))
}

/// What becomes of a builder.
pub fn changed<S: Space>(
    alloc: Global,
    heap: &Heap<S>,
    change: BuilderChange,
    call: Call,
) -> Result<Effect, AllocError>
    ensures { IfOk result (λ effect. deed_of effect ≡ changed heap.now.texts change call) }
{
    match (change, call) {
        (BuilderChange::Append(spelling), Call::Three(Slot::Ref(object), value, text)) => {
            let more = spelled(alloc, spelling, value, Slot::Top)?;
            appended(alloc, heap, object, text, more)
        }
        (BuilderChange::Append(spelling), Call::Four(Slot::Ref(object), value, text, read)) => {
            let more = spelled(alloc, spelling, value, read)?;
            appended(alloc, heap, object, text, more)
        }
        (BuilderChange::SetLength, Call::Three(Slot::Ref(object), Slot::Int(n), text)) => {
            with_length(alloc, object, units_in(heap, text), n)
        }
        (BuilderChange::Delete, Call::Three(Slot::Ref(object), Slot::Int(place), text)) => {
            without(alloc, object, units_in(heap, text), place)
        }
        (BuilderChange::Reverse, Call::Two(Slot::Ref(object), text)) => {
            let made = reversed(alloc, units_in(heap, text))?;
            Ok(Effect::ChangeText(object, Slot::Top, made))
        }
        _ => Ok(refuse()),
    }
}
