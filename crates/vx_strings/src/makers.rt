//! New strings and arrays of chars that native methods give, at one configuration.

ghost use Rattle.std.specs.Prelude.{◌≡◌, IfOk, length, option_map, pos};
ghost use Rattle.vx_natives.specs.Deeds.{deed_of};
ghost use Rattle.vx_strings.specs.Changes.{made, part_of, text_made};
ghost use Rattle.vx_strings.specs.Lengths.{gives_short};
ghost use Rattle.vx_strings.specs.Spelled.{spelled_of};

use crate::changes::MOST_UNITS;
use crate::questions::refuse;
use crate::spelling::{SpelledText, spelled};
use std::alloc::{AllocError, Global};
use vx_heap::Heap;
use vx_natives::{Call, Effect, Exception, Maker, units_in};
use vx_space::Space;
use vx_value::Slot;

/// A new string of a text, which may be too long.
pub fn give_short<S: Space>(heap: &Heap<S>, text: SpelledText) -> Effect
    ensures { deed_of result ≡ gives_short heap.now.texts (spelled_of text) }
{
    if units_in(heap, text.start).len() + text.units.len() > MOST_UNITS {
        return Effect::Raise(Exception::Memory);
    }
    Effect::GiveText(text.start, text.units)
}

/// The units from a place up to another.
fn part_of<S: Space>(
    alloc: Global,
    heap: &Heap<S>,
    units: &[u16],
    begin: i32,
    end: i32,
) -> Result<Effect, AllocError>
    ensures { IfOk result (λ effect. deed_of effect ≡ part_of heap.now.texts units.now begin end) }
{
    if begin < 0 || end < begin || end as usize > units.len() {
        return Ok(Effect::Raise(Exception::BadIndex));
    }
    let part = Vec::from_slice(alloc, &units[begin as usize..end as usize])?;
    Ok(give_short(
        heap,
        SpelledText {
            start: Slot::Top,
            units: part,
        },
    ))
}

/// The units from a place on.
fn rest_of<S: Space>(
    alloc: Global,
    heap: &Heap<S>,
    units: &[u16],
    begin: i32,
) -> Result<Effect, AllocError>
    ensures { IfOk result (λ effect. deed_of effect ≡ part_of heap.now.texts units.now begin (pos (length units.now))) }
{
    if begin < 0 || begin as usize > units.len() {
        return Ok(Effect::Raise(Exception::BadIndex));
    }
    let part = Vec::from_slice(alloc, &units[begin as usize..units.len()])?;
    Ok(give_short(
        heap,
        SpelledText {
            start: Slot::Top,
            units: part,
        },
    ))
}

/// A new string of what is spelled.
fn text_made<S: Space>(heap: &Heap<S>, text: Option<SpelledText>) -> Effect
    ensures { deed_of result ≡ text_made heap.now.texts (option_map spelled_of text) }
{
    match text {
        Some(text) => give_short(heap, text),
        None => Effect::Raise(Exception::Null),
    }
}

/// What is made of a call with its texts behind its values.
pub fn made<S: Space>(
    alloc: Global,
    heap: &Heap<S>,
    maker: Maker,
    call: Call,
) -> Result<Effect, AllocError>
    ensures { IfOk result (λ effect. deed_of effect ≡ made heap.now.texts maker call) }
{
    match (maker, call) {
        (Maker::Concat, Call::Four(Slot::Ref(_), Slot::Ref(_), first, second)) => {
            let units = Vec::from_slice(alloc, units_in(heap, second))?;
            Ok(give_short(
                heap,
                SpelledText {
                    start: first,
                    units,
                },
            ))
        }
        (Maker::Concat, Call::Four(Slot::Ref(_), Slot::Null, _, _)) => {
            Ok(Effect::Raise(Exception::Null))
        }
        (Maker::Substring, Call::Three(Slot::Ref(_), Slot::Int(begin), text)) => {
            rest_of(alloc, heap, units_in(heap, text), begin)
        }
        (Maker::Substring, Call::Four(Slot::Ref(_), Slot::Int(begin), Slot::Int(end), text)) => {
            part_of(alloc, heap, units_in(heap, text), begin, end)
        }
        (Maker::ToChars, Call::Two(Slot::Ref(_), text)) => {
            let units = Vec::from_slice(alloc, units_in(heap, text))?;
            Ok(Effect::GiveChars(units))
        }
        (Maker::ToText, Call::Two(Slot::Ref(_), text)) => {
            let units = Vec::new(alloc);
            Ok(give_short(heap, SpelledText { start: text, units }))
        }
        (Maker::TextOf(spelling), Call::One(value)) => {
            let text = spelled(alloc, spelling, value, Slot::Top)?;
            Ok(text_made(heap, text))
        }
        (Maker::TextOf(spelling), Call::Two(value, read)) => {
            let text = spelled(alloc, spelling, value, read)?;
            Ok(text_made(heap, text))
        }
        _ => Ok(refuse()),
    }
}
