//! New texts from others.

ghost use Rattle.std.specs.Prelude.{◌≡◌, ◌<◌, ◌≤◌, ◌++◌, ◌-◌, [], IfOk, drop, length, replicate, reverse, suc, take};
ghost use Rattle.vx_java.specs.Library.{dotted};
ghost use Rattle.vx_java.specs.Texts.{bool_text, reversed_onto};
ghost use Rattle.vx_units.specs.Pairs.{begins_with_pair};

use std::alloc::{AllocError, Global};

/// The units of two texts, one behind the other.
pub fn joined(alloc: Global, first: &[u16], second: &[u16]) -> Result<Vec<u16>, AllocError>
    ensures { IfOk result (λ made. made.items ≡ first.now ++ second.now) }
{
    let mut made = Vec::from_slice(alloc, first)?;
    made.extend_from_slice(second)?;
    Ok(made)
}

/// The text of bytes of ASCII.
pub fn of_bytes(alloc: Global, bytes: &[u8]) -> Result<Vec<u16>, AllocError>
    ensures { IfOk result (λ made. made.items ≡ bytes.now) }
{
    let mut made = Vec::new(alloc);
    for byte in bytes {
        made.push(u16::from(*byte))?;
    }
    Ok(made)
}

/// `false` for 0, and else `true`.
#[tactic(auto, using(crate::proofs::Walks::truth))]
pub fn bool_units(alloc: Global, n: i32) -> Result<Vec<u16>, AllocError>
    ensures { IfOk result (λ made. made.items ≡ bool_text n) }
{
    if n == 0 {
        of_bytes(alloc, b"false")
    } else {
        of_bytes(alloc, b"true")
    }
}

/// A text cut to a length, or filled up to it with units 0.
pub fn of_length(alloc: Global, units: &[u16], len: usize) -> Result<Vec<u16>, AllocError>
    ensures { IfOk result (λ made. made.items ≡ take len units.now ++ replicate (len - length units.now) 0) }
{
    let mut made = Vec::from_slice(alloc, units)?;
    made.resize(len, 0)?;
    Ok(made)
}

/// A text without the unit of a place.
pub fn without_unit(alloc: Global, units: &[u16], place: usize) -> Result<Vec<u16>, AllocError>
    requires { place < length units.now }
    ensures { IfOk result (λ made. made.items ≡ take place units.now ++ drop (suc place) units.now) }
{
    joined(alloc, &units[..place], &units[place + 1..])
}

/// Whether a text begins with a surrogate pair.
#[tactic(auto, using(crate::proofs::Walks::no_pair))]
fn begins_with_pair(units: &[u16]) -> bool
    ensures { result ≡ begins_with_pair units.now }
{
    match units {
        [high, low, ..] => (0xD800..0xDC00).contains(high) && (0xDC00..0xE000).contains(low),
        _ => false,
    }
}

/// Puts the unit of a place behind others, or the two of a surrogate pair in their other order, and gives the place behind them.
#[tactic(auto, using(crate::proofs::Walks::pair_put, crate::proofs::Walks::unit_put, crate::proofs::Walks::pair_is_long))]
fn put_reversed(units: &[u16], place: usize, made: &mut Vec<u16>) -> Result<usize, AllocError>
    requires { place < length units.now }
    ensures step { IfOk result (λ next. reversed_onto (reverse made.new.items) (drop next units.now) ≡ reversed_onto (reverse made.old.items) (drop place units.now)) }
    ensures on { IfOk result (λ next. place < next) }
    ensures within { IfOk result (λ next. next ≤ length units.now) }
{
    let (_, left) = units.split_at(place);
    if begins_with_pair(left) {
        made.push(left[1])?;
        made.push(left[0])?;
        return Ok(place + 2);
    }
    made.push(left[0])?;
    Ok(place + 1)
}

/// The units of a text backwards, but the two of a surrogate pair in their order.
#[tactic(auto, using(crate::proofs::Walks::all_put))]
pub fn reversed(alloc: Global, units: &[u16]) -> Result<Vec<u16>, AllocError>
    ensures { IfOk result (λ made. made.items ≡ reversed_onto [] units.now) }
{
    let mut made = Vec::new(alloc);
    let mut place = 0;
    while place < units.len() {
        place = put_reversed(units, place, &mut made)?;
    }
    made.reverse();
    Ok(made)
}

/// A text with a dot for each slash.
pub fn dotted(alloc: Global, units: &[u16]) -> Result<Vec<u16>, AllocError>
    ensures { IfOk result (λ made. made.items ≡ dotted units.now) }
{
    units
        .iter()
        .map(|unit| if *unit == 47 { 46 } else { *unit })
        .collect(alloc)
}
