//! Where a text stands in another one.

ghost use Rattle.std.specs.Prelude.{◌≡◌, ◌≤◌, ◌&&◌, [], drop, length, nat_eq, nat_le, pos};
ghost use Rattle.std.specs.List.{ends_with, starts_with};
ghost use Rattle.vx_java.specs.Texts.{place_of, place_of_point, units_of_point};
ghost use Rattle.vx_units.specs.Places.{in_texts};

/// The greatest code point.
const LAST_POINT: u32 = 0x10_FFFF;

/// Whether a text stands at a place of another one.
fn stands_at(text: &[u16], units: &[u16], place: usize) -> bool
    requires { place ≤ length units.now }
    ensures { result ≡ starts_with nat_eq (drop place units.now) text.now }
{
    let (_, rest) = units.split_at(place);
    rest.starts_with(text)
}

/// The place behind another text, where an empty one begins too.
fn place_behind(text: &[u16], units: &[u16]) -> Option<usize>
    ensures { in_texts result ≡ place_of (length units.now) text.now [] }
{
    if text.is_empty() {
        Some(units.len())
    } else {
        None
    }
}

/// The first place at which a text begins in another one.
#[tactic(auto, using(crate::proofs::Walks::found_here, crate::proofs::Walks::not_here, crate::proofs::Walks::found_behind))]
pub fn place_of(text: &[u16], units: &[u16]) -> Option<usize>
    ensures { in_texts result ≡ place_of 0 text.now units.now }
{
    for place in 0..units.len() {
        if stands_at(text, units, place) {
            return Some(place);
        }
    }
    place_behind(text, units)
}

/// The first place of a code point that is not negative.
#[tactic(auto, using(crate::proofs::Walks::one_unit, crate::proofs::Walks::two_units, crate::proofs::Walks::no_units))]
fn place_of_natural(units: &[u16], point: u32) -> Option<usize>
    ensures { in_texts result ≡ place_of_point units.now (units_of_point (pos point)) }
{
    if point < 0x1_0000 {
        return place_of(&[point as u16], units);
    }
    if point > LAST_POINT {
        return None;
    }
    let above = point - 0x1_0000;
    let (high, low) = (0xD800 + above / 0x400, 0xDC00 + above % 0x400);
    place_of(&[high as u16, low as u16], units)
}

/// The first place of a code point, one above 65,535 by its surrogate pair. What is no code point is nowhere.
#[tactic(auto, using(crate::proofs::Walks::negative_point))]
pub fn place_of_point(units: &[u16], point: i32) -> Option<usize>
    ensures { in_texts result ≡ place_of_point units.now (units_of_point point) }
{
    if point < 0 {
        return None;
    }
    place_of_natural(units, point as u32)
}

/// Whether a text ends with another one.
pub fn ends_with(units: &[u16], text: &[u16]) -> bool
    ensures { result ≡ (nat_le (length text.now) (length units.now) && ends_with nat_eq units.now text.now) }
{
    text.len() <= units.len() && units.ends_with(text)
}
