//! Values as they are spelled that are printed, appended or made a text.

ghost use Rattle.std.specs.Prelude.{◌≡◌, IfOk, option_map};
ghost use Rattle.vx_strings.specs.Spelled.{char_units, of_slot, of_units, spelled, spelled_of};

use std::alloc::{AllocError, Global};
use vx_natives::Spelling;
use vx_units::{bool_units, decimal, of_bytes};
use vx_value::Slot;

/// A text: that of a slot, which is none where the slot is no text, with units behind it.
#[derive(Drop)]
pub struct SpelledText {
    pub start: Slot,
    pub units: Vec<u16>,
}

fn of_units(units: Vec<u16>) -> SpelledText
    ensures { spelled_of result ≡ of_units units.items }
{
    SpelledText {
        start: Slot::Top,
        units,
    }
}

fn of_slot(alloc: Global, start: Slot) -> SpelledText
    ensures { spelled_of result ≡ of_slot start }
{
    SpelledText {
        start,
        units: Vec::new(alloc),
    }
}

/// The unit of a char.
fn char_units(alloc: Global, n: i32) -> Result<Vec<u16>, AllocError>
    ensures { IfOk result (λ made. made.items ≡ char_units n) }
{
    let unit = (n.cast_unsigned() % 65_536) as u16;
    Vec::from_slice(alloc, &[unit])
}

/// What an int is spelled.
fn spelled_int(alloc: Global, spelling: Spelling, n: i32) -> Result<Option<SpelledText>, AllocError>
    ensures { IfOk result (λ made. option_map spelled_of made ≡ spelled spelling (Slot.Int n) Slot.Top) }
{
    match spelling {
        Spelling::Int => Ok(Some(of_units(decimal(alloc, n)?))),
        Spelling::Bool => Ok(Some(of_units(bool_units(alloc, n)?))),
        Spelling::Char => Ok(Some(of_units(char_units(alloc, n)?))),
        _ => Ok(None),
    }
}

/// What a value is spelled, with what was read of it: the text of a string or of an array of chars. `None` for what is of another sort.
pub fn spelled(
    alloc: Global,
    spelling: Spelling,
    value: Slot,
    read: Slot,
) -> Result<Option<SpelledText>, AllocError>
    ensures { IfOk result (λ made. option_map spelled_of made ≡ spelled spelling value read) }
{
    match (spelling, value) {
        (_, Slot::Int(n)) => spelled_int(alloc, spelling, n),
        (Spelling::Long, Slot::Long(n)) => Ok(Some(of_units(decimal(alloc, n)?))),
        (Spelling::Text, Slot::Ref(_)) => Ok(Some(of_slot(alloc, read))),
        (Spelling::Text, Slot::Null) => Ok(Some(of_units(of_bytes(alloc, b"null")?))),
        (Spelling::Chars, Slot::Ref(_)) => Ok(Some(of_slot(alloc, read))),
        _ => Ok(None),
    }
}
