//! Where an instruction reads or writes a cell at one configuration.

ghost use Rattle.std.specs.Prelude.{◌≡◌};
ghost use Rattle.vx_cells.specs.Places.{place_if};

use vx_value::Exact;

/// Where an instruction reads or writes a cell at one configuration.
#[derive(Clone, Copy, Debug, PartialEq, Eq, PartialOrd, Ord)]
pub enum Place {
    /// A rule of the instruction is broken.
    Illegal,
    /// There is no object.
    Null,
    /// The array has no element of this index.
    Outside(i32),
    /// The array may not have the value as an element.
    Refused,
    /// The cell of this index, of the object of this number.
    At(u64, u32),
}

impl Exact for Place {
    ghost use Rattle.vx_cells.specs.Places.{place_exact};

    ghost exact = { place_exact };
}

/// A place where a rule holds, as that a value has room beside the other operands.
pub fn place_if(place: Place, holds: bool) -> Place
    ensures { result ≡ place_if place holds }
{
    if holds { place } else { Place::Illegal }
}
