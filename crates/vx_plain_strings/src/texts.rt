//! Texts, arrays of chars and numbers that native methods read off the state.

ghost use Rattle.std.specs.Prelude.{◌≡◌, IfOk, IfSome, map};
ghost use Rattle.vx_java.specs.Texts.{chars_of, text_of_object, unit_of};
ghost use Rattle.vx_plain.specs.Views.{state_of, value_of};
ghost use Rattle.vx_plain_here.specs.Rows.{here_in};
ghost use Rattle.vx_plain_strings.specs.Texts.{char_value};
ghost use Rattle.vx_units.specs.Places.{in_texts};

use crate::call::Call;
use std::alloc::{AllocError, Global};
use vx_plain::{State, Value, held};
use vx_plain_here::int_of;

/// A difference as an int, if it fits.
fn int_if(n: i64) -> Option<i32>
    ensures { IfSome result (λ made. made ≡ n) }
{
    if n < -2_147_483_648 || n > 2_147_483_647 {
        return None;
    }
    Some(n as i32)
}

/// A difference as an int. One that is none is not held.
pub(crate) fn as_int(n: i64) -> Result<i32, AllocError>
    ensures { IfOk result (λ made. made ≡ n) }
{
    held(int_if(n))
}

/// A place as methods answer it: -1 where there is none.
pub(crate) fn place_as_int(place: Option<usize>) -> Result<i32, AllocError>
    ensures { IfOk result (λ n. n ≡ in_texts place) }
{
    match place {
        Some(place) => int_of(place),
        None => Ok(-1),
    }
}

/// A second vector of a text.
pub(crate) fn text_of(call: &Call<'_>, state: &State, object: u64) -> Result<Vec<u16>, AllocError>
    ensures { IfOk result (λ units. units.items ≡ text_of_object (here_in call.now.here.now (state_of state.now)) object) }
{
    Vec::from_slice(call.here.alloc, state.text(object))
}

/// The unit in a cell of an array of chars.
fn unit_of(cell: Value) -> u16
    ensures { result ≡ unit_of (value_of cell) }
{
    match cell {
        Value::Int(n) => (n.cast_unsigned() % 65_536) as u16,
        _ => 0,
    }
}

/// The units in the cells of an array of chars.
fn units_in(alloc: Global, cells: &[Value]) -> Result<Vec<u16>, AllocError>
    ensures { IfOk result (λ units. units.items ≡ map (λ cell. unit_of (value_of cell)) cells.now) }
{
    let mut units = Vec::new(alloc);
    for cell in cells {
        units.push(unit_of(*cell))?;
    }
    Ok(units)
}

/// The units in an array of chars.
#[tactic(auto, using(crate::proofs::Readings::units_there))]
pub(crate) fn chars_of(call: &Call<'_>, state: &State, array: u64) -> Result<Vec<u16>, AllocError>
    ensures { IfOk result (λ units. units.items ≡ chars_of (here_in call.now.here.now (state_of state.now)) array) }
{
    units_in(call.here.alloc, state.cells(array)?)
}

/// The elements of an array of the units of a text.
pub(crate) fn elements_of(alloc: Global, units: &[u16]) -> Result<Vec<Value>, AllocError>
    ensures { IfOk result (λ cells. cells.items ≡ map char_value units.now) }
{
    let mut cells = Vec::new(alloc);
    for unit in units {
        cells.push(Value::Int(i32::from(*unit)))?;
    }
    Ok(cells)
}
