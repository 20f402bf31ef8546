//! The texts of values.

ghost use Rattle.std.specs.Prelude.{◌≡◌, ◌∷◌, [], IfOk, IfSome, option_map};
ghost use Rattle.vx_java.specs.Texts.{char_text};
ghost use Rattle.vx_plain.specs.Views.{state_of, value_of};
ghost use Rattle.vx_plain_here.specs.Rows.{here_in};
ghost use Rattle.vx_plain_strings.specs.Texts.{spell};

use crate::call::Call;
use crate::texts::{chars_of, text_of};
use std::alloc::{AllocError, Global};
use vx_plain::{State, Value, held};
use vx_units::{bool_units, decimal, of_bytes};

/// How the argument of a native method is spelled.
#[derive(Clone, Copy)]
pub enum Spelling {
    Int,
    Long,
    Bool,
    Char,
    Text,
    Chars,
}

/// The unit of a char, which is 0 for a negative number, if it fits.
fn unit_if(n: i32) -> Option<u16>
    ensures { IfSome result (λ unit. unit ∷ [] ≡ char_text n) }
{
    if n > 65_535 {
        return None;
    }
    Some(n.max(0) as u16)
}

/// The unit of a char. A number above 65,535 is not held.
fn char_unit(n: i32) -> Result<u16, AllocError>
    ensures { IfOk result (λ unit. unit ∷ [] ≡ char_text n) }
{
    held(unit_if(n))
}

fn char_units(alloc: Global, n: i32) -> Result<Vec<u16>, AllocError>
    ensures { IfOk result (λ made. made.items ≡ char_text n) }
{
    let unit = char_unit(n)?;
    Vec::from_slice(alloc, &[unit])
}

/// The text of a value, or `None` where it has none.
pub fn spelled(
    call: &Call<'_>,
    state: &State,
    spelling: Spelling,
    value: Value,
) -> Result<Option<Vec<u16>>, AllocError>
    ensures { IfOk result (λ made. option_map (λ units. units.items) made ≡ spell spelling (here_in call.now.here.now (state_of state.now)) (value_of value)) }
{
    match (spelling, value) {
        (Spelling::Int, Value::Int(n)) => Ok(Some(decimal(call.here.alloc, n)?)),
        (Spelling::Long, Value::Long(n)) => Ok(Some(decimal(call.here.alloc, n)?)),
        (Spelling::Bool, Value::Int(n)) => Ok(Some(bool_units(call.here.alloc, n)?)),
        (Spelling::Char, Value::Int(n)) => Ok(Some(char_units(call.here.alloc, n)?)),
        (Spelling::Text, Value::Ref(object)) => Ok(Some(text_of(call, state, object)?)),
        (Spelling::Text, Value::Null) => Ok(Some(of_bytes(call.here.alloc, b"null")?)),
        (Spelling::Chars, Value::Ref(array)) => Ok(Some(chars_of(call, state, array)?)),
        _ => Ok(None),
    }
}
