//! Units of UTF-16 as bytes of UTF-8.

ghost use Rattle.std.specs.Prelude.{◌≡◌, ◌<◌, ◌≤◌, ◌∷◌, IfOk, drop, length};
ghost use Rattle.std.specs.Char.Utf16.{utf16_chars};
ghost use Rattle.vx_java.specs.Step.{utf8_of};

use std::alloc::{AllocError, Global};

/// The character whose units begin at a place, or none for an unpaired surrogate, and the place behind them.
fn char_at(units: &[u16], at: usize) -> (Option<char>, usize)
    requires { at < length units.now }
    ensures within { (at < result.1) × (result.1 ≤ length units.now) }
    ensures first { utf16_chars (drop at units.now) ≡ result.0 ∷ utf16_chars (drop result.1 units.now) }
{
    let unit = units[at] as u32;
    if unit < 0xD800 || 0xE000 <= unit {
        return (char::from_u32(unit), at + 1);
    }
    if 0xDC00 <= unit || units.len() - at < 2 {
        return (None, at + 1);
    }
    let low = units[at + 1] as u32;
    if low < 0xDC00 || 0xE000 <= low {
        return (None, at + 1);
    }
    let paired = 0x1_0000 + (unit - 0xD800) * 0x400 + (low - 0xDC00);
    (char::from_u32(paired), at + 2)
}

/// The bytes of a text: UTF-8, where an unpaired surrogate is `?`.
pub fn utf8(alloc: Global, units: &[u16]) -> Result<Vec<u8>, AllocError>
    ensures { IfOk result (λ bytes. bytes.items ≡ utf8_of units.now) }
{
    let mut text = String::new(alloc);
    let mut at = 0;
    while at < units.len() {
        let (found, next) = char_at(units, at);
        text.push(found.unwrap_or('?'))?;
        at = next;
    }
    Ok(text.into_bytes())
}
