//! Texts of the constant pool as UTF-16 (JVMS 4.4.7).

ghost use Rattle.std.specs.Prelude.{◌≡◌, ◌<◌, [], ◌∷◌, length, IfOk, MatchOption};
ghost use Rattle.vx_java.specs.FirstObjects.{unit_of_three, unit_of_two, units_of};

use std::alloc::{AllocError, Global};

fn unit_of_two(a: u8, b: u8) -> u16
    ensures { result ≡ unit_of_two a b }
{
    u16::from(a % 0x20) * 0x40 + u16::from(b % 0x40)
}

fn unit_of_three(a: u8, b: u8, c: u8) -> u16
    ensures { result ≡ unit_of_three a b c }
{
    u16::from(a % 0x10) * 0x1000 + u16::from(b % 0x40) * 0x40 + u16::from(c % 0x40)
}

/// The first unit of a text, and the bytes behind it.
fn first_unit(text: &[u8]) -> Option<(u16, &[u8])>
    ensures units { MatchOption result (units_of text.now ≡ []) (λ first. units_of text.now ≡ first.0 ∷ units_of first.1.now) }
    ensures less { MatchOption result (Unit {0}) (λ first. length first.1.now < length text.now) }
{
    match text {
        [] => None,
        [a, rest @ ..] if *a < 0x80 => Some((u16::from(*a), rest)),
        [a] => Some((u16::from(*a), &[])),
        [a, b, rest @ ..] if *a < 0xe0 => Some((unit_of_two(*a, *b), rest)),
        [a, b] => Some((unit_of_two(*a, *b), &[])),
        [a, b, c, rest @ ..] => Some((unit_of_three(*a, *b, *c), rest)),
    }
}

/// The UTF-16 units of a text in modified UTF-8, whose form a reader has checked.
pub fn units_of(alloc: Global, text: &[u8]) -> Result<Vec<u16>, AllocError>
    ensures { IfOk result (λ units. units.items ≡ units_of text.now) }
{
    let mut units = Vec::new(alloc);
    let mut rest = text;
    while let Some((unit, behind)) = first_unit(rest) {
        units.push(unit)?;
        rest = behind;
    }
    Ok(units)
}
