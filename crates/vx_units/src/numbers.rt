//! Numbers as texts, and texts as numbers.

ghost use Rattle.std.specs.Prelude.{◌≡◌, ◌≤◌, ◌+◌, ◌-◌, ◌*◌, ◌&&◌, IfOk, min, nat_le, neg_ℤ, option_and_then, option_map, pos};
ghost use Rattle.vx_java.specs.Library.{some_digits};
ghost use Rattle.vx_units.specs.Numbers.{if_int, int_in};

use crate::making::of_bytes;
use itoa::{Buffer, Integer};
use std::alloc::{AllocError, Global};

/// The decimal digits of a number, behind a `-` where it is below 0.
pub fn decimal<I: Integer>(alloc: Global, n: I) -> Result<Vec<u16>, AllocError>
    ensures { IfOk result (λ made. made.items ≡ I.text n) }
{
    of_bytes(alloc, Buffer::new().format(n).as_bytes())
}

/// A number above the distance of each int from 0.
const CAP: u64 = 4_294_967_296;

/// A number with one digit more, or the cap where it is greater.
fn capped(number: u64, digit: u16) -> u64
    requires { number ≤ 4294967296 }
    ensures { result ≡ min 4294967296 (10 * number + (digit - 48)) }
{
    (10 * number + u64::from(digit.saturating_sub(48))).min(CAP)
}

fn is_digit(unit: u16) -> bool
    ensures { result ≡ (nat_le 48 unit && nat_le unit 57) }
{
    48 <= unit && unit <= 57
}

/// The number of ASCII digits, of which there has to be one, or the cap where it is greater. `None` for another unit.
#[tactic(auto, using(crate::proofs::Walks::some_units, crate::proofs::Walks::next_digit, crate::proofs::Walks::no_digit, crate::proofs::Walks::last_digit))]
fn capped_number(units: &[u16]) -> Option<u64>
    ensures { result ≡ option_map (min 4294967296) (some_digits units.now) }
{
    if units.is_empty() {
        return None;
    }
    let mut number = 0u64;
    for unit in units {
        if !is_digit(*unit) {
            return None;
        }
        number = capped(number, *unit);
    }
    Some(number)
}

#[tactic(auto, using(crate::proofs::Walks::int_fits, crate::proofs::Walks::int_too_large))]
fn int_of(number: Option<u64>) -> Option<i32>
    ensures { result ≡ option_and_then if_int (option_map (λ n. pos n) number) }
{
    match number {
        Some(n) if n <= 2_147_483_647 => Some(n as i32),
        _ => None,
    }
}

#[tactic(auto, using(crate::proofs::Walks::negative_fits, crate::proofs::Walks::negative_too_large))]
fn negative_int_of(number: Option<u64>) -> Option<i32>
    ensures { result ≡ option_and_then if_int (option_map (λ n. neg_ℤ (pos n)) number) }
{
    match number {
        Some(n) if n <= 2_147_483_648 => Some((-(n as i64)) as i32),
        _ => None,
    }
}

/// The int that a text spells: ASCII digits, of which there has to be one, behind a `-`, a `+` or neither. `None` where it
/// spells none, or one that is out of range.
#[tactic(auto, using(crate::proofs::Walks::minus, crate::proofs::Walks::plus, crate::proofs::Walks::plain))]
pub fn int_in(units: &[u16]) -> Option<i32>
    ensures { result ≡ int_in units.now }
{
    if units.is_empty() {
        return None;
    }
    let (_, digits) = units.split_at(1);
    if units[0] == 45 {
        return negative_int_of(capped_number(digits));
    }
    if units[0] == 43 {
        return int_of(capped_number(digits));
    }
    int_of(capped_number(units))
}
