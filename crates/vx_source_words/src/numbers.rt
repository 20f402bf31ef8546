//! Numbers in a source: decimal ones with a sign, and flags of four hexadecimal digits.

ghost use Rattle.std.specs.Prelude.{◌≡◌, ◌<◌, drop, slice_index, IsTrue, ◌==◌};
ghost use Rattle.std.specs.List.{list_all};
ghost use Rattle.vx_source_words.specs.Reading.{Gives};
ghost use Rattle.vx_source_words.specs.Numbers.{number_of, spelled, is_within, value, is_hex, hex_value, are_four_hex, four_hex};

use crate::fault::{LineFault, refused};
use vx_words::decimal_up_to;

/// From here on numbers are not told apart.
const LARGEST: u64 = 0x8000_0000_0000_0001;

/// A number with its sign.
#[derive(Clone, Copy, Debug, PartialEq, Eq)]
pub struct Number {
    pub negative: bool,
    pub magnitude: u64,
}

/// What stands behind the first byte.
fn behind_first(word: &[u8]) -> &[u8]
    ensures { result.now ≡ drop 1 word.now }
{
    match word {
        [_, rest @ ..] => rest,
        [] => word,
    }
}

/// Whether a minus stands in front.
fn is_negative(word: &[u8]) -> bool
    ensures { result ≡ (slice_index word.now 0 == 45) }
{
    match word {
        [first, ..] => *first == b'-',
        [] => false,
    }
}

/// The number that a word spells, or `None` where it spells none.
#[tactic(auto, unfolding(crate::specs::Numbers::number_of))]
pub fn number_of(word: &[u8]) -> Option<Number>
    ensures { result ≡ number_of word.now }
{
    let negative = is_negative(word);
    let digits = if negative { behind_first(word) } else { word };
    let magnitude = decimal_up_to(digits, LARGEST)?;
    Some(Number {
        negative,
        magnitude,
    })
}

/// The number that a word spells.
pub fn spelled(word: &[u8]) -> Result<Number, LineFault>
    ensures { Gives result (spelled word.now) }
{
    match number_of(word) {
        None => refused(2),
        Some(number) => Ok(number),
    }
}

/// Whether a number is at least `-low` and at most `high`.
pub fn is_within(low: u64, high: u64, number: Number) -> bool
    ensures { result ≡ is_within low high number }
{
    number.magnitude <= if number.negative { low } else { high }
}

/// The value of a number that 64 bits hold.
pub fn value(number: Number) -> i64
    requires { IsTrue (is_within 0x8000_0000_0000_0000 0x7fff_ffff_ffff_ffff number) }
    ensures { result ≡ value number }
{
    if number.negative {
        (-i128::from(number.magnitude)) as i64
    } else {
        number.magnitude as i64
    }
}

fn is_hex(byte: u8) -> bool
    ensures { result ≡ is_hex byte }
{
    matches!(byte, b'0'..=b'9' | b'A'..=b'F' | b'a'..=b'f')
}

fn are_hex(word: &[u8]) -> bool
    ensures { result ≡ list_all is_hex word.now }
{
    word.iter().all(|b| is_hex(*b))
}

/// Whether a word is four hexadecimal digits.
pub fn are_four_hex(word: &[u8]) -> bool
    ensures { result ≡ are_four_hex word.now }
{
    word.len() == 4 && are_hex(word)
}

/// The number of a hexadecimal digit.
fn hex_value(byte: u8) -> u16
    ensures value { result ≡ hex_value byte }
    ensures small { result < 16 }
{
    let low = u16::from(byte % 16);
    if byte <= b'9' { low } else { (low + 9) % 16 }
}

/// The byte at a place, or 0 behind the last one.
pub fn byte_at(word: &[u8], place: usize) -> u8
    ensures { result ≡ slice_index word.now place }
{
    match word.get(place) {
        Some(byte) => *byte,
        None => 0,
    }
}

/// The number of four hexadecimal digits.
pub fn four_hex(word: &[u8]) -> u16
    ensures { result ≡ four_hex word.now }
{
    let first = hex_value(byte_at(word, 0));
    let second = hex_value(byte_at(word, 1));
    let third = hex_value(byte_at(word, 2));
    let last = hex_value(byte_at(word, 3));
    4096 * first + 256 * second + 16 * third + last
}
